//! The kinds of samples, and the schemas of records.
ghost use Rattle.std.specs.Prelude.{◌≡◌, ℕ, List, None, IfOk};
ghost use Rattle.expr_context.specs.Contexts.{context_of};
ghost use Rattle.expr_error.specs.ErrorKind.{OnlyMemory};
ghost use Rattle.expr_schema.specs.KindView.{fields_view, kind_view};
ghost use Rattle.expr_schema.specs.Kinds.{Each, Fits, HasKind, Lets};
ghost use Rattle.expr_schema.specs.SchemaView.{scope_of};
ghost use Rattle.expr_schema.specs.Scopes.{AllStand, Conforms};

use crate::admits::is_of;
use crate::joining::{join, join_fields};
use crate::kind::{FieldKind, Fields, Kind};
use crate::schema::{Schema, fields_mismatch};
use expr_context::Context;
use expr_value::{Result, Value, ValueMap};
use std::alloc::Global;

impl Kind {
    /// A kind of a value. Each part of the value has the kind of its own value, and the items of an array, and the values
    /// of a map with scalars as keys, have a joined kind. No clause says that the kind has few other values.
    pub fn of(alloc: Global, value: &Value) -> Result<Kind>
        ensures ok { IfOk result (λ k. HasKind (kind_view k) value.now) }
        ensures err { OnlyMemory result }
    {
        kind_of_value(alloc, value)
    }

    /// A kind of each of some values: their joined kind. Of no values it is `Never`.
    pub fn of_each(alloc: Global, values: &[Value]) -> Result<Kind>
        ensures ok { IfOk result (λ k. Each (λ v. HasKind (kind_view k) v) values.now) }
        ensures err { OnlyMemory result }
    {
        kind_of_values(alloc, values)
    }
}

impl Schema {
    /// A schema that each of some records keeps to, as a draft to begin from. A name that all records have is required. It
    /// has no functions, and of no records no names.
    pub fn of_records(alloc: Global, records: &[Context]) -> Result<Schema>
        ensures records { IfOk result (λ s. Each (λ r. Conforms (scope_of s) (context_of r)) records.now) }
        ensures functions { IfOk result (λ s. (key : List ℕ) → (scope_of s).functions key ≡ None) }
        ensures err { OnlyMemory result }
    {
        let names = fields_of_records(alloc, records)?;
        let mut schema = Schema::new(alloc);
        schema.names = names;
        Ok(schema)
    }
}

#[cycle(samples)]
fn kind_of_value(alloc: Global, value: &Value) -> Result<Kind>
    ensures ok { IfOk result (λ k. HasKind (kind_view k) value.now) }
    ensures err { OnlyMemory result }
{
    match value {
        Value::Nil => Ok(Kind::Nil),
        Value::Bool(_) => Ok(Kind::Bool),
        Value::Integer(_) => Ok(Kind::Integer),
        Value::String(_) => Ok(Kind::String),
        Value::Bytes(_) => Ok(Kind::Bytes),
        Value::Duration(_) => Ok(Kind::Duration),
        Value::Month(_) => Ok(Kind::Month),
        Value::Weekday(_) => Ok(Kind::Weekday),
        Value::DateTime(_) => Ok(Kind::DateTime),
        Value::Timezone(_) => Ok(Kind::Timezone),
        Value::Array(items) => {
            let item = kind_of_values(alloc, items.as_slice())?;
            Kind::array(alloc, item)
        }
        Value::Map(map) => {
            let fields = fields_of_map(alloc, map)?;
            Ok(Kind::Map(fields))
        }
        Value::KeyedMap(map) => {
            let item = kind_of_values(alloc, map.values())?;
            Kind::keyed_map(alloc, item)
        }
    }
}

/// A kind of each of some values.
#[cycle(samples)]
fn kind_of_values(alloc: Global, values: &[Value]) -> Result<Kind>
    ensures ok { IfOk result (λ k. Each (λ v. HasKind (kind_view k) v) values.now) }
    ensures err { OnlyMemory result }
{
    let mut kind = Kind::Never;
    for value in values {
        kind = with_value(alloc, value, kind)?;
    }
    Ok(kind)
}

/// A kind that has the values of a kind, and one more. A value that is of the kind costs no more than a look.
#[cycle(samples)]
fn with_value(alloc: Global, value: &Value, kind: Kind) -> Result<Kind>
    ensures kept { IfOk result (λ k. Fits (kind_view kind) (kind_view k)) }
    ensures added { IfOk result (λ k. HasKind (kind_view k) value.now) }
    ensures err { OnlyMemory result }
{
    if is_of(value, &kind) {
        return Ok(kind);
    }
    let other = kind_of_value(alloc, value)?;
    join(alloc, &kind, &other)
}

/// Fields that require what a map has at its names, and let nothing stand at any other name.
#[cycle(samples)]
fn fields_of_map(alloc: Global, map: &ValueMap) -> Result<Fields>
    ensures ok { IfOk result (λ f. AllStand (fields_view f) map.now) }
    ensures err { OnlyMemory result }
{
    let names = map.keys();
    let values = map.values();
    let mut fields = Fields::new(alloc);
    for i in 0..values.len() {
        let kind = kind_of_value(alloc, &values[i])?;
        let required = true;
        let name = names[i].clone()?;
        fields.insert(name, FieldKind { kind, required })?;
    }
    Ok(fields)
}

/// Fields to which each of some records keeps.
fn fields_of_records(alloc: Global, records: &[Context]) -> Result<Fields>
    ensures ok { IfOk result (λ f. Each (λ r. AllStand (fields_view f) r) records.now) }
    ensures err { OnlyMemory result }
{
    match records.split_first() {
        None => Ok(Fields::new(alloc)),
        Some((first, rest)) => {
            let fields = fields_of_record(alloc, first)?;
            with_records(alloc, fields, rest)
        }
    }
}

/// Fields that let stand what some fields do, and to which each of some records keeps.
fn with_records(alloc: Global, fields: Fields, records: &[Context]) -> Result<Fields>
    ensures kept { IfOk result (λ f. (name : List ℕ) → Lets (fields_view fields) (fields_view f) name) }
    ensures added { IfOk result (λ f. Each (λ r. AllStand (fields_view f) r) records.now) }
    ensures err { OnlyMemory result }
{
    let mut fields = fields;
    for record in records {
        fields = with_record(alloc, fields, record)?;
    }
    Ok(fields)
}

/// Fields that let stand what some fields do, and to which one more record keeps.
fn with_record(alloc: Global, fields: Fields, context: &Context) -> Result<Fields>
    ensures kept { IfOk result (λ f. (name : List ℕ) → Lets (fields_view fields) (fields_view f) name) }
    ensures added { IfOk result (λ f. AllStand (fields_view f) context.now) }
    ensures err { OnlyMemory result }
{
    let keeps = fields_mismatch(context, &fields).is_none();
    if keeps {
        return Ok(fields);
    }
    let other = fields_of_record(alloc, context)?;
    join_fields(alloc, &fields, &other)
}

/// Fields that require what a record has at its names.
fn fields_of_record(alloc: Global, context: &Context) -> Result<Fields>
    ensures ok { IfOk result (λ f. AllStand (fields_view f) context.now) }
    ensures err { OnlyMemory result }
{
    let map = context.clone()?.into_map();
    fields_of_map(alloc, &map)
}
