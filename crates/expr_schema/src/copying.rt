//! Copies of kinds.
ghost use Rattle.std.specs.Prelude.{◌≡◌, IfOk};
ghost use Rattle.expr_error.specs.ErrorKind.{OnlyMemory};
ghost use Rattle.expr_schema.specs.declared.kind.Fields.{out-Fields};

use crate::kind::{FieldKind, Fields, Kind};
use expr_value::{Boxed, OrderedMap, Result, Text};
use std::alloc::Global;

impl Kind {
    /// A copy of the kind.
    pub fn copy(&self, alloc: Global) -> Result<Kind>
        ensures ok { IfOk result (λ k. k ≡ self.now) }
        ensures err { OnlyMemory result }
    {
        copy_kind(alloc, self)
    }
}

impl Fields {
    /// A copy of the fields.
    pub fn copy(&self, alloc: Global) -> Result<Fields>
        ensures ok { IfOk result (λ f. f ≡ self.now) }
        ensures err { OnlyMemory result }
    {
        copy_fields(alloc, self)
    }
}

#[cycle(copy)]
fn copy_kind(alloc: Global, kind: &Kind) -> Result<Kind>
    ensures ok { IfOk result (λ k. k ≡ kind.now) }
    ensures err { OnlyMemory result }
{
    match kind {
        Kind::Any => Ok(Kind::Any),
        Kind::Never => Ok(Kind::Never),
        Kind::Nil => Ok(Kind::Nil),
        Kind::Bool => Ok(Kind::Bool),
        Kind::Integer => Ok(Kind::Integer),
        Kind::String => Ok(Kind::String),
        Kind::Bytes => Ok(Kind::Bytes),
        Kind::Duration => Ok(Kind::Duration),
        Kind::Month => Ok(Kind::Month),
        Kind::Weekday => Ok(Kind::Weekday),
        Kind::DateTime => Ok(Kind::DateTime),
        Kind::Timezone => Ok(Kind::Timezone),
        Kind::Array(item) => Ok(Kind::Array(copy_boxed(alloc, item)?)),
        Kind::Map(fields) => Ok(Kind::Map(copy_fields(alloc, fields)?)),
        Kind::KeyedMap(item) => Ok(Kind::KeyedMap(copy_boxed(alloc, item)?)),
        Kind::Nilable(inner) => Ok(Kind::Nilable(copy_boxed(alloc, inner)?)),
    }
}

#[cycle(copy)]
fn copy_boxed(alloc: Global, kind: &Boxed<Kind>) -> Result<Boxed<Kind>>
    ensures ok { IfOk result (λ k. k ≡ kind.now) }
    ensures err { OnlyMemory result }
{
    let copied = copy_kind(alloc, kind.get())?;
    Ok(Boxed::new(alloc, copied)?)
}

#[cycle(copy)]
fn copy_fields(alloc: Global, fields: &Fields) -> Result<Fields>
    ensures ok { IfOk result (λ f. f ≡ fields.now) }
    ensures err { OnlyMemory result }
{
    let named = copy_named(alloc, fields)?;
    match &fields.others {
        Some(kind) => {
            let others = Some(copy_boxed(alloc, kind)?);
            Ok(Fields { named, others })
        }
        None => {
            let others = None;
            Ok(Fields { named, others })
        }
    }
}

#[cycle(copy)]
fn copy_named(alloc: Global, fields: &Fields) -> Result<OrderedMap<Text, FieldKind>>
    ensures ok { IfOk result (λ m. m ≡ (out-Fields fields.now).named) }
    ensures err { OnlyMemory result }
{
    let names = fields.named.keys();
    let entries = fields.named.values();
    let mut named = OrderedMap::with_capacity(alloc, entries.len())?;
    for i in 0..entries.len() {
        let name = names[i].clone()?;
        let entry = copy_field(alloc, &entries[i])?;
        named.insert(name, entry)?;
    }
    Ok(named)
}

#[cycle(copy)]
fn copy_field(alloc: Global, field: &FieldKind) -> Result<FieldKind>
    ensures ok { IfOk result (λ f. f ≡ field.now) }
    ensures err { OnlyMemory result }
{
    let kind = copy_kind(alloc, &field.kind)?;
    let required = field.required;
    Ok(FieldKind { kind, required })
}
