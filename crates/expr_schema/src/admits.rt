//! Whether values are of their kinds.
ghost use Rattle.std.specs.Prelude.{◌≡◌, ◌≢◌, ◌↔◌, ℕ, List, Some, None, IsTrue};
ghost use Rattle.expr_schema.specs.Kinds.{Each, HasKind, IsNilable, StandsAt};
ghost use Rattle.expr_schema.specs.KindView.{fields_view, kind_view};
ghost use Rattle.expr_value.specs.Names.{find};
ghost use Rattle.expr_value.specs.declared.value.Value.{Nil, Value};

use crate::kind::{Fields, Kind};
use expr_value::{Text, Value, ValueMap};

/// Whether a value is of a kind. Each part of the value is looked at once.
#[cycle(values)]
pub fn is_of(value: &Value, kind: &Kind) -> bool
    ensures { IsTrue result ↔ HasKind (kind_view kind.now) value.now }
{
    if value.is_nil() {
        return kind.takes_nil();
    }
    is_other(value, kind.without_nil())
}

/// Whether a value that isn't nil is of a kind that isn't nilable.
#[cycle(values)]
fn is_other(value: &Value, kind: &Kind) -> bool
    ensures { value.now ≢ Nil → ¬ IsNilable (kind_view kind.now)
        → (IsTrue result ↔ HasKind (kind_view kind.now) value.now) }
{
    match kind {
        Kind::Any => true,
        Kind::Bool => matches!(value, Value::Bool(_)),
        Kind::Integer => matches!(value, Value::Integer(_)),
        Kind::String => matches!(value, Value::String(_)),
        Kind::Bytes => matches!(value, Value::Bytes(_)),
        Kind::Duration => matches!(value, Value::Duration(_)),
        Kind::Month => matches!(value, Value::Month(_)),
        Kind::Weekday => matches!(value, Value::Weekday(_)),
        Kind::DateTime => matches!(value, Value::DateTime(_)),
        Kind::Timezone => matches!(value, Value::Timezone(_)),
        Kind::Array(item) => match value {
            Value::Array(items) => are_of(items.as_slice(), item.get()),
            _ => false,
        },
        Kind::Map(fields) => match value {
            Value::Map(map) => stand(map, fields),
            _ => false,
        },
        Kind::KeyedMap(item) => match value {
            Value::KeyedMap(map) => are_of(map.values(), item.get()),
            _ => false,
        },
        Kind::Never | Kind::Nil | Kind::Nilable(_) => false,
    }
}

#[cycle(values)]
fn are_of(values: &[Value], kind: &Kind) -> bool
    ensures { IsTrue result ↔ Each (λ v. HasKind (kind_view kind.now) v) values.now }
{
    for value in values {
        if !is_of(value, kind) {
            return false;
        }
    }
    true
}

/// Whether what a map has at each name may stand there.
#[cycle(values)]
pub fn stand(map: &ValueMap, fields: &Fields) -> bool
    ensures { IsTrue result ↔ ((name : List ℕ) → StandsAt (fields_view fields.now) name (find name map.now)) }
{
    names_stand(map, fields) && required_stand(map, fields)
}

/// Whether each value of a map may stand at its name.
#[cycle(values)]
fn names_stand(map: &ValueMap, fields: &Fields) -> bool
    ensures { IsTrue result ↔ ((name : List ℕ) (v : Value) → find name map.now ≡ Some v
        → StandsAt (fields_view fields.now) name (Some v)) }
{
    let names = map.keys();
    let values = map.values();
    for i in 0..values.len() {
        if !may_stand(&values[i], &names[i], fields) {
            return false;
        }
    }
    true
}

/// Whether a value may stand at a name.
#[cycle(values)]
pub(crate) fn may_stand(value: &Value, name: &Text, fields: &Fields) -> bool
    ensures { IsTrue result ↔ StandsAt (fields_view fields.now) name.now (Some value.now) }
{
    match fields.named.get_by_key(name) {
        Some(field) => is_of(value, &field.kind),
        None => match &fields.others {
            Some(kind) => is_of(value, kind.get()),
            None => false,
        },
    }
}

/// Whether nothing has to stand at each name that a map lacks.
fn required_stand(map: &ValueMap, fields: &Fields) -> bool
    ensures { IsTrue result ↔ ((name : List ℕ) → find name map.now ≡ None
        → StandsAt (fields_view fields.now) name None) }
{
    let names = fields.named.keys();
    let entries = fields.named.values();
    for i in 0..entries.len() {
        let name = &names[i];
        if entries[i].required && lacks(map, name) {
            return false;
        }
    }
    true
}

/// Whether a map has no value of a name.
fn lacks(map: &ValueMap, name: &Text) -> bool
    ensures { IsTrue result ↔ (find name.now map.now ≡ None) }
{
    map.get_by_key(name).is_none()
}
