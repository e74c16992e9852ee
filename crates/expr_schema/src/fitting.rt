//! Whether each value of one kind is of another.
ghost use Rattle.std.specs.Prelude.{◌≡◌, ℕ, List, Some, None, IsSome, IsTrue};
ghost use Rattle.expr_schema.specs.Kinds.{Fits, Found, HasKind, Lets, StandsAt};
ghost use Rattle.expr_schema.specs.KindView.{fields_view, kind_view, named_of, others_of, entry_view, LetsOthers, LetsEntry};
ghost use Rattle.expr_value.specs.Names.{find};
ghost use Rattle.expr_value.specs.declared.value.Value.{Value};

use crate::kind::{FieldKind, Fields, Kind};
use expr_value::Text;

/// Whether each value of kind `a` is of kind `b`. `false` says nothing: it is also returned for some kinds with no
/// values, such as a map with a required field of kind `Never`.
#[cycle(fits)]
pub fn fits(a: &Kind, b: &Kind) -> bool
    ensures { IsTrue result → Fits (kind_view a.now) (kind_view b.now) }
{
    let core = b.without_nil();
    if matches!(core, Kind::Any) {
        return true;
    }
    match a {
        Kind::Never => true,
        Kind::Nil => b.takes_nil(),
        Kind::Nilable(inner) => b.takes_nil() && fits(inner.get(), b),
        Kind::Array(item) => match core {
            Kind::Array(other) => fits(item.get(), other.get()),
            _ => false,
        },
        Kind::Map(fields) => match core {
            Kind::Map(other) => fields_fit(fields, other),
            _ => false,
        },
        Kind::KeyedMap(item) => match core {
            Kind::KeyedMap(other) => fits(item.get(), other.get()),
            _ => false,
        },
        _ => is_same_scalar(a, core),
    }
}

/// Whether two kinds are the same kind without parts.
pub(crate) fn is_same_scalar(a: &Kind, b: &Kind) -> bool
    ensures { IsTrue result → kind_view a.now ≡ kind_view b.now }
{
    match a {
        Kind::Bool => matches!(b, Kind::Bool),
        Kind::Integer => matches!(b, Kind::Integer),
        Kind::String => matches!(b, Kind::String),
        Kind::Bytes => matches!(b, Kind::Bytes),
        Kind::Duration => matches!(b, Kind::Duration),
        Kind::Month => matches!(b, Kind::Month),
        Kind::Weekday => matches!(b, Kind::Weekday),
        Kind::DateTime => matches!(b, Kind::DateTime),
        Kind::Timezone => matches!(b, Kind::Timezone),
        _ => false,
    }
}

/// Whether each map that keeps to some fields keeps to others.
#[cycle(fits)]
fn fields_fit(a: &Fields, b: &Fields) -> bool
    ensures { IsTrue result → (name : List ℕ) → Lets (fields_view a.now) (fields_view b.now) name }
{
    named_fit(a, b) && unnamed_fit(a, b) && others_fit(a, b)
}

/// Whether what stands at each name of some fields may stand there by others.
#[cycle(fits)]
fn named_fit(a: &Fields, b: &Fields) -> bool
    ensures { IsTrue result → (name : List ℕ) → IsSome (find name (named_of a.now))
        → Lets (fields_view a.now) (fields_view b.now) name }
{
    let names = a.named.keys();
    let entries = a.named.values();
    for i in 0..entries.len() {
        if !entry_fits(&entries[i], &names[i], b) {
            return false;
        }
    }
    true
}

/// Whether what one field lets stand may stand at a name.
#[cycle(fits)]
fn entry_fits(entry: &FieldKind, name: &Text, fields: &Fields) -> bool
    ensures { IsTrue result → LetsEntry (entry_view entry.now) (fields_view fields.now) name.now }
{
    match fields.named.get_by_key(name) {
        Some(other) => {
            if other.required && !entry.required {
                return false;
            }
            fits(&entry.kind, &other.kind)
        }
        None => match &fields.others {
            Some(kind) => fits(&entry.kind, kind.get()),
            None => false,
        },
    }
}

/// Whether what stands at the names that only the second fields have may stand there.
#[cycle(fits)]
fn unnamed_fit(a: &Fields, b: &Fields) -> bool
    ensures { IsTrue result → (name : List ℕ) → find name (named_of a.now) ≡ None
        → IsSome (find name (named_of b.now)) → Lets (fields_view a.now) (fields_view b.now) name }
{
    let names = b.named.keys();
    let entries = b.named.values();
    for i in 0..entries.len() {
        let name = &names[i];
        let entry = &entries[i];
        if a.lacks(name) && !unnamed_fits(a, entry) {
            return false;
        }
    }
    true
}

/// Whether what stands at a name that the fields don't have may stand where another field does.
#[cycle(fits)]
fn unnamed_fits(fields: &Fields, entry: &FieldKind) -> bool
    ensures { IsTrue result → LetsOthers (others_of fields.now) (entry_view entry.now) }
{
    if entry.required {
        return false;
    }
    match &fields.others {
        Some(kind) => fits(kind.get(), &entry.kind),
        None => true,
    }
}

/// Whether what stands at a name that neither fields have may stand there.
#[cycle(fits)]
fn others_fit(a: &Fields, b: &Fields) -> bool
    ensures { IsTrue result → (name : List ℕ) → find name (named_of a.now) ≡ None
        → find name (named_of b.now) ≡ None → Lets (fields_view a.now) (fields_view b.now) name }
{
    match &a.others {
        Some(kind) => match &b.others {
            Some(other) => fits(kind.get(), other.get()),
            None => false,
        },
        None => true,
    }
}
