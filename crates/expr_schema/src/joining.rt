//! A kind that has the values of two others.
ghost use Rattle.std.specs.Prelude.{◌≡◌, ◌↔◌, ℕ, List, Option, None, IfOk, IfSome, IsTrue, bytes_eq, option_map};
ghost use Rattle.std.specs.Map.{lookup};
ghost use Rattle.expr_error.specs.ErrorKind.{OnlyMemory};
ghost use Rattle.expr_schema.specs.Joins.{AddsField, EntryLets, HasNames, HoldsBoth, LetsInto, OthersLet};
ghost use Rattle.expr_schema.specs.KindView.{LetsOthers, fields_view, kind_view, others_of, entry_view};
ghost use Rattle.expr_schema.specs.Kinds.{Each, Fits, Lets};

use crate::fitting::is_same_scalar;
use crate::kind::{FieldKind, Fields, Kind};
use expr_value::{Boxed, OrderedMap, Result, Text};
use std::alloc::Global;

/// A kind that has the values of two kinds. Arrays and maps are joined part by part: a field that may be missing on one
/// side may be missing, and one that only one side has too. Kinds that have nothing in common are joined to `Any`. No
/// clause says that the kind has few other values.
#[cycle(join)]
pub fn join(alloc: Global, a: &Kind, b: &Kind) -> Result<Kind>
    ensures left { IfOk result (λ k. Fits (kind_view a.now) (kind_view k)) }
    ensures right { IfOk result (λ k. Fits (kind_view b.now) (kind_view k)) }
    ensures refusal { OnlyMemory result }
{
    let core = join_core(alloc, a, b.without_nil())?;
    if b.takes_nil() {
        let joined = Kind::nilable(alloc, core)?;
        return Ok(joined);
    }
    Ok(core)
}

/// A kind that has the values of two kinds, the second of which isn't nilable.
#[cycle(join)]
fn join_core(alloc: Global, a: &Kind, b: &Kind) -> Result<Kind>
    ensures left { IfOk result (λ k. Fits (kind_view a.now) (kind_view k)) }
    ensures right { IfOk result (λ k. Fits (kind_view b.now) (kind_view k)) }
    ensures refusal { OnlyMemory result }
{
    match a {
        Kind::Never => {
            let copied = b.copy(alloc)?;
            Ok(copied)
        }
        Kind::Nil => {
            let copied = b.copy(alloc)?;
            let joined = Kind::nilable(alloc, copied)?;
            Ok(joined)
        }
        Kind::Nilable(inner) => {
            let core = join_core(alloc, inner.get(), b)?;
            let joined = Kind::nilable(alloc, core)?;
            Ok(joined)
        }
        Kind::Array(item) => match b {
            Kind::Array(other) => {
                let part = join(alloc, item.get(), other.get())?;
                let joined = Kind::array(alloc, part)?;
                Ok(joined)
            }
            _ => join_unlike(alloc, a, b),
        },
        Kind::Map(fields) => match b {
            Kind::Map(other) => {
                let part = join_fields(alloc, fields, other)?;
                Ok(Kind::Map(part))
            }
            _ => join_unlike(alloc, a, b),
        },
        Kind::KeyedMap(item) => match b {
            Kind::KeyedMap(other) => {
                let part = join(alloc, item.get(), other.get())?;
                let joined = Kind::keyed_map(alloc, part)?;
                Ok(joined)
            }
            _ => join_unlike(alloc, a, b),
        },
        _ => join_unlike(alloc, a, b),
    }
}

/// A kind that has the values of two kinds, which have no parts in common.
fn join_unlike(alloc: Global, a: &Kind, b: &Kind) -> Result<Kind>
    ensures left { IfOk result (λ k. Fits (kind_view a.now) (kind_view k)) }
    ensures right { IfOk result (λ k. Fits (kind_view b.now) (kind_view k)) }
    ensures refusal { OnlyMemory result }
{
    match b {
        Kind::Never => {
            let copied = a.copy(alloc)?;
            Ok(copied)
        }
        Kind::Nil => {
            let copied = a.copy(alloc)?;
            let joined = Kind::nilable(alloc, copied)?;
            Ok(joined)
        }
        _ => {
            if is_same_scalar(a, b) {
                let copied = a.copy(alloc)?;
                return Ok(copied);
            }
            Ok(Kind::Any)
        }
    }
}

/// Fields that let stand at each name what two others do.
#[cycle(join)]
pub(crate) fn join_fields(alloc: Global, a: &Fields, b: &Fields) -> Result<Fields>
    ensures left { IfOk result (λ f. (name : List ℕ) → Lets (fields_view a.now) (fields_view f) name) }
    ensures right { IfOk result (λ f. (name : List ℕ) → Lets (fields_view b.now) (fields_view f) name) }
    ensures refusal { OnlyMemory result }
{
    let first = join_named(alloc, a, b)?;
    let named = join_unnamed(alloc, a, b, first)?;
    let others = join_others(alloc, a, b)?;
    Ok(Fields { named, others })
}

/// The first fields, each with what it lets stand or the second fields at its name.
#[cycle(join)]
fn join_named(alloc: Global, a: &Fields, b: &Fields) -> Result<OrderedMap<Text, FieldKind>>
    ensures holds { IfOk result (λ m. Each (HoldsBoth a.now b.now) m) }
    ensures covers { IfOk result (λ m. HasNames a.now m) }
    ensures refusal { OnlyMemory result }
{
    let names = a.named.keys();
    let entries = a.named.values();
    let mut named = OrderedMap::with_capacity(alloc, entries.len())?;
    for i in 0..entries.len() {
        let name = &names[i];
        let joined = join_entry(alloc, &entries[i], name, b)?;
        let copied = name.clone()?;
        named.insert(copied, joined)?;
    }
    Ok(named)
}

/// A field that lets stand what one does, and what other fields do at its name.
#[cycle(join)]
fn join_entry(alloc: Global, entry: &FieldKind, name: &Text, fields: &Fields) -> Result<FieldKind>
    ensures left { IfOk result (λ s. EntryLets (entry_view entry.now) (entry_view s)) }
    ensures right { IfOk result (λ s. LetsInto (fields_view fields.now) name.now (entry_view s)) }
    ensures refusal { OnlyMemory result }
{
    match fields.named.get_by_key(name) {
        Some(other) => {
            let kind = join(alloc, &entry.kind, &other.kind)?;
            let required = both_require(entry, other);
            Ok(FieldKind { kind, required })
        }
        None => {
            let kind = join_optional(alloc, &entry.kind, &fields.others)?;
            let required = false;
            Ok(FieldKind { kind, required })
        }
    }
}

/// Whether a value has to stand by two fields.
fn both_require(a: &FieldKind, b: &FieldKind) -> bool
    ensures left { IsTrue result → IsTrue (entry_view a.now).required }
    ensures right { IsTrue result → IsTrue (entry_view b.now).required }
{
    a.required && b.required
}

/// A kind that has the values of one kind, and those of another if there is one.
#[cycle(join)]
fn join_optional(alloc: Global, a: &Kind, b: &Option<Boxed<Kind>>) -> Result<Kind>
    ensures left { IfOk result (λ k. Fits (kind_view a.now) (kind_view k)) }
    ensures right { IfOk result (λ k. IfSome b.now (λ l. Fits (kind_view l) (kind_view k))) }
    ensures refusal { OnlyMemory result }
{
    match b {
        Some(kind) => join(alloc, a, kind.get()),
        None => a.copy(alloc),
    }
}

/// The joined fields, and the second fields that aren't among them, each with what it lets stand or the first fields
/// at its name.
#[cycle(join)]
fn join_unnamed(
    alloc: Global,
    a: &Fields,
    b: &Fields,
    named: OrderedMap<Text, FieldKind>,
) -> Result<OrderedMap<Text, FieldKind>>
    ensures holds { Each (HoldsBoth a.now b.now) named → HasNames a.now named
        → IfOk result (λ m. Each (HoldsBoth a.now b.now) m) }
    ensures covers { IfOk result (λ m. HasNames b.now m) }
    ensures keeps { HasNames a.now named → IfOk result (λ m. HasNames a.now m) }
    ensures refusal { OnlyMemory result }
{
    let names = b.named.keys();
    let entries = b.named.values();
    let mut named = named;
    for i in 0..entries.len() {
        named = join_unnamed_at(alloc, a, &names[i], &entries[i], named)?;
    }
    Ok(named)
}

/// The joined fields with one field more, unless its name is among them.
#[cycle(join)]
fn join_unnamed_at(
    alloc: Global,
    a: &Fields,
    name: &Text,
    entry: &FieldKind,
    named: OrderedMap<Text, FieldKind>,
) -> Result<OrderedMap<Text, FieldKind>>
    ensures kept { (lookup (bytes_eq name.now) named ≡ None → ⊥) → IfOk result (λ m. m ≡ named) }
    ensures added { lookup (bytes_eq name.now) named ≡ None
        → IfOk result (λ m. AddsField a.now name.now entry.now named m) }
    ensures refusal { OnlyMemory result }
{
    let mut named = named;
    if !lacks_name(&named, name) {
        return Ok(named);
    }
    let joined = join_unnamed_entry(alloc, a, entry)?;
    let copied = name.clone()?;
    named.insert(copied, joined)?;
    Ok(named)
}

/// Whether no field has a name.
fn lacks_name(named: &OrderedMap<Text, FieldKind>, name: &Text) -> bool
    ensures { IsTrue result ↔ (lookup (bytes_eq name.now) named.now ≡ None) }
{
    named.get_by_key(name).is_none()
}

/// A field that lets stand what one does, and what other fields do at a name that they don't have.
#[cycle(join)]
fn join_unnamed_entry(alloc: Global, fields: &Fields, entry: &FieldKind) -> Result<FieldKind>
    ensures left { IfOk result (λ s. LetsOthers (others_of fields.now) (entry_view s)) }
    ensures right { IfOk result (λ s. EntryLets (entry_view entry.now) (entry_view s)) }
    ensures refusal { OnlyMemory result }
{
    let required = false;
    match &fields.others {
        Some(kind) => {
            let kind = join(alloc, kind.get(), &entry.kind)?;
            Ok(FieldKind { kind, required })
        }
        None => {
            let kind = entry.kind.copy(alloc)?;
            Ok(FieldKind { kind, required })
        }
    }
}

/// What two fields let stand at the names that neither has.
#[cycle(join)]
fn join_others(alloc: Global, a: &Fields, b: &Fields) -> Result<Option<Boxed<Kind>>>
    ensures left { IfOk result (λ o. OthersLet (others_of a.now) (option_map kind_view o)) }
    ensures right { IfOk result (λ o. OthersLet (others_of b.now) (option_map kind_view o)) }
    ensures refusal { OnlyMemory result }
{
    match &a.others {
        Some(kind) => {
            let joined = join_optional(alloc, kind.get(), &b.others)?;
            Ok(Some(Boxed::new(alloc, joined)?))
        }
        None => match &b.others {
            Some(kind) => {
                let copied = kind.get().copy(alloc)?;
                Ok(Some(Boxed::new(alloc, copied)?))
            }
            None => Ok(None),
        },
    }
}
