//! The kinds of tables, and kinds in memory.
ghost use Rattle.std.specs.Prelude.{◌≡◌, IfOk, IfSome, IsTrue, map};
ghost use Rattle.expr_error.specs.ErrorKind.{OnlyMemory};
ghost use Rattle.expr_kinds.specs.Checks.{base_kind, row_view, side_kind};
ghost use Rattle.expr_kinds.specs.Typed.{OneOf};
ghost use Rattle.expr_schema.specs.KindView.{kind_view};
ghost use Rattle.expr_schema.specs.Kinds.{Fits, map as map_of, others};

use crate::tables::{Base, Side, TableRow};
use expr_schema::{Fields, Kind};
use expr_value::Result;
use std::alloc::Global;

/// The kind of the tables that has all values of a kind.
fn base_of(kind: &Kind) -> Base
    ensures { Fits (kind_view kind.now) (base_kind result) }
{
    match kind {
        Kind::Never => Base::Never,
        Kind::Nil => Base::Nil,
        Kind::Bool => Base::Bool,
        Kind::Integer => Base::Integer,
        Kind::String => Base::Text,
        Kind::Bytes => Base::Bytes,
        Kind::Duration => Base::Duration,
        Kind::Month => Base::Month,
        Kind::Weekday => Base::Weekday,
        Kind::DateTime => Base::DateTime,
        Kind::Timezone => Base::Timezone,
        Kind::Array(_) => Base::Items,
        Kind::Map(_) => Base::Map,
        Kind::KeyedMap(_) => Base::KeyedMap,
        Kind::Any | Kind::Nilable(_) => Base::Any,
    }
}

/// Whether each value of a kind is of a kind of the tables.
pub(crate) fn fits_base(kind: &Kind, wanted: Base) -> bool
    ensures { IsTrue result → Fits (kind_view kind.now) (base_kind wanted) }
{
    if let Base::Any = wanted {
        return true;
    }
    let base = base_of(kind);
    if let Base::Never = base {
        return true;
    }
    base == wanted
}

/// Whether each value of a kind may stand on a side of a row.
fn fits_side(kind: &Kind, wanted: Side) -> bool
    ensures { IsTrue result → Fits (kind_view kind.now) (side_kind wanted) }
{
    match wanted {
        Side::Of(base) => fits_base(kind, base),
        Side::OrNil(base) => match kind {
            Kind::Nil => true,
            Kind::Nilable(inner) => fits_base(inner.get(), base),
            _ => fits_base(kind, base),
        },
    }
}

/// The first row whose sides two kinds fit.
pub(crate) fn fitting_row(left: &Kind, right: &Kind, rows: &[TableRow]) -> Option<TableRow>
    ensures among { IfSome result (λ r. OneOf (λ q. q ≡ row_view r) (map row_view rows.now)) }
    ensures left { IfSome result (λ r. Fits (kind_view left.now) (row_view r).left) }
    ensures right { IfSome result (λ r. Fits (kind_view right.now) (row_view r).right) }
{
    for row in rows {
        if fits_side(left, row.left) && fits_side(right, row.right) {
            return Some(*row);
        }
    }
    None
}

/// A kind of the tables in memory.
pub(crate) fn kind_of_base(alloc: Global, base: Base) -> Result<Kind>
    ensures ok { IfOk result (λ k. kind_view k ≡ base_kind base) }
    ensures err { OnlyMemory result }
{
    match base {
        Base::Never => Ok(Kind::Never),
        Base::Nil => Ok(Kind::Nil),
        Base::Bool => Ok(Kind::Bool),
        Base::Integer => Ok(Kind::Integer),
        Base::Text => Ok(Kind::String),
        Base::Bytes => Ok(Kind::Bytes),
        Base::Duration => Ok(Kind::Duration),
        Base::Month => Ok(Kind::Month),
        Base::Weekday => Ok(Kind::Weekday),
        Base::DateTime => Ok(Kind::DateTime),
        Base::Timezone => Ok(Kind::Timezone),
        Base::Items => {
            let array = Kind::array(alloc, Kind::Any)?;
            Ok(array)
        }
        Base::KeyedMap => {
            let map = Kind::keyed_map(alloc, Kind::Any)?;
            Ok(map)
        }
        Base::Map => {
            let map = named_kind(alloc, Kind::Any)?;
            Ok(map)
        }
        Base::Any => Ok(Kind::Any),
    }
}

/// A map with names as keys, each of whose values is of a kind.
pub(crate) fn named_kind(alloc: Global, kind: Kind) -> Result<Kind>
    ensures ok { IfOk result (λ k. kind_view k ≡ map_of (others (kind_view kind))) }
    ensures err { OnlyMemory result }
{
    let mut fields = Fields::new(alloc);
    fields.open(alloc, kind)?;
    Ok(Kind::Map(fields))
}
