//! The check of literals, ranges, conditionals and `??`, by what is known of their parts.
ghost use Rattle.std.specs.Prelude.{IfOk, IsTrue, true, false};
ghost use Rattle.expr_error.specs.ErrorKind.{OnlyMemory};
ghost use Rattle.expr_kinds.specs.Checks.{Checks, ChecksBlock, ChecksBound, KeepsKind};
ghost use Rattle.expr_kinds.specs.Narrowing.{assuming};
ghost use Rattle.expr_schema.specs.KindView.{kind_view};
ghost use Rattle.expr_schema.specs.Scopes.{Scope};
ghost use Rattle.expr_tree.specs.Term.{Block, Bound, Term, choice, coalesce, literal, postfix, range, slice, ternary};

use crate::bases::fits_base;
use crate::checked::{Checked, joined_effect};
use crate::operations::sides_effect;
use crate::tables::Base;
use expr_schema::{Effect, Kind, join};
use expr_value::{Result, Value};
use std::alloc::Global;

/// What is known of a literal.
pub(crate) fn literal_checked(alloc: Global, value: &Value) -> Result<Checked>
    ensures ok { IfOk result (λ c. (s : Scope) → Checks c s (literal value.now)) }
    ensures err { OnlyMemory result }
{
    let kind = Kind::of(alloc, value)?;
    Ok(Checked {
        kind,
        effect: Effect::Total,
    })
}

/// What is known of a range.
pub(crate) fn range_checked(alloc: Global, first: &Checked, last: &Checked) -> Result<Checked>
    ensures ok { IfOk result (λ c. (s : Scope) (a b : Term) → Checks first.now s a → Checks last.now s b
        → Checks c s (range a b)) }
    ensures err { OnlyMemory result }
{
    match sides_effect(Base::Integer, first, last) {
        Some(effect) => {
            let kind = Kind::array(alloc, Kind::Integer)?;
            Ok(Checked { kind, effect })
        }
        None => Ok(Checked::unknown()),
    }
}

/// What is known of a condition that chooses between two branches: their joined kind.
pub(crate) fn choice_checked(
    alloc: Global,
    test: &Checked,
    first: &Checked,
    second: &Checked,
) -> Result<Checked>
    ensures choice { IfOk result (λ c. (s : Scope) (t : Term) (a b : Block) → Checks test.now s t
        → ChecksBlock first.now (assuming t true s) a → ChecksBlock second.now (assuming t false s) b
        → Checks c s (choice t a b)) }
    ensures ternary { IfOk result (λ c. (s : Scope) (t a b : Term) → Checks test.now s t
        → Checks first.now (assuming t true s) a → Checks second.now (assuming t false s) b
        → Checks c s (postfix (ternary a b) t)) }
    ensures err { OnlyMemory result }
{
    if !fits_base(&test.kind, Base::Bool) {
        return Ok(Checked::unknown());
    }
    let kind = join(alloc, &first.kind, &second.kind)?;
    let branches = joined_effect(first.effect, second.effect);
    let effect = joined_effect(test.effect, branches);
    Ok(Checked { kind, effect })
}

/// What is known of `??`: what the operand is if it isn't nil, joined with the other side.
pub(crate) fn coalesce_checked(alloc: Global, operand: &Checked, other: &Checked) -> Result<Checked>
    ensures ok { IfOk result (λ c. (s : Scope) (t u : Term) → Checks operand.now s t → Checks other.now s u
        → Checks c s (postfix (coalesce u) t)) }
    ensures err { OnlyMemory result }
{
    let core = operand.kind.without_nil();
    let kind = join(alloc, core, &other.kind)?;
    let effect = joined_effect(operand.effect, other.effect);
    Ok(Checked { kind, effect })
}

/// What is known of a slice, by what is known of its bounds: it is of the kind of its operand.
pub(crate) fn slice_checked(
    alloc: Global,
    operand: &Checked,
    start: &Checked,
    stop: &Checked,
) -> Result<Checked>
    ensures ok { IfOk result (λ c. (s : Scope) (t : Term) (a b : Bound) → Checks operand.now s t
        → ChecksBound start.now s a → ChecksBound stop.now s b → Checks c s (postfix (slice a b) t)) }
    ensures err { OnlyMemory result }
{
    if !keeps_kind(&operand.kind) {
        return Ok(Checked::unknown());
    }
    match sides_effect(Base::Integer, start, stop) {
        Some(bounds) => {
            let kind = operand.kind.copy(alloc)?;
            let effect = joined_effect(operand.effect, bounds);
            Ok(Checked { kind, effect })
        }
        None => Ok(Checked::unknown()),
    }
}

/// Whether a slice of a value of a kind is of that kind.
fn keeps_kind(kind: &Kind) -> bool
    ensures { IsTrue result → KeepsKind (kind_view kind.now) }
{
    match kind {
        Kind::Array(_) => true,
        Kind::String => true,
        Kind::Bytes => true,
        _ => false,
    }
}
