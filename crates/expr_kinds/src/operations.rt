//! The check of operators before an operand and between two.
ghost use Rattle.std.specs.Prelude.{◌≡◌, ◌∷◌, [], IfOk, IfSome};
ghost use Rattle.expr_error.specs.ErrorKind.{OnlyMemory};
ghost use Rattle.expr_functions.specs.Strictness.{operator_strictness};
ghost use Rattle.expr_functions.specs.declared.strictness.Strictness.TheVariants.{Both};
ghost use Rattle.expr_kinds.specs.Checks.{Checks, SideFits, base_kind, literals_view};
ghost use Rattle.expr_kinds.specs.Narrowing.{after};
ghost use Rattle.expr_kinds.specs.Typed.{literal_of};
ghost use Rattle.expr_schema.specs.SchemaView.{effect_of};
ghost use Rattle.expr_schema.specs.Scopes.{Scope};
ghost use Rattle.expr_tree.specs.Term.{Term, operation, unary};

use crate::bases::{fits_base, fitting_row, kind_of_base};
use crate::checked::{Checked, joined_effect};
use crate::known_literals::cause_effect;
use crate::tables::{Base, rows_of, taken_by};
use expr_functions::operator::{Operator, UnaryOperator};
use expr_functions::{Strictness, strictness_of};
use expr_schema::{Effect, Kind};
use expr_value::{Result, Value};
use std::alloc::Global;

/// What is known of an operator before its operand.
pub(crate) fn prefix_checked(
    alloc: Global,
    operator: UnaryOperator,
    operand: &Checked,
) -> Result<Checked>
    ensures ok { IfOk result (λ c. (s : Scope) (t : Term) → Checks operand.now s t
        → Checks c s (unary operator t)) }
    ensures err { OnlyMemory result }
{
    let base = taken_by(operator);
    if !fits_base(&operand.kind, base) {
        return Ok(Checked::unknown());
    }
    let kind = kind_of_base(alloc, base)?;
    Ok(Checked {
        kind,
        effect: operand.effect,
    })
}

/// What is known of an operator between its operands, each of which may be a literal.
pub(crate) fn operation_checked(
    alloc: Global,
    operator: Operator,
    left: &Checked,
    right: &Checked,
    literals: &[Option<&Value>],
) -> Result<Checked>
    ensures ok { IfOk result (λ c. (s : Scope) (l r : Term)
        → literals_view literals.now ≡ literal_of l ∷ literal_of r ∷ [] → Checks left.now s l
        → Checks right.now (after (operator_strictness operator) l s) r
        → Checks c s (operation operator l r)) }
    ensures err { OnlyMemory result }
{
    match strictness_of(operator) {
        Strictness::Both => row_checked(alloc, operator, left, right, literals),
        Strictness::EndsAtFalse => match sides_effect(Base::Bool, left, right) {
            Some(effect) => Ok(Checked {
                kind: Kind::Bool,
                effect,
            }),
            None => Ok(Checked::unknown()),
        },
        Strictness::EndsAtTrue => match sides_effect(Base::Bool, left, right) {
            Some(effect) => Ok(Checked {
                kind: Kind::Bool,
                effect,
            }),
            None => Ok(Checked::unknown()),
        },
        Strictness::Pattern => match sides_effect(Base::Text, left, right) {
            Some(sides) => {
                let effect = joined_effect(sides, Effect::Matching);
                Ok(Checked {
                    kind: Kind::Bool,
                    effect,
                })
            }
            None => Ok(Checked::unknown()),
        },
    }
}

/// The errors that may come of both sides, if both are of a kind.
pub(crate) fn sides_effect(wanted: Base, left: &Checked, right: &Checked) -> Option<Effect>
    ensures left { IfSome result (λ f. SideFits left.now (base_kind wanted) (effect_of f)) }
    ensures right { IfSome result (λ f. SideFits right.now (base_kind wanted) (effect_of f)) }
{
    if fits_base(&left.kind, wanted) && fits_base(&right.kind, wanted) {
        return Some(joined_effect(left.effect, right.effect));
    }
    None
}

/// What is known of an operator that evaluates both operands, by the first row of its table that fits.
fn row_checked(
    alloc: Global,
    operator: Operator,
    left: &Checked,
    right: &Checked,
    literals: &[Option<&Value>],
) -> Result<Checked>
    ensures ok { operator_strictness operator ≡ Both → IfOk result (λ c. (s : Scope) (l r : Term)
        → literals_view literals.now ≡ literal_of l ∷ literal_of r ∷ []
        → Checks left.now s l → Checks right.now s r
        → Checks c s (operation operator l r)) }
    ensures err { OnlyMemory result }
{
    match fitting_row(&left.kind, &right.kind, rows_of(operator)) {
        Some(row) => {
            let kind = kind_of_base(alloc, row.gives)?;
            let sides = joined_effect(left.effect, right.effect);
            let own = cause_effect(row.cause, literals);
            let effect = joined_effect(sides, own);
            Ok(Checked { kind, effect })
        }
        None => Ok(Checked::unknown()),
    }
}
