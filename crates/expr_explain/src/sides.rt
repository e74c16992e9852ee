//! What an operator makes of the values of its sides.
ghost use Rattle.std.specs.Prelude.{◌≡◌, Ok, Err, IfOk, MatchOption};
ghost use Rattle.expr_error.specs.ErrorKind.{RefusesWith};
ghost use Rattle.expr_explain.specs.Choosing.{EndsWithLeft, GoesRight};
ghost use Rattle.expr_meaning.specs.Allows.{OperationMayReturn};
ghost use Rattle.expr_value.specs.Answers.{Returns};

use expr_functions::operator::Operator;
use expr_functions::{Strictness, strictness_of};
use expr_operators::{apply, as_truth, match_pattern, unexpected_kind};
use expr_pattern::{Matchers, Pattern};
use expr_value::{Result, Value};
use std::alloc::Global;

/// What an operator returns for its left side alone, if that is enough.
///
/// # Errors
///
/// Returns `ExprError` if the left side of `and` or `or` isn't a boolean.
pub(crate) fn left_alone(alloc: Global, operator: Operator, first: &Value) -> Result<Option<Value>>
    ensures ok { IfOk result (λ r. MatchOption r (GoesRight operator first.now)
        (λ v. EndsWithLeft operator first.now (Ok v))) }
    ensures refusal { RefusesWith result (λ k. EndsWithLeft operator first.now (Err k)) }
{
    match strictness_of(operator) {
        Strictness::Both | Strictness::Pattern => Ok(None),
        Strictness::EndsAtFalse => match first {
            Value::Bool(true) => Ok(None),
            Value::Bool(false) => Ok(Some(Value::Bool(false))),
            other => Err(unexpected_kind(alloc, "a Bool", other)),
        },
        Strictness::EndsAtTrue => match first {
            Value::Bool(true) => Ok(Some(Value::Bool(true))),
            Value::Bool(false) => Ok(None),
            other => Err(unexpected_kind(alloc, "a Bool", other)),
        },
    }
}

/// The value of an operator on two values, the left of which doesn't decide.
///
/// # Errors
///
/// Returns the errors of [`apply`] and of [`match_pattern`].
pub(crate) fn joined_sides(
    alloc: Global,
    operator: Operator,
    first: &Value,
    second: &Value,
    kept: Option<&Pattern>,
) -> Result<Value>
    requires { GoesRight operator first.now }
    ensures { Returns result (OperationMayReturn operator first.now (λ a. a ≡ Ok second.now)) }
{
    match strictness_of(operator) {
        Strictness::Both => apply(alloc, operator, first, second),
        Strictness::EndsAtFalse | Strictness::EndsAtTrue => as_truth(alloc, second),
        Strictness::Pattern => {
            let mut matchers = Matchers::new(alloc);
            match_pattern(alloc, &mut matchers, first, second, kept)
        }
    }
}
