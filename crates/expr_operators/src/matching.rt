//! `matches`: whether a pattern matches anywhere in a string.
ghost use Rattle.std.specs.Prelude.{◌≡◌, ℕ, List, Some};
ghost use Rattle.std.specs.Option.{option_copied};
ghost use Rattle.expr_operators.specs.Matching.{MatchMayReturn};
ghost use Rattle.expr_value.specs.Answers.{Returns};
ghost use Rattle.expr_error.specs.ErrorKind.{RefusesNoPattern};

use crate::messages::mismatch;
use expr_functions::operator::Operator;
use expr_pattern::{Matchers, Pattern};
use expr_value::{Result, Value};
use std::alloc::Global;

/// Whether the pattern on the right matches anywhere in the string on the left. Both kinds are checked before a pattern
/// is compiled. A compiled pattern in `kept` is used if its source is the right string, and otherwise ignored. What is
/// made for a pattern is kept in `matchers` for the next call.
///
/// # Errors
///
/// Returns `ExprError` if the two aren't strings. Returns `RegexError` if the right string can't be compiled, which is
/// impossible if `kept` has its pattern.
#[inline(never)]
pub fn match_pattern<'p>(
    alloc: Global,
    matchers: &mut Matchers<'p>,
    text: &Value,
    source: &Value,
    kept: Option<&'p Pattern>,
) -> Result<Value>
    ensures answer { Returns result (MatchMayReturn text.now source.now) }
    ensures kept { (s : List ℕ) → source.now ≡ Value.String s → option_copied kept.entry ≡ Some s
        → RefusesNoPattern result }
{
    match (text, source) {
        (Value::String(text), Value::String(source)) => {
            let found = matchers.matches(alloc, text.as_str(), source.as_str(), kept)?;
            Ok(Value::Bool(found))
        }
        _ => Err(mismatch(alloc, &Operator::Matches, text, source)),
    }
}
