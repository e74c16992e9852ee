//! Which operands an operator evaluates.
ghost use Rattle.std.specs.Prelude.{◌≡◌};
ghost use Rattle.expr_functions.specs.Strictness.{operator_strictness};

use crate::operator::Operator;

/// Which operands an operator evaluates, and what it does with their values.
#[derive(Clone, Copy, Debug)]
pub enum Strictness {
    /// Evaluates both operands. The result depends on their values.
    Both,
    /// Returns `false` if the left operand is `false`. Evaluates the right operand only if it is `true`.
    EndsAtFalse,
    /// Returns `true` if the left operand is `true`. Evaluates the right operand only if it is `false`.
    EndsAtTrue,
    /// Evaluates both operands. The right one is a regular expression.
    Pattern,
}

/// The strictness of an operator.
pub fn strictness_of(operator: Operator) -> Strictness
    ensures { result ≡ operator_strictness operator }
{
    match operator {
        Operator::And => Strictness::EndsAtFalse,
        Operator::Or => Strictness::EndsAtTrue,
        Operator::Matches => Strictness::Pattern,
        _ => Strictness::Both,
    }
}
