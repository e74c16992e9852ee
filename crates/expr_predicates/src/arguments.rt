//! The direction of `sortBy` and `sort`, the built-ins that need no predicate, and what each built-in takes, for
//! messages.
ghost use Rattle.std.specs.Prelude.{◌≡◌};
ghost use Rattle.expr_value.specs.Answers.{ReturnsExactly};
ghost use Rattle.expr_value.specs.Values.{string_of};
ghost use Rattle.expr_predicates.specs.Calls.{direction_named, direction_of, runs_alone};

use expr_arguments::{CowValue, unexpected_text, unexpected_value};
use expr_functions::HigherOrderCall;
use expr_value::{Result, Value};
use std::alloc::Global;

/// Whether a built-in needs no predicate. Without one, each item is the predicate's result for itself.
pub(crate) fn runs_alone(call: HigherOrderCall) -> bool
    ensures { result ≡ runs_alone call }
{
    matches!(call, HigherOrderCall::Count | HigherOrderCall::Sum)
}

/// What a built-in takes, for messages.
pub(crate) fn takes(call: HigherOrderCall) -> &'static str {
    match call {
        HigherOrderCall::All => "all takes an array and a predicate",
        HigherOrderCall::Any => "any takes an array and a predicate",
        HigherOrderCall::NoneOf => "none takes an array and a predicate",
        HigherOrderCall::One => "one takes an array and a predicate",
        HigherOrderCall::Map => "map takes an array and a predicate",
        HigherOrderCall::Filter => "filter takes an array and a predicate",
        HigherOrderCall::Find => "find takes an array and a predicate",
        HigherOrderCall::FindIndex => "findIndex takes an array and a predicate",
        HigherOrderCall::FindLast => "findLast takes an array and a predicate",
        HigherOrderCall::FindLastIndex => "findLastIndex takes an array and a predicate",
        HigherOrderCall::Count => "count takes an array and an optional predicate",
        HigherOrderCall::Sum => "sum takes an array and an optional predicate",
        HigherOrderCall::Reduce =>
            "reduce takes an array, a predicate and an optional initial value",
        HigherOrderCall::GroupBy => "groupBy takes an array and a predicate",
        HigherOrderCall::SortBy => "sortBy takes an array, an optional order and a predicate",
    }
}

const ORDER: &str = "the order must be \"asc\" or \"desc\"";

/// Whether an order is descending: `"asc"` or `"desc"`. Any other value gives `ExprError`.
pub(crate) fn direction(alloc: Global, order: &Value) -> Result<bool>
    ensures { ReturnsExactly result (direction_named (string_of order.now)) }
{
    match order.as_string() {
        Some("desc") => Ok(true),
        Some("asc") => Ok(false),
        Some(other) => Err(unexpected_text(alloc, ORDER, other)),
        None => Err(unexpected_value(alloc, ORDER, order)),
    }
}

/// Whether an order is descending. It is ascending if it is missing.
pub(crate) fn is_downward(alloc: Global, order: Option<CowValue<'_>>) -> Result<bool>
    ensures { ReturnsExactly result (direction_of order.entry) }
{
    match order {
        Some(order) => direction(alloc, order.get()),
        None => Ok(false),
    }
}
