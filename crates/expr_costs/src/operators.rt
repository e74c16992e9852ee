//! The costs of operators.
ghost use Rattle.std.specs.Prelude.{◌≡◌, ◌+◌, ◌*◌, ◌<◌, ◌^◌, IfSome, IsTrue, is_some};
ghost use Rattle.expr_costs.specs.Operators.{range_count, comparison_work, membership_work, sum_room, operator_room, operator_work, operand_pattern_weight, match_work};
ghost use Rattle.expr_costs.specs.Measures.{CostUpTo, UpTo, content_work};
ghost use Rattle.expr_operators.specs.Operators.{verdict};
ghost use Rattle.expr_operators.specs.Positions.{how_many};
ghost use Rattle.expr_value.specs.declared.value.Value.{out-Value};

use crate::cost::{Cost, work_and_room, work_cost};
use crate::measures::{byte_units_of, content_work_of, length_of, lookup_work, times};
use expr_functions::operator::Operator;
use expr_limits::weigh_pattern;
use expr_value::Value;

/// The cost of an operator on two values, up to a bound.
pub fn operator_cost(operator: Operator, left: &Value, right: &Value, bound: u64) -> Option<Cost>
    ensures { CostUpTo bound (operator_work operator left.now right.now)
        (operator_room operator left.now right.now) result }
{
    match operator {
        Operator::Equal | Operator::NotEqual => {
            Some(work_cost(comparison_work_of(left, right, bound)?))
        }
        Operator::GreaterThan
        | Operator::GreaterThanOrEqual
        | Operator::LessThan
        | Operator::LessThanOrEqual => {
            Some(work_cost(byte_units_of(left).min(byte_units_of(right)) as u128))
        }
        Operator::In | Operator::NotIn => Some(work_cost(membership_work_of(right, left, bound)?)),
        Operator::Contains => Some(work_cost(membership_work_of(left, right, bound)?)),
        Operator::StartsWith | Operator::EndsWith => Some(work_cost(byte_units_of(right) as u128)),
        Operator::Matches => match_cost(left, right, bound),
        Operator::Add => Some(work_and_room(0, sum_room_of(left, right))),
        _ => Some(work_cost(0)),
    }
}

/// The work of an operator on two strings, the left one of less than 16 bytes, or of seeking such a string or
/// an integer in an array of less than 32 items. It takes no room. Returns None for other values, and for an
/// operator that doesn't return a boolean for these.
#[inline(always)]
pub fn short_work(operator: Operator, left: &Value, right: &Value) -> Option<u64>
    ensures costs { IfSome result (λ work. (operator_work operator left.now right.now ≡ work)
        × (operator_room operator left.now right.now ≡ 0)) }
    ensures judged { IfSome result (λ work. IsTrue (is_some (verdict operator left.now right.now))) }
{
    match right {
        Value::Array(_) => work_among_items(operator, left, right),
        _ => work_on_texts(operator, left, right),
    }
}

/// The work of an operator with a short array on the right, if it is known at once.
#[inline(always)]
#[tactic(auto, unfolding(expr_operators::specs::Operators::verdict))]
fn work_among_items(operator: Operator, left: &Value, right: &Value) -> Option<u64>
    ensures costs { IfSome result (λ work. (operator_work operator left.now right.now ≡ work)
        × (operator_room operator left.now right.now ≡ 0)) }
    ensures judged { IfSome result (λ work. IsTrue (is_some (verdict operator left.now right.now))) }
{
    let is_plain = is_text_or_integer(left);
    if !is_plain {
        return None;
    }
    let Value::Array(_) = right else {
        return None;
    };
    let loads = byte_units_of(left);
    if loads > 0 {
        return None;
    }
    let count = length_of(right);
    if count > 31 {
        return None;
    }
    match operator {
        Operator::In => Some(1 + count),
        Operator::NotIn => Some(1 + count),
        _ => None,
    }
}

/// The work of an operator on two strings, if it is known at once.
#[inline(always)]
#[tactic(auto, unfolding(expr_operators::specs::Operators::verdict))]
fn work_on_texts(operator: Operator, left: &Value, right: &Value) -> Option<u64>
    ensures costs { IfSome result (λ work. (operator_work operator left.now right.now ≡ work)
        × (operator_room operator left.now right.now ≡ 0)) }
    ensures judged { IfSome result (λ work. IsTrue (is_some (verdict operator left.now right.now))) }
{
    let (Value::String(left), Value::String(right)) = (left, right) else {
        return None;
    };
    if left.len() >= 16 || right.len() >= 16 {
        return None;
    }
    match operator {
        Operator::Equal
        | Operator::NotEqual
        | Operator::GreaterThan
        | Operator::GreaterThanOrEqual
        | Operator::LessThan
        | Operator::LessThanOrEqual
        | Operator::StartsWith
        | Operator::EndsWith => Some(0),
        Operator::Contains => Some(1),
        _ => None,
    }
}

/// Whether a value is a string or an integer. A comparison reads nothing of these but their bytes.
#[inline(always)]
fn is_text_or_integer(value: &Value) -> bool
    ensures { IsTrue result → content_work value.now ≡ 0 }
{
    match value {
        Value::String(_) => true,
        Value::Integer(_) => true,
        _ => false,
    }
}

/// The room for the concatenation of two strings. It is 0 if the left value is not a string.
#[inline(always)]
fn sum_room_of(left: &Value, right: &Value) -> u128
    ensures { result ≡ sum_room left.now right.now }
{
    match left {
        Value::String(_) => 2 + (byte_units_of(left) + byte_units_of(right)) as u128,
        _ => 0,
    }
}

/// The work of comparing two values, up to a bound.
fn comparison_work_of(left: &Value, right: &Value, bound: u64) -> Option<u128>
    ensures work { UpTo bound (comparison_work left.now right.now) (λ n. n) result }
    ensures small { IfSome result (λ n. n < 2 ^ 124) }
{
    let texts = byte_units_of(left).min(byte_units_of(right)) as u128;
    Some(texts + content_work_of(left, bound)?)
}

/// The work of seeking a value in another, up to a bound.
fn membership_work_of(value: &Value, sought: &Value, bound: u64) -> Option<u128>
    ensures work { UpTo bound (membership_work value.now sought.now) (λ n. n) result }
{
    let one = 1 + comparison_work_of(sought, sought, bound)?;
    if one > bound as u128 {
        return None;
    }
    let others = times(length_of(value), one as u64, bound)? as u128;
    let texts = (lookup_work(value, sought) + 2 * byte_units_of(value)) as u128;
    Some(texts + (one + others))
}

/// The cost of compiling a pattern and searching a string with it, up to a bound. The pattern is weighed
/// once.
fn match_cost(text: &Value, pattern: &Value, bound: u64) -> Option<Cost>
    ensures { CostUpTo bound (match_work text.now pattern.now) (operand_pattern_weight pattern.now) result }
{
    let weight = weight_of_pattern(pattern, bound)?;
    let reading = times(byte_units_of(text), 1 + weight / 64, bound)?;
    Some(work_and_room(500 + (weight as u128 + reading as u128), weight as u128))
}

/// The weight of a value as a pattern, up to a bound. It is 0 if the value is not a string.
fn weight_of_pattern(pattern: &Value, bound: u64) -> Option<u64>
    ensures { UpTo bound (operand_pattern_weight pattern.now) (λ n. n) result }
{
    match pattern {
        Value::String(text) => match weigh_pattern(text.as_str(), bound) {
            Ok(left) => Some(bound - left),
            Err(_) => None,
        },
        _ => Some(0),
    }
}

/// The room for a range.
pub fn span_room(first: &Value, last: &Value) -> u128
    ensures room { result ≡ 4 + range_count (out-Value first.now) (out-Value last.now) }
{
    match (first, last) {
        (Value::Integer(first), Value::Integer(last)) => 4 + integers_between(*first, *last),
        _ => 4,
    }
}

/// How many integers there are from the first to the last.
#[tactic(auto, unfolding(expr_operators::specs::Positions::how_many))]
fn integers_between(first: i64, last: i64) -> u128
    ensures count { result ≡ how_many first last }
    ensures small { result < 2 ^ 65 }
{
    if first > last {
        return 0;
    }
    last.abs_diff(first) as u128 + 1
}
