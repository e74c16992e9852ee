//! The walk that measures a value with all its parts.
ghost use Rattle.std.specs.Prelude.{◌≡◌, ◌+◌, ◌<◌, ◌≤◌, IfOk, IfErr, IsTrue};
ghost use Rattle.expr_limits.specs.Sizes.{AreBare, IsBare, PassesValueLimit, deepest, depth, inner_weight, weight, weights};

use crate::units::{byte_units, take, take_keys, take_names};
use crate::value_limit::ValueLimit;
use expr_value::Value;

/// Subtracts the weight of a value from `room`, in units.
///
/// A value weighs 1 for its slot, plus what it holds elsewhere. A string or bytes hold 1, and 1 for each whole 16
/// bytes. A DateTime or a time zone holds 5. An array holds 3 and the weights of its items. A map holds 7 and, for each
/// pair, 3 and the weights of key and value. A scalar has depth 0, and an array or a map one more than its deepest
/// part. The walk visits no more parts than there is room for, goes no deeper than `depths`, and allocates nothing.
///
/// # Errors
///
/// Returns `Weight` if the value weighs more than `room`, `Depth` if it is deeper than `depths`. If both hold, either
/// is returned.
#[cycle(walk)]
#[inline(always)]
pub fn weigh(value: &Value, room: u64, depths: usize) -> Result<u64, ValueLimit>
    ensures within { IfOk result (λ left. (weight value.now + left ≡ room) × (depth value.now ≤ depths)) }
    ensures passed { IfErr result (λ p. PassesValueLimit p (weight value.now) (depth value.now) room depths) }
{
    let left = take(room, 1)?;
    if weighs_one(value) {
        return Ok(left);
    }
    weigh_inside(value, left, depths)
}

/// Subtracts the weight of a value without its slot from `room`, in units.
///
/// # Errors
///
/// Returns the errors of [`weigh`].
#[cycle(walk)]
pub fn weigh_inside(value: &Value, room: u64, depths: usize) -> Result<u64, ValueLimit>
    ensures within { IfOk result
        (λ left. (inner_weight value.now + left ≡ room) × (depth value.now ≤ depths)) }
    ensures passed { IfErr result
        (λ p. PassesValueLimit p (inner_weight value.now) (depth value.now) room depths) }
{
    match value {
        Value::String(text) => take(room, 1 + byte_units(text.len())),
        Value::Bytes(bytes) => take(room, 1 + byte_units(bytes.len())),
        Value::DateTime(_) => take(room, 5),
        Value::Timezone(_) => take(room, 5),
        Value::Array(items) => {
            let left = take(room, 3)?;
            weigh_items(items.as_slice(), left, depths)
        }
        Value::Map(map) => {
            let left = take_names(map.keys(), take(room, 7)?)?;
            weigh_items(map.values(), left, depths)
        }
        Value::KeyedMap(map) => {
            let left = take_keys(map.keys(), take(room, 7)?)?;
            weigh_items(map.values(), left, depths)
        }
        _ => Ok(room),
    }
}

// Measures the items of an array that may be `depths` deep.
#[cycle(walk)]
fn weigh_items(items: &[Value], room: u64, depths: usize) -> Result<u64, ValueLimit>
    ensures within { IfOk result (λ left. (weights items.now + left ≡ room) × (deepest items.now < depths)) }
    ensures passed { IfErr result
        (λ p. PassesValueLimit p (weights items.now) (1 + deepest items.now) room depths) }
{
    if depths == 0 {
        return Err(ValueLimit::Depth);
    }
    if weigh_one_each(items) {
        return take(room, items.len() as u64);
    }
    let mut left = room;
    for item in items {
        left = weigh(item, left, depths - 1)?;
    }
    Ok(left)
}

// Whether none of these values holds anything elsewhere. Integers are checked four at a time.
#[inline(always)]
fn weigh_one_each(items: &[Value]) -> bool
    ensures { IsTrue result → AreBare items.now }
{
    let mut left = items;
    while let [first, second, third, fourth, rest @ ..] = left {
        if !are_integers(first, second, third, fourth) {
            return are_plain_each(left);
        }
        left = rest;
    }
    are_plain_each(left)
}

// Whether four values are integers. They are tested together, without a jump between.
#[inline(always)]
fn are_integers(first: &Value, second: &Value, third: &Value, fourth: &Value) -> bool
    ensures { IsTrue result → IsBare first.now × (IsBare second.now
        × (IsBare third.now × IsBare fourth.now)) }
{
    is_integer(first) & is_integer(second) & (is_integer(third) & is_integer(fourth))
}

#[inline(always)]
fn is_integer(value: &Value) -> bool
    ensures { IsTrue result → IsBare value.now }
{
    matches!(value, Value::Integer(_))
}

// Whether none of these values holds anything elsewhere, checked one by one.
#[inline(always)]
fn are_plain_each(items: &[Value]) -> bool
    ensures { IsTrue result → AreBare items.now }
{
    for item in items {
        if !weighs_one(item) {
            return false;
        }
    }
    true
}

/// Whether a value is an integer, a boolean or nil, which hold nothing elsewhere.
#[inline(always)]
pub fn weighs_one(value: &Value) -> bool
    ensures { IsTrue result → IsBare value.now }
{
    matches!(value, Value::Integer(_) | Value::Bool(_) | Value::Nil)
}
