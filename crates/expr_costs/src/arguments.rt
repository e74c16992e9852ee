//! The sizes of a call's arguments.
ghost use Rattle.std.specs.Prelude.{MatchOption, ◌≡◌, ◌+◌, ◌<◌, ◌^◌, IfSome};
ghost use Rattle.expr_costs.specs.Calls.{first_count as parts_of_first, times_of as times};
ghost use Rattle.expr_costs.specs.Measures.{UpTo, argument as told, byte_count as bytes, colons_of as all_colons, items_in as parts, byte_units_of as units, all_byte_units as reads, pairwise_work, most_pieces as cuts, lookup_work as seeks};
ghost use Rattle.expr_limits.specs.Sizes.{weights as all_weigh};
ghost use Rattle.expr_value.specs.declared.value.Value as value;

use crate::measures::{
    byte_units_of, bytes_of, colons_of, count_of, entries_of, lookup_work, pairwise_work_of,
    weight_of,
};
use expr_arguments::CowValue;
use expr_value::Value;

/// The argument at a position, if there is one.
#[inline(always)]
#[tactic(auto, using(crate::proofs::Places::argument_is, crate::proofs::Places::argument_none))]
fn argument<'v>(arguments: &'v [CowValue<'_>], place: usize) -> Option<&'v Value>
    ensures { MatchOption result (told place arguments.now ≡ value.Nil)
        (λ v. told place arguments.now ≡ v.now) }
{
    if place >= arguments.len() {
        return None;
    }
    Some(arguments[place].get())
}

/// The number of bytes of the argument at a position.
#[inline(always)]
pub(crate) fn bytes_at(arguments: &[CowValue<'_>], place: usize) -> u64
    ensures bytes { result ≡ bytes (told place arguments.now) }
    ensures small { result < 2 ^ 63 }
{
    match argument(arguments, place) {
        Some(argument) => bytes_of(argument),
        None => 0,
    }
}

/// The number of bytes of the argument at a position, in units of 16.
#[inline(always)]
pub(crate) fn byte_units_at(arguments: &[CowValue<'_>], place: usize) -> u64
    ensures load { result ≡ units (told place arguments.now) }
    ensures small { result < 2 ^ 60 }
{
    bytes_at(arguments, place) / 16
}

/// The number of colons in the argument at a position.
pub(crate) fn colons_at(arguments: &[CowValue<'_>], place: usize) -> u64
    ensures { result ≡ all_colons (told place arguments.now) }
{
    match argument(arguments, place) {
        Some(argument) => colons_of(argument),
        None => 0,
    }
}

/// How often to repeat the first argument.
#[inline(always)]
pub(crate) fn times_of(arguments: &[CowValue<'_>]) -> u64
    ensures times { result ≡ times arguments.now }
    ensures small { result < 2 ^ 63 }
{
    match argument(arguments, 1) {
        Some(Value::Integer(n)) if *n >= 0 => *n as u64,
        _ => 0,
    }
}

/// The bytes of all strings and bytes among the arguments, in units of 16, up to a bound.
pub(crate) fn all_byte_units(arguments: &[CowValue<'_>], bound: u64) -> Option<u128>
    ensures all_byte_units { UpTo bound (reads arguments.now) (λ n. n) result }
    ensures small { IfSome result (λ n. n < 2 ^ 64) }
{
    let mut left = bound;
    for argument in arguments {
        left = left.checked_sub(byte_units_of(argument.get()))?;
    }
    Some((bound - left) as u128)
}

/// The number of items of the array, or of entries of the map, that is the first argument.
#[inline(always)]
pub(crate) fn first_count(arguments: &[CowValue<'_>]) -> u64
    ensures count { result ≡ parts_of_first arguments.now }
{
    match arguments.first() {
        Some(argument) => count_of(argument.get()),
        None => 0,
    }
}

/// The weight of all arguments, up to a bound.
pub(crate) fn weights(arguments: &[CowValue<'_>], bound: u64) -> Option<u64>
    ensures weights { UpTo bound (all_weigh arguments.now) (λ n. n) result }
{
    let mut left = bound;
    for argument in arguments {
        let weight = weight_of(argument.get(), left)?;
        left -= weight;
    }
    Some(bound - left)
}

/// The work of comparing each item of the first argument with the others, up to a bound.
pub(crate) fn first_pairwise(arguments: &[CowValue<'_>], bound: u64) -> Option<u128>
    ensures work { UpTo bound (pairwise_work (parts (told 0 arguments.now))) (λ n. n) result }
    ensures small { IfSome result (λ n. n < 2 ^ 65) }
{
    let [array, ..] = arguments else {
        return Some(0);
    };
    match array.get() {
        Value::Array(items) => pairwise_work_of(items.as_slice(), bound),
        _ => Some(0),
    }
}

/// The greatest number of pieces that the second string cuts the first into.
#[inline(always)]
pub(crate) fn pieces(arguments: &[CowValue<'_>]) -> u64
    ensures pieces { result ≡ cuts arguments.now }
    ensures small { result < 2 ^ 63 + 2 }
{
    bytes_at(arguments, 0) / bytes_at(arguments, 1).max(1) + 2
}

/// The work of looking the second argument up among the keys of the first.
#[inline(always)]
pub(crate) fn lookup_work_of(arguments: &[CowValue<'_>]) -> u64
    ensures work { result ≡ seeks (told 0 arguments.now) (told 1 arguments.now) }
    ensures small { result < 2 ^ 61 }
{
    match arguments {
        [] => 0,
        [value] => entries_of(value.get()) / 32,
        [value, key, ..] => lookup_work(value.get(), key.get()),
    }
}
