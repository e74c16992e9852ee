//! The costs of calls.
ghost use Rattle.std.specs.Prelude.{◌≡◌, ◌+◌, ◌*◌, ◌∷◌, ◌<◌, ◌^◌, IfSome, length};
ghost use Rattle.expr_costs.specs.Calls.{call_room, call_work, room_of, work_of};
ghost use Rattle.expr_costs.specs.Measures.{CostUpTo, all_byte_units as reads, insertion_work as puts};
ghost use Rattle.expr_limits.specs.Sizes.{name_weights, weights as all_weigh};

use crate::arguments::{
    all_byte_units, byte_units_at, bytes_at, colons_at, first_count, first_pairwise,
    lookup_work_of, pieces, times_of, weights,
};
use crate::cost::{Cost, work_and_room, work_cost};
use crate::cost_kind::CostKind;
use crate::measures::{byte_units_of, insertion_work, product, times};
use expr_arguments::CowValue;
use expr_limits::take_names;
use expr_meaning::Functions;
use expr_value::{Text, Value};

/// The steps of finding the function of a name.
const DISPATCH_STEPS: u128 = 8;

/// The cost of a call by its name and arguments, up to a bound. A function of the host counts as reading all
/// of its arguments. `added` says whether the host has added a function of this name.
pub fn call_cost<H: Functions>(
    _host: &H,
    added: bool,
    name: &str,
    arguments: &[CowValue<'_>],
    bound: u64,
) -> Option<Cost>
    requires { added ≡ (H.host _host.now).is_added name.now }
    ensures { CostUpTo bound (call_work (H.host _host.now) name.now arguments.now)
        (call_room (H.host _host.now) name.now arguments.now) result }
{
    let cost = if added {
        work_cost(weights(arguments, bound)? as u128)
    } else {
        cost_of(CostKind::from_name(name), arguments, bound)?
    };
    Some(work_and_room(DISPATCH_STEPS + cost.work, cost.room))
}

/// The cost of a method by its value and arguments, up to a bound.
pub fn method_cost(value: &Value, arguments: &[CowValue<'_>], bound: u64) -> Option<Cost>
    ensures { CostUpTo bound (50 + 4 * reads (value.now ∷ arguments.now)) 0 result }
{
    let loads = byte_units_of(value) as u128 + all_byte_units(arguments, bound)?;
    Some(work_cost(50 + 4 * loads))
}

/// The cost of an array of these values, up to a bound.
pub fn array_cost(values: &[CowValue<'_>], bound: u64) -> Option<Cost>
    ensures { CostUpTo bound 0 (4 + all_weigh values.now) result }
{
    Some(work_and_room(0, 4 + weights(values, bound)? as u128))
}

/// The cost of a map of these values under these names, up to a bound.
pub fn map_cost(names: &[Text], values: &[CowValue<'_>], bound: u64) -> Option<Cost>
    ensures { CostUpTo bound (puts (length names.now))
        (8 + (name_weights names.now + all_weigh values.now)) result }
{
    let left = take_names(names, bound).ok()?;
    let values = weights(values, bound)?;
    let room = 8 + ((bound - left) as u128 + values as u128);
    Some(work_and_room(insertion_work(names.len() as u64), room))
}

/// The cost of a call of this kind, without the work of finding its name.
fn cost_of(kind: CostKind, arguments: &[CowValue<'_>], bound: u64) -> Option<Cost>
    ensures cost { CostUpTo bound (work_of kind arguments.now) (room_of kind arguments.now) result }
    ensures small { IfSome result (λ c. c.work < 2 ^ 127) }
{
    let cost = match kind {
        CostKind::Finds => work_cost(0),
        CostKind::Reads => work_cost(2 * all_byte_units(arguments, bound)?),
        CostKind::Times => work_cost(50 + 4 * all_byte_units(arguments, bound)?),
        CostKind::Trims => work_cost(32 * all_byte_units(arguments, bound)?),
        CostKind::Cases => {
            let loads = all_byte_units(arguments, bound)?;
            work_and_room(2 * loads, 2 + 3 * loads)
        }
        CostKind::Splits => split_cost(arguments, bound)?,
        CostKind::Replaces => replacement_cost(arguments, bound)?,
        CostKind::Repeats => {
            let bytes = product(bytes_at(arguments, 0), times_of(arguments));
            work_and_room(0, 2 + bytes / 16)
        }
        CostKind::Joins => join_cost(arguments, bound)?,
        CostKind::Copies => work_and_room(0, 2 * (weights(arguments, bound)? as u128)),
        CostKind::Seeks => work_cost(lookup_work_of(arguments) as u128),
        CostKind::Pairs => {
            let weight = weights(arguments, bound)? as u128;
            work_and_room(insertion_work(first_count(arguments)), weight)
        }
        CostKind::Compares => comparison_cost(arguments, bound)?,
        CostKind::Sorts => {
            let weight = weights(arguments, bound)? as u128;
            work_and_room(16 * weight, weight)
        }
        CostKind::Groups => work_cost(insertion_work(first_count(arguments))),
        CostKind::Walks => work_cost(first_count(arguments) as u128),
        CostKind::Weighs => work_cost(weights(arguments, bound)? as u128),
        CostKind::Prints => {
            let weight = weights(arguments, bound)? as u128;
            work_and_room(4 * weight, 4 * weight)
        }
        CostKind::Writes => {
            let weight = weights(arguments, bound)? as u128;
            work_and_room(8 * weight, 8 * weight)
        }
        CostKind::Parses => parse_cost(arguments, bound)?,
        CostKind::Recodes => work_and_room(0, 2 + 2 * all_byte_units(arguments, bound)?),
    };
    Some(cost)
}

/// The cost of splitting a string.
fn split_cost(arguments: &[CowValue<'_>], bound: u64) -> Option<Cost>
    ensures cost { CostUpTo bound (work_of CostKind.Splits arguments.now)
        (room_of CostKind.Splits arguments.now) result }
    ensures small { IfSome result (λ c. c.work < 2 ^ 127) }
{
    let loads = all_byte_units(arguments, bound)?;
    Some(work_and_room(2 * loads, 4 + (2 * loads + 3 * (pieces(arguments) as u128))))
}

/// The cost of replacing one string by another.
fn replacement_cost(arguments: &[CowValue<'_>], bound: u64) -> Option<Cost>
    ensures cost { CostUpTo bound (work_of CostKind.Replaces arguments.now)
        (room_of CostKind.Replaces arguments.now) result }
    ensures small { IfSome result (λ c. c.work < 2 ^ 127) }
{
    let loads = all_byte_units(arguments, bound)?;
    let pieces = pieces(arguments);
    let made = times(pieces, 1 + byte_units_at(arguments, 2), bound)? as u128;
    Some(work_and_room(2 * loads + pieces as u128, 2 + (2 * loads + made)))
}

/// The cost of joining strings.
fn join_cost(arguments: &[CowValue<'_>], bound: u64) -> Option<Cost>
    ensures cost { CostUpTo bound (work_of CostKind.Joins arguments.now)
        (room_of CostKind.Joins arguments.now) result }
    ensures small { IfSome result (λ c. c.work < 2 ^ 127) }
{
    let weight = weights(arguments, bound)? as u128;
    let count = first_count(arguments);
    let marks = times(count, 1 + byte_units_at(arguments, 1), bound)? as u128;
    Some(work_and_room(count as u128, 2 + (weight + marks)))
}

/// The cost of comparing the items of an array with each other.
fn comparison_cost(arguments: &[CowValue<'_>], bound: u64) -> Option<Cost>
    ensures cost { CostUpTo bound (work_of CostKind.Compares arguments.now)
        (room_of CostKind.Compares arguments.now) result }
    ensures small { IfSome result (λ c. c.work < 2 ^ 127) }
{
    let weight = weights(arguments, bound)? as u128;
    let keys = insertion_work(first_count(arguments));
    let pairs = first_pairwise(arguments, bound)?;
    Some(work_and_room(32 * weight + (keys + pairs), weight))
}

/// The cost of parsing a string as JSON.
fn parse_cost(arguments: &[CowValue<'_>], bound: u64) -> Option<Cost>
    ensures cost { CostUpTo bound (work_of CostKind.Parses arguments.now)
        (room_of CostKind.Parses arguments.now) result }
    ensures small { IfSome result (λ c. c.work < 2 ^ 127) }
{
    let loads = all_byte_units(arguments, bound)?;
    let keys = insertion_work(colons_at(arguments, 0));
    let bytes = bytes_at(arguments, 0) as u128;
    Some(work_and_room(4 * loads + keys, 8 + 4 * bytes))
}
