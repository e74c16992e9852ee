//! Built-ins on time.
ghost use Rattle.std.specs.Option.{option_copied};
ghost use Rattle.expr_value.specs.Answers.{Returns};
ghost use Rattle.expr_time.specs.Calls.{TimeCallMayReturn};

use crate::date::date;
use crate::length_method::duration;
use crate::zones::{Zones, now, timezone};
use expr_arguments::CowValue;
use expr_functions::TimeCall;
use expr_value::{DateTimeValue, Result, Value};
use std::alloc::Global;

/// Calls a built-in on time with these arguments, in the time zones that the program has added and with the DateTime
/// that it has set for `now`.
///
/// # Errors
///
/// Returns [`ExprError`](expr_value::Error::ExprError) if the built-in doesn't take this number or these kinds of
/// arguments, or has no result for them.
pub fn call_time<Z: Zones>(
    alloc: Global,
    call: TimeCall,
    zones: &Z,
    moment: Option<&DateTimeValue>,
    arguments: &[CowValue<'_>],
) -> Result<Value>
    ensures { Returns result
        (TimeCallMayReturn (Z.zones zones.now) (option_copied moment.entry) call arguments.now) }
{
    match call {
        TimeCall::Date => date(alloc, zones, arguments),
        TimeCall::Duration => duration(alloc, arguments),
        TimeCall::Now => now(alloc, moment, arguments),
        TimeCall::Timezone => timezone(alloc, zones, arguments),
    }
}
