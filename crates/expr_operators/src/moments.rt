//! DateTimes plus or minus durations, and the duration between two DateTimes.
ghost use Rattle.expr_value.specs.Answers.{ReturnsExactly};
ghost use Rattle.expr_datetime.specs.ShiftedMoments.{moment_later, moment_earlier};
ghost use Rattle.expr_moment.specs.Fields.{between};
ghost use Rattle.expr_moment.specs.Zones.{moment_or_refusal};

use expr_value::{DateTimeValue, Result, Value, refusal};
use std::alloc::Global;

/// The DateTime `nanoseconds` later, in the same zone.
///
/// # Errors
///
/// Returns `ExprError` if it is out of range.
pub fn later(alloc: Global, moment: &DateTimeValue, nanoseconds: &i64) -> Result<Value>
    ensures { ReturnsExactly result (moment_or_refusal (moment_later moment.now nanoseconds.now)) }
{
    let moment = moment.clone()?;
    moment_or_refusal(alloc, moment.checked_add_signed(*nanoseconds))
}

/// The DateTime `nanoseconds` earlier, in the same zone.
///
/// # Errors
///
/// Returns `ExprError` if it is out of range.
pub fn earlier(alloc: Global, moment: &DateTimeValue, nanoseconds: &i64) -> Result<Value>
    ensures { ReturnsExactly result (moment_or_refusal (moment_earlier moment.now nanoseconds.now)) }
{
    let moment = moment.clone()?;
    moment_or_refusal(alloc, moment.checked_sub_signed(*nanoseconds))
}

/// The duration from `other` to `moment`.
///
/// # Errors
///
/// Returns `ExprError` if it does not fit in 64 bits of nanoseconds.
pub fn difference(alloc: Global, moment: &DateTimeValue, other: &DateTimeValue) -> Result<Value>
    ensures { ReturnsExactly result (between moment.now other.now) }
{
    match moment.checked_difference(other) {
        Some(nanoseconds) => Ok(Value::Duration(nanoseconds)),
        None => Err(refusal(
            alloc,
            "the DateTimes are too far apart for a Duration, at most some 292 years",
        )),
    }
}

fn moment_or_refusal(alloc: Global, moment: Option<DateTimeValue>) -> Result<Value>
    ensures { ReturnsExactly result (moment_or_refusal moment) }
{
    match moment {
        Some(moment) => Value::datetime(alloc, moment),
        None => Err(refusal(alloc, "the DateTime is out of range, years -9999 to 9999")),
    }
}
