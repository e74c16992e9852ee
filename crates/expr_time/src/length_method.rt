//! Methods of durations, and the built-in `duration`.
ghost use Rattle.std.specs.Prelude.{◌≡◌, ◌≢◌, ◌<◌, Some, IfOk, MatchOption, string_bytes};
ghost use Rattle.expr_value.specs.Answers.{Returns, ReturnsExactly};
ghost use Rattle.expr_arguments.specs.Arguments.{without_arguments, one_duration};
ghost use Rattle.expr_datetime.specs.Durations.{duration_text};
ghost use Rattle.expr_time.specs.LengthMethods.{Duration, ReadsLength, absolute, method_answer, by_step, saturated_nanos, name_of, nearest, rounded_nanos, truncated_nanos};
ghost use Rattle.expr_error.specs.ErrorKind.{OnlyMemory};

use crate::spelling::parse_length;
use expr_arguments::{CowValue, one_duration, one_text, unexpected_arguments, without_arguments};
use expr_datetime::show_duration;
use expr_value::{Result, Text, Value, refusal};
use std::alloc::Global;
use std::fmt;
use std::fmt::{Formatter, Write};

/// A method of durations. Each variant has the language's own name.
#[derive(Clone, Copy, Debug, PartialEq, Eq)]
pub enum DurationMethod {
    Abs,
    Round,
    Truncate,
    Milliseconds,
    Microseconds,
    Nanoseconds,
    String,
}

impl DurationMethod {
    /// The method with this name, or `None`.
    pub fn from_name(name: &str) -> Option<DurationMethod>
        ensures { MatchOption result ((m : DurationMethod) → name_of m ≢ name.now)
            (λ m. name_of m ≡ name.now) }
    {
        match name {
            "Abs" => Some(DurationMethod::Abs),
            "Round" => Some(DurationMethod::Round),
            "Truncate" => Some(DurationMethod::Truncate),
            "Milliseconds" => Some(DurationMethod::Milliseconds),
            "Microseconds" => Some(DurationMethod::Microseconds),
            "Nanoseconds" => Some(DurationMethod::Nanoseconds),
            "String" => Some(DurationMethod::String),
            _ => None,
        }
    }

    /// Calls the method on a duration, given in nanoseconds.
    ///
    /// # Errors
    ///
    /// Returns [`ExprError`](expr_value::Error::ExprError) if the method doesn't take this number or these kinds of
    /// arguments.
    pub fn call(self, alloc: Global, nanoseconds: i64, arguments: &[CowValue<'_>]) -> Result<Value>
        ensures { ReturnsExactly result (method_answer self nanoseconds arguments.now) }
    {
        match self {
            DurationMethod::Abs => without_arguments(
                alloc,
                arguments,
                Value::Duration(absolute(nanoseconds)),
            ),
            DurationMethod::Round => round(alloc, nanoseconds, arguments),
            DurationMethod::Truncate => truncate(alloc, nanoseconds, arguments),
            DurationMethod::Milliseconds => {
                without_arguments(alloc, arguments, Value::Integer(nanoseconds / 1_000_000))
            }
            DurationMethod::Microseconds => {
                without_arguments(alloc, arguments, Value::Integer(nanoseconds / 1_000))
            }
            DurationMethod::Nanoseconds => without_arguments(
                alloc,
                arguments,
                Value::Integer(nanoseconds),
            ),
            DurationMethod::String => string(alloc, nanoseconds, arguments),
        }
    }
}

fn string(alloc: Global, nanoseconds: i64, arguments: &[CowValue<'_>]) -> Result<Value>
    ensures { ReturnsExactly result
        (without_arguments arguments.now (Value.String (duration_text nanoseconds))) }
{
    let answer = string_value(alloc, &nanoseconds)?;
    without_arguments(alloc, arguments, answer)
}

// The printed form of a duration.
fn string_value(alloc: Global, nanoseconds: &i64) -> Result<Value>
    ensures ok { IfOk result (λ v. v ≡ Value.String (duration_text nanoseconds.now)) }
    ensures err { OnlyMemory result }
{
    let text = text_of(alloc, nanoseconds)?;
    Ok(Value::String(Text::from_string(text)))
}

fn text_of(alloc: Global, nanoseconds: &i64) -> Result<String>
    ensures ok { IfOk result (λ s. string_bytes s ≡ duration_text nanoseconds.now) }
    ensures err { OnlyMemory result }
{
    let text = DurationText { nanoseconds };
    Ok(text.to_string(alloc)?)
}

// Nanoseconds that are printed as a duration.
#[derive(Drop)]
struct DurationText<'a> {
    nanoseconds: &'a i64,
}

impl<'a> fmt::Display for DurationText<'a> {
    ghost output = { λ d. Some (duration_text d.nanoseconds.now) };

    fn fmt<W: Write>(&self, f: &mut Formatter<W>) -> fmt::Result {
        show_duration(self.nanoseconds, f)
    }
}

// The duration without its sign. If that doesn't fit, it is the greatest duration.
fn absolute(nanoseconds: i64) -> i64
    ensures { result ≡ absolute nanoseconds }
{
    if nanoseconds == i64::MIN {
        return i64::MAX;
    }
    nanoseconds.abs()
}

fn truncate(alloc: Global, nanoseconds: i64, arguments: &[CowValue<'_>]) -> Result<Value>
    ensures { ReturnsExactly result (by_step (one_duration arguments.now) (truncated_nanos nanoseconds)) }
{
    let Some(step) = one_duration(arguments) else {
        return Err(unexpected_arguments(alloc, "Truncate takes a duration", arguments));
    };
    Ok(Value::Duration(truncated_to(nanoseconds, step)))
}

// Rounds toward zero to a multiple of `step`, if `step` is above zero.
fn truncated_to(nanoseconds: i64, step: i64) -> i64
    ensures { result ≡ truncated_nanos nanoseconds step }
{
    if step <= 0 {
        return nanoseconds;
    }
    nanoseconds / step * step
}

fn round(alloc: Global, nanoseconds: i64, arguments: &[CowValue<'_>]) -> Result<Value>
    ensures { ReturnsExactly result (by_step (one_duration arguments.now) (rounded_nanos nanoseconds)) }
{
    let Some(step) = one_duration(arguments) else {
        return Err(unexpected_arguments(alloc, "Round takes a duration", arguments));
    };
    Ok(Value::Duration(rounded_to(nanoseconds, step)))
}

// Rounds to the nearest multiple of `step`, if `step` is above zero. Halves are rounded away from zero.
fn rounded_to(nanoseconds: i64, step: i64) -> i64
    ensures { result ≡ rounded_nanos nanoseconds step }
{
    if step <= 0 {
        return nanoseconds;
    }
    let size = nearest(nanoseconds.unsigned_abs(), step.unsigned_abs());
    if nanoseconds < 0 {
        return saturate(-(size as i128));
    }
    saturate(size as i128)
}

fn nearest(size: u64, step: u64) -> u128
    requires { 0 < step }
    ensures value { result ≡ nearest size step }
    ensures small { result < 1000000000000000000000 }
{
    let steps = (size as u128 * 2 + step as u128) / (step as u128 * 2);
    steps * step as u128
}

// Limits nanoseconds to the range of 64 bits.
fn saturate(nanoseconds: i128) -> i64
    ensures { result ≡ saturated_nanos nanoseconds }
{
    if nanoseconds > i64::MAX as i128 {
        return i64::MAX;
    }
    if nanoseconds < i64::MIN as i128 {
        return i64::MIN;
    }
    nanoseconds as i64
}

/// `duration`: the duration that a string spells, which must fit in 64 bits of nanoseconds.
///
/// # Errors
///
/// Returns `ExprError` if there isn't one argument, or it isn't a string that spells such a duration.
pub fn duration(alloc: Global, arguments: &[CowValue<'_>]) -> Result<Value>
    ensures { Returns result (Duration arguments.now) }
{
    let Some(text) = one_text(arguments) else {
        return Err(unexpected_arguments(alloc, "duration takes a string", arguments));
    };
    read(alloc, text)
}

fn read(alloc: Global, text: &str) -> Result<Value>
    ensures { Returns result (ReadsLength text.now) }
{
    match parse_length(text) {
        Some(nanoseconds) => Ok(Value::Duration(nanoseconds)),
        None => Err(refusal(
            alloc,
            "duration takes a string such as \"1h30m\", within 64 bits of nanoseconds",
        )),
    }
}
