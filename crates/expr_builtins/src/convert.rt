//! Built-ins that convert values.
ghost use Rattle.std.specs.Prelude.{◌≡◌};
ghost use Rattle.expr_value.specs.declared.value.Value.{out-Value};
ghost use Rattle.expr_value.specs.Answers.{Returns};
ghost use Rattle.expr_builtins.specs.Conversions.{ConversionCalled, Int, ReadsInteger, string, kind_text, type_name};

use expr_arguments::{
    CowValue, one_value, unexpected_arguments, unexpected_text, unexpected_value,
};
use expr_functions::ConversionCall;
use expr_value::{Result, Text, Value};
use std::alloc::Global;

/// Calls a built-in that converts, with these arguments.
///
/// # Errors
///
/// Returns [`ExprError`](expr_value::Error::ExprError) if the built-in doesn't take this number or these kinds of
/// arguments, or if `int` finds no 64-bit integer in a string.
pub fn call_conversion(
    alloc: Global,
    call: ConversionCall,
    arguments: &[CowValue<'_>],
) -> Result<Value>
    ensures { Returns result (ConversionCalled call arguments.now) }
{
    match call {
        ConversionCall::Int => int(alloc, arguments),
        ConversionCall::String => string(alloc, arguments),
        ConversionCall::Type => type_name(alloc, arguments),
    }
}

/// `int`: an integer itself, or the integer that a string writes with an optional sign and ASCII digits. It must fit in
/// 64 bits.
fn int(alloc: Global, arguments: &[CowValue<'_>]) -> Result<Value>
    ensures { Returns result (Int arguments.now) }
{
    let Some(value) = one_value(arguments) else {
        return Err(unexpected_arguments(alloc, "int takes one value", arguments));
    };
    match value {
        Value::Integer(number) => Ok(Value::Integer(*number)),
        Value::String(text) => read(alloc, text.as_str()),
        _ => Err(unexpected_value(alloc, "int takes an integer or a string", value)),
    }
}

fn read(alloc: Global, text: &str) -> Result<Value>
    ensures { Returns result (ReadsInteger text.now) }
{
    match text.parse::<i64>() {
        Ok(number) => Ok(Value::Integer(number)),
        Err(_) => Err(unexpected_text(
            alloc,
            "int takes a string with an optional sign and digits, within 64 bits",
            text,
        )),
    }
}

/// `string`: a value in print. A string is itself, and the pairs of a map are in the order of their keys.
fn string(alloc: Global, arguments: &[CowValue<'_>]) -> Result<Value>
    ensures { Returns result (λ answer. answer ≡ string arguments.now) }
{
    let Some(value) = one_value(arguments) else {
        return Err(unexpected_arguments(alloc, "string takes one value", arguments));
    };
    let text = value.string_text(alloc)?;
    Ok(Value::String(Text::from_string(text)))
}

/// `type`: the name of a value's kind.
fn type_name(alloc: Global, arguments: &[CowValue<'_>]) -> Result<Value>
    ensures { Returns result (λ answer. answer ≡ type_name arguments.now) }
{
    let Some(value) = one_value(arguments) else {
        return Err(unexpected_arguments(alloc, "type takes one value", arguments));
    };
    Value::text(alloc, kind_text(value))
}

fn kind_text(value: &Value) -> &'static str
    ensures { result.now ≡ kind_text (out-Value value.now) }
{
    match value {
        Value::Nil => "nil",
        Value::Bool(_) => "bool",
        Value::Integer(_) => "int",
        Value::String(_) => "string",
        Value::Array(_) | Value::Bytes(_) => "array",
        Value::Map(_) | Value::KeyedMap(_) => "map",
        Value::DateTime(_) => "time.Time",
        Value::Duration(_) => "time.Duration",
        Value::Timezone(_) => "time.Location",
        Value::Month(_) => "time.Month",
        Value::Weekday(_) => "time.Weekday",
    }
}
