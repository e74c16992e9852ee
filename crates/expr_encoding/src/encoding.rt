//! Built-ins for encodings.
ghost use Rattle.expr_value.specs.Answers.{Returns, ReturnsExactly};
ghost use Rattle.expr_encoding.specs.Calls.{EncodingMayReturn, Encodes, in_json_text, of_json};

use crate::radix64::{from_base64, to_base64};
use crate::reading::from_json;
use crate::writing::to_json;
use expr_arguments::{CowValue, one_value, unexpected_arguments, unexpected_value};
use expr_functions::EncodingCall;
use expr_value::{Result, Value};
use std::alloc::Global;

/// Calls a built-in that reads or writes an encoding, with one argument.
///
/// # Errors
///
/// Returns [`ExprError`](expr_value::Error::ExprError) if the built-in doesn't take this number or these kinds of
/// arguments, or if the value can't be encoded or decoded.
pub fn call_encoding(alloc: Global, call: EncodingCall, arguments: &[CowValue<'_>]) -> Result<Value>
    ensures { Returns result (EncodingMayReturn call arguments.now) }
{
    let Some(value) = one_value(arguments) else {
        return Err(unexpected_arguments(alloc, "expected one argument", arguments));
    };
    encode(alloc, call, value)
}

fn encode(alloc: Global, call: EncodingCall, value: &Value) -> Result<Value>
    ensures { Returns result (Encodes call value.now) }
{
    match call {
        EncodingCall::FromJson => read_json(alloc, value),
        EncodingCall::ToJson => write_json(alloc, value),
        EncodingCall::ToBase64 => to_base64(alloc, value),
        EncodingCall::FromBase64 => from_base64(alloc, value),
    }
}

fn read_json(alloc: Global, value: &Value) -> Result<Value>
    ensures { ReturnsExactly result (of_json value.now) }
{
    match value {
        Value::String(text) => from_json(alloc, text.as_str()),
        _ => Err(unexpected_value(alloc, "fromJSON takes a string", value)),
    }
}

fn write_json(alloc: Global, value: &Value) -> Result<Value>
    ensures { ReturnsExactly result (in_json_text value.now) }
{
    let text = to_json(alloc, value)?;
    Ok(Value::String(text))
}
