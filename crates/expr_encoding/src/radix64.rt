//! Base64 of strings, in the standard alphabet with padding (RFC 4648, section 4).
ghost use Rattle.expr_value.specs.Answers.{Returns, ReturnsExactly};
ghost use Rattle.expr_encoding.specs.Base64.{Decodes, FromBase64, encoded_text, in_base64};

use base64::DecodeAllocError;
use base64::engine::general_purpose::STANDARD;
use expr_arguments::unexpected_value;
use expr_value::{Error, Result, Text, Value, refusal};
use std::alloc::Global;

/// Encodes a string in Base64, in the standard alphabet with padding.
///
/// # Errors
///
/// Returns `ExprError` if the value isn't a string.
pub fn to_base64(alloc: Global, value: &Value) -> Result<Value>
    ensures { ReturnsExactly result (in_base64 value.now) }
{
    match value {
        Value::String(text) => Ok(Value::String(encode(alloc, text.as_str())?)),
        _ => Err(unexpected_value(alloc, "toBase64 takes a string", value)),
    }
}

/// Decodes a string from Base64, in the standard alphabet with padding.
///
/// # Errors
///
/// Returns `ExprError` if the value isn't a string, or isn't the Base64 of UTF-8.
pub fn from_base64(alloc: Global, value: &Value) -> Result<Value>
    ensures { Returns result (FromBase64 value.now) }
{
    match value {
        Value::String(text) => Ok(Value::String(decode(alloc, text.as_str())?)),
        _ => Err(unexpected_value(alloc, "fromBase64 takes a string", value)),
    }
}

fn encode(alloc: Global, text: &str) -> Result<Text>
    ensures { ReturnsExactly result (encoded_text text.now) }
{
    Ok(Text::from_string(STANDARD.encode(alloc, text.as_bytes())?))
}

fn decode(alloc: Global, text: &str) -> Result<Text>
    ensures { Returns result (Decodes text.now) }
{
    let bytes = match STANDARD.decode(alloc, text.as_bytes()) {
        Ok(bytes) => bytes,
        Err(DecodeAllocError::OutOfMemory) => return Err(Error::MemoryError),
        Err(DecodeAllocError::DecodeError(_)) => return Err(refusal(
            alloc,
            "the string is not valid Base64",
        )),
    };
    match String::from_utf8(bytes) {
        Ok(decoded) => Ok(Text::from_string(decoded)),
        Err(_) => Err(refusal(alloc, "the decoded bytes are not valid UTF-8")),
    }
}
