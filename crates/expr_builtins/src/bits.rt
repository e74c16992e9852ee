//! Built-ins on bits.
ghost use Rattle.std.specs.Prelude.{◌≡◌};
ghost use Rattle.expr_value.specs.Answers.{Returns};
ghost use Rattle.expr_builtins.specs.Bits.{BitCalled, bitand, bitor, bitxor, bitnand, bitnot, bitshl, bitshr, bitushr, shifted_left, shifted_right, shifted_unsigned};

use expr_arguments::{
    CowValue, one_integer, two_integers, unexpected_arguments, unexpected_integer,
};
use expr_functions::BitCall;
use expr_value::{Result, Value};
use std::alloc::Global;

/// Calls a built-in on bits with these arguments.
///
/// # Errors
///
/// Returns [`ExprError`](expr_value::Error::ExprError) if the built-in doesn't take this number or these kinds of
/// arguments, or if a shift is below 0.
pub fn call_on_bits(alloc: Global, call: BitCall, arguments: &[CowValue<'_>]) -> Result<Value>
    ensures { Returns result (BitCalled call arguments.now) }
{
    match call {
        BitCall::Bitand => bitand(alloc, arguments),
        BitCall::Bitor => bitor(alloc, arguments),
        BitCall::Bitxor => bitxor(alloc, arguments),
        BitCall::Bitnand => bitnand(alloc, arguments),
        BitCall::Bitnot => bitnot(alloc, arguments),
        BitCall::Bitshl => bitshl(alloc, arguments),
        BitCall::Bitshr => bitshr(alloc, arguments),
        BitCall::Bitushr => bitushr(alloc, arguments),
    }
}

/// `bitand`: the bits that are set in both integers.
fn bitand(alloc: Global, arguments: &[CowValue<'_>]) -> Result<Value>
    ensures { Returns result (λ answer. answer ≡ bitand arguments.now) }
{
    let Some((a, b)) = two_integers(arguments) else {
        return Err(unexpected_arguments(alloc, "bitand takes two integers", arguments));
    };
    Ok(Value::Integer(a & b))
}

/// `bitor`: the bits that are set in either integer.
fn bitor(alloc: Global, arguments: &[CowValue<'_>]) -> Result<Value>
    ensures { Returns result (λ answer. answer ≡ bitor arguments.now) }
{
    let Some((a, b)) = two_integers(arguments) else {
        return Err(unexpected_arguments(alloc, "bitor takes two integers", arguments));
    };
    Ok(Value::Integer(a | b))
}

/// `bitxor`: the bits that are set in exactly one of two integers.
fn bitxor(alloc: Global, arguments: &[CowValue<'_>]) -> Result<Value>
    ensures { Returns result (λ answer. answer ≡ bitxor arguments.now) }
{
    let Some((a, b)) = two_integers(arguments) else {
        return Err(unexpected_arguments(alloc, "bitxor takes two integers", arguments));
    };
    Ok(Value::Integer(a ^ b))
}

/// `bitnand`: the bits of the first integer that aren't set in the second.
fn bitnand(alloc: Global, arguments: &[CowValue<'_>]) -> Result<Value>
    ensures { Returns result (λ answer. answer ≡ bitnand arguments.now) }
{
    let Some((a, b)) = two_integers(arguments) else {
        return Err(unexpected_arguments(alloc, "bitnand takes two integers", arguments));
    };
    Ok(Value::Integer(a & !b))
}

/// `bitnot`: the bits that aren't set in an integer.
fn bitnot(alloc: Global, arguments: &[CowValue<'_>]) -> Result<Value>
    ensures { Returns result (λ answer. answer ≡ bitnot arguments.now) }
{
    let Some(a) = one_integer(arguments) else {
        return Err(unexpected_arguments(alloc, "bitnot takes an integer", arguments));
    };
    Ok(Value::Integer(!a))
}

fn shifted_left(a: i64, count: u64) -> i64
    ensures { result ≡ shifted_left a count }
{
    if count < 64 {
        a.wrapping_shl(count as u32)
    } else {
        0
    }
}

fn shifted_right(a: i64, count: u64) -> i64
    ensures { result ≡ shifted_right a count }
{
    if count < 64 {
        a.wrapping_shr(count as u32)
    } else if a < 0 {
        -1
    } else {
        0
    }
}

fn shifted_unsigned(a: i64, count: u64) -> i64
    ensures { result ≡ shifted_unsigned a count }
{
    if count < 64 {
        a.cast_unsigned().wrapping_shr(count as u32).cast_signed()
    } else {
        0
    }
}

/// `bitshl`: an integer shifted to the left. Bits that are shifted out are lost. A shift below 0 is an error.
fn bitshl(alloc: Global, arguments: &[CowValue<'_>]) -> Result<Value>
    ensures { Returns result (λ answer. answer ≡ bitshl arguments.now) }
{
    let Some((a, count)) = two_integers(arguments) else {
        return Err(unexpected_arguments(alloc, "bitshl takes two integers", arguments));
    };
    if count < 0 {
        return Err(unexpected_integer(alloc, "bitshl takes a shift of 0 or more", count));
    }
    Ok(Value::Integer(shifted_left(a, count as u64)))
}

/// `bitshr`: an integer shifted to the right, with its sign kept. A shift below 0 is an error.
fn bitshr(alloc: Global, arguments: &[CowValue<'_>]) -> Result<Value>
    ensures { Returns result (λ answer. answer ≡ bitshr arguments.now) }
{
    let Some((a, count)) = two_integers(arguments) else {
        return Err(unexpected_arguments(alloc, "bitshr takes two integers", arguments));
    };
    if count < 0 {
        return Err(unexpected_integer(alloc, "bitshr takes a shift of 0 or more", count));
    }
    Ok(Value::Integer(shifted_right(a, count as u64)))
}

/// `bitushr`: an integer shifted to the right, with zeros from the left. A shift below 0 is an error.
fn bitushr(alloc: Global, arguments: &[CowValue<'_>]) -> Result<Value>
    ensures { Returns result (λ answer. answer ≡ bitushr arguments.now) }
{
    let Some((a, count)) = two_integers(arguments) else {
        return Err(unexpected_arguments(alloc, "bitushr takes two integers", arguments));
    };
    if count < 0 {
        return Err(unexpected_integer(alloc, "bitushr takes a shift of 0 or more", count));
    }
    Ok(Value::Integer(shifted_unsigned(a, count as u64)))
}
