//! Built-ins on numbers.
ghost use Rattle.std.specs.Prelude.{◌≡◌, Err, IfOk, None, Some};
ghost use Rattle.std.specs.Int.{int_max, int_min};
ghost use Rattle.expr_value.specs.Answers.{Returns};
ghost use Rattle.expr_error.specs.ErrorKind.{evaluation, RefusesWith};
ghost use Rattle.expr_value.specs.Values.{integer_of};
ghost use Rattle.expr_arguments.specs.Arguments.{all_of};
ghost use Rattle.expr_builtins.specs.Nested.{all_flat_items};
ghost use Rattle.expr_builtins.specs.Numbers.{NumberCalled, abs, choice_of, greatest, least};

use crate::nested::flat_items;
use expr_arguments::{CowValue, one_integer, unexpected_arguments, unexpected_value};
use expr_functions::NumberCall;
use expr_value::{Result, Value, refusal};
use std::alloc::Global;
use std::mem;

/// Calls a built-in on numbers with these arguments. Parts that the result keeps are moved out of owned arguments and
/// copied from borrowed ones.
///
/// # Errors
///
/// Returns [`ExprError`](expr_value::Error::ExprError) if the built-in doesn't take this number or these kinds of
/// arguments, or if it is one on fractions.
pub fn call_on_numbers(
    alloc: Global,
    call: NumberCall,
    arguments: &mut Vec<CowValue<'_>>,
) -> Result<Value>
    ensures { Returns result (NumberCalled call arguments.old.items) }
{
    match call {
        NumberCall::Abs => abs(alloc, arguments),
        NumberCall::Max => greatest(alloc, mem::replace(arguments, Vec::new(alloc))),
        NumberCall::Min => least(alloc, mem::replace(arguments, Vec::new(alloc))),
        NumberCall::Float => of_fractions(alloc),
        NumberCall::Mean => of_fractions(alloc),
        NumberCall::Median => of_fractions(alloc),
        NumberCall::Ceil => of_fractions(alloc),
        NumberCall::Floor => of_fractions(alloc),
        NumberCall::Round => of_fractions(alloc),
    }
}

/// `abs`: an integer without its sign. The least integer stays as it is.
fn abs(alloc: Global, arguments: &[CowValue<'_>]) -> Result<Value>
    ensures { Returns result (λ answer. answer ≡ abs arguments.now) }
{
    let Some(a) = one_integer(arguments) else {
        return Err(unexpected_arguments(alloc, "abs takes an integer", arguments));
    };
    Ok(Value::Integer(a.wrapping_abs()))
}

/// A built-in on fractions, which the language doesn't have. It always returns an error.
fn of_fractions(alloc: Global) -> Result<Value>
    ensures { Returns result (λ answer. answer ≡ Err evaluation) }
{
    Err(refusal(
        alloc,
        "this function returns a fraction, and the language has no fractions",
    ))
}

const MAX: &str = "max takes integers and arrays of integers";

const MIN: &str = "min takes integers and arrays of integers";

/// `max`: the greatest of integers and of arrays of them, at every depth, or nil if there are none.
fn greatest(alloc: Global, arguments: Vec<CowValue<'_>>) -> Result<Value>
    ensures { Returns result (λ answer. answer ≡ greatest arguments.entry.items) }
{
    if arguments.is_empty() {
        return Err(unexpected_arguments(alloc, MAX, &arguments));
    }
    let numbers = flat_integers(alloc, MAX, arguments)?;
    Ok(greatest_of(&numbers))
}

/// `min`: the least of integers and of arrays of them, at every depth, or nil if there are none.
fn least(alloc: Global, arguments: Vec<CowValue<'_>>) -> Result<Value>
    ensures { Returns result (λ answer. answer ≡ least arguments.entry.items) }
{
    if arguments.is_empty() {
        return Err(unexpected_arguments(alloc, MIN, &arguments));
    }
    let numbers = flat_integers(alloc, MIN, arguments)?;
    Ok(least_of(&numbers))
}

// The integers of these values, with each array replaced by its items at every depth. Anything else among them gives
// `ExprError`.
fn flat_integers(alloc: Global, expected: &str, values: Vec<CowValue<'_>>) -> Result<Vec<i64>>
    ensures ok { IfOk result (λ v. all_of integer_of (all_flat_items values.entry.items) ≡ Some v.items) }
    ensures kind { RefusesWith result (λ k. k ≡ evaluation) }
    ensures refused { RefusesWith result (λ k. all_of integer_of (all_flat_items values.entry.items) ≡ None) }
{
    let opened = flat_items(alloc, values)?;
    integers(alloc, expected, &opened)
}

// The integers. A value that is none gives `ExprError`.
fn integers(alloc: Global, expected: &str, values: &[CowValue<'_>]) -> Result<Vec<i64>>
    ensures ok { IfOk result (λ v. all_of integer_of values.now ≡ Some v.items) }
    ensures kind { RefusesWith result (λ k. k ≡ evaluation) }
    ensures refused { RefusesWith result (λ k. all_of integer_of values.now ≡ None) }
{
    let mut numbers = Vec::with_capacity(alloc, values.len())?;
    for i in 0..values.len() {
        let value = values[i].get();
        let Some(number) = value.as_integer() else {
            return Err(unexpected_value(alloc, expected, value));
        };
        numbers.push(number)?;
    }
    Ok(numbers)
}

fn greatest_of(numbers: &[i64]) -> Value
    ensures { result ≡ choice_of int_max numbers.now }
{
    let [first, rest @ ..] = numbers else {
        return Value::Nil;
    };
    let mut greatest = *first;
    for i in 0..rest.len() {
        greatest = greatest.max(rest[i]);
    }
    Value::Integer(greatest)
}

fn least_of(numbers: &[i64]) -> Value
    ensures { result ≡ choice_of int_min numbers.now }
{
    let [first, rest @ ..] = numbers else {
        return Value::Nil;
    };
    let mut least = *first;
    for i in 0..rest.len() {
        least = least.min(rest[i]);
    }
    Value::Integer(least)
}
