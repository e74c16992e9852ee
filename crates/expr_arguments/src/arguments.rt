//! Number and kinds of the arguments of a call.
ghost use Rattle.std.specs.Prelude.{◌≡◌, IfOk, Ok, Err, Some, None};
ghost use Rattle.expr_value.specs.Answers.{ReturnsExactly};
ghost use Rattle.std.specs.Option.{option_copied, option_map};
ghost use Rattle.expr_error.specs.ErrorKind.{evaluation, IsOfKind, RefusesWith};
ghost use Rattle.expr_value.specs.Values.{integer_of, items_of};
ghost use Rattle.expr_arguments.specs.Arrays.{array_items};
ghost use Rattle.expr_arguments.specs.Arguments.{without_arguments, one_duration, one_integer, two_integers, one_text, two_texts, two_texts_and_limit, one_or_two_texts, text_and_integer, three_texts_and_limit, array_and_text, array_and_more, one_of, two_of, any_value};

use crate::array::{Array, array_of, array_or_itself};
use crate::cow::CowValue;
use crate::messages::{unexpected, unexpected_arguments, unexpected_value};
use expr_value::{Error, Items, Result, Value};
use std::alloc::Global;

/// Returns `answer` if there are no arguments.
///
/// # Errors
///
/// Returns `ExprError` if there is an argument.
pub fn without_arguments(alloc: Global, arguments: &[CowValue<'_>], answer: Value) -> Result<Value>
    ensures { ReturnsExactly result (without_arguments arguments.now answer) }
{
    match arguments {
        [] => Ok(answer),
        _ => Err(unexpected_arguments(alloc, "this method takes no arguments", arguments)),
    }
}

/// The nanoseconds, if there is one argument and it is a duration.
pub fn one_duration(arguments: &[CowValue<'_>]) -> Option<i64>
    ensures { result ≡ one_duration arguments.now }
{
    match arguments {
        [step] => step.get().as_duration(),
        _ => None,
    }
}

/// The integer, if there is one argument and it is an integer.
pub fn one_integer(arguments: &[CowValue<'_>]) -> Option<i64>
    ensures { result ≡ one_integer arguments.now }
{
    match arguments {
        [number] => number.get().as_integer(),
        _ => None,
    }
}

/// The integers, if there are two arguments and both are integers.
pub fn two_integers(arguments: &[CowValue<'_>]) -> Option<(i64, i64)>
    ensures { result ≡ two_integers arguments.now }
{
    match arguments {
        [first, second] => Some((first.get().as_integer()?, second.get().as_integer()?)),
        _ => None,
    }
}

/// The string, if there is one argument and it is a string.
pub fn one_text<'a>(arguments: &'a [CowValue<'_>]) -> Option<&'a str>
    ensures { option_map (λ s. s.now) result ≡ one_text arguments.now }
{
    match arguments {
        [text] => text.get().as_string(),
        _ => None,
    }
}

/// The strings, if there are two arguments and both are strings.
pub fn two_texts<'a>(arguments: &'a [CowValue<'_>]) -> Option<(&'a str, &'a str)>
    ensures { option_map (λ p. (p.0.now, p.1.now)) result ≡ two_texts arguments.now }
{
    match arguments {
        [first, second] => Some((first.get().as_string()?, second.get().as_string()?)),
        _ => None,
    }
}

/// Two strings and an optional limit, which is -1 if it is missing. `None` for other arguments.
pub fn two_texts_and_limit<'a>(arguments: &'a [CowValue<'_>]) -> Option<(&'a str, &'a str, i64)>
    ensures { option_map (λ p. (p.0.now, p.1.now, p.2)) result ≡ two_texts_and_limit arguments.now }
{
    let [first, second, rest @ ..] = arguments else {
        return None;
    };
    let limit = match rest {
        [] => -1,
        [limit] => limit.get().as_integer()?,
        _ => return None,
    };
    Some((first.get().as_string()?, second.get().as_string()?, limit))
}

/// A string and an optional second one, which is empty if it is missing. `None` for other arguments.
pub fn one_or_two_texts<'a>(arguments: &'a [CowValue<'_>]) -> Option<(&'a str, &'a str)>
    ensures { option_map (λ p. (p.0.now, p.1.now)) result ≡ one_or_two_texts arguments.now }
{
    match arguments {
        [text] => Some((text.get().as_string()?, "")),
        [first, second] => Some((first.get().as_string()?, second.get().as_string()?)),
        _ => None,
    }
}

/// A string and an integer. `None` for other arguments.
pub fn text_and_integer<'a>(arguments: &'a [CowValue<'_>]) -> Option<(&'a str, i64)>
    ensures { option_map (λ p. (p.0.now, p.1)) result ≡ text_and_integer arguments.now }
{
    match arguments {
        [text, number] => Some((text.get().as_string()?, number.get().as_integer()?)),
        _ => None,
    }
}

/// Three strings and an optional limit, which is -1 if it is missing. `None` for other arguments.
pub fn three_texts_and_limit<'a>(
    arguments: &'a [CowValue<'_>],
) -> Option<(&'a str, &'a str, &'a str, i64)>
    ensures { option_map (λ p. ((p.0.now, p.1.now), (p.2.now, p.3))) result
        ≡ three_texts_and_limit arguments.now }
{
    let [first, second, third, rest @ ..] = arguments else {
        return None;
    };
    let limit = match rest {
        [] => -1,
        [limit] => limit.get().as_integer()?,
        _ => return None,
    };
    let first = first.get().as_string()?;
    let second = second.get().as_string()?;
    Some((first, second, third.get().as_string()?, limit))
}

/// The argument, if there is one.
pub fn one_value<'a>(arguments: &'a [CowValue<'_>]) -> Option<&'a Value>
    ensures { option_copied result ≡ one_of any_value arguments.now }
{
    match arguments {
        [value] => Some(value.get()),
        _ => None,
    }
}

/// The arguments, if there are two.
pub fn two_values<'a>(arguments: &'a [CowValue<'_>]) -> Option<(&'a Value, &'a Value)>
    ensures { option_map (λ p. (p.0.now, p.1.now)) result ≡ two_of any_value any_value arguments.now }
{
    match arguments {
        [first, second] => Some((first.get(), second.get())),
        _ => None,
    }
}

/// An array and an optional string, which is empty if it is missing. `None` for other arguments.
pub fn array_and_text<'a>(arguments: &'a [CowValue<'_>]) -> Option<(&'a [Value], &'a str)>
    ensures { option_map (λ p. (p.0.now, p.1.now)) result ≡ array_and_text arguments.now }
{
    match arguments {
        [array] => Some((array.get().as_array()?, "")),
        [array, text] => Some((array.get().as_array()?, text.get().as_string()?)),
        _ => None,
    }
}

/// Moves the argument out, if there is one and it is an array. Nothing is moved otherwise.
pub fn one_array<'a>(arguments: &mut [CowValue<'a>]) -> Option<Array<'a>>
    ensures { option_map array_items result ≡ one_of items_of arguments.old }
{
    match arguments {
        [array] => {
            array.get().as_array()?;
            array_of(array.take_cow())
        }
        _ => None,
    }
}

/// Moves an array out, and returns it with an integer. `None` for other arguments, and then nothing is moved.
pub fn array_and_integer<'a>(arguments: &mut [CowValue<'a>]) -> Option<(Array<'a>, i64)>
    ensures { option_map (λ p. (array_items p.0, p.1)) result ≡ two_of items_of integer_of arguments.old }
{
    let [_, number] = &*arguments else {
        return None;
    };
    let number = number.get().as_integer()?;
    arguments[0].get().as_array()?;
    Some((array_of(arguments[0].take_cow())?, number))
}

/// An array and an optional second argument. `expected` says what the call takes, for messages.
///
/// # Errors
///
/// Returns `ExprError` for other arguments.
pub fn array_and_more<'s>(
    alloc: Global,
    expected: &str,
    args: Items<CowValue<'s>>,
) -> Result<(Array<'s>, Option<CowValue<'s>>)>
    ensures value { IfOk result (λ p. array_and_more args.entry ≡ Ok (array_items p.0, p.1)) }
    ensures refusal { RefusesWith result (λ k. array_and_more args.entry ≡ Err k) }
{
    let mut args = args.into_vec();
    if args.len() == 1 {
        if let Some(array) = args.pop() {
            return Ok((array_or_refusal(alloc, expected, array)?, None));
        }
    }
    if args.len() == 2 {
        if let Some(more) = args.pop() {
            if let Some(array) = args.pop() {
                return Ok((array_or_refusal(alloc, expected, array)?, Some(more)));
            }
        }
    }
    Err(not_one_or_two(alloc, expected, &args))
}

// The error for no arguments or more than two. A predicate may be there, so nothing is said of it.
fn not_one_or_two(alloc: Global, expected: &str, arguments: &[CowValue<'_>]) -> Error
    ensures { IsOfKind result evaluation }
{
    if arguments.is_empty() {
        return unexpected(alloc, expected, &"no array");
    }
    unexpected_arguments(alloc, expected, arguments)
}

/// The array that a value is. `expected` says what the call takes, for messages.
///
/// # Errors
///
/// Returns `ExprError` for any other value.
pub fn array_or_refusal<'s>(alloc: Global, expected: &str, value: CowValue<'s>) -> Result<Array<'s>>
    ensures value { IfOk result (λ array. items_of value.entry ≡ Some (array_items array)) }
    ensures refusal { RefusesWith result (λ k. (items_of value.entry ≡ None) × (k ≡ evaluation)) }
{
    match array_or_itself(value) {
        Ok(array) => Ok(array),
        Err(other) => Err(unexpected_value(alloc, expected, other.get())),
    }
}
