//! Built-ins on strings.
ghost use Rattle.std.specs.Prelude.{◌≡◌, map, IfOk};
ghost use Rattle.expr_value.specs.Answers.{Returns};
ghost use Rattle.expr_builtins.specs.Text.{TextCalled, has_prefix, has_suffix, trim_prefix, trim_suffix, without_front, without_back, split, split_after, replace, repeat_text, repeated_text, Upper, Lower};
ghost use Rattle.expr_error.specs.ErrorKind.{OnlyMemory};

use crate::cuts::{parts, replace_matches};
use crate::split_after::parts_after;
use crate::{indices, trimmed};
use expr_arguments::{
    CowValue, one_or_two_texts, one_text, refusal_of, text_and_integer, three_texts_and_limit,
    two_texts, two_texts_and_limit, unexpected_arguments, unexpected_integer,
};
use expr_error::{has_back, has_front};
use expr_functions::TextCall;
use expr_value::{Items, Result, Text, Value};
use std::alloc::Global;

/// Calls a built-in on strings with these arguments.
///
/// # Errors
///
/// Returns [`ExprError`](expr_value::Error::ExprError) if the built-in doesn't take this number or these kinds of
/// arguments. `repeat` also does for a count below 0 or above 1,000,000, and for a result of 2^64 bytes or more.
pub fn call_on_texts(alloc: Global, call: TextCall, arguments: &[CowValue<'_>]) -> Result<Value>
    ensures { Returns result (TextCalled call arguments.now) }
{
    match call {
        TextCall::HasPrefix => has_prefix(alloc, arguments),
        TextCall::HasSuffix => has_suffix(alloc, arguments),
        TextCall::Trim => trimmed::trim(alloc, arguments),
        TextCall::TrimPrefix => trim_prefix(alloc, arguments),
        TextCall::TrimSuffix => trim_suffix(alloc, arguments),
        TextCall::Upper => upper(alloc, arguments),
        TextCall::Lower => lower(alloc, arguments),
        TextCall::Split => split(alloc, arguments),
        TextCall::SplitAfter => split_after(alloc, arguments),
        TextCall::Replace => replace(alloc, arguments),
        TextCall::Repeat => repeat_text(alloc, arguments),
        TextCall::IndexOf => indices::index_of(alloc, arguments),
        TextCall::LastIndexOf => indices::last_index_of(alloc, arguments),
    }
}

/// `hasPrefix`: whether a string begins with another.
fn has_prefix(alloc: Global, arguments: &[CowValue<'_>]) -> Result<Value>
    ensures { Returns result (λ answer. answer ≡ has_prefix arguments.now) }
{
    let Some((text, front)) = two_texts(arguments) else {
        return Err(unexpected_arguments(alloc, "hasPrefix takes two strings", arguments));
    };
    Ok(Value::Bool(has_front(text, front)))
}

/// `hasSuffix`: whether a string ends with another.
fn has_suffix(alloc: Global, arguments: &[CowValue<'_>]) -> Result<Value>
    ensures { Returns result (λ answer. answer ≡ has_suffix arguments.now) }
{
    let Some((text, back)) = two_texts(arguments) else {
        return Err(unexpected_arguments(alloc, "hasSuffix takes two strings", arguments));
    };
    Ok(Value::Bool(has_back(text, back)))
}

/// `trimPrefix`: a string without another at its beginning, removed once if it is there.
fn trim_prefix(alloc: Global, arguments: &[CowValue<'_>]) -> Result<Value>
    ensures { Returns result (λ answer. answer ≡ trim_prefix arguments.now) }
{
    let Some((text, front)) = one_or_two_texts(arguments) else {
        return Err(unexpected_arguments(alloc, "trimPrefix takes one or two strings", arguments));
    };
    Value::text(alloc, without_front(text, front))
}

/// `trimSuffix`: a string without another at its end, removed once if it is there.
fn trim_suffix(alloc: Global, arguments: &[CowValue<'_>]) -> Result<Value>
    ensures { Returns result (λ answer. answer ≡ trim_suffix arguments.now) }
{
    let Some((text, back)) = one_or_two_texts(arguments) else {
        return Err(unexpected_arguments(alloc, "trimSuffix takes one or two strings", arguments));
    };
    Value::text(alloc, without_back(text, back))
}

fn without_front<'a>(text: &'a str, front: &str) -> &'a str
    ensures { result.now ≡ without_front text.now front.now }
{
    match text.strip_prefix(front) {
        Some(rest) => rest,
        None => text,
    }
}

fn without_back<'a>(text: &'a str, back: &str) -> &'a str
    ensures { result.now ≡ without_back text.now back.now }
{
    match text.strip_suffix(back) {
        Some(rest) => rest,
        None => text,
    }
}

/// `split`: the parts of a string between matches of a separator, at most as many as an optional limit says.
fn split(alloc: Global, arguments: &[CowValue<'_>]) -> Result<Value>
    ensures { Returns result (λ answer. answer ≡ split arguments.now) }
{
    let Some((text, separator, limit)) = two_texts_and_limit(arguments) else {
        return Err(unexpected_arguments(
            alloc,
            "split takes two strings and an optional limit",
            arguments,
        ));
    };
    let found = parts(alloc, text, separator, limit)?;
    array_of_texts(alloc, &found)
}

/// `splitAfter`: the parts of a string, cut after each match of a separator, at most as many as an optional limit says.
fn split_after(alloc: Global, arguments: &[CowValue<'_>]) -> Result<Value>
    ensures { Returns result (λ answer. answer ≡ split_after arguments.now) }
{
    let Some((text, separator, limit)) = two_texts_and_limit(arguments) else {
        return Err(unexpected_arguments(
            alloc,
            "splitAfter takes two strings and an optional limit",
            arguments,
        ));
    };
    let parts = parts_after(alloc, text, separator, limit)?;
    Ok(Value::Array(Items::from_vec(parts)))
}

fn array_of_texts(alloc: Global, texts: &[&str]) -> Result<Value>
    ensures ok { IfOk result (λ v. v ≡ Value.Array (map Value.String (map (λ t. t.now) texts.now))) }
    ensures err { OnlyMemory result }
{
    let mut items = Vec::with_capacity(alloc, texts.len())?;
    for i in 0..texts.len() {
        items.push(Value::text(alloc, texts[i])?)?;
    }
    Ok(Value::Array(Items::from_vec(items)))
}

/// `replace`: a string with its matches replaced, at most as many as an optional limit says.
fn replace(alloc: Global, arguments: &[CowValue<'_>]) -> Result<Value>
    ensures { Returns result (λ answer. answer ≡ replace arguments.now) }
{
    let Some((text, from, to, limit)) = three_texts_and_limit(arguments) else {
        return Err(unexpected_arguments(
            alloc,
            "replace takes three strings and an optional limit",
            arguments,
        ));
    };
    let text = replace_matches(alloc, text, from, to, limit)?;
    Ok(Value::String(Text::from_string(text)))
}

/// `repeat`: copies of a string, at most a million, of less than 2^64 bytes together.
fn repeat_text(alloc: Global, arguments: &[CowValue<'_>]) -> Result<Value>
    ensures { Returns result (λ answer. answer ≡ repeat_text arguments.now) }
{
    let Some((text, count)) = text_and_integer(arguments) else {
        return Err(unexpected_arguments(alloc, "repeat takes a string and an integer", arguments));
    };
    repeat_times(alloc, text, count)
}

const REPEAT_TAKES: &str = "repeat takes a count from 0 to 1000000";

fn repeat_times(alloc: Global, text: &str, count: i64) -> Result<Value>
    ensures { Returns result (λ answer. answer ≡ repeated_text text.now count) }
{
    if count < 0 {
        return Err(unexpected_integer(alloc, REPEAT_TAKES, count));
    }
    if count > 1_000_000 {
        return Err(unexpected_integer(alloc, REPEAT_TAKES, count));
    }
    let count = count as usize;
    let length = text.len();
    if count.checked_mul(length).is_none() {
        return Err(refusal_of(format!(in alloc;
            "repeat returns less than 2^64 bytes, found {count} times {length}"
        )));
    }
    Ok(Value::String(Text::from_string(text.repeat(alloc, count)?)))
}

/// `upper`: a string in upper case.
fn upper(alloc: Global, arguments: &[CowValue<'_>]) -> Result<Value>
    ensures { Returns result (Upper arguments.now) }
{
    let Some(text) = one_text(arguments) else {
        return Err(unexpected_arguments(alloc, "upper takes a string", arguments));
    };
    Ok(Value::String(Text::from_string(text.to_uppercase(alloc)?)))
}

/// `lower`: a string in lower case.
fn lower(alloc: Global, arguments: &[CowValue<'_>]) -> Result<Value>
    ensures { Returns result (Lower arguments.now) }
{
    let Some(text) = one_text(arguments) else {
        return Err(unexpected_arguments(alloc, "lower takes a string", arguments));
    };
    Ok(Value::String(Text::from_string(text.to_lowercase(alloc)?)))
}
