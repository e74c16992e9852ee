//! Messages of errors, for people.
ghost use Rattle.expr_error.specs.ErrorKind.{evaluation, IsOfKind};

use crate::cow::CowValue;
use expr_error::show_quoted;
use expr_value::{Error, Value};
use std::alloc::{AllocError, Global};
use std::fmt::{self, Display};

/// An `ExprError` with this message, or `MemoryError` if there was no memory for it.
pub fn refusal_of(text: Result<String, AllocError>) -> Error
    ensures { IsOfKind result evaluation }
{
    match text {
        Ok(text) => Error::ExprError(text),
        Err(_) => Error::MemoryError,
    }
}

/// The error for what a call found in place of what it takes.
#[inline(never)]
pub fn unexpected<D: Display>(alloc: Global, expected: &str, found: &D) -> Error
    ensures { IsOfKind result evaluation }
{
    refusal_of(format!(in alloc; "{expected}, found {found}"))
}

/// The error for arguments that a call doesn't take: what it takes, and the kinds of those that it was called with.
pub fn unexpected_arguments(alloc: Global, expected: &str, arguments: &[CowValue<'_>]) -> Error
    ensures { IsOfKind result evaluation }
{
    unexpected(alloc, expected, &Kinds { arguments })
}

/// The error for a call without a predicate that needs one: what it takes, and the kinds of its arguments.
#[inline(never)]
pub fn missing_predicate(alloc: Global, expected: &str, arguments: &[CowValue<'_>]) -> Error
    ensures { IsOfKind result evaluation }
{
    let found = Kinds { arguments };
    refusal_of(format!(in alloc; "{expected}, found {found} and no predicate such as {{# > 0}}"))
}

/// The error for a value of another kind than the expected one.
pub fn unexpected_value(alloc: Global, expected: &str, found: &Value) -> Error
    ensures { IsOfKind result evaluation }
{
    unexpected(alloc, expected, &kind_of(found))
}

/// The error for an item of an array that isn't of the expected kind, with its index from 0.
#[inline(never)]
pub fn unexpected_item(alloc: Global, expected: &str, found: &Value, index: usize) -> Error
    ensures { IsOfKind result evaluation }
{
    let found = kind_of(found);
    refusal_of(format!(in alloc; "{expected}, found {found} at index {index}"))
}

/// The error for an integer that is out of the expected range.
pub fn unexpected_integer(alloc: Global, expected: &str, found: i64) -> Error
    ensures { IsOfKind result evaluation }
{
    unexpected(alloc, expected, &found)
}

/// The error for a string that doesn't have the expected form. It quotes the first characters.
pub fn unexpected_text(alloc: Global, expected: &str, found: &str) -> Error
    ensures { IsOfKind result evaluation }
{
    unexpected(alloc, expected, &Quoted { text: found })
}

/// The error for a time zone that the program doesn't know.
#[inline(never)]
pub fn unknown_zone(alloc: Global, name: &str) -> Error
    ensures { IsOfKind result evaluation }
{
    refusal_of(format!(in alloc; "unknown time zone {name}"))
}

// The kinds of arguments, the first four by name: `a String, nil`.
#[derive(Drop)]
struct Kinds<'a, 's> {
    arguments: &'a [CowValue<'s>],
}

const NAMED: usize = 4;

impl Display for Kinds<'_, '_> {
    fn fmt<W: fmt::Write>(&self, f: &mut fmt::Formatter<W>) -> fmt::Result {
        if self.arguments.is_empty() {
            return write!(f, "no arguments");
        }
        for (at, argument) in self.arguments.iter().take(NAMED).enumerate() {
            let between = if at == 0 { "" } else { ", " };
            let kind = kind_of(argument.get());
            write!(f, "{between}{kind}")?;
        }
        match self.arguments.len().saturating_sub(NAMED) {
            0 => Ok(()),
            more => write!(f, " and {more} more"),
        }
    }
}

// The first characters of a string in quotes: `"ab"`, or `"ab"..` if there are more.
#[derive(Drop)]
struct Quoted<'a> {
    text: &'a str,
}

// The most bytes that are quoted.
const QUOTED: usize = 40;

impl Display for Quoted<'_> {
    fn fmt<W: fmt::Write>(&self, f: &mut fmt::Formatter<W>) -> fmt::Result {
        let end = self.text.floor_char_boundary(QUOTED);
        show_quoted(&self.text[..end], f)?;
        f.write_str(if end < self.text.len() { ".." } else { "" })
    }
}

/// The kind of a value with its article, for messages: `an Integer`, `nil`.
pub fn kind_of(value: &Value) -> &'static str {
    match value {
        Value::Integer(_) => "an Integer",
        Value::Bool(_) => "a Bool",
        Value::Nil => "nil",
        Value::String(_) => "a String",
        Value::Duration(_) => "a Duration",
        Value::Month(_) => "a Month",
        Value::Weekday(_) => "a Weekday",
        Value::DateTime(_) => "a DateTime",
        Value::Timezone(_) => "a Timezone",
        Value::Array(_) => "an Array",
        Value::Bytes(_) => "Bytes",
        Value::Map(_) => "a Map",
        Value::KeyedMap(_) => "a KeyedMap",
    }
}
