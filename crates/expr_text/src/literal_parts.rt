//! The parts of a literal's text.
//!
//! A function that puts parts returns whether there is a text.
ghost use Rattle.std.specs.Prelude.{◌≡◌, true, IfOk};
ghost use Rattle.expr_text.specs.Parts.{Expands, PartIs, gap_text, written_literal, members_stand, members_text, written_key};
ghost use Rattle.expr_text.specs.Steps.{literal_steps, values_steps};
ghost use Rattle.expr_text.specs.Texts.{literal_has_text};

use crate::part::{Part, put, put_three};
use expr_tokens::is_word;
use expr_value::{Text, Value};
use std::alloc::AllocError;

/// Puts the parts of a literal.
pub(crate) fn put_literal<'a>(
    value: &'a Value,
    pending: &mut Vec<Part<'a>>,
) -> Result<bool, AllocError>
    ensures { IfOk result (λ done. Expands done pending.old.items pending.new.items
        (written_literal value.now) (literal_has_text value.now) (literal_steps value.now)) }
{
    match value {
        Value::Integer(n) => put_integer(*n, pending),
        Value::Bool(is_true) => {
            let word = if *is_true { "true" } else { "false" };
            put(Part::Text(word), pending)?;
            Ok(true)
        }
        Value::Nil => {
            put(Part::Text("nil"), pending)?;
            Ok(true)
        }
        Value::String(text) => {
            put(Part::Quoted(text.as_str()), pending)?;
            Ok(true)
        }
        Value::Bytes(bytes) => put_bytes(bytes.as_slice(), pending),
        Value::Map(map) => {
            put_three(
                Part::Text("{"),
                Part::Members(map.keys(), map.values(), true),
                Part::Text("}"),
                pending,
            )?;
            Ok(true)
        }
        _ => Ok(false),
    }
}

fn put_bytes<'a>(bytes: &'a [u8], pending: &mut Vec<Part<'a>>) -> Result<bool, AllocError>
    ensures { IfOk result (λ done. Expands done pending.old.items pending.new.items
        (written_literal (Value.Bytes bytes.now)) (literal_has_text (Value.Bytes bytes.now))
        (literal_steps (Value.Bytes bytes.now))) }
{
    put(Part::Bytes(bytes), pending)?;
    Ok(true)
}

// No literal is below 0.
fn put_integer<'a>(n: i64, pending: &mut Vec<Part<'a>>) -> Result<bool, AllocError>
    ensures { IfOk result (λ done. Expands done pending.old.items pending.new.items
        (written_literal (Value.Integer n)) (literal_has_text (Value.Integer n))
        (literal_steps (Value.Integer n))) }
{
    if n < 0 {
        return Ok(false);
    }
    put(Part::Integer(n), pending)?;
    Ok(true)
}

/// Puts the first member of a literal map, and the others as one part.
pub(crate) fn put_members<'a>(
    keys: &'a [Text],
    values: &'a [Value],
    is_first: bool,
    pending: &mut Vec<Part<'a>>,
) -> Result<bool, AllocError>
    ensures { IfOk result (λ done. Expands done pending.old.items pending.new.items
        (members_text is_first keys.now values.now) (members_stand keys.now values.now)
        (values_steps values.now)) }
{
    match keys.split_first() {
        None => Ok(true),
        Some((key, other_keys)) => match values.split_first() {
            None => Ok(true),
            Some((value, other_values)) => {
                put_three(
                    Part::Text(": "),
                    Part::Literal(value),
                    Part::Members(other_keys, other_values, false),
                    pending,
                )?;
                put_three(
                    Part::Text(gap(is_first)),
                    key_part(key.as_str()),
                    Part::Text(""),
                    pending,
                )?;
                Ok(true)
            }
        },
    }
}

/// The comma before an item. The first has none.
pub(crate) fn gap(is_first: bool) -> &'static str
    ensures { result.now ≡ gap_text is_first }
{
    if is_first { "" } else { ", " }
}

/// A key of a map: a word, or else a string in quotes.
pub(crate) fn key_part<'a>(key: &'a str) -> Part<'a>
    ensures { PartIs result (written_key key.now) true 1 }
{
    if is_word(key) {
        Part::Text(key)
    } else {
        Part::Quoted(key)
    }
}
