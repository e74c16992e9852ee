//! Finding a string in another.
ghost use Rattle.std.specs.Prelude.{◌≡◌};
ghost use Rattle.expr_value.specs.Answers.{Returns};
ghost use Rattle.expr_builtins.specs.Indices.{index_of, last_index_of, least_place, greatest_place, place_or_less};

use expr_arguments::{CowValue, two_texts, unexpected_arguments};
use expr_value::{Result, Value};
use std::alloc::Global;

/// `indexOf`: the byte offset of the first match of a string in another, or -1.
pub(crate) fn index_of(alloc: Global, arguments: &[CowValue<'_>]) -> Result<Value>
    ensures { Returns result (λ answer. answer ≡ index_of arguments.now) }
{
    let Some((text, sought)) = two_texts(arguments) else {
        return Err(unexpected_arguments(alloc, "indexOf takes two strings", arguments));
    };
    Ok(place_or_less(least_place(text, sought)))
}

/// `lastIndexOf`: the byte offset of the last match of a string in another, or -1.
pub(crate) fn last_index_of(alloc: Global, arguments: &[CowValue<'_>]) -> Result<Value>
    ensures { Returns result (λ answer. answer ≡ last_index_of arguments.now) }
{
    let Some((text, sought)) = two_texts(arguments) else {
        return Err(unexpected_arguments(alloc, "lastIndexOf takes two strings", arguments));
    };
    Ok(place_or_less(greatest_place(text, sought)))
}

fn least_place(text: &str, sought: &str) -> Option<usize>
    ensures { result ≡ least_place sought.now 0 text.now }
{
    text.find(sought)
}

fn greatest_place(text: &str, sought: &str) -> Option<usize>
    ensures { result ≡ greatest_place sought.now 0 text.now }
{
    text.rfind(sought)
}

fn place_or_less(place: Option<usize>) -> Value
    ensures { result ≡ place_or_less place }
{
    match place {
        Some(place) => Value::from(place),
        None => Value::Integer(-1),
    }
}
