//! Arguments of calls, owned or borrowed: their number and kinds.
//!
//! - `CowValue` is a value that is owned, or borrowed from the host, the tree or a `let` line. Contracts see the value.
//!   Of a `Cow` they also see which of the two it is. `Array` is an array among the arguments, owned or borrowed.
//! - `specs/Arguments.antt` has a word for each list of kinds, such as `two_texts`. The definition of a built-in uses
//!   that word, and `answer_on` returns an error for any other arguments.
//! - `specs/AllocFree.antt` says which values allocate nothing, and `Parts.antt` what the part of a value at a key is.
//!
//! A function that returns a `Result` returns `MemoryError` if an allocation fails. `# Errors` lists its other errors.
#![tactic(auto)]

mod arguments;
mod array;
mod cow;
mod messages;
mod position;
mod times;

pub use arguments::{
    array_and_integer, array_and_more, array_and_text, array_or_refusal, one_array, one_duration,
    one_integer, one_or_two_texts, one_text, one_value, text_and_integer, three_texts_and_limit,
    two_integers, two_texts, two_texts_and_limit, two_values, without_arguments,
};
pub use array::{
    Array, array_of, array_or_itself, count_items, cows_of_values, each_cow, into_items,
    values_of_cows,
};
pub use cow::{Cow, CowValue};
pub use messages::{
    kind_of, missing_predicate, refusal_of, unexpected, unexpected_arguments, unexpected_integer,
    unexpected_item, unexpected_text, unexpected_value, unknown_zone,
};
pub use position::item;
pub use times::{one_moment, one_zone, three_integers, timezone_in};
