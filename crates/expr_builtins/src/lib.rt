//! Built-ins on strings, collections, numbers, bits, and conversions.
//!
//! - Each family has one public call, which takes a variant of its enum: `call_on_texts`, `call_on_collections`,
//!   `call_on_numbers`, `call_on_bits` and `call_conversion`. `Called` in the family's file of `specs` says what it may
//!   return, with one line for each built-in.
//! - `places`, `cuts` and `split_after` are about the matches of a string in another. `nested` flattens arrays at every
//!   depth, and `distinct` is `uniq`.
//!
//! A function that returns a `Result` returns `MemoryError` if an allocation fails. `# Errors` lists its other errors.
#![tactic(auto)]

mod array;
mod bits;
mod collection;
mod convert;
mod cuts;
mod distinct;
mod indices;
mod laws;
mod nested;
mod number;
mod places;
mod split_after;
mod text;
mod trimmed;

pub use bits::call_on_bits;
pub use collection::call_on_collections;
pub use convert::call_conversion;
pub use cuts::join_texts;
pub use laws::{
    arrays_are_opened, pairs_of_a_map_make_it_again, parts_after_joined_are_the_text,
    parts_joined_are_the_text, places_are_the_matches,
};
pub use number::call_on_numbers;
pub use text::call_on_texts;
