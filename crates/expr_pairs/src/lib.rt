//! Distinct keys with their values, in the order of insertion.
//!
//! - `Keys` has the keys alone, and `Pairs` adds one value for each key. Contracts see a list of keys, or of pairs.
//! - A look-up compares up to 8 keys one by one, uses a hash table of `indexmap` for up to 32, and a tree of 64-bit
//!   hashes for more (`specs/Places.antt`). Nobody can make look-ups slow by choosing keys.
//! - `specs/Entries.antt` and `specs/formers` say that a type may contain itself in the values.
//!
//! A function that returns a `Result` returns `AllocError` if an allocation fails.
#![tactic(auto)]

mod few;
mod item;
mod keys;
mod noted;
mod pairs;
mod places;

pub use item::{item_at, item_moved};
pub use keys::Keys;
pub use pairs::Pairs;
