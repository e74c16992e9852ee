//! JSON and Base64.
//!
//! - The meaning is that of the crates `serde_json` and `base64`. `specs/Reading.antt` and `Writing.antt` say which
//!   value is which JSON data, and `specs/Base64.antt` the same for Base64.
//! - `tokens` makes values right from the tokens of JSON. If it can't, the JSON is read again by way of `serde_json`'s
//!   data, which decides: a number that isn't an integer is allowed if a later member of the same name replaces it.
//! - `JsonReader` keeps its memory from one document to the next. `Members` are the members of an object, with borrowed
//!   names.
//!
//! A function that returns a `Result` returns `MemoryError` if an allocation fails. `# Errors` lists its other errors.
#![tactic(auto)]

mod encoding;
mod integer;
mod laws;
mod members;
mod radix64;
mod reading;
mod tokens;
mod writing;

pub use encoding::call_encoding;
pub use laws::base64_is_read_back;
pub use members::Members;
pub use radix64::{from_base64, to_base64};
pub use reading::{JsonReader, from_json};
pub use writing::to_json;
