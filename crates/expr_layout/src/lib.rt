//! Layouts: DateTimes printed and read by a pattern of fields.
//!
//! - Layouts are those of Go's package `time`, which show the reference time `Mon Jan 2 15:04:05 MST 2006`.
//! - `layout` splits a layout into tokens, `print` prints a DateTime by tokens, `read` reads one by tokens, and `found`
//!   keeps what was found. `formatting` has the method `Format`, and the stamp that JSON has.
//! - `specs/Layouts.antt` defines what layouts mean and print, and `KnownFields.antt` what they read. A layout is only
//!   one list of tokens: that is a law, proved in `proofs/OneLayout.antt`.
//!
//! A function that returns a `Result` returns `MemoryError` if an allocation fails. `# Errors` lists its other errors.
#![tactic(auto)]

mod formatting;
mod found;
mod laws;
mod layout;
mod names;
mod print;
mod read;
mod token;

pub use formatting::{format, stamp};
pub use found::{Finding, KnownFields, NameTable};
pub use laws::layouts_have_one_reading;
pub use layout::tokens_of;
pub use read::read_all;
pub use token::{Field, LayoutToken, Pad, Spelling};
