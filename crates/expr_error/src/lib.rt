//! Errors, and strings as contracts see them.
//!
//! - `Error` has five kinds, which `specs/ErrorKind.antt` names.
//! - That file also has the words that clauses use for errors. `OnlyMemory`: out of memory is the only error.
//!   `RefusesWith`: that, or an error of a kind for which something holds. `IsOfKind` is about one error.
//! - `Text` is a `String` that contracts see as its bytes, so that two equal strings are equal data.
//! - `specs/Quoted.antt` defines a string between quotes, and `specs/Patterns.antt` the error for a pattern that can't
//!   be built.
//!
//! A function that returns an `AllocError` does so only if an allocation fails.
#![tactic(auto)]

mod ends;
mod error;
mod quoted;
mod text;

pub use ends::{has_back, has_front};
pub use error::{Error, Result, refusal};
pub use quoted::show_quoted;
pub use text::Text;
