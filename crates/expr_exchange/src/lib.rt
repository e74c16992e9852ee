//! What crosses between a host and the language: values, handles, errors, and the struct of a call.
#![tactic(auto)]

mod builder;
mod call;
mod cursor;
mod handles;
mod host_error;
mod kind;
mod limit;
mod map_pairs;
mod misuse;
mod scalar;

pub use builder::ValueBuilder;
pub use call::{Ask, Call, Shows};
pub use cursor::{ValueCursor, ValueSummary, bytes_of, key_of, summary_of};
pub use handles::{Handle, HandleMap};
pub use host_error::{HostError, Status};
pub use kind::Kind;
pub use limit::{limit_numbered, limit_text};
pub use misuse::Misuse;
pub use scalar::{moment_of, scalar_of};
