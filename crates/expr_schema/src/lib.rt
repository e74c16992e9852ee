//! Kinds of values, and schemas: what a host says of the names and the functions that a program may use.
//!
//! - `Kind` is a set of values. `is_of` says whether a value is in it, and `fits` whether each value of one kind is of
//!   another. `specs/Kinds.antt` defines both by the values alone.
//! - `Schema` has the names of a context with their kinds, and the functions of a host with their signatures. `admits`
//!   says whether a context keeps to it, and `mismatch` where it doesn't. `specs/Scopes.antt` defines what keeping to it
//!   is, and `specs/SchemaView.antt` what a schema in memory stands for.
//! - `Schema::parse` and `Kind::parse` read texts. No clause says which kind or schema a text is. `Display` prints them,
//!   and `specs/Texts.antt` says how.
//! - `join` makes a kind that has the values of two. `Kind::of` and `Schema::of_records` make drafts of samples.
//!
//! # Texts of schemas
//!
//! A schema is a list of names with their kinds, as in
//! `age: int, nick: string?, tags: [string], address: {city: string, zip?: string}`.
//!
//! ```text
//! schema = fields
//! fields = [ entry { "," entry } [ "," ] ]
//! entry  = name [ "?" ] ":" kind                a name, or with "?" one that may be missing
//!        | "..." [ ":" kind ]                   the last entry: other names may have values, of any kind or of this one
//! kind   = base [ "?" ]                         with "?": or nil
//! base   = "any" | "never" | "nil" | "bool" | "int" | "string" | "bytes" | "duration" | "month" | "weekday"
//!        | "datetime" | "timezone"
//!        | "[" kind "]"                         an array, each of whose items is of the kind
//!        | "{" fields "}"                       a map with names as keys
//!        | "{" "*" ":" kind "}"                 a map with scalars as keys, each of whose values is of the kind
//! name   = word | quoted
//! word   = letters, digits and "_", and any characters beyond ASCII
//! quoted = a string between double quotes, with the escapes \" \\ \n \r \t
//! ```
//!
//! Spaces, tabs and ends of lines may stand anywhere but within names and words. Kinds are nested no deeper than
//! [`MAX_DEPTH`]. A name may stand in a list once.
//!
//! A function that returns a `Result` returns `MemoryError`, or `Memory`, if an allocation fails. `# Errors` lists its
//! other errors.
#![tactic(auto)]

mod admits;
mod copying;
mod display;
mod error;
mod fitting;
mod joining;
mod kind;
mod mismatch;
mod reader;
mod samples;
mod schema;

pub use admits::{is_of, stand};
pub use error::{Expected, SchemaError};
pub use fitting::fits;
pub use joining::join;
pub use kind::{FieldKind, Fields, Kind};
pub use mismatch::Mismatch;
pub use reader::MAX_DEPTH;
pub use schema::{Effect, Schema, Signature};
