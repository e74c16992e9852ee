//! The functions on versions: `versionMatches` and `versionCompare`, which a host may add to the language.
//!
//! - `VersionFunction` has both by name, and calls them on values. Versions and requirements are read, ordered and matched
//!   by the kit's `semver`, as Cargo does. A host asks `has_version_function` and `call_version_function`.
//! - `specs/Versions.antt` says what a call returns, by the definitions of `semver`: `version_parts` and `req_of` are what
//!   strings read as, `pre_cmp` is the order of pre-releases, and `matches_views` is whether a version matches.
//!
//! A call takes time in proportion to its strings, and keeps nothing of them.
#![tactic(auto)]

mod functions;
mod reading;

pub use functions::{VersionFunction, call_version_function, has_version_function};
