//! Contexts: the values of names, and what a predicate knows of an item.
//!
//! - `Context` owns its names and values. `ContextProvider` is the trait for a host that keeps values elsewhere. They
//!   are borrowed when an expression uses them.
//! - `specs/Context.antt` has `ContextView`, which is what contracts see of a provider, and `override`, which binds a
//!   name on top. `Contexts.antt` has the context of names and values.
//! - `specs/Lookups.antt` says what a name means, and in which context a predicate is evaluated. `Told.antt` has the
//!   arguments of a predicate (`#`, `#index`, `#acc`).
//!
//! A function that returns a `Result` returns `MemoryError` if an allocation fails. `# Errors` lists its other errors.
#![tactic(auto)]

mod context;

pub use context::{Context, ContextProvider};
