//! The tree of a program: its nodes and names, copying and dropping it.
//!
//! - Nodes have the shapes of the original (`Box`, `Vec`, `String`). `specs/TermOf.antt` sees them as the pure tree of
//!   `specs/Term.antt`, on which all meaning is defined.
//! - `chain` drops a tree with a loop in the tree's own memory, since a tree may be deeper than the stack. `clone`
//!   makes a copy that keeps no pattern. `children` has the children of a node.
//! - `specs/Names.antt` has the names of a tree, and `Context.antt` which contexts agree at them. `KeptPatterns.antt`
//!   is about the patterns that nodes keep for `matches`, which no term has. `Weight.antt` and `Codes.antt` are for
//!   proofs.
//!
//! A function that returns a `Result` returns `MemoryError` (or `AllocError`) if an allocation fails.
#![tactic(auto)]

mod chain;
mod children;
mod clone;
mod names;
pub mod node;
