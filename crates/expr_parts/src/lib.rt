//! Nodes built from their parts, and what the parser keeps while it reads.
//!
//! - `AnnotatedNode` is a boxed node with two facts: the height of its tree, and whether a `#` is free in it. So
//!   promotion walks no tree. Promotion turns an argument with a free `#` into the predicate of its call.
//! - `Arguments`, `Entries` and `Lines` are parts that are still being read.
//! - `frame` has the open frames, which wait for their last part. `build` makes the node that a frame becomes, and
//!   `read` says what a token is at the beginning of an operand.
//! - `specs/Programs.antt` defines the program of a tree, `Measures.antt` the program with its height, and
//!   `Promotion.antt` the rule of promotion.
//! - `specs/Nodes.antt` promises nothing. It is the machine that the parser follows, and `proofs/Erase.antt` shows that
//!   it does what the grammar's machine does.
//!
//! These functions own trees, which makes their check slow. So the parser is a crate of its own.
//!
//! A function that returns a `Result` returns `AllocError` if an allocation fails. `# Errors` lists its other errors.
#![tactic(auto)]

mod annotated_node;
mod arguments;
pub mod build;
mod entries;
pub mod frame;
pub mod laws;
mod program;
mod promotion;
pub mod read;

pub use annotated_node::AnnotatedNode;
pub use arguments::Arguments;
pub use entries::Entries;
pub use program::{AnnotatedProgram, Lines};
