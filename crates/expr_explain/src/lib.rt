//! `explain`: what a program returns, and the values that its parts had on the way.
//!
//! - `walk` evaluates a program by recursion on its tree, each part once, and tells what parts give. What it doesn't look
//!   into, such as a call, `expr_eval` evaluates whole.
//! - `notes` has the parts that were told, and their bound. `layer` has the names that lines bind, `count` the number of
//!   nodes of a tree, and `sides` what an operator makes of its sides.
//! - `specs/Standing.antt` says which parts a program evaluates, with which names and after how many nodes. `Telling.antt`
//!   says what is told of one.
//!
//! A function that returns a `Result` returns `MemoryError` if an allocation fails. `# Errors` lists its other errors.
#![tactic(auto)]

mod count;
mod explanation;
mod layer;
mod notes;
mod sides;
mod walk;

pub use count::{count_nodes, count_program_nodes};
pub use explanation::{Explanation, explain, explain_with};
pub use notes::{PartFinding, Told};
