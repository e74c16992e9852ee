//! Lowering: from a program to its code, the copy of it that a host keeps, and what the code needs from a
//! host.
#![tactic(auto)]

mod blocks;
mod code;
mod forms;
mod kept;
mod literals;
mod lowering;
mod name_set;
mod needs;
mod safety;
mod scopes;
mod worklist;

pub use code::Code;
pub use expr_code::{Block, Instruction, Pointer, PredicateCall};
pub use kept::OwnedCode;
pub use needs::{functions_of, missing_names, with_nil};
