//! The operators and built-ins by name.
//!
//! - A built-in either calls a predicate (`HigherOrderCall`) or is one on values (`ValueCall`), with an enum for each
//!   family. The crate of the family takes that enum and does the call.
//! - The names are written only twice: in `specs/Names.antt`, and in the tables of `src/functions.rt`, one for
//!   each length of names (`OF_THREE` to `OF_MORE`). A law says that each line of one is found in the other.
//! - `builtin_named` doesn't unfold in the crates above, since each proof there would carry all tables.
//! - `specs/Strictness.antt` says which operands an operator evaluates, and `specs/OperatorTexts.antt` how operators
//!   print.
#![tactic(auto)]

mod functions;
mod laws;
pub mod operator;
mod strictness;

pub use functions::{
    BitCall, Builtin, CollectionCall, ConversionCall, EncodingCall, HigherOrderCall, NumberCall,
    OF_FIVE, OF_FOUR, OF_MORE, OF_SEVEN, OF_SIX, OF_THREE, TextCall, TimeCall, ValueCall,
};
pub use laws::each_name_finds_its_call;
pub use strictness::{Strictness, strictness_of};
