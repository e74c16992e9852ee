//! `compile`: the parser, and the offset of a syntax error.
//!
//! - `parser` is one loop, with its open frames on the heap. It parses each token as it is read, so no list of tokens
//!   is made. Its modules are topics: `operand` (a token at the beginning of an operand), `brace` (a `{` there),
//!   `follow` (a token after an operand), `postfix`, `list`, `choice`, `line`, `map`, and `stack` (the open frames).
//! - A function of the parser takes a token by reference unless it keeps its string. It moves a part out of a frame
//!   only if it does nothing else: each return of such a function drops all other variants again, which the check pays
//!   for.
//! - `specs/Trees.antt` has the trees of a source and the offset of its first fault, and `Reading.antt` what the
//!   parser's functions do. `Texts.antt` says what a result of `compile` means, and `Promises.antt` what `compile` and
//!   `compile_within` promise.
//! - `places` finds the place of each node of a program in its text. `placer` reads the tokens of a text that has a tree
//!   and marks where each node begins and ends, `marks` keeps this, and `order` walks the program, checks each mark and
//!   puts the places in order. `specs/Places.antt` says what they are.
//! - `bounded` weighs the literal patterns of an expression before any is built. `line_column` turns an offset into a
//!   line and a column.
//!
//! A function that returns a `Result` returns `MemoryError` if an allocation fails. `# Errors` lists its other errors.
#![tactic(auto)]

mod bounded;
pub mod laws;
mod limited;
mod line_column;
pub mod parser;
mod places;
mod text;

pub use bounded::{BoundedProgram, compile_bounded};
pub use limited::compile_limited;
pub use line_column::{LineColumn, line_column_of};
pub use places::{Place, PlacedProgram, compile_with_places};
pub use text::{compile, compile_within};
