//! The tokens of an expression, and the grammar on tokens.
//!
//! - Tokens: `specs/Tokens.antt` says how each token is written, with `Kinds.antt` (bytes) and `Spellings.antt`
//!   (symbols and words). `Reading.antt` relates a source to its tokens, and `Steps.antt` has one step of that.
//!   `Lexer.antt` is a plain, slow program that computes the tokens; a law says so.
//! - Printed values: `specs/Printed.antt` says which values can be read back from their printed form, and as which
//!   tokens.
//! - Grammar: `specs/Grammar.antt` has the concrete syntax trees, the tokens that they spell, and which trees fit.
//!   `Prefixes.antt` says which tokens begin a program, `Brackets.antt` where brackets may be, and `Height.antt` how
//!   high a tree is.
//! - `specs/Machine.antt` promises nothing. It is the plain program that parses tokens into trees, by which the laws
//!   are proved (`proofs/Complete.antt`, `Sound.antt`, `Closing.antt`).
//! - `operator_sign` has the operators with their levels, and `role` what a token does after an operand.
//!
//! A function that returns a `Result` returns `AllocError` if an allocation fails.
#![tactic(auto)]

mod gap;
mod integer;
pub mod laws;
mod literal;
pub mod literals;
pub mod operator_sign;
mod quoted;
mod reading;
mod reserved;
pub mod role;
mod sign;
mod token;
mod word;

pub use laws::{lexer_gives_the_reading, one_reading, printed_text_reads};
pub use reading::{NextToken, Reading, next_token, read};
pub use reserved::{Reserved, reserved_of};
pub use sign::Sign;
pub use token::Token;
pub use word::{are_word_bytes, is_word};
