//! Operators, ranges, indices and slices on values, and their errors.
//!
//! - `specs/Operators.antt` and `Positions.antt` define the results on values. `Matching.antt` is a relation, since
//!   whether a pattern can be built is open. `OnOperands.antt` has the results on lists of operands, for code.
//!   `AllocFree.antt` says which operators allocate nothing.
//! - `operators` has `apply` (any operator), `prefix` (unary operators) and `judge` (operators that return a boolean,
//!   without a `Value`).
//! - `messages` has the messages of errors, and `bounds` the bounds of slices.
//!
//! A function that returns a `Result` returns `MemoryError` if an allocation fails. `# Errors` lists its other errors.
#![tactic(auto)]

mod arithmetic;
mod bounds;
mod comparison;
mod cow;
mod laws;
mod matching;
mod membership;
mod messages;
mod moments;
mod operators;
mod positions;

pub use bounds::bound_at;
pub use cow::{part_of, slice_of};
pub use expr_arguments::CowValue;
pub use laws::{outside_is_not_within, part_stands_between_front_and_back, unequal_is_not_equal};
pub use matching::match_pattern;
pub use messages::{unexpected_kind, unknown_function, unknown_method, unknown_name};
pub use operators::{apply, as_condition, as_truth, judge, prefix};
pub use positions::{index, range, range_between, slice, slice_bound, slice_lent};
