//! The costs of instructions and calls: the work on their values, and the room for their results.
#![tactic(auto)]

mod arguments;
mod calls;
mod cost;
mod cost_kind;
mod entries;
mod measures;
mod operators;
mod retention;

pub use calls::{array_cost, call_cost, map_cost, method_cost};
pub use cost::{Cost, Paid, charge};
pub use cost_kind::CostKind;
pub use measures::{length_of, look_work, lookup_work};
pub use operators::{operator_cost, short_work, span_room};
pub use retention::{Retention, first_retained};
