//! Limits: the size of values, the counts of a run, where a run stops.
//!
//! - `Limits` are what a host sets. `Limit` says which one was exceeded, and `Outcome` how a call within limits ends.
//! - `walk` measures the weight and the depth of a value. It stops at the first limit that is exceeded, so it visits no
//!   more parts than there is room for. `specs/Sizes.antt` has the units: 1 for the slot of a value, and 1 for each 16
//!   bytes of a string.
//! - `patterns` weighs a regular expression by its source, before it is built (`specs/Patterns.antt`).
//! - `Meter` is what a machine counts with: `Allowance` within limits, `Budget` where a run may pause and tells what it
//!   used, `NoMeter` without limits. `specs/Counting.antt` says what
//!   a way of counting is and how a run may end, and `Rooms.antt` how a run within limits counts.
#![tactic(auto)]

mod allowance;
mod budget;
mod limit;
mod limits;
mod meter;
mod no_meter;
mod outcome;
mod patterns;
mod units;
mod value_limit;
mod walk;

pub use allowance::Allowance;
pub use budget::Budget;
pub use limit::Limit;
pub use limits::Limits;
pub use meter::Meter;
pub use no_meter::NoMeter;
pub use outcome::Outcome;
pub use patterns::weigh_pattern;
pub use units::{byte_units, take_names};
pub use value_limit::ValueLimit;
pub use walk::{weigh, weigh_inside, weighs_one};
