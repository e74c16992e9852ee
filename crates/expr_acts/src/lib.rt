//! What an instruction makes of top values, what it pays before and what it counts after.
#![tactic(auto)]

mod acts;
mod conditions;
mod names;
mod pay;
mod stores;
mod world;

pub use acts::{kept_pattern, texts};
pub use conditions::{and_then, condition, is_bool, or_else, passed_unless, take_if, take_nil};
pub use pay::{
    count_copied, count_places, count_range, count_top, pay_for_call, pay_for_look, pay_for_one,
    pay_for_pick, pay_for_pick_with, pay_for_span, pay_for_two,
};
pub use stores::store;
pub use world::World;
