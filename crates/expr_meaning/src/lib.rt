//! What a program may return in a context and a host, and that the runs of its code return the same.
#![tactic(auto)]

mod calls;
mod environment;
mod laws;
mod methods;

pub use calls::{Dispatch, call_added, call_alone, call_known, dispatch_call, dispatch_known};
pub use environment::{ExprCall, Functions, NoFunctions};
pub use laws::{
    answers_stay_within_depth, codes_are_safe, counted_runs_are_runs, execution_answers_programs,
    left_side_decides, none_in_programs_is_the_opposite_of_any, programs_have_codes,
    programs_refuse_to_evaluate, runs_as_programs, runs_have_counts, shadowed_lines_are_refused,
    stale_slots_are_refused,
};
pub use methods::call_method;
