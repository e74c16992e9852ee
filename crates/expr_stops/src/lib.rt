//! Functions that a host runs itself: a run stops at a call of one, and continues with the host's reply.
#![tactic(auto)]

mod limited;
mod names;
mod replay;
mod replays;
mod replies;
mod stops;
mod used;

pub use expr_meaning::ExprCall;
pub use limited::{EndedRun, execute_in};
pub use names::StopNames;
pub use replay::Stop;
pub use replies::{CallReply, Reply};
pub use stops::{RunStatus, Stops};
pub use used::Used;
