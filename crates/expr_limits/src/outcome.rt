//! How a call within limits ends.

use crate::limit::Limit;

/// How a call within limits ends if it returns no error.
#[derive(Drop)]
pub enum Outcome<T> {
    /// It ended with this result.
    Answered(T),
    /// It was stopped because it would have exceeded this limit.
    Stopped(Limit),
}
