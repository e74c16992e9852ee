//! What waits for the result of a block.

use expr_code::Binds;
use expr_costs::Retention;
use expr_predicates::PredicateRun;
use expr_stack::Stack;
use std::alloc::Allocator;

/// A caller that waits for the result of a block, and its call.
#[derive(Drop)]
pub(crate) struct Frame<'s, A: Allocator> {
    pub run: PredicateRun<'s>,
    /// The caller's stack.
    pub stack: Stack<'s, A>,
    /// The number of the caller's block, and how many of its instructions are left.
    pub number: usize,
    pub at: usize,
    /// The first slot for the names that the call binds, and the length of the kept list before them.
    pub slot: usize,
    pub places: usize,
    pub binds: Binds,
    /// What the call keeps of each result.
    pub keeps: Retention,
    /// How much of the size was left before the call, before it kept anything, and before its present item.
    pub called: u64,
    pub first: u64,
    pub mark: u64,
}
