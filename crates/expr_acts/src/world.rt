//! The world of a run.

use std::alloc::Global;

/// The world of a run: the additions of a host, and the names of a context.
#[derive(Drop)]
pub struct World<'a, H, P> {
    pub alloc: Global,
    pub host: &'a H,
    pub provider: P,
}
