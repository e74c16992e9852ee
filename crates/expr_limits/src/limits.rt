//! Limits on what a call may use.
ghost use Rattle.std.specs.Prelude.{◌≡◌};

/// Limits on what a call may use.
#[derive(Clone, Copy, Debug)]
pub struct Limits {
    /// The greatest height of the syntax tree: the number of trees one inside another.
    pub nesting: usize,
    /// The greatest weight of all literal patterns of an expression together, as
    /// [`weigh_pattern`](crate::weigh_pattern) measures it.
    pub patterns: u64,
    /// The most steps of a run. An instruction is one step, and so is an item that is looked at and each 16 bytes of a
    /// string.
    pub steps: u64,
    /// The greatest depth of a value that a run makes. A scalar has depth 0, and an array or a map one more than its
    /// deepest part.
    pub depth: usize,
    /// The greatest weight of the values that a run has made and still holds, as [`weigh`](crate::weigh) measures it.
    pub size: u64,
}

impl Limits {
    /// Limits for untrusted expressions: a nesting of 5,000, patterns of 100,000, 1,000,000 steps, a depth of 1,000, and a
    /// size of 1,000,000.
    pub fn untrusted() -> Limits
        ensures nesting { result.nesting ≡ 5000 }
        ensures patterns { result.patterns ≡ 100000 }
        ensures steps { result.steps ≡ 1000000 }
        ensures depth { result.depth ≡ 1000 }
        ensures size { result.size ≡ 1000000 }
    {
        Limits {
            nesting: 5_000,
            patterns: 100_000,
            steps: 1_000_000,
            depth: 1_000,
            size: 1_000_000,
        }
    }
}
