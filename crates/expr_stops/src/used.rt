//! What a run used of its limits.
ghost use Rattle.std.specs.Prelude.{◌≡◌};
ghost use Rattle.expr_stops.specs.Stops.{nothing_used};

/// What a run used of its limits. Nothing is counted without limits, so both are 0 then.
#[derive(Clone, Copy, Debug, PartialEq, Eq, Drop)]
pub struct Used {
    /// The steps that it took.
    pub steps: u64,
    /// The most size that it held at once.
    pub size: u64,
}

impl Used {
    /// Nothing.
    pub fn nothing() -> Used
        ensures { result ≡ nothing_used }
    {
        Used { steps: 0, size: 0 }
    }
}
