//! Counting what a run uses.
ghost use Rattle.std.specs.Prelude.{◌≡◌, ◌+◌, ◌<◌, ◌≤◌, ◌↔◌, ℕ, IsTrue};
ghost use Rattle.expr_limits.specs.Sizes.{depth, inner_weight, weight};
ghost use Rattle.expr_limits.specs.MeterView.{Charges, MeterView};
ghost use Rattle.expr_limits.specs.Rooms.{TakesWork, Holds, Overruns, Takes, is_limited, least_steps, size_left, with_size};
ghost use Rattle.expr_limits.specs.declared.limit.Limit.{Limit};

use expr_value::Value;

/// Counts what a run uses, or nothing.
///
/// If a charge would exceed a limit, the limit is recorded and the call returns it.
pub trait Meter: Drop {
    /// The limit that a charge would exceed.
    type Stop: Drop;

    /// What is left of the limits, and the limit that was exceeded, if one was.
    ghost metered: { Self → MeterView };

    /// Which limit that is.
    ghost limit: { Self.Stop → Limit };

    /// Whether anything is counted.
    fn counts(&self) -> bool
        ensures { result ≡ is_limited (metered self.now).room };

    /// The steps that are left, or 0 if nothing is counted.
    fn steps_left(&self) -> u64
        ensures { result ≡ least_steps (metered self.now).room };

    /// The run pauses once fewer steps than this are left. 0 means that it doesn't pause.
    ghost pause: { Self → ℕ };

    /// Whether the run pauses now, though it could go on.
    fn is_due(&self) -> bool
        ensures { IsTrue result ↔ least_steps (metered self.now).room < pause self.now };

    /// Charges the entry of a block: one step and one unit of size for each instruction.
    fn enter(&mut self, instructions: usize) -> Result<(), Self::Stop>
        ensures { Charges limit result (Takes instructions instructions) (metered self.old)
            (metered self.new) };

    /// Takes steps for work that is about to be done. The work's result must fit in `room`, both of steps and of size,
    /// which isn't taken yet.
    fn work(&mut self, steps: u64, room: u64) -> Result<(), Self::Stop>
        ensures { Charges limit result (TakesWork steps room) (metered self.old) (metered self.new) };

    /// Reports that more steps are needed than are left.
    fn overrun(&mut self) -> Result<(), Self::Stop>
        ensures { Charges limit result Overruns (metered self.old) (metered self.new) };

    /// Charges a value that was made. Its slot is charged already.
    fn count_made(&mut self, value: &Value) -> Result<(), Self::Stop>
        ensures { Charges limit result (Holds (inner_weight value.now) (depth value.now))
            (metered self.old) (metered self.new) };

    /// Charges an array of `count` scalars that was made. The slot of the array is charged already.
    fn count_made_array(&mut self, count: u64) -> Result<(), Self::Stop>
        ensures { Charges limit result (Holds (3 + count) 1) (metered self.old) (metered self.new) };

    /// Charges a value that is kept in another value.
    fn keep(&mut self, value: &Value) -> Result<(), Self::Stop>
        ensures { Charges limit result (Holds (weight value.now) (depth value.now))
            (metered self.old) (metered self.new) };

    /// Charges a value of weight 1 that is kept in another value.
    fn keep_one(&mut self) -> Result<(), Self::Stop>
        ensures { Charges limit result (Holds 1 0) (metered self.old) (metered self.new) };

    /// Charges an array of `count` scalars that is kept in another value.
    fn keep_array(&mut self, count: u64) -> Result<(), Self::Stop>
        ensures { Charges limit result (Holds (4 + count) 1) (metered self.old) (metered self.new) };

    /// The size that is left, or 0 if nothing is counted. [`release`](Meter::release) restores it.
    fn mark(&self) -> u64
        ensures { result ≡ size_left (metered self.now).room };

    /// Restores the size that was left at the mark, as the values made since then are gone. Steps are never restored.
    fn release(&mut self, mark: u64)
        ensures stopped { (metered self.new).stopped ≡ (metered self.old).stopped }
        ensures room { (metered self.new).room ≡ with_size mark (metered self.old).room };
}
