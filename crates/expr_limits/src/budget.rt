//! What is left of the limits of a run that may pause, and whose use is told.
ghost use Rattle.std.specs.Prelude.{◌≡◌, ◌<◌, ◌≤◌, ◌↔◌, ℕ, None};
ghost use Rattle.expr_limits.specs.MeterView.{MeterView};
ghost use Rattle.expr_limits.specs.Rooms.{IsDueAfter, least_steps, limited, size_left};

use crate::allowance::Allowance;
use crate::limit::Limit;
use crate::limits::Limits;
use crate::meter::Meter;
use expr_value::Value;

/// What is left of the limits of a run that may pause, and the least size that was left.
#[derive(Clone, Copy, Debug, Drop)]
pub struct Budget {
    left: Allowance,
    /// The run pauses once fewer steps are left. 0 means that it doesn't pause.
    pause: u64,
    /// The least size that was left before some of it came back.
    least: u64,
}

impl Budget {
    /// A budget with all that `limits` allow a run. The run doesn't pause.
    #[inline(always)]
    pub fn new(limits: &Limits) -> Budget
        ensures { ⟦<Budget as Meter>⟧.metered result
            ≡ record { room = limited limits.now.steps limits.now.size limits.now.depth; stopped = None } }
    {
        Budget {
            left: Allowance::new(limits),
            pause: 0,
            least: limits.size,
        }
    }

    /// Makes the run pause once it has taken this many more steps, if it has more than that. 0 counts as 1, so that
    /// each piece of a run takes a step.
    pub fn pause_after(&mut self, steps: u64)
        ensures same { ⟦<Budget as Meter>⟧.metered self.new ≡ ⟦<Budget as Meter>⟧.metered self.old }
        ensures pauses { (left : ℕ) → left < ⟦<Budget as Meter>⟧.pause self.new ↔ IsDueAfter steps
            (least_steps (⟦<Budget as Meter>⟧.metered self.old).room) left }
    {
        let left = self.left.steps_left();
        let steps = steps.max(1);
        self.pause = if steps < left { left - steps + 1 } else { 0 };
    }

    /// The least size that was left so far. The run has held no more at once than what this lacks of the limit.
    pub fn least_size(&self) -> u64
        ensures { result ≤ size_left (⟦<Budget as Meter>⟧.metered self.now).room }
    {
        self.least.min(self.left.mark())
    }
}

impl Meter for Budget {
    type Stop = Limit;

    ghost metered = { λ budget. ⟦<Allowance as Meter>⟧.metered budget.left };

    ghost limit = { λ limit. limit };

    ghost pause = { λ budget. budget.pause };

    #[inline(always)]
    fn counts(&self) -> bool {
        self.left.counts()
    }

    #[inline(always)]
    fn steps_left(&self) -> u64 {
        self.left.steps_left()
    }

    #[inline(always)]
    fn is_due(&self) -> bool {
        self.left.steps_left() < self.pause
    }

    #[inline(always)]
    fn enter(&mut self, instructions: usize) -> Result<(), Limit> {
        self.left.enter(instructions)
    }

    #[inline(always)]
    fn work(&mut self, steps: u64, room: u64) -> Result<(), Limit> {
        self.left.work(steps, room)
    }

    #[inline(always)]
    fn overrun(&mut self) -> Result<(), Limit> {
        self.left.overrun()
    }

    #[inline(always)]
    fn count_made(&mut self, value: &Value) -> Result<(), Limit> {
        self.left.count_made(value)
    }

    #[inline(always)]
    fn count_made_array(&mut self, count: u64) -> Result<(), Limit> {
        self.left.count_made_array(count)
    }

    #[inline(always)]
    fn keep(&mut self, value: &Value) -> Result<(), Limit> {
        self.left.keep(value)
    }

    #[inline(always)]
    fn keep_one(&mut self) -> Result<(), Limit> {
        self.left.keep_one()
    }

    #[inline(always)]
    fn keep_array(&mut self, count: u64) -> Result<(), Limit> {
        self.left.keep_array(count)
    }

    #[inline(always)]
    fn mark(&self) -> u64 {
        self.left.mark()
    }

    #[inline(always)]
    fn release(&mut self, mark: u64) {
        self.least = self.least_size();
        self.left.release(mark);
    }
}
