//! What is left of the limits of a run.
ghost use Rattle.std.specs.Prelude.{◌≡◌, ◌+◌, ◌≤◌, ℕ, Ok, Err, IfOk, IfErr, None, Some, min};
ghost use Rattle.expr_limits.specs.Sizes.{PassesValueLimit, depth, inner_weight, weight};
ghost use Rattle.expr_limits.specs.MeterView.{Charges, MeterView};
ghost use Rattle.expr_limits.specs.Rooms.{Holds, Room, Takes, limited, with_size};

use crate::limit::Limit;
use crate::limits::Limits;
use crate::meter::Meter;
use crate::units::byte_units;
use crate::value_limit::ValueLimit;
use crate::walk::{weigh, weigh_inside, weighs_one};
use expr_value::Value;

/// What is left of the limits of a run: its steps, its size and its depth. If a limit was exceeded, it is recorded.
#[derive(Clone, Copy, Debug, Drop)]
pub struct Allowance {
    steps: u64,
    size: u64,
    depth: usize,
    passed: Option<Limit>,
}

impl Allowance {
    /// An allowance of all that `limits` allow a run.
    #[inline(always)]
    pub fn new(limits: &Limits) -> Allowance
        ensures { ⟦<Allowance as Meter>⟧.metered result
            ≡ record { room = limited limits.now.steps limits.now.size limits.now.depth; stopped = None } }
    {
        Allowance {
            steps: limits.steps,
            size: limits.size,
            depth: limits.depth,
            passed: None,
        }
    }

    /// An allowance of all that `limits` allow a run, less the charge for its first block of so many instructions.
    ///
    /// # Errors
    ///
    /// Returns the limit that the charge would exceed.
    #[inline(always)]
    pub fn after_block(limits: &Limits, instructions: usize) -> Result<Allowance, Limit>
        ensures left { IfOk result (λ allowance. Takes instructions instructions
            (limited limits.now.steps limits.now.size limits.now.depth)
            (Ok (⟦<Allowance as Meter>⟧.metered allowance).room)) }
        ensures none { IfOk result (λ allowance. (⟦<Allowance as Meter>⟧.metered allowance).stopped ≡ None) }
        ensures exceeded { IfErr result (λ limit. Takes instructions instructions
            (limited limits.now.steps limits.now.size limits.now.depth) (Err limit)) }
    {
        let cost = instructions as u64;
        if limits.steps < cost {
            return Err(Limit::Steps);
        }
        if limits.size < cost {
            return Err(Limit::Size);
        }
        Ok(Allowance {
            steps: limits.steps - cost,
            size: limits.size - cost,
            depth: limits.depth,
            passed: None,
        })
    }

    /// Whether a value of weight 1 could be kept if this size were left. It charges nothing, so it is for the last value
    /// of a run.
    ///
    /// # Errors
    ///
    /// Returns the limit that the value would exceed, and records it.
    #[inline(always)]
    pub fn check_one(&mut self, size: u64) -> Result<(), Limit>
        ensures kept { IfOk result (λ _. (left : Room)
            × Holds 1 0 (with_size size (⟦<Allowance as Meter>⟧.metered self.old).room) (Ok left)) }
        ensures same { IfOk result (λ _. self.new ≡ self.old) }
        ensures exceeded { IfErr result
            (λ limit. Holds 1 0 (with_size size (⟦<Allowance as Meter>⟧.metered self.old).room) (Err limit)) }
        ensures noted { IfErr result (λ limit.
            (⟦<Allowance as Meter>⟧.metered self.new).stopped ≡ Some limit) }
    {
        if self.steps == 0 {
            return self.pass(Limit::Steps);
        }
        if size == 0 {
            return self.pass(Limit::Size);
        }
        Ok(())
    }

    /// Records the limit that is exceeded.
    #[inline(never)]
    fn pass(&mut self, limit: Limit) -> Result<(), Limit>
        ensures noted { ⟦<Allowance as Meter>⟧.metered self.new
            ≡ record (⟦<Allowance as Meter>⟧.metered self.old) { stopped = Some limit } }
        ensures passed { result ≡ Err limit }
    {
        self.passed = Some(limit);
        Err(limit)
    }

    /// Takes steps and size, unless that exceeds a limit.
    #[inline(always)]
    fn take(&mut self, steps: u64, size: u64) -> Result<(), Limit>
        ensures { Charges (λ limit. limit) result (Takes steps size)
            (⟦<Allowance as Meter>⟧.metered self.old) (⟦<Allowance as Meter>⟧.metered self.new) }
    {
        if self.steps < steps {
            return self.pass(Limit::Steps);
        }
        if self.size < size {
            return self.pass(Limit::Size);
        }
        self.steps -= steps;
        self.size -= size;
        Ok(())
    }

    /// Charges a value of this weight that has no parts.
    #[inline(always)]
    fn take_both(&mut self, weight: u64) -> Result<(), Limit>
        ensures { Charges (λ limit. limit) result (Holds weight 0)
            (⟦<Allowance as Meter>⟧.metered self.old) (⟦<Allowance as Meter>⟧.metered self.new) }
    {
        self.take(weight, weight)
    }

    /// The greatest weight that a value may still have.
    #[inline(always)]
    fn room(&self) -> u64
        ensures { result ≡ min self.now.steps self.now.size }
    {
        self.steps.min(self.size)
    }

    /// Charges a measured value. `measured` is the room that is left after it, or the limit that it exceeds.
    fn hold(&mut self, measured: Result<u64, ValueLimit>) -> Result<(), Limit>
        requires { IfOk measured (λ left. left ≤ min self.old.steps self.old.size) }
        ensures { (size deep : ℕ)
            → IfOk measured (λ left. (size + left ≡ min self.old.steps self.old.size)
            × (deep ≤ self.old.depth))
            → IfErr measured (λ p. PassesValueLimit p size deep
            (min self.old.steps self.old.size) self.old.depth)
            → Charges (λ limit. limit) result (Holds size deep)
            (⟦<Allowance as Meter>⟧.metered self.old) (⟦<Allowance as Meter>⟧.metered self.new) }
    {
        match measured {
            Ok(left) => {
                let weight = self.room() - left;
                self.take(weight, weight)
            }
            Err(ValueLimit::Depth) => self.pass(Limit::Depth),
            Err(ValueLimit::Weight) => {
                if self.size <= self.steps {
                    return self.pass(Limit::Size);
                }
                self.pass(Limit::Steps)
            }
        }
    }

    /// Charges the content of a value, which is measured by a walk.
    #[inline(never)]
    fn hold_inside(&mut self, value: &Value) -> Result<(), Limit>
        ensures { Charges (λ limit. limit) result (Holds (inner_weight value.now) (depth value.now))
            (⟦<Allowance as Meter>⟧.metered self.old) (⟦<Allowance as Meter>⟧.metered self.new) }
    {
        let measured = weigh_inside(value, self.room(), self.depth);
        self.hold(measured)
    }

    /// Charges a value, which is measured by a walk.
    #[inline(never)]
    fn hold_whole(&mut self, value: &Value) -> Result<(), Limit>
        ensures { Charges (λ limit. limit) result (Holds (weight value.now) (depth value.now))
            (⟦<Allowance as Meter>⟧.metered self.old) (⟦<Allowance as Meter>⟧.metered self.new) }
    {
        let measured = weigh(value, self.room(), self.depth);
        self.hold(measured)
    }

    /// Charges an array of `count` scalars, and `units` more.
    #[inline(always)]
    fn hold_flat(&mut self, units: u64, count: u64) -> Result<(), Limit>
        ensures { Charges (λ limit. limit) result (Holds (units + count) 1)
            (⟦<Allowance as Meter>⟧.metered self.old) (⟦<Allowance as Meter>⟧.metered self.new) }
    {
        if self.depth == 0 {
            return self.pass(Limit::Depth);
        }
        self.take(units, units)?;
        self.take(count, count)
    }
}

impl Meter for Allowance {
    type Stop = Limit;

    ghost metered = { λ b. record { room = limited b.steps b.size b.depth; stopped = b.passed } };

    ghost limit = { λ limit. limit };

    ghost pause = { λ _. 0 };

    #[inline(always)]
    fn counts(&self) -> bool {
        true
    }

    #[inline(always)]
    fn steps_left(&self) -> u64 {
        self.steps
    }

    #[inline(always)]
    fn is_due(&self) -> bool {
        false
    }

    #[inline(always)]
    fn enter(&mut self, instructions: usize) -> Result<(), Limit> {
        self.take(instructions as u64, instructions as u64)
    }

    #[inline(always)]
    fn work(&mut self, steps: u64, room: u64) -> Result<(), Limit> {
        if self.steps < steps || self.steps - steps < room {
            return self.pass(Limit::Steps);
        }
        if self.size < room {
            return self.pass(Limit::Size);
        }
        self.steps -= steps;
        Ok(())
    }

    #[inline(always)]
    fn overrun(&mut self) -> Result<(), Limit> {
        self.pass(Limit::Steps)
    }

    #[inline(always)]
    fn count_made(&mut self, value: &Value) -> Result<(), Limit> {
        if weighs_one(value) {
            return Ok(());
        }
        if let Value::String(text) = value {
            return self.take_both(1 + byte_units(text.len()));
        }
        self.hold_inside(value)
    }

    #[inline(always)]
    fn count_made_array(&mut self, count: u64) -> Result<(), Limit> {
        self.hold_flat(3, count)
    }

    #[inline(always)]
    fn keep(&mut self, value: &Value) -> Result<(), Limit> {
        if weighs_one(value) {
            return self.take(1, 1);
        }
        if let Value::String(text) = value {
            return self.take_both(2 + byte_units(text.len()));
        }
        self.hold_whole(value)
    }

    #[inline(always)]
    fn keep_one(&mut self) -> Result<(), Limit> {
        self.take_both(1)
    }

    #[inline(always)]
    fn keep_array(&mut self, count: u64) -> Result<(), Limit> {
        self.hold_flat(4, count)
    }

    #[inline(always)]
    fn mark(&self) -> u64 {
        self.size
    }

    #[inline(always)]
    fn release(&mut self, mark: u64) {
        self.size = mark;
    }
}
