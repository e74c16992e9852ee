//! A meter that is borrowed.
ghost use Rattle.std.proofs.Common.{ap, inl};
ghost use Rattle.std.specs.Prelude.{◌≡◌, Ok, Err, IfOk, IfErr, false};
ghost use Rattle.expr_frames.specs.Halts.{halt_of};
ghost use Rattle.expr_limits.specs.Rooms.{Holds, Room, with_size};

use crate::halt::{Asked, Halted, RunMeter};
use expr_limits::{Allowance, Limit, Meter};
use expr_value::{Error, Value};
use std::alloc::Global;

/// A meter that is borrowed. The machine stays small if its meter is, so a run that neither pauses nor tells its use
/// counts with one.
#[derive(Drop)]
pub struct Lent<'n, M> {
    pub meter: &'n mut M,
}

impl<'n, M: Meter> Meter for Lent<'n, M> {
    type Stop = M::Stop;

    ghost metered = { λ lent. M.metered lent.meter.now };

    ghost limit = { M.limit };

    ghost pause = { λ lent. M.pause lent.meter.now };

    #[inline(always)]
    fn counts(&self) -> bool {
        self.meter.counts()
    }

    #[inline(always)]
    fn steps_left(&self) -> u64 {
        self.meter.steps_left()
    }

    #[inline(always)]
    fn is_due(&self) -> bool {
        self.meter.is_due()
    }

    #[inline(always)]
    fn enter(&mut self, instructions: usize) -> Result<(), M::Stop> {
        self.meter.enter(instructions)
    }

    #[inline(always)]
    fn work(&mut self, steps: u64, room: u64) -> Result<(), M::Stop> {
        self.meter.work(steps, room)
    }

    #[inline(always)]
    fn overrun(&mut self) -> Result<(), M::Stop> {
        self.meter.overrun()
    }

    #[inline(always)]
    fn count_made(&mut self, value: &Value) -> Result<(), M::Stop> {
        self.meter.count_made(value)
    }

    #[inline(always)]
    fn count_made_array(&mut self, count: u64) -> Result<(), M::Stop> {
        self.meter.count_made_array(count)
    }

    #[inline(always)]
    fn keep(&mut self, value: &Value) -> Result<(), M::Stop> {
        self.meter.keep(value)
    }

    #[inline(always)]
    fn keep_one(&mut self) -> Result<(), M::Stop> {
        self.meter.keep_one()
    }

    #[inline(always)]
    fn keep_array(&mut self, count: u64) -> Result<(), M::Stop> {
        self.meter.keep_array(count)
    }

    #[inline(always)]
    fn mark(&self) -> u64 {
        self.meter.mark()
    }

    #[inline(always)]
    fn release(&mut self, mark: u64) {
        self.meter.release(mark);
    }
}

impl<'n> Lent<'n, Allowance> {
    /// Whether a value of weight 1 could be kept if this size were left, as [`Allowance::check_one`] says it.
    ///
    /// # Errors
    ///
    /// Returns the limit that the value would exceed, and records it.
    #[inline(always)]
    pub fn check_one(&mut self, size: u64) -> Result<(), Limit>
        ensures kept { IfOk result (λ _. (left : Room)
            × Holds 1 0 (with_size size (⟦<Lent<'n, Allowance> as Meter>⟧.metered self.old).room) (Ok left)) }
        ensures same { IfOk result (λ _. ⟦<Lent<'n, Allowance> as Meter>⟧.metered self.new
            ≡ ⟦<Lent<'n, Allowance> as Meter>⟧.metered self.old) }
        ensures exceeded { IfErr result (λ limit.
            Holds 1 0 (with_size size (⟦<Lent<'n, Allowance> as Meter>⟧.metered self.old).room) (Err limit)) }
        ensures noted { IfErr result (λ limit.
            (⟦<Lent<'n, Allowance> as Meter>⟧.metered self.new).stopped ≡ Some limit) }
    {
        self.meter.check_one(size)
    }
}

impl<'n> RunMeter for Lent<'n, Allowance> {
    type Halt = Halted;

    ghost stops = { λ _ _. false };

    ghost halt = { halt_of };

    ghost refuses = { λ _ _ made. ap halt_of made };

    ghost lacks_memory = { λ _ _ made. ap halt_of made };

    ghost passes = { λ _ _ _ _ made. ap halt_of made };

    ghost halts = { λ _ _ made. inl (ap halt_of made) };

    #[inline(always)]
    fn stops_at(&self, _name: &str) -> bool {
        false
    }

    fn asks(&self, _alloc: Global, _asked: Asked) -> Halted {
        Halted::Refused(Error::MemoryError)
    }

    #[inline(always)]
    fn pauses(&self) -> Halted {
        Halted::Refused(Error::MemoryError)
    }
}
