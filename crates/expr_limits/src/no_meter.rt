//! A meter that counts nothing.
ghost use Rattle.std.specs.Prelude.{None};
ghost use Rattle.expr_limits.specs.MeterView.{MeterView};
ghost use Rattle.expr_limits.specs.Rooms.{unlimited};
ghost use Rattle.expr_limits.specs.declared.limit.Limit.TheVariants.{Steps};

use crate::meter::Meter;
use expr_value::Value;
use std::alloc::AllocError;

/// Counts nothing.
#[derive(Clone, Copy, Debug, Drop)]
pub struct NoMeter;

impl Meter for NoMeter {
    // No call returns it.
    type Stop = AllocError;

    ghost metered = { λ _. record { room = unlimited; stopped = None } };

    ghost limit = { λ _. Steps };

    ghost pause = { λ _. 0 };

    #[inline(always)]
    fn counts(&self) -> bool {
        false
    }

    #[inline(always)]
    fn steps_left(&self) -> u64 {
        0
    }

    #[inline(always)]
    fn is_due(&self) -> bool {
        false
    }

    #[inline(always)]
    fn enter(&mut self, _instructions: usize) -> Result<(), AllocError> {
        Ok(())
    }

    #[inline(always)]
    fn work(&mut self, _steps: u64, _room: u64) -> Result<(), AllocError> {
        Ok(())
    }

    #[inline(always)]
    fn overrun(&mut self) -> Result<(), AllocError> {
        Ok(())
    }

    #[inline(always)]
    fn count_made(&mut self, _value: &Value) -> Result<(), AllocError> {
        Ok(())
    }

    #[inline(always)]
    fn count_made_array(&mut self, _count: u64) -> Result<(), AllocError> {
        Ok(())
    }

    #[inline(always)]
    fn keep(&mut self, _value: &Value) -> Result<(), AllocError> {
        Ok(())
    }

    #[inline(always)]
    fn keep_one(&mut self) -> Result<(), AllocError> {
        Ok(())
    }

    #[inline(always)]
    fn keep_array(&mut self, _count: u64) -> Result<(), AllocError> {
        Ok(())
    }

    #[inline(always)]
    fn mark(&self) -> u64 {
        0
    }

    #[inline(always)]
    fn release(&mut self, _mark: u64) {}
}
