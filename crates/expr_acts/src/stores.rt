//! Values that go into slots.
ghost use Rattle.std.specs.Prelude.{◌<◌, OnOk, length};
ghost use Rattle.expr_acts.specs.Stores.{Stores};
ghost use Rattle.expr_stack.specs.Cells.{AreWithin};

use expr_stack::{Memory, Stack};
use std::alloc::{AllocError, Allocator};

/// Pops the top of the stack into a slot, which then is the last slot.
#[inline(never)]
pub fn store<'s, A: Allocator + Copy>(
    stack: &mut Stack<'s, A>,
    memory: &mut Memory<'s, A>,
    slot: usize,
) -> Result<(), AllocError>
    requires some { 0 < length stack.old }
    requires within { AreWithin (length memory.old.kept) stack.old }
    ensures { OnOk result (Stores slot stack.old stack.new memory.old memory.new) }
{
    memory.store(slot, stack.take_top())
}
