//! Decisions by the top of a stack, and how many instructions to skip.
ghost use Rattle.std.specs.Prelude.{◌<◌, ◌≡◌, ◌≢◌, ◌∷◌, List, MatchBool, MatchOption, false, if◌then◌else◌, length, not, true};
ghost use Rattle.expr_acts.specs.Decides.{Decides};
ghost use Rattle.expr_operators.specs.Operators.{truth};
ghost use Rattle.expr_stack.specs.Cells.{cell_value, top_of};
ghost use Rattle.expr_stack.specs.Pushes.{HasPushed, OnOne};
ghost use Rattle.expr_stack.specs.declared.cell.Cell.TheVariants as cell;
ghost use Rattle.expr_value.specs.declared.value.Value as value;
ghost use Rattle.expr_value.specs.declared.value.Value.{Value as declared};

use expr_stack::Stack;
use expr_value::{Result, Value};
use std::alloc::{Allocator, Global};

/// Pops the top and returns it as a condition.
pub fn condition<A: Allocator + Copy>(
    alloc: Global,
    stack: &mut Stack<'_, A>,
    kept: &[Value],
) -> Result<bool>
    requires { 0 < length stack.old }
    ensures { OnOne kept.now stack.old (λ x rest. Decides result (truth x) rest rest stack.new) }
{
    match stack.take_truth() {
        Some(truth) => Ok(truth),
        None => stack.take_condition(alloc, kept),
    }
}

/// Pops the left side of `and` and returns it as a condition. If it is false, pushes false again.
pub fn and_then<A: Allocator + Copy>(
    alloc: Global,
    stack: &mut Stack<'_, A>,
    kept: &[Value],
) -> Result<bool>
    requires { 0 < length stack.old }
    ensures { OnOne kept.now stack.old
        (λ x rest. Decides result (truth x) rest (cell.Value (value.Bool false) ∷ rest) stack.new) }
{
    let holds = condition(alloc, stack, kept)?;
    if !holds {
        stack.push_bool(false)?;
    }
    Ok(holds)
}

/// Pops the left side of `or` and returns it as a condition. If it is true, pushes true again.
pub fn or_else<A: Allocator + Copy>(
    alloc: Global,
    stack: &mut Stack<'_, A>,
    kept: &[Value],
) -> Result<bool>
    requires { 0 < length stack.old }
    ensures { OnOne kept.now stack.old
        (λ x rest. Decides result (truth x) (cell.Value (value.Bool true) ∷ rest) rest stack.new) }
{
    let holds = condition(alloc, stack, kept)?;
    if holds {
        stack.push_bool(true)?;
    }
    Ok(holds)
}

/// Pops the top if it is nil, and returns whether it was. Otherwise it stays.
#[inline(never)]
pub fn take_nil<A: Allocator + Copy>(stack: &mut Stack<'_, A>, kept: &[Value]) -> bool
    requires { 0 < length stack.old }
    ensures is_nil { MatchBool result
        (cell_value kept.now (top_of stack.old) ≡ value.Nil)
        (cell_value kept.now (top_of stack.old) ≢ value.Nil) }
    ensures rest { MatchBool result (stack.old ≡ top_of stack.old ∷ stack.new) (stack.new ≡ stack.old) }
{
    stack.take_nil(kept)
}

/// How many instructions a jump skips unless this holds.
#[inline(always)]
pub fn passed_unless(holds: bool, passed: usize) -> usize
    ensures { result ≡ (if holds then 0 else passed) }
{
    if holds { 0 } else { passed }
}

/// Whether the top is this boolean, if it is a boolean. Pops it if so. Any other value stays.
#[inline(always)]
pub fn take_if<A: Allocator + Copy>(stack: &mut Stack<'_, A>, truth: bool) -> Option<bool>
    requires { 0 < length stack.old }
    ensures { MatchOption result (stack.new ≡ stack.old) (λ is_taken. MatchBool is_taken
        (stack.old ≡ cell.Value (value.Bool truth) ∷ stack.new)
        ((top_of stack.old ≡ cell.Value (value.Bool (not truth))) × (stack.new ≡ stack.old))) }
{
    let top = stack.truth()?;
    if top == truth {
        let _ = stack.take_top();
        return Some(true);
    }
    Some(false)
}

/// Whether the top is known to be a boolean.
#[inline(always)]
pub fn is_bool<A: Allocator + Copy>(stack: &Stack<'_, A>) -> bool
    requires { 0 < length stack.now }
    ensures { MatchBool result ((kept : List declared) → OnOne kept stack.now
        (λ x rest. HasPushed (λ a. a ≡ truth x) rest stack.now)) (Unit {0}) }
{
    stack.truth().is_some()
}
