//! Runs of code, within limits or without.
ghost use Rattle.std.specs.Prelude.{None};
ghost use Rattle.expr_limits.specs.Outcomes.{ReturnsOutcome};
ghost use Rattle.expr_lowering.specs.Blocks.{CodeKeeps, blocks_of};
ghost use Rattle.expr_acts.specs.Here.{here};
ghost use Rattle.expr_acts.specs.Texts.{text_of};
ghost use Rattle.expr_meaning.specs.Refusals.{NeverRefusesWith};
ghost use Rattle.expr_stops.specs.Stops.{CodeComes, CodeUses, UsesWithin};
ghost use Rattle.expr_error.specs.ErrorKind.{RefusesNoPattern, pattern as bad_pattern};
ghost use Rattle.expr_meaning.specs.World.{world_of};

use crate::used::Used;
use expr_acts::World;
use expr_context::ContextProvider;
use expr_limits::{Limits, Outcome};
use expr_lowering::{Code, Pointer};
use expr_machine::{LimitedRun, execute_with, run_limited_with};
use expr_meaning::Functions;
use expr_pattern::Pattern;
use expr_value::{Result, Value};
use std::alloc::Global;

/// How a run ended, and what it used of its limits.
#[derive(Drop)]
pub struct EndedRun {
    pub went: Result<Outcome<Value>>,
    pub used: Used,
}

/// Executes code in a host, with the names of a provider, within limits or without.
///
/// It ends with the first error of an instruction: `ExprError`, or `MemoryError` if an allocation fails.
/// Passing a limit is not an error: it ends with [`Outcome::Stopped`].
pub fn execute_in<
    H: Functions,
    P: ContextProvider + Drop,
    L: Pointer<Value>,
    N: Pointer<String>,
    K: Pointer<Pattern>,
>(alloc: Global, host: &H, code: &Code<L, N, K>, provider: P, limits: Option<Limits>) -> EndedRun
    ensures ends { ReturnsOutcome result.went (CodeComes limits (world_of (H.host host.now)
        (P.context provider)) (blocks_of L.held (text_of N.held) code.now)) }
    ensures pattern { NeverRefusesWith (H.host host.now) bad_pattern → CodeKeeps L.held K.held code.now
        → RefusesNoPattern result.went }
    ensures used { UsesWithin limits result.used }
    ensures counts { CodeUses limits (world_of (H.host host.now) (P.context provider))
        (blocks_of L.held (text_of N.held) code.now) result.went result.used }
{
    let world = World {
        alloc,
        host,
        provider,
    };
    match limits {
        Some(limits) => {
            let LimitedRun {
                outcome,
                steps,
                size,
            } = run_limited_with(&world, code, &limits);
            EndedRun {
                went: outcome,
                used: Used { steps, size },
            }
        }
        None => EndedRun {
            went: execute_free(&world, code),
            used: Used::nothing(),
        },
    }
}

/// Executes code in a world, without limits.
#[inline(always)]
fn execute_free<
    H: Functions,
    P: ContextProvider,
    L: Pointer<Value>,
    N: Pointer<String>,
    K: Pointer<Pattern>,
>(world: &World<'_, H, P>, code: &Code<L, N, K>) -> Result<Outcome<Value>>
    ensures ends { ReturnsOutcome result (CodeComes None (here H.host P.context world.now)
        (blocks_of L.held (text_of N.held) code.now)) }
    ensures pattern { NeverRefusesWith (here H.host P.context world.now).host bad_pattern
        → CodeKeeps L.held K.held code.now → RefusesNoPattern result }
{
    Ok(Outcome::Answered(execute_with(world, code)?))
}
