//! One run that replays the host's replies.
ghost use Rattle.std.specs.Prelude.{◌≡◌};
ghost use Rattle.expr_limits.specs.Outcomes.{ReturnsOutcome};
ghost use Rattle.expr_lowering.specs.Blocks.{CodeKeeps, blocks_of};
ghost use Rattle.expr_lowering.specs.Kept.{ProgramKeeps};
ghost use Rattle.expr_acts.specs.Texts.{text_of};
ghost use Rattle.expr_meaning.specs.Allows.{AllowsBlock};
ghost use Rattle.expr_meaning.specs.Refusals.{NeverRefusesWith};
ghost use Rattle.expr_meaning.specs.World.{world_of};
ghost use Rattle.expr_stops.specs.Stops.{AllowedWhereAgreed, CodeComes, ComesTo, UsesWithin, host_replying, is_named, nothing_used};
ghost use Rattle.expr_tree.specs.TermOf.{program_term};
ghost use Rattle.expr_error.specs.ErrorKind.{RefusesNoPattern, pattern as bad_pattern};

use crate::limited::{EndedRun, execute_in};
use crate::names::StopNames;
use crate::replay::{Replay, Stop};
use crate::replies::CallReply;
use crate::used::Used;
use expr_acts::World;
use expr_context::ContextProvider;
use expr_limits::{Limits, Outcome};
use expr_lowering::{Code, Pointer};
use expr_machine::run_with;
use expr_meaning::Functions;
use expr_pattern::Pattern;
use expr_tree::node::Program;
use expr_value::{Result, Value};
use std::alloc::Global;

/// The end of one run: its result, or the limit that it would have passed, the call at which it stopped, and
/// what it used of its limits.
#[derive(Drop)]
pub struct RunOutcome {
    pub went: Result<Outcome<Value>>,
    pub stop: Option<Stop>,
    pub used: Used,
}

/// Runs a program with these replies.
pub fn play<'a, H: Functions>(
    alloc: Global,
    host: &'a H,
    names: &'a StopNames,
    given: &'a [CallReply],
    program: &Program,
    ctx: &dyn ContextProvider,
) -> RunOutcome
    ensures answer { ReturnsOutcome result.went (ComesTo (AllowsBlock
        (world_of (host_replying (H.host host.now) (is_named names.now) given.now) (context ctx.now))
        (program_term program.now))) }
    ensures independent { ReturnsOutcome result.went (ComesTo (AllowedWhereAgreed
        (world_of (host_replying (H.host host.now) (is_named names.now) given.now) (context ctx.now))
        (program_term program.now))) }
    ensures pattern { NeverRefusesWith (H.host host.now) bad_pattern → ProgramKeeps program.now
        → RefusesNoPattern result.went }
    ensures used { result.used ≡ nothing_used }
{
    let replay = Replay::new(host, names, given);
    let went = run_in(alloc, &replay, program, ctx);
    let stop = replay.take_stop();
    RunOutcome {
        went,
        stop,
        used: Used::nothing(),
    }
}

/// Executes code with these replies, within limits or without.
pub fn play_code<
    'a,
    H: Functions,
    P: ContextProvider + Drop,
    L: Pointer<Value>,
    N: Pointer<String>,
    K: Pointer<Pattern>,
>(
    alloc: Global,
    host: &'a H,
    names: &'a StopNames,
    given: &'a [CallReply],
    code: &Code<L, N, K>,
    provider: P,
    limits: Option<Limits>,
) -> RunOutcome
    ensures ends { ReturnsOutcome result.went (CodeComes limits
        (world_of (host_replying (H.host host.now) (is_named names.now) given.now) (P.context provider))
        (blocks_of L.held (text_of N.held) code.now)) }
    ensures pattern { NeverRefusesWith (H.host host.now) bad_pattern → CodeKeeps L.held K.held code.now
        → RefusesNoPattern result.went }
    ensures used { UsesWithin limits result.used }
{
    let replay = Replay::new(host, names, given);
    let EndedRun { went, used } = execute_in(alloc, &replay, code, provider, limits);
    let stop = replay.take_stop();
    RunOutcome { went, stop, used }
}

/// Runs a program in a host and a context.
fn run_in<H: Functions>(
    alloc: Global,
    host: &H,
    program: &Program,
    ctx: &dyn ContextProvider,
) -> Result<Outcome<Value>>
    ensures answer { ReturnsOutcome result
        (ComesTo (AllowsBlock (world_of (H.host host.now) (context ctx.now))
        (program_term program.now))) }
    ensures independent { ReturnsOutcome result
        (ComesTo (AllowedWhereAgreed (world_of (H.host host.now) (context ctx.now))
        (program_term program.now))) }
    ensures pattern { NeverRefusesWith (H.host host.now) bad_pattern → ProgramKeeps program.now
        → RefusesNoPattern result }
{
    let world = World {
        alloc,
        host,
        provider: ctx,
    };
    Ok(Outcome::Answered(run_with(&world, program)?))
}
