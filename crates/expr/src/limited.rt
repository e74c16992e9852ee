//! Expressions and code within limits, for hosts that evaluate untrusted expressions.
ghost use Rattle.std.specs.Prelude.{string_bytes};
ghost use Rattle.expr.specs.Hosted.{host_of};
ghost use Rattle.expr.specs.Limited.{AnswersTextLimited, RunsCodeLimited};
ghost use Rattle.expr_eval.specs.Texts.{IsOwnFault};
ghost use Rattle.expr_error.specs.ErrorKind.{pattern as bad_pattern};
ghost use Rattle.expr_lowering.specs.Blocks.{CodeKeeps, blocks_of};
ghost use Rattle.expr_machine.specs.Promises.{CountsUse};
ghost use Rattle.expr_meaning.specs.Host.{no_host};
ghost use Rattle.expr_meaning.specs.Refusals.{NeverRefusesWith};
ghost use Rattle.expr_meaning.specs.World.{world_of};
ghost use Rattle.expr_acts.specs.Here.{here};

use crate::environment::Environment;
use expr_acts::World;
use expr_context::ContextProvider;
use expr_limits::{Limits, Outcome};
use expr_lowering::{Code, Pointer};
use expr_machine::{LimitedRun, execute_limited_with, run_limited_with};
use expr_meaning::{Functions, NoFunctions};
use expr_syntax::compile_limited;
use expr_tree::node::Pattern;
use expr_value::{Result, Value};
use std::alloc::Global;

/// Executes code in a context within limits, with no additions of a host. A run takes at most `steps` steps,
/// its values are at most `depth` deep, and what it holds at one time weighs at most `size`.
///
/// # Errors
///
/// Returns the errors of [`execute`](expr_machine::execute). Passing a limit is not an error: it returns
/// [`Outcome::Stopped`].
pub fn execute_limited<L: Pointer<Value>, N: Pointer<String>, P: Pointer<Pattern>>(
    alloc: Global,
    code: &Code<L, N, P>,
    ctx: &dyn ContextProvider,
    limits: &Limits,
) -> Result<Outcome<Value>>
    ensures code { RunsCodeLimited (world_of no_host (context ctx.now))
        (blocks_of L.held (λ n. string_bytes (N.held n)) code.now) (CodeKeeps L.held P.held code.now)
        limits.now result }
    ensures never { NeverRefusesWith no_host bad_pattern }
{
    let world = World {
        alloc,
        host: &NoFunctions,
        provider: ctx,
    };
    execute_limited_with(&world, code, limits)
}

/// Executes code in a context within limits, as [`execute_limited`] does, and says what the run used of them: its
/// steps, and the most size that it held at one time. A run that fails or stops has used them until then.
pub fn execute_used<L: Pointer<Value>, N: Pointer<String>, P: Pointer<Pattern>>(
    alloc: Global,
    code: &Code<L, N, P>,
    ctx: &dyn ContextProvider,
    limits: &Limits,
) -> LimitedRun
    ensures code { RunsCodeLimited (world_of no_host (context ctx.now))
        (blocks_of L.held (λ n. string_bytes (N.held n)) code.now) (CodeKeeps L.held P.held code.now)
        limits.now result.outcome }
    ensures never { NeverRefusesWith no_host bad_pattern }
    ensures used { CountsUse (world_of no_host (context ctx.now))
        (blocks_of L.held (λ n. string_bytes (N.held n)) code.now) limits.now result.outcome result.steps
        result.size }
{
    let world = World {
        alloc,
        host: &NoFunctions,
        provider: ctx,
    };
    run_limited_with(&world, code, limits)
}

/// Evaluates an expression in a context within limits, with no additions of a host: [`compile_limited`], then
/// [`execute_limited`].
///
/// # Errors
///
/// Returns the errors of [`eval`](crate::eval). Passing a limit is not an error: it returns
/// [`Outcome::Stopped`].
pub fn eval_limited(
    alloc: Global,
    code: &str,
    ctx: &dyn ContextProvider,
    limits: &Limits,
) -> Result<Outcome<Value>>
    ensures text { AnswersTextLimited (world_of no_host (context ctx.now)) code.now limits.now result }
    // No function of the host returns a syntax error.
    ensures own { IsOwnFault code.now no_host }
{
    let world = World {
        alloc,
        host: &NoFunctions,
        provider: ctx,
    };
    answer_text(&world, code, limits)
}

impl Environment {
    /// Executes code in a context within limits, as the free function [`execute_limited`] does, with the
    /// additions of this environment.
    ///
    /// # Errors
    ///
    /// Returns the errors of [`Environment::execute`]. Passing a limit is not an error: it returns
    /// [`Outcome::Stopped`].
    pub fn execute_limited<L: Pointer<Value>, N: Pointer<String>, P: Pointer<Pattern>>(
        &self,
        alloc: Global,
        code: &Code<L, N, P>,
        ctx: &dyn ContextProvider,
        limits: &Limits,
    ) -> Result<Outcome<Value>>
        ensures { RunsCodeLimited (world_of (host_of self.now) (context ctx.now))
            (blocks_of L.held (λ n. string_bytes (N.held n)) code.now) (CodeKeeps L.held P.held code.now)
            limits.now result }
    {
        let world = World {
            alloc,
            host: self,
            provider: ctx,
        };
        execute_limited_with(&world, code, limits)
    }

    /// Executes code in a context within limits, and says what the run used of them, as the free function
    /// [`execute_used`] does, with the additions of this environment.
    pub fn execute_used<L: Pointer<Value>, N: Pointer<String>, P: Pointer<Pattern>>(
        &self,
        alloc: Global,
        code: &Code<L, N, P>,
        ctx: &dyn ContextProvider,
        limits: &Limits,
    ) -> LimitedRun
        ensures code { RunsCodeLimited (world_of (host_of self.now) (context ctx.now))
            (blocks_of L.held (λ n. string_bytes (N.held n)) code.now) (CodeKeeps L.held P.held code.now)
            limits.now result.outcome }
        ensures used { CountsUse (world_of (host_of self.now) (context ctx.now))
            (blocks_of L.held (λ n. string_bytes (N.held n)) code.now) limits.now result.outcome
            result.steps result.size }
    {
        let world = World {
            alloc,
            host: self,
            provider: ctx,
        };
        run_limited_with(&world, code, limits)
    }

    /// Evaluates an expression in a context within limits, as the free function [`eval_limited`] does, with
    /// the additions of this environment.
    ///
    /// # Errors
    ///
    /// Returns the errors of [`Environment::eval`]. Passing a limit is not an error: it returns
    /// [`Outcome::Stopped`].
    pub fn eval_limited(
        &self,
        alloc: Global,
        code: &str,
        ctx: &dyn ContextProvider,
        limits: &Limits,
    ) -> Result<Outcome<Value>>
        ensures { AnswersTextLimited (world_of (host_of self.now) (context ctx.now)) code.now limits.now
            result }
    {
        let world = World {
            alloc,
            host: self,
            provider: ctx,
        };
        answer_text(&world, code, limits)
    }
}

/// Compiles an expression and runs its code within limits.
///
/// # Errors
///
/// Returns the errors of [`compile_limited`] and those of the run.
fn answer_text<H: Functions, P: ContextProvider>(
    world: &World<'_, H, P>,
    code: &str,
    limits: &Limits,
) -> Result<Outcome<Value>>
    ensures { AnswersTextLimited (here H.host P.context world.now) code.now limits.now result }
{
    let compiled = compile_limited(world.alloc, code, limits)?;
    match compiled {
        Outcome::Answered(program) => {
            let code = Code::lower_once(world.alloc, &program)?;
            execute_limited_with(&*world, &code, limits)
        }
        Outcome::Stopped(limit) => Ok(Outcome::Stopped(limit)),
    }
}
