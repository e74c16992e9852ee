//! From an expression to its value.
ghost use Rattle.expr_eval.specs.Promises.{AnswersText};
ghost use Rattle.expr_eval.specs.Texts.{IsOwnFault};
ghost use Rattle.expr_acts.specs.Here.{here};
ghost use Rattle.expr_meaning.specs.Host.{no_host};
ghost use Rattle.expr_meaning.specs.World.{world_of};

use expr_acts::World;
use expr_context::ContextProvider;
use expr_machine::run_with;
use expr_meaning::{Functions, NoFunctions};
use expr_syntax::compile;
use expr_value::{Result, Value};
use std::alloc::Global;

/// Evaluates an expression in a context, with no additions of a host, and returns its value.
///
/// # Errors
///
/// Returns the errors of [`compile`] and of [`run`](expr_machine::run).
pub fn eval(alloc: Global, code: &str, ctx: &dyn ContextProvider) -> Result<Value>
    ensures text { AnswersText (world_of no_host (context ctx.now)) code.now result }
    // No function of the host returns a syntax error.
    ensures own { IsOwnFault code.now no_host }
{
    let world = World {
        alloc,
        host: &NoFunctions,
        provider: ctx,
    };
    evaluate_text(&world, code)
}

/// Compiles an expression and runs it on a machine. Each `eval` calls this.
///
/// # Errors
///
/// Returns the errors of [`compile`] and those of the program's run.
pub fn evaluate_text<H: Functions, P: ContextProvider>(
    world: &World<'_, H, P>,
    code: &str,
) -> Result<Value>
    ensures { AnswersText (here H.host P.context world.now) code.now result }
{
    let program = compile(world.alloc, code)?;
    run_with(world, &program)
}
