//! Compiling within the limits of a program.
ghost use Rattle.std.specs.Prelude.{◌≡◌, ℕ, Err, IfOk};
ghost use Rattle.std.specs.Str.{IsCharBoundary};
ghost use Rattle.expr_syntax.specs.CompiledLimited.{IsCompiledLimited};
ghost use Rattle.expr_limits.specs.Outcomes.{OnAnswer};
ghost use Rattle.expr_parts.specs.Kept.{KeepPatterns};
ghost use Rattle.expr_syntax.specs.Texts.{IsPlaced};
ghost use Rattle.expr_tree.specs.KeptPatterns.{program_operations};
ghost use Rattle.expr_error.specs.declared.error.Error.{Error as declared};

use crate::bounded::{BoundedProgram, compile_bounded};
use expr_limits::{Limit, Limits, Outcome};
use expr_tree::node::Program;
use expr_value::Result;
use std::alloc::Global;

/// Compiles an expression within limits. Its syntax tree may be as high as `height`, as
/// [`compile_within`](crate::compile_within) measures it. Its literal patterns together may weigh as much as
/// `patterns`, which is checked before any is compiled. The other limits are for runs.
///
/// # Errors
///
/// Returns the errors of [`compile`](crate::compile). An exceeded limit is no error, but [`Outcome::Stopped`].
pub fn compile_limited(alloc: Global, code: &str, limits: &Limits) -> Result<Outcome<Program>>
    // A program is the program of a tree within the limits. `Stopped` means that the expression exceeds that limit. A
    // syntax error means that there is no tree.
    ensures answer { IsCompiledLimited code.now limits.now result }
    // A syntax error is at the first fault, between two characters.
    ensures place { IsPlaced code.now result }
    ensures boundary { (place : ℕ) → result ≡ Err (declared.PestError place) → IsCharBoundary code.now place }
    // Each literal to the right of `matches` keeps its compiled pattern, if it is a pattern and not too big.
    ensures patterns { IfOk result (λ o. OnAnswer o (λ program. KeepPatterns (program_operations program))) }
{
    let compiled = compile_bounded(alloc, code, limits.nesting, limits.patterns)?;
    match compiled {
        BoundedProgram::Program(program) => Ok(Outcome::Answered(program)),
        BoundedProgram::TooHigh => Ok(Outcome::Stopped(Limit::Nesting)),
        BoundedProgram::TooHeavy => Ok(Outcome::Stopped(Limit::Patterns)),
    }
}
