//! Names that come before those of the records.
ghost use Rattle.expr_limits.specs.Outcomes.{ReturnsOutcome};
ghost use Rattle.expr_records.specs.RecordRuns.{Binds, NameEnds};

use crate::query::{code_of_text, execute_by};
use expr_context::Context;
use expr_limits::{Limits, Outcome};
use expr_machine::ReusableMachine;
use expr_meaning::Functions;
use expr_value::{Result, Value};
use std::alloc::Global;

/// Evaluates code without any names, within limits or without.
fn value_of<H: Functions>(
    alloc: Global,
    host: &H,
    code: &str,
    limits: Option<Limits>,
) -> Result<Outcome<Value>>
    ensures { ReturnsOutcome result (NameEnds limits (H.host host.now) code.now) }
{
    match code_of_text(alloc, code, limits)? {
        Outcome::Answered(code) => {
            let mut machine = ReusableMachine::new(alloc, &code);
            execute_by(&mut machine, host, Context::new(alloc), limits)
        }
        Outcome::Stopped(limit) => Ok(Outcome::Stopped(limit)),
    }
}

/// Evaluates code without any names, within limits or without, and puts the value under a name. If there is
/// none, the names stay as they were.
///
/// # Errors
///
/// Returns the errors of compiling and evaluating the code, and `MemoryError` if an allocation fails. Passing
/// a limit is not an error: it returns [`Outcome::Stopped`].
pub fn bind<H: Functions>(
    alloc: Global,
    host: &H,
    name: &str,
    code: &str,
    limits: Option<Limits>,
    names: &mut Context,
) -> Result<Outcome<()>>
    ensures { Binds (NameEnds limits (H.host host.now) code.now) name.now names.old names.new result }
{
    match value_of(alloc, host, code, limits)? {
        Outcome::Answered(value) => {
            names.insert(String::from_str(alloc, name)?, value)?;
            Ok(Outcome::Answered(()))
        }
        Outcome::Stopped(limit) => Ok(Outcome::Stopped(limit)),
    }
}
