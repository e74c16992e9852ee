//! An expression that is ready to run on records.
ghost use Rattle.std.specs.Prelude.{◌≡◌, ◌≢◌, ◌↔◌, ℕ, List, IsTrue};
ghost use Rattle.expr_limits.specs.Outcomes.{ReturnsOutcome};
ghost use Rattle.expr_meaning.specs.World.{world_of};
ghost use Rattle.expr_records.specs.RecordCode.{IsCodeOf, IsMadeOf, IsProgramIn};
ghost use Rattle.expr_records.specs.RecordRuns.{RecordEnds, RunEnds};
ghost use Rattle.expr_syntax.specs.Texts.{IsPlaced};
ghost use Rattle.expr_tree.specs.TermOf.{program_term};

use crate::record::Record;
use expr_context::{Context, ContextProvider};
use expr_encoding::Members;
use expr_limits::{Limits, Outcome};
use expr_lowering::{Code, OwnedCode};
use expr_machine::ReusableMachine;
use expr_meaning::Functions;
use expr_syntax::{compile, compile_limited};
use expr_tree::node::{Pattern, Program};
use expr_value::{Result, Value};
use std::alloc::Global;

/// What to do with the records.
#[derive(Clone, Copy, Debug, PartialEq, Eq)]
pub enum Purpose {
    /// Keep those for which the expression returns this boolean.
    Keep(bool),
    /// Count those for which the expression returns this boolean.
    Count(bool),
    /// Replace each by the value of the expression.
    Rewrite,
}

impl Purpose {
    /// Whether the query selects some of the records.
    pub fn seeks(self) -> bool
        ensures { IsTrue result ↔ (self ≢ Purpose.Rewrite) }
    {
        match self {
            Purpose::Keep(_) | Purpose::Count(_) => true,
            Purpose::Rewrite => false,
        }
    }
}

/// Compiles an expression to code that owns its parts, within limits or without.
///
/// # Errors
///
/// Returns the errors of [`compile`]. Passing a limit is not an error: it returns [`Outcome::Stopped`].
pub fn code_of_text(alloc: Global, text: &str, limits: Option<Limits>) -> Result<Outcome<OwnedCode>>
    ensures code { IsMadeOf limits text.now (IsCodeOf limits text.now) result }
    ensures place { IsPlaced text.now result }
{
    match program_within(alloc, text, limits)? {
        Outcome::Answered(program) => {
            let code = Code::lower(alloc, &program)?.keep(alloc)?;
            Ok(Outcome::Answered(code))
        }
        Outcome::Stopped(limit) => Ok(Outcome::Stopped(limit)),
    }
}

/// Compiles an expression, within limits or without.
fn program_within(alloc: Global, text: &str, limits: Option<Limits>) -> Result<Outcome<Program>>
    ensures program { IsMadeOf limits text.now (λ p. IsProgramIn limits text.now (program_term p)) result }
    ensures place { IsPlaced text.now result }
{
    match limits {
        Some(limits) => compile_limited(alloc, text, &limits),
        None => Ok(Outcome::Answered(compile(alloc, text)?)),
    }
}

/// A machine for code that owns its parts.
pub type RecordMachine<'c> = ReusableMachine<'c, Box<Value>, Box<String>, Box<Pattern>>;

/// Executes an expression's code in a host with the names of a provider, within limits or without. Each run
/// begins with all that the limits allow.
///
/// # Errors
///
/// Returns the first error in the order of evaluation: `ExprError`, or `MemoryError` if an allocation fails.
/// Passing a limit is not an error: it returns [`Outcome::Stopped`].
#[inline(always)]
pub(crate) fn execute_by<H: Functions, P: ContextProvider + Drop>(
    machine: &mut RecordMachine<'_>,
    host: &H,
    provider: P,
    limits: Option<Limits>,
) -> Result<Outcome<Value>>
    ensures ends { (text : List ℕ) → IsCodeOf limits text machine.old.code.now
        → ReturnsOutcome result (RunEnds limits text machine.old.code.now
        (world_of (H.host host.now) (P.context provider))) }
    ensures same { machine.new ≡ machine.old }
{
    match limits {
        Some(limits) => machine.execute_limited_among(host, provider, &limits),
        None => Ok(Outcome::Answered(machine.execute_among(host, provider)?)),
    }
}

/// The code of an expression, with one machine for all records, the host and the names.
#[derive(Drop)]
pub struct Query<'h, H> {
    /// The host's additions to the language.
    pub host: &'h H,
    /// The names that come before those of each record.
    pub names: &'h Context,
    pub machine: RecordMachine<'h>,
    pub purpose: Purpose,
    /// The limits of the run for each record. Without limits it may take all there is.
    pub limits: Option<Limits>,
}

impl<'h, H: Functions> Query<'h, H> {
    /// Creates the query of an expression's code.
    pub fn new(
        alloc: Global,
        host: &'h H,
        names: &'h Context,
        purpose: Purpose,
        limits: Option<Limits>,
        code: &'h OwnedCode,
    ) -> Query<'h, H>
        ensures code { result.machine.code.now ≡ code.now }
        ensures names { result.names.now ≡ names.now }
        ensures purpose { result.purpose ≡ purpose }
        ensures limits { result.limits ≡ limits }
        ensures host { result.host.now ≡ host.now }
    {
        Query {
            host,
            names,
            machine: ReusableMachine::new(alloc, code),
            purpose,
            limits,
        }
    }

    /// Evaluates the expression on a record and returns its value, or the limit at which the run stops. The
    /// run for each record begins with all that the limits allow.
    ///
    /// # Errors
    ///
    /// Returns the first error in the order of evaluation: `ExprError`, or `MemoryError` if an allocation
    /// fails.
    pub fn answer(&mut self, members: Members<'_>) -> Result<Outcome<Value>>
        ensures ends { (text : List ℕ) → IsCodeOf self.old.limits text self.old.machine.code.now
            → ReturnsOutcome result (RecordEnds self.old.limits
            (H.host self.old.host.now) self.old.names.now text
            self.old.machine.code.now members.entry) }
        ensures same { self.new ≡ self.old }
    {
        let provider = Record {
            members,
            names: self.names,
        };
        let host = self.host;
        execute_by(&mut self.machine, host, provider, self.limits)
    }
}
