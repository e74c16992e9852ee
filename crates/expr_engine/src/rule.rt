//! A program and its code.
ghost use Rattle.std.specs.Prelude.{IsTrue};
ghost use Rattle.expr_code.specs.Codes.{IsCode};
ghost use Rattle.expr_lowering.specs.OwnedCodes.{owned_blocks};
ghost use Rattle.expr_engine.specs.Limiting.{IsCompiledBy};
ghost use Rattle.expr_syntax.specs.Texts.{IsPlaced};
ghost use Rattle.expr_text.specs.Texts.{block_has_text};
ghost use Rattle.expr_tree.specs.TermOf.{program_term};
ghost use Rattle.expr_meaning.specs.World.{world_of};

use crate::additions::LentHost;
use crate::lent::LentNames;
use expr_context::Context;
use expr_limits::{Limits, Outcome};
use expr_lowering::{Code, OwnedCode, functions_of, missing_names};
use expr_meaning::Functions;
use expr_stops::{EndedRun, RunStatus, Stops, execute_in};
use expr_syntax::{compile, compile_limited};
use expr_text::to_code;
use expr_tree::node::Program;
use expr_value::Result;
use std::alloc::Global;

/// A program and its code.
#[derive(Drop)]
pub struct Rule {
    pub program: Program,
    pub code: OwnedCode,
    pub ghost lowered: { ∥ IsCode (program_term program) (owned_blocks code) ∥₁ },
    pub ghost worded: { IsTrue (block_has_text (program_term program)) },
}

impl Rule {
    ghost use Rattle.std.specs.Prelude.{◌≡◌, IfOk, None, map, string_bytes};
    ghost use Rattle.std.specs.List.{Contains};
    ghost use Rattle.expr_lowering.specs.HostNeeds.{AreFunctionsOf, AreMissing};
    ghost use Rattle.expr_tree.specs.Names.{AreNamesOf, block_operands, env};
    ghost use Rattle.std.specs.Option.{option_copied};
    ghost use Rattle.expr_machine.specs.Given.{MayGive as GivesWithin};
    ghost use Rattle.expr_engine.specs.Limiting.{IsCompiledBy};
    ghost use Rattle.expr_engine.specs.Effects.{AreSaid, IsTextOf, TellsWhether};
    ghost use Rattle.expr_error.specs.ErrorKind.{OnlyMemory};
    ghost use Rattle.expr_context.specs.Contexts.{context_of};
    ghost use Rattle.expr_engine.specs.Runs.{MeaningAllows, host_with_replies, named_by, names_or_none};
    ghost use Rattle.expr_limits.specs.Outcomes.{ReturnsOutcome};
    ghost use Rattle.expr_stops.specs.Stops.{CodeComes, EndsTurn, IfEnded, StopsWell, UsesWithin, waiting_call_of, replies_of, used_of};
    ghost use Rattle.expr_syntax.specs.Texts.{IsPlaced};
    ghost use Rattle.expr_tree.specs.TermOf.{program_term};
    ghost use Rattle.expr_value.specs.Answers.{Returns};

    /// Compiles an expression, within limits or without.
    ///
    /// # Errors
    ///
    /// Returns the errors of `compile`. Passing a limit is not an error: it returns [`Outcome::Stopped`].
    pub fn compile(alloc: Global, text: &str, limits: Option<Limits>) -> Result<Outcome<Rule>>
        ensures answer { IsCompiledBy limits text.now (λ rule. program_term rule.program) result }
        ensures place { IsPlaced text.now result }
    {
        match program_of(alloc, text, limits)? {
            Outcome::Answered(program) => {
                let code = Code::lower(alloc, &program)?.keep(alloc)?;
                Ok(Outcome::Answered(Rule { program, code }))
            }
            Outcome::Stopped(limit) => Ok(Outcome::Stopped(limit)),
        }
    }

    /// The names that the program uses, each on a line, and their count.
    ///
    /// # Errors
    ///
    /// Returns `MemoryError` if an allocation fails.
    pub fn names(&self, alloc: Global) -> Result<(String, usize)>
        ensures ok { IfOk result (λ p. AreSaid (λ names. AreNamesOf names (program_term self.now.program))
            (string_bytes p.0) p.1) }
        ensures err { OnlyMemory result }
    {
        let names = self.program.names(alloc)?;
        Ok((names.join(alloc, "\n")?, names.len()))
    }

    /// The functions that the program's code calls, each on a line, and their count.
    ///
    /// # Errors
    ///
    /// Returns `MemoryError` if an allocation fails.
    pub fn functions(&self, alloc: Global) -> Result<(String, usize)>
        ensures ok { IfOk result (λ p. AreSaid (λ names. AreFunctionsOf names (owned_blocks self.now.code))
            (string_bytes p.0) p.1) }
        ensures err { OnlyMemory result }
    {
        let functions = functions_of(alloc, &self.code)?;
        Ok((functions.join(alloc, "\n")?, functions.len()))
    }

    /// The program's text, in the normal form.
    ///
    /// # Errors
    ///
    /// Returns `MemoryError` if an allocation fails.
    pub fn text(&self, alloc: Global) -> Result<String>
        ensures ok { IfOk result (λ text. IsTextOf (string_bytes text) (program_term self.now.program)) }
        ensures err { OnlyMemory result }
    {
        to_code(alloc, &self.program)
    }

    /// Whether the program uses `$env` as an operand: 1 or 0.
    ///
    /// # Errors
    ///
    /// Returns `MemoryError` if an allocation fails.
    pub fn uses_env(&self, alloc: Global) -> Result<i64>
        ensures ok { IfOk result (λ n. TellsWhether (Contains
            (block_operands (program_term self.now.program)) env) n) }
        ensures err { OnlyMemory result }
    {
        Ok(i64::from(self.program.uses_env(alloc)?))
    }

    /// The names that the program's code looks up only outside of predicates, and that a context doesn't
    /// have.
    ///
    /// # Errors
    ///
    /// Returns `MemoryError` if an allocation fails.
    pub fn missing_names(&self, alloc: Global, context: &Context) -> Result<Vec<String>>
        ensures ok { IfOk result (λ ns. AreMissing (owned_blocks self.now.code) context.now
            (map string_bytes ns.items)) }
        ensures err { OnlyMemory result }
    {
        missing_names(alloc, &self.code, context)
    }

    /// Runs the program, within limits or without.
    ///
    /// It ends with the first error in the order of evaluation: `ExprError`, `RegexError`, or `MemoryError` if an
    /// allocation fails. Passing a limit is not an error: it ends with [`Outcome::Stopped`].
    #[inline(always)]
    pub fn run<H: Functions>(
        &self,
        alloc: Global,
        host: &H,
        names: LentNames<'_>,
        limits: Option<Limits>,
    ) -> EndedRun
        ensures answer { GivesWithin result.went (MeaningAllows (world_of (H.host host.now)
            (context_of (names_or_none (option_copied names.entry.names)))) (program_term self.now.program)) }
        ensures ends { ReturnsOutcome result.went (CodeComes limits (world_of (H.host host.now)
            (context_of (names_or_none (option_copied names.entry.names)))) (owned_blocks self.now.code)) }
        ensures used { UsesWithin limits result.used }
    {
        execute_in(alloc, host, &self.code, names, limits)
    }

    /// Runs the program within limits, with the replies that its run has. It ends at the program's end, or at
    /// the next call of a function that the host runs itself.
    #[inline(always)]
    pub fn turn(
        &self,
        alloc: Global,
        host: LentHost<'_>,
        names: LentNames<'_>,
        stops: &mut Stops,
        limits: Option<Limits>,
    ) -> RunStatus
        // It ends, or stops at a limit, as a counted run of the program's code does within the limits, if
        // there are any.
        ensures ends { EndsTurn result (CodeComes limits
            (world_of (host_with_replies (option_copied host.entry.added) (replies_of stops.old))
            (context_of (names_or_none (option_copied names.entry.names)))) (owned_blocks self.now.code)) }
        // The result is one that the program's meaning allows.
        ensures ended { IfEnded result (λ r. Returns r (MeaningAllows
            (world_of (host_with_replies (option_copied host.entry.added) (replies_of stops.old))
            (context_of (names_or_none (option_copied names.entry.names))))
            (program_term self.now.program))) }
        ensures stops { waiting_call_of stops.old ≡ None
            → StopsWell (named_by (option_copied host.entry.added))
            (replies_of stops.old) result (waiting_call_of stops.new) }
        ensures given { replies_of stops.new ≡ replies_of stops.old }
        // It notes what it used, which is within the limits.
        ensures used { UsesWithin limits (used_of stops.new) }
    {
        match host.added {
            Some(added) => stops.execute(&host, added.names(), &self.code, names, limits),
            None => {
                let EndedRun { went, used } = self.run(alloc, &host, names, limits);
                stops.note_used(used);
                RunStatus::of(went)
            }
        }
    }
}

/// Compiles an expression, within limits or without.
fn program_of(alloc: Global, text: &str, limits: Option<Limits>) -> Result<Outcome<Program>>
    ensures answer { IsCompiledBy limits text.now program_term result }
    ensures place { IsPlaced text.now result }
{
    match limits {
        Some(limits) => compile_limited(alloc, text, &limits),
        None => Ok(Outcome::Answered(compile(alloc, text)?)),
    }
}
