//! An engine: programs, contexts and environments under handles, the values being built, the last result, the
//! last message, and the run that waits for a host's reply.
ghost use Rattle.std.specs.Prelude.{◌≡◌, ◌≢◌, [], string_bytes, IfOk, IfErr, OnOk, OnErr, IfSome, IsSome, IsOk, IsNone, MatchOption, Err, None, Some, ◌⊎◌};
ghost use Rattle.std.specs.List.{Contains};
ghost use Rattle.std.specs.Option.{option_copied};
ghost use Rattle.expr_engine.specs.Adding.{BecomesByRule, BecomesFixed, BecomesNow, GainsName, GainsVersions, IsName};
ghost use Rattle.expr_engine.specs.Effects.{Adds, AreSaid, Changes, FillsContext, ForgetsAll, IsStale, IsTextOf, TellsWhether};
ghost use Rattle.expr_engine.specs.Engines.{IsPlacedRefusal, KeepsThings, KeepsRest, RunMayAnswer, MayEnd, NumbersRise, RefusesText, SameAdditions, additions_at, run_inputs, waiting_inputs, names_at, no_number};
ghost use Rattle.expr_engine.specs.Faults.{IsNotedAt, fault_byte, refused_byte};
ghost use Rattle.expr_engine.specs.Limiting.{IsProgramBy};
ghost use Rattle.expr_engine.specs.Promised.{IsNew};
ghost use Rattle.expr_engine.specs.Reasons.{IsUnknownOrForMemory, RefusesName, RefusesZone};
ghost use Rattle.expr_engine.specs.Runs.{names_or_none};
ghost use Rattle.expr_engine.specs.Served.{RunServes, SaysWhy};
ghost use Rattle.expr_engine.specs.Turns.{IsNewRun, IsRefusal, IsSameRun, PassesOn, RunGoesOn, WaitsIfAsks, finds_nothing, is_unknown};
ghost use Rattle.expr_exchange.specs.Cursor.{part_of, way_of};
ghost use Rattle.expr_exchange.specs.Misuses.{text_of_misuse};
ghost use Rattle.expr_exchange.specs.Refusals.{ReturnsToHost};
ghost use Rattle.expr_exchange.specs.HandleMap.{SameNext, SameThings, thing_at};
ghost use Rattle.expr_limits.specs.Counting.{stops as stops_at};
ghost use Rattle.expr_stops.specs.Stops.{UsesWithin, waiting_call_of, nothing_used, replies_of, used_of};
ghost use Rattle.expr_stops.specs.declared.replies.Reply.TheVariants as reply;
ghost use Rattle.expr_lowering.specs.OwnedCodes.{owned_blocks};
ghost use Rattle.expr_exchange.specs.declared.misuse.Misuse.{Misuse as Wrong};
ghost use Rattle.expr_lowering.specs.HostNeeds.{AreFunctionsOf};
ghost use Rattle.expr_tree.specs.Names.{AreNamesOf, block_operands, env};
ghost use Rattle.expr_tree.specs.TermOf.{program_term};
ghost use Rattle.expr_value.specs.Names.{put};

use crate::additions::{Additions, LentHost};
use crate::lent::LentNames;
use crate::rule::Rule;
use crate::waiting_run::WaitingRun;
use expr_context::Context;
use expr_encoding::JsonReader;
use expr_exchange::{Handle, HandleMap, HostError, Misuse, ValueBuilder, ValueCursor, limit_text};
use expr_limits::{Limits, Outcome};
use expr_lowering::with_nil;
use expr_stops::{EndedRun, RunStatus, Stops, Used};
use expr_syntax::line_column_of;
use expr_value::{Error, Value};
use jiff::Timestamp;
use std::alloc::Global;

/// An engine. It keeps programs, contexts and environments, and runs the programs.
#[derive(Drop)]
pub struct Engine {
    pub alloc: Global,
    pub rules: HandleMap<Rule>,
    pub contexts: HandleMap<Context>,
    pub environments: HandleMap<Additions>,
    pub built: ValueBuilder,
    pub answer: ValueCursor,
    pub said: String,
    pub waits: WaitingRun,
    /// Reads the JSON that calls pass in. Its memory is used again for the next text.
    pub reader: JsonReader,
    /// The limits of compiling and running. Without limits these may take all there is.
    pub limits: Option<Limits>,
}

/// A number that no handle has. It means no context, or no environment.
pub const NO_NUMBER: u64 = u64::MAX;

/// A position in an expression: its byte from 0, and its line and column from 1.
#[derive(Clone, Copy)]
pub struct TextPlace {
    pub byte: usize,
    pub line: usize,
    pub column: usize,
}

impl Engine {
    /// Creates an empty engine with the limits for untrusted expressions. Its handles have this tag, which
    /// tells engines apart. It allocates no memory.
    pub fn new(alloc: Global, tag: u32) -> Engine
        ensures { IsNew tag result }
    {
        Engine {
            alloc,
            rules: HandleMap::new(alloc, tag),
            contexts: HandleMap::new(alloc, tag),
            environments: HandleMap::new(alloc, tag),
            built: ValueBuilder::new(alloc),
            answer: ValueCursor::new(alloc),
            said: String::new(alloc),
            waits: WaitingRun::new(alloc),
            reader: JsonReader::new(alloc),
            limits: Some(Limits::untrusted()),
        }
    }

    /// Compiles an expression within the limits, and keeps the program.
    ///
    /// # Errors
    ///
    /// Returns the errors of `compile`, `Stopped` if a limit is passed, and `MemoryError` if an allocation
    /// fails.
    pub fn compile(&mut self, text: &str) -> Result<Handle, HostError>
        ensures kept { IfOk result (Adds (λ rule. IsProgramBy self.old.limits text.now
            (program_term rule.program)) self.old.rules self.new.rules) }
        ensures refused { IfErr result (RefusesText self.old.limits text.now) }
        ensures place { IfErr result (IsPlacedRefusal text.now) }
        ensures err { OnErr result (SameThings self.old.rules self.new.rules) }
        ensures next { OnErr result (SameNext self.old.rules self.new.rules) }
        ensures contexts { self.new.contexts ≡ self.old.contexts }
        ensures environments { self.new.environments ≡ self.old.environments }
        ensures built { self.new.built ≡ self.old.built }
        ensures rest { KeepsRest self.old self.new }
    {
        match Rule::compile(self.alloc, text, self.limits)? {
            Outcome::Answered(rule) => Ok(self.rules.put(rule)?),
            Outcome::Stopped(limit) => Err(HostError::Stopped(limit)),
        }
    }

    /// The names that a program uses, each on a line, and their count.
    ///
    /// # Errors
    ///
    /// Returns `Unknown` if the handle finds nothing, and `MemoryError` if an allocation fails.
    pub fn names(&self, program: Handle) -> Result<(String, usize), HostError>
        ensures said { MatchOption (thing_at self.now.rules program) (result ≡ Err HostError.Unknown)
            (λ rule. IfOk result (λ p. AreSaid (λ names. AreNamesOf names (program_term rule.program))
            (string_bytes p.0) p.1)) }
        ensures unknown { thing_at self.now.rules program ≡ None → result ≡ Err HostError.Unknown }
        ensures known { result ≡ Err HostError.Unknown → thing_at self.now.rules program ≡ None }
        ensures why { IfErr result IsUnknownOrForMemory }
    {
        match self.rules.get(program) {
            Some(rule) => Ok(rule.names(self.alloc)?),
            None => Err(HostError::Unknown),
        }
    }

    /// The functions that a program calls, each on a line, and their count.
    ///
    /// # Errors
    ///
    /// Returns `Unknown` if the handle finds nothing, and `MemoryError` if an allocation fails.
    pub fn functions(&self, program: Handle) -> Result<(String, usize), HostError>
        ensures said { MatchOption (thing_at self.now.rules program) (result ≡ Err HostError.Unknown)
            (λ rule. IfOk result (λ p. AreSaid (λ names. AreFunctionsOf names (owned_blocks rule.code))
            (string_bytes p.0) p.1)) }
        ensures unknown { thing_at self.now.rules program ≡ None → result ≡ Err HostError.Unknown }
        ensures known { result ≡ Err HostError.Unknown → thing_at self.now.rules program ≡ None }
        ensures why { IfErr result IsUnknownOrForMemory }
    {
        match self.rules.get(program) {
            Some(rule) => Ok(rule.functions(self.alloc)?),
            None => Err(HostError::Unknown),
        }
    }

    /// The text of a program, in the normal form.
    ///
    /// # Errors
    ///
    /// Returns `Unknown` if the handle finds nothing, and `MemoryError` if an allocation fails.
    pub fn program_text(&self, program: Handle) -> Result<String, HostError>
        ensures said { MatchOption (thing_at self.now.rules program) (result ≡ Err HostError.Unknown)
            (λ rule. IfOk result (λ text. IsTextOf (string_bytes text) (program_term rule.program))) }
        ensures unknown { thing_at self.now.rules program ≡ None → result ≡ Err HostError.Unknown }
        ensures known { result ≡ Err HostError.Unknown → thing_at self.now.rules program ≡ None }
        ensures why { IfErr result IsUnknownOrForMemory }
    {
        match self.rules.get(program) {
            Some(rule) => Ok(rule.text(self.alloc)?),
            None => Err(HostError::Unknown),
        }
    }

    /// Whether a program uses `$env` as an operand: 1 or 0.
    ///
    /// # Errors
    ///
    /// Returns `Unknown` if the handle finds nothing, and `MemoryError` if an allocation fails.
    pub fn uses_env(&self, program: Handle) -> Result<i64, HostError>
        ensures told { MatchOption (thing_at self.now.rules program) (result ≡ Err HostError.Unknown)
            (λ rule. IfOk result (λ n. TellsWhether
            (Contains (block_operands (program_term rule.program)) env) n)) }
        ensures unknown { thing_at self.now.rules program ≡ None → result ≡ Err HostError.Unknown }
        ensures known { result ≡ Err HostError.Unknown → thing_at self.now.rules program ≡ None }
        ensures why { IfErr result IsUnknownOrForMemory }
    {
        match self.rules.get(program) {
            Some(rule) => Ok(rule.uses_env(self.alloc)?),
            None => Err(HostError::Unknown),
        }
    }

    /// The names of a context, or none for no context.
    #[inline(always)]
    fn names_of(&self, context: Handle) -> Result<LentNames<'_>, HostError>
        ensures found { IfOk result (λ lent. names_at self.now context
            ≡ Some (names_or_none (option_copied lent.names))) }
        ensures unknown { IfErr result (λ e. (e ≡ HostError.Unknown) × (names_at self.now context ≡ None)) }
    {
        if context.number == NO_NUMBER {
            return Ok(LentNames { names: None });
        }
        match self.contexts.get(context) {
            Some(names) => Ok(LentNames { names: Some(names) }),
            None => Err(HostError::Unknown),
        }
    }

    /// The additions of an environment, or none for no environment.
    #[inline(always)]
    fn host_of(&self, environment: Handle) -> Result<LentHost<'_>, HostError>
        ensures found { IfOk result (λ lent. additions_at self.now environment
            ≡ Some (option_copied lent.added)) }
        ensures unknown { IfErr result
            (λ e. (e ≡ HostError.Unknown) × (additions_at self.now environment ≡ None)) }
    {
        if environment.number == NO_NUMBER {
            return Ok(LentHost { added: None });
        }
        match self.environments.get(environment) {
            Some(added) => Ok(LentHost { added: Some(added) }),
            None => Err(HostError::Unknown),
        }
    }

    /// Runs a program within the limits, with the replies that its run has. It ends at the program's end, or
    /// at the next call of a function that the host runs itself.
    #[inline(always)]
    fn turn(
        &self,
        stops: &mut Stops,
        program: Handle,
        environment: Handle,
        context: Handle,
    ) -> Result<Value, HostError>
        ensures ended { MatchOption (run_inputs self.now program environment context)
            (result ≡ Err HostError.Unknown)
            (λ q. ReturnsToHost result (RunMayAnswer q (replies_of stops.old))
            (λ limit. MayEnd q (replies_of stops.old) (stops_at limit))) }
        ensures stops { waiting_call_of stops.old ≡ None
            → MatchOption (run_inputs self.now program environment context)
            (result ≡ Err HostError.Unknown)
            (λ q. WaitsIfAsks q (replies_of stops.old) result (waiting_call_of stops.new)) }
        ensures given { replies_of stops.new ≡ replies_of stops.old }
        ensures used { MatchOption (run_inputs self.now program environment context)
            (result ≡ Err HostError.Unknown) (λ q. UsesWithin q.limits (used_of stops.new)) }
    {
        let Some(rule) = self.rules.get(program) else {
            return Err(HostError::Unknown);
        };
        let host = self.host_of(environment)?;
        let names = self.names_of(context)?;
        match rule.turn(self.alloc, host, names, stops, self.limits) {
            RunStatus::Ended(answer) => Ok(answer?),
            RunStatus::Asks => Err(HostError::Asks),
            RunStatus::Differs(_) => Err(HostError::Differs),
            RunStatus::Stopped(limit) => Err(HostError::Stopped(limit)),
        }
    }

    /// Starts a run of a program in an environment and a context, and keeps its result.
    ///
    /// # Errors
    ///
    /// Returns `Unknown` if a handle finds nothing, the errors of the run, `Stopped` if a limit is passed,
    /// and `Asks` if the run needs the host's reply.
    pub fn run(
        &mut self,
        program: Handle,
        environment: Handle,
        context: Handle,
    ) -> Result<(), HostError>
        ensures ended { MatchOption (run_inputs self.old program environment context)
            (result ≡ Err HostError.Unknown) (λ q. RunServes q [] result (part_of self.new.answer)) }
        ensures begun { MatchOption (run_inputs self.old program environment context)
            (self.new.waits ≡ self.old.waits)
            (λ q. IsNewRun q program environment context result self.new.waits) }
        ensures way { OnOk result (way_of self.new.answer ≡ []) }
        ensures err { OnErr result (self.new.answer ≡ self.old.answer) }
        ensures kept { KeepsThings self.old self.new }
        ensures built { self.new.built ≡ self.old.built }
        ensures limits { self.new.limits ≡ self.old.limits }
    {
        if environment.number == NO_NUMBER {
            return self.run_alone(program, environment, context);
        }
        let mut stops = Stops::new(self.alloc);
        let answer = self.turn(&mut stops, program, environment, context);
        if finds_nothing(&answer) {
            return Err(HostError::Unknown);
        }
        self.waits = WaitingRun {
            program,
            environment,
            context,
            stops,
        };
        self.keep(answer)
    }

    /// Starts a run without an environment. It comes to no function that the host runs itself.
    #[inline(always)]
    fn run_alone(
        &mut self,
        program: Handle,
        environment: Handle,
        context: Handle,
    ) -> Result<(), HostError>
        requires alone { environment.number ≡ no_number }
        ensures ended { MatchOption (run_inputs self.old program environment context)
            (result ≡ Err HostError.Unknown) (λ q. RunServes q [] result (part_of self.new.answer)) }
        ensures begun { MatchOption (run_inputs self.old program environment context)
            (self.new.waits ≡ self.old.waits)
            (λ q. IsNewRun q program environment context result self.new.waits) }
        ensures way { OnOk result (way_of self.new.answer ≡ []) }
        ensures err { OnErr result (self.new.answer ≡ self.old.answer) }
        ensures kept { KeepsThings self.old self.new }
        ensures built { self.new.built ≡ self.old.built }
        ensures limits { self.new.limits ≡ self.old.limits }
    {
        let mut used = Used::nothing();
        let answer = self.answer_alone(program, context, &mut used);
        if finds_nothing(&answer) {
            return Err(HostError::Unknown);
        }
        self.waits.begin(program, environment, context, used);
        self.keep(answer)
    }

    /// Runs a program in a context within the limits, without an environment, and notes what it used.
    #[inline(always)]
    fn answer_alone(
        &self,
        program: Handle,
        context: Handle,
        used: &mut Used,
    ) -> Result<Value, HostError>
        ensures ended { (alone : Handle) → alone.number ≡ no_number
            → MatchOption (run_inputs self.now program alone context) (result ≡ Err HostError.Unknown)
            (λ q. ReturnsToHost result (RunMayAnswer q []) (λ limit. MayEnd q [] (stops_at limit))) }
        ensures stops { (alone : Handle) → alone.number ≡ no_number
            → MatchOption (run_inputs self.now program alone context) (result ≡ Err HostError.Unknown)
            (λ q. WaitsIfAsks q [] result None) }
        ensures used { (alone : Handle) → alone.number ≡ no_number
            → MatchOption (run_inputs self.now program alone context) (result ≡ Err HostError.Unknown)
            (λ q. UsesWithin q.limits used.new) }
    {
        let Some(rule) = self.rules.get(program) else {
            return Err(HostError::Unknown);
        };
        let names = self.names_of(context)?;
        let nothing = LentHost { added: None };
        let ran = rule.run(self.alloc, &nothing, names, self.limits);
        let EndedRun { went, used: took } = ran;
        *used = took;
        match went? {
            Outcome::Answered(value) => Ok(value),
            Outcome::Stopped(limit) => Err(HostError::Stopped(limit)),
        }
    }

    /// Checks the handles of a run. It is an error if one of them finds nothing.
    #[inline(always)]
    fn knows_run(
        &self,
        program: Handle,
        environment: Handle,
        context: Handle,
    ) -> Result<(), HostError>
        ensures { MatchOption (run_inputs self.now program environment context)
            (result ≡ Err HostError.Unknown)
            (λ _. IsOk result) }
    {
        if self.rules.get(program).is_none() {
            return Err(HostError::Unknown);
        }
        let _host = self.host_of(environment)?;
        let _names = self.names_of(context)?;
        Ok(())
    }

    /// Keeps the result of a run.
    #[inline(always)]
    fn keep(&mut self, answer: Result<Value, HostError>) -> Result<(), HostError>
        ensures passed { PassesOn answer result (part_of self.new.answer) }
        ensures way { OnOk result (way_of self.new.answer ≡ []) }
        ensures err { OnErr result (self.new.answer ≡ self.old.answer) }
        ensures waits { self.new.waits ≡ self.old.waits }
        ensures limits { self.new.limits ≡ self.old.limits }
        ensures kept { KeepsThings self.old self.new }
        ensures built { self.new.built ≡ self.old.built }
    {
        self.answer.keep(answer?);
        Ok(())
    }

    /// Checks that a call waits, and that the handles of its run find something.
    ///
    /// # Errors
    ///
    /// Returns `Misuse` if no call waits, and `Unknown` if a handle of its run finds nothing.
    pub fn knows_waiting(&self) -> Result<(), HostError>
        ensures waits { OnOk result (IsSome (waiting_call_of self.now.waits.stops)) }
        ensures found { OnOk result (IsSome (waiting_inputs self.now)) }
        ensures unknown { IsStale self.now → result ≡ Err HostError.Unknown }
        ensures known { result ≡ Err HostError.Unknown → IsStale self.now }
        ensures refused { IfErr result
            (λ e. (e ≡ HostError.Unknown) ⊎ (e ≡ HostError.Misuse Misuse.NoCallWaits)) }
        ensures misused { (why : Wrong) → result ≡ Err (HostError.Misuse why)
            → waiting_call_of self.now.waits.stops ≡ None }
    {
        if self.waits.stops.waiting_call().is_none() {
            return Err(HostError::Misuse(Misuse::NoCallWaits));
        }
        let waits = &self.waits;
        self.knows_run(waits.program, waits.environment, waits.context)
    }

    /// Replies with a value to the waiting call, and continues its run.
    ///
    /// # Errors
    ///
    /// Returns `Misuse` if no call waits, and `Unknown` if a handle of its run finds nothing. Returns the
    /// errors of the run, `Stopped` if a limit is passed, `Asks` if it needs another reply, and `Differs` if
    /// it comes to another call than before.
    pub fn reply(&mut self, value: Value) -> Result<(), HostError>
        ensures replied { IsSome (waiting_call_of self.old.waits.stops) → IsSome (waiting_inputs self.old)
            → RunGoesOn (λ r. r ≡ reply.Value value) (waiting_inputs self.old)
            self.old.waits self.new.waits result
            (part_of self.new.answer) }
        ensures found { IsSome (waiting_call_of self.old.waits.stops) → IsSome (waiting_inputs self.old)
            → IfErr result (λ e. e ≢ HostError.Unknown) }
        ensures meant { IsSome (waiting_call_of self.old.waits.stops) → IsSome (waiting_inputs self.old)
            → IfErr result (λ e. (why : Wrong) → e ≢ HostError.Misuse why) }
        ensures way { OnOk result (way_of self.new.answer ≡ []) }
        ensures err { OnErr result (self.new.answer ≡ self.old.answer) }
        ensures kept { KeepsThings self.old self.new }
        ensures built { self.new.built ≡ self.old.built }
        ensures limits { self.new.limits ≡ self.old.limits }
    {
        self.waits.stops.answer(value)?;
        self.go_on()
    }

    /// Replies with an error of this message to the waiting call, and continues its run.
    ///
    /// # Errors
    ///
    /// Returns `Misuse` if no call waits, and `Unknown` if a handle of its run finds nothing. Returns the
    /// errors of the run, `Stopped` if a limit is passed, `Asks` if it needs another reply, and `Differs` if
    /// it comes to another call than before.
    pub fn refuse(&mut self, text: &str) -> Result<(), HostError>
        ensures replied { IsSome (waiting_call_of self.old.waits.stops) → IsSome (waiting_inputs self.old)
            → RunGoesOn (IsRefusal text.now) (waiting_inputs self.old) self.old.waits self.new.waits result
            (part_of self.new.answer) }
        ensures found { IsSome (waiting_call_of self.old.waits.stops) → IsSome (waiting_inputs self.old)
            → IfErr result (λ e. e ≢ HostError.Unknown) }
        ensures meant { IsSome (waiting_call_of self.old.waits.stops) → IsSome (waiting_inputs self.old)
            → IfErr result (λ e. (why : Wrong) → e ≢ HostError.Misuse why) }
        ensures way { OnOk result (way_of self.new.answer ≡ []) }
        ensures err { OnErr result (self.new.answer ≡ self.old.answer) }
        ensures kept { KeepsThings self.old self.new }
        ensures built { self.new.built ≡ self.old.built }
        ensures limits { self.new.limits ≡ self.old.limits }
    {
        self.waits.stops.refuse(text)?;
        self.go_on()
    }

    /// Continues the run that has a reply, and keeps its result.
    #[inline(always)]
    fn go_on(&mut self) -> Result<(), HostError>
        ensures ended { MatchOption (waiting_inputs self.old) (result ≡ Err HostError.Unknown)
            (λ q. RunServes q (replies_of self.old.waits.stops) result (part_of self.new.answer)) }
        ensures stops { waiting_call_of self.old.waits.stops ≡ None → MatchOption (waiting_inputs self.old)
            (result ≡ Err HostError.Unknown)
            (λ q. WaitsIfAsks q (replies_of self.old.waits.stops) result
            (waiting_call_of self.new.waits.stops)) }
        ensures given { replies_of self.new.waits.stops ≡ replies_of self.old.waits.stops }
        ensures used { MatchOption (waiting_inputs self.old) (result ≡ Err HostError.Unknown)
            (λ q. UsesWithin q.limits (used_of self.new.waits.stops)) }
        ensures run { IsSameRun self.old.waits self.new.waits }
        ensures way { OnOk result (way_of self.new.answer ≡ []) }
        ensures err { OnErr result (self.new.answer ≡ self.old.answer) }
        ensures kept { KeepsThings self.old self.new }
        ensures built { self.new.built ≡ self.old.built }
        ensures limits { self.new.limits ≡ self.old.limits }
    {
        let mut stops = std::mem::replace(&mut self.waits.stops, Stops::new(self.alloc));
        let waits = &self.waits;
        let answer = self.turn(&mut stops, waits.program, waits.environment, waits.context);
        self.waits.stops = stops;
        self.keep(answer)
    }

    /// Checks that a handle finds a context.
    ///
    /// # Errors
    ///
    /// Returns `Unknown` if it finds none.
    pub fn knows_context(&self, context: Handle) -> Result<(), HostError>
        ensures found { MatchOption (thing_at self.now.contexts context) (result ≡ Err HostError.Unknown)
            (λ _. IsOk result) }
        ensures why { IfErr result (λ e. e ≡ HostError.Unknown) }
    {
        match self.contexts.get(context) {
            Some(_) => Ok(()),
            None => Err(HostError::Unknown),
        }
    }

    /// Checks that a handle finds an environment.
    ///
    /// # Errors
    ///
    /// Returns `Unknown` if it finds none.
    pub fn knows_environment(&self, environment: Handle) -> Result<(), HostError>
        ensures found { MatchOption (thing_at self.now.environments environment)
            (result ≡ Err HostError.Unknown) (λ _. IsOk result) }
        ensures why { IfErr result (λ e. e ≡ HostError.Unknown) }
    {
        match self.environments.get(environment) {
            Some(_) => Ok(()),
            None => Err(HostError::Unknown),
        }
    }

    /// Sets a name in a context.
    ///
    /// # Errors
    ///
    /// Returns `Unknown` if the handle finds nothing, and `MemoryError` if an allocation fails.
    pub fn set(&mut self, context: Handle, name: &str, value: Value) -> Result<(), HostError>
        ensures set { OnOk result (Changes (λ was is. is ≡ put name.now value was) self.old.contexts
            self.new.contexts context) }
        ensures unknown { thing_at self.old.contexts context ≡ None → result ≡ Err HostError.Unknown }
        ensures known { result ≡ Err HostError.Unknown → thing_at self.old.contexts context ≡ None }
        ensures err { OnErr result (SameThings self.old.contexts self.new.contexts) }
        ensures next { SameNext self.old.contexts self.new.contexts }
        ensures rules { self.new.rules ≡ self.old.rules }
        ensures environments { self.new.environments ≡ self.old.environments }
        ensures built { self.new.built ≡ self.old.built }
        ensures rest { KeepsRest self.old self.new }
        ensures why { IfErr result IsUnknownOrForMemory }
    {
        self.knows_context(context)?;
        let name = String::from_str(self.alloc, name)?;
        let mut names = Context::new(self.alloc);
        if !self.contexts.swap(context, &mut names) {
            return Err(HostError::Unknown);
        }
        let done = names.insert(name, value);
        let _kept = self.contexts.swap(context, &mut names);
        Ok(done?)
    }

    /// Sets nil in a context for each missing name that a program looks up only outside of predicates.
    /// Returns how many there are. If the context has them all, it stays untouched; otherwise its copy is
    /// filled and replaces it.
    ///
    /// # Errors
    ///
    /// Returns `Unknown` if a handle finds nothing, and `MemoryError` if an allocation fails.
    pub fn fill_missing(&mut self, program: Handle, context: Handle) -> Result<usize, HostError>
        ensures filled { IfOk result (λ count. FillsContext self.old.rules program self.old.contexts
            self.new.contexts context count) }
        ensures unknown { (thing_at self.old.rules program ≡ None)
            ⊎ (thing_at self.old.contexts context ≡ None) → result ≡ Err HostError.Unknown }
        ensures known { result ≡ Err HostError.Unknown
            → (thing_at self.old.rules program ≡ None) ⊎ (thing_at self.old.contexts context ≡ None) }
        ensures err { OnErr result (SameThings self.old.contexts self.new.contexts) }
        ensures next { SameNext self.old.contexts self.new.contexts }
        ensures rules { self.new.rules ≡ self.old.rules }
        ensures environments { self.new.environments ≡ self.old.environments }
        ensures built { self.new.built ≡ self.old.built }
        ensures rest { KeepsRest self.old self.new }
        ensures why { IfErr result IsUnknownOrForMemory }
    {
        let Some(rule) = self.rules.get(program) else {
            return Err(HostError::Unknown);
        };
        let Some(names) = self.contexts.get(context) else {
            return Err(HostError::Unknown);
        };
        let missing = rule.missing_names(self.alloc, names)?;
        if missing.is_empty() {
            return Ok(0);
        }
        let count = missing.len();
        let mut filled = with_nil(names.clone()?, missing)?;
        let _was = self.contexts.swap(context, &mut filled);
        Ok(count)
    }

    /// Adds a zone to an environment, by the seconds that its clock is ahead of UTC or by a rule.
    ///
    /// # Errors
    ///
    /// Returns `Unknown` if the handle finds nothing, and the errors of [`Additions::add_zone`].
    pub fn add_zone(
        &mut self,
        environment: Handle,
        name: &str,
        seconds: i64,
        rule: Option<&str>,
    ) -> Result<(), HostError>
        ensures fixed { OnOk result (IsNone rule.entry → Changes (BecomesFixed name.now seconds)
            self.old.environments self.new.environments environment) }
        ensures by_rule { OnOk result (IfSome rule.entry (λ rule. Changes (BecomesByRule name.now rule.now)
            self.old.environments self.new.environments environment)) }
        ensures unknown { thing_at self.old.environments environment ≡ None
            → result ≡ Err HostError.Unknown }
        ensures known { result ≡ Err HostError.Unknown
            → thing_at self.old.environments environment ≡ None }
        ensures err { OnErr result (SameAdditions self.old.environments self.new.environments) }
        ensures next { SameNext self.old.environments self.new.environments }
        ensures rules { self.new.rules ≡ self.old.rules }
        ensures contexts { self.new.contexts ≡ self.old.contexts }
        ensures built { self.new.built ≡ self.old.built }
        ensures rest { KeepsRest self.old self.new }
        ensures why { IfErr result (RefusesZone (Unit {0})) }
    {
        let mut host = Additions::new(self.alloc);
        if !self.environments.swap(environment, &mut host) {
            return Err(HostError::Unknown);
        }
        let done = host.add_zone(name, seconds, rule);
        let _kept = self.environments.swap(environment, &mut host);
        Ok(done?)
    }

    /// Adds a name to the functions of an environment that the host runs itself.
    ///
    /// # Errors
    ///
    /// Returns `Unknown` if the handle finds nothing, and the errors of [`Additions::add_name`].
    pub fn add_name(&mut self, environment: Handle, name: &str) -> Result<(), HostError>
        ensures added { OnOk result (Changes (GainsName name.now) self.old.environments
            self.new.environments environment) }
        ensures unknown { thing_at self.old.environments environment ≡ None
            → result ≡ Err HostError.Unknown }
        ensures known { result ≡ Err HostError.Unknown
            → thing_at self.old.environments environment ≡ None }
        ensures err { OnErr result (SameAdditions self.old.environments self.new.environments) }
        ensures next { SameNext self.old.environments self.new.environments }
        ensures rules { self.new.rules ≡ self.old.rules }
        ensures contexts { self.new.contexts ≡ self.old.contexts }
        ensures built { self.new.built ≡ self.old.built }
        ensures rest { KeepsRest self.old self.new }
        ensures why { IfErr result (RefusesName (IsName name.now)) }
    {
        let mut host = Additions::new(self.alloc);
        if !self.environments.swap(environment, &mut host) {
            return Err(HostError::Unknown);
        }
        let done = host.add_name(name);
        let _kept = self.environments.swap(environment, &mut host);
        Ok(done?)
    }

    /// Sets the current time of an environment.
    ///
    /// # Errors
    ///
    /// Returns `Unknown` if the handle finds nothing.
    pub fn set_now(&mut self, environment: Handle, now: Timestamp) -> Result<(), HostError>
        ensures set { OnOk result (Changes (BecomesNow now.nanosecond) self.old.environments
            self.new.environments environment) }
        ensures unknown { thing_at self.old.environments environment ≡ None
            → result ≡ Err HostError.Unknown }
        ensures known { result ≡ Err HostError.Unknown
            → thing_at self.old.environments environment ≡ None }
        ensures err { OnErr result (SameAdditions self.old.environments self.new.environments) }
        ensures next { SameNext self.old.environments self.new.environments }
        ensures rules { self.new.rules ≡ self.old.rules }
        ensures contexts { self.new.contexts ≡ self.old.contexts }
        ensures built { self.new.built ≡ self.old.built }
        ensures rest { KeepsRest self.old self.new }
        ensures why { IfErr result (λ e. e ≡ HostError.Unknown) }
    {
        let mut host = Additions::new(self.alloc);
        if !self.environments.swap(environment, &mut host) {
            return Err(HostError::Unknown);
        }
        host.set_now(now);
        let _kept = self.environments.swap(environment, &mut host);
        Ok(())
    }

    /// Adds the functions on versions to an environment.
    ///
    /// # Errors
    ///
    /// Returns `Unknown` if the handle finds nothing.
    pub fn add_versions(&mut self, environment: Handle) -> Result<(), HostError>
        ensures added { OnOk result (Changes GainsVersions self.old.environments self.new.environments
            environment) }
        ensures unknown { thing_at self.old.environments environment ≡ None
            → result ≡ Err HostError.Unknown }
        ensures known { result ≡ Err HostError.Unknown
            → thing_at self.old.environments environment ≡ None }
        ensures err { OnErr result (SameAdditions self.old.environments self.new.environments) }
        ensures next { SameNext self.old.environments self.new.environments }
        ensures rules { self.new.rules ≡ self.old.rules }
        ensures contexts { self.new.contexts ≡ self.old.contexts }
        ensures built { self.new.built ≡ self.old.built }
        ensures rest { KeepsRest self.old self.new }
        ensures why { IfErr result (λ e. e ≡ HostError.Unknown) }
    {
        let mut host = Additions::new(self.alloc);
        if !self.environments.swap(environment, &mut host) {
            return Err(HostError::Unknown);
        }
        host.add_versions();
        let _kept = self.environments.swap(environment, &mut host);
        Ok(())
    }

    /// Drops everything that the engine keeps, except the limits. No old handle finds anything after that,
    /// and none is given again.
    pub fn clear(&mut self)
        ensures done { ForgetsAll self.old self.new }
        ensures numbers { NumbersRise self.old self.new }
        ensures waits { waiting_call_of self.new.waits.stops ≡ None }
        ensures used { used_of self.new.waits.stops ≡ nothing_used }
    {
        let alloc = self.alloc;
        self.rules.clear(alloc);
        self.contexts.clear(alloc);
        self.environments.clear(alloc);
        self.built = ValueBuilder::new(alloc);
        self.answer = ValueCursor::new(alloc);
        self.said = String::new(alloc);
        self.waits = WaitingRun::new(alloc);
        self.reader = JsonReader::new(alloc);
    }

    /// Sets the message for an error. Returns the position of a syntax error.
    ///
    /// # Errors
    ///
    /// Returns `ExprError` if the position is not a character boundary, and `MemoryError` if an allocation
    /// fails.
    pub fn note(&mut self, refused: &HostError, text: &[u8]) -> Result<Option<TextPlace>, Error>
        ensures kept { KeepsThings self.old self.new }
        ensures built { self.new.built ≡ self.old.built }
        ensures rest { KeepsRest self.old self.new }
        ensures noted { IfOk result (IsNotedAt (refused_byte refused.now) text.now) }
        ensures unknown { refused.now ≡ HostError.Unknown → IsOk result }
        ensures misuse { (why : Wrong) → refused.now ≡ HostError.Misuse why → IsOk result }
        ensures asks { refused.now ≡ HostError.Asks → IsOk result }
        ensures differs { refused.now ≡ HostError.Differs → IsOk result }
        ensures said { OnOk result (SaysWhy refused.now (string_bytes self.new.said)) }
    {
        self.said = String::new(self.alloc);
        match refused {
            HostError::Language(error) => self.note_error(error, text),
            HostError::Stopped(limit) => {
                self.said = String::from_str(self.alloc, limit_text(*limit))?;
                Ok(None)
            }
            HostError::Misuse(misuse) => {
                self.said = sentence_of(self.alloc, *misuse);
                Ok(None)
            }
            HostError::Unknown | HostError::Asks | HostError::Differs => Ok(None),
        }
    }

    /// Sets the message for an error of the language. Returns the position of a syntax error.
    fn note_error(&mut self, error: &Error, text: &[u8]) -> Result<Option<TextPlace>, Error>
        ensures kept { KeepsThings self.old self.new }
        ensures built { self.new.built ≡ self.old.built }
        ensures rest { KeepsRest self.old self.new }
        ensures noted { IfOk result (IsNotedAt (fault_byte error.now) text.now) }
    {
        match fault_of(error) {
            Some(byte) => self.note_fault(byte, text),
            None => {
                self.said = error.to_string(self.alloc)?;
                Ok(None)
            }
        }
    }

    /// Returns the position of a syntax error. The message is its line with a caret under the position.
    fn note_fault(&mut self, byte: usize, text: &[u8]) -> Result<Option<TextPlace>, Error>
        ensures kept { KeepsThings self.old self.new }
        ensures built { self.new.built ≡ self.old.built }
        ensures rest { KeepsRest self.old self.new }
        ensures noted { IfOk result (IsNotedAt (Some byte) text.now) }
    {
        let Ok(text) = std::str::from_utf8(text) else {
            return Ok(None);
        };
        let location = line_column_of(self.alloc, text, byte)?;
        self.said = location.shown;
        Ok(Some(TextPlace {
            byte,
            line: location.line,
            column: location.column,
        }))
    }
}

/// Whether a handle of a run found nothing.
fn finds_nothing(answer: &Result<Value, HostError>) -> bool
    ensures { result ≡ finds_nothing answer.now }
{
    match answer {
        Ok(_) => false,
        Err(refused) => is_unknown(refused),
    }
}

/// Whether a handle found nothing.
fn is_unknown(refused: &HostError) -> bool
    ensures { result ≡ is_unknown refused.now }
{
    match refused {
        HostError::Unknown => true,
        _ => false,
    }
}

/// The message for a mistake of the host. It is empty if its allocation fails.
fn sentence_of(alloc: Global, misuse: Misuse) -> String
    ensures { (string_bytes result ≡ text_of_misuse misuse) ⊎ (string_bytes result ≡ []) }
{
    match String::from_str(alloc, misuse.text()) {
        Ok(text) => text,
        Err(_) => String::new(alloc),
    }
}

/// The byte of a syntax error.
fn fault_of(error: &Error) -> Option<usize>
    ensures { result ≡ fault_byte error.now }
{
    match error {
        Error::PestError(byte) => Some(*byte),
        _ => None,
    }
}
