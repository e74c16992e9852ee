//! Runs that stop at the host's functions.
ghost use Rattle.std.specs.Prelude.{◌≡◌, [], ℕ, Bool, List, None, OnErr, OnOk};
ghost use Rattle.std.specs.Option.{option_copied};
ghost use Rattle.expr_meaning.specs.CodeRuns.{CodeAnswers};
ghost use Rattle.expr_lowering.specs.Blocks.{CodeKeeps, blocks_of};
ghost use Rattle.expr_lowering.specs.Kept.{ProgramKeeps};
ghost use Rattle.expr_acts.specs.Texts.{text_of};
ghost use Rattle.expr_meaning.specs.Allows.{AllowsBlock};
ghost use Rattle.expr_meaning.specs.Refusals.{NeverRefusesWith};
ghost use Rattle.expr_meaning.specs.World.{world_of};
ghost use Rattle.expr_stops.specs.Stops.{AllowedWhereAgreed, CodeComes, ComesTo, EndsTurn, IfEnded, IsAsItWent, IsRepliedRefusal, IsReplied, IsSame, StopsWell, UsesWithin, host_replying, waiting_call_of, nothing_used, replies_of, is_named, used_of};
ghost use Rattle.expr_stops.specs.declared.replies.CallReply.{CallReply};
ghost use Rattle.expr_stops.specs.declared.replies.Reply.{Reply};
ghost use Rattle.expr_tree.specs.TermOf.{program_term};
ghost use Rattle.expr_value.specs.Answers.{Returns};
ghost use Rattle.expr_error.specs.ErrorKind.{RefusesNoPattern, RefusesWith, evaluation, pattern as bad_pattern};

use crate::names::StopNames;
use crate::replay::Stop;
use crate::replays::{RunOutcome, play, play_code};
use crate::replies::{CallReply, Reply};
use crate::used::Used;
use expr_context::ContextProvider;
use expr_limits::{Limit, Limits, Outcome};
use expr_lowering::{Code, Pointer};
use expr_meaning::Functions;
use expr_pattern::Pattern;
use expr_tree::node::Program;
use expr_value::{Error, Result, Value, refusal};
use std::alloc::Global;

/// How a run went.
#[derive(Drop)]
pub enum RunStatus {
    /// The run ended, with this result of the program.
    Ended(Result<Value>),
    /// The run stopped at a call of a host's function that needs a reply: [`Stops::waiting_call`].
    Asks,
    /// The run came to this call, and the reply of its number belongs to another call.
    Differs(Stop),
    /// The run would have passed this limit.
    Stopped(Limit),
}

impl RunStatus {
    /// The outcome of a run that stopped at no call.
    pub fn of(went: Result<Outcome<Value>>) -> RunStatus
        ensures went { IsAsItWent went result }
        ensures stops { (named : List ℕ → Bool) (given : List CallReply) → StopsWell named given result None }
    {
        match went {
            Ok(Outcome::Answered(value)) => RunStatus::Ended(Ok(value)),
            Ok(Outcome::Stopped(limit)) => RunStatus::Stopped(limit),
            Err(error) => RunStatus::Ended(Err(error)),
        }
    }
}

/// A program's run that stops at the host's functions. It holds the host's replies, in the order of the
/// calls, the call that waits for a reply, and what its last turn used of the limits.
///
/// A run starts again after each reply. So a program that makes n calls runs n + 1 times.
#[derive(Drop)]
pub struct Stops {
    alloc: Global,
    given: Vec<CallReply>,
    asked: Option<Stop>,
    used: Used,
}

impl Stops {
    /// Creates a run at its start. It allocates no memory.
    pub fn new(alloc: Global) -> Stops
        ensures given { replies_of result ≡ [] }
        ensures asked { waiting_call_of result ≡ None }
        ensures used { used_of result ≡ nothing_used }
    {
        Stops {
            alloc,
            given: Vec::new(alloc),
            asked: None,
            used: Used::nothing(),
        }
    }

    /// Runs a program up to its next call of a registered name.
    pub fn run<H: Functions>(
        &mut self,
        host: &H,
        names: &StopNames,
        program: &Program,
        ctx: &dyn ContextProvider,
    ) -> RunStatus
        // The result is one that the program's meaning allows if these names return the host's replies. There
        // are no limits, so the run stops at none.
        ensures ended { EndsTurn result (ComesTo (AllowsBlock
            (world_of (host_replying (H.host host.now) (is_named names.now) (replies_of self.old))
            (context ctx.now)) (program_term program.now))) }
        // The result is allowed in each context that has the same values under the program's names.
        ensures independent { EndsTurn result (ComesTo (AllowedWhereAgreed
            (world_of (host_replying (H.host host.now) (is_named names.now) (replies_of self.old))
            (context ctx.now)) (program_term program.now))) }
        // If each `matches` keeps the pattern of the string on its right, none is built.
        ensures pattern { NeverRefusesWith (H.host host.now) bad_pattern → ProgramKeeps program.now
            → IfEnded result (λ r. RefusesNoPattern r) }
        ensures stops { StopsWell (is_named names.now) (replies_of self.old) result
            (waiting_call_of self.new) }
        ensures given { replies_of self.new ≡ replies_of self.old }
        ensures used { used_of self.new ≡ nothing_used }
    {
        let played = play(self.alloc, host, names, &self.given, program, ctx);
        self.turn(names, played)
    }

    /// Executes code up to its next call of a registered name, with the names of a provider of any type,
    /// within limits or without. Each call of this function has the whole of the limits.
    pub fn execute<
        H: Functions,
        P: ContextProvider + Drop,
        L: Pointer<Value>,
        N: Pointer<String>,
        K: Pointer<Pattern>,
    >(
        &mut self,
        host: &H,
        names: &StopNames,
        code: &Code<L, N, K>,
        provider: P,
        limits: Option<Limits>,
    ) -> RunStatus
        // It ends, or stops at a limit, as a counted run of the code within these limits does. Without limits
        // nothing is counted.
        ensures ends { EndsTurn result (CodeComes limits
            (world_of (host_replying (H.host host.now) (is_named names.now) (replies_of self.old))
            (P.context provider)) (blocks_of L.held (text_of N.held) code.now)) }
        // The result is one that the code may give without limits.
        ensures ended { IfEnded result (λ r. Returns r (CodeAnswers
            (world_of (host_replying (H.host host.now) (is_named names.now) (replies_of self.old))
            (P.context provider)) (blocks_of L.held (text_of N.held) code.now))) }
        ensures pattern { NeverRefusesWith (H.host host.now) bad_pattern → CodeKeeps L.held K.held code.now
            → IfEnded result (λ r. RefusesNoPattern r) }
        ensures stops { StopsWell (is_named names.now) (replies_of self.old) result
            (waiting_call_of self.new) }
        ensures given { replies_of self.new ≡ replies_of self.old }
        // It notes what it used, which is within the limits.
        ensures used { UsesWithin limits (used_of self.new) }
    {
        let played = play_code(self.alloc, host, names, &self.given, code, provider, limits);
        self.turn(names, played)
    }

    /// The outcome of this run. Notes the call that waits, if there is one, and what the run used.
    fn turn(&mut self, names: &StopNames, played: RunOutcome) -> RunStatus
        ensures went { IsAsItWent played.went result }
        ensures stops { StopsWell (is_named names.now) (replies_of self.old) result
            (waiting_call_of self.new) }
        ensures given { replies_of self.new ≡ replies_of self.old }
        ensures used { used_of self.new ≡ played.used }
    {
        self.asked = None;
        let RunOutcome { went, stop, used } = played;
        self.used = used;
        let Some(stop) = stop else {
            return RunStatus::of(went);
        };
        if !names.has(&stop.call.ident) {
            return RunStatus::of(went);
        }
        if stop.place == self.given.len() {
            self.asked = Some(stop);
            return RunStatus::Asks;
        }
        match self.given.get(stop.place) {
            Some(given) if !given.is_to(&stop.call) => RunStatus::Differs(stop),
            _ => RunStatus::of(went),
        }
    }

    /// The call that waits for a reply.
    pub fn waiting_call(&self) -> Option<&Stop>
        ensures { option_copied result ≡ waiting_call_of self.now }
    {
        self.asked.as_ref()
    }

    /// What the last turn used of its limits: nothing before the first one and where there were none.
    pub fn used(&self) -> Used
        ensures { result ≡ used_of self.now }
    {
        self.used
    }

    /// Notes what a run used that came to no call.
    pub fn note_used(&mut self, used: Used)
        ensures used { used_of self.new ≡ used }
        ensures given { replies_of self.new ≡ replies_of self.old }
        ensures asked { waiting_call_of self.new ≡ waiting_call_of self.old }
    {
        self.used = used;
    }

    /// The host's replies, in the order of the calls.
    pub fn replies(&self) -> &[CallReply]
        ensures { result.now ≡ replies_of self.now }
    {
        &self.given
    }

    /// Replies with a value to the call that waits.
    ///
    /// # Errors
    ///
    /// Returns `ExprError` if no call waits, and `MemoryError` if an allocation fails. The run stays where it
    /// was.
    pub fn answer(&mut self, value: Value) -> Result<()>
        ensures given { OnOk result (IsReplied self.old self.new (Reply.Value value)) }
        ensures err { OnErr result (IsSame self.old self.new) }
        ensures waits { RefusesWith result (λ k. (k ≡ evaluation) × (waiting_call_of self.old ≡ None)) }
    {
        self.reply(Reply::Value(value))
    }

    /// Replies with an error of this message to the call that waits.
    ///
    /// # Errors
    ///
    /// Returns `ExprError` if no call waits, and `MemoryError` if an allocation fails. The run stays where it
    /// was.
    pub fn refuse(&mut self, text: &str) -> Result<()>
        ensures given { OnOk result (IsRepliedRefusal self.old self.new text.now) }
        ensures err { OnErr result (IsSame self.old self.new) }
        ensures waits { RefusesWith result (λ k. (k ≡ evaluation) × (waiting_call_of self.old ≡ None)) }
    {
        let text = String::from_str(self.alloc, text)?;
        self.reply(Reply::Refusal(text))
    }

    /// Adds a reply to the call that waits.
    fn reply(&mut self, reply: Reply) -> Result<()>
        ensures given { OnOk result (IsReplied self.old self.new reply) }
        ensures err { OnErr result (IsSame self.old self.new) }
        ensures waits { RefusesWith result (λ k. (k ≡ evaluation) × (waiting_call_of self.old ≡ None)) }
    {
        let Some(stop) = self.asked.take() else {
            return Err(refusal(self.alloc, "no call waits for a reply"));
        };
        let Stop { call, place } = stop;
        match self.given.push(CallReply { call, reply }) {
            Ok(()) => Ok(()),
            Err(failed) => {
                let given = failed.value;
                let CallReply { call, reply: _ } = given;
                self.asked = Some(Stop { call, place });
                Err(Error::MemoryError)
            }
        }
    }

    /// Drops all replies, the call that waits and what was used, so that the next run starts from the beginning.
    pub fn forget(&mut self)
        ensures given { replies_of self.new ≡ [] }
        ensures asked { waiting_call_of self.new ≡ None }
        ensures used { used_of self.new ≡ nothing_used }
    {
        self.given.clear();
        self.asked = None;
        self.used = Used::nothing();
    }
}
