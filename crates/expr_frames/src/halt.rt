//! Why a run stops without a value.
ghost use Rattle.std.proofs.Common.{ap, inl, inr, rules};
ghost use Rattle.std.specs.Prelude.{◌≡◌, ◌⊎◌, ℕ, Bool, List, Some, false};
ghost use Rattle.expr_frames.specs.Halts.{IsAt, IsMemory};
ghost use Rattle.expr_frames.specs.declared.halt.Halt.{Halt as declared};
ghost use Rattle.expr_frames.specs.declared.halt.Halt.TheVariants.{Limit as Limits, Paused, Refused};
ghost use Rattle.expr_error.specs.declared.error.Error.{Error as error};
ghost use Rattle.expr_error.specs.declared.error.Error.TheVariants.{MemoryError as no_memory};
ghost use Rattle.std.specs.declared.alloc.AllocError.{AllocError as lack};

use expr_limits::{Budget, Limit, Meter, NoMeter};
use expr_meaning::ExprCall;
use expr_value::Error;
use std::alloc::{AllocError, Global};

/// How the reply to a call of the host is counted.
#[derive(Clone, Copy)]
pub enum Awaited {
    /// As a value that an instruction made.
    Made,
    /// As the result of a call that may run a predicate. It replaces all that was made since this size was left.
    Kept(u64),
}

/// A call of the host at which a run stopped.
#[derive(Drop)]
pub struct Asked {
    pub call: ExprCall,
    pub awaited: Awaited,
}

/// Why a run has no value, or none yet.
#[derive(Drop)]
pub enum Halt {
    /// It failed.
    Refused(Error),
    /// It would exceed a limit.
    Limit(Limit),
    /// It is at a call of the host. It goes on with the reply.
    Asks(Box<Asked>),
    /// It has taken the steps that it was given for now. It goes on when asked to.
    Paused,
}

/// Why a run that stops at no call and doesn't pause has no value.
#[derive(Drop)]
pub enum Halted {
    /// It failed.
    Refused(Error),
    /// It would exceed a limit.
    Limit(Limit),
}

impl From<Error> for Halted {
    ghost use Rattle.expr_frames.specs.declared.halt.Halted.TheVariants.{Refused};

    ghost from_gives = { λ e r. r ≡ Refused e };

    fn from(error: Error) -> Halted {
        Halted::Refused(error)
    }
}

impl From<Limit> for Halted {
    ghost use Rattle.expr_frames.specs.declared.halt.Halted.TheVariants as halted;

    ghost from_gives = { λ l r. r ≡ halted.Limit l };

    fn from(limit: Limit) -> Halted {
        Halted::Limit(limit)
    }
}

impl From<AllocError> for Halted {
    ghost use Rattle.expr_frames.specs.declared.halt.Halted.TheVariants.{Refused};
    ghost use Rattle.expr_error.specs.declared.error.Error.TheVariants.{MemoryError};

    ghost from_gives = { λ e r. r ≡ Refused MemoryError };

    fn from(_error: AllocError) -> Halted {
        Halted::Refused(Error::MemoryError)
    }
}

impl From<Error> for Halt {
    ghost use Rattle.expr_frames.specs.declared.halt.Halt.TheVariants.{Refused};

    ghost from_gives = { λ e r. r ≡ Refused e };

    fn from(error: Error) -> Halt {
        Halt::Refused(error)
    }
}

impl From<Limit> for Halt {
    ghost use Rattle.expr_frames.specs.declared.halt.Halt.TheVariants as halt;

    ghost from_gives = { λ l r. r ≡ halt.Limit l };

    fn from(limit: Limit) -> Halt {
        Halt::Limit(limit)
    }
}

impl From<AllocError> for Halt {
    ghost use Rattle.expr_frames.specs.declared.halt.Halt.TheVariants.{Refused};
    ghost use Rattle.expr_error.specs.declared.error.Error.TheVariants.{MemoryError};

    ghost from_gives = { λ e r. r ≡ Refused MemoryError };

    fn from(_error: AllocError) -> Halt {
        Halt::Refused(Error::MemoryError)
    }
}

/// The halt at this call.
pub(crate) fn halt_at(alloc: Global, asked: Asked) -> Halt
    ensures { IsMemory result ⊎ IsAt asked result }
{
    match Box::new(alloc, asked) {
        Ok(asked) => Halt::Asks(asked),
        Err(_) => Halt::Refused(Error::MemoryError),
    }
}

/// A meter of a run, and why the run stops.
pub trait RunMeter: Meter {
    /// Why the run stops.
    type Halt: Drop + From<Error> + From<AllocError> + From<Self::Stop>;

    /// Whether the run stops at a call of the host's function of this name.
    ghost stops: { Self → List ℕ → Bool };

    /// What a halt means.
    ghost halt: { Self.Halt → declared };

    /// Whether the run stops at a call of the host's function of this name.
    fn stops_at(&self, name: &str) -> bool
        ensures { result ≡ stops self.now name.now };

    /// The halt at this call. A meter that stops at no call may be out of memory in its place.
    fn asks(&self, alloc: Global, asked: Asked) -> Self::Halt
        ensures { IsMemory (halt result) ⊎ IsAt asked (halt result) };

    /// The halt of a run that pauses. A run that counts nothing pauses only after 2^64 turns of the loop, which take
    /// centuries.
    fn pauses(&self) -> Self::Halt
        ensures { IsMemory (halt result) ⊎ (halt result ≡ Paused) };

    // What `?` makes of an error, of a lack of memory, and of the limit at which a meter stopped. A meter that counts
    // nothing stops at none.
    ghost refuses: { (e : error) (h : Self.Halt) → ⟦<Self::Halt as From<Error>>⟧.from_gives e h → halt h
        ≡ Refused e };

    ghost lacks_memory: { (e : lack) (h : Self.Halt) → ⟦<Self::Halt as From<AllocError>>⟧.from_gives e h
        → halt h ≡ Refused no_memory };

    ghost passes: { (stop : Self.Stop) (meter : Self)
        → (Self.metered meter).stopped ≡ Some (Self.limit stop) → (h : Self.Halt)
        → ⟦<Self::Halt as From<Self::Stop>>⟧.from_gives stop h → halt h ≡ Limits (Self.limit stop) };

    ghost halts: { (stop : Self.Stop) (h : Self.Halt) → ⟦<Self::Halt as From<Self::Stop>>⟧.from_gives stop h
        → (halt h ≡ Limits (Self.limit stop)) ⊎ (halt h ≡ Refused no_memory) };
}

impl RunMeter for NoMeter {
    type Halt = Error;

    ghost stops = { λ _ _. false };

    ghost halt = { λ e. Refused e };

    ghost refuses = { Prim.search rules };

    ghost lacks_memory = { Prim.search rules };

    ghost passes = { λ _ _ never. absurd (cc never) };

    ghost halts = { λ _ _ made. inr (ap Refused made) };

    #[inline(always)]
    fn stops_at(&self, _name: &str) -> bool {
        false
    }

    fn asks(&self, _alloc: Global, _asked: Asked) -> Error {
        Error::MemoryError
    }

    #[inline(always)]
    fn pauses(&self) -> Error {
        Error::MemoryError
    }
}

impl RunMeter for Budget {
    type Halt = Halt;

    ghost stops = { λ _ _. false };

    ghost halt = { λ h. h };

    ghost refuses = { λ _ _ made. made };

    ghost lacks_memory = { λ _ _ made. made };

    ghost passes = { λ _ _ _ _ made. made };

    ghost halts = { λ _ _ made. inl made };

    #[inline(always)]
    fn stops_at(&self, _name: &str) -> bool {
        false
    }

    fn asks(&self, alloc: Global, asked: Asked) -> Halt {
        halt_at(alloc, asked)
    }

    #[inline(always)]
    fn pauses(&self) -> Halt {
        Halt::Paused
    }
}
