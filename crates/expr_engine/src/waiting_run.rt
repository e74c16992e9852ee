//! The run that waits for a host's reply.
ghost use Rattle.std.specs.Prelude.{◌≡◌, [], None};
ghost use Rattle.expr_stops.specs.Stops.{nothing_used, replies_of, used_of, waiting_call_of};

use expr_exchange::Handle;
use expr_stops::{Stops, Used};
use std::alloc::Global;

/// A run of a program: its handles, the replies that it has, and the call that waits for one, if there is
/// one.
#[derive(Drop)]
pub struct WaitingRun {
    pub program: Handle,
    pub environment: Handle,
    pub context: Handle,
    pub stops: Stops,
}

impl WaitingRun {
    /// No run. It allocates no memory.
    pub fn new(alloc: Global) -> WaitingRun
        ensures waits { waiting_call_of result.stops ≡ None }
        ensures used { used_of result.stops ≡ nothing_used }
    {
        let nothing = Handle {
            tag: 0,
            place: 0,
            number: u64::MAX,
        };
        WaitingRun {
            program: nothing,
            environment: nothing,
            context: nothing,
            stops: Stops::new(alloc),
        }
    }

    /// Starts a run with these handles and no replies. It used this much of its limits.
    #[inline(always)]
    pub fn begin(&mut self, program: Handle, environment: Handle, context: Handle, used: Used)
        ensures program { self.new.program ≡ program }
        ensures environment { self.new.environment ≡ environment }
        ensures context { self.new.context ≡ context }
        ensures given { replies_of self.new.stops ≡ [] }
        ensures waits { waiting_call_of self.new.stops ≡ None }
        ensures used { used_of self.new.stops ≡ used }
    {
        self.program = program;
        self.environment = environment;
        self.context = context;
        self.stops.forget();
        self.stops.note_used(used);
    }
}
