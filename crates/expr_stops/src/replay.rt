//! A host that replays the replies of earlier calls.
ghost use Rattle.std.specs.Prelude.{◌≡◌};

use crate::names::StopNames;
use crate::replies::CallReply;
use expr_meaning::{ExprCall, Functions};
use expr_value::{DateTimeValue, Error, Result, TimezoneValue, Value};
use std::cell::Cell;

/// A call at which a run stopped, and its number among the run's calls of registered names, from 0.
#[derive(Drop)]
pub struct Stop {
    pub call: ExprCall,
    pub place: usize,
}

/// A host that adds functions and takes their results from a list. The first call gets the first reply, and
/// so on, as long as each call has the name of the recorded call and equal arguments. At a call without such
/// a reply the run gets `MemoryError`, and the call is recorded.
#[derive(Drop)]
pub struct Replay<'a, H> {
    pub host: &'a H,
    pub names: &'a StopNames,
    pub given: &'a [CallReply],
    called: Cell<usize>,
    stop: Cell<Option<Stop>>,
}

impl<'a, H: Functions> Replay<'a, H> {
    /// Creates a host for one run.
    pub fn new(host: &'a H, names: &'a StopNames, given: &'a [CallReply]) -> Replay<'a, H>
        ensures host { result.host.now ≡ host.now }
        ensures names { result.names.now ≡ names.now }
        ensures given { result.given.now ≡ given.now }
    {
        Replay {
            host,
            names,
            given,
            called: Cell::new(0),
            stop: Cell::new(None),
        }
    }

    /// Takes the first call that had no reply.
    pub fn take_stop(&self) -> Option<Stop> {
        self.stop.replace(None)
    }

    /// Records a call, unless an earlier one is recorded.
    fn stop_at(&self, stop: Stop) {
        let first = self.stop.replace(None).unwrap_or(stop);
        self.stop.set(Some(first));
    }
}

impl<'a, H: Functions> Functions for Replay<'a, H> {
    ghost use Rattle.expr_stops.specs.Stops.{host_replying, is_named};

    ghost host = { λ replay. host_replying (H.host replay.host.now)
        (is_named replay.names.now) replay.given.now };

    fn has(&self, name: &str) -> bool {
        self.names.has(name) || self.host.has(name)
    }

    fn ask(&self, call: ExprCall) -> Result<Value> {
        if !self.names.has(&call.ident) {
            return self.host.ask(call);
        }
        let place = self.called.get();
        self.called.set(place.saturating_add(1));
        if let Some(given) = self.given.get(place) {
            if given.is_to(&call) {
                return given.reply.result();
            }
        }
        self.stop_at(Stop { call, place });
        Err(Error::MemoryError)
    }

    fn zone(&self, name: &str) -> Option<&TimezoneValue> {
        self.host.zone(name)
    }

    fn moment(&self) -> Option<&DateTimeValue> {
        self.host.moment()
    }
}
