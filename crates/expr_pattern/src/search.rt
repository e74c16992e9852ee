//! Searches for a pattern: one that is kept with the pattern, and one for a single short string.
ghost use Rattle.std.specs.Prelude.{◌≡◌, Some, IfOk, IfSome, string_bytes};
ghost use Rattle.regex_dfa.specs.Search.{IsForwardFor};
ghost use Rattle.expr_pattern.specs.Meaning.{pattern_answer};

use crate::compiled::Compiled;
use crate::matcher::is_character_boundary;
use regex_dfa::{End, Forward};
use regex_vm::Backtracker;
use std::alloc::{AllocError, Global};
use std::rc::Rc;

/// The most pairs of an offset and a state that a search tries if it builds nothing.
const FEW: usize = 1 << 10;

/// The most bytes of states that a search keeps.
const BUDGET: usize = 1 << 17;

/// An automaton for a pattern, which builds its states as it searches. It shares the compiled pattern and so borrows
/// nothing.
#[derive(Drop)]
pub struct Search {
    compiled: Rc<Compiled>,
    forward: Forward,
    ghost own: { IsForwardFor forward compiled.value.program.dfa },
}

impl Search {
    /// A search without states.
    pub(crate) fn new(alloc: Global, compiled: &Rc<Compiled>) -> Result<Search, AllocError>
        ensures { IfOk result (λ s. s.compiled.value ≡ compiled.now.value) }
    {
        let compiled = compiled.clone()?;
        let forward = Forward::with_budget(alloc, &compiled.as_ref().program.dfa, false, BUDGET)?;
        Ok(Search { compiled, forward })
    }

    /// The source of the pattern.
    pub(crate) fn text(&self) -> &str
        ensures { result.now ≡ string_bytes self.now.compiled.value.source }
    {
        self.compiled.as_ref().source.as_str()
    }

    /// Whether the pattern matches anywhere in a string, or `None` if the automaton can't decide.
    pub(crate) fn answer(&mut self, text: &str) -> Option<bool>
        ensures { IfSome result (λ b. pattern_answer
            (string_bytes self.old.compiled.value.source) text.now ≡ Some b) }
    {
        let hay = text.as_bytes();
        let program = &self.compiled.as_ref().program;
        match self
            .forward
            .find_end(&program.dfa, hay, 0, hay.len(), false, true)
        {
            End::NoMatch => Some(false),
            // A match that isn't empty begins at a character.
            End::At(_) if program.min_len > 0 => Some(true),
            End::At(_) => self.answer_at_start(text),
            End::Idle(_) | End::GaveUp => None,
        }
    }

    /// Whether the pattern matches at the start of a string, for a pattern that can match the empty string. Elsewhere
    /// an empty match may lie inside a character.
    fn answer_at_start(&mut self, text: &str) -> Option<bool>
        ensures { IfSome result (λ b. pattern_answer
            (string_bytes self.old.compiled.value.source) text.now ≡ Some b) }
    {
        let hay = text.as_bytes();
        let program = &self.compiled.as_ref().program;
        match self
            .forward
            .find_end(&program.dfa, hay, 0, hay.len(), true, true)
        {
            End::At(_) => Some(true),
            End::NoMatch | End::Idle(_) | End::GaveUp => None,
        }
    }
}

/// Whether a pattern matches anywhere in a string, without building anything for later searches. `None` if that may
/// take long.
pub(crate) fn answer_once(alloc: Global, compiled: &Compiled, text: &str) -> Option<bool>
    ensures { IfSome result (λ b. pattern_answer (string_bytes compiled.now.source) text.now ≡ Some b) }
{
    let hay = text.as_bytes();
    let nfa = &compiled.program.dfa.nfa;
    if hay.len().saturating_mul(nfa.states.len()) > FEW {
        return None;
    }
    let mut search = Backtracker::new(alloc);
    let Ok(found) = search.find(nfa, hay, 0, hay.len(), hay.len(), &mut []) else {
        return None;
    };
    match found {
        None => Some(false),
        Some((from, _)) if is_character_boundary(hay, from) => Some(true),
        Some(_) => None,
    }
}
