//! Room for one pattern that is built while code runs.

use crate::pattern::Pattern;
use std::cell::OnceCell;
use std::marker::Model;

/// Room for one pattern. The pattern stays there once it is put in, so a matcher can borrow it while others are built.
#[derive(Drop)]
pub struct PatternRoom {
    pattern: OnceCell<Box<Pattern>>,
}

// Contracts see nothing of it: a pattern that is found there is checked for its source before it is used.
impl Model for PatternRoom {
    ghost use Rattle.std.specs.Prelude.{⊤};

    ghost Value = { ⊤ };

    ghost view = { λ _. tt };
}

impl PatternRoom {
    /// An empty room.
    #[inline(always)]
    pub fn new() -> PatternRoom {
        PatternRoom {
            pattern: OnceCell::new(),
        }
    }

    /// The pattern in the room, or `None`.
    #[inline(always)]
    pub fn pattern(&self) -> Option<&Pattern> {
        match self.pattern.get() {
            Some(pattern) => Some(&**pattern),
            None => None,
        }
    }

    /// Puts a pattern in. Returns the pattern if the room is full.
    pub fn put(&self, pattern: Box<Pattern>) -> Option<Box<Pattern>> {
        match self.pattern.set(pattern) {
            Ok(()) => None,
            Err(pattern) => Some(pattern),
        }
    }
}
