//! The arena for the lists of a kept machine.
use bumpalo::Bump;
use expr_lowering::{Code, Pointer};
use expr_pattern::Pattern;
use expr_value::Value;
use std::alloc::{AllocError, Global};
use std::marker::Model;

/// How many bytes the arena has for an instruction: an entry of a stack and a value that it owns, a slot and
/// a value in the kept list. The lists may have doubled and moved.
const BYTES_OF_ONE: usize = 256;

/// The arena for the lists of a kept machine. It is allocated once, and each run has all of it. If a run
/// needs more, a larger one replaces it.
#[derive(Drop)]
pub struct ListArena {
    arena: Option<Bump>,
    /// The free bytes of the arena when it holds no list.
    whole: usize,
}

// Contracts don't see the arena: its content is dropped when a run ends.
impl Model for ListArena {
    ghost use Rattle.std.specs.Prelude.{⊤};

    ghost Value = { ⊤ };

    ghost view = { λ _. tt };
}

impl ListArena {
    /// Creates an arena without memory.
    #[inline(always)]
    pub fn new() -> ListArena {
        ListArena {
            arena: None,
            whole: 0,
        }
    }

    /// The allocator for the lists of a run. The first call allocates the arena.
    ///
    /// # Errors
    ///
    /// Returns `AllocError` if an allocation fails.
    #[inline(always)]
    pub fn lists<L: Pointer<Value>, N: Pointer<String>, K: Pointer<Pattern>>(
        &mut self,
        alloc: Global,
        code: &Code<L, N, K>,
    ) -> Result<&Bump, AllocError> {
        if self.arena.is_none() {
            self.take(alloc, code)?;
        }
        match &self.arena {
            Some(arena) => Ok(arena),
            None => Err(AllocError),
        }
    }

    /// Allocates the arena for this code.
    #[inline(never)]
    fn take<L: Pointer<Value>, N: Pointer<String>, K: Pointer<Pattern>>(
        &mut self,
        alloc: Global,
        code: &Code<L, N, K>,
    ) -> Result<(), AllocError> {
        let arena = Bump::try_with_capacity(alloc, room_of(code))?;
        self.whole = arena.chunk_capacity();
        self.arena = Some(arena);
        Ok(())
    }

    /// Frees all of the arena. No list may be left in it.
    #[inline(always)]
    pub fn clear(&mut self) {
        if let Some(arena) = &self.arena {
            if arena.chunk_capacity() == self.whole {
                return;
            }
        }
        self.reset();
    }

    /// Frees all of the arena after a list left something behind.
    #[inline(never)]
    fn reset(&mut self) {
        if let Some(arena) = &mut self.arena {
            let _ = arena.reset();
            self.whole = arena.chunk_capacity();
        }
    }
}

/// How many bytes the lists of a run may take. A later block has a frame, and starts with up to three more slots.
fn room_of<L: Pointer<Value>, N: Pointer<String>, K: Pointer<Pattern>>(
    code: &Code<L, N, K>,
) -> usize {
    let mut count = code.first.len();
    for block in &code.later {
        count = count.saturating_add(block.len()).saturating_add(5);
    }
    count.saturating_mul(BYTES_OF_ONE)
}
