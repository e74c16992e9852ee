//! The bytes of a line as they are read.
ghost use Rattle.std.specs.Prelude.{◌≡◌, ◌++◌, [], ℕ, List};
ghost use Rattle.expr_records.specs.LineBuffers.{Holds};

use std::alloc::Global;

/// How the bytes that came of a line are held.
#[derive(Clone, Copy, Debug, PartialEq, Eq)]
pub enum LineState {
    /// All of them are there.
    Fits,
    /// There are more of them than the bound, and they are let go.
    TooLong,
    /// A growth was refused for them, and they are let go.
    NoMemory,
}

/// A line as far as it was read, no longer than a bound in bytes. Its memory is used again for the next one.
#[derive(Drop)]
pub struct LineBuffer {
    pub bytes: Vec<u8>,
    pub bound: usize,
    pub state: LineState,
}

impl LineBuffer {
    /// No bytes yet. It takes no memory.
    pub fn new(alloc: Global, bound: usize) -> LineBuffer
        ensures empty { Holds result [] }
        ensures bound { result.bound ≡ bound }
    {
        LineBuffer {
            bytes: Vec::new(alloc),
            bound,
            state: LineState::Fits,
        }
    }

    /// Lets go of what is held, for the next line.
    pub fn clear(&mut self)
        ensures empty { Holds self.new [] }
        ensures bound { self.new.bound ≡ self.old.bound }
    {
        self.bytes.clear();
        self.state = LineState::Fits;
    }

    /// Adds bytes to those that came.
    pub fn add(&mut self, part: &[u8])
        ensures added { (bytes : List ℕ) → Holds self.old bytes → Holds self.new (bytes ++ part.now) }
        ensures bound { self.new.bound ≡ self.old.bound }
    {
        if self.state != LineState::Fits {
            return;
        }
        if part.len() > self.bound.saturating_sub(self.bytes.len()) {
            self.state = LineState::TooLong;
        } else if self.bytes.extend_from_slice(part).is_err() {
            self.state = LineState::NoMemory;
        }
    }
}
