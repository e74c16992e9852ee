//! The lines of a stream, one at a time.
ghost use Rattle.std.specs.Prelude.{◌≡◌, ℕ, List, [], ◌∷◌, ◌++◌, IfOk, MatchOption};
ghost use Rattle.expr_records.specs.LineSteps.{TakesBytes, IsNextLine};

use crate::line_buffer::LineBuffer;
use memchr::memchr;
use std::io::{self, BufRead, ErrorKind};

/// What one read from a stream gave.
#[derive(Clone, Copy, Debug, PartialEq, Eq)]
enum LineStep {
    /// Bytes of the line.
    Part,
    /// None, because a signal came.
    Interrupted,
    /// The rest of the line, and its line feed.
    LineFeed,
    /// The end of the stream.
    End,
}

/// Takes the bytes that are ready, up to the first line feed and including it.
fn take_ready<R: BufRead>(reader: &mut R, held: &mut LineBuffer) -> io::Result<LineStep>
    ensures taken { IfOk result
        (λ taken. TakesBytes taken (R.remaining reader.old) (R.remaining reader.new) held.old held.new) }
    ensures bound { held.new.bound ≡ held.old.bound }
{
    let ready = match reader.fill_buf() {
        Ok(ready) => ready,
        Err(error) => {
            return if error.kind() == ErrorKind::Interrupted {
                Ok(LineStep::Interrupted)
            } else {
                Err(error)
            };
        }
    };
    match memchr(b'\n', ready) {
        Some(place) => {
            held.add(&ready[..place]);
            reader.consume(place + 1);
            Ok(LineStep::LineFeed)
        }
        None => {
            let count = ready.len();
            held.add(ready);
            reader.consume(count);
            Ok(if count == 0 {
                LineStep::End
            } else {
                LineStep::Part
            })
        }
    }
}

/// Reads the next line, without its line feed, and returns whether there was one. A line that is longer than
/// the bound, or for which an allocation fails, is still read to its end.
///
/// # Errors
///
/// Returns the error of the reader. It tries an interrupted read again.
pub fn next_line<R: BufRead>(reader: &mut R, held: &mut LineBuffer) -> io::Result<bool>
    ensures next { IfOk result
        (λ more. IsNextLine more (R.remaining reader.old) (R.remaining reader.new) held.new) }
    ensures bound { held.new.bound ≡ held.old.bound }
{
    held.clear();
    let mut is_begun = false;
    for _ in 0..u64::MAX {
        match take_ready(reader, held)? {
            LineStep::Part => is_begun = true,
            LineStep::Interrupted => {}
            LineStep::LineFeed => return Ok(true),
            LineStep::End => return Ok(is_begun),
        }
    }
    Err(io::Error::from(ErrorKind::TimedOut))
}
