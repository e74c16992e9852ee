//! A filter for the records of a stream.
ghost use Rattle.std.specs.Prelude.{◌≡◌, ℕ, List, IfOk, OnOk, OnErr};
ghost use Rattle.std.specs.Io.KnownBytes.{Appends};
ghost use Rattle.expr_records.specs.LineBuffers.{BufferHolds};
ghost use Rattle.expr_records.specs.Outcomes.{line_output};
ghost use Rattle.expr_records.specs.Filtered.{LineComesTo, Settles, Filters};

use crate::line_buffer::{LineBuffer, LineState};
use crate::lines::next_line;
use crate::outcome::{LineOutcome, Refusal};
use crate::tally::Tally;
use expr_encoding::JsonReader;
use std::alloc::Global;
use std::io::{self, BufRead, ErrorKind, Write};

/// Decides the outcome of a line.
pub trait Judge {
    ghost use Rattle.std.specs.Prelude.{List, ℕ};
    ghost use Rattle.expr_records.specs.declared.outcome.LineOutcome.{LineOutcome as Result};

    /// The outcomes that a line may have.
    ghost judged: { Self → List ℕ → Result → Type 0 };

    /// Returns the outcome of a line, without its line feed. The JSON reader is passed in so that its memory
    /// is used again.
    fn judge(&mut self, alloc: Global, reader: &mut JsonReader, line: &[u8]) -> LineOutcome
        ensures judged { judged self.old line.now result }
        ensures same { self.new ≡ self.old };
}

/// How the reading of a stream ended.
#[derive(Debug, Drop)]
pub enum StreamEnd {
    /// All of it was read.
    Whole,
    /// It stopped at a record with an error.
    Stopped,
    /// The rest of it can't be read.
    Unread(io::Error),
    /// The output can't be written.
    Unwritten(io::Error),
}

/// Filters streams of records by a judge. It writes lines to one writer and errors to the other.
#[derive(Drop)]
pub struct RecordFilter<J, W, E> {
    pub judge: J,
    /// Whether to stop a stream at a record with an error.
    pub stops: bool,
    pub held: LineBuffer,
    pub reader: JsonReader,
    pub out: W,
    pub err: E,
    pub tally: Tally,
}

/// Writes what remains of a line with this outcome.
fn put<W: Write>(out: &mut W, line: &[u8], outcome: &LineOutcome) -> io::Result<()>
    ensures { OnOk result (Appends (W.contents out.old) (W.contents out.new)
        (line_output line.now outcome.now)) }
{
    match outcome {
        LineOutcome::Kept => {
            out.write_all(line)?;
            out.write_all(b"\n")
        }
        LineOutcome::Rewritten(text) => {
            out.write_all(text.as_str().as_bytes())?;
            out.write_all(b"\n")
        }
        LineOutcome::Blank
        | LineOutcome::Dropped
        | LineOutcome::Counted
        | LineOutcome::Refused(_) => Ok(()),
    }
}

/// Decides the outcome of a line. Also returns whether what remains of the line could be written.
fn outcome_of_line<J: Judge, W: Write>(
    alloc: Global,
    judge: &mut J,
    reader: &mut JsonReader,
    held: &LineBuffer,
    out: &mut W,
) -> (LineOutcome, io::Result<()>)
    ensures comes { (line : List ℕ) → BufferHolds held.now line
        → LineComesTo held.now.bound (J.judged judge.old) line result.0 }
    ensures output { OnOk result.1 ((line : List ℕ) → BufferHolds held.now line
        → Appends (W.contents out.old) (W.contents out.new) (line_output line result.0)) }
    ensures same { judge.new ≡ judge.old }
{
    match held.state {
        LineState::Fits => {
            let line = held.bytes.as_slice();
            let outcome = judge.judge(alloc, reader, line);
            let written = put(out, line, &outcome);
            (outcome, written)
        }
        LineState::TooLong => (LineOutcome::Refused(Refusal::TooLong), Ok(())),
        LineState::NoMemory => (LineOutcome::Refused(Refusal::NoMemory), Ok(())),
    }
}

impl<J: Judge, W: Write, E: Write> RecordFilter<J, W, E> {
    /// Processes the line in the buffer, and returns whether the work goes on.
    fn settle(&mut self, alloc: Global, name: &str, number: u64) -> io::Result<bool>
        ensures settled { IfOk result (λ goes_on. Settles (J.judged self.old.judge) self.old.held
            self.old.stops (W.contents self.old.out) (W.contents self.new.out)
            self.old.tally self.new.tally goes_on) }
        ensures judge { self.new.judge ≡ self.old.judge }
        ensures bound { self.new.held.bound ≡ self.old.held.bound }
        ensures stops { self.new.stops ≡ self.old.stops }
        ensures tally { OnErr result (self.new.tally ≡ self.old.tally) }
    {
        let (outcome, written) = outcome_of_line(
            alloc,
            &mut self.judge,
            &mut self.reader,
            &self.held,
            &mut self.out,
        );
        written?;
        self.tally.add(&outcome);
        if let LineOutcome::Refused(refusal) = &outcome {
            let _ = writeln!(self.err, "{name}:{number}: {refusal}");
        }
        Ok(!(self.stops && outcome.is_refused()))
    }

    /// Reads a stream to its end, and writes what remains of its lines. It reports each error with the
    /// stream's name and the line's number, from 1. If a report can't be written, nothing else changes.
    pub fn process<R: BufRead>(&mut self, alloc: Global, name: &str, reader: &mut R) -> StreamEnd
        ensures filtered { Filters (J.judged self.old.judge) self.old.held.bound self.old.stops
            (R.remaining reader.old) (W.contents self.old.out) (W.contents self.new.out)
            self.old.tally self.new.tally result }
        ensures judge { self.new.judge ≡ self.old.judge }
        ensures bound { self.new.held.bound ≡ self.old.held.bound }
        ensures stops { self.new.stops ≡ self.old.stops }
    {
        for number in 1..u64::MAX {
            match next_line(reader, &mut self.held) {
                Ok(true) => {}
                Ok(false) => return StreamEnd::Whole,
                Err(error) => return StreamEnd::Unread(error),
            }
            match self.settle(alloc, name, number) {
                Ok(true) => {}
                Ok(false) => return StreamEnd::Stopped,
                Err(error) => return StreamEnd::Unwritten(error),
            }
        }
        StreamEnd::Unread(io::Error::from(ErrorKind::TimedOut))
    }
}
