//! The work on several streams: its state, what is written at the end, and the status.
ghost use Rattle.std.specs.Prelude.{◌≡◌, OnOk};
ghost use Rattle.std.specs.Io.KnownBytes.{Appends};
ghost use Rattle.expr_records.specs.Courses.{closing_text, course_after, is_last_stream, status_after};

use crate::query::Purpose;
use crate::record_filter::StreamEnd;
use crate::tally::Tally;
use std::io::{self, ErrorKind, Write};

/// The status if something can't be read or written.
pub const FAILED: u8 = 4;

/// How the work went, over the streams so far.
#[derive(Clone, Copy, Debug, PartialEq, Eq)]
pub enum Course {
    /// All was read and written, or the work stopped at a record with an error.
    Done,
    /// A stream couldn't be read to its end.
    Unread,
    /// Nobody reads the output any more.
    Unheard,
    /// The output can't be written.
    Unwritten,
}

impl StreamEnd {
    /// Whether this ending of a stream is the last: no further stream is read.
    pub fn is_last(&self) -> bool
        ensures { result ≡ is_last_stream self.now }
    {
        match self {
            StreamEnd::Whole | StreamEnd::Unread(_) => false,
            StreamEnd::Stopped | StreamEnd::Unwritten(_) => true,
        }
    }
}

impl Course {
    /// The state after one more stream, or after the end of the output, with this ending.
    pub fn after(self, end: &StreamEnd) -> Course
        ensures { result ≡ course_after self end.now }
    {
        match end {
            StreamEnd::Whole | StreamEnd::Stopped => self,
            StreamEnd::Unread(_) => Course::Unread,
            StreamEnd::Unwritten(error) => match error.kind() {
                ErrorKind::BrokenPipe => Course::Unheard,
                _ => Course::Unwritten,
            },
        }
    }

    /// The status of the program. It is the status of the records if they were read and written, or if nobody
    /// reads the output any more. Otherwise it is 4.
    pub fn status(self, tally: &Tally, seeks: bool) -> u8
        ensures { result ≡ status_after self tally.now seeks }
    {
        match self {
            Course::Done | Course::Unheard => tally.status(seeks),
            Course::Unread | Course::Unwritten => FAILED,
        }
    }
}

/// Writes what comes after all records, and flushes. If records are counted, that is the number of those kept
/// and a line feed.
///
/// # Errors
///
/// Returns the error of the writer.
pub fn finish<W: Write>(out: &mut W, purpose: Purpose, tally: &Tally) -> io::Result<()>
    ensures { OnOk result (Appends (W.contents out.old) (W.contents out.new)
        (closing_text purpose tally.now.kept)) }
{
    if let Purpose::Count(_) = purpose {
        let kept = tally.kept;
        writeln!(out, "{kept}")?;
    }
    out.flush()
}
