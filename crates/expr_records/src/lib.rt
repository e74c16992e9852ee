//! Records, one JSON object a line, that an expression filters, counts or rewrites.
#![tactic(auto)]

mod course;
mod judging;
mod line_buffer;
mod lines;
mod names;
mod outcome;
mod query;
mod record;
mod record_filter;
mod tally;

pub use course::{Course, FAILED, finish};
pub use expr_encoding::JsonReader;
pub use line_buffer::{LineBuffer, LineState};
pub use lines::next_line;
pub use names::bind;
pub use outcome::{LineOutcome, PassedLimit, Refusal};
pub use query::{Purpose, Query, RecordMachine, code_of_text};
pub use record::{Record, record_of};
pub use record_filter::{Judge, RecordFilter, StreamEnd};
pub use tally::Tally;
