//! The outcome of a line.
ghost use Rattle.std.specs.Prelude.{◌≡◌};
ghost use Rattle.expr_records.specs.Outcomes.{is_kept, is_refused};

use expr_limits::{Limit, Limits};
use expr_value::{Error, Text};
use std::fmt;

/// A limit that an expression or its run passes, and the most that it allows. It prints as the name of the
/// limit, what was expected and what was found.
#[derive(Clone, Copy, Debug, PartialEq, Eq, Drop)]
pub struct PassedLimit {
    pub limit: Limit,
    pub most: u64,
}

impl PassedLimit {
    /// A limit among these. Without limits, the most is the greatest number of 64 bits.
    pub fn of(limits: Option<Limits>, limit: Limit) -> PassedLimit
        ensures { result.limit ≡ limit }
    {
        let most = match limits {
            Some(limits) => most_of(&limits, limit),
            None => u64::MAX,
        };
        PassedLimit { limit, most }
    }
}

/// The most that a limit allows.
fn most_of(limits: &Limits, limit: Limit) -> u64 {
    match limit {
        Limit::Nesting => limits.nesting as u64,
        Limit::Patterns => limits.patterns,
        Limit::Steps => limits.steps,
        Limit::Depth => limits.depth as u64,
        Limit::Size => limits.size,
    }
}

/// The name of a limit.
fn name_of(limit: Limit) -> &'static str {
    match limit {
        Limit::Nesting => "nesting",
        Limit::Patterns => "patterns",
        Limit::Steps => "steps",
        Limit::Depth => "depth",
        Limit::Size => "size",
    }
}

/// Why a record failed. It prints as the kind of the error and its message.
#[derive(Debug, Drop)]
pub enum Refusal {
    /// The line is longer than the bound.
    TooLong,
    /// An allocation for the line failed.
    NoMemory,
    /// The line is not UTF-8.
    NotText,
    /// The line is not JSON, or it has a number that isn't whole or doesn't fit in 64 bits.
    NotJson(Error),
    /// The JSON of the line is not an object.
    NotObject,
    /// The expression fails.
    Expression(Error),
    /// The run of the expression passes a limit.
    Passed(PassedLimit),
    /// The value of the expression is not a boolean.
    NotBoolean,
    /// The value of the expression can't be written as JSON.
    NotWritable(Error),
}

/// The outcome of a line.
#[derive(Drop)]
pub enum LineOutcome {
    /// The line has no record.
    Blank,
    /// The expression says not to keep the record.
    Dropped,
    /// The record is kept as it is.
    Kept,
    /// The record is counted.
    Counted,
    /// The record becomes this: the JSON of the expression's value.
    Rewritten(Text),
    /// The record has an error.
    Refused(Refusal),
}

impl LineOutcome {
    /// Whether the record is kept, counted or rewritten.
    pub fn is_kept(&self) -> bool
        ensures { result ≡ is_kept self.now }
    {
        match self {
            LineOutcome::Kept | LineOutcome::Counted | LineOutcome::Rewritten(_) => true,
            LineOutcome::Blank | LineOutcome::Dropped | LineOutcome::Refused(_) => false,
        }
    }

    /// Whether the record has an error.
    pub fn is_refused(&self) -> bool
        ensures { result ≡ is_refused self.now }
    {
        matches!(self, LineOutcome::Refused(_))
    }
}

impl fmt::Display for Refusal {
    fn fmt<W: fmt::Write>(&self, f: &mut fmt::Formatter<W>) -> fmt::Result {
        match self {
            Refusal::TooLong => write!(f, "record: the line is too long"),
            Refusal::NoMemory => write!(f, "memory: out of memory while reading the line"),
            Refusal::NotText => write!(f, "record: not UTF-8"),
            Refusal::NotJson(error) => write!(f, "record: {error}"),
            Refusal::NotObject => write!(f, "record: expected a JSON object"),
            Refusal::Expression(error) => write_refusal(f, error),
            Refusal::Passed(passed) => write!(f, "limit: {passed}"),
            Refusal::NotBoolean => write!(f, "result: expected true or false"),
            Refusal::NotWritable(error) => write!(f, "result: {error}"),
        }
    }
}

/// Writes an error of the expression, its kind first.
fn write_refusal<W: fmt::Write>(f: &mut fmt::Formatter<W>, error: &Error) -> fmt::Result {
    match error {
        Error::MemoryError => write!(f, "memory: {error}"),
        Error::RegexError(_) => write!(f, "pattern: {error}"),
        _ => write!(f, "evaluation: {error}"),
    }
}

impl fmt::Display for PassedLimit {
    fn fmt<W: fmt::Write>(&self, f: &mut fmt::Formatter<W>) -> fmt::Result {
        let name = name_of(self.limit);
        write!(f, "{name}: expected at most {}, found more", self.most)
    }
}
