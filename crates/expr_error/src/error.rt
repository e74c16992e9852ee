//! The errors of the library.
ghost use Rattle.expr_error.specs.declared.error.Error.TheVariants.{MemoryError, ExprError};
ghost use Rattle.expr_error.specs.ErrorKind.{evaluation, IsOfKind};
ghost use Rattle.std.specs.Prelude.{◌≡◌};

use std::alloc::{AllocError, AllocFailed, Global};
use std::fmt;

/// Why a call failed. Contracts speak of the kind of an error. Its message is for people.
#[derive(Debug, Drop)]
pub enum Error {
    /// A syntax error, with the byte offset of the first fault in the source.
    PestError(usize),
    /// The syntax is right, but an integer literal is 2^63 or more, or the syntax tree is higher than a given bound.
    /// Has a message.
    ParseError(String),
    /// An error of evaluation, or of a call with values that it does not take. Has a message.
    ExprError(String),
    /// A regular expression that does not build, for any reason but memory.
    RegexError(regex::Error),
    /// An allocation failed. Any function that returns a [`Result`] can return this error.
    MemoryError,
}

/// The result of a call of the library.
pub type Result<T> = std::result::Result<T, Error>;

/// An `ExprError` with this message, or `MemoryError` if there is no memory for the message.
pub fn refusal(alloc: Global, text: &str) -> Error
    ensures { IsOfKind result evaluation }
{
    match String::from_str(alloc, text) {
        Ok(text) => Error::ExprError(text),
        Err(_) => Error::MemoryError,
    }
}

impl fmt::Display for Error {
    fn fmt<W: fmt::Write>(&self, f: &mut fmt::Formatter<W>) -> fmt::Result {
        match self {
            Error::PestError(place) => write!(f, "syntax error at byte {place}"),
            Error::ParseError(message) => write!(f, "{message}"),
            Error::ExprError(message) => write!(f, "{message}"),
            Error::RegexError(error) => write!(f, "invalid regular expression: {error}"),
            Error::MemoryError => write!(f, "out of memory"),
        }
    }
}

impl std::error::Error for Error {}

impl From<AllocError> for Error {
    ghost from_gives = { λ _ e. e ≡ MemoryError };

    fn from(_error: AllocError) -> Error {
        Error::MemoryError
    }
}

impl<T: Drop> From<AllocFailed<T>> for Error {
    ghost from_gives = { λ _ e. e ≡ MemoryError };

    fn from(_error: AllocFailed<T>) -> Error {
        Error::MemoryError
    }
}

impl From<String> for Error {
    ghost from_gives = { λ message e. e ≡ ExprError message };

    fn from(message: String) -> Error {
        Error::ExprError(message)
    }
}

impl From<regex::Error> for Error {
    ghost use Rattle.expr_error.specs.Patterns.{error_of};

    ghost from_gives = { λ given e. e ≡ error_of given };

    fn from(error: regex::Error) -> Error {
        match error {
            regex::Error::OutOfMemory => Error::MemoryError,
            _ => Error::RegexError(error),
        }
    }
}
