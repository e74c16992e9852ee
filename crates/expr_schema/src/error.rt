//! Why a text is no schema.
ghost use Rattle.std.specs.Prelude.{◌≡◌};
ghost use Rattle.expr_schema.specs.declared.error.SchemaError.TheVariants.{Memory};

use expr_value::Error;
use std::alloc::{AllocError, AllocFailed};
use std::fmt;

/// What a text of a schema has to go on with.
#[derive(Clone, Copy, Debug, PartialEq, Eq)]
pub enum Expected {
    Kind,
    Name,
    /// A name that the same list of names doesn't have yet.
    NewName,
    Colon,
    ClosingBracket,
    /// A comma or a closing brace.
    ClosingBrace,
    /// A comma or the end of the text.
    End,
    /// The quote that ends a name.
    ClosingQuote,
    /// One of the escapes `\"`, `\\`, `\n`, `\r` and `\t`.
    Escape,
    /// A kind without parts, since kinds may be nested no deeper.
    ScalarKind,
}

impl fmt::Display for Expected {
    fn fmt<W: fmt::Write>(&self, f: &mut fmt::Formatter<W>) -> fmt::Result {
        f.write_str(match self {
            Expected::Kind => "a kind, such as `int`, `[string]` or `{name: string}`",
            Expected::Name => "a name",
            Expected::NewName => "a name that isn't there yet",
            Expected::Colon => "`:`",
            Expected::ClosingBracket => "`]`",
            Expected::ClosingBrace => "`,` or `}`",
            Expected::End => "`,` or the end",
            Expected::ClosingQuote => "`\"` after the name",
            Expected::Escape => "an escape: `\\\"`, `\\\\`, `\\n`, `\\r` or `\\t`",
            Expected::ScalarKind => "a kind without parts, since kinds are nested too deeply",
        })
    }
}

/// Why a text is no schema.
#[derive(Debug, Drop)]
pub enum SchemaError {
    /// The text isn't a schema.
    Text {
        /// The place of the fault, in bytes from the start of the text.
        offset: usize,
        expected: Expected,
        /// What stands there. It is empty at the end of the text.
        found: String,
    },
    /// An allocation failed.
    Memory,
}

impl fmt::Display for SchemaError {
    fn fmt<W: fmt::Write>(&self, f: &mut fmt::Formatter<W>) -> fmt::Result {
        match self {
            SchemaError::Text {
                offset,
                expected,
                found,
            } => {
                write!(f, "expected {expected}, found ")?;
                if found.is_empty() {
                    f.write_str("the end of the text")?;
                } else {
                    write!(f, "`{found}`")?;
                }
                write!(f, " at byte {offset}")
            }
            SchemaError::Memory => f.write_str("out of memory"),
        }
    }
}

impl std::error::Error for SchemaError {}

impl From<AllocError> for SchemaError {
    ghost from_gives = { λ _ e. e ≡ Memory };

    fn from(_error: AllocError) -> SchemaError {
        SchemaError::Memory
    }
}

impl<T: Drop> From<AllocFailed<T>> for SchemaError {
    ghost from_gives = { λ _ e. e ≡ Memory };

    fn from(_error: AllocFailed<T>) -> SchemaError {
        SchemaError::Memory
    }
}

/// The calls that build kinds fail only if an allocation does.
impl From<Error> for SchemaError {
    ghost from_gives = { λ _ e. e ≡ Memory };

    fn from(_error: Error) -> SchemaError {
        SchemaError::Memory
    }
}
