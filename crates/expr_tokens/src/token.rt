//! The tokens.
use crate::reserved::Reserved;
use crate::sign::Sign;
use expr_value::{Items, Text};

/// A token of the language.
#[derive(Drop)]
pub enum Token {
    /// An integer literal, or `None` for one of 2^63 or more.
    Integer(Option<i64>),
    /// A word that isn't reserved.
    Word(Text),
    /// A reserved word.
    Reserved(Reserved),
    /// A name with `#`, such as `#` or `#index`, the `#` included.
    Hash(Text),
    /// The content of a string in `"` or `'`, with its escapes replaced.
    Quoted(Text),
    /// The content of a string in backquotes.
    Raw(Text),
    /// The content of a bytes literal.
    Bytes(Items<u8>),
    /// An operator or punctuation mark.
    Sign(Sign),
}
