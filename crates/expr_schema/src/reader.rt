//! Reads a schema from a text.
ghost use Rattle.std.specs.Prelude.{◌≡◌, ◌≤◌, length};
ghost use Rattle.expr_schema.specs.Texts.{is_bare_byte};

use crate::error::{Expected, SchemaError};
use crate::kind::{FieldKind, Fields, Kind};
use expr_value::Text;
use std::alloc::Global;

/// How deep kinds may be nested in a text.
pub const MAX_DEPTH: usize = 100;

/// Reads the names of a schema from a text.
///
/// # Errors
///
/// Returns `Text` with the first fault of the text, or `Memory` if an allocation fails.
pub(crate) fn read_fields(alloc: Global, text: &str) -> Result<Fields, SchemaError> {
    let mut reader = Reader {
        rest: text.as_bytes(),
        length: text.len(),
        alloc,
    };
    reader.fields(None, MAX_DEPTH)
}

/// Reads a kind from a text.
///
/// # Errors
///
/// Returns `Text` with the first fault of the text, or `Memory` if an allocation fails.
pub(crate) fn read_kind(alloc: Global, text: &str) -> Result<Kind, SchemaError> {
    let mut reader = Reader {
        rest: text.as_bytes(),
        length: text.len(),
        alloc,
    };
    let kind = reader.kind(MAX_DEPTH)?;
    if reader.closes(None) {
        return Ok(kind);
    }
    Err(reader.unexpected(Expected::End))
}

/// What is left of a text.
#[derive(Drop)]
struct Reader<'t> {
    rest: &'t [u8],
    /// Length of the whole text, in bytes.
    length: usize,
    alloc: Global,
}

impl<'t> Reader<'t> {
    /// Reads names with their kinds up to a closing brace, or to the end of the text.
    #[cycle(read)]
    fn fields(&mut self, close: Option<u8>, depth: usize) -> Result<Fields, SchemaError> {
        let mut fields = Fields::new(self.alloc);
        for _ in 0..u64::MAX {
            if self.closes(close) {
                return Ok(fields);
            }
            let is_last = self.entry(&mut fields, depth)?;
            if !self.take(b',') || is_last {
                break;
            }
        }
        if self.closes(close) {
            return Ok(fields);
        }
        Err(self.unexpected(match close {
            Some(_) => Expected::ClosingBrace,
            None => Expected::End,
        }))
    }

    /// Reads a name with its kind, or what may stand at the other names. Returns whether it was the latter.
    #[cycle(read)]
    fn entry(&mut self, fields: &mut Fields, depth: usize) -> Result<bool, SchemaError> {
        if self.take_ellipsis() {
            let kind = self.kind_of_others(depth)?;
            fields.open(self.alloc, kind)?;
            return Ok(true);
        }
        self.skip_gap();
        let start = self.rest;
        let name = self.name()?;
        if !fields.lacks(&name) {
            self.rest = start;
            return Err(self.unexpected(Expected::NewName));
        }
        let required = !self.take(b'?');
        if !self.take(b':') {
            return Err(self.unexpected(Expected::Colon));
        }
        let kind = self.kind(depth)?;
        fields.insert(name, FieldKind { kind, required })?;
        Ok(false)
    }

    /// Reads the kind behind an ellipsis. Without one it is any kind.
    #[cycle(read)]
    fn kind_of_others(&mut self, depth: usize) -> Result<Kind, SchemaError> {
        if self.take(b':') {
            return self.kind(depth);
        }
        Ok(Kind::Any)
    }

    /// Reads a kind.
    #[cycle(read)]
    fn kind(&mut self, depth: usize) -> Result<Kind, SchemaError> {
        let kind = self.base(depth)?;
        if self.take(b'?') {
            return Ok(Kind::nilable(self.alloc, kind)?);
        }
        Ok(kind)
    }

    /// Reads a kind without a `?` after it.
    #[cycle(read)]
    fn base(&mut self, depth: usize) -> Result<Kind, SchemaError> {
        self.skip_gap();
        let start = self.rest;
        if self.take(b'[') {
            if depth == 0 {
                self.rest = start;
                return Err(self.unexpected(Expected::ScalarKind));
            }
            return self.array(depth - 1);
        }
        if self.take(b'{') {
            if depth == 0 {
                self.rest = start;
                return Err(self.unexpected(Expected::ScalarKind));
            }
            return self.map(depth - 1);
        }
        self.word_kind()
    }

    /// Reads what follows an opening bracket.
    #[cycle(read)]
    fn array(&mut self, depth: usize) -> Result<Kind, SchemaError> {
        let item = self.kind(depth)?;
        if !self.take(b']') {
            return Err(self.unexpected(Expected::ClosingBracket));
        }
        Ok(Kind::array(self.alloc, item)?)
    }

    /// Reads what follows an opening brace.
    #[cycle(read)]
    fn map(&mut self, depth: usize) -> Result<Kind, SchemaError> {
        if !self.take(b'*') {
            return Ok(Kind::Map(self.fields(Some(b'}'), depth)?));
        }
        if !self.take(b':') {
            return Err(self.unexpected(Expected::Colon));
        }
        let item = self.kind(depth)?;
        if !self.take(b'}') {
            return Err(self.unexpected(Expected::ClosingBrace));
        }
        Ok(Kind::keyed_map(self.alloc, item)?)
    }

    /// Reads the word of a kind without parts.
    fn word_kind(&mut self) -> Result<Kind, SchemaError> {
        let start = self.rest;
        match kind_of_word(self.word()) {
            Some(kind) => Ok(kind),
            None => {
                self.rest = start;
                Err(self.unexpected(Expected::Kind))
            }
        }
    }

    /// Reads a name: a word, or a string between double quotes.
    fn name(&mut self) -> Result<Text, SchemaError> {
        self.skip_gap();
        if self.take(b'"') {
            return self.quoted_name();
        }
        let start = self.rest;
        match std::str::from_utf8(self.word()) {
            Ok(name) if !name.is_empty() => Ok(Text::copy(self.alloc, name)?),
            _ => {
                self.rest = start;
                Err(self.unexpected(Expected::Name))
            }
        }
    }

    /// Reads what follows the first quote of a name.
    fn quoted_name(&mut self) -> Result<Text, SchemaError> {
        let mut bytes = Vec::new(self.alloc);
        for _ in 0..u64::MAX {
            match self.next_byte() {
                Some(b'"') => break,
                Some(b'\\') => bytes.push(self.escaped()?)?,
                Some(byte) => bytes.push(byte)?,
                None => return Err(self.unexpected(Expected::ClosingQuote)),
            }
        }
        match String::from_utf8(bytes) {
            Ok(name) => Ok(Text::from_string(name)),
            Err(_) => Err(self.unexpected(Expected::Name)),
        }
    }

    /// Reads what follows the backslash of an escape.
    fn escaped(&mut self) -> Result<u8, SchemaError> {
        let start = self.rest;
        match self.next_byte() {
            Some(b'"') => Ok(b'"'),
            Some(b'\\') => Ok(b'\\'),
            Some(b'n') => Ok(b'\n'),
            Some(b'r') => Ok(b'\r'),
            Some(b't') => Ok(b'\t'),
            _ => {
                self.rest = start;
                Err(self.unexpected(Expected::Escape))
            }
        }
    }

    /// Reads a word, which may be empty.
    fn word(&mut self) -> &'t [u8] {
        let start = self.rest;
        let length = word_length(start);
        self.rest = &start[length..];
        &start[..length]
    }

    /// Whether the next byte ends the fields. A closing brace is read.
    fn closes(&mut self, close: Option<u8>) -> bool {
        match close {
            Some(byte) => self.take(byte),
            None => {
                self.skip_gap();
                self.rest.is_empty()
            }
        }
    }

    /// Reads a byte, after a gap, if it is this one.
    fn take(&mut self, byte: u8) -> bool {
        self.skip_gap();
        match self.rest.split_first() {
            Some((first, rest)) if *first == byte => {
                self.rest = rest;
                true
            }
            _ => false,
        }
    }

    /// Reads an ellipsis, after a gap, if there is one.
    fn take_ellipsis(&mut self) -> bool {
        self.skip_gap();
        match self.rest {
            [b'.', b'.', b'.', rest @ ..] => {
                self.rest = rest;
                true
            }
            _ => false,
        }
    }

    /// Reads the next byte.
    fn next_byte(&mut self) -> Option<u8> {
        let (first, rest) = self.rest.split_first()?;
        self.rest = rest;
        Some(*first)
    }

    /// Passes over spaces, tabs and ends of lines.
    fn skip_gap(&mut self) {
        while let Some((first, rest)) = self.rest.split_first() {
            if !matches!(*first, b' ' | b'\t' | b'\r' | b'\n') {
                break;
            }
            self.rest = rest;
        }
    }

    /// The error that something else was expected here.
    fn unexpected(&self, expected: Expected) -> SchemaError {
        let offset = self.length.saturating_sub(self.rest.len());
        let length = word_length(self.rest).max(1);
        let shown = &self.rest[..length.min(self.rest.len())];
        match String::from_utf8_lossy(self.alloc, shown) {
            Ok(found) => SchemaError::Text {
                offset,
                expected,
                found,
            },
            Err(_) => SchemaError::Memory,
        }
    }
}

/// How many bytes a text begins with that may stand in a word.
fn word_length(bytes: &[u8]) -> usize
    ensures { result ≤ length bytes.now }
{
    let mut count = 0usize;
    for byte in bytes {
        if !is_word_byte(*byte) {
            break;
        }
        count += 1;
    }
    count
}

/// Whether a byte may stand in a word: a letter or a digit of ASCII, an underscore, or a byte of another character.
pub(crate) fn is_word_byte(byte: u8) -> bool
    ensures { result ≡ is_bare_byte byte }
{
    byte == b'_' || byte.is_ascii_alphanumeric() || byte >= 128
}

/// The kind of a word, or `None`.
fn kind_of_word(word: &[u8]) -> Option<Kind> {
    match word {
        b"any" => Some(Kind::Any),
        b"never" => Some(Kind::Never),
        b"nil" => Some(Kind::Nil),
        b"bool" => Some(Kind::Bool),
        b"int" => Some(Kind::Integer),
        b"string" => Some(Kind::String),
        b"bytes" => Some(Kind::Bytes),
        b"duration" => Some(Kind::Duration),
        b"month" => Some(Kind::Month),
        b"weekday" => Some(Kind::Weekday),
        b"datetime" => Some(Kind::DateTime),
        b"timezone" => Some(Kind::Timezone),
        _ => None,
    }
}
