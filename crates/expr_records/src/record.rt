//! Records: JSON objects whose members are names for the expression.
ghost use Rattle.std.specs.Prelude.{◌≡◌, IfOk, IfErr, Some};
ghost use Rattle.std.specs.List.{list_all};
ghost use Rattle.expr_records.specs.Lines.{is_space, line_text};
ghost use Rattle.expr_records.specs.Records.{IsRecord, MayRefuseText, members_of};

use crate::outcome::Refusal;
use expr_context::{Context, ContextProvider};
use expr_encoding::{JsonReader, Members};
use expr_value::{Result, Value};
use std::alloc::Global;

/// The byte order mark that some systems put at the start of a UTF-8 file.
const MARK: &[u8] = b"\xEF\xBB\xBF";

/// The members of a record, and the names that come before them. `$env` is the record alone.
#[derive(Drop)]
pub struct Record<'t, 'n> {
    pub members: Members<'t>,
    pub names: &'n Context,
}

impl<'t, 'n> ContextProvider for Record<'t, 'n> {
    ghost use Rattle.expr_records.specs.Records.{record_context};

    ghost context = { λ r. record_context r.names.now r.members };

    fn get(&self, key: &str) -> Option<&Value> {
        match self.names.get(key) {
            Some(value) => Some(value),
            None => self.members.get(key),
        }
    }

    fn to_context(&self, alloc: Global) -> Result<Context> {
        self.members.to_context(alloc)
    }
}

/// A line without the byte order mark at its start.
pub fn text_of(line: &[u8]) -> &[u8]
    ensures { result.now ≡ line_text line.now }
{
    match line.strip_prefix(MARK) {
        Some(rest) => rest,
        None => line,
    }
}

/// Whether there are only spaces, tabs and carriage returns.
pub fn is_blank(text: &[u8]) -> bool
    ensures { result ≡ list_all is_space text.now }
{
    text.iter()
        .all(|byte| matches!(*byte, b' ' | b'\t' | b'\r'))
}

/// The members of the object that a string of JSON holds.
fn object_of<'t>(
    alloc: Global,
    reader: &'t mut JsonReader,
    text: &'t str,
) -> std::result::Result<Members<'t>, Refusal>
    ensures ok { IfOk result (λ members. members_of text.now ≡ Some members) }
    ensures err { IfErr result (λ refusal. MayRefuseText text.now refusal) }
{
    match reader.members(alloc, text) {
        Ok(Some(members)) => Ok(members),
        Ok(None) => Err(Refusal::NotObject),
        Err(error) => Err(Refusal::NotJson(error)),
    }
}

/// The members of the JSON object in these bytes. They must be UTF-8, and all numbers must be whole.
///
/// # Errors
///
/// Returns why the bytes are not a record.
pub fn record_of<'t>(
    alloc: Global,
    reader: &'t mut JsonReader,
    bytes: &'t [u8],
) -> std::result::Result<Members<'t>, Refusal>
    ensures ok { IfOk result (λ members. IsRecord bytes.now members) }
    ensures err { IfErr result (λ refusal. MayRefuseText bytes.now refusal) }
{
    match std::str::from_utf8(bytes) {
        Ok(text) => object_of(alloc, reader, text),
        Err(_) => Err(Refusal::NotText),
    }
}
