//! How kinds and schemas are printed.
ghost use Rattle.std.specs.Prelude.{◌≡◌, ◌==◌, ◌++◌, [], ℕ, List, Some, IsTrue, codes, if◌then◌else◌};
ghost use Rattle.std.specs.Fmt.{WritesOnOk};
ghost use Rattle.std.specs.List.{list_all};
ghost use Rattle.expr_schema.specs.KindView.{entry_view, fields_view, kind_view};
ghost use Rattle.expr_schema.specs.Kinds.{any};
ghost use Rattle.expr_schema.specs.SchemaView.{scope_of};
ghost use Rattle.expr_schema.specs.Texts.{shown_colon, shown_fields, is_bare, is_bare_byte, shown_kind, shown_name, unless_any};

use crate::kind::{FieldKind, Fields, Kind};
use crate::reader::is_word_byte;
use crate::schema::Schema;
use expr_error::show_quoted;
use expr_value::Text;
use std::fmt;
use std::fmt::{Formatter, Write};

impl fmt::Display for Kind {
    ghost output = { λ k. Some (shown_kind (kind_view k)) };

    fn fmt<W: Write>(&self, f: &mut Formatter<W>) -> fmt::Result {
        show(self, f)
    }
}

/// The names of the schema. Its functions aren't printed.
impl fmt::Display for Schema {
    ghost output = { λ s. Some (shown_fields (scope_of s).names) };

    fn fmt<W: Write>(&self, f: &mut Formatter<W>) -> fmt::Result {
        show_fields(&self.names, f)
    }
}

#[cycle(show)]
fn show<W: Write>(kind: &Kind, f: &mut Formatter<W>) -> fmt::Result
    ensures { WritesOnOk W.write_str_gives f.old result (shown_kind (kind_view kind.now)) f.new }
{
    match kind {
        Kind::Any => f.write_str("any"),
        Kind::Never => f.write_str("never"),
        Kind::Nil => f.write_str("nil"),
        Kind::Bool => f.write_str("bool"),
        Kind::Integer => f.write_str("int"),
        Kind::String => f.write_str("string"),
        Kind::Bytes => f.write_str("bytes"),
        Kind::Duration => f.write_str("duration"),
        Kind::Month => f.write_str("month"),
        Kind::Weekday => f.write_str("weekday"),
        Kind::DateTime => f.write_str("datetime"),
        Kind::Timezone => f.write_str("timezone"),
        Kind::Array(item) => show_within("[", item.get(), "]", f),
        Kind::Map(fields) => show_map(fields, f),
        Kind::KeyedMap(item) => show_within("{*: ", item.get(), "}", f),
        Kind::Nilable(inner) => show_within("", inner.get(), "?", f),
    }
}

/// Prints a kind between two texts.
#[cycle(show)]
fn show_within<W: Write>(
    before: &str,
    kind: &Kind,
    after: &str,
    f: &mut Formatter<W>,
) -> fmt::Result
    ensures { WritesOnOk W.write_str_gives f.old result
        (before.now ++ shown_kind (kind_view kind.now) ++ after.now) f.new }
{
    f.write_str(before)?;
    show(kind, f)?;
    f.write_str(after)
}

/// Prints fields between braces.
#[cycle(show)]
fn show_map<W: Write>(fields: &Fields, f: &mut Formatter<W>) -> fmt::Result
    ensures { WritesOnOk W.write_str_gives f.old result
        (codes "{" ++ shown_fields (fields_view fields.now) ++ codes "}") f.new }
{
    f.write_str("{")?;
    show_fields(fields, f)?;
    f.write_str("}")
}

/// Prints fields without braces.
#[cycle(show)]
fn show_fields<W: Write>(fields: &Fields, f: &mut Formatter<W>) -> fmt::Result
    ensures { WritesOnOk W.write_str_gives f.old result (shown_fields (fields_view fields.now)) f.new }
{
    let names = fields.named.keys();
    let entries = fields.named.values();
    for i in 0..entries.len() {
        show_comma(i, f)?;
        show_field(&names[i], &entries[i], f)?;
    }
    match &fields.others {
        None => Ok(()),
        Some(kind) => {
            show_comma(entries.len(), f)?;
            show_others(kind.get(), f)
        }
    }
}

/// Prints what is between two entries, before one that has so many before it.
fn show_comma<W: Write>(before: usize, f: &mut Formatter<W>) -> fmt::Result
    ensures { WritesOnOk W.write_str_gives f.old result (if before == 0 then [] else codes ", ") f.new }
{
    if before > 0 {
        f.write_str(", ")
    } else {
        Ok(())
    }
}

/// Prints a name with what stands there.
#[cycle(show)]
fn show_field<W: Write>(name: &Text, field: &FieldKind, f: &mut Formatter<W>) -> fmt::Result
    ensures { let e = entry_view field.now in WritesOnOk W.write_str_gives f.old result
        (shown_name name.now ++ shown_colon e.required ++ shown_kind e.kind) f.new }
{
    show_name(name.as_str(), f)?;
    f.write_str(if field.required { ": " } else { "?: " })?;
    show(&field.kind, f)
}

/// Prints what stands at the other names.
#[cycle(show)]
fn show_others<W: Write>(kind: &Kind, f: &mut Formatter<W>) -> fmt::Result
    ensures { let k = kind_view kind.now in WritesOnOk W.write_str_gives f.old result
        (codes "..." ++ unless_any k (codes ": " ++ shown_kind k)) f.new }
{
    f.write_str("...")?;
    if is_any(kind) {
        return Ok(());
    }
    f.write_str(": ")?;
    show(kind, f)
}

/// Whether a kind is that of every value.
fn is_any(kind: &Kind) -> bool
    ensures yes { IsTrue result → kind_view kind.now ≡ any }
    ensures no { ¬ IsTrue result → (text : List ℕ) → unless_any (kind_view kind.now) text ≡ text }
{
    match kind {
        Kind::Any => true,
        Kind::Never | Kind::Nil | Kind::Bool | Kind::Integer | Kind::String | Kind::Bytes => false,
        Kind::Duration | Kind::Month | Kind::Weekday | Kind::DateTime | Kind::Timezone => false,
        Kind::Array(_) | Kind::Map(_) | Kind::KeyedMap(_) | Kind::Nilable(_) => false,
    }
}

/// Prints a name, between quotes unless it is a word.
fn show_name<W: Write>(name: &str, f: &mut Formatter<W>) -> fmt::Result
    ensures { WritesOnOk W.write_str_gives f.old result (shown_name name.now) f.new }
{
    if is_word(name) {
        f.write_str(name)
    } else {
        show_quoted(name, f)
    }
}

/// Whether a name is read as a word.
fn is_word(name: &str) -> bool
    ensures { result ≡ is_bare name.now }
{
    !name.is_empty() && all_are_word_bytes(name.as_bytes())
}

/// Whether each byte may stand in a word.
fn all_are_word_bytes(bytes: &[u8]) -> bool
    ensures { result ≡ list_all is_bare_byte bytes.now }
{
    bytes.iter().all(|byte| is_word_byte(*byte))
}
