//! Strings and bytes as literals.
ghost use Rattle.std.specs.Prelude.{◌≡◌, ◌++◌, ◌/◌, ◌%◌, ◌∷◌, [], Some, codes, map};
ghost use Rattle.std.specs.Char.{digit_char};
ghost use Rattle.std.specs.List.{flat_map};
ghost use Rattle.std.specs.Fmt.{WritesOnOk};
ghost use Rattle.expr_error.specs.Quoted.{quoted_text};
ghost use Rattle.expr_text.specs.Layout.{byte_part_of, bytes_text, is_plain};
ghost use Rattle.expr_tokens.specs.Tokens.{byte_part};

use expr_error::show_quoted;
use std::fmt;
use std::fmt::{Formatter, Write};

/// A string, printed between double quotes.
#[derive(Drop)]
pub(crate) struct QuotedText<'a> {
    pub(crate) text: &'a str,
}

impl<'a> fmt::Display for QuotedText<'a> {
    ghost output = { λ q. Some (quoted_text q.text.now) };

    fn fmt<W: Write>(&self, f: &mut Formatter<W>) -> fmt::Result {
        show_quoted(self.text, f)
    }
}

/// Bytes, printed as a literal: printable ASCII as it is but for `"` and `\`, and other bytes as `\x` with two digits.
#[derive(Drop)]
pub(crate) struct BytesLiteral<'a> {
    pub(crate) bytes: &'a [u8],
}

impl<'a> fmt::Display for BytesLiteral<'a> {
    ghost output = { λ b. Some (bytes_text b.bytes.now) };

    fn fmt<W: Write>(&self, f: &mut Formatter<W>) -> fmt::Result {
        show_bytes_literal(self.bytes, f)
    }
}

// Prints a bytes literal.
fn show_bytes_literal<W: Write>(bytes: &[u8], f: &mut Formatter<W>) -> fmt::Result
    ensures { WritesOnOk W.write_str_gives f.old result (bytes_text bytes.now) f.new }
{
    f.write_str("b\"")?;
    for byte in bytes {
        show_byte(*byte, f)?;
    }
    f.write_str("\"")
}

// Prints a byte of a bytes literal.
fn show_byte<W: Write>(byte: u8, f: &mut Formatter<W>) -> fmt::Result
    ensures { WritesOnOk W.write_str_gives f.old result (byte_part (byte_part_of byte)) f.new }
{
    if is_plain(byte) {
        f.write_char(char::from(byte))
    } else {
        show_hex(byte, f)
    }
}

// Whether a byte is printed as it is.
fn is_plain(byte: u8) -> bool
    ensures { result ≡ is_plain byte }
{
    byte > 31 && byte < 127 && byte != b'"' && byte != b'\\'
}

// Prints a byte as `\x` with two digits.
#[tactic(auto, using(std::proofs::lemmas::Fmt::hex_byte))]
fn show_hex<W: Write>(byte: u8, f: &mut Formatter<W>) -> fmt::Result
    ensures { WritesOnOk W.write_str_gives f.old result
        (92 ∷ 120 ∷ digit_char (byte / 16) ∷ digit_char (byte % 16) ∷ []) f.new }
{
    write!(f, "\\x{byte:02x}")
}
