//! Strings between quotes, with escapes.
ghost use Rattle.std.specs.Prelude.{◌≡◌, ◌<◌, ◌∷◌, [], IfSome, MatchOption};
ghost use Rattle.std.specs.List.{flat_map};
ghost use Rattle.std.specs.Fmt.{WritesOnOk};
ghost use Rattle.expr_error.specs.Quoted.{escaped_byte, quoted_text};

use std::fmt;
use std::fmt::{Formatter, Write};

/// Prints a string between double quotes. `\`, `"`, line feed, carriage return and tab are escaped, as `\\`, `\"`,
/// `\n`, `\r` and `\t`.
pub fn show_quoted<W: Write>(text: &str, f: &mut Formatter<W>) -> fmt::Result
    ensures { WritesOnOk W.write_str_gives f.old result (quoted_text text.now) f.new }
{
    f.write_str("\"")?;
    show_escaped(text, f)?;
    f.write_str("\"")
}

/// Prints a string with its escapes. The bytes between two escapes are written at once.
fn show_escaped<W: Write>(text: &str, f: &mut Formatter<W>) -> fmt::Result
    ensures { WritesOnOk W.write_str_gives f.old result (flat_map escaped_byte text.now) f.new }
{
    let bytes = text.as_bytes();
    let mut start = 0;
    for i in 0..bytes.len() {
        match escape_of(bytes[i]) {
            Some(escape) => {
                f.write_str(&text[start..i])?;
                f.write_str(escape)?;
                start = i + 1;
            }
            None => {}
        }
    }
    f.write_str(&text[start..])
}

/// The escape of a byte, or `None` for a byte that is printed as it is.
fn escape_of(byte: u8) -> Option<&'static str>
    ensures cases { MatchOption result (escaped_byte byte ≡ byte ∷ [])
        (λ escape. escape.now ≡ escaped_byte byte) }
    ensures ascii { IfSome result (λ escape. byte < 128) }
{
    match byte {
        b'\\' => Some("\\\\"),
        b'\n' => Some("\\n"),
        b'\r' => Some("\\r"),
        b'\t' => Some("\\t"),
        b'"' => Some("\\\""),
        _ => None,
    }
}
