//! Words.
ghost use Rattle.std.specs.Prelude.{◌≡◌, ◌≤◌, length};
ghost use Rattle.std.specs.Char.{is_ascii_digit};
ghost use Rattle.std.specs.List.{list_all, prefix_len};
ghost use Rattle.expr_tokens.specs.Kinds.{first_is, is_word_byte};
ghost use Rattle.expr_tokens.specs.Tokens.{is_raw_byte, is_word};

/// Whether a byte may be in a word: an ASCII letter, a digit, `_` or `$`.
pub(crate) fn is_word_byte(byte: u8) -> bool
    ensures { result ≡ is_word_byte byte }
{
    byte.is_ascii_alphanumeric() || byte == b'_' || byte == b'$'
}

/// Whether the first byte may be in a word.
pub(crate) fn begins_with_word_byte(bytes: &[u8]) -> bool
    ensures { result ≡ first_is is_word_byte bytes.now }
{
    match bytes.first() {
        Some(byte) => is_word_byte(*byte),
        None => false,
    }
}

/// Whether the first byte is a decimal digit.
pub(crate) fn begins_with_digit(bytes: &[u8]) -> bool
    ensures { result ≡ first_is is_ascii_digit bytes.now }
{
    match bytes.first() {
        Some(byte) => byte.is_ascii_digit(),
        None => false,
    }
}

/// Number of bytes at the front that may be in a word.
pub(crate) fn word_len(bytes: &[u8]) -> usize
    ensures value { result ≡ prefix_len is_word_byte bytes.now }
    ensures within { result ≤ length bytes.now }
{
    let mut len = 0;
    while len < bytes.len() && is_word_byte(bytes[len]) {
        len += 1;
    }
    len
}

/// Number of bytes before the first backquote or the end.
pub(crate) fn raw_len(bytes: &[u8]) -> usize
    ensures value { result ≡ prefix_len is_raw_byte bytes.now }
    ensures within { result ≤ length bytes.now }
{
    let mut len = 0;
    while len < bytes.len() && bytes[len] != b'`' {
        len += 1;
    }
    len
}

fn all_are_word_bytes(bytes: &[u8]) -> bool
    ensures { result ≡ list_all is_word_byte bytes.now }
{
    bytes.iter().all(|byte| is_word_byte(*byte))
}

/// Whether these bytes are a word, reserved or not: letters, digits, `_` and `$`, and no digit first.
pub fn are_word_bytes(bytes: &[u8]) -> bool
    ensures { result ≡ is_word bytes.now }
{
    begins_with_word_byte(bytes) && !begins_with_digit(bytes) && all_are_word_bytes(bytes)
}

/// Whether this is a word, reserved or not.
pub fn is_word(text: &str) -> bool
    ensures { result ≡ is_word text.now }
{
    are_word_bytes(text.as_bytes())
}
