//! Words, and names with `#`.
ghost use Rattle.std.specs.Prelude.{◌≡◌};
ghost use Rattle.expr_text.specs.Texts.{is_free_word};
ghost use Rattle.expr_tokens.specs.Tokens.{is_hash_name};

use expr_tokens::{are_word_bytes, is_word, reserved_of};

/// Whether this is a word that isn't reserved.
pub(crate) fn is_free_word(text: &str) -> bool
    ensures { result ≡ is_free_word text.now }
{
    is_word(text) && reserved_of(text).is_none()
}

/// Whether this is `#`, or `#` with a word right after it.
pub(crate) fn is_hash_name(text: &str) -> bool
    ensures { result ≡ is_hash_name text.now }
{
    match text.as_bytes().split_first() {
        None => false,
        Some((first, rest)) => *first == b'#' && (rest.is_empty() || are_word_bytes(rest)),
    }
}
