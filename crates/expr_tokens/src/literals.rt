//! The range of integer literals.

ghost use Rattle.std.specs.Prelude.{◌↔◌, IsTrue};
ghost use Rattle.expr_tokens.specs.Grammar.{IntegerFits};

use crate::token::Token;

/// Whether all integer literals are below 2^63: those read so far, and this token if it is one.
pub fn literals_fit(so_far: bool, token: &Token) -> bool
    ensures { IsTrue result ↔ (IsTrue so_far × IntegerFits token.now) }
{
    so_far && !matches!(token, Token::Integer(None))
}
