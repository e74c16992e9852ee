//! What a token is at a certain position.

ghost use Rattle.std.specs.Prelude.{◌≡◌};
ghost use Rattle.expr_parts.specs.Programs.{integer_value};
ghost use Rattle.expr_parts.specs.Nodes as machine;
ghost use Rattle.expr_parts.specs.ReadErrors.{ReturnsOption};

use crate::frame::{OperandStart, ReadError};
use expr_tokens::operator_sign::PrefixSign;
use expr_tokens::{Reserved, Sign, Token};
use expr_value::{Text, Value};
use std::alloc::Global;
use std::mem;

/// Moves the token out, and leaves a semicolon.
pub fn take_token(token: &mut Token) -> Token
    ensures { result ≡ token.old }
{
    mem::replace(token, Token::Sign(Sign::Semicolon))
}

/// What a token is at the beginning of an operand.
pub fn operand_start(token: Token) -> OperandStart
    ensures { result ≡ machine.start_of token }
{
    match token {
        Token::Integer(value) => OperandStart::Literal(integer(value)),
        Token::Word(name) => OperandStart::Name(name),
        Token::Reserved(word) => start_of_reserved(word),
        Token::Hash(name) => OperandStart::HashName(name),
        Token::Quoted(text) => OperandStart::Literal(Value::String(text)),
        Token::Raw(text) => OperandStart::Literal(Value::String(text)),
        Token::Bytes(bytes) => OperandStart::Literal(Value::Bytes(bytes)),
        Token::Sign(sign) => start_of_sign(sign),
    }
}

fn integer(value: Option<i64>) -> Value
    ensures { result ≡ integer_value value }
{
    match value {
        Some(value) => Value::Integer(value),
        None => Value::Integer(0),
    }
}

fn start_of_reserved(word: Reserved) -> OperandStart
    ensures { result ≡ machine.reserved_start word }
{
    match word {
        Reserved::True => OperandStart::Literal(Value::Bool(true)),
        Reserved::False => OperandStart::Literal(Value::Bool(false)),
        Reserved::Nil => OperandStart::Literal(Value::Nil),
        Reserved::If => OperandStart::Choice,
        Reserved::Let => OperandStart::Line,
        Reserved::Not => OperandStart::Sign(PrefixSign::Not),
        _ => OperandStart::Other(Token::Reserved(word)),
    }
}

fn start_of_sign(sign: Sign) -> OperandStart
    ensures { result ≡ machine.sign_start sign }
{
    match sign {
        Sign::ParenOpen => OperandStart::Group,
        Sign::SquareOpen => OperandStart::List,
        Sign::BraceOpen => OperandStart::Brace,
        Sign::Dot => OperandStart::Field,
        Sign::Bang => OperandStart::Sign(PrefixSign::Bang),
        Sign::Plus => OperandStart::Sign(PrefixSign::Positive),
        Sign::Minus => OperandStart::Sign(PrefixSign::Negative),
        _ => OperandStart::Other(Token::Sign(sign)),
    }
}

/// The spelling of a word, reserved or not.
///
/// # Errors
///
/// Returns `Syntax` if the token isn't a word, and `Memory` if an allocation fails.
pub fn word(alloc: Global, token: Token) -> Result<Text, ReadError>
    ensures { ReturnsOption (machine.text_at token) result }
{
    match token {
        Token::Word(name) => Ok(name),
        Token::Reserved(word) => Ok(Text::copy(alloc, word.spelling())?),
        _ => Err(ReadError::Syntax),
    }
}

/// A key of a map literal.
///
/// # Errors
///
/// Returns `Syntax` if the token can't be a key, and `Memory` if an allocation fails.
pub fn key(alloc: Global, token: Token) -> Result<Text, ReadError>
    ensures { ReturnsOption (machine.key_text_at token) result }
{
    match token {
        Token::Word(name) => Ok(name),
        Token::Reserved(word) => Ok(Text::copy(alloc, word.spelling())?),
        Token::Quoted(text) => Ok(text),
        _ => Err(ReadError::Syntax),
    }
}
