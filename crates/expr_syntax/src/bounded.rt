//! Compiling within bounds on the height of the tree and on the literal patterns.
ghost use Rattle.std.specs.Prelude.{◌≡◌, ◌+◌, ◌<◌, ℕ, Err, IfOk, MatchBool, MatchOption, option_map, codes};
ghost use Rattle.std.specs.Str.{IsCharBoundary};
ghost use Rattle.std.specs.Str.Iter.{HasSubslice};
ghost use Rattle.expr_tokens.specs.Grammar.{TreeProgram};
ghost use Rattle.expr_parts.specs.Kept.{KeepPatterns};
ghost use Rattle.expr_syntax.specs.Bounds.{IsAnswerBounded, IsCompiledBounded, IsHeavier, IsLight, OnProgram, literal_text, is_behind_matches as behind, token_weight};
ghost use Rattle.expr_syntax.specs.Texts.{IsPlaced, IsTreeOf};
ghost use Rattle.expr_tree.specs.KeptPatterns.{program_operations};
ghost use Rattle.expr_error.specs.declared.error.Error.{Error as declared};
ghost use Rattle.expr_error.specs.ErrorKind.{OnlyMemory};

use crate::text::read_program;
use expr_limits::weigh_pattern;
use expr_tokens::{NextToken, Reserved, Sign, Token, next_token};
use expr_tree::node::Program;
use expr_value::{Result, Text};
use std::alloc::Global;

/// What an expression is compiled to within bounds.
#[derive(Drop)]
pub enum BoundedProgram {
    /// Its program.
    Program(Program),
    /// Its syntax tree is too high.
    TooHigh,
    /// Its literal patterns weigh too much.
    TooHeavy,
}

/// Compiles an expression within bounds. Its syntax tree may be as high as `height`, as
/// [`compile_within`](crate::compile_within) measures it. Its literal patterns together may weigh as much as
/// `patterns`, by [`weigh_pattern`]. These are the strings right after `matches`, with only opening brackets between.
/// They are weighed before any is compiled.
///
/// # Errors
///
/// Returns the errors of [`compile`](crate::compile).
pub fn compile_bounded(
    alloc: Global,
    code: &str,
    height: usize,
    patterns: u64,
) -> Result<BoundedProgram>
    // A program is the program of a tree within the bounds. An error means what it means without bounds.
    ensures answer { IsCompiledBounded code.now height patterns result }
    // If the expression has a tree, only that tree's result is possible.
    ensures only { (t : TreeProgram) → IsTreeOf code.now t → IsAnswerBounded t height result }
    // A syntax error is at the first fault, between two characters.
    ensures place { IsPlaced code.now result }
    ensures boundary { (place : ℕ) → result ≡ Err (declared.PestError place) → IsCharBoundary code.now place }
    // Each literal to the right of `matches` keeps its compiled pattern, if it is a pattern and not too big.
    ensures patterns { IfOk result (λ b. OnProgram b (λ p. KeepPatterns (program_operations p))) }
{
    if !is_light(alloc, code, patterns)? {
        return Ok(BoundedProgram::TooHeavy);
    }
    let program = read_program(alloc, code)?;
    if program.height() > height {
        return Ok(BoundedProgram::TooHigh);
    }
    Ok(BoundedProgram::Program(program.into_program()))
}

/// Whether the literal patterns weigh at most `patterns` together. The tokens are read only if the source contains the
/// word `matches`.
fn is_light(alloc: Global, code: &str, patterns: u64) -> Result<bool>
    ensures answer { IfOk result (λ is.
        MatchBool is (IsLight code.now patterns) (IsHeavier code.now patterns)) }
    ensures refused { OnlyMemory result }
{
    if !has_matches(code) {
        return Ok(true);
    }
    let mut left = patterns;
    let mut is_behind = false;
    let mut at = 0;
    while let NextToken::Token(token, _, end) = next_token(alloc, code, at)? {
        let is_next_behind = is_behind_matches(&token, is_behind);
        let Some(rest) = remaining_weight(token, is_behind, left) else {
            return Ok(false);
        };
        left = rest;
        is_behind = is_next_behind;
        at = end;
    }
    Ok(true)
}

/// Whether the source may contain `matches`. Most expressions have no `m`, which is found faster.
fn has_matches(code: &str) -> bool
    ensures { MatchBool result (Unit {0}) (HasSubslice code.now (codes "matches") → ⊥) }
{
    code.as_bytes().contains(&b'm') && code.contains("matches")
}

/// The weight that is left after a token, which weighs something if it is a literal pattern. `None` if it weighs more
/// than is left.
fn remaining_weight(token: Token, is_behind: bool, left: u64) -> Option<u64>
    ensures { MatchOption result (left < token_weight is_behind token)
        (λ rest. token_weight is_behind token + rest ≡ left) }
{
    if !is_behind {
        return Some(left);
    }
    match text_of(&token) {
        Some(text) => weigh_pattern(text.as_str(), left).ok(),
        None => Some(left),
    }
}

/// The content of a string literal.
fn text_of(token: &Token) -> Option<&Text>
    ensures { option_map (λ t. t.now) result ≡ literal_text token.now }
{
    match token {
        Token::Quoted(text) => Some(text),
        Token::Raw(text) => Some(text),
        _ => None,
    }
}

/// Whether the next token comes right after `matches`.
fn is_behind_matches(token: &Token, is_behind: bool) -> bool
    ensures { result ≡ behind token.now is_behind }
{
    match token {
        Token::Reserved(Reserved::Matches) => true,
        Token::Sign(Sign::ParenOpen) => is_behind,
        _ => false,
    }
}
