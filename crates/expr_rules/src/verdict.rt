//! Whether a rule compiles, and where it is wrong.
ghost use Rattle.std.specs.Prelude.{◌≡◌, ◌↔◌, ◌+◌, ◌-◌, ◌^◌, IfOk, IsTrue, length, min};
ghost use Rattle.std.specs.Str.{IsCharBoundary};
ghost use Rattle.expr_rules.specs.Verdicts.{CompilesWithin, IsSpotOf, IsSyntaxFault, IsVerdict, limit_fault};

use crate::rule_text::RuleText;
use expr_limits::{Limit, Limits, Outcome};
use expr_syntax::{compile, compile_limited, line_column_of};
use expr_tree::node::Program;
use expr_value::{Error, Result};
use std::alloc::Global;

/// Where a rule is wrong.
#[derive(Debug, Drop)]
pub struct Spot {
    /// The number of the line in the file, from 1. It stops at 2^64 - 1.
    pub line: usize,
    /// The number of the character in the line, from 1.
    pub column: usize,
    /// Whether the rule ends there.
    pub is_end: bool,
    /// The line of the rule, and below it a caret under the character.
    pub shown: String,
}

/// What is wrong with a rule.
#[derive(Debug, Drop)]
pub enum Fault {
    /// It isn't in the language: no expression goes on with what is there.
    Syntax(Spot),
    /// An integer literal is greater than 2^63 - 1.
    Literal,
    /// Its tree is higher than the limit.
    TooHigh,
    /// Its literal patterns together weigh more than the limit.
    TooHeavy,
    /// An allocation failed.
    Memory,
}

/// Whether a rule compiles.
#[derive(Drop)]
pub enum Verdict {
    /// It does, to this program.
    Sound(Program),
    /// It doesn't.
    Refused(Fault),
}

/// Compiles a rule, within limits or without, and says where it is wrong if it doesn't compile.
pub fn verdict_of(alloc: Global, rule: RuleText<'_>, limits: Option<Limits>) -> Verdict
    ensures { IsVerdict limits rule.entry.text.now rule.entry.line result }
{
    match compile_by(alloc, rule.text, limits) {
        Ok(outcome) => match outcome {
            Outcome::Answered(program) => Verdict::Sound(program),
            Outcome::Stopped(limit) => Verdict::Refused(limit_fault(limit)),
        },
        Err(error) => match error {
            Error::PestError(place) => Verdict::Refused(syntax_fault(alloc, rule, place)),
            Error::ParseError(_message) => Verdict::Refused(Fault::Literal),
            Error::ExprError(_) | Error::RegexError(_) | Error::MemoryError => {
                Verdict::Refused(Fault::Memory)
            }
        },
    }
}

/// Compiles an expression, within limits or without.
fn compile_by(alloc: Global, text: &str, limits: Option<Limits>) -> Result<Outcome<Program>>
    ensures { CompilesWithin limits text.now result }
{
    match limits {
        Some(limits) => compile_limited(alloc, text, &limits),
        None => Ok(Outcome::Answered(compile(alloc, text)?)),
    }
}

/// The fault of a rule that passes a limit.
fn limit_fault(limit: Limit) -> Fault
    ensures { result ≡ limit_fault limit }
{
    match limit {
        Limit::Nesting => Fault::TooHigh,
        Limit::Patterns | Limit::Steps | Limit::Depth | Limit::Size => Fault::TooHeavy,
    }
}

/// The fault of a rule with a syntax error at an offset.
fn syntax_fault(alloc: Global, rule: RuleText<'_>, place: usize) -> Fault
    requires { IsCharBoundary rule.text.now place }
    ensures { IsSyntaxFault rule.entry.text.now rule.entry.line place result }
{
    match spot_of(alloc, rule, place) {
        Ok(spot) => Fault::Syntax(spot),
        Err(_) => Fault::Memory,
    }
}

/// The line and the column of an offset in a rule.
fn spot_of(alloc: Global, rule: RuleText<'_>, place: usize) -> Result<Spot>
    ensures { IfOk result (λ spot. IsSpotOf rule.entry.text.now rule.entry.line place spot) }
{
    let at = line_column_of(alloc, rule.text, place)?;
    Ok(Spot {
        line: line_after(rule.line, at.line - 1),
        column: at.column,
        is_end: is_end(rule.text, place),
        shown: at.shown,
    })
}

/// The number of a line so many lines after another. It stops at 2^64 - 1.
fn line_after(first: usize, lines: usize) -> usize
    ensures { result ≡ min (first + lines) (2 ^ 64 - 1) }
{
    first.saturating_add(lines)
}

/// Whether a text ends at an offset.
fn is_end(text: &str, place: usize) -> bool
    ensures { IsTrue result ↔ (place ≡ length text.now) }
{
    place == text.len()
}
