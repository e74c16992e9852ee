//! What is found of a rule.
ghost use Rattle.std.specs.Prelude.{◌≡◌, IfOk};
ghost use Rattle.expr_rules.specs.Checked.{AreNeedsIf, IsCheckOutcome, IsSoundRule, IsTextIf};
ghost use Rattle.expr_tree.specs.TermOf.{program_term};

use crate::needs::{Needs, needs_of};
use crate::rule_text::RuleText;
use crate::verdict::{Fault, Verdict, verdict_of};
use expr_limits::Limits;
use expr_text::to_code;
use expr_tree::node::Program;
use expr_value::Result;
use std::alloc::Global;

/// What to find of a rule that compiles.
#[derive(Clone, Copy, Debug, PartialEq, Eq)]
pub struct Wishes {
    /// Its text in the normal form.
    pub text: bool,
    /// What it asks for.
    pub needs: bool,
}

/// What was found of a rule that compiles, as far as it was wished for.
#[derive(Debug, Drop)]
pub struct SoundRule {
    /// Its text in the normal form, without comments.
    pub text: Option<String>,
    /// The names and functions that it asks for.
    pub needs: Option<Needs>,
}

/// Whether a rule compiles, and what was found of it.
#[derive(Debug, Drop)]
pub enum CheckOutcome {
    Sound(SoundRule),
    Refused(Fault),
}

/// A rule that was checked.
#[derive(Debug, Drop)]
pub struct CheckedRule {
    /// The number of its first line in the file, from 1.
    pub line: usize,
    pub outcome: CheckOutcome,
}

/// Checks a rule, within limits or without.
pub fn check_rule(
    alloc: Global,
    rule: RuleText<'_>,
    limits: Option<Limits>,
    wishes: Wishes,
) -> CheckedRule
    ensures line { result.line ≡ rule.entry.line }
    ensures outcome { IsCheckOutcome limits wishes rule.entry.text.now rule.entry.line result.outcome }
{
    CheckedRule {
        line: rule.line,
        outcome: outcome_of(alloc, rule, limits, wishes),
    }
}

/// What is found of a rule.
fn outcome_of(
    alloc: Global,
    rule: RuleText<'_>,
    limits: Option<Limits>,
    wishes: Wishes,
) -> CheckOutcome
    ensures { IsCheckOutcome limits wishes rule.entry.text.now rule.entry.line result }
{
    match verdict_of(alloc, rule, limits) {
        Verdict::Sound(program) => match sound_rule(alloc, &program, wishes) {
            Ok(sound) => CheckOutcome::Sound(sound),
            Err(_) => CheckOutcome::Refused(Fault::Memory),
        },
        Verdict::Refused(fault) => CheckOutcome::Refused(fault),
    }
}

/// What is wished for of a program.
fn sound_rule(alloc: Global, program: &Program, wishes: Wishes) -> Result<SoundRule>
    ensures { IfOk result (λ sound. IsSoundRule wishes (program_term program.now) sound) }
{
    Ok(SoundRule {
        text: text_if(alloc, program, wishes.text)?,
        needs: needs_if(alloc, program, wishes.needs)?,
    })
}

/// The text of a program in the normal form, if it is wished for.
fn text_if(alloc: Global, program: &Program, is_wished: bool) -> Result<Option<String>>
    ensures { IfOk result (IsTextIf is_wished (program_term program.now)) }
{
    if is_wished {
        return Ok(Some(to_code(alloc, program)?));
    }
    Ok(None)
}

/// What a program asks for, if it is wished for.
fn needs_if(alloc: Global, program: &Program, is_wished: bool) -> Result<Option<Needs>>
    ensures { IfOk result (AreNeedsIf is_wished (program_term program.now)) }
{
    if is_wished {
        return Ok(Some(needs_of(alloc, program)?));
    }
    Ok(None)
}
