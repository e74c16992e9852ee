//! Checking the rules of a file.
ghost use Rattle.std.specs.Prelude.{◌≡◌, ◌++◌, IfOk, OnOk, map, string_bytes};
ghost use Rattle.expr_rules.specs.Checked.{AreChecked};
ghost use Rattle.expr_rules.specs.Reports.{IsReport, ReportsOn, err_text, no_rules, out_text, program_status, with_outcome};
ghost use Rattle.expr_rules.specs.Rules.{numbered_text};

use crate::checked::{CheckOutcome, CheckedRule, Wishes, check_rule};
use crate::json::json_line;
use crate::lines::{write_fault, write_sound};
use crate::rule_text::{Layout, RuleText, rules_of};
use expr_limits::Limits;
use std::alloc::{AllocError, Global};

/// How to check rules, and how to tell what was found.
#[derive(Clone, Copy, Debug)]
pub struct Manner {
    pub layout: Layout,
    /// The limits of rules, if there are any.
    pub limits: Option<Limits>,
    pub wishes: Wishes,
    /// Whether to write JSON.
    pub is_json: bool,
}

/// How many rules there were. Each count stops at 2^64 - 1.
#[derive(Clone, Copy, Debug, PartialEq, Eq)]
pub struct Totals {
    /// Those that compile.
    pub sound: usize,
    /// Those that don't.
    pub refused: usize,
}

/// What was found of the rules of a text.
#[derive(Debug, Drop)]
pub struct CheckReport {
    /// What is for the output.
    pub out: String,
    /// What is for the errors.
    pub err: String,
    pub totals: Totals,
}

impl Totals {
    /// No rules.
    pub fn new() -> Totals
        ensures { result ≡ no_rules }
    {
        Totals {
            sound: 0,
            refused: 0,
        }
    }

    /// Counts a rule.
    fn add(&mut self, outcome: &CheckOutcome)
        ensures { self.new ≡ with_outcome self.old outcome.now }
    {
        match outcome {
            CheckOutcome::Sound(_) => self.sound = self.sound.saturating_add(1),
            CheckOutcome::Refused(_) => self.refused = self.refused.saturating_add(1),
        }
    }

    /// The status of a program that checked these rules: 4 if something couldn't be read or written, 3 if a rule doesn't
    /// compile, 1 if there was none, else 0.
    pub fn status(&self, has_failed: bool) -> u8
        ensures { result ≡ program_status self.now has_failed }
    {
        if has_failed {
            4
        } else if self.refused > 0 {
            3
        } else if self.sound == 0 {
            1
        } else {
            0
        }
    }
}

/// Checks the rules of a text. `file` is the name that it is reported under.
pub fn check_text(
    alloc: Global,
    file: &str,
    text: &str,
    manner: &Manner,
    totals: Totals,
) -> Result<CheckReport, AllocError>
    ensures { IfOk result (IsReport manner.now file.now text.now totals) }
{
    let rules = rules_of(alloc, manner.layout, text)?;
    let checked = check_rules(alloc, &rules, manner)?;
    report_of(alloc, file, &checked, manner.is_json, totals)
}

/// Checks rules.
fn check_rules(
    alloc: Global,
    rules: &[RuleText<'_>],
    manner: &Manner,
) -> Result<Vec<CheckedRule>, AllocError>
    ensures { IfOk result (λ checked. AreChecked manner.now.limits manner.now.wishes
        (map numbered_text rules.now) checked.items) }
{
    let mut checked = Vec::new(alloc);
    for rule in rules {
        checked.push(check_rule(alloc, *rule, manner.limits, manner.wishes))?;
    }
    Ok(checked)
}

/// What is told of rules that were checked.
fn report_of(
    alloc: Global,
    file: &str,
    checked: &[CheckedRule],
    is_json: bool,
    totals: Totals,
) -> Result<CheckReport, AllocError>
    ensures { IfOk result (ReportsOn checked.now is_json file.now totals) }
{
    let mut report = CheckReport {
        out: String::new(alloc),
        err: String::new(alloc),
        totals,
    };
    for rule in checked {
        report.add(alloc, file, rule, is_json)?;
    }
    Ok(report)
}

impl CheckReport {
    /// Adds what was found of a rule.
    fn add(
        &mut self,
        alloc: Global,
        file: &str,
        rule: &CheckedRule,
        is_json: bool,
    ) -> Result<(), AllocError>
        ensures out { OnOk result (string_bytes self.new.out
            ≡ string_bytes self.old.out ++ out_text is_json file.now rule.now) }
        ensures err { OnOk result (string_bytes self.new.err
            ≡ string_bytes self.old.err ++ err_text is_json file.now rule.now) }
        ensures totals { OnOk result (self.new.totals ≡ with_outcome self.old.totals rule.now.outcome) }
    {
        self.totals.add(&rule.outcome);
        if is_json {
            self.out.push_str(&json_line(alloc, file, rule)?)?;
            return self.out.push('\n');
        }
        match &rule.outcome {
            CheckOutcome::Sound(sound) => write_sound(&mut self.out, file, rule.line, sound),
            CheckOutcome::Refused(fault) => write_fault(&mut self.err, file, rule.line, fault),
        }
    }
}
