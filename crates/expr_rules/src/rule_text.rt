//! The rules of a text.
ghost use Rattle.std.specs.Prelude.{◌≡◌, ◌++◌, IfOk, OnOk, map};
ghost use Rattle.std.specs.Str.Lines.{lines};
ghost use Rattle.expr_rules.specs.Rules.{body_of, is_rule_line, numbered_text, rule_on, rules_from, rules_in};

use std::alloc::{AllocError, Global};

/// The byte order mark that some systems put at the start of a UTF-8 file.
const MARK: &str = "\u{feff}";

/// How rules stand in a text.
#[derive(Clone, Copy, Debug, PartialEq, Eq)]
pub enum Layout {
    /// Each line is a rule, unless it is blank or begins with `//`.
    Lines,
    /// The text is one rule.
    Whole,
}

/// A rule, and where it stands.
#[derive(Clone, Copy, Debug)]
pub struct RuleText<'a> {
    /// The expression, without white space at its end.
    pub text: &'a str,
    /// The number of its first line in the file, from 1.
    pub line: usize,
}

/// The rules of a text, in order. A byte order mark at the start of the text is no part of them.
pub fn rules_of<'a>(
    alloc: Global,
    layout: Layout,
    text: &'a str,
) -> Result<Vec<RuleText<'a>>, AllocError>
    ensures { IfOk result (λ rules. map numbered_text rules.items ≡ rules_in layout text.now) }
{
    let body = body_of(text);
    match layout {
        Layout::Lines => {
            let lines = lines_of_text(alloc, body)?;
            rules_among(alloc, &lines)
        }
        Layout::Whole => {
            let mut rules = Vec::new(alloc);
            rules.push(RuleText {
                text: body.trim_end(),
                line: 1,
            })?;
            Ok(rules)
        }
    }
}

/// A text without the byte order mark at its start.
fn body_of(text: &str) -> &str
    ensures { result.now ≡ body_of text.now }
{
    match text.strip_prefix(MARK) {
        Some(body) => body,
        None => text,
    }
}

/// The lines of a text.
fn lines_of_text<'a>(alloc: Global, text: &'a str) -> Result<Vec<&'a str>, AllocError>
    ensures { IfOk result (λ all. map (λ line. line.now) all.items ≡ lines text.now) }
{
    text.lines().collect(alloc)
}

/// Those of some lines that are rules.
fn rules_among<'a>(alloc: Global, lines: &[&'a str]) -> Result<Vec<RuleText<'a>>, AllocError>
    ensures { IfOk result (λ rules. map numbered_text rules.items
        ≡ rules_from 1 (map (λ line. line.now) lines.now)) }
{
    let mut rules = Vec::new(alloc);
    for (index, line) in lines.iter().enumerate() {
        add_if_rule(*line, index + 1, &mut rules)?;
    }
    Ok(rules)
}

/// Adds a line with this number, if it is a rule.
fn add_if_rule<'a>(
    line: &'a str,
    number: usize,
    rules: &mut Vec<RuleText<'a>>,
) -> Result<(), AllocError>
    ensures { OnOk result (map numbered_text rules.new.items
        ≡ map numbered_text rules.old.items ++ rule_on number line.now) }
{
    if is_rule_line(line) {
        rules.push(RuleText {
            text: line.trim_end(),
            line: number,
        })?;
    }
    Ok(())
}

/// Whether a line is a rule: it isn't blank, and no comment from its first character on.
fn is_rule_line(line: &str) -> bool
    ensures { result ≡ is_rule_line line.now }
{
    let text = line.trim();
    !text.is_empty() && !text.as_bytes().starts_with(b"//")
}
