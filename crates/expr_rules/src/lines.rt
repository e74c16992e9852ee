//! What was found, as lines of text.
ghost use Rattle.std.specs.Prelude.{◌≡◌, ◌++◌, codes, OnOk, string_bytes};
ghost use Rattle.expr_rules.specs.Lines.{fault_kind, fault_lines, fault_message, needs_lines, sound_lines, words_line, words_text};

use crate::checked::SoundRule;
use crate::needs::Needs;
use crate::verdict::Fault;
use std::alloc::AllocError;
use std::fmt::Write;

impl Fault {
    /// The kind of the fault, in a word.
    pub fn kind(&self) -> &'static str
        ensures { result.now ≡ fault_kind self.now }
    {
        match self {
            Fault::Syntax(_) => "syntax",
            Fault::Literal => "literal",
            Fault::TooHigh | Fault::TooHeavy => "limit",
            Fault::Memory => "memory",
        }
    }

    /// What is wrong.
    pub fn message(&self) -> &'static str
        ensures { result.now ≡ fault_message self.now }
    {
        match self {
            Fault::Syntax(spot) => {
                if spot.is_end {
                    "the expression isn't complete"
                } else {
                    "no expression goes on like this"
                }
            }
            Fault::Literal => "an integer is greater than 9223372036854775807",
            Fault::TooHigh => "the expression nests too deeply",
            Fault::TooHeavy => "the patterns are too large",
            Fault::Memory => "out of memory",
        }
    }
}

/// Writes what was found of a rule that compiles, as far as it is there: a line with its text, one with its names and
/// one with its functions.
pub fn write_sound(
    out: &mut String,
    file: &str,
    line: usize,
    sound: &SoundRule,
) -> Result<(), AllocError>
    ensures { OnOk result (string_bytes out.new
        ≡ string_bytes out.old ++ sound_lines file.now line sound.now) }
{
    if let Some(text) = &sound.text {
        out.push_str(text)?;
        out.push('\n')?;
    }
    match &sound.needs {
        Some(needs) => write_needs(out, file, line, needs),
        None => Ok(()),
    }
}

/// Writes the names and the functions that a rule asks for, a line each.
fn write_needs(out: &mut String, file: &str, line: usize, needs: &Needs) -> Result<(), AllocError>
    ensures { OnOk result (string_bytes out.new
        ≡ string_bytes out.old ++ needs_lines file.now line needs.now) }
{
    write_words(out, file, line, "names", &needs.names)?;
    write_words(out, file, line, "functions", &needs.functions)
}

/// Writes a line with words.
fn write_words(
    out: &mut String,
    file: &str,
    line: usize,
    what: &str,
    words: &[String],
) -> Result<(), AllocError>
    ensures { OnOk result (string_bytes out.new
        ≡ string_bytes out.old ++ words_line file.now line what.now words.now) }
{
    write!(out, "{file}:{line}: {what}:")?;
    add_words(out, words)?;
    out.push('\n')
}

/// Writes words, each behind a blank.
fn add_words(out: &mut String, words: &[String]) -> Result<(), AllocError>
    ensures { OnOk result (string_bytes out.new ≡ string_bytes out.old ++ words_text words.now) }
{
    for word in words {
        out.push(' ')?;
        out.push_str(word)?;
    }
    Ok(())
}

/// Writes a fault: `FILE:LINE:COLUMN: KIND: MESSAGE`, and below it the line with a caret. If it isn't at one place, the
/// column and the line with a caret are left out.
pub fn write_fault(
    out: &mut String,
    file: &str,
    line: usize,
    fault: &Fault,
) -> Result<(), AllocError>
    ensures { OnOk result (string_bytes out.new
        ≡ string_bytes out.old ++ fault_lines file.now line fault.now) }
{
    let kind = fault.kind();
    let message = fault.message();
    match fault {
        Fault::Syntax(spot) => {
            let first = spot.line;
            let column = spot.column;
            let shown = &spot.shown;
            writeln!(out, "{file}:{first}:{column}: {kind}: {message}\n{shown}")
        }
        _ => writeln!(out, "{file}:{line}: {kind}: {message}"),
    }
}
