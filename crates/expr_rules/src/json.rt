//! What was found, as JSON: an object for each rule.
ghost use Rattle.std.specs.Prelude.{◌≡◌, IfOk, OnOk, string_bytes};
ghost use Rattle.serde_json.specs.View.{members_view, view};
ghost use Rattle.serde_json.specs.Written.{compact_text};
ghost use Rattle.expr_rules.specs.JsonLines.{fault_data, names_data, rule_data, sound_data, with_base, with_needs, with_text};

use crate::checked::{CheckOutcome, CheckedRule, SoundRule};
use crate::needs::Needs;
use crate::verdict::Fault;
use serde_json::{Map, Value, put};
use std::alloc::{AllocError, Global};

/// What was found of a rule, as a JSON object on one line, without a line feed.
pub fn json_line(alloc: Global, file: &str, rule: &CheckedRule) -> Result<String, AllocError>
    ensures { IfOk result (λ line. string_bytes line ≡ compact_text (rule_data file.now rule.now)) }
{
    let made = rule_data(alloc, file, rule)?;
    made.to_string(alloc)
}

/// What was found of a rule, as JSON.
fn rule_data(alloc: Global, file: &str, rule: &CheckedRule) -> Result<Value, AllocError>
    ensures { IfOk result (λ made. view made ≡ rule_data file.now rule.now) }
{
    match &rule.outcome {
        CheckOutcome::Sound(sound) => sound_data(alloc, file, rule.line, sound),
        CheckOutcome::Refused(fault) => fault_data(alloc, file, rule.line, fault),
    }
}

/// What was found of a rule that compiles, as far as it is there.
fn sound_data(
    alloc: Global,
    file: &str,
    line: usize,
    sound: &SoundRule,
) -> Result<Value, AllocError>
    ensures { IfOk result (λ made. view made ≡ sound_data file.now line sound.now) }
{
    let mut members = Map::new(alloc);
    put_base(alloc, &mut members, file, line, true)?;
    put_text(alloc, &mut members, &sound.text)?;
    put_needs(alloc, &mut members, &sound.needs)?;
    Ok(Value::Object(members))
}

/// Puts the file, the line, and whether the rule compiles.
fn put_base(
    alloc: Global,
    members: &mut Map<String, Value>,
    file: &str,
    line: usize,
    is_sound: bool,
) -> Result<(), AllocError>
    ensures { OnOk result (members_view members.new.entries
        ≡ with_base file.now line is_sound (members_view members.old.entries)) }
{
    put(members, alloc, "file", Value::try_from_str(alloc, file)?)?;
    put(members, alloc, "line", Value::from(line))?;
    put(members, alloc, "compiles", Value::Bool(is_sound))
}

/// Puts the text of a rule, if it is there.
fn put_text(
    alloc: Global,
    members: &mut Map<String, Value>,
    text: &Option<String>,
) -> Result<(), AllocError>
    ensures { OnOk result (members_view members.new.entries
        ≡ with_text text.now (members_view members.old.entries)) }
{
    match text {
        Some(text) => put(members, alloc, "text", Value::try_from_str(alloc, text)?),
        None => Ok(()),
    }
}

/// Puts the names and functions that a rule asks for, if they are there.
fn put_needs(
    alloc: Global,
    members: &mut Map<String, Value>,
    needs: &Option<Needs>,
) -> Result<(), AllocError>
    ensures { OnOk result (members_view members.new.entries
        ≡ with_needs needs.now (members_view members.old.entries)) }
{
    match needs {
        Some(needs) => {
            put(members, alloc, "names", names_data(alloc, &needs.names)?)?;
            put(
                members,
                alloc,
                "functions",
                names_data(alloc, &needs.functions)?,
            )
        }
        None => Ok(()),
    }
}

/// Names, as an array of strings.
fn names_data(alloc: Global, names: &[String]) -> Result<Value, AllocError>
    ensures { IfOk result (λ made. view made ≡ names_data names.now) }
{
    let mut items = Vec::new(alloc);
    for name in names {
        items.push(Value::try_from_str(alloc, name)?)?;
    }
    Ok(Value::Array(items))
}

/// A fault. It has a column and the line with a caret if it is at one place.
fn fault_data(alloc: Global, file: &str, line: usize, fault: &Fault) -> Result<Value, AllocError>
    ensures { IfOk result (λ made. view made ≡ fault_data file.now line fault.now) }
{
    let mut members = Map::new(alloc);
    match fault {
        Fault::Syntax(spot) => {
            put_base(alloc, &mut members, file, spot.line, false)?;
            put(&mut members, alloc, "column", Value::from(spot.column))?;
            put(
                &mut members,
                alloc,
                "shown",
                Value::try_from_str(alloc, &spot.shown)?,
            )?;
        }
        _ => put_base(alloc, &mut members, file, line, false)?,
    }
    put(
        &mut members,
        alloc,
        "kind",
        Value::try_from_str(alloc, fault.kind())?,
    )?;
    put(
        &mut members,
        alloc,
        "message",
        Value::try_from_str(alloc, fault.message())?,
    )?;
    Ok(Value::Object(members))
}
