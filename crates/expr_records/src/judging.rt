//! The outcome of a line for an expression.
ghost use Rattle.std.specs.Prelude.{◌≡◌, ℕ, List};
ghost use Rattle.expr_records.specs.RecordCode.{IsCodeOf};
ghost use Rattle.expr_records.specs.RecordRuns.{RecordEnds};
ghost use Rattle.expr_records.specs.Judged.{ComesOfRecord, IsOutcomeOf, is_sought, same};

use crate::outcome::{LineOutcome, PassedLimit, Refusal};
use crate::query::{Purpose, Query};
use crate::record::{is_blank, record_of, text_of};
use crate::record_filter::Judge;
use expr_encoding::{JsonReader, Members, to_json};
use expr_limits::Outcome;
use expr_meaning::Functions;
use expr_value::Value;
use std::alloc::Global;

/// Whether two booleans are equal.
fn same(wanted: bool, truth: bool) -> bool
    ensures { result ≡ same wanted truth }
{
    if wanted { truth } else { !truth }
}

/// Whether a value is the boolean that is sought. Returns None if it is no boolean.
fn is_sought(wanted: bool, answer: &Value) -> Option<bool>
    ensures { result ≡ is_sought wanted answer.now }
{
    match answer.as_bool() {
        Some(truth) => Some(same(wanted, truth)),
        None => None,
    }
}

/// The outcome of a record for which the expression returned this value.
fn outcome_of(alloc: Global, purpose: Purpose, answer: &Value) -> LineOutcome
    ensures { IsOutcomeOf purpose answer.now result }
{
    match purpose {
        Purpose::Keep(wanted) => match is_sought(wanted, answer) {
            Some(true) => LineOutcome::Kept,
            Some(false) => LineOutcome::Dropped,
            None => LineOutcome::Refused(Refusal::NotBoolean),
        },
        Purpose::Count(wanted) => match is_sought(wanted, answer) {
            Some(true) => LineOutcome::Counted,
            Some(false) => LineOutcome::Dropped,
            None => LineOutcome::Refused(Refusal::NotBoolean),
        },
        Purpose::Rewrite => match to_json(alloc, answer) {
            Ok(text) => LineOutcome::Rewritten(text),
            Err(error) => LineOutcome::Refused(Refusal::NotWritable(error)),
        },
    }
}

/// The outcome of a record.
fn record_outcome<H: Functions>(
    alloc: Global,
    query: &mut Query<H>,
    members: Members<'_>,
) -> LineOutcome
    ensures comes { (text : List ℕ) → IsCodeOf query.old.limits text query.old.machine.code.now
        → ComesOfRecord query.old.purpose
        (RecordEnds query.old.limits (H.host query.old.host.now) query.old.names.now text
        query.old.machine.code.now members.entry) result }
    ensures same { query.new ≡ query.old }
{
    match query.answer(members) {
        Ok(Outcome::Answered(answer)) => outcome_of(alloc, query.purpose, &answer),
        Ok(Outcome::Stopped(limit)) => {
            LineOutcome::Refused(Refusal::Passed(PassedLimit::of(query.limits, limit)))
        }
        Err(error) => LineOutcome::Refused(Refusal::Expression(error)),
    }
}

impl<'h, H: Functions> Judge for Query<'h, H> {
    ghost use Rattle.std.specs.Prelude.{List, ℕ};
    ghost use Rattle.expr_records.specs.RecordCode.{IsCodeOf};
    ghost use Rattle.expr_records.specs.RecordRuns.{RecordEnds};
    ghost use Rattle.expr_records.specs.Judged.{MayCome};

    ghost judged = { λ q line outcome. (text : List ℕ) → IsCodeOf q.limits text q.machine.code.now
        → MayCome q.purpose
        (RecordEnds q.limits (H.host q.host.now) q.names.now text q.machine.code.now) line outcome };

    /// Skips a byte order mark at the start of the line. A line of only spaces, tabs and carriage returns has
    /// no record.
    fn judge(&mut self, alloc: Global, reader: &mut JsonReader, line: &[u8]) -> LineOutcome {
        let text = text_of(line);
        if is_blank(text) {
            return LineOutcome::Blank;
        }
        match record_of(alloc, reader, text) {
            Ok(members) => record_outcome(alloc, self, members),
            Err(refusal) => LineOutcome::Refused(refusal),
        }
    }
}
