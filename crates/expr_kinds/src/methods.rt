//! The check of methods, by their tables. A row is a line of data.
ghost use Rattle.std.specs.Prelude.{◌≡◌, ℕ, List, IfOk, IfSome};
ghost use Rattle.expr_error.specs.ErrorKind.{OnlyMemory};
ghost use Rattle.expr_kinds.specs.BuiltinRows.{HasMethod, method_view, taken_kinds};
ghost use Rattle.expr_kinds.specs.Checks.{Checks, ChecksEach, base_kind};
ghost use Rattle.expr_kinds.specs.Methods.{failing_method, kind_of_field, method as steady_method, of_duration, of_moment, of_name};
ghost use Rattle.expr_schema.specs.KindView.{kind_view};
ghost use Rattle.expr_schema.specs.Kinds.{never};
ghost use Rattle.expr_schema.specs.Scopes.{Scope};
ghost use Rattle.expr_time.specs.Moments.{name_method};
ghost use Rattle.expr_time.specs.declared.moments.TextMethod.{TextMethod};
ghost use Rattle.expr_tree.specs.Term.{Term, Terms, method, postfix};

use crate::checked::{Checked, CheckedArguments, joined_effect};
use crate::known_literals::cause_effect;
use crate::shapes::Shape::Of;
use crate::shapes::{CallRow, Takes, arguments_fit, kind_of_shape};
use crate::tables::{Base, Cause};
use expr_moment::DateTimeField;
use expr_schema::Kind;
use expr_time::{DateTimeMethod, DurationMethod, TextMethod};
use expr_value::Result;
use std::alloc::Global;

/// What is known of a method of an operand.
pub(crate) fn method_checked(
    alloc: Global,
    operand: &Checked,
    name: &str,
    arguments: &CheckedArguments<'_>,
) -> Result<Checked>
    ensures ok { IfOk result (λ c. (s : Scope) (t : Term) (ts : Terms) → Checks operand.now s t
        → ChecksEach arguments.now s ts → Checks c s (postfix (method name.now ts) t)) }
    ensures err { OnlyMemory result }
{
    match method_row(&operand.kind, name) {
        Some(row) => method_given(alloc, row, operand, arguments),
        None => Ok(Checked::unknown()),
    }
}

/// What is known of a method with a row, if the values of the operand have it.
fn method_given(
    alloc: Global,
    row: CallRow,
    operand: &Checked,
    arguments: &CheckedArguments<'_>,
) -> Result<Checked>
    ensures ok { IfOk result (λ c. (key : List ℕ) (s : Scope) (t : Term) (ts : Terms)
        → HasMethod (kind_view operand.now.kind) key (method_view row) → Checks operand.now s t
        → ChecksEach arguments.now s ts → Checks c s (postfix (method key ts) t)) }
    ensures err { OnlyMemory result }
{
    let kinds = arguments.kinds.as_slice();
    let item = Kind::Never;
    if !arguments_fit(alloc, kinds, row.takes, Of(Base::Never), &item)? {
        return Ok(Checked::unknown());
    }
    let kind = kind_of_shape(alloc, row.gives, &item)?;
    let parts = joined_effect(operand.effect, arguments.effect);
    let own = cause_effect(row.cause, &[]);
    let effect = joined_effect(parts, own);
    Ok(Checked { kind, effect })
}

/// The row of the method with a name that values of a kind have, or `None`.
fn method_row(kind: &Kind, name: &str) -> Option<CallRow>
    ensures { IfSome result (λ r. HasMethod (kind_view kind.now) name.now (method_view r)) }
{
    match kind {
        Kind::Duration => match DurationMethod::from_name(name) {
            Some(method) => Some(duration_row(method)),
            None => None,
        },
        Kind::DateTime => match DateTimeMethod::from_name(name) {
            Some(method) => Some(moment_row(method)),
            None => None,
        },
        Kind::Timezone => named_row(name),
        Kind::Month => named_row(name),
        Kind::Weekday => named_row(name),
        _ => None,
    }
}

/// A method with these arguments, which never fails.
fn row(takes: Takes, gives: Base) -> CallRow
    ensures { method_view result ≡ steady_method (taken_kinds never takes) (base_kind gives) }
{
    CallRow {
        takes,
        more: Of(Base::Never),
        gives: Of(gives),
        cause: Cause::Nothing,
    }
}

/// The same, which may fail by what its values hold.
fn failing_row(takes: Takes, gives: Base) -> CallRow
    ensures { method_view result ≡ failing_method (taken_kinds never takes) (base_kind gives) }
{
    CallRow {
        takes,
        more: Of(Base::Never),
        gives: Of(gives),
        cause: Cause::Content,
    }
}

/// The methods of durations.
fn duration_row(method: DurationMethod) -> CallRow
    ensures { method_view result ≡ of_duration method }
{
    match method {
        DurationMethod::Abs => row(Takes::Nothing, Base::Duration),
        DurationMethod::Round => row(Takes::One(Of(Base::Duration)), Base::Duration),
        DurationMethod::Truncate => row(Takes::One(Of(Base::Duration)), Base::Duration),
        DurationMethod::Milliseconds => row(Takes::Nothing, Base::Integer),
        DurationMethod::Microseconds => row(Takes::Nothing, Base::Integer),
        DurationMethod::Nanoseconds => row(Takes::Nothing, Base::Integer),
        DurationMethod::String => row(Takes::Nothing, Base::Text),
    }
}

/// The methods of DateTimes.
fn moment_row(method: DateTimeMethod) -> CallRow
    ensures { method_view result ≡ of_moment method }
{
    match method {
        DateTimeMethod::Field(field) => row(Takes::Nothing, base_of_field(field)),
        DateTimeMethod::String => row(Takes::Nothing, Base::Text),
        DateTimeMethod::Location => failing_row(Takes::Nothing, Base::Timezone),
        DateTimeMethod::Utc => row(Takes::Nothing, Base::DateTime),
        DateTimeMethod::In => row(Takes::One(Of(Base::Timezone)), Base::DateTime),
        DateTimeMethod::Add => failing_row(Takes::One(Of(Base::Duration)), Base::DateTime),
        DateTimeMethod::Sub => failing_row(Takes::One(Of(Base::DateTime)), Base::Duration),
        DateTimeMethod::Round => failing_row(Takes::One(Of(Base::Duration)), Base::DateTime),
        DateTimeMethod::Truncate => failing_row(Takes::One(Of(Base::Duration)), Base::DateTime),
        DateTimeMethod::After => row(Takes::One(Of(Base::DateTime)), Base::Bool),
        DateTimeMethod::Before => row(Takes::One(Of(Base::DateTime)), Base::Bool),
        DateTimeMethod::Equal => row(Takes::One(Of(Base::DateTime)), Base::Bool),
        DateTimeMethod::Compare => row(Takes::One(Of(Base::DateTime)), Base::Integer),
        DateTimeMethod::AddDate => {
            let counts = Takes::Three(Of(Base::Integer), Of(Base::Integer), Of(Base::Integer));
            failing_row(counts, Base::DateTime)
        }
        DateTimeMethod::Format => row(Takes::One(Of(Base::Text)), Base::Text),
    }
}

/// The kind of a field of a DateTime.
fn base_of_field(field: DateTimeField) -> Base
    ensures { base_kind result ≡ kind_of_field field }
{
    match field {
        DateTimeField::Month => Base::Month,
        DateTimeField::Weekday => Base::Weekday,
        DateTimeField::IsZero => Base::Bool,
        DateTimeField::Year | DateTimeField::Day | DateTimeField::YearDay => Base::Integer,
        DateTimeField::Hour | DateTimeField::Minute | DateTimeField::Second => Base::Integer,
        DateTimeField::Nanosecond | DateTimeField::UnixNano => Base::Integer,
        DateTimeField::Unix | DateTimeField::UnixMilli | DateTimeField::UnixMicro => Base::Integer,
    }
}

/// The row of the method with a name that time zones, months and weekdays have, or `None`.
fn named_row(name: &str) -> Option<CallRow>
    ensures { IfSome result (λ r. (m : TextMethod) × (name_method m ≡ name.now)
        × (method_view r ≡ of_name m)) }
{
    match TextMethod::from_name(name) {
        Some(method) => Some(name_row(method)),
        None => None,
    }
}

/// The methods of time zones, months and weekdays.
fn name_row(method: TextMethod) -> CallRow
    ensures { method_view result ≡ of_name method }
{
    match method {
        TextMethod::String => row(Takes::Nothing, Base::Text),
    }
}
