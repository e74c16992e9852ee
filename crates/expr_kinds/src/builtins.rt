//! The check of built-ins on values, by their table.
ghost use Rattle.std.specs.Prelude.{IfOk, IfSome};
ghost use Rattle.expr_error.specs.ErrorKind.{OnlyMemory};
ghost use Rattle.expr_kinds.specs.BuiltinRows.{TellsBuiltin, TellsRow};

use crate::call_rows::call_rows;
use crate::checked::{Checked, CheckedArguments, joined_effect};
use crate::known_literals::cause_effect;
use crate::shapes::{CallRow, arguments_fit, item_kind, kind_of_shape};
use expr_functions::ValueCall;
use expr_value::Result;
use std::alloc::Global;

/// What is known of a call of a built-in on values, by the first of its rows that fits.
pub(crate) fn builtin_checked(
    alloc: Global,
    call: ValueCall,
    arguments: &CheckedArguments<'_>,
) -> Result<Checked>
    ensures ok { IfOk result (λ c. TellsBuiltin arguments.now call c) }
    ensures err { OnlyMemory result }
{
    for row in call_rows(call) {
        let found = row_given(alloc, row, arguments)?;
        if let Some(checked) = found {
            return Ok(checked);
        }
    }
    Ok(Checked::unknown())
}

/// What is known of a call by a row, or `None` if it doesn't fit.
fn row_given(
    alloc: Global,
    row: &CallRow,
    arguments: &CheckedArguments<'_>,
) -> Result<Option<Checked>>
    ensures ok { IfOk result (λ o. IfSome o (λ c. TellsRow arguments.now row.now c)) }
    ensures err { OnlyMemory result }
{
    let kinds = arguments.kinds.as_slice();
    let item = item_kind(alloc, kinds, row.takes, row.more)?;
    if !arguments_fit(alloc, kinds, row.takes, row.more, &item)? {
        return Ok(None);
    }
    let kind = kind_of_shape(alloc, row.gives, &item)?;
    let own = cause_effect(row.cause, arguments.literals.as_slice());
    let effect = joined_effect(arguments.effect, own);
    Ok(Some(Checked { kind, effect }))
}
