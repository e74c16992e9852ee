//! Arrays within arrays.
ghost use Rattle.std.specs.Prelude.{◌≡◌, IfOk};
ghost use Rattle.expr_value.specs.Answers.{Returns};
ghost use Rattle.expr_builtins.specs.Nested.{flatten, all_flat_items};
ghost use Rattle.expr_error.specs.ErrorKind.{OnlyMemory};

use expr_arguments::{
    CowValue, array_or_itself, each_cow, one_array, unexpected_arguments, values_of_cows,
};
use expr_value::{Items, Result, Value};
use std::alloc::Global;

/// `flatten`: an array whose nested arrays are replaced by their items, at every depth.
pub(crate) fn flatten(alloc: Global, arguments: &mut [CowValue<'_>]) -> Result<Value>
    ensures { Returns result (λ answer. answer ≡ flatten arguments.old) }
{
    let Some(array) = one_array(arguments) else {
        return Err(unexpected_arguments(alloc, "flatten takes an array", arguments));
    };
    let found = flat_items(alloc, each_cow(alloc, array)?)?;
    let items = values_of_cows(alloc, found)?;
    Ok(Value::Array(Items::from_vec(items)))
}

/// Values with each array replaced by its items, at every depth. The arrays that wait are kept in a list, so that no
/// depth takes stack.
pub(crate) fn flat_items<'a>(alloc: Global, values: Vec<CowValue<'a>>) -> Result<Vec<CowValue<'a>>>
    ensures ok { IfOk result (λ found. found.items ≡ all_flat_items values.entry.items) }
    ensures err { OnlyMemory result }
{
    let mut waiting = values;
    waiting.reverse();
    let mut found = Vec::new(alloc);
    while let Some(value) = waiting.pop() {
        match array_or_itself(value) {
            Ok(array) => {
                let mut items = each_cow(alloc, array)?;
                items.reverse();
                waiting.append(&mut items)?;
            }
            Err(value) => found.push(value)?,
        }
    }
    Ok(found)
}
