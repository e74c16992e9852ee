//! Arrays among the arguments, owned or borrowed. Items of an owned array are moved out, and items of a borrowed one
//! are copied if they are kept.
ghost use Rattle.std.specs.Prelude.{◌≡◌, None, length, IfOk, IfErr};
ghost use Rattle.std.specs.Option.{option_map};
ghost use Rattle.expr_arguments.specs.Cow.{cow_value};
ghost use Rattle.expr_value.specs.Values.{items_of};
ghost use Rattle.expr_arguments.specs.Arrays.{array_items};
ghost use Rattle.expr_error.specs.ErrorKind.{OnlyMemory};

use crate::cow::{Cow, CowValue};
use expr_value::{Items, Result, Value};
use std::alloc::Global;

/// The items of an array.
#[derive(Drop)]
pub enum Array<'a> {
    /// The call owns them.
    Owned(Items<Value>),
    /// They belong to an array elsewhere.
    Borrowed(&'a Items<Value>),
}

/// The array, or `None` if the value is none.
pub fn array_of(value: Cow<'_>) -> Option<Array<'_>>
    ensures { option_map array_items result ≡ items_of (cow_value value.entry) }
{
    match value {
        Cow::Owned(Value::Array(items)) => Some(Array::Owned(items)),
        Cow::Borrowed(Value::Array(items)) => Some(Array::Borrowed(items)),
        _ => None,
    }
}

/// The array, or the value itself if it is none.
pub fn array_or_itself(value: CowValue<'_>) -> std::result::Result<Array<'_>, CowValue<'_>>
    ensures array { IfOk result (λ array. value.entry ≡ Value.Array (array_items array)) }
    ensures itself { IfErr result (λ same. same ≡ value.entry) }
    ensures other { IfErr result (λ same. items_of same ≡ None) }
{
    match value.into_cow() {
        Cow::Owned(Value::Array(items)) => Ok(Array::Owned(items)),
        Cow::Borrowed(Value::Array(items)) => Ok(Array::Borrowed(items)),
        Cow::Owned(other) => Err(CowValue::from_owned(other)),
        Cow::Borrowed(other) => Err(CowValue::from_borrowed(other)),
    }
}

/// Number of items.
pub fn count_items(array: &Array<'_>) -> usize
    ensures { result ≡ length (array_items array.now) }
{
    match array {
        Array::Owned(items) => items.len(),
        Array::Borrowed(items) => items.len(),
    }
}

/// Moves the items out of an owned array, or copies those of a borrowed one.
pub fn into_items<'a>(alloc: Global, array: Array<'a>) -> Result<Vec<Value>>
    ensures ok { IfOk result (λ all. all.items ≡ array_items array.entry) }
    ensures err { OnlyMemory result }
{
    match array {
        Array::Owned(items) => Ok(items.into_vec()),
        Array::Borrowed(items) => Ok(items.as_slice().to_vec(alloc)?),
    }
}

/// The items one by one, owned or borrowed as the array is.
pub fn each_cow(alloc: Global, array: Array<'_>) -> Result<Vec<CowValue<'_>>>
    ensures ok { IfOk result (λ held. held.items ≡ array_items array.entry) }
    ensures err { OnlyMemory result }
{
    let held = array;
    match held {
        Array::Owned(items) => each_own(alloc, items.into_vec()),
        Array::Borrowed(items) => each_lent(alloc, items.as_slice()),
    }
}

/// Wraps the values, which the call owns.
pub fn cows_of_values<'a>(alloc: Global, values: Vec<Value>) -> Result<Items<CowValue<'a>>>
    ensures ok { IfOk result (λ held. held ≡ values.items) }
    ensures err { OnlyMemory result }
{
    let held = each_own(alloc, values)?;
    Ok(Items::from_vec(held))
}

fn each_own<'a>(alloc: Global, items: Vec<Value>) -> Result<Vec<CowValue<'a>>>
    ensures ok { IfOk result (λ held. held.items ≡ items.items) }
    ensures err { OnlyMemory result }
{
    let mut held = Vec::with_capacity(alloc, items.len())?;
    for item in items {
        held.push(CowValue::from_owned(item))?;
    }
    Ok(held)
}

fn each_lent(alloc: Global, items: &[Value]) -> Result<Vec<CowValue<'_>>>
    ensures ok { IfOk result (λ held. held.items ≡ items.now) }
    ensures err { OnlyMemory result }
{
    let mut held = Vec::with_capacity(alloc, items.len())?;
    for item in items {
        held.push(CowValue::from_borrowed(item))?;
    }
    Ok(held)
}

/// Unwraps the values. Those that are borrowed are copied.
pub fn values_of_cows(alloc: Global, held: Vec<CowValue<'_>>) -> Result<Vec<Value>>
    ensures ok { IfOk result (λ values. values.items ≡ held.entry.items) }
    ensures err { OnlyMemory result }
{
    let mut values = Vec::with_capacity(alloc, held.len())?;
    for value in held {
        values.push(value.into_value()?)?;
    }
    Ok(values)
}
