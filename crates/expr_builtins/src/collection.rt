//! Built-ins on arrays and maps.
ghost use Rattle.std.specs.Prelude.{◌≡◌, ◌-◌, ◌++◌, None, Some, Ok, map, length, IfOk, OnOk};
ghost use Rattle.std.specs.Option.{option_copied, option_map};
ghost use Rattle.std.specs.Str.{chars};
ghost use Rattle.expr_error.specs.ErrorKind.{evaluation, OnlyMemory, RefusesWith};
ghost use Rattle.expr_value.specs.Values.{of_key, string_of, items_of};
ghost use Rattle.expr_value.specs.Answers.{Returns};
ghost use Rattle.expr_arguments.specs.Arguments.{all_of};
ghost use Rattle.expr_arguments.specs.Arrays.{array_items};
ghost use Rattle.expr_arguments.specs.Parts.{or_nil};
ghost use Rattle.expr_builtins.specs.Collections.{CollectionCalled, len, size_of, first, last, take_items, reversed_array, keys, values, to_pairs, from_pairs, get, join, concat, pair_of, two_items, concatenated, pair, named_pair, keyed_pair};

use crate::array::{first_items, item_at};
use crate::cuts::join_texts;
use crate::{distinct, nested};
use expr_arguments::{
    Array, CowValue, array_and_integer, array_and_text, array_or_itself, array_or_refusal,
    count_items, each_cow, into_items, item, one_array, one_value, refusal_of, two_values,
    unexpected_arguments, unexpected_integer, unexpected_item, unexpected_value,
};
use expr_functions::CollectionCall;
use expr_value::{Items, Key, KeyedMap, Result, Text, Value, ValueMap};
use std::alloc::{AllocError, Global};
use std::mem;

/// Calls a built-in on arrays and maps with these arguments. Parts that the result keeps are moved out of owned
/// arguments and copied from borrowed ones.
///
/// # Errors
///
/// Returns [`ExprError`](expr_value::Error::ExprError) if the built-in doesn't take this number or these kinds of
/// arguments, or if `take` is given a count below 0.
pub fn call_on_collections(
    alloc: Global,
    call: CollectionCall,
    arguments: &mut Vec<CowValue<'_>>,
) -> Result<Value>
    ensures { Returns result (CollectionCalled call arguments.old.items) }
{
    match call {
        CollectionCall::Len => len(alloc, arguments),
        CollectionCall::First => first(alloc, arguments),
        CollectionCall::Last => last(alloc, arguments),
        CollectionCall::Take => take_items(alloc, arguments),
        CollectionCall::Reverse => reverse(alloc, arguments),
        CollectionCall::Uniq => distinct::uniq(alloc, arguments),
        CollectionCall::Flatten => nested::flatten(alloc, arguments),
        CollectionCall::Concat => concat(alloc, mem::replace(arguments, Vec::new(alloc))),
        CollectionCall::Keys => keys(alloc, arguments),
        CollectionCall::Values => values(alloc, arguments),
        CollectionCall::ToPairs => to_pairs(alloc, arguments),
        CollectionCall::Get => get(alloc, arguments),
        CollectionCall::Join => join(alloc, arguments),
        CollectionCall::FromPairs => from_pairs(alloc, arguments),
    }
}

/// `len`: number of items, characters, bytes or pairs.
fn len(alloc: Global, arguments: &[CowValue<'_>]) -> Result<Value>
    ensures { Returns result (λ answer. answer ≡ len arguments.now) }
{
    let Some(value) = one_value(arguments) else {
        return Err(unexpected_arguments(alloc, "len takes one value", arguments));
    };
    let Some(count) = size(value) else {
        return Err(unexpected_value(alloc, "len takes an array, a string, bytes or a map", value));
    };
    Ok(Value::from(count))
}

fn size(value: &Value) -> Option<usize>
    ensures { result ≡ size_of value.now }
{
    match value {
        Value::String(text) => Some(characters(text.as_str())),
        Value::Array(items) => Some(items.len()),
        Value::Bytes(bytes) => Some(bytes.len()),
        Value::Map(map) => Some(map.len()),
        Value::KeyedMap(map) => Some(map.len()),
        _ => None,
    }
}

fn characters(text: &str) -> usize
    ensures { result ≡ length (chars text.now) }
{
    text.chars().count()
}

/// `first`: the first item of an array, or nil.
fn first(alloc: Global, arguments: &mut [CowValue<'_>]) -> Result<Value>
    ensures { Returns result (λ answer. answer ≡ first arguments.old) }
{
    let Some(array) = one_array(arguments) else {
        return Err(unexpected_arguments(alloc, "first takes an array", arguments));
    };
    item_at(array, 0)
}

/// `last`: the last item of an array, or nil.
fn last(alloc: Global, arguments: &mut [CowValue<'_>]) -> Result<Value>
    ensures { Returns result (λ answer. answer ≡ last arguments.old) }
{
    let Some(array) = one_array(arguments) else {
        return Err(unexpected_arguments(alloc, "last takes an array", arguments));
    };
    let last = count_items(&array).saturating_sub(1);
    item_at(array, last)
}

/// `take`: the first items of an array, as many as the second argument says. A count below 0 is an error.
fn take_items(alloc: Global, arguments: &mut [CowValue<'_>]) -> Result<Value>
    ensures { Returns result (λ answer. answer ≡ take_items arguments.old) }
{
    let Some((array, count)) = array_and_integer(arguments) else {
        return Err(unexpected_arguments(alloc, "take takes an array and an integer", arguments));
    };
    if count < 0 {
        return Err(unexpected_integer(alloc, "take takes a count of 0 or more", count));
    }
    let items = first_items(alloc, array, count as usize)?;
    Ok(Value::Array(Items::from_vec(items)))
}

/// `reverse`: the items of an array, the last first.
fn reverse(alloc: Global, arguments: &mut [CowValue<'_>]) -> Result<Value>
    ensures { Returns result (λ answer. answer ≡ reversed_array arguments.old) }
{
    let Some(array) = one_array(arguments) else {
        return Err(unexpected_arguments(alloc, "reverse takes an array", arguments));
    };
    let mut items = into_items(alloc, array)?;
    items.reverse();
    Ok(Value::Array(Items::from_vec(items)))
}

/// `keys`: the keys of a map, in its order.
fn keys(alloc: Global, arguments: &[CowValue<'_>]) -> Result<Value>
    ensures { Returns result (λ answer. answer ≡ keys arguments.now) }
{
    let Some(value) = one_value(arguments) else {
        return Err(unexpected_arguments(alloc, "keys takes a map", arguments));
    };
    match value {
        Value::Map(map) => names(alloc, map.keys()),
        Value::KeyedMap(map) => scalars(alloc, map.keys()),
        _ => Err(unexpected_value(alloc, "keys takes a map", value)),
    }
}

fn names(alloc: Global, names: &[Text]) -> Result<Value>
    ensures ok { IfOk result (λ v. v ≡ Value.Array (map Value.String names.now)) }
    ensures err { OnlyMemory result }
{
    let mut items = Vec::with_capacity(alloc, names.len())?;
    for i in 0..names.len() {
        items.push(Value::text(alloc, names[i].as_str())?)?;
    }
    Ok(Value::Array(Items::from_vec(items)))
}

fn scalars(alloc: Global, keys: &[Key]) -> Result<Value>
    ensures ok { IfOk result (λ v. v ≡ Value.Array (map of_key keys.now)) }
    ensures err { OnlyMemory result }
{
    let mut items = Vec::with_capacity(alloc, keys.len())?;
    for i in 0..keys.len() {
        items.push(keys[i].to_value(alloc)?)?;
    }
    Ok(Value::Array(Items::from_vec(items)))
}

/// `values`: the values of a map, in its order.
fn values(alloc: Global, arguments: &[CowValue<'_>]) -> Result<Value>
    ensures { Returns result (λ answer. answer ≡ values arguments.now) }
{
    let Some(value) = one_value(arguments) else {
        return Err(unexpected_arguments(alloc, "values takes a map", arguments));
    };
    match value {
        Value::Map(map) => {
            let values = map.values().to_vec(alloc)?;
            Ok(Value::Array(Items::from_vec(values)))
        }
        Value::KeyedMap(map) => {
            let values = map.values().to_vec(alloc)?;
            Ok(Value::Array(Items::from_vec(values)))
        }
        _ => Err(unexpected_value(alloc, "values takes a map", value)),
    }
}

/// `get`: the part of a value at a key, or nil.
fn get(alloc: Global, arguments: &[CowValue<'_>]) -> Result<Value>
    ensures { Returns result (λ answer. answer ≡ get arguments.now) }
{
    let Some((value, key)) = two_values(arguments) else {
        return Err(unexpected_arguments(alloc, "get takes a value and a key", arguments));
    };
    match (value, key) {
        (Value::Array(items), Value::Integer(place)) => {
            copied_or_nil(item(items.as_slice(), *place))
        }
        (Value::Bytes(bytes), Value::Integer(place)) => match item(bytes.as_slice(), *place) {
            Some(byte) => Ok(Value::Integer(i64::from(*byte))),
            None => Ok(Value::Nil),
        },
        (Value::Map(map), Value::String(name)) => copied_or_nil(map.get(name.as_str())),
        (Value::KeyedMap(map), _) => copied_or_nil(map.get(key)),
        _ => Err(unexpected_arguments(
            alloc,
            "get takes an array or bytes and an integer, or a map and a key",
            arguments,
        )),
    }
}

fn copied_or_nil(found: Option<&Value>) -> Result<Value>
    ensures ok { IfOk result (λ v. Ok v ≡ or_nil (option_copied found.entry)) }
    ensures err { OnlyMemory result }
{
    match found {
        Some(value) => Ok(value.clone()?),
        None => Ok(Value::Nil),
    }
}

/// `join`: the strings of an array, with a separator between.
fn join(alloc: Global, arguments: &[CowValue<'_>]) -> Result<Value>
    ensures { Returns result (λ answer. answer ≡ join arguments.now) }
{
    let Some((items, separator)) = array_and_text(arguments) else {
        return Err(unexpected_arguments(
            alloc,
            "join takes an array and an optional string",
            arguments,
        ));
    };
    let parts = texts(alloc, items)?;
    let text = join_texts(alloc, &parts, separator)?;
    Ok(Value::String(Text::from_string(text)))
}

// The strings. A value that is none gives `ExprError`.
fn texts(alloc: Global, items: &[Value]) -> Result<Vec<&str>>
    ensures ok { IfOk result (λ v. all_of string_of items.now ≡ Some (map (λ t. t.now) v.items)) }
    ensures kind { RefusesWith result (λ k. k ≡ evaluation) }
    ensures refused { RefusesWith result (λ k. all_of string_of items.now ≡ None) }
{
    let mut parts = Vec::with_capacity(alloc, items.len())?;
    for i in 0..items.len() {
        let Some(text) = items[i].as_string() else {
            return Err(unexpected_item(alloc, "join takes an array of strings", &items[i], i));
        };
        parts.push(text)?;
    }
    Ok(parts)
}

/// `toPairs`: the pairs of a map, in its order, as arrays of two.
fn to_pairs(alloc: Global, arguments: &[CowValue<'_>]) -> Result<Value>
    ensures { Returns result (λ answer. answer ≡ to_pairs arguments.now) }
{
    let Some(value) = one_value(arguments) else {
        return Err(unexpected_arguments(alloc, "toPairs takes a map", arguments));
    };
    match value {
        Value::Map(map) => named_pairs(alloc, map),
        Value::KeyedMap(map) => keyed_pairs(alloc, map),
        _ => Err(unexpected_value(alloc, "toPairs takes a map", value)),
    }
}

fn named_pairs(alloc: Global, pairs: &ValueMap) -> Result<Value>
    ensures ok { IfOk result (λ v. v ≡ Value.Array (map named_pair pairs.now)) }
    ensures err { OnlyMemory result }
{
    let mut items = Vec::with_capacity(alloc, pairs.len())?;
    for i in 0..pairs.len() {
        let Some((name, value)) = pairs.get_index(i) else {
            break;
        };
        let name = Value::text(alloc, name)?;
        items.push(pair(alloc, name, value)?)?;
    }
    Ok(Value::Array(Items::from_vec(items)))
}

fn keyed_pairs(alloc: Global, pairs: &KeyedMap) -> Result<Value>
    ensures ok { IfOk result (λ v. v ≡ Value.Array (map keyed_pair pairs.now)) }
    ensures err { OnlyMemory result }
{
    let mut items = Vec::with_capacity(alloc, pairs.len())?;
    for i in 0..pairs.len() {
        let Some((key, value)) = pairs.get_index(i) else {
            break;
        };
        let key = key.to_value(alloc)?;
        items.push(pair(alloc, key, value)?)?;
    }
    Ok(Value::Array(Items::from_vec(items)))
}

fn pair(alloc: Global, key: Value, value: &Value) -> Result<Value>
    ensures ok { IfOk result (λ v. v ≡ pair key value.now) }
    ensures err { OnlyMemory result }
{
    let items = Vec::from_array(alloc, [key, value.clone()?])?;
    Ok(Value::Array(Items::from_vec(items)))
}

/// `fromPairs`: a map of arrays of two. A repeated key stays as first given, at its first position, and takes its last
/// value.
fn from_pairs(alloc: Global, arguments: &mut [CowValue<'_>]) -> Result<Value>
    ensures { Returns result (λ answer. answer ≡ from_pairs arguments.old) }
{
    let Some(array) = one_array(arguments) else {
        return Err(unexpected_arguments(alloc, "fromPairs takes an array", arguments));
    };
    let items = each_cow(alloc, array)?;
    let pairs = pairs_of_items(alloc, items)?;
    let map = KeyedMap::from_pairs(alloc, pairs)?;
    Ok(Value::KeyedMap(map))
}

fn pairs_of_items(alloc: Global, items: Vec<CowValue<'_>>) -> Result<Vec<(Value, Value)>>
    ensures ok { IfOk result (λ v. all_of pair_of items.entry.items ≡ Some v.items) }
    ensures kind { RefusesWith result (λ k. k ≡ evaluation) }
    ensures refused { RefusesWith result (λ k. all_of pair_of items.entry.items ≡ None) }
{
    let mut pairs = Vec::with_capacity(alloc, items.len())?;
    for item in items {
        let pair = pair_of_item(alloc, pairs.len(), item)?;
        pairs.push(pair)?;
    }
    Ok(pairs)
}

const PAIRS: &str = "fromPairs takes an array of arrays with two items each";

// The pair that the item at an index is.
fn pair_of_item(alloc: Global, index: usize, value: CowValue<'_>) -> Result<(Value, Value)>
    ensures ok { IfOk result (λ pair. pair_of value.entry ≡ Some pair) }
    ensures kind { RefusesWith result (λ k. k ≡ evaluation) }
    ensures refused { RefusesWith result (λ k. pair_of value.entry ≡ None) }
{
    let array = match array_or_itself(value) {
        Ok(array) => array,
        Err(other) => return Err(unexpected_item(alloc, PAIRS, other.get(), index)),
    };
    let count = count_items(&array);
    match two_of_array(array)? {
        Some(pair) => Ok(pair),
        None => Err(refusal_of(format!(in alloc;
            "{PAIRS}, found an Array of length {count} at index {index}"
        ))),
    }
}

fn two_of_array(array: Array<'_>) -> Result<Option<(Value, Value)>>
    ensures ok { IfOk result (λ found. found ≡ two_items (array_items array.entry)) }
    ensures err { OnlyMemory result }
{
    match array {
        Array::Owned(items) => Ok(take_two_items(&mut items.into_vec())),
        Array::Borrowed(items) => copy_two_items(items.as_slice()),
    }
}

fn take_two_items(items: &mut [Value]) -> Option<(Value, Value)>
    ensures { result ≡ two_items items.old }
{
    if items.len() != 2 {
        return None;
    }
    Some((std::mem::take(&mut items[0]), std::mem::take(&mut items[1])))
}

fn copy_two_items(items: &[Value]) -> Result<Option<(Value, Value)>>
    ensures ok { IfOk result (λ found. found ≡ two_items items.now) }
    ensures err { OnlyMemory result }
{
    match items {
        [key, value] => Ok(Some((key.clone()?, value.clone()?))),
        _ => Ok(None),
    }
}

/// `concat`: the items of several arrays, one array after the other.
fn concat(alloc: Global, arguments: Vec<CowValue<'_>>) -> Result<Value>
    ensures { Returns result (λ answer. answer ≡ concat arguments.entry.items) }
{
    if arguments.is_empty() {
        return Err(unexpected_arguments(alloc, CONCAT, &arguments));
    }
    let items = append_all(alloc, Vec::new(alloc), arguments)?;
    Ok(Value::Array(Items::from_vec(items)))
}

const CONCAT: &str = "concat takes arrays";

// Allocates once, for the items of all arrays.
fn append_all(alloc: Global, front: Vec<Value>, arrays: Vec<CowValue<'_>>) -> Result<Vec<Value>>
    ensures ok { IfOk result (λ v. option_map
        (λ rows. front.items ++ concatenated rows) (all_of items_of arrays.entry.items) ≡ Some v.items) }
    ensures kind { RefusesWith result (λ k. k ≡ evaluation) }
    ensures refused { RefusesWith result (λ k. all_of items_of arrays.entry.items ≡ None) }
{
    let items = arrays.iter().filter_map(|array| array.get().as_array());
    let more = items.fold(0, |sum: usize, items| sum.saturating_add(items.len()));
    let mut all = front;
    all.reserve(more)?;
    for value in arrays {
        let array = array_or_refusal(alloc, CONCAT, value)?;
        append(&mut all, array)?;
    }
    Ok(all)
}

fn append(all: &mut Vec<Value>, array: Array<'_>) -> std::result::Result<(), AllocError>
    ensures { OnOk result (all.new.items ≡ all.old.items ++ array_items array.entry) }
{
    match array {
        Array::Owned(items) => all.append(&mut items.into_vec()),
        Array::Borrowed(items) => all.extend_from_slice(items.as_slice()),
    }
}
