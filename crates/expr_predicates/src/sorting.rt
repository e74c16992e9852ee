//! Sorting items by key.
ghost use Rattle.std.specs.Prelude.{◌≡◌, map, true, false, IfOk, OnOk};
ghost use Rattle.std.specs.List.{list_all};
ghost use Rattle.std.specs.List.Sorted.{IsPermutation, IsSortedBy, IsStableBy};
ghost use Rattle.expr_value.specs.Answers.{Returns};
ghost use Rattle.expr_value.specs.Values.{of_key};
ghost use Rattle.expr_error.specs.ErrorKind.{evaluation, IsOfKind};
ghost use Rattle.expr_predicates.specs.Sorting.{IsSorting, Sorts, SortsPairs, own_keys, are_alike, is_integer, is_text, precedes, own_answers, sort_key, items_alike};

use expr_arguments::{unexpected, unexpected_value};
use expr_value::{Error, Items, Key, Result, Value};
use std::alloc::{AllocError, Global};

/// The kind of a value that is no scalar.
#[derive(Clone, Copy)]
pub(crate) enum Composite {
    Array,
    Bytes,
    Map,
    KeyedMap,
}

impl Composite {
    /// The kind of a value, or `None` for a scalar.
    pub(crate) fn of(value: &Value) -> Option<Composite> {
        match value {
            Value::Array(_) => Some(Composite::Array),
            Value::Bytes(_) => Some(Composite::Bytes),
            Value::Map(_) => Some(Composite::Map),
            Value::KeyedMap(_) => Some(Composite::KeyedMap),
            _ => None,
        }
    }

    /// The kind with its article, for messages.
    fn name(self) -> &'static str {
        match self {
            Composite::Array => "an Array",
            Composite::Bytes => "Bytes",
            Composite::Map => "a Map",
            Composite::KeyedMap => "a KeyedMap",
        }
    }
}

/// The items sorted by their keys. Items with equal keys keep their order. `composite` is the kind of a result that is
/// no scalar, if there is one, for the message.
///
/// # Errors
///
/// Returns `ExprError` if the keys are neither all integers nor all strings.
pub(crate) fn sort_by_keys(
    alloc: Global,
    down: bool,
    pairs: Vec<(Key, Value)>,
    composite: Option<Composite>,
) -> Result<Value>
    ensures { Returns result (SortsPairs down pairs.items) }
{
    if !are_alike(&pairs) {
        return Err(unlike_keys(alloc, pairs, composite));
    }
    let mut pairs = pairs;
    sort_pairs(down, &mut pairs)?;
    let items = items_of(alloc, pairs)?;
    Ok(Value::Array(Items::from_vec(items)))
}

/// The items, sorted. Equal items keep their order. They are moved into keys and back, without copies.
///
/// # Errors
///
/// Returns `ExprError` if the items are neither all integers nor all strings.
pub fn sort_items(alloc: Global, down: bool, items: Vec<Value>) -> Result<Value>
    ensures { Returns result (Sorts down (own_answers items.items)) }
{
    if !are_alike_items(&items) {
        return Err(unlike_items(alloc, &items));
    }
    let mut keys = own_keys(alloc, items)?;
    sort_pairs(down, &mut keys)?;
    let items = values_of(alloc, keys)?;
    Ok(Value::Array(Items::from_vec(items)))
}

const BOTH: &str = "an Integer and a String";

// The error for keys that aren't alike: the kind of a result that is no scalar, or else of the first key that is
// neither an integer nor a string. Without one, there are both.
fn unlike_keys(alloc: Global, pairs: Vec<(Key, Value)>, composite: Option<Composite>) -> Error
    ensures { IsOfKind result evaluation }
{
    let expected = "sortBy takes a predicate that returns only integers or only strings";
    if let Some(composite) = composite {
        return unexpected(alloc, expected, &composite.name());
    }
    for (key, _) in pairs {
        if !is_integer(&key) && !is_text(&key) {
            return unexpected_value(alloc, expected, &value_of(key));
        }
    }
    unexpected(alloc, expected, &BOTH)
}

// The error for items that aren't alike: the kind of the first that is neither an integer nor a string. Without one,
// there are both.
fn unlike_items(alloc: Global, items: &[Value]) -> Error
    ensures { IsOfKind result evaluation }
{
    let expected = "sort takes an array of integers or an array of strings";
    for item in items {
        if !is_integer_item(item) && !is_text_item(item) {
            return unexpected_value(alloc, expected, item);
        }
    }
    unexpected(alloc, expected, &BOTH)
}

/// The keys of some items.
fn own_keys(alloc: Global, items: Vec<Value>) -> std::result::Result<Vec<(Key, ())>, AllocError>
    ensures { IfOk result (λ v. v.items ≡ own_keys items.items) }
{
    items
        .into_iter()
        .map(|item: Value| (item.into_key().unwrap_or(Key::Nil), ()))
        .collect(alloc)
}

/// The items of some keys.
fn values_of(alloc: Global, keys: Vec<(Key, ())>) -> std::result::Result<Vec<Value>, AllocError>
    ensures { IfOk result (λ v. v.items ≡ map (λ p. of_key p.0) keys.items) }
{
    keys.into_iter()
        .map(|pair: (Key, ())| value_of(pair.0))
        .collect(alloc)
}

/// The value of a key.
fn value_of(key: Key) -> Value
    ensures { result ≡ of_key key }
{
    match key {
        Key::Nil => Value::Nil,
        Key::Bool(truth) => Value::Bool(truth),
        Key::Integer(number) => Value::Integer(number),
        Key::String(text) => Value::String(text),
        Key::Duration(nanoseconds) => Value::Duration(nanoseconds),
        Key::Month(number) => Value::Month(number),
        Key::Weekday(number) => Value::Weekday(number),
        Key::DateTime(moment) => Value::DateTime(moment),
        Key::Timezone(zone) => Value::Timezone(zone),
    }
}

/// Whether the keys are all integers or all strings.
fn are_alike<T>(pairs: &[(Key, T)]) -> bool
    ensures { result ≡ are_alike pairs.now }
{
    are_integers(pairs) || are_texts(pairs)
}

fn are_integers<T>(pairs: &[(Key, T)]) -> bool
    ensures { result ≡ list_all (λ p. is_integer p.0) pairs.now }
{
    pairs.iter().all(|pair| is_integer(&pair.0))
}

fn are_texts<T>(pairs: &[(Key, T)]) -> bool
    ensures { result ≡ list_all (λ p. is_text p.0) pairs.now }
{
    pairs.iter().all(|pair| is_text(&pair.0))
}

fn is_integer(key: &Key) -> bool
    ensures { result ≡ is_integer key.now }
{
    matches!(key, Key::Integer(_))
}

fn is_text(key: &Key) -> bool
    ensures { result ≡ is_text key.now }
{
    matches!(key, Key::String(_))
}

/// Whether the items are all integers or all strings.
fn are_alike_items(items: &[Value]) -> bool
    ensures { result ≡ items_alike items.now }
{
    are_integer_items(items) || are_text_items(items)
}

fn are_integer_items(items: &[Value]) -> bool
    ensures { result ≡ list_all (λ x. is_integer (sort_key x)) items.now }
{
    items.iter().all(|item| is_integer_item(item))
}

fn are_text_items(items: &[Value]) -> bool
    ensures { result ≡ list_all (λ x. is_text (sort_key x)) items.now }
{
    items.iter().all(|item| is_text_item(item))
}

fn is_integer_item(item: &Value) -> bool
    ensures { result ≡ is_integer (sort_key item.now) }
{
    item.as_integer().is_some()
}

fn is_text_item(item: &Value) -> bool
    ensures { result ≡ is_text (sort_key item.now) }
{
    item.as_string().is_some()
}

/// Sorts pairs by their keys. Pairs with equal keys keep their order.
fn sort_pairs<T>(down: bool, pairs: &mut Vec<(Key, T)>) -> std::result::Result<(), AllocError>
    ensures { OnOk result (IsSorting down pairs.old.items pairs.new.items) }
{
    if down {
        sort_downward(pairs)
    } else {
        sort_upward(pairs)
    }
}

fn sort_upward<T>(pairs: &mut Vec<(Key, T)>) -> std::result::Result<(), AllocError>
    ensures permutation { IsPermutation pairs.old.items pairs.new.items }
    ensures sorted { OnOk result (IsSortedBy (precedes false) pairs.new.items) }
    ensures stable { IsStableBy (precedes false) pairs.old.items pairs.new.items }
{
    pairs.sort_by(|a: &(Key, T), b: &(Key, T)| a.0.cmp(&b.0))
}

fn sort_downward<T>(pairs: &mut Vec<(Key, T)>) -> std::result::Result<(), AllocError>
    ensures permutation { IsPermutation pairs.old.items pairs.new.items }
    ensures sorted { OnOk result (IsSortedBy (precedes true) pairs.new.items) }
    ensures stable { IsStableBy (precedes true) pairs.old.items pairs.new.items }
{
    pairs.sort_by(|a: &(Key, T), b: &(Key, T)| b.0.cmp(&a.0))
}

/// The items without their keys.
fn items_of(alloc: Global, pairs: Vec<(Key, Value)>) -> std::result::Result<Vec<Value>, AllocError>
    ensures { IfOk result (λ v. v.items ≡ map (λ p. p.1) pairs.items) }
{
    pairs
        .into_iter()
        .map(|pair: (Key, Value)| pair.1)
        .collect(alloc)
}
