//! Accumulators of built-ins that keep items or results.
ghost use Rattle.std.specs.Prelude.{◌≡◌, ◌<◌, ◌∷◌, ◌++◌, [], List, IfOk, IfSome, IsSomeAnd, OnOk, Some, None, true, false, if◌then◌else◌, vec_capacity, vec_len};
ghost use Rattle.std.specs.Option.{option_or};
ghost use Rattle.expr_value.specs.Answers.{Returns};
ghost use Rattle.expr_value.specs.Values.{key_of};
ghost use Rattle.expr_error.specs.ErrorKind.{evaluation, OnlyMemory, RefusesWith};
ghost use Rattle.expr_value.specs.declared.key.Key.{Key as key};
ghost use Rattle.expr_predicates.specs.Noting.{ValuesNote};
ghost use Rattle.expr_predicates.specs.Plains.{plain_value};
ghost use Rattle.expr_predicates.specs.Sorting.{sort_key};
ghost use Rattle.expr_value.specs.declared.value.Value as value;

use crate::grouping::group_by_key;
use crate::run::{Noted, Plain};
use crate::scalar_accumulator::is_true;
use crate::sorting::{Composite, sort_by_keys};
use expr_arguments::{Cow, CowValue, kind_of, unexpected};
use expr_functions::HigherOrderCall;
use expr_value::{Items, Key, Result, Value};
use std::alloc::{AllocError, Global};

/// What is kept of the items and results so far.
#[derive(Drop)]
pub(crate) enum ValueAccumulator {
    /// The results.
    Map(Vec<Value>),
    /// The items whose result was true.
    Filter(Vec<Value>),
    /// The first item whose result was true.
    Find(Option<Value>),
    /// The last result, or the initial value. Nil while it is moved out.
    Reduce(Value),
    /// The items with their keys.
    GroupBy(Vec<(Key, Value)>),
    /// The items with their keys, and whether the order is descending. A result that can't be a key is found at the
    /// end, and its kind is kept for the message.
    SortBy(bool, Vec<(Key, Value)>, Option<Composite>),
}

impl ValueAccumulator {
    ghost use Rattle.expr_predicates.specs.Folds.{Fold, ItemAnswer, FoldOutcome, refuses_answer, has_stopped, values_fold};
    ghost use Rattle.expr_predicates.specs.Accumulators.{ValuesRepresent, ValuesRepresentRest};

    /// The accumulator before any result, for a built-in that keeps items or results.
    pub(crate) fn at_start(alloc: Global, call: HigherOrderCall) -> Option<ValueAccumulator>
        ensures begun { IfSome result (λ a. IsSomeAnd (values_fold call) (λ t. ValuesRepresent a t [])) }
        ensures none { result ≡ None → values_fold call ≡ None }
    {
        match call {
            HigherOrderCall::Map => Some(ValueAccumulator::Map(Vec::new(alloc))),
            HigherOrderCall::Filter => Some(ValueAccumulator::Filter(Vec::new(alloc))),
            HigherOrderCall::Find => Some(ValueAccumulator::Find(None)),
            HigherOrderCall::GroupBy => Some(ValueAccumulator::GroupBy(Vec::new(alloc))),
            HigherOrderCall::SortBy => Some(ValueAccumulator::SortBy(false, Vec::new(alloc), None)),
            _ => None,
        }
    }

    /// Whether no more results are needed.
    pub(crate) fn has_stopped(&self) -> bool
        ensures { (t : Fold) (rs : List ItemAnswer) → ValuesRepresent self.now t rs
            → result ≡ has_stopped t rs }
    {
        match self {
            ValueAccumulator::Find(found) => found.is_some(),
            _ => false,
        }
    }

    /// Adds a result, for this item. A borrowed item is copied if it is kept.
    #[inline(always)]
    pub(crate) fn take(&mut self, alloc: Global, item: CowValue<'_>, answer: Value) -> Result<()>
        ensures kept { IfOk result (λ _. (t : Fold) (rs : List ItemAnswer) → ValuesRepresentRest self.old t rs
            → ValuesRepresent self.new t (rs ++ (item.entry, answer) ∷ [])
            × (refuses_answer t answer ≡ false)) }
        ensures refused { RefusesWith result (λ k. (t : Fold) (rs : List ItemAnswer)
            → ValuesRepresentRest self.old t rs → (refuses_answer t answer ≡ true) × (k ≡ evaluation)) }
    {
        match self {
            ValueAccumulator::Map(answers) => {
                put_last(answers, answer)?;
                Ok(())
            }
            ValueAccumulator::Filter(kept) => {
                keep_if(kept, is_true(&answer), item)?;
                Ok(())
            }
            ValueAccumulator::Find(found) => {
                find_if(found, is_true(&answer), item)?;
                Ok(())
            }
            ValueAccumulator::Reduce(acc) => {
                *acc = answer;
                Ok(())
            }
            ValueAccumulator::GroupBy(pairs) => put_beside(alloc, pairs, answer, item),
            ValueAccumulator::SortBy(_, pairs, composite) => put_by(pairs, composite, answer, item),
        }
    }

    /// Takes a result that needs no allocation.
    #[inline(always)]
    pub(crate) fn note(&mut self, answer: Plain<'_>) -> Noted
        ensures { ValuesNote result self.old self.new (plain_value answer.entry) }
    {
        match answer {
            Plain::Bool(truth) => self.note_truth(truth),
            Plain::Integer(n) => self.note_integer(n),
            Plain::Lent(_) => Noted::Not,
        }
    }

    /// Takes a boolean result.
    #[inline(always)]
    fn note_truth(&mut self, truth: bool) -> Noted
        ensures { ValuesNote result self.old self.new (value.Bool truth) }
    {
        match self {
            ValueAccumulator::Filter(kept) => {
                if !truth {
                    Noted::Done
                } else if kept.len() < kept.capacity() {
                    Noted::WantsItem
                } else {
                    Noted::Not
                }
            }
            _ => Noted::Not,
        }
    }

    /// Takes an integer result.
    #[inline(always)]
    fn note_integer(&mut self, n: i64) -> Noted
        ensures { ValuesNote result self.old self.new (value.Integer n) }
    {
        match self {
            ValueAccumulator::Filter(_) => Noted::Done,
            ValueAccumulator::Map(answers) => {
                if answers.len() < answers.capacity() {
                    answers.push_reserved(Value::Integer(n));
                    Noted::Kept
                } else {
                    Noted::Not
                }
            }
            ValueAccumulator::Reduce(acc) => {
                if let Value::Nil | Value::Integer(_) = acc {
                    *acc = Value::Integer(n);
                    Noted::Replaced
                } else {
                    Noted::Not
                }
            }
            _ => Noted::Not,
        }
    }

    /// The value of the call.
    pub(crate) fn outcome(self, alloc: Global) -> Result<Value>
        ensures { (t : Fold) (rs : List ItemAnswer) → ValuesRepresent self t rs
            → Returns result (FoldOutcome t rs) }
    {
        match self {
            ValueAccumulator::Map(answers) => Ok(Value::Array(Items::from_vec(answers))),
            ValueAccumulator::Filter(values) => Ok(Value::Array(Items::from_vec(values))),
            ValueAccumulator::Find(found) => Ok(found.unwrap_or(Value::Nil)),
            ValueAccumulator::Reduce(acc) => Ok(acc),
            ValueAccumulator::GroupBy(pairs) => Ok(Value::KeyedMap(group_by_key(alloc, pairs)?)),
            ValueAccumulator::SortBy(down, pairs, composite) => sort_by_keys(
                alloc, down, pairs, composite,
            ),
        }
    }
}

// The functions below are called rarely. They are separate so that a step pays only for the locals of its own built-in.

/// Keeps an item if `is_kept` is true.
#[inline(always)]
fn keep_if(
    kept: &mut Vec<Value>,
    is_kept: bool,
    item: CowValue<'_>,
) -> std::result::Result<(), AllocError>
    ensures { OnOk result (kept.new.items ≡ kept.old.items ++ (if is_kept then item.entry ∷ [] else [])) }
{
    if is_kept {
        keep_item(kept, item)
    } else {
        Ok(())
    }
}

/// Keeps an item.
#[inline(always)]
fn keep_item(kept: &mut Vec<Value>, item: CowValue<'_>) -> std::result::Result<(), AllocError>
    ensures { OnOk result (kept.new.items ≡ kept.old.items ++ item.entry ∷ []) }
{
    match item.into_cow() {
        Cow::Owned(value) => put_last(kept, value),
        Cow::Borrowed(value) => keep_copy(kept, value),
    }
}

/// Keeps a copy of an item.
#[inline(never)]
fn keep_copy(kept: &mut Vec<Value>, item: &Value) -> std::result::Result<(), AllocError>
    ensures { OnOk result (kept.new.items ≡ kept.old.items ++ item.now ∷ []) }
{
    put_last(kept, item.clone()?)
}

/// Keeps an item. There is room for it. Returns false if a copy is out of memory.
#[inline(always)]
pub(crate) fn keep_plain(kept: &mut Vec<Value>, item: Plain<'_>) -> bool
    requires { vec_len kept.old < vec_capacity kept.old }
    ensures { result ≡ true → kept.new.items ≡ kept.old.items ++ plain_value item.entry ∷ [] }
{
    match item {
        Plain::Integer(n) => kept.push_reserved(Value::Integer(n)),
        Plain::Bool(truth) => kept.push_reserved(Value::Bool(truth)),
        Plain::Lent(value) => return keep_lent(kept, value),
    }
    true
}

/// Keeps a copy of an item. Returns false if it is out of memory: a boolean takes no place in the caller.
#[inline(never)]
fn keep_lent(kept: &mut Vec<Value>, item: &Value) -> bool
    ensures { result ≡ true → kept.new.items ≡ kept.old.items ++ item.now ∷ [] }
{
    match item.clone() {
        Ok(copy) => put_last(kept, copy).is_ok(),
        Err(_) => false,
    }
}

/// Adds a value at the end.
#[inline(always)]
fn put_last(kept: &mut Vec<Value>, value: Value) -> std::result::Result<(), AllocError>
    ensures { OnOk result (kept.new.items ≡ kept.old.items ++ value ∷ []) }
{
    if kept.len() == kept.capacity() {
        kept.reserve(1)?;
    }
    kept.push_reserved(value);
    Ok(())
}

/// Keeps an item if it is what is searched and none was found before.
#[inline(never)]
fn find_if(
    found: &mut Option<Value>,
    is_sought: bool,
    item: CowValue<'_>,
) -> std::result::Result<(), AllocError>
    ensures { OnOk result (found.new ≡ option_or found.old (if is_sought then Some item.entry else None)) }
{
    if is_sought && found.is_none() {
        *found = Some(own_value(item)?);
    }
    Ok(())
}

/// The value of an item, copied if it is borrowed.
fn own_value(item: CowValue<'_>) -> std::result::Result<Value, AllocError>
    ensures { IfOk result (λ v. v ≡ item.entry) }
{
    match item.into_cow() {
        Cow::Owned(value) => Ok(value),
        Cow::Borrowed(value) => value.clone(),
    }
}

/// Adds an item with its key, which is a scalar.
#[inline(never)]
fn put_beside(
    alloc: Global,
    pairs: &mut Vec<(Key, Value)>,
    answer: Value,
    item: CowValue<'_>,
) -> Result<()>
    ensures ok { IfOk result (λ _. (k : key) × (key_of answer ≡ Some k)
        × (pairs.new.items ≡ pairs.old.items ++ (k, item.entry) ∷ [])) }
    ensures err { RefusesWith result (λ k. (key_of answer ≡ None) × (k ≡ evaluation)) }
{
    let found = kind_of(&answer);
    let Some(key) = answer.into_key() else {
        return Err(unexpected(
            alloc,
            "groupBy takes a predicate that returns a scalar",
            &found,
        ));
    };
    pairs.push((key, item.into_value()?))?;
    Ok(())
}

/// Adds an item with its key, which is nil if the result is no scalar. `composite` is the kind of the first such
/// result.
#[inline(never)]
fn put_by(
    pairs: &mut Vec<(Key, Value)>,
    composite: &mut Option<Composite>,
    answer: Value,
    item: CowValue<'_>,
) -> Result<()>
    ensures ok { IfOk result (λ _. pairs.new.items ≡ pairs.old.items ++ (sort_key answer, item.entry) ∷ []) }
    ensures err { OnlyMemory result }
{
    if composite.is_none() {
        *composite = Composite::of(&answer);
    }
    pairs.push((answer.into_key().unwrap_or(Key::Nil), item.into_value()?))?;
    Ok(())
}
