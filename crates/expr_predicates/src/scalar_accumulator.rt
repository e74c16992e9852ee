//! Accumulators of built-ins that keep neither items nor results.
ghost use Rattle.std.specs.Prelude.{◌≡◌, ◌+◌, ◌-◌, ◌<◌, ◌^◌, ◌∷◌, ◌++◌, [], List, length, IfOk, IfSome, IsSomeAnd, Ok, Some, None, true, false, not, unwrap_or, if◌then◌else◌};
ghost use Rattle.std.specs.Option.{option_map, option_or};
ghost use Rattle.expr_value.specs.Values.{truth_of};
ghost use Rattle.expr_error.specs.ErrorKind.{evaluation, RefusesWith, IsOfKind};
ghost use Rattle.expr_value.specs.declared.value.Value.{Value as value};
ghost use Rattle.expr_predicates.specs.Folds.{place_or_none};
ghost use Rattle.expr_predicates.specs.Noting.{ScalarNotes};
ghost use Rattle.expr_predicates.specs.declared.run.Noted.TheVariants.{Done, Ends};

use crate::run::Noted;
use expr_arguments::unexpected_value;
use expr_functions::HigherOrderCall;
use expr_value::{Error, Result, Value, refusal};
use std::alloc::Global;

/// What is kept of the results so far.
#[derive(Clone, Copy)]
pub(crate) enum ScalarAccumulator {
    /// Whether some result was false.
    All(bool),
    /// Whether some result was true.
    Any(bool),
    NoneOf(bool),
    /// How many results were true.
    One(usize),
    /// Index of the first item whose result was true.
    FindIndex(Option<usize>),
    /// Number of items, and the index, counted from the back, of the first item found whose result was true.
    FindLastIndex(usize, Option<usize>),
    Count(usize),
    Sum(i64),
}

impl ScalarAccumulator {
    ghost use Rattle.expr_predicates.specs.Folds.{Fold, ItemAnswer, FoldOutcome, first_place, refuses_answer, has_stopped, scalar_fold};
    ghost use Rattle.expr_predicates.specs.Accumulators.{ScalarRepresents};

    /// The accumulator before any result, for a built-in that keeps no more than these variants.
    pub(crate) fn at_start(call: HigherOrderCall) -> Option<ScalarAccumulator>
        ensures begun { IfSome result (λ a. IsSomeAnd (scalar_fold call) (λ t. ScalarRepresents a t [])) }
        ensures none { result ≡ None → scalar_fold call ≡ None }
    {
        match call {
            HigherOrderCall::All => Some(ScalarAccumulator::All(false)),
            HigherOrderCall::Any => Some(ScalarAccumulator::Any(false)),
            HigherOrderCall::NoneOf => Some(ScalarAccumulator::NoneOf(false)),
            HigherOrderCall::One => Some(ScalarAccumulator::One(0)),
            HigherOrderCall::FindIndex => Some(ScalarAccumulator::FindIndex(None)),
            HigherOrderCall::Count => Some(ScalarAccumulator::Count(0)),
            HigherOrderCall::Sum => Some(ScalarAccumulator::Sum(0)),
            _ => None,
        }
    }

    /// Whether no more results are needed.
    pub(crate) fn has_stopped(&self) -> bool
        ensures { (t : Fold) (rs : List ItemAnswer) → ScalarRepresents self.now t rs
            → result ≡ has_stopped t rs }
    {
        match self {
            ScalarAccumulator::All(found)
            | ScalarAccumulator::Any(found)
            | ScalarAccumulator::NoneOf(found) => *found,
            ScalarAccumulator::One(count) => *count > 1,
            ScalarAccumulator::FindIndex(found) | ScalarAccumulator::FindLastIndex(_, found) =>
                found.is_some(),
            ScalarAccumulator::Count(_) | ScalarAccumulator::Sum(_) => false,
        }
    }

    /// Adds a result for an item that follows `asked` others. Returns whether the result was accepted.
    #[inline(always)]
    fn note(&mut self, asked: usize, answer: &Value) -> bool
        requires { asked + 1 < 2 ^ 64 }
        ensures noted { result ≡ true → (t : Fold) (rs : List ItemAnswer) (item : value)
            → ScalarRepresents self.old t rs
            → asked ≡ first_place t + length rs
            → ScalarRepresents self.new t (rs ++ (item, answer.now) ∷ [])
            × (refuses_answer t answer.now ≡ false) }
        ensures refused { result ≡ false → (t : Fold) (rs : List ItemAnswer) → ScalarRepresents self.old t rs
            → refuses_answer t answer.now ≡ true }
    {
        match self {
            ScalarAccumulator::All(found) => {
                *found = *found || is_false(answer);
                true
            }
            ScalarAccumulator::Any(found) => {
                *found = *found || is_true(answer);
                true
            }
            ScalarAccumulator::NoneOf(found) => {
                *found = *found || is_true(answer);
                true
            }
            ScalarAccumulator::One(count) => {
                *count = count_if(*count, is_true(answer));
                true
            }
            ScalarAccumulator::FindIndex(found) => {
                *found = found_if(*found, is_true(answer), asked);
                true
            }
            ScalarAccumulator::FindLastIndex(_, found) => {
                *found = found_if(*found, is_true(answer), asked);
                true
            }
            ScalarAccumulator::Count(count) => match answer.as_bool() {
                Some(truth) => {
                    *count = count_if(*count, truth);
                    true
                }
                None => false,
            },
            ScalarAccumulator::Sum(total) => match answer.as_integer() {
                Some(number) => {
                    *total = total.wrapping_add(number);
                    true
                }
                None => false,
            },
        }
    }

    /// Takes a boolean result about the item at this position. Nothing was found before.
    #[inline(always)]
    pub(crate) fn note_truth(&mut self, place: usize, truth: bool) -> Noted
        requires { place + 1 < 2 ^ 64 }
        ensures { ScalarNotes place result self.old self.new (value.Bool truth) }
    {
        match self {
            ScalarAccumulator::Count(count) => {
                *count = count_if(*count, truth);
                Noted::Done
            }
            ScalarAccumulator::All(found) => {
                *found = !truth;
                noted_as(!truth)
            }
            ScalarAccumulator::Any(found) => {
                *found = truth;
                noted_as(truth)
            }
            ScalarAccumulator::NoneOf(found) => {
                *found = truth;
                noted_as(truth)
            }
            ScalarAccumulator::FindIndex(found) => {
                *found = found_if(None, truth, place);
                noted_as(truth)
            }
            _ => Noted::Not,
        }
    }

    /// The error for a result that isn't accepted.
    #[inline(never)]
    fn refusal(&self, alloc: Global, answer: &Value) -> Error
        ensures { IsOfKind result evaluation }
    {
        match self {
            ScalarAccumulator::Sum(_) => unexpected_value(
                alloc,
                "sum takes integers, or a predicate that returns an integer",
                answer,
            ),
            _ => unexpected_value(
                alloc,
                "count takes a predicate that returns a boolean",
                answer,
            ),
        }
    }

    /// Adds a result for an item that follows `asked` others.
    #[inline(always)]
    pub(crate) fn take(&mut self, alloc: Global, asked: usize, answer: &Value) -> Result<()>
        requires { asked + 1 < 2 ^ 64 }
        ensures noted { IfOk result
            (λ _. (t : Fold) (rs : List ItemAnswer) (item : value) → ScalarRepresents self.old t rs
            → asked ≡ first_place t + length rs
            → ScalarRepresents self.new t (rs ++ (item, answer.now) ∷ [])
            × (refuses_answer t answer.now ≡ false)) }
        ensures refused { RefusesWith result
            (λ k. (t : Fold) (rs : List ItemAnswer) → ScalarRepresents self.old t rs
            → (refuses_answer t answer.now ≡ true) × (k ≡ evaluation)) }
    {
        if self.note(asked, answer) {
            Ok(())
        } else {
            Err(self.refusal(alloc, answer))
        }
    }

    /// The value of the call.
    pub(crate) fn outcome(self) -> Value
        ensures { (t : Fold) (rs : List ItemAnswer) → ScalarRepresents self t rs
            → FoldOutcome t rs (Ok result) }
    {
        match self {
            ScalarAccumulator::All(failed) => Value::Bool(!failed),
            ScalarAccumulator::Any(found) => Value::Bool(found),
            ScalarAccumulator::NoneOf(found) => Value::Bool(!found),
            ScalarAccumulator::One(count) => Value::Bool(count == 1),
            ScalarAccumulator::FindIndex(found) => place(found),
            ScalarAccumulator::FindLastIndex(count, found) => place_from_back(count, found),
            ScalarAccumulator::Count(count) => Value::from(count),
            ScalarAccumulator::Sum(total) => Value::Integer(total),
        }
    }
}

/// What became of a result of which nothing is kept.
#[inline(always)]
fn noted_as(is_last: bool) -> Noted
    ensures { result ≡ (if is_last then Ends else Done) }
{
    if is_last { Noted::Ends } else { Noted::Done }
}

/// Whether a result is `true`.
pub(crate) fn is_true(answer: &Value) -> bool
    ensures { result ≡ unwrap_or (truth_of answer.now) false }
{
    answer.as_bool().unwrap_or(false)
}

/// Whether a result is `false`.
fn is_false(answer: &Value) -> bool
    ensures { result ≡ not (unwrap_or (truth_of answer.now) true) }
{
    !answer.as_bool().unwrap_or(true)
}

/// Adds 1 if `more` is true.
fn count_if(count: usize, more: bool) -> usize
    ensures { count + 1 < 2 ^ 64 → result ≡ count + (if more then 1 else 0) }
{
    if more { count.saturating_add(1) } else { count }
}

/// What was found before, or else `here` if it is what is searched.
pub(crate) fn found_if<T: Drop>(found: Option<T>, is_sought: bool, here: T) -> Option<T>
    ensures { result ≡ option_or found (if is_sought then Some here else None) }
{
    match found {
        Some(found) => Some(found),
        None => { if is_sought { Some(here) } else { None } }
    }
}

/// An index as a value, or -1.
fn place(found: Option<usize>) -> Value
    ensures { result ≡ place_or_none found }
{
    match found {
        Some(place) => Value::from(place),
        None => Value::Integer(-1),
    }
}

/// An index that was counted from the back of `count` items, as a value, or -1.
fn place_from_back(count: usize, found: Option<usize>) -> Value
    ensures { result ≡ place_or_none (option_map (λ n. count - 1 - n) found) }
{
    match found {
        Some(passed) => Value::from(count.saturating_sub(1).saturating_sub(passed)),
        None => Value::Integer(-1),
    }
}
