//! Calls of functions, up to the first run of a predicate.
ghost use Rattle.std.specs.Prelude.{◌≡◌, IfOk, false, true};
ghost use Rattle.expr_meaning.specs.Allows.{AllowsCall};
ghost use Rattle.expr_meaning.specs.Dispatch.{DispatchesTo, DispatchesToBuiltin, Refuses, RefusesBuiltin};
ghost use Rattle.expr_meaning.specs.Calls.{AllowsOnValues};
ghost use Rattle.expr_predicates.specs.Runs.{AnswersItself};
ghost use Rattle.expr_value.specs.Answers.{Returns};
ghost use Rattle.expr_error.specs.ErrorKind.{RefusesWith};

use crate::environment::{AddedZones, ExprCall, Functions};
use expr_arguments::values_of_cows;
use expr_builtins::{
    call_conversion, call_on_bits, call_on_collections, call_on_numbers, call_on_texts,
};
use expr_encoding::call_encoding;
use expr_functions::{Builtin, ValueCall};
use expr_operators::{CowValue, unknown_function};
use expr_predicates::{PredicateRun, sort};
use expr_time::call_time;
use expr_value::{Items, Result, Value};
use std::alloc::Global;

/// The start of a call.
#[derive(Drop)]
pub enum Dispatch<'s> {
    /// The result of a function that runs no predicate.
    Answered(Value),
    /// A built-in that runs a predicate, or that takes each item as the predicate's result.
    Asks(PredicateRun<'s>),
}

/// Starts a call on these values, with a predicate or without one. The host's function of this name comes
/// before the built-in. A built-in that runs a predicate holds its array as the call did.
///
/// # Errors
///
/// Returns `ExprError` if no function has this name or if a built-in fails at once. Returns the errors of the
/// host's function, and `MemoryError` if an allocation fails.
pub fn dispatch_call<'s, H: Functions>(
    alloc: Global,
    host: &H,
    ident: &str,
    args: Items<CowValue<'s>>,
    given: bool,
) -> Result<Dispatch<'s>>
    ensures begun { IfOk result (λ b. DispatchesTo (H.host host.now) ident.now args.entry given b) }
    ensures refused { RefusesWith result
        (λ k. Refuses (H.host host.now) ident.now args.entry given k) }
{
    dispatch_known(alloc, host, host.has(ident), ident, args, given)
}

/// Does the same, where `added` says whether the host has added a function of this name.
///
/// # Errors
///
/// Returns the errors of [`dispatch_call`].
pub fn dispatch_known<'s, H: Functions>(
    alloc: Global,
    host: &H,
    added: bool,
    ident: &str,
    args: Items<CowValue<'s>>,
    given: bool,
) -> Result<Dispatch<'s>>
    requires { added ≡ (H.host host.now).is_added ident.now }
    ensures begun { IfOk result (λ b. DispatchesTo (H.host host.now) ident.now args.entry given b) }
    ensures refused { RefusesWith result
        (λ k. Refuses (H.host host.now) ident.now args.entry given k) }
{
    if added {
        let args = values_of_cows(alloc, args.into_vec())?;
        let answer = call_added(alloc, host, ident, args)?;
        return Ok(Dispatch::Answered(answer));
    }
    dispatch_builtin(alloc, host, ident, args, given)
}

/// Starts a call of the built-in of this name.
fn dispatch_builtin<'s, H: Functions>(
    alloc: Global,
    host: &H,
    ident: &str,
    args: Items<CowValue<'s>>,
    given: bool,
) -> Result<Dispatch<'s>>
    ensures begun { IfOk result (λ b. DispatchesToBuiltin (H.host host.now) ident.now args.entry given b) }
    ensures refused { RefusesWith result (λ k. RefusesBuiltin
        (H.host host.now) ident.now args.entry given k) }
{
    match Builtin::from_name(ident) {
        Some(Builtin::HigherOrder(call)) => {
            Ok(Dispatch::Asks(PredicateRun::begin(alloc, call, args, given)?))
        }
        Some(Builtin::OnValues(call)) => {
            Ok(Dispatch::Answered(call_on_values(alloc, host, call, args)?))
        }
        None => Err(unknown_function(alloc, ident)),
    }
}

/// Calls a built-in that runs no predicate.
fn call_on_values<H: Functions>(
    alloc: Global,
    host: &H,
    call: ValueCall,
    args: Items<CowValue<'_>>,
) -> Result<Value>
    ensures { Returns result (AllowsOnValues (H.host host.now) call args.entry) }
{
    match call {
        ValueCall::Sort => sort(alloc, args),
        ValueCall::Collection(call) => call_on_collections(alloc, call, &mut args.into_vec()),
        ValueCall::Text(call) => call_on_texts(alloc, call, args.as_slice()),
        ValueCall::Conversion(call) => call_conversion(alloc, call, args.as_slice()),
        ValueCall::Number(call) => call_on_numbers(alloc, call, &mut args.into_vec()),
        ValueCall::Bit(call) => call_on_bits(alloc, call, args.as_slice()),
        ValueCall::Encoding(call) => call_encoding(alloc, call, args.as_slice()),
        ValueCall::Time(call) => {
            let zones = AddedZones { host };
            call_time(alloc, call, &zones, host.moment(), args.as_slice())
        }
    }
}

/// Calls a function without a predicate.
///
/// # Errors
///
/// Returns `ExprError` if no function has this name or if it fails, the errors of the host's function, and
/// `MemoryError` if an allocation fails.
pub fn call_alone<'s, H: Functions>(
    alloc: Global,
    host: &H,
    ident: &str,
    args: Items<CowValue<'_>>,
) -> Result<CowValue<'s>>
    ensures { Returns result (AllowsCall (H.host host.now) ident.now args.entry false AnswersItself) }
{
    call_known(alloc, host, host.has(ident), ident, args)
}

/// Does the same, where `added` says whether the host has added a function of this name.
///
/// # Errors
///
/// Returns the errors of [`call_alone`].
pub fn call_known<'s, H: Functions>(
    alloc: Global,
    host: &H,
    added: bool,
    ident: &str,
    args: Items<CowValue<'_>>,
) -> Result<CowValue<'s>>
    requires { added ≡ (H.host host.now).is_added ident.now }
    ensures { Returns result (AllowsCall (H.host host.now) ident.now args.entry false AnswersItself) }
{
    match dispatch_known(alloc, host, added, ident, args, false)? {
        Dispatch::Answered(answer) => Ok(CowValue::from_owned(answer)),
        Dispatch::Asks(run) => Ok(CowValue::from_owned(run.complete(alloc)?)),
    }
}

/// Calls a function that the host has added.
///
/// # Errors
///
/// Returns the errors of the function, and `MemoryError` if an allocation fails.
pub fn call_added<H: Functions>(
    alloc: Global,
    host: &H,
    ident: &str,
    args: Vec<Value>,
) -> Result<Value>
    ensures { (H.host host.now).is_added ident.now ≡ true
        → Returns result ((H.host host.now).calls ident.now args.items) }
{
    let ident = String::from_str(alloc, ident)?;
    host.ask(ExprCall { ident, args })
}
