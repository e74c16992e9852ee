//! Calls that pass values in.
ghost use Rattle.std.specs.Prelude.{◌≡◌, ◌≢◌, ◌⊎◌, ◌+ℤ◌, IfErr, IfOk, IsSomeAnd, Ok, OnOk};
ghost use Rattle.expr_encoding.specs.Optional.{value_or_refusal};
ghost use Rattle.expr_encoding.specs.Reading.{json_value};
ghost use Rattle.expr_engine.specs.Effects.{HandsIn, MakesArray, MakesMap, PushesValue, Unbuilds};
ghost use Rattle.expr_engine.specs.Engines.{KeepsThings, KeepsRest};
ghost use Rattle.expr_engine.specs.Reasons.{HandsNothingIn, JsonRefuses, KindRefuses};
ghost use Rattle.expr_exchange.specs.Builder.{HasLast, values_of};
ghost use Rattle.expr_exchange.specs.Kinds.{kind_numbered};
ghost use Rattle.expr_exchange.specs.Refusals.{IsForMemory, NotMeant, status_of};
ghost use Rattle.expr_exchange.specs.declared.host_error.Status.TheVariants.{Evaluation};

use crate::engine::Engine;
use crate::running::utf8;
use expr_encoding::{JsonReader, from_json};
use expr_exchange::{Call, HostError, Kind, Misuse, scalar_of};
use expr_value::Value;
use std::alloc::Global;

/// The longest JSON text, in bytes, that is read in memory which is kept for the next one.
const MOST_KEPT: usize = 1 << 16;

/// The value that a call passes in.
pub fn value_of_call(engine: &mut Engine, call: &Call<'_>) -> Result<Value, HostError>
    ensures value { IfOk result (λ v. IsSomeAnd (kind_numbered call.now.kind)
        (λ kind. HandsIn kind engine.old engine.new call.now v)) }
    ensures found { IfErr result (λ e. e ≢ HostError.Unknown) }
    ensures rules { engine.new.rules ≡ engine.old.rules }
    ensures contexts { engine.new.contexts ≡ engine.old.contexts }
    ensures environments { engine.new.environments ≡ engine.old.environments }
    ensures rest { KeepsRest engine.old engine.new }
    ensures why { IfErr result (HandsNothingIn engine.old call.now) }
{
    match Kind::from_number(call.kind) {
        Some(kind) => value_of_kind(engine, call, kind),
        None => Err(HostError::Misuse(Misuse::UnknownKind)),
    }
}

/// The value of this kind that a call passes in.
fn value_of_kind(engine: &mut Engine, call: &Call<'_>, kind: Kind) -> Result<Value, HostError>
    ensures value { IfOk result (HandsIn kind engine.old engine.new call.now) }
    ensures why { IfErr result (KindRefuses kind engine.old call.now) }
    ensures found { IfErr result (λ e. e ≢ HostError.Unknown) }
    ensures rules { engine.new.rules ≡ engine.old.rules }
    ensures contexts { engine.new.contexts ≡ engine.old.contexts }
    ensures environments { engine.new.environments ≡ engine.old.environments }
    ensures rest { KeepsRest engine.old engine.new }
{
    match kind {
        Kind::Built => engine.built.pop(),
        Kind::Looked => Ok(engine.answer.part().clone()?),
        Kind::Json => read_json(engine.alloc, &mut engine.reader, call.text),
        _ => scalar_of(engine.alloc, kind, call.number, call.fraction, call.text),
    }
}

/// The value of a JSON text that a call passes in. A long text is read in memory of its own, so an engine keeps little.
fn read_json(alloc: Global, reader: &mut JsonReader, text: &[u8]) -> Result<Value, HostError>
    ensures value { IfOk result (λ v. value_or_refusal (json_value text.now) ≡ Ok v) }
    ensures why { IfErr result (JsonRefuses text.now) }
    ensures found { IfErr result (λ e. e ≢ HostError.Unknown) }
{
    let text = utf8(text)?;
    if text.len() > MOST_KEPT {
        return Ok(from_json(alloc, text)?);
    }
    Ok(reader.read(alloc, text)?)
}

/// Adds the value that a call passes in to the values being built.
pub fn push(engine: &mut Engine, call: &Call<'_>) -> Result<(), HostError>
    ensures done { OnOk result (PushesValue engine.old engine.new call.now) }
    ensures found { IfErr result (λ e. e ≢ HostError.Unknown) }
    ensures kept { KeepsThings engine.old engine.new }
    ensures rest { KeepsRest engine.old engine.new }
    ensures why { IfErr result (λ e. IsForMemory e ⊎ HandsNothingIn engine.old call.now e) }
{
    let value = value_of_call(engine, call)?;
    engine.built.push(value)
}

/// Makes an array of the values that were built last.
pub fn make_array(engine: &mut Engine, call: &Call<'_>) -> Result<(), HostError>
    ensures done { OnOk result (MakesArray engine.old engine.new call.now) }
    ensures found { IfErr result (λ e. e ≢ HostError.Unknown) }
    ensures kept { KeepsThings engine.old engine.new }
    ensures rest { KeepsRest engine.old engine.new }
    ensures why { IfErr result (NotMeant (HasLast call.now.number (values_of engine.old.built))) }
{
    engine.built.array(call.number)
}

/// Makes a map of the pairs that were built last.
pub fn make_map(engine: &mut Engine, call: &Call<'_>) -> Result<(), HostError>
    ensures done { OnOk result (MakesMap engine.old engine.new call.now) }
    ensures found { IfErr result (λ e. e ≢ HostError.Unknown) }
    ensures kept { KeepsThings engine.old engine.new }
    ensures rest { KeepsRest engine.old engine.new }
    ensures why { IfErr result (λ e. status_of e ≢ Evaluation
        → NotMeant (HasLast (call.now.number +ℤ call.now.number) (values_of engine.old.built)) e) }
{
    engine.built.map(call.number)
}

/// Drops the values being built.
pub fn unbuild(engine: &mut Engine) -> Result<(), HostError>
    ensures done { OnOk result (Unbuilds engine.old engine.new) }
    ensures found { IfErr result (λ e. e ≢ HostError.Unknown) }
    ensures kept { KeepsThings engine.old engine.new }
    ensures rest { KeepsRest engine.old engine.new }
    ensures why { IfErr result (λ _. ⊥) }
{
    engine.built.clear();
    Ok(())
}
