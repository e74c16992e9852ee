//! Calls about contexts.
ghost use Rattle.std.specs.Prelude.{◌≡◌, ◌≢◌, ◌⊎◌, Err, IfErr, IsUtf8, None, OnErr, OnOk};
ghost use Rattle.expr_engine.specs.Effects.{AddsBuiltContext, AddsContext, FillsMissing, Sets, call_result};
ghost use Rattle.expr_engine.specs.Engines.{KeepsRest, NumbersRise};
ghost use Rattle.expr_engine.specs.Reasons.{HandsNothingIn, IsUnknownOrForMemory};
ghost use Rattle.expr_exchange.specs.Builder.{NoContext, values_of};
ghost use Rattle.expr_exchange.specs.Refusals.{IsForMemory};
ghost use Rattle.expr_exchange.specs.HandleMap.{SameNext, SameThings, thing_at};

use crate::building::value_of_call;
use crate::engine::Engine;
use crate::running::utf8;
use expr_context::Context;
use expr_exchange::{Call, HostError, Misuse};

/// Makes a context without names.
pub fn new_context(engine: &mut Engine, call: &mut Call<'_>) -> Result<(), HostError>
    ensures done { OnOk result (AddsContext engine.old engine.new (call_result call.new)) }
    ensures found { IfErr result (λ e. e ≢ HostError.Unknown) }
    ensures err { OnErr result (SameThings engine.old.contexts engine.new.contexts) }
    ensures numbers { NumbersRise engine.old engine.new }
    ensures rules { engine.new.rules ≡ engine.old.rules }
    ensures environments { engine.new.environments ≡ engine.old.environments }
    ensures rest { KeepsRest engine.old engine.new }
    ensures room { call.new.room.now ≡ call.old.room.now }
    ensures why { IfErr result IsForMemory }
{
    call.context = engine.contexts.put(Context::new(engine.alloc))?;
    Ok(())
}

/// Makes a context of the map that was built last.
pub fn built_context(engine: &mut Engine, call: &mut Call<'_>) -> Result<(), HostError>
    ensures done { OnOk result (AddsBuiltContext engine.old engine.new (call_result call.new)) }
    ensures found { IfErr result (λ e. e ≢ HostError.Unknown) }
    ensures err { OnErr result (SameThings engine.old.contexts engine.new.contexts) }
    ensures numbers { NumbersRise engine.old engine.new }
    ensures rules { engine.new.rules ≡ engine.old.rules }
    ensures environments { engine.new.environments ≡ engine.old.environments }
    ensures rest { KeepsRest engine.old engine.new }
    ensures room { call.new.room.now ≡ call.old.room.now }
    ensures why { IfErr result (NoContext (values_of engine.old.built)) }
{
    let context = engine.built.context()?;
    call.context = engine.contexts.put(context)?;
    Ok(())
}

/// Sets a name in a context.
pub fn set(engine: &mut Engine, call: &Call<'_>) -> Result<(), HostError>
    ensures done { OnOk result (Sets engine.old engine.new call.now) }
    ensures unknown { thing_at engine.old.contexts call.now.context ≡ None → result ≡ Err HostError.Unknown }
    ensures known { result ≡ Err HostError.Unknown → thing_at engine.old.contexts call.now.context ≡ None }
    ensures err { OnErr result (SameThings engine.old.contexts engine.new.contexts) }
    ensures next { SameNext engine.old.contexts engine.new.contexts }
    ensures rules { engine.new.rules ≡ engine.old.rules }
    ensures environments { engine.new.environments ≡ engine.old.environments }
    ensures rest { KeepsRest engine.old engine.new }
    ensures why { IfErr result (λ e. ((e ≡ HostError.Misuse Misuse.NotUtf8) × (IsUtf8 call.now.name.now → ⊥))
        ⊎ (IsUnknownOrForMemory e ⊎ HandsNothingIn engine.old call.now e)) }
{
    engine.knows_context(call.context)?;
    let name = utf8(call.name)?;
    let value = value_of_call(engine, call)?;
    engine.set(call.context, name, value)
}

/// Sets nil in a context for each missing name that a program looks up only outside of predicates.
pub fn fill_missing(engine: &mut Engine, call: &mut Call<'_>) -> Result<(), HostError>
    ensures done { OnOk result (FillsMissing engine.old engine.new call.old (call_result call.new)) }
    ensures unknown { (thing_at engine.old.rules call.old.program ≡ None)
        ⊎ (thing_at engine.old.contexts call.old.context ≡ None) → result ≡ Err HostError.Unknown }
    ensures known { result ≡ Err HostError.Unknown → (thing_at engine.old.rules call.old.program ≡ None)
        ⊎ (thing_at engine.old.contexts call.old.context ≡ None) }
    ensures err { OnErr result (SameThings engine.old.contexts engine.new.contexts) }
    ensures next { SameNext engine.old.contexts engine.new.contexts }
    ensures rules { engine.new.rules ≡ engine.old.rules }
    ensures environments { engine.new.environments ≡ engine.old.environments }
    ensures rest { KeepsRest engine.old engine.new }
    ensures room { call.new.room.now ≡ call.old.room.now }
    ensures why { IfErr result IsUnknownOrForMemory }
{
    let count = engine.fill_missing(call.program, call.context)?;
    call.number = i64::try_from(count).unwrap_or(0);
    Ok(())
}
