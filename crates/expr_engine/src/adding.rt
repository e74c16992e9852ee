//! Calls about environments.
ghost use Rattle.std.specs.Prelude.{◌≡◌, ◌≢◌, ◌⊎◌, Err, IfErr, IsUtf8, None, OnErr, OnOk, pos};
ghost use Rattle.expr_engine.specs.Adding.{IsName};
ghost use Rattle.expr_engine.specs.Effects.{AddsEnvironment, AddsFixedZone, AddsName, AddsVersions, AddsZoneByRule, SetsNow, call_result};
ghost use Rattle.expr_engine.specs.Engines.{KeepsRest, NumbersRise, SameAdditions};
ghost use Rattle.expr_engine.specs.Reasons.{RefusesName, RefusesZone};
ghost use Rattle.expr_exchange.specs.Refusals.{IsForMemory, NotMeant};
ghost use Rattle.expr_exchange.specs.HandleMap.{SameNext, thing_at};
ghost use Rattle.jiff.specs.Instant.{IsTimestampParts};

use crate::additions::Additions;
use crate::engine::Engine;
use crate::running::utf8;
use expr_exchange::{Call, HostError, moment_of};

/// Makes an environment that adds nothing.
#[tactic(auto, using(crate::proofs::Unchanged::additions_by_things))]
pub fn add_environment(engine: &mut Engine, call: &mut Call<'_>) -> Result<(), HostError>
    ensures done { OnOk result (AddsEnvironment engine.old engine.new (call_result call.new)) }
    ensures found { IfErr result (λ e. e ≢ HostError.Unknown) }
    ensures err { OnErr result (SameAdditions engine.old.environments engine.new.environments) }
    ensures numbers { NumbersRise engine.old engine.new }
    ensures rules { engine.new.rules ≡ engine.old.rules }
    ensures contexts { engine.new.contexts ≡ engine.old.contexts }
    ensures rest { KeepsRest engine.old engine.new }
    ensures room { call.new.room.now ≡ call.old.room.now }
    ensures why { IfErr result IsForMemory }
{
    call.environment = engine.environments.put(Additions::new(engine.alloc))?;
    Ok(())
}

/// Adds a zone to an environment, by the seconds that its clock is ahead of UTC.
pub fn zone_by_seconds(engine: &mut Engine, call: &Call<'_>) -> Result<(), HostError>
    ensures done { OnOk result (AddsFixedZone engine.old engine.new call.now) }
    ensures unknown { thing_at engine.old.environments call.now.environment ≡ None
        → result ≡ Err HostError.Unknown }
    ensures known { result ≡ Err HostError.Unknown
        → thing_at engine.old.environments call.now.environment ≡ None }
    ensures err { OnErr result (SameAdditions engine.old.environments engine.new.environments) }
    ensures next { SameNext engine.old.environments engine.new.environments }
    ensures rules { engine.new.rules ≡ engine.old.rules }
    ensures contexts { engine.new.contexts ≡ engine.old.contexts }
    ensures rest { KeepsRest engine.old engine.new }
    ensures why { IfErr result (RefusesZone (IsUtf8 call.now.name.now)) }
{
    engine.knows_environment(call.environment)?;
    let name = utf8(call.name)?;
    engine.add_zone(call.environment, name, call.number, None)
}

/// Adds a zone to an environment, by a rule in POSIX form.
pub fn zone_by_rule(engine: &mut Engine, call: &Call<'_>) -> Result<(), HostError>
    ensures done { OnOk result (AddsZoneByRule engine.old engine.new call.now) }
    ensures unknown { thing_at engine.old.environments call.now.environment ≡ None
        → result ≡ Err HostError.Unknown }
    ensures known { result ≡ Err HostError.Unknown
        → thing_at engine.old.environments call.now.environment ≡ None }
    ensures err { OnErr result (SameAdditions engine.old.environments engine.new.environments) }
    ensures next { SameNext engine.old.environments engine.new.environments }
    ensures rules { engine.new.rules ≡ engine.old.rules }
    ensures contexts { engine.new.contexts ≡ engine.old.contexts }
    ensures rest { KeepsRest engine.old engine.new }
    ensures why { IfErr result (RefusesZone (IsUtf8 call.now.name.now × IsUtf8 call.now.text.now)) }
{
    engine.knows_environment(call.environment)?;
    let name = utf8(call.name)?;
    let rule = utf8(call.text)?;
    engine.add_zone(call.environment, name, 0, Some(rule))
}

/// Sets the current time of an environment.
pub fn set_now(engine: &mut Engine, call: &Call<'_>) -> Result<(), HostError>
    ensures done { OnOk result (SetsNow engine.old engine.new call.now) }
    ensures unknown { thing_at engine.old.environments call.now.environment ≡ None
        → result ≡ Err HostError.Unknown }
    ensures known { result ≡ Err HostError.Unknown
        → thing_at engine.old.environments call.now.environment ≡ None }
    ensures err { OnErr result (SameAdditions engine.old.environments engine.new.environments) }
    ensures next { SameNext engine.old.environments engine.new.environments }
    ensures rules { engine.new.rules ≡ engine.old.rules }
    ensures contexts { engine.new.contexts ≡ engine.old.contexts }
    ensures rest { KeepsRest engine.old engine.new }
    ensures why { IfErr result (λ e. (e ≡ HostError.Unknown)
        ⊎ NotMeant (IsTimestampParts call.now.number (pos call.now.fraction)) e) }
{
    engine.knows_environment(call.environment)?;
    let now = moment_of(call.number, call.fraction)?;
    engine.set_now(call.environment, now)
}

/// Adds a name to the functions of an environment that the host runs itself.
pub fn add_name(engine: &mut Engine, call: &Call<'_>) -> Result<(), HostError>
    ensures done { OnOk result (AddsName engine.old engine.new call.now) }
    ensures unknown { thing_at engine.old.environments call.now.environment ≡ None
        → result ≡ Err HostError.Unknown }
    ensures known { result ≡ Err HostError.Unknown
        → thing_at engine.old.environments call.now.environment ≡ None }
    ensures err { OnErr result (SameAdditions engine.old.environments engine.new.environments) }
    ensures next { SameNext engine.old.environments engine.new.environments }
    ensures rules { engine.new.rules ≡ engine.old.rules }
    ensures contexts { engine.new.contexts ≡ engine.old.contexts }
    ensures rest { KeepsRest engine.old engine.new }
    ensures why { IfErr result (RefusesName (IsUtf8 call.now.name.now × IsName call.now.name.now)) }
{
    engine.knows_environment(call.environment)?;
    let name = utf8(call.name)?;
    engine.add_name(call.environment, name)
}

/// Adds the functions on versions to an environment.
pub fn add_versions(engine: &mut Engine, call: &Call<'_>) -> Result<(), HostError>
    ensures done { OnOk result (AddsVersions engine.old engine.new call.now) }
    ensures unknown { thing_at engine.old.environments call.now.environment ≡ None
        → result ≡ Err HostError.Unknown }
    ensures known { result ≡ Err HostError.Unknown
        → thing_at engine.old.environments call.now.environment ≡ None }
    ensures err { OnErr result (SameAdditions engine.old.environments engine.new.environments) }
    ensures next { SameNext engine.old.environments engine.new.environments }
    ensures rules { engine.new.rules ≡ engine.old.rules }
    ensures contexts { engine.new.contexts ≡ engine.old.contexts }
    ensures rest { KeepsRest engine.old engine.new }
    ensures why { IfErr result (λ e. e ≡ HostError.Unknown) }
{
    engine.add_versions(call.environment)
}
