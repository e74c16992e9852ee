//! Time zones by name, and the built-ins `timezone` and `now`.
ghost use Rattle.std.specs.Prelude.{◌≡◌, IfOk};
ghost use Rattle.std.specs.Option.{option_copied};
ghost use Rattle.expr_value.specs.Answers.{ReturnsExactly};
ghost use Rattle.expr_time.specs.Zones.{now_answer, timezone_answer, zone_named};
ghost use Rattle.expr_error.specs.ErrorKind.{OnlyMemory};

use crate::moments::in_utc;
use expr_arguments::{CowValue, one_text, unexpected_arguments, unknown_zone};
use expr_datetime::utc;
use expr_value::{DateTimeValue, Result, TimezoneValue, Value, refusal};
use std::alloc::Global;

/// The time zones that a program has added, by name.
pub trait Zones {
    ghost use Rattle.std.specs.Prelude.{ℕ, List, Option};
    ghost use Rattle.expr_datetime.specs.declared.zone.TimezoneValue.{TimezoneValue as Zone};

    /// Which time zones there are.
    ghost zones: { Self → List ℕ → Option Zone };

    /// The time zone with this name, or `None`.
    fn zone(&self, name: &str) -> Option<&TimezoneValue>
        ensures { option_copied result ≡ zones self.now name.now };
}

/// No time zones but UTC, which is always there.
#[derive(Clone, Copy, Debug)]
pub struct UtcAlone;

impl Zones for UtcAlone {
    ghost use Rattle.std.specs.Prelude.{None};

    ghost zones = { λ _ _. None };

    fn zone(&self, _name: &str) -> Option<&TimezoneValue> {
        None
    }
}

/// The time zone with this name: UTC or an added one.
pub(crate) fn zone_named<Z: Zones>(
    alloc: Global,
    zones: &Z,
    name: &str,
) -> Result<Option<TimezoneValue>>
    ensures ok { IfOk result (λ zone. zone ≡ zone_named (Z.zones zones.now) name.now) }
    ensures err { OnlyMemory result }
{
    if name == "UTC" {
        return Ok(Some(utc(alloc)?));
    }
    match zones.zone(name) {
        Some(zone) => Ok(Some(zone.clone()?)),
        None => Ok(None),
    }
}

/// `timezone`: UTC, or an added time zone, by name.
pub(crate) fn timezone<Z: Zones>(
    alloc: Global,
    zones: &Z,
    arguments: &[CowValue<'_>],
) -> Result<Value>
    ensures { ReturnsExactly result (timezone_answer (Z.zones zones.now) arguments.now) }
{
    let Some(name) = one_text(arguments) else {
        return Err(unexpected_arguments(
            alloc,
            "timezone takes the name of a time zone",
            arguments,
        ));
    };
    let zone = zone_named(alloc, zones, name)?;
    match zone {
        Some(zone) => Value::timezone(alloc, zone),
        None => Err(unknown_zone(alloc, name)),
    }
}

/// `now`: a DateTime in UTC, if the program has set one.
pub(crate) fn now(
    alloc: Global,
    moment: Option<&DateTimeValue>,
    arguments: &[CowValue<'_>],
) -> Result<Value>
    ensures { ReturnsExactly result (now_answer (option_copied moment.entry) arguments.now) }
{
    let Some(moment) = moment else {
        return Err(refusal(
            alloc,
            "now is not set: the program must set the current time",
        ));
    };
    in_utc(alloc, moment, arguments)
}
