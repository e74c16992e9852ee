//! Time zones with names.
ghost use Rattle.std.specs.Prelude.{◌≡◌, false, IfOk, MatchOption, IsTrue};
ghost use Rattle.expr_error.specs.ErrorKind.{evaluation, OnlyMemory, RefusesWith};
ghost use Rattle.expr_datetime.specs.Times.{is_table, plain_rules, rules_of, utc, zone_name, zone_rules};

use expr_error::{Result, Text, refusal};
use jiff::tz::TimeZone;
use jiff_core::Offset;
use jiff_tz::posix;
use std::alloc::{AllocError, Global};

/// The rules of a clock that borrow nothing: any [`TimeZone`] but a table of a time zone database.
#[derive(Clone, Copy)]
pub(crate) enum ZoneRules {
    Utc,
    Unknown,
    Always(Offset),
    Posix(posix::TimeZone),
}

impl ZoneRules {
    /// Keeps some rules, or returns `None` if they are a table.
    fn from_rules(rules: jiff_tz::TimeZone<'static>) -> Option<ZoneRules>
        ensures { MatchOption result (IsTrue (is_table rules.entry)) (λ k. zone_rules k ≡ rules.entry) }
    {
        match rules {
            jiff_tz::TimeZone::UTC => Some(ZoneRules::Utc),
            jiff_tz::TimeZone::Unknown => Some(ZoneRules::Unknown),
            jiff_tz::TimeZone::Fixed(offset) => Some(ZoneRules::Always(offset)),
            jiff_tz::TimeZone::Posix(rule) => Some(ZoneRules::Posix(rule)),
            jiff_tz::TimeZone::Tzif(_) => None,
        }
    }

    /// The rules as jiff has them.
    fn into_rules(self) -> jiff_tz::TimeZone<'static>
        ensures { result ≡ zone_rules self }
    {
        match self {
            ZoneRules::Utc => jiff_tz::TimeZone::UTC,
            ZoneRules::Unknown => jiff_tz::TimeZone::Unknown,
            ZoneRules::Always(offset) => jiff_tz::TimeZone::Fixed(offset),
            ZoneRules::Posix(rule) => jiff_tz::TimeZone::Posix(rule),
        }
    }
}

/// The rules of a clock, with a name. Zones are equal if their names are equal, and ordered by the bytes of their
/// names.
#[derive(Drop)]
#[derive_where(PartialEq, Eq, PartialOrd, Ord, Hash)]
pub struct TimezoneValue {
    name: Text,
    #[derive_where(skip(EqHashOrd))]
    rules: ZoneRules,
}

impl TimezoneValue {
    /// A time zone with this name and these rules.
    ///
    /// # Errors
    ///
    /// Returns `ExprError` if the rules are a table of a time zone database. A fixed offset and a POSIX rule are
    /// accepted.
    pub fn named(alloc: Global, name: &str, rules: TimeZone<'static>) -> Result<TimezoneValue>
        ensures name { IfOk result (λ z. zone_name z ≡ name.now) }
        ensures rules { IfOk result (λ z. rules_of z ≡ plain_rules rules.entry) }
        ensures refusal { RefusesWith result (λ k. k ≡ evaluation) }
        ensures kept { is_table (plain_rules rules.entry) ≡ false
            → OnlyMemory result }
    {
        let Some(rules) = ZoneRules::from_rules(rules.to_plain()) else {
            return Err(refusal(
                alloc,
                "time zone rules must be a fixed offset or a POSIX rule, not a database table",
            ));
        };
        Ok(TimezoneValue {
            name: Text::copy(alloc, name)?,
            rules,
        })
    }

    /// The name of the zone.
    pub fn name(&self) -> &str
        ensures { result.now ≡ zone_name self.now }
    {
        self.name.as_str()
    }

    /// The rules of the zone.
    pub fn timezone(&self) -> TimeZone<'static>
        ensures { plain_rules result ≡ rules_of self.now }
    {
        TimeZone::from_plain(self.rules.into_rules())
    }
}

impl Clone for TimezoneValue {
    ghost is_clone = { λ z y. y ≡ z };

    fn clone(&self) -> std::result::Result<TimezoneValue, AllocError> {
        Ok(TimezoneValue {
            name: self.name.clone()?,
            rules: self.rules,
        })
    }
}

/// The time zone UTC.
pub fn utc(alloc: Global) -> Result<TimezoneValue>
    ensures ok { IfOk result (λ z. z ≡ utc) }
    ensures err { OnlyMemory result }
{
    TimezoneValue::named(alloc, "UTC", TimeZone::UTC)
}
