//! What a host adds to the language: zones, the current time, the functions on versions, and the names of functions
//! that it runs itself.
ghost use Rattle.std.specs.Prelude.{◌≡◌, ◌↔◌, ℕ, List, IfErr, IfOk, OnErr, OnOk, IfSome, IsNone, IsTrue};
ghost use Rattle.expr_engine.specs.Adding.{AddsNothing, BecomesByRule, BecomesFixed, BecomesNow, GainsName, GainsVersions, GainsZone, IsName, is_this_word, is_word_alone};
ghost use Rattle.expr_engine.specs.Runs.{adds_versions, named_at, names_in, zone_added};
ghost use Rattle.expr_datetime.specs.Times.{plain_rules};
ghost use Rattle.expr_error.specs.ErrorKind.{OnlyMemory, RefusesWith, evaluation};
ghost use Rattle.expr_exchange.specs.Refusals.{NotMeant};

use expr_exchange::{HostError, Misuse};
use expr_meaning::{ExprCall, Functions};
use expr_stops::StopNames;
use expr_tokens::{Token, read};
use expr_value::{DateTimeValue, Error, Result, TimezoneValue, Value, refusal};
use expr_versions::{call_version_function, has_version_function};
use indexmap::IndexMap;
use jiff::Timestamp;
use jiff::tz::{Offset, TimeZone};
use std::alloc::Global;

/// The zones that a host has added, its current time, the names of the functions that it runs itself, and whether
/// it has added the functions on versions.
#[derive(Drop)]
pub struct Additions {
    alloc: Global,
    zones: IndexMap<String, TimezoneValue>,
    moment: Option<DateTimeValue>,
    names: StopNames,
    versions: bool,
}

impl Additions {
    /// Creates empty additions. It allocates no memory.
    pub fn new(alloc: Global) -> Additions
        ensures { AddsNothing result }
    {
        Additions {
            alloc,
            zones: IndexMap::new(alloc),
            moment: None,
            names: StopNames::new(alloc),
            versions: false,
        }
    }

    /// Adds a zone whose clock is this many seconds ahead of UTC. It replaces an earlier zone of this name.
    ///
    /// # Errors
    ///
    /// Returns `ExprError` if the name is `UTC`, which always exists, or if `seconds` is out of the range of
    /// a clock. Returns `MemoryError` if an allocation fails.
    pub fn add_fixed(&mut self, name: &str, seconds: i64) -> Result<()>
        ensures added { OnOk result (BecomesFixed name.now seconds self.old self.new) }
        ensures refusal { RefusesWith result (λ k. k ≡ evaluation) }
        ensures err { OnErr result ((key : List ℕ) → zone_added self.new key ≡ zone_added self.old key) }
        ensures moment { self.new.moment ≡ self.old.moment }
        ensures names { names_in self.new ≡ names_in self.old }
        ensures versions { adds_versions self.new ≡ adds_versions self.old }
    {
        match offset_ahead(seconds) {
            Some(offset) => self.add(name, TimeZone::fixed(offset)),
            None => Err(refusal(
                self.alloc,
                "the offset of a time zone must be within 25:59:59",
            )),
        }
    }

    /// Adds a zone by a rule in POSIX form. It replaces an earlier zone of this name.
    ///
    /// # Errors
    ///
    /// Returns `ExprError` if the name is `UTC` or the rule is not valid, and `MemoryError` if an allocation
    /// fails.
    pub fn add_rule(&mut self, name: &str, rule: &str) -> Result<()>
        ensures added { OnOk result (BecomesByRule name.now rule.now self.old self.new) }
        ensures refusal { RefusesWith result (λ k. k ≡ evaluation) }
        ensures err { OnErr result ((key : List ℕ) → zone_added self.new key ≡ zone_added self.old key) }
        ensures moment { self.new.moment ≡ self.old.moment }
        ensures names { names_in self.new ≡ names_in self.old }
        ensures versions { adds_versions self.new ≡ adds_versions self.old }
    {
        match TimeZone::posix(rule) {
            Ok(rules) => self.add(name, rules),
            Err(_) => Err(refusal(
                self.alloc,
                "invalid time zone rule: expected the form of POSIX, such as EST5EDT,M3.2.0,M11.1.0",
            )),
        }
    }

    /// Adds a zone by a rule, if there is one, or by the seconds that its clock is ahead of UTC.
    ///
    /// # Errors
    ///
    /// Returns the errors of [`Additions::add_rule`] and [`Additions::add_fixed`].
    pub fn add_zone(&mut self, name: &str, seconds: i64, rule: Option<&str>) -> Result<()>
        ensures fixed { OnOk result (IsNone rule.entry → BecomesFixed name.now seconds self.old self.new) }
        ensures by_rule { OnOk result (IfSome rule.entry
            (λ rule. BecomesByRule name.now rule.now self.old self.new)) }
        ensures refusal { RefusesWith result (λ k. k ≡ evaluation) }
        ensures err { OnErr result ((key : List ℕ) → zone_added self.new key ≡ zone_added self.old key) }
        ensures moment { self.new.moment ≡ self.old.moment }
        ensures names { names_in self.new ≡ names_in self.old }
        ensures versions { adds_versions self.new ≡ adds_versions self.old }
    {
        match rule {
            Some(rule) => self.add_rule(name, rule),
            None => self.add_fixed(name, seconds),
        }
    }

    fn add(&mut self, name: &str, rules: TimeZone<'static>) -> Result<()>
        ensures added { OnOk result (GainsZone name.now (plain_rules rules.entry) self.old self.new) }
        ensures refusal { RefusesWith result (λ k. k ≡ evaluation) }
        ensures err { OnErr result ((key : List ℕ) → zone_added self.new key ≡ zone_added self.old key) }
        ensures moment { self.new.moment ≡ self.old.moment }
        ensures names { names_in self.new ≡ names_in self.old }
        ensures versions { adds_versions self.new ≡ adds_versions self.old }
    {
        let alloc = self.alloc;
        if name == "UTC" {
            return Err(refusal(alloc, "the time zone UTC can't be replaced"));
        }
        let zone = TimezoneValue::named(alloc, name, rules)?;
        let name = String::from_str(alloc, name)?;
        self.zones.insert(name, zone)?;
        Ok(())
    }

    /// Adds a name to the functions that the host runs itself.
    ///
    /// # Errors
    ///
    /// Returns `Misuse` if it is not a name of the language, and `MemoryError` if an allocation fails.
    pub fn add_name(&mut self, name: &str) -> std::result::Result<(), HostError>
        ensures added { OnOk result (GainsName name.now self.old self.new) }
        ensures name { OnOk result (IsName name.now) }
        ensures refusal { IfErr result (NotMeant (IsName name.now)) }
        ensures err { OnErr result ((key : List ℕ) → named_at self.new key ≡ named_at self.old key) }
        ensures zones { (key : List ℕ) → zone_added self.new key ≡ zone_added self.old key }
        ensures moment { self.new.moment ≡ self.old.moment }
        ensures versions { adds_versions self.new ≡ adds_versions self.old }
    {
        if !is_name(self.alloc, name)? {
            return Err(HostError::Misuse(Misuse::NoWord));
        }
        Ok(self.names.add(self.alloc, name)?)
    }

    /// The names of the functions that the host runs itself.
    pub fn names(&self) -> &StopNames
        ensures { result.now ≡ names_in self.now }
    {
        &self.names
    }

    /// Sets the current time, as a DateTime in UTC.
    pub fn set_now(&mut self, now: Timestamp)
        ensures { BecomesNow now.nanosecond self.old self.new }
    {
        self.moment = Some(DateTimeValue::fixed(now, Offset::UTC));
    }

    /// Adds the functions on versions.
    pub fn add_versions(&mut self)
        ensures { GainsVersions self.old self.new }
    {
        self.versions = true;
    }
}

/// The additions of an environment, or none.
#[derive(Clone, Copy)]
pub struct LentHost<'a> {
    pub added: Option<&'a Additions>,
}

impl<'a> Functions for LentHost<'a> {
    ghost use Rattle.std.specs.Option.{option_copied};
    ghost use Rattle.expr_engine.specs.Runs.{host_by};

    ghost host = { λ lent. host_by (option_copied lent.added) };

    fn has(&self, name: &str) -> bool {
        match self.added {
            Some(added) => has_version_function(added.versions, name),
            None => false,
        }
    }

    fn ask(&self, call: ExprCall) -> Result<Value> {
        let ExprCall { ident, args } = call;
        match self.added {
            Some(added) => call_version_function(added.versions, added.alloc, ident, args),
            None => Err(Error::ExprError(ident)),
        }
    }

    fn zone(&self, name: &str) -> Option<&TimezoneValue> {
        match self.added {
            Some(added) => added.zones.get(name),
            None => None,
        }
    }

    fn moment(&self) -> Option<&DateTimeValue> {
        match self.added {
            Some(added) => added.moment.as_ref(),
            None => None,
        }
    }
}

/// Whether a string is a name of the language: it reads as a single word that isn't reserved.
fn is_name(alloc: Global, text: &str) -> Result<bool>
    ensures ok { IfOk result (λ b. IsTrue b ↔ IsName text.now) }
    ensures err { OnlyMemory result }
{
    let reading = read(alloc, text)?;
    if reading.fault.is_some() {
        return Ok(false);
    }
    Ok(is_word(&reading.tokens, text))
}

/// Whether the tokens are this word alone.
#[tactic(auto, using(crate::proofs::Named::no_word, crate::proofs::Named::no_token, crate::proofs::Named::one_token))]
fn is_word(tokens: &[Token], text: &str) -> bool
    ensures { result ≡ is_word_alone tokens.now text.now }
{
    if tokens.len() != 1 {
        return false;
    }
    match tokens.first() {
        Some(token) => is_this_word(token, text),
        None => false,
    }
}

/// Whether a token is this word, and not a reserved one.
fn is_this_word(token: &Token, text: &str) -> bool
    ensures { result ≡ is_this_word token.now text.now }
{
    match token {
        Token::Word(word) => word.as_str() == text,
        _ => false,
    }
}

/// The offset of a clock that is this many seconds ahead of UTC, if it is in range.
fn offset_ahead(seconds: i64) -> Option<Offset>
    ensures { IfSome result (λ offset. offset.seconds ≡ seconds) }
{
    match i32::try_from(seconds) {
        Ok(seconds) => Offset::from_seconds(seconds).ok(),
        Err(_) => None,
    }
}
