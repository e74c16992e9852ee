//! A value, and a cursor on one of its parts.
ghost use Rattle.std.specs.Prelude.{◌≡◌, ◌≤ℤ◌, [], pos, length, IfErr, IfOk, OnErr, OnOk, Some, string_bytes};
ghost use Rattle.std.specs.Int.{int_div_euclid, int_rem_euclid};
ghost use Rattle.std.specs.Option.{option_copied};
ghost use Rattle.expr_exchange.specs.Kinds.{bytes_in, fraction_of, kind_for_host, number_of};
ghost use Rattle.expr_exchange.specs.Cursor.{LooksDown, LooksUp, SameLook, at_number, item_at, pair_key_at, part_of, way_of};
ghost use Rattle.expr_exchange.specs.Refusals.{NotThere};
ghost use Rattle.expr_value.specs.Strings.{string_text};
ghost use Rattle.expr_datetime.specs.Times.{instant};

use crate::host_error::HostError;
use crate::kind::Kind;
use crate::misuse::Misuse;
use expr_value::{DateTimeValue, Value};
use std::alloc::Global;

/// A value, and the path from the whole to the part under the cursor: the positions of the items.
#[derive(Drop)]
pub struct ValueCursor {
    alloc: Global,
    whole: Value,
    way: Vec<usize>,
}

/// A summary of a value: its kind, its number, and the nanoseconds of a DateTime after its second.
#[derive(Clone, Copy)]
pub struct ValueSummary {
    pub kind: Kind,
    pub number: i64,
    pub fraction: u32,
}

impl ValueCursor {
    /// Creates a cursor on nil. It allocates no memory.
    pub fn new(alloc: Global) -> ValueCursor
        ensures part { part_of result ≡ Value.Nil }
        ensures way { way_of result ≡ [] }
    {
        ValueCursor {
            alloc,
            whole: Value::Nil,
            way: Vec::new(alloc),
        }
    }

    /// Replaces the value, and moves the cursor to the whole of it.
    pub fn keep(&mut self, value: Value)
        ensures part { part_of self.new ≡ value }
        ensures way { way_of self.new ≡ [] }
    {
        self.whole = value;
        self.way.clear();
    }

    /// The part under the cursor.
    #[inline(always)]
    pub fn part(&self) -> &Value
        ensures { result.now ≡ part_of self.now }
    {
        let mut part = &self.whole;
        for place in &self.way {
            if let Some(item) = item_of(part, *place) {
                part = item;
            }
        }
        part
    }

    /// Moves the cursor to an item of its part, by the item's position from 0.
    ///
    /// # Errors
    ///
    /// Returns `Misuse` if there is no such item, and `MemoryError` if an allocation fails. The cursor then
    /// stays.
    pub fn go_down(&mut self, number: i64) -> Result<(), HostError>
        ensures ok { OnOk result (LooksDown number self.old self.new) }
        ensures err { OnErr result (SameLook self.old self.new) }
        ensures refused { IfErr result (NotThere (at_number number (item_at (part_of self.old)))) }
    {
        let Ok(place) = usize::try_from(number) else {
            return Err(HostError::Misuse(Misuse::NoPart));
        };
        if item_of(self.part(), place).is_none() {
            return Err(HostError::Misuse(Misuse::NoPart));
        }
        self.way.push(place)?;
        Ok(())
    }

    /// Moves the cursor back to the array or map of its item.
    ///
    /// # Errors
    ///
    /// Returns `Misuse` if the cursor is on the whole value.
    pub fn go_up(&mut self) -> Result<(), HostError>
        ensures ok { OnOk result (LooksUp self.old self.new) }
        ensures err { OnErr result (SameLook self.old self.new) }
        ensures refused { IfErr result (λ e. (e ≡ HostError.Misuse Misuse.AtWhole) × (way_of self.old ≡ [])) }
    {
        match self.way.pop() {
            Some(_) => Ok(()),
            None => Err(HostError::Misuse(Misuse::AtWhole)),
        }
    }

    /// The part as the built-in `string` converts it.
    ///
    /// # Errors
    ///
    /// Returns `MemoryError` if an allocation fails.
    pub fn text(&self) -> Result<String, HostError>
        ensures { IfOk result (λ text. string_bytes text ≡ string_text (part_of self.now)) }
    {
        Ok(self.part().string_text(self.alloc)?)
    }
}

/// The item at a position of an array, or the value at a position of a map.
fn item_of(value: &Value, place: usize) -> Option<&Value>
    ensures { option_copied result ≡ item_at value.now place }
{
    match value {
        Value::Array(items) => items.get(place),
        Value::Map(map) => match map.get_index(place) {
            Some((_name, value)) => Some(value),
            None => None,
        },
        Value::KeyedMap(map) => match map.get_index(place) {
            Some((_key, value)) => Some(value),
            None => None,
        },
        _ => None,
    }
}

/// The bytes of a string, of bytes, or of a zone's name. Of any other value there are none.
pub fn bytes_of(value: &Value) -> &[u8]
    ensures { result.now ≡ bytes_in value.now }
{
    match value {
        Value::String(text) => text.as_str().as_bytes(),
        Value::Bytes(bytes) => bytes.as_slice(),
        Value::Timezone(zone) => zone.get().name().as_bytes(),
        _ => &[],
    }
}

/// The summary of a value.
#[inline(always)]
pub fn summary_of(value: &Value) -> ValueSummary
    ensures kind { result.kind ≡ kind_for_host value.now }
    ensures number { number_of value.now ≤ℤ pos 9_223_372_036_854_775_807
        → result.number ≡ number_of value.now }
    ensures fraction { pos result.fraction ≡ fraction_of value.now }
{
    match value {
        Value::Nil => of_kind(Kind::Nil, 0),
        Value::Bool(truth) => of_kind(Kind::Bool, i64::from(*truth)),
        Value::Integer(number) => of_kind(Kind::Integer, *number),
        Value::String(text) => of_kind(Kind::String, count(text.len())),
        Value::Duration(nanoseconds) => of_kind(Kind::Duration, *nanoseconds),
        Value::Month(month) => of_kind(Kind::Month, i64::from(*month)),
        Value::Weekday(day) => of_kind(Kind::Weekday, i64::from(*day)),
        Value::DateTime(moment) => of_moment(moment.get()),
        Value::Timezone(_) => of_kind(Kind::Timezone, 0),
        Value::Array(items) => of_kind(Kind::Array, count(items.len())),
        Value::Bytes(bytes) => of_kind(Kind::Bytes, count(bytes.len())),
        Value::Map(map) => of_kind(Kind::Map, count(map.len())),
        Value::KeyedMap(map) => of_kind(Kind::KeyedMap, count(map.len())),
    }
}

/// The summary of a value that is not a DateTime.
fn of_kind(kind: Kind, number: i64) -> ValueSummary
    ensures kind { result.kind ≡ kind }
    ensures number { result.number ≡ number }
    ensures fraction { result.fraction ≡ 0 }
{
    ValueSummary {
        kind,
        number,
        fraction: 0,
    }
}

/// The summary of a DateTime: its second since 1970, and the nanoseconds after that.
fn of_moment(moment: &DateTimeValue) -> ValueSummary
    ensures kind { result.kind ≡ Kind.DateTime }
    ensures number { result.number ≡ int_div_euclid (instant moment.now) (pos 1_000_000_000) }
    ensures fraction { pos result.fraction ≡ int_rem_euclid (instant moment.now) (pos 1_000_000_000) }
{
    let instant = moment.timestamp().as_nanosecond();
    ValueSummary {
        kind: Kind::DateTime,
        number: instant.div_euclid(1_000_000_000) as i64,
        fraction: instant.rem_euclid(1_000_000_000) as u32,
    }
}

fn count(length: usize) -> i64
    ensures { pos length ≤ℤ pos 9_223_372_036_854_775_807 → result ≡ pos length }
{
    i64::try_from(length).unwrap_or(0)
}

/// The key at a position of a map, from 0, as a value.
///
/// # Errors
///
/// Returns `Misuse` if there is no such key, and `MemoryError` if an allocation fails.
pub fn key_of(alloc: Global, value: &Value, number: i64) -> Result<Value, HostError>
    ensures ok { IfOk result (λ key. at_number number (pair_key_at value.now) ≡ Some key) }
    ensures refused { IfErr result (NotThere (at_number number (pair_key_at value.now))) }
{
    let Ok(place) = usize::try_from(number) else {
        return Err(HostError::Misuse(Misuse::NoPart));
    };
    match value {
        Value::Map(map) => match map.get_index(place) {
            Some((name, _value)) => Ok(Value::text(alloc, name)?),
            None => Err(HostError::Misuse(Misuse::NoPart)),
        },
        Value::KeyedMap(map) => match map.get_index(place) {
            Some((key, _value)) => Ok(key.to_value(alloc)?),
            None => Err(HostError::Misuse(Misuse::NoPart)),
        },
        _ => Err(HostError::Misuse(Misuse::NoPart)),
    }
}
