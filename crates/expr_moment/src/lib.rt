//! DateTimes in zones: calendar fields, civil times, later dates.
//!
//! - `fields` has what the local clock shows at a DateTime, `zones` DateTimes in other zones and at a civil time, and
//!   `dates` the date some years, months and days later. The rules of time zones are those of `jiff`.
//! - `proofs/Shown.antt` shows that the fields of `jiff` are those of the calendar of `expr_datetime`.
//! - `proofs/InZone.antt` makes DateTimes of private parts of `expr_datetime`. No other crate names private parts of
//!   another.
//! - `specs/AddedZones.antt` says what it means to add a time zone to an environment.
//!
//! A function that returns a `Result` returns `MemoryError` if an allocation fails. `# Errors` lists its other errors.
#![tactic(auto)]

mod dates;
mod fields;
mod zones;

pub use dates::date_after;
pub use fields::{DateTimeField, ZERO_INSTANT, date_shown, time_shown, weekday};
pub use zones::{
    at_instant, civil_at_offset, civil_beside, civil_in_zone, in_zone, location, moment_or_refusal,
};
