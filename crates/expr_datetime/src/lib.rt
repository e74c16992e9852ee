//! DateTimes, time zones and durations, and how they print.
//!
//! - `DateTimeValue` is an instant in a time zone or at a fixed offset from UTC.
//! - `specs/Times.antt` says what DateTimes and zones are, when they are equal, and how they print.
//!   `specs/Moments.antt`, `Durations.antt` and `Digits.antt` define the printed forms.
//! - `specs/Calendar.antt` walks the calendar day by day, so that a reader needs no formula. `proofs/Days.antt` shows
//!   that the fields of `jiff` are the same.
//!
//! A function that returns a `Result` returns `MemoryError` if an allocation fails. `# Errors` lists its other errors.
#![tactic(auto)]

mod digits;
mod duration;
mod moment;
mod moment_text;
mod offset;
mod zone;

pub use digits::{power_of_ten, show_digits, show_fraction_digits};
pub use duration::show_duration;
pub use moment::{DateTimeValue, MomentZone, show_place, show_stamp_of};
pub use moment_text::show_year;
pub use zone::{TimezoneValue, utc};
