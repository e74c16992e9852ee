//! Durations, DateTimes and zones: their calls and methods.
//!
//! - The syntax of durations, the names of methods and the layouts are Go's.
//! - `spelling` reads a duration, one part at a time. `length_method` has the built-in `duration` and the methods of
//!   durations, and `moments` the methods of DateTimes and zones.
//! - `date` and `civil` are the built-in `date`. `zones` has the trait through which a host provides its zones, with
//!   `timezone` and `now`. `calls` takes a `TimeCall`.
//! - `specs/Durations.antt` says what a string means as a duration, and `Reading.antt` how it is read.
//!   `LengthMethods.antt` and `Moments.antt` have one line for each method. `Stamps.antt` has the law that a printed
//!   DateTime is read back.
//!
//! A function that returns a `Result` returns `MemoryError` if an allocation fails. `# Errors` lists its other errors.
#![tactic(auto)]

mod calls;
mod civil;
mod date;
mod laws;
mod length_method;
mod moments;
mod spelling;
mod zones;

pub use calls::call_time;
pub use laws::{
    printed_moments_are_read, stamps_go_by_a_layout, texts_have_one_meaning, texts_spell_lengths,
};
pub use length_method::{DurationMethod, duration};
pub use moments::{DateTimeMethod, TextMethod};
pub use spelling::parse_length;
pub use zones::{UtcAlone, Zones};
