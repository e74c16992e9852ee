//! Laws about the definitions, each the contract of an empty function.
ghost use Rattle.std.specs.Prelude.{ℕ, List, false, ◌≡◌, ℤ, FitsSigned};
ghost use Rattle.expr_layout.specs.Layouts.{IsLayout, stamp_tokens};
ghost use Rattle.expr_time.specs.Stamps.{ReadsAlone, StampReadsBack, stamp_layout};
ghost use Rattle.expr_value.specs.Answers.{Answer};
ghost use Rattle.expr_datetime.specs.declared.zone.TimezoneValue.{TimezoneValue};
ghost use Rattle.std.specs.Int.{w64};
ghost use Rattle.expr_time.specs.Durations.{SpellsLength};
ghost use Rattle.expr_datetime.specs.Durations.{duration_text};

use expr_value::DateTimeValue;

/// A stamp is printed by the layout `2006-01-02T15:04:05.999999999Z07:00`.
pub fn stamps_go_by_a_layout()
    ensures { IsLayout false stamp_layout stamp_tokens }
{}

/// `date` reads back what `Format` prints by the layout `2006-01-02T15:04:05.999999999Z07:00`, with that layout and
/// without one. The result is the same instant. The year must not be below zero, and the offset must be whole minutes
/// of less than a day.
pub fn printed_moments_are_read(moment: &DateTimeValue)
    ensures by_layout { (zone : TimezoneValue) (text : List ℕ) (answer : Answer)
        → StampReadsBack moment.now zone text answer }
    ensures alone { (zone : TimezoneValue) (text : List ℕ) (answer : Answer)
        → ReadsAlone moment.now zone text answer }
{
    moment.civil();
}

/// A string spells at most one duration.
pub fn texts_have_one_meaning()
    ensures { (text : List ℕ) (m n : ℤ) → SpellsLength text m → SpellsLength text n → m ≡ n }
{}

/// The printed form of each duration spells that duration.
pub fn texts_spell_lengths()
    ensures { (d : ℤ) → FitsSigned w64 d → SpellsLength (duration_text d) d }
{}
