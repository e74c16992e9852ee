//! The tokens of layouts.

/// A number of a date or a time of day.
#[derive(Clone, Copy, Debug, PartialEq, Eq)]
pub enum Field {
    Month,
    Day,
    Hour,
    /// The hour on a 12-hour clock, from 1 to 12.
    HalfHour,
    Minute,
    Second,
}

/// What fills a number that has fewer digits than its width.
#[derive(Clone, Copy, Debug, PartialEq, Eq)]
pub enum Pad {
    Zero,
    Space,
    Nothing,
}

/// Which parts of an offset are written, and whether with colons.
#[derive(Clone, Copy, Debug, PartialEq, Eq)]
pub enum Spelling {
    Hours,
    Minutes,
    ColonMinutes,
    Seconds,
    ColonSeconds,
}

/// What a layout prints or reads.
#[derive(Clone, Copy, Debug, PartialEq, Eq)]
pub enum LayoutToken {
    LongMonth,
    Month,
    LongWeekday,
    Weekday,
    Year,
    /// The last two digits of the year.
    ShortYear,
    Number(Field, Pad),
    YearDay(Pad),
    /// `AM` or `PM`.
    UpperHalf,
    /// `am` or `pm`.
    LowerHalf,
    /// The name of the time zone, or the offset.
    Zone,
    Offset(Spelling),
    /// `Z` for offset zero, otherwise the offset.
    Zulu(Spelling),
    /// A separator and this number of decimals of the second.
    Fraction(char, u32),
    /// A separator and decimals of the second, without trailing zeros. Nothing if all are zero.
    ShortFraction(char, u32),
    /// A character that is printed and read as it is.
    Literal(char),
    /// A number in exactly two digits. Only the forms that `date` reads without a layout have it.
    TwoDigits(Field),
    /// `T`, `t` or a space. Only the forms that `date` reads without a layout have it.
    Mark,
    /// `Z`, `z`, or an offset in hours and minutes. Only the forms that `date` reads without a layout have it.
    StampOffset,
}
