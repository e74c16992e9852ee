//! Decimal digits.
ghost use Rattle.std.specs.Prelude.{◌≡◌, ◌<◌, ◌≤◌, ◌^◌};
ghost use Rattle.std.specs.Fmt.{WritesOnOk};
ghost use Rattle.expr_datetime.specs.Digits.{digits, fraction_digits, minus};

use std::fmt;
use std::fmt::{Formatter, Write};

/// Prints `-` for a number below zero, and nothing for any other.
pub(crate) fn show_minus<W: Write>(number: i64, f: &mut Formatter<W>) -> fmt::Result
    ensures { WritesOnOk W.write_str_gives f.old result (minus number) f.new }
{
    f.write_str(if number < 0 { "-" } else { "" })
}

/// Prints the last `count` decimal digits of a number, with leading zeros. `count` is at most 9.
#[tactic(auto, unfolding(crate::specs::Digits::digits))]
pub fn show_digits<W: Write>(count: u32, number: u64, f: &mut Formatter<W>) -> fmt::Result
    requires { count ≤ 9 }
    ensures { WritesOnOk W.write_str_gives f.old result (digits count number) f.new }
{
    if count == 0 {
        return f.write_str("");
    }
    let unit = power_of_ten(count - 1);
    let digit = number / unit;
    write!(f, "{digit}")?;
    show_digits(count - 1, number % unit, f)
}

/// Prints the decimals of `parts` / 10^`places`, without trailing zeros. `places` is at most 9.
pub fn show_fraction_digits<W: Write>(places: u32, parts: u64, f: &mut Formatter<W>) -> fmt::Result
    requires { places ≤ 9 }
    ensures { WritesOnOk W.write_str_gives f.old result (fraction_digits places parts) f.new }
{
    if places == 0 || parts == 0 {
        return f.write_str("");
    }
    let unit = power_of_ten(places - 1);
    let digit = parts / unit;
    write!(f, "{digit}")?;
    show_fraction_digits(places - 1, parts % unit, f)
}

/// 10^`places`, where `places` is at most 9.
pub fn power_of_ten(places: u32) -> u64
    requires { places ≤ 9 }
    ensures value { result ≡ 10 ^ places }
    ensures positive { 0 < result }
{
    10_u64.pow(places)
}
