//! The weight of a regular expression, computed from its source before it is compiled.
ghost use Rattle.std.specs.Prelude.{◌≡◌, ◌+◌, ◌<◌, ◌≤◌, ◌^◌, IfOk, IfErr};
ghost use Rattle.expr_limits.specs.Patterns.{IsSmall, byte_weight as weight_of_byte, escape_weight as weight_of_escape, with_new_part, with_longer_part, pattern_weight, read as with_byte, read_class as class_with, read_outside as outside_with, read_times as times_with, with_repeated_part, with_count_digit as digits_with};
ghost use Rattle.expr_limits.specs.declared.value_limit.ValueLimit.{ValueLimit as passed};

use crate::units::take;
use crate::value_limit::ValueLimit;

/// Subtracts the weight of a regular expression from `room`, in units.
///
/// A pattern weighs 8, and 4 for each byte, but 8 for `.` and `^`. After a backslash, `d D s S` weigh 100 and `w W b B
/// p P` weigh 1,000. A repetition `{n}` or `{m,n}` adds n times the weight of the character, escape or class before it.
/// After a group, it makes the whole pattern n times as heavy.
///
/// # Errors
///
/// Returns `Weight` if the pattern weighs more than `room`.
pub fn weigh_pattern(text: &str, room: u64) -> Result<u64, ValueLimit>
    ensures within { IfOk result (λ left. pattern_weight text.now + left ≡ room) }
    ensures passed { IfErr result (λ p. (p ≡ passed.Weight) × (room < pattern_weight text.now)) }
{
    let mut sketch = Sketch {
        weight: 8,
        last: 0,
        factor: 1,
        place: PatternState::Outside,
    };
    for byte in text.as_bytes() {
        sketch.read(*byte);
        if sketch.weight > room as u128 || sketch.factor > room as u128 {
            return Err(ValueLimit::Weight);
        }
    }
    let weight = sketch.weight * sketch.factor;
    if weight > room as u128 {
        return Err(ValueLimit::Weight);
    }
    take(room, weight as u64)
}

/// What the bytes read so far are inside of.
#[derive(Clone, Copy)]
enum PatternState {
    Outside,
    /// After a backslash.
    Escaped,
    /// In a class.
    Class,
    /// In a class, after a backslash.
    ClassEscaped,
    /// In braces: the number before the comma, or 0, and the number after it so far. A number beyond `u32` counts as
    /// the greatest `u32`, and `regex` compiles no such pattern.
    Times(u32, u32),
}

/// What is known of a pattern after some of its bytes.
#[derive(Drop)]
struct Sketch {
    /// The weight without the repetition of groups.
    weight: u128,
    /// The weight of the last character, escape or class, or 0 after a group.
    last: u128,
    /// How often groups are repeated.
    factor: u128,
    place: PatternState,
}

impl Sketch {
    /// Reads one more byte.
    fn read(&mut self, byte: u8)
        requires { IsSmall self.old }
        ensures { self.new ≡ with_byte self.old byte }
    {
        match self.place {
            PatternState::Outside => self.read_outside(byte),
            PatternState::Escaped => self.begin(escape_weight(byte), PatternState::Outside),
            PatternState::Class => self.read_class(byte),
            PatternState::ClassEscaped => self.lengthen(escape_weight(byte), PatternState::Class),
            PatternState::Times(least, number) => self.read_times(least, number, byte),
        }
    }

    fn read_outside(&mut self, byte: u8)
        requires { IsSmall self.old }
        ensures { self.new ≡ outside_with byte self.old }
    {
        match byte {
            b'\\' => self.pass(PatternState::Escaped),
            b'[' => self.begin(4, PatternState::Class),
            b'{' => self.pass(PatternState::Times(0, 0)),
            b'*' | b'+' | b'?' => self.pass(PatternState::Outside),
            b')' => {
                self.last = 0;
                self.pass(PatternState::Outside);
            }
            other => self.begin(byte_weight(other), PatternState::Outside),
        }
    }

    fn read_class(&mut self, byte: u8)
        requires { IsSmall self.old }
        ensures { self.new ≡ class_with byte self.old }
    {
        match byte {
            b'\\' => self.lengthen(4, PatternState::ClassEscaped),
            b']' => self.lengthen(4, PatternState::Outside),
            other => self.lengthen(byte_weight(other), PatternState::Class),
        }
    }

    fn read_times(&mut self, least: u32, number: u32, byte: u8)
        requires { IsSmall self.old }
        ensures { self.new ≡ times_with least number byte self.old }
    {
        match byte {
            b'0'..=b'9' => self.pass(PatternState::Times(least, with_digit(number, byte))),
            b',' => self.pass(PatternState::Times(number, 0)),
            b'}' => {
                self.pass(PatternState::Outside);
                self.repeat(least.max(number) as u128);
            }
            _ => self.pass(PatternState::Outside),
        }
    }

    /// Begins a character, escape or class of this weight.
    fn begin(&mut self, weight: u128, place: PatternState)
        requires small { IsSmall self.old }
        requires weight { weight < 2 ^ 64 }
        ensures { self.new ≡ with_new_part weight weight place self.old }
    {
        self.weight += weight;
        self.last = weight;
        self.place = place;
    }

    /// Continues the last character, escape or class, with this weight more.
    fn lengthen(&mut self, weight: u128, place: PatternState)
        requires small { IsSmall self.old }
        requires weight { weight < 2 ^ 64 }
        ensures { self.new ≡ with_longer_part weight weight place self.old }
    {
        self.weight += weight;
        self.last += weight;
        self.place = place;
    }

    /// Reads a byte that is no part of what a repetition repeats.
    fn pass(&mut self, place: PatternState)
        requires { IsSmall self.old }
        ensures { self.new ≡ with_longer_part 4 0 place self.old }
    {
        self.weight += 4;
        self.place = place;
    }

    /// Adds `times` times the last weight. After a group, multiplies the factor.
    fn repeat(&mut self, times: u128)
        requires weight { self.old.weight < 2 ^ 66 }
        requires last { self.old.last < 2 ^ 65 }
        requires factor { self.old.factor < 2 ^ 64 }
        requires times { times < 2 ^ 32 }
        ensures { self.new ≡ with_repeated_part times self.old }
    {
        if self.last == 0 {
            self.factor *= times.max(1);
        }
        self.last *= times;
        self.weight += self.last;
        self.place = PatternState::Outside;
    }
}

/// The weight of a byte.
fn byte_weight(byte: u8) -> u128
    ensures { result ≡ weight_of_byte byte }
{
    match byte {
        b'.' | b'^' => 8,
        _ => 4,
    }
}

/// The weight of a byte after a backslash.
fn escape_weight(byte: u8) -> u128
    ensures { result ≡ weight_of_escape byte }
{
    match byte {
        b'w' | b'W' | b'b' | b'B' | b'p' | b'P' => 1_000,
        b'd' | b'D' | b's' | b'S' => 100,
        _ => 4,
    }
}

/// Appends a decimal digit to a number. The result is at most the greatest `u32`.
fn with_digit(number: u32, digit: u8) -> u32
    requires { (48 ≤ digit) × (digit ≤ 57) }
    ensures { result ≡ digits_with number digit }
{
    let longer = number as u64 * 10 + (digit - b'0') as u64;
    longer.min(u32::MAX as u64) as u32
}
