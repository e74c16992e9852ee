//! Limits by their numbers, and the message for each.
ghost use Rattle.std.specs.Prelude.{◌≡◌};
ghost use Rattle.expr_exchange.specs.Limits.{limit_by_number, text_of_limit};

use expr_limits::Limit;

/// The limit of a number. A host knows the limits by their numbers: nesting 0, patterns 1, steps 2, depth 3,
/// size 4.
pub fn limit_numbered(number: u32) -> Option<Limit>
    ensures { result ≡ limit_by_number number }
{
    match number {
        0 => Some(Limit::Nesting),
        1 => Some(Limit::Patterns),
        2 => Some(Limit::Steps),
        3 => Some(Limit::Depth),
        4 => Some(Limit::Size),
        _ => None,
    }
}

/// The message for a run or an expression that passes this limit.
pub fn limit_text(limit: Limit) -> &'static str
    ensures { result.now ≡ text_of_limit limit }
{
    match limit {
        Limit::Nesting => "the expression nests deeper than the limit",
        Limit::Patterns => "the patterns of the expression weigh more than the limit",
        Limit::Steps => "the run takes more steps than the limit",
        Limit::Depth => "the run makes a value that is deeper than the limit",
        Limit::Size => "the values of the run weigh more than the limit",
    }
}
