//! The table of operators: the kinds that they take and return. A row is a line of data.
ghost use Rattle.std.specs.Prelude.{◌≡◌, map};
ghost use Rattle.expr_kinds.specs.Checks.{base_kind, row_view};
ghost use Rattle.expr_kinds.specs.Tables.{rows, unary_kind};

use Base::{
    Any, Bool, Bytes, DateTime, Duration, Integer, Items, KeyedMap, Map, Month, Never, Nil, Text,
    Timezone, Weekday,
};
use Side::{Of, OrNil};
use expr_functions::operator::{Operator, UnaryOperator};

/// A kind that a table names: one without parts, or one with parts of any kind.
#[derive(Clone, Copy, Debug, PartialEq, Eq)]
pub enum Base {
    Any,
    Never,
    Nil,
    Bool,
    Integer,
    Text,
    Bytes,
    Duration,
    Month,
    Weekday,
    DateTime,
    Timezone,
    /// An array of any items.
    Items,
    /// A map with names as keys and values of any kinds.
    Map,
    /// A map with scalars as keys and values of any kinds.
    KeyedMap,
}

/// What an operand has to be: of a kind, or of a kind or nil.
#[derive(Clone, Copy, Debug, PartialEq, Eq)]
pub enum Side {
    Of(Base),
    OrNil(Base),
}

/// Why an operator or a call may fail though its operands or arguments are of the right kinds.
#[derive(Clone, Copy, Debug, PartialEq, Eq)]
pub enum Cause {
    /// It doesn't fail.
    Nothing,
    /// What a value holds, which its kind doesn't say.
    Content,
    /// The integer at this place is zero. Places are counted from 0.
    ZeroAt(usize),
    /// The integer at this place is below zero.
    NegativeAt(usize),
    /// The string at this place is neither "asc" nor "desc".
    DirectionAt(usize),
}

/// With operands of the kinds on both sides, an operator returns a value of a kind, or fails for a cause.
#[derive(Clone, Copy, Debug, PartialEq, Eq)]
pub struct TableRow {
    pub left: Side,
    pub right: Side,
    pub gives: Base,
    pub cause: Cause,
}

macro_rules! row {
    ($left:expr, $right:expr, $gives:expr) => {
        TableRow {
            left: $left,
            right: $right,
            gives: $gives,
            cause: Cause::Nothing,
        }
    };
    ($left:expr, $right:expr, $gives:expr, $cause:expr) => {
        TableRow {
            left: $left,
            right: $right,
            gives: $gives,
            cause: $cause,
        }
    };
}

const SUMS: &[TableRow] = &[
    row!(Of(Integer), Of(Integer), Integer),
    row!(Of(Text), Of(Text), Text),
    row!(Of(Duration), Of(Duration), Duration),
    row!(Of(DateTime), Of(Duration), DateTime, Cause::Content),
    row!(Of(Duration), Of(DateTime), DateTime, Cause::Content),
];

const DIFFERENCES: &[TableRow] = &[
    row!(Of(Integer), Of(Integer), Integer),
    row!(Of(Duration), Of(Duration), Duration),
    row!(Of(DateTime), Of(Duration), DateTime, Cause::Content),
    row!(Of(DateTime), Of(DateTime), Duration, Cause::Content),
];

const PRODUCTS: &[TableRow] = &[
    row!(Of(Integer), Of(Integer), Integer),
    row!(Of(Duration), Of(Integer), Duration),
    row!(Of(Integer), Of(Duration), Duration),
];

const REMAINDERS: &[TableRow] = &[
    row!(Of(Integer), Of(Integer), Integer, Cause::ZeroAt(1)),
    row!(Of(Any), Of(Any), Integer, Cause::Content),
];

/// Quotients and powers, which always fail.
const FAILURES: &[TableRow] = &[row!(Of(Any), Of(Any), Never, Cause::Content)];

const EQUALITIES: &[TableRow] = &[
    row!(Of(Nil), Of(Any), Bool),
    row!(Of(Any), Of(Nil), Bool),
    row!(OrNil(Bool), Of(Any), Bool),
    row!(Of(Any), OrNil(Bool), Bool),
    row!(OrNil(Text), Of(Any), Bool),
    row!(Of(Any), OrNil(Text), Bool),
    row!(OrNil(Bytes), Of(Any), Bool),
    row!(Of(Any), OrNil(Bytes), Bool),
    row!(OrNil(Duration), Of(Any), Bool),
    row!(Of(Any), OrNil(Duration), Bool),
    row!(OrNil(DateTime), Of(Any), Bool),
    row!(Of(Any), OrNil(DateTime), Bool),
    row!(OrNil(Timezone), Of(Any), Bool),
    row!(Of(Any), OrNil(Timezone), Bool),
    row!(OrNil(Items), Of(Any), Bool),
    row!(Of(Any), OrNil(Items), Bool),
    row!(OrNil(Integer), OrNil(Integer), Bool),
    row!(OrNil(Month), OrNil(Month), Bool),
    row!(OrNil(Weekday), OrNil(Weekday), Bool),
    row!(OrNil(Map), OrNil(Map), Bool),
    row!(OrNil(KeyedMap), OrNil(KeyedMap), Bool),
    row!(Of(Any), Of(Any), Bool, Cause::Content),
];

const ORDERS: &[TableRow] = &[
    row!(Of(Integer), Of(Integer), Bool),
    row!(Of(Text), Of(Text), Bool),
    row!(Of(Duration), Of(Duration), Bool),
    row!(Of(DateTime), Of(DateTime), Bool),
    row!(Of(Any), Of(Any), Bool, Cause::Content),
];

const MEMBERSHIPS: &[TableRow] = &[
    row!(Of(Any), Of(Items), Bool),
    row!(Of(Text), Of(Map), Bool),
    row!(Of(Any), Of(KeyedMap), Bool),
    row!(Of(Any), Of(Any), Bool, Cause::Content),
];

const CONTENTS: &[TableRow] = &[
    row!(Of(Text), Of(Text), Bool),
    row!(Of(Items), Of(Any), Bool),
    row!(Of(Map), Of(Text), Bool),
    row!(Of(Any), Of(Any), Bool, Cause::Content),
];

const AFFIXES: &[TableRow] = &[
    row!(Of(Text), Of(Text), Bool),
    row!(Of(Any), Of(Any), Bool, Cause::Content),
];

/// The rows of an operator that evaluates both operands. The first that fits says the most.
#[tactic(auto, unfolding(crate::specs::Tables::rows))]
pub fn rows_of(operator: Operator) -> &'static [TableRow]
    ensures { map row_view result.now ≡ rows operator }
{
    match operator {
        Operator::Add => SUMS,
        Operator::Subtract => DIFFERENCES,
        Operator::Multiply => PRODUCTS,
        Operator::Modulo => REMAINDERS,
        Operator::Divide | Operator::Pow => FAILURES,
        Operator::Equal | Operator::NotEqual => EQUALITIES,
        Operator::GreaterThan | Operator::GreaterThanOrEqual => ORDERS,
        Operator::LessThan | Operator::LessThanOrEqual => ORDERS,
        Operator::In | Operator::NotIn => MEMBERSHIPS,
        Operator::Contains => CONTENTS,
        Operator::StartsWith | Operator::EndsWith => AFFIXES,
        Operator::And | Operator::Or | Operator::Matches => &[],
    }
}

/// The kind that an operator before its operand takes, and returns.
pub fn taken_by(operator: UnaryOperator) -> Base
    ensures { base_kind result ≡ unary_kind operator }
{
    match operator {
        UnaryOperator::Not => Bool,
        UnaryOperator::Positive | UnaryOperator::Negative => Integer,
    }
}
