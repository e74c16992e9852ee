//! The table of built-ins on values: the kinds that they take and return. A row is a line of data.
ghost use Rattle.std.specs.Prelude.{◌≡◌, map};
ghost use Rattle.expr_kinds.specs.BuiltinRows.{AreFirst, overload_view};
ghost use Rattle.expr_kinds.specs.Overloads.{on_bits, on_collections, on_conversions, on_encodings, on_numbers, on_strings, on_times, overloads};
ghost use Rattle.expr_schema.specs.Kinds.{Kind};

use crate::shapes::Shape::{
    ArrayOf, Arrays, ItemArray, ItemArrays, ItemMap, ItemNames, ItemOrNil, Of, OrNil,
};
use crate::shapes::{CallRow, Takes};
use crate::tables::Base::{
    Any, Bool, Bytes, DateTime, Duration, Integer, Items, KeyedMap, Map, Never, Text, Timezone,
};
use crate::tables::Cause;
use expr_functions::{
    BitCall, CollectionCall, ConversionCall, EncodingCall, NumberCall, TextCall, TimeCall,
    ValueCall,
};

macro_rules! on {
    ($takes:expr, $gives:expr) => {
        on_more!($takes, Of(Never), $gives)
    };
    ($takes:expr, $gives:expr, $cause:expr) => {
        on_more!($takes, Of(Never), $gives, $cause)
    };
}

macro_rules! on_more {
    ($takes:expr, $more:expr, $gives:expr) => {
        on_more!($takes, $more, $gives, Cause::Nothing)
    };
    ($takes:expr, $more:expr, $gives:expr, $cause:expr) => {
        CallRow {
            takes: $takes,
            more: $more,
            gives: $gives,
            cause: $cause,
        }
    };
}

const EXTREMES: &[CallRow] = &[
    on_more!(Takes::One(Of(Integer)), Of(Integer), Of(Integer)),
    on_more!(Takes::One(Of(Integer)), ArrayOf(Integer), Of(Integer)),
    on_more!(
        Takes::Two(ArrayOf(Integer), Of(Integer)),
        Of(Integer),
        Of(Integer)
    ),
    on_more!(
        Takes::One(ArrayOf(Integer)),
        ArrayOf(Integer),
        OrNil(Integer)
    ),
    on_more!(Takes::Nothing, Of(Any), OrNil(Integer), Cause::Content),
];

const FAILURES: &[CallRow] = &[on_more!(Takes::Nothing, Of(Any), Of(Never), Cause::Content)];

const LEN: &[CallRow] = &[
    on!(Takes::One(Of(Text)), Of(Integer)),
    on!(Takes::One(Of(Items)), Of(Integer)),
    on!(Takes::One(Of(Bytes)), Of(Integer)),
    on!(Takes::One(Of(Map)), Of(Integer)),
    on!(Takes::One(Of(KeyedMap)), Of(Integer)),
    on_more!(Takes::Nothing, Of(Any), Of(Integer), Cause::Content),
];

const FIRST: &[CallRow] = &[on!(Takes::One(ItemArray), ItemOrNil)];

const TAKE: &[CallRow] = &[
    on!(
        Takes::Two(ItemArray, Of(Integer)),
        ItemArray,
        Cause::NegativeAt(1)
    ),
    on_more!(Takes::Nothing, Of(Any), Of(Items), Cause::Content),
];

const REVERSE: &[CallRow] = &[
    on!(Takes::One(ItemArray), ItemArray),
    on_more!(Takes::Nothing, Of(Any), Of(Items), Cause::Content),
];

const FLATTEN: &[CallRow] = &[
    on!(Takes::One(Of(Items)), Of(Items)),
    on_more!(Takes::Nothing, Of(Any), Of(Items), Cause::Content),
];

const CONCAT: &[CallRow] = &[
    on_more!(Takes::One(ItemArray), ItemArray, ItemArray),
    on_more!(Takes::Nothing, Of(Any), Of(Items), Cause::Content),
];

const KEYS: &[CallRow] = &[
    on!(Takes::One(Of(Map)), ArrayOf(Text)),
    on!(Takes::One(Of(KeyedMap)), Of(Items)),
    on_more!(Takes::Nothing, Of(Any), Of(Items), Cause::Content),
];

const VALUES: &[CallRow] = &[
    on!(Takes::One(Of(Map)), Of(Items)),
    on!(Takes::One(ItemMap), ItemArray),
    on_more!(Takes::Nothing, Of(Any), Of(Items), Cause::Content),
];

const TO_PAIRS: &[CallRow] = &[
    on!(Takes::One(Of(Map)), Arrays),
    on!(Takes::One(Of(KeyedMap)), Arrays),
    on_more!(Takes::Nothing, Of(Any), Of(Items), Cause::Content),
];

const GET: &[CallRow] = &[
    on!(Takes::Two(ItemArray, Of(Integer)), ItemOrNil),
    on!(Takes::Two(Of(Bytes), Of(Integer)), OrNil(Integer)),
    on!(Takes::Two(ItemNames, Of(Text)), ItemOrNil),
    on!(Takes::Two(ItemMap, Of(Any)), ItemOrNil),
];

const JOIN: &[CallRow] = &[
    on!(Takes::One(ArrayOf(Text)), Of(Text)),
    on!(Takes::Two(ArrayOf(Text), Of(Text)), Of(Text)),
    on_more!(Takes::Nothing, Of(Any), Of(Text), Cause::Content),
];

const FROM_PAIRS: &[CallRow] = &[
    on!(Takes::One(ItemArrays), ItemMap, Cause::Content),
    on_more!(Takes::Nothing, Of(Any), Of(KeyedMap), Cause::Content),
];

const HAS_PREFIX: &[CallRow] = &[
    on!(Takes::Two(Of(Text), Of(Text)), Of(Bool)),
    on_more!(Takes::Nothing, Of(Any), Of(Bool), Cause::Content),
];

const TRIM: &[CallRow] = &[
    on!(Takes::One(Of(Text)), Of(Text)),
    on!(Takes::Two(Of(Text), Of(Text)), Of(Text)),
    on_more!(Takes::Nothing, Of(Any), Of(Text), Cause::Content),
];

const UPPER: &[CallRow] = &[
    on!(Takes::One(Of(Text)), Of(Text)),
    on_more!(Takes::Nothing, Of(Any), Of(Text), Cause::Content),
];

const SPLIT: &[CallRow] = &[
    on!(Takes::Two(Of(Text), Of(Text)), ArrayOf(Text)),
    on!(Takes::Three(Of(Text), Of(Text), Of(Integer)), ArrayOf(Text)),
    on_more!(Takes::Nothing, Of(Any), ArrayOf(Text), Cause::Content),
];

const REPLACE: &[CallRow] = &[
    on!(Takes::Three(Of(Text), Of(Text), Of(Text)), Of(Text)),
    on!(
        Takes::Four(Of(Text), Of(Text), Of(Text), Of(Integer)),
        Of(Text)
    ),
    on_more!(Takes::Nothing, Of(Any), Of(Text), Cause::Content),
];

const REPEAT: &[CallRow] = &[
    on!(Takes::Two(Of(Text), Of(Integer)), Of(Text), Cause::Content),
    on_more!(Takes::Nothing, Of(Any), Of(Text), Cause::Content),
];

const INDEX_OF: &[CallRow] = &[
    on!(Takes::Two(Of(Text), Of(Text)), Of(Integer)),
    on_more!(Takes::Nothing, Of(Any), Of(Integer), Cause::Content),
];

const TO_INT: &[CallRow] = &[
    on!(Takes::One(Of(Integer)), Of(Integer)),
    on!(Takes::One(Of(Text)), Of(Integer), Cause::Content),
    on_more!(Takes::Nothing, Of(Any), Of(Integer), Cause::Content),
];

const TO_STRING: &[CallRow] = &[on!(Takes::One(Of(Any)), Of(Text))];

const ABS: &[CallRow] = &[
    on!(Takes::One(Of(Integer)), Of(Integer)),
    on_more!(Takes::Nothing, Of(Any), Of(Integer), Cause::Content),
];

const BITSHL: &[CallRow] = &[
    on!(
        Takes::Two(Of(Integer), Of(Integer)),
        Of(Integer),
        Cause::NegativeAt(1)
    ),
    on_more!(Takes::Nothing, Of(Any), Of(Integer), Cause::Content),
];

const BITS: &[CallRow] = &[
    on!(Takes::Two(Of(Integer), Of(Integer)), Of(Integer)),
    on_more!(Takes::Nothing, Of(Any), Of(Integer), Cause::Content),
];

const FROM_JSON: &[CallRow] = &[on!(Takes::One(Of(Text)), Of(Any), Cause::Content)];

const TO_JSON: &[CallRow] = &[on!(Takes::One(Of(Any)), Of(Text), Cause::Content)];

const FROM_BASE64: &[CallRow] = &[
    on!(Takes::One(Of(Text)), Of(Text), Cause::Content),
    on_more!(Takes::Nothing, Of(Any), Of(Text), Cause::Content),
];

const TO_DATE: &[CallRow] = &[
    on_more!(Takes::One(Of(Text)), Of(Text), Of(DateTime), Cause::Content),
    on_more!(
        Takes::One(Of(Timezone)),
        Of(Text),
        Of(DateTime),
        Cause::Content
    ),
    on_more!(Takes::Nothing, Of(Any), Of(DateTime), Cause::Content),
];

const TO_DURATION: &[CallRow] = &[
    on!(Takes::One(Of(Text)), Of(Duration), Cause::Content),
    on_more!(Takes::Nothing, Of(Any), Of(Duration), Cause::Content),
];

const NOW: &[CallRow] = &[on!(Takes::Nothing, Of(DateTime), Cause::Content)];

const TO_TIMEZONE: &[CallRow] = &[
    on!(Takes::One(Of(Text)), Of(Timezone), Cause::Content),
    on_more!(Takes::Nothing, Of(Any), Of(Timezone), Cause::Content),
];

const SORT: &[CallRow] = &[
    on!(Takes::One(ArrayOf(Integer)), ArrayOf(Integer)),
    on!(Takes::One(ArrayOf(Text)), ArrayOf(Text)),
    on!(
        Takes::Two(ArrayOf(Integer), Of(Text)),
        ArrayOf(Integer),
        Cause::DirectionAt(1)
    ),
    on!(
        Takes::Two(ArrayOf(Text), Of(Text)),
        ArrayOf(Text),
        Cause::DirectionAt(1)
    ),
    on_more!(Takes::One(ItemArray), Of(Text), ItemArray, Cause::Content),
];

fn collection_rows(call: CollectionCall) -> &'static [CallRow]
    ensures { (k : Kind) → AreFirst (map (overload_view k) result.now) (on_collections call k) }
{
    match call {
        CollectionCall::Len => LEN,
        CollectionCall::First => FIRST,
        CollectionCall::Last => FIRST,
        CollectionCall::Take => TAKE,
        CollectionCall::Reverse => REVERSE,
        CollectionCall::Uniq => REVERSE,
        CollectionCall::Flatten => FLATTEN,
        CollectionCall::Concat => CONCAT,
        CollectionCall::Keys => KEYS,
        CollectionCall::Values => VALUES,
        CollectionCall::ToPairs => TO_PAIRS,
        CollectionCall::Get => GET,
        CollectionCall::Join => JOIN,
        CollectionCall::FromPairs => FROM_PAIRS,
    }
}

fn text_rows(call: TextCall) -> &'static [CallRow]
    ensures { (k : Kind) → map (overload_view k) result.now ≡ on_strings call }
{
    match call {
        TextCall::HasPrefix => HAS_PREFIX,
        TextCall::HasSuffix => HAS_PREFIX,
        TextCall::Trim => TRIM,
        TextCall::TrimPrefix => TRIM,
        TextCall::TrimSuffix => TRIM,
        TextCall::Upper => UPPER,
        TextCall::Lower => UPPER,
        TextCall::Split => SPLIT,
        TextCall::SplitAfter => SPLIT,
        TextCall::Replace => REPLACE,
        TextCall::Repeat => REPEAT,
        TextCall::IndexOf => INDEX_OF,
        TextCall::LastIndexOf => INDEX_OF,
    }
}

fn conversion_rows(call: ConversionCall) -> &'static [CallRow]
    ensures { (k : Kind) → map (overload_view k) result.now ≡ on_conversions call }
{
    match call {
        ConversionCall::Int => TO_INT,
        ConversionCall::String => TO_STRING,
        ConversionCall::Type => TO_STRING,
    }
}

fn number_rows(call: NumberCall) -> &'static [CallRow]
    ensures { (k : Kind) → map (overload_view k) result.now ≡ on_numbers call }
{
    match call {
        NumberCall::Abs => ABS,
        NumberCall::Max => EXTREMES,
        NumberCall::Min => EXTREMES,
        NumberCall::Float => FAILURES,
        NumberCall::Mean => FAILURES,
        NumberCall::Median => FAILURES,
        NumberCall::Ceil => FAILURES,
        NumberCall::Floor => FAILURES,
        NumberCall::Round => FAILURES,
    }
}

fn bit_rows(call: BitCall) -> &'static [CallRow]
    ensures { (k : Kind) → map (overload_view k) result.now ≡ on_bits call }
{
    match call {
        BitCall::Bitnot => ABS,
        BitCall::Bitshl => BITSHL,
        BitCall::Bitshr => BITSHL,
        BitCall::Bitushr => BITSHL,
        BitCall::Bitand => BITS,
        BitCall::Bitor => BITS,
        BitCall::Bitxor => BITS,
        BitCall::Bitnand => BITS,
    }
}

fn encoding_rows(call: EncodingCall) -> &'static [CallRow]
    ensures { (k : Kind) → map (overload_view k) result.now ≡ on_encodings call }
{
    match call {
        EncodingCall::FromJson => FROM_JSON,
        EncodingCall::ToJson => TO_JSON,
        EncodingCall::ToBase64 => UPPER,
        EncodingCall::FromBase64 => FROM_BASE64,
    }
}

fn time_rows(call: TimeCall) -> &'static [CallRow]
    ensures { (k : Kind) → map (overload_view k) result.now ≡ on_times call }
{
    match call {
        TimeCall::Date => TO_DATE,
        TimeCall::Duration => TO_DURATION,
        TimeCall::Now => NOW,
        TimeCall::Timezone => TO_TIMEZONE,
    }
}

/// The rows of a built-in. The first that fits says the most.
pub fn call_rows(call: ValueCall) -> &'static [CallRow]
    ensures { (k : Kind) → AreFirst (map (overload_view k) result.now) (overloads call k) }
{
    match call {
        ValueCall::Sort => SORT,
        ValueCall::Collection(call) => collection_rows(call),
        ValueCall::Text(call) => text_rows(call),
        ValueCall::Conversion(call) => conversion_rows(call),
        ValueCall::Number(call) => number_rows(call),
        ValueCall::Bit(call) => bit_rows(call),
        ValueCall::Encoding(call) => encoding_rows(call),
        ValueCall::Time(call) => time_rows(call),
    }
}
