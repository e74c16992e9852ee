//! The kinds of work that calls do.
ghost use Rattle.std.specs.Prelude.{◌≡◌};
ghost use Rattle.expr_costs.specs.Calls.{cost_kind_named, kind_of_higher_order, kind_on_collections, kind_on_numbers, kind_on_texts, kind_on_values};

use expr_functions::{
    Builtin, CollectionCall, ConversionCall, EncodingCall, HigherOrderCall, NumberCall, TextCall,
    ValueCall,
};

/// The kind of work that a call does, besides finding its name.
#[derive(Clone, Copy, Debug, Drop)]
pub enum CostKind {
    /// Nothing that counts.
    Finds,
    /// Reads strings.
    Reads,
    /// Reads or makes a time.
    Times,
    /// Removes characters from the ends of a string.
    Trims,
    /// Changes the case of a string.
    Cases,
    /// Splits a string.
    Splits,
    /// Replaces one string by another.
    Replaces,
    /// Repeats a string.
    Repeats,
    /// Joins strings.
    Joins,
    /// Copies items or entries.
    Copies,
    /// Looks a key up.
    Seeks,
    /// Puts pairs into a map.
    Pairs,
    /// Compares each item with the others.
    Compares,
    /// Sorts items.
    Sorts,
    /// Puts items under keys.
    Groups,
    /// Looks at each item.
    Walks,
    /// Looks at everything in its arguments.
    Weighs,
    /// Prints a value.
    Prints,
    /// Writes JSON.
    Writes,
    /// Reads JSON.
    Parses,
    /// Reads or writes Base64.
    Recodes,
}

impl CostKind {
    /// The kind of a call, by its name.
    pub fn from_name(name: &str) -> CostKind
        ensures { result ≡ cost_kind_named name.now }
    {
        match Builtin::from_name(name) {
            Some(Builtin::HigherOrder(call)) => of_higher_order(call),
            Some(Builtin::OnValues(call)) => on_values(call),
            None => CostKind::Finds,
        }
    }
}

/// The kind of a built-in with a predicate, without the work of the predicate.
fn of_higher_order(call: HigherOrderCall) -> CostKind
    ensures { result ≡ kind_of_higher_order call }
{
    match call {
        HigherOrderCall::Count | HigherOrderCall::Sum => CostKind::Walks,
        HigherOrderCall::GroupBy => CostKind::Groups,
        HigherOrderCall::SortBy => CostKind::Sorts,
        _ => CostKind::Finds,
    }
}

/// The kind of a built-in on values.
fn on_values(call: ValueCall) -> CostKind
    ensures { result ≡ kind_on_values call }
{
    match call {
        ValueCall::Sort => CostKind::Sorts,
        ValueCall::Collection(call) => on_collections(call),
        ValueCall::Text(call) => on_texts(call),
        ValueCall::Conversion(ConversionCall::Int) => CostKind::Reads,
        ValueCall::Conversion(ConversionCall::Type) => CostKind::Finds,
        ValueCall::Conversion(_) => CostKind::Prints,
        ValueCall::Number(call) => on_numbers(call),
        ValueCall::Bit(_) => CostKind::Finds,
        ValueCall::Encoding(EncodingCall::FromJson) => CostKind::Parses,
        ValueCall::Encoding(EncodingCall::ToJson) => CostKind::Writes,
        ValueCall::Encoding(_) => CostKind::Recodes,
        ValueCall::Time(_) => CostKind::Times,
    }
}

/// The kind of a call on arrays and maps. It copies them, unless this table says something else.
fn on_collections(call: CollectionCall) -> CostKind
    ensures { result ≡ kind_on_collections call }
{
    match call {
        CollectionCall::First
        | CollectionCall::Last
        | CollectionCall::Take
        | CollectionCall::Reverse
        | CollectionCall::Keys
        | CollectionCall::Values => CostKind::Finds,
        CollectionCall::Len => CostKind::Reads,
        CollectionCall::Uniq => CostKind::Compares,
        CollectionCall::Get => CostKind::Seeks,
        CollectionCall::Join => CostKind::Joins,
        CollectionCall::FromPairs => CostKind::Pairs,
        _ => CostKind::Copies,
    }
}

/// The kind of a call on strings. It reads them, unless this table says something else.
fn on_texts(call: TextCall) -> CostKind
    ensures { result ≡ kind_on_texts call }
{
    match call {
        TextCall::Trim => CostKind::Trims,
        TextCall::Upper | TextCall::Lower => CostKind::Cases,
        TextCall::Split | TextCall::SplitAfter => CostKind::Splits,
        TextCall::Replace => CostKind::Replaces,
        TextCall::Repeat => CostKind::Repeats,
        _ => CostKind::Reads,
    }
}

/// The kind of a call on numbers. It looks at everything in its arguments, unless this table says something
/// else.
fn on_numbers(call: NumberCall) -> CostKind
    ensures { result ≡ kind_on_numbers call }
{
    match call {
        NumberCall::Abs
        | NumberCall::Float
        | NumberCall::Mean
        | NumberCall::Median
        | NumberCall::Ceil
        | NumberCall::Floor
        | NumberCall::Round => CostKind::Finds,
        _ => CostKind::Weighs,
    }
}
