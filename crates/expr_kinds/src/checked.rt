//! What a check tells of a tree.
ghost use Rattle.std.specs.Prelude.{◌≡◌, ◌∷◌, IfOk, map};
ghost use Rattle.std.specs.Option.{option_copied};
ghost use Rattle.expr_error.specs.ErrorKind.{OnlyMemory};
ghost use Rattle.expr_kinds.specs.Checks.{Checks, ChecksBlock, literals_view};
ghost use Rattle.expr_kinds.specs.Effects.{CoversEffect};
ghost use Rattle.expr_schema.specs.KindView.{kind_view};
ghost use Rattle.expr_schema.specs.Kinds.{any, failing};
ghost use Rattle.expr_schema.specs.SchemaView.{effect_of};
ghost use Rattle.expr_schema.specs.Scopes.{Scope};
ghost use Rattle.expr_tree.specs.Term.{Block, Term};

use expr_schema::{Effect, Kind};
use expr_value::{Items, Result, Value};
use std::alloc::Global;

/// What is known of a tree: the kind of the values that it may return, and which errors may come.
#[derive(Drop)]
pub struct Checked {
    pub kind: Kind,
    pub effect: Effect,
}

impl Checked {
    /// Nothing is known.
    pub(crate) fn unknown() -> Checked
        ensures tree { (s : Scope) (t : Term) → Checks result s t }
        ensures block { (s : Scope) (b : Block) → ChecksBlock result s b }
        ensures kind { kind_view result.kind ≡ any }
        ensures effect { effect_of result.effect ≡ failing }
    {
        Checked {
            kind: Kind::Any,
            effect: Effect::Failing,
        }
    }
}

/// What is known of the arguments of a call: their kinds, the literals among them, and which errors may come.
#[derive(Drop)]
pub struct CheckedArguments<'n> {
    pub kinds: Items<Kind>,
    pub literals: Items<Option<&'n Value>>,
    pub effect: Effect,
}

/// What is known of the arguments of a call, with an operand in front of them, which may be a literal.
pub(crate) fn with_first<'n>(
    alloc: Global,
    operand: &Checked,
    literal: Option<&'n Value>,
    rest: CheckedArguments<'n>,
) -> Result<CheckedArguments<'n>>
    ensures kinds { IfOk result
        (λ a. map kind_view a.kinds ≡ kind_view operand.now.kind ∷ map kind_view rest.entry.kinds) }
    ensures literals { IfOk result
        (λ a. literals_view a.literals ≡ option_copied literal.entry ∷ literals_view rest.entry.literals) }
    ensures operand { IfOk result (λ a. CoversEffect (effect_of a.effect) (effect_of operand.now.effect)) }
    ensures rest { IfOk result (λ a. CoversEffect (effect_of a.effect) (effect_of rest.entry.effect)) }
    ensures err { OnlyMemory result }
{
    let CheckedArguments {
        kinds,
        literals,
        effect,
    } = rest;
    let mut kinds = kinds.into_vec();
    let mut literals = literals.into_vec();
    let kind = operand.kind.copy(alloc)?;
    kinds.insert(0, kind)?;
    literals.insert(0, literal)?;
    let effect = joined_effect(operand.effect, effect);
    Ok(CheckedArguments {
        kinds: Items::from_vec(kinds),
        literals: Items::from_vec(literals),
        effect,
    })
}

/// The errors that may come of two parts together.
pub(crate) fn joined_effect(first: Effect, second: Effect) -> Effect
    ensures first { CoversEffect (effect_of result) (effect_of first) }
    ensures second { CoversEffect (effect_of result) (effect_of second) }
{
    match (first, second) {
        (Effect::Total, _) => second,
        (_, Effect::Total) => first,
        (Effect::Matching, Effect::Matching) => Effect::Matching,
        _ => Effect::Failing,
    }
}
