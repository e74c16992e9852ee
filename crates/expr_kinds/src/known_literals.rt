//! Literals among operands and arguments, and the errors that they exclude.
ghost use Rattle.std.specs.Prelude.{◌≡◌, option_and_then, slice_get};
ghost use Rattle.std.specs.Option.{option_copied};
ghost use Rattle.expr_kinds.specs.Causes.{effect_under, is_direction, is_excluded, is_not_negative, is_other_than_zero};
ghost use Rattle.expr_kinds.specs.Checks.{cause_view, literals_view};
ghost use Rattle.expr_kinds.specs.Typed.{literal_of};
ghost use Rattle.expr_schema.specs.SchemaView.{effect_of};
ghost use Rattle.expr_tree.specs.TermOf.{term_of};

use crate::tables::Cause;
use expr_pairs::item_at;
use expr_schema::Effect;
use expr_tree::node::Node;
use expr_value::Value;

/// The value of a node, if it is a literal.
pub(crate) fn literal_value(node: &Node) -> Option<&Value>
    ensures { option_copied result ≡ literal_of (term_of node.now) }
{
    match node {
        Node::Value(value) => Some(value),
        Node::Ident(_) => None,
        Node::Array(_) => None,
        Node::Map(_) => None,
        Node::Range(_, _) => None,
        Node::Func { .. } => None,
        Node::Unary { .. } => None,
        Node::Operation { .. } => None,
        Node::Postfix { .. } => None,
        Node::Conditional { .. } => None,
    }
}

/// The errors that may come of a cause, where these operands or arguments are literals.
pub(crate) fn cause_effect(cause: Cause, literals: &[Option<&Value>]) -> Effect
    ensures { effect_of result ≡ effect_under (cause_view cause) (literals_view literals.now) }
{
    if excludes(cause, literals) {
        return Effect::Total;
    }
    Effect::Failing
}

/// Whether literals exclude a cause.
fn excludes(cause: Cause, literals: &[Option<&Value>]) -> bool
    ensures { result ≡ is_excluded (cause_view cause) (literals_view literals.now) }
{
    match cause {
        Cause::Nothing => true,
        Cause::Content => false,
        Cause::ZeroAt(place) => match literal_at(literals, place) {
            Some(value) => is_other_number(value),
            None => false,
        },
        Cause::NegativeAt(place) => match literal_at(literals, place) {
            Some(value) => is_count(value),
            None => false,
        },
        Cause::DirectionAt(place) => match literal_at(literals, place) {
            Some(value) => is_order(value),
            None => false,
        },
    }
}

/// The literal at a place, if there is one.
fn literal_at<'v>(literals: &[Option<&'v Value>], place: usize) -> Option<&'v Value>
    ensures { option_copied result ≡ option_and_then (λ o. o) (slice_get (literals_view literals.now) place) }
{
    match item_at(literals, place) {
        Some(literal) => *literal,
        None => None,
    }
}

/// Whether a value is an integer other than 0.
fn is_other_number(value: &Value) -> bool
    ensures { result ≡ is_other_than_zero value.now }
{
    match value.as_integer() {
        Some(number) => number != 0,
        None => false,
    }
}

/// Whether a value is an integer of 0 or more.
fn is_count(value: &Value) -> bool
    ensures { result ≡ is_not_negative value.now }
{
    match value.as_integer() {
        Some(number) => number >= 0,
        None => false,
    }
}

/// Whether a value is the name of an order.
fn is_order(value: &Value) -> bool
    ensures { result ≡ is_direction value.now }
{
    match value.as_string() {
        Some(text) => text == "desc" || text == "asc",
        None => false,
    }
}
