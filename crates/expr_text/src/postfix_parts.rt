//! The parts of the text of an operand with an operator behind it.
//!
//! A function that puts parts returns whether there is a text.
ghost use Rattle.std.specs.Prelude.{◌≡◌, ◌&&◌, ◌||◌, not, true, false, map, option_map, IfOk};
ghost use Rattle.expr_text.specs.Brackets as brackets;
ghost use Rattle.expr_text.specs.Layout as layout;
ghost use Rattle.expr_text.specs.Parts.{NodeExpands, PartIs, bound_stands, bound_text, dot_text, open_text};
ghost use Rattle.expr_text.specs.Steps.{bound_steps};
ghost use Rattle.expr_text.specs.Texts.{is_call_term};
ghost use Rattle.expr_text.specs.Trees as trees;
ghost use Rattle.expr_tokens.specs.Tokens as tokens;
ghost use Rattle.expr_tree.specs.Term.{literal, postfix, index, slice, pipe, ternary, method};
ghost use Rattle.expr_tree.specs.TermOf.{term_of, terms_of, postfix_term, bound_term};

use crate::node_parts::{infix_needs_brackets, put_infix};
use crate::part::{Ban, Part, Place, put, put_three};
use expr_tokens::is_word;
use expr_tokens::operator_sign::InfixSign;
use expr_tree::node::{Node, PostfixOperator};
use expr_value::Value;
use std::alloc::AllocError;

/// Whether an operand stands in brackets with the operator behind it.
pub(crate) fn postfix_needs_brackets(operator: &PostfixOperator, place: Place) -> bool
    ensures { result ≡ brackets.postfix_needs_brackets (postfix_term operator.now) place.left place.right }
{
    match operator {
        PostfixOperator::Default(_) => infix_needs_brackets(InfixSign::Coalesce, place),
        PostfixOperator::Pipe(_) => 2 < place.left,
        PostfixOperator::Ternary { left: _, right: _ } => 1 < place.left || 0 < place.right,
        _ => false,
    }
}

/// Puts the parts of an operand with an operator behind it, without brackets.
pub(crate) fn put_postfix<'a>(
    operator: &'a PostfixOperator,
    operand: &'a Node,
    place: Place,
    pending: &mut Vec<Part<'a>>,
) -> Result<bool, AllocError>
    requires { brackets.postfix_needs_brackets (postfix_term operator.now) place.left place.right ≡ false }
    ensures { IfOk result (λ done. NodeExpands done pending.old.items pending.new.items
        (postfix (postfix_term operator.now) (term_of operand.now)) place) }
{
    match operator {
        PostfixOperator::Index { idx, optional } => {
            put_index(operand, idx, *optional, place, pending)
        }
        PostfixOperator::Range { start, end } => put_slice(operand, start, end, place, pending),
        PostfixOperator::Default(other) => {
            put_infix(InfixSign::Coalesce, operand, other, place, pending)
        }
        PostfixOperator::Pipe(call) => put_pipe(operand, call, place, pending),
        PostfixOperator::Ternary { left, right } => {
            put_ternary(operand, left, right, place, pending)
        }
        PostfixOperator::Method { ident, args } => {
            put_method(operand, ident, args, place, pending)
        }
    }
}

fn put_index<'a>(
    operand: &'a Node,
    key: &'a Node,
    is_optional: bool,
    place: Place,
    pending: &mut Vec<Part<'a>>,
) -> Result<bool, AllocError>
    ensures { IfOk result (λ done. NodeExpands done pending.old.items pending.new.items
        (postfix (index (term_of key.now) is_optional) (term_of operand.now)) place) }
{
    match member_word(key) {
        Some(word) => put_member(operand, word, is_optional, place, pending),
        None => put_key(operand, key, is_optional, place, pending),
    }
}

// The word of a member, if the key is one.
fn member_word<'a>(key: &'a Node) -> Option<&'a str>
    ensures { option_map (λ w. w.now) result ≡ trees.member_word (term_of key.now) }
{
    match key {
        Node::Value(Value::String(text)) => {
            let word = text.as_str();
            if is_word(word) { Some(word) } else { None }
        }
        _ => None,
    }
}

// Whether a node is `#`.
fn is_item(node: &Node) -> bool
    ensures { result ≡ trees.is_item (term_of node.now) }
{
    match node {
        Node::Ident(name) => name.as_str() == "#",
        _ => false,
    }
}

// Whether a member is one of `#`, which its dot alone writes.
fn is_field(operand: &Node, is_optional: bool) -> bool
    ensures { result ≡ (trees.is_item (term_of operand.now) && not is_optional) }
{
    is_item(operand) && !is_optional
}

// A member of `#` is written by its dot alone.
fn put_field<'a>(
    operand: &'a Node,
    word: &'a str,
    is_optional: bool,
    place: Place,
    pending: &mut Vec<Part<'a>>,
) -> Result<bool, AllocError>
    requires word { tokens.is_word word.now ≡ true }
    requires field { (trees.is_item (term_of operand.now) && not is_optional) ≡ true }
    ensures { IfOk result (λ done. NodeExpands done pending.old.items pending.new.items
        (postfix (index (literal (Value.String word.now)) is_optional) (term_of operand.now)) place) }
{
    if place.is_hashless {
        return Ok(false);
    }
    put_three(Part::Text("."), Part::Text(word), Part::Text(""), pending)?;
    Ok(true)
}

fn put_member<'a>(
    operand: &'a Node,
    word: &'a str,
    is_optional: bool,
    place: Place,
    pending: &mut Vec<Part<'a>>,
) -> Result<bool, AllocError>
    requires { tokens.is_word word.now ≡ true }
    ensures { IfOk result (λ done. NodeExpands done pending.old.items pending.new.items
        (postfix (index (literal (Value.String word.now)) is_optional) (term_of operand.now)) place) }
{
    if is_field(operand, is_optional) {
        return put_field(operand, word, is_optional, place, pending);
    }
    put_three(
        Part::Node(operand, place.ahead(13)),
        Part::Text(dot(is_optional)),
        Part::Text(word),
        pending,
    )?;
    Ok(true)
}

// The symbol before a member.
fn dot(is_optional: bool) -> &'static str
    ensures { result.now ≡ dot_text is_optional }
{
    if is_optional { "?." } else { "." }
}

// The symbols before an index.
fn opening(is_optional: bool) -> &'static str
    ensures { result.now ≡ open_text is_optional }
{
    if is_optional { "?.[" } else { "[" }
}

fn put_key<'a>(
    operand: &'a Node,
    key: &'a Node,
    is_optional: bool,
    place: Place,
    pending: &mut Vec<Part<'a>>,
) -> Result<bool, AllocError>
    requires { trees.member_word (term_of key.now) ≡ None }
    ensures { IfOk result (λ done. NodeExpands done pending.old.items pending.new.items
        (postfix (index (term_of key.now) is_optional) (term_of operand.now)) place) }
{
    put_three(
        Part::Text(opening(is_optional)),
        Part::Node(key, Place::apart(place.is_hashless)),
        Part::Text("]"),
        pending,
    )?;
    put(Part::Node(operand, place.ahead(13)), pending)?;
    Ok(true)
}

fn put_slice<'a>(
    operand: &'a Node,
    start: &'a Option<Box<Node>>,
    end: &'a Option<Box<Node>>,
    place: Place,
    pending: &mut Vec<Part<'a>>,
) -> Result<bool, AllocError>
    ensures { IfOk result (λ done. NodeExpands done pending.old.items pending.new.items
        (postfix (slice (bound_term start.now) (bound_term end.now)) (term_of operand.now)) place) }
{
    put_three(
        Part::Text(colon(start, end)),
        bound_part(end, place.is_hashless),
        Part::Text("]"),
        pending,
    )?;
    put_three(
        Part::Node(operand, place.ahead(13)),
        Part::Text("["),
        bound_part(start, place.is_hashless),
        pending,
    )?;
    Ok(true)
}

fn bound_part<'a>(bound: &'a Option<Box<Node>>, is_hashless: bool) -> Part<'a>
    ensures { PartIs result (bound_text (bound_term bound.now))
        (bound_stands is_hashless (bound_term bound.now)) (bound_steps (bound_term bound.now)) }
{
    match bound {
        None => Part::Text(""),
        Some(node) => Part::Node(node, Place::apart(is_hashless)),
    }
}

// The colon of a slice, with a blank to either bound that is there, if an operator stands in one of them.
fn colon(start: &Option<Box<Node>>, end: &Option<Box<Node>>) -> &'static str
    ensures { result.now ≡ layout.colon_text (trees.bound_of (bound_term start.now))
        (trees.bound_of (bound_term end.now)) }
{
    colon_by(is_wide(start, end), is_there(start), is_there(end))
}

fn is_wide(start: &Option<Box<Node>>, end: &Option<Box<Node>>) -> bool
    ensures { result ≡ (brackets.bound_joins (bound_term start.now)
        || brackets.bound_joins (bound_term end.now)) }
{
    has_operator(start) || has_operator(end)
}

fn is_there(bound: &Option<Box<Node>>) -> bool
    ensures { result ≡ brackets.is_bound (bound_term bound.now) }
{
    match bound {
        None => false,
        Some(_) => true,
    }
}

fn colon_by(is_wide: bool, has_start: bool, has_end: bool) -> &'static str
    ensures { result.now ≡ brackets.colon_by is_wide has_start has_end }
{
    match (is_wide, has_start, has_end) {
        (true, true, true) => " : ",
        (true, true, false) => " :",
        (true, false, true) => ": ",
        _ => ":",
    }
}

fn has_operator(bound: &Option<Box<Node>>) -> bool
    ensures { result ≡ brackets.bound_joins (bound_term bound.now) }
{
    match bound {
        None => false,
        Some(node) => joins_operands(node),
    }
}

// Whether the text of a node without brackets has an operator between operands.
fn joins_operands(node: &Node) -> bool
    ensures { result ≡ brackets.term_joins (term_of node.now) }
{
    match node {
        Node::Range(_, _) => true,
        Node::Operation {
            operator: _,
            left: _,
            right: _,
            compiled_regex: _,
        } => true,
        Node::Postfix { operator, node: _ } => joins_behind(operator),
        _ => false,
    }
}

fn joins_behind(operator: &PostfixOperator) -> bool
    ensures { result ≡ brackets.joins_behind (postfix_term operator.now) }
{
    match operator {
        PostfixOperator::Default(_) => true,
        PostfixOperator::Ternary { left: _, right: _ } => true,
        PostfixOperator::Pipe(call) => is_call(call),
        _ => false,
    }
}

fn is_call(node: &Node) -> bool
    ensures { result ≡ is_call_term (term_of node.now) }
{
    match node {
        Node::Func {
            ident: _,
            args: _,
            predicate: _,
        } => true,
        _ => false,
    }
}

fn put_pipe<'a>(
    operand: &'a Node,
    call: &'a Node,
    place: Place,
    pending: &mut Vec<Part<'a>>,
) -> Result<bool, AllocError>
    requires { brackets.postfix_needs_brackets (pipe (term_of call.now)) place.left place.right ≡ false }
    ensures { IfOk result (λ done. NodeExpands done pending.old.items pending.new.items
        (postfix (pipe (term_of call.now)) (term_of operand.now)) place) }
{
    if !is_call(call) {
        return Ok(false);
    }
    put_three(
        Part::Node(operand, place.ahead(2)),
        Part::Text(" | "),
        Part::Node(call, Place::apart(place.is_hashless)),
        pending,
    )?;
    Ok(true)
}

fn put_ternary<'a>(
    condition: &'a Node,
    first: &'a Node,
    second: &'a Node,
    place: Place,
    pending: &mut Vec<Part<'a>>,
) -> Result<bool, AllocError>
    requires { brackets.postfix_needs_brackets (ternary (term_of first.now) (term_of second.now))
        place.left place.right ≡ false }
    ensures { IfOk result (λ done. NodeExpands done pending.old.items pending.new.items
        (postfix (ternary (term_of first.now) (term_of second.now)) (term_of condition.now)) place) }
{
    put_three(
        Part::Text(" : "),
        Part::Node(second, Place::apart(place.is_hashless)),
        Part::Text(""),
        pending,
    )?;
    put_three(
        Part::Node(condition, place.ahead(1)),
        Part::Text(" ? "),
        Part::Node(first, Place::apart(place.is_hashless)),
        pending,
    )?;
    Ok(true)
}

fn put_method<'a>(
    operand: &'a Node,
    name: &'a str,
    arguments: &'a [Node],
    place: Place,
    pending: &mut Vec<Part<'a>>,
) -> Result<bool, AllocError>
    ensures { IfOk result (λ done. NodeExpands done pending.old.items pending.new.items
        (postfix (method name.now (terms_of (map term_of arguments.now))) (term_of operand.now)) place) }
{
    if !is_word(name) {
        return Ok(false);
    }
    put_three(
        Part::Text("("),
        Part::Items(arguments, Ban::of_all(place.is_hashless), true),
        Part::Text(")"),
        pending,
    )?;
    put_three(
        Part::Node(operand, place.ahead(13)),
        Part::Text("."),
        Part::Text(name),
        pending,
    )?;
    Ok(true)
}
