//! The parts of a node's text.
//!
//! A function that puts parts returns whether there is a text.
ghost use Rattle.std.specs.Prelude.{◌≡◌, ◌+◌, ◌*◌, false, map, is_none, IfOk};
ghost use Rattle.std.specs.List.{list_any};
ghost use Rattle.expr_parts.specs.Maps as maps;
ghost use Rattle.expr_text.specs.Brackets as brackets;
ghost use Rattle.expr_text.specs.Parts.{Expands, NodeExpands, both_stand, brace_text, infix_at_text, stands};
ghost use Rattle.expr_text.specs.Steps.{term_steps};
ghost use Rattle.expr_tree.specs.Term as term;
ghost use Rattle.expr_tree.specs.Term.{list, mapping, call, unary, choice, no_predicate, predicate, term_pairs};
ghost use Rattle.expr_tree.specs.TermOf.{term_of, terms_of, line_term, program_term};

use crate::part::{Ban, Part, Place, put, put_three};
use crate::postfix_parts::{postfix_needs_brackets, put_postfix};
use crate::sign::{infix_catch, infix_of, infix_text, prefix_catch, prefix_of, prefix_text};
use crate::word::{is_free_word, is_hash_name};
use expr_functions::operator::UnaryOperator;
use expr_tokens::operator_sign::InfixSign;
use expr_tree::node::{Node, Program};
use std::alloc::AllocError;

/// Puts the parts of a node at a place.
pub(crate) fn put_node<'a>(
    node: &'a Node,
    place: Place,
    pending: &mut Vec<Part<'a>>,
) -> Result<bool, AllocError>
    ensures { IfOk result (λ done. NodeExpands done pending.old.items pending.new.items
        (term_of node.now) place) }
{
    if needs_brackets(node, place) {
        let inside = Place::apart(place.is_hashless);
        put_three(
            Part::Text("("),
            Part::Node(node, inside),
            Part::Text(")"),
            pending,
        )?;
        return Ok(true);
    }
    put_bare(node, place, pending)
}

// Whether a node stands in brackets.
fn needs_brackets(node: &Node, place: Place) -> bool
    ensures { result ≡ brackets.needs_brackets (term_of node.now) place.left place.right }
{
    match node {
        Node::Range(_, _) => infix_needs_brackets(InfixSign::Range, place),
        Node::Operation {
            operator,
            left: _,
            right: _,
            compiled_regex: _,
        } => infix_needs_brackets(infix_of(*operator), place),
        Node::Unary { operator, node: _ } => prefix_catch(prefix_of(*operator)) < place.right,
        Node::Postfix { operator, node: _ } => postfix_needs_brackets(operator, place),
        _ => false,
    }
}

/// Whether two operands stand in brackets with the operator between.
pub(crate) fn infix_needs_brackets(sign: InfixSign, place: Place) -> bool
    ensures { result ≡ brackets.infix_needs_brackets sign place.left place.right }
{
    sign.level() < place.left || infix_catch(sign) < place.right
}

// Puts the parts of a node that stands in no brackets.
fn put_bare<'a>(
    node: &'a Node,
    place: Place,
    pending: &mut Vec<Part<'a>>,
) -> Result<bool, AllocError>
    requires { brackets.needs_brackets (term_of node.now) place.left place.right ≡ false }
    ensures { IfOk result (λ done. NodeExpands done pending.old.items pending.new.items
        (term_of node.now) place) }
{
    match node {
        Node::Ident(name) => put_name(name, place, pending),
        Node::Array(items) => put_array(items, place, pending),
        Node::Map(pairs) => put_map(pairs, place, pending),
        Node::Range(first, last) => put_infix(InfixSign::Range, first, last, place, pending),
        Node::Value(value) => {
            put(Part::Literal(value), pending)?;
            Ok(true)
        }
        Node::Func {
            ident,
            args,
            predicate,
        } => match predicate {
            None => put_call(ident, args, place, pending),
            Some(program) => put_predicate_call(ident, args, program, place, pending),
        },
        Node::Unary { operator, node } => put_prefix(*operator, node, place, pending),
        Node::Operation {
            operator,
            left,
            right,
            compiled_regex: _,
        } => put_infix(infix_of(*operator), left, right, place, pending),
        Node::Postfix { operator, node } => put_postfix(operator, node, place, pending),
        Node::Conditional {
            condition,
            consequent,
            alternative,
        } => put_choice(condition, consequent, alternative, place, pending),
    }
}

fn put_name<'a>(
    name: &'a str,
    place: Place,
    pending: &mut Vec<Part<'a>>,
) -> Result<bool, AllocError>
    ensures { IfOk result (λ done. NodeExpands done pending.old.items pending.new.items
        (term.name name.now) place) }
{
    if !stands_as_name(name, place.is_hashless) {
        return Ok(false);
    }
    put(Part::Text(name), pending)?;
    Ok(true)
}

// Whether a name has a text: a word that isn't reserved, or a name with `#` where one may be.
fn stands_as_name(name: &str, is_hashless: bool) -> bool
    ensures { result ≡ stands is_hashless (term.name name.now) }
{
    if is_hash_name(name) {
        !is_hashless
    } else {
        is_free_word(name)
    }
}

fn put_array<'a>(
    items: &'a [Node],
    place: Place,
    pending: &mut Vec<Part<'a>>,
) -> Result<bool, AllocError>
    ensures { IfOk result (λ done. NodeExpands done pending.old.items pending.new.items
        (list (terms_of (map term_of items.now))) place) }
{
    put_three(
        Part::Text("["),
        Part::Items(items, Ban::of_all(place.is_hashless), true),
        Part::Text("]"),
        pending,
    )?;
    Ok(true)
}

// A map of literals alone is a literal, and no map node.
fn put_map<'a>(
    pairs: &'a [(String, Node)],
    place: Place,
    pending: &mut Vec<Part<'a>>,
) -> Result<bool, AllocError>
    ensures { IfOk result (λ done. NodeExpands done pending.old.items pending.new.items
        (mapping (term_pairs (map line_term pairs.now))) place) }
{
    if !has_expression(pairs) {
        return Ok(false);
    }
    put_three(
        Part::Text("{"),
        Part::Pairs(pairs, place.is_hashless, true),
        Part::Text("}"),
        pending,
    )?;
    Ok(true)
}

// Whether some value isn't a literal.
fn has_expression(pairs: &[(String, Node)]) -> bool
    ensures { result ≡ list_any (λ p. is_none (maps.value_of (term_of p.1))) pairs.now }
{
    pairs.iter().any(|pair| is_expression(&pair.1))
}

fn is_expression(node: &Node) -> bool
    ensures { result ≡ is_none (maps.value_of (term_of node.now)) }
{
    match node {
        Node::Value(_) => false,
        _ => true,
    }
}

/// Puts operands with an operator between, without brackets.
pub(crate) fn put_infix<'a>(
    sign: InfixSign,
    left: &'a Node,
    right: &'a Node,
    place: Place,
    pending: &mut Vec<Part<'a>>,
) -> Result<bool, AllocError>
    requires { brackets.infix_needs_brackets sign place.left place.right ≡ false }
    ensures { IfOk result (λ done. Expands done pending.old.items pending.new.items
        (infix_at_text sign (term_of left.now) (term_of right.now) place.left place.right)
        (both_stand place.is_hashless (term_of left.now) (term_of right.now))
        (200 + (term_steps (term_of left.now) + term_steps (term_of right.now))
        + 3 * (place.left + place.right))) }
{
    put_three(
        Part::Node(left, place.ahead(sign.level())),
        Part::Text(infix_text(sign)),
        Part::Node(right, place.behind(infix_catch(sign) + 1)),
        pending,
    )?;
    Ok(true)
}

fn put_prefix<'a>(
    operator: UnaryOperator,
    node: &'a Node,
    place: Place,
    pending: &mut Vec<Part<'a>>,
) -> Result<bool, AllocError>
    requires { brackets.needs_brackets (unary operator (term_of node.now)) place.left place.right ≡ false }
    ensures { IfOk result (λ done. NodeExpands done pending.old.items pending.new.items
        (unary operator (term_of node.now)) place) }
{
    let sign = prefix_of(operator);
    put_three(
        Part::Text(prefix_text(sign)),
        Part::Node(node, place.behind(sign.level())),
        Part::Text(""),
        pending,
    )?;
    Ok(true)
}

fn put_call<'a>(
    name: &'a str,
    arguments: &'a [Node],
    place: Place,
    pending: &mut Vec<Part<'a>>,
) -> Result<bool, AllocError>
    ensures { IfOk result (λ done. NodeExpands done pending.old.items pending.new.items
        (call name.now (terms_of (map term_of arguments.now)) no_predicate) place) }
{
    if !is_free_word(name) {
        return Ok(false);
    }
    put_three(
        Part::Text("("),
        Part::Items(arguments, Ban::of_call(name, place.is_hashless), true),
        Part::Text(")"),
        pending,
    )?;
    put(Part::Text(name), pending)?;
    Ok(true)
}

// A predicate stands last, in braces. So no argument is promoted.
fn put_predicate_call<'a>(
    name: &'a str,
    arguments: &'a [Node],
    program: &'a Program,
    place: Place,
    pending: &mut Vec<Part<'a>>,
) -> Result<bool, AllocError>
    ensures { IfOk result (λ done. NodeExpands done pending.old.items pending.new.items
        (call name.now (terms_of (map term_of arguments.now)) (predicate (program_term program.now))) place) }
{
    if !is_free_word(name) {
        return Ok(false);
    }
    put_three(
        Part::Text(brace_after(arguments)),
        Part::Program(program, false),
        Part::Text("})"),
        pending,
    )?;
    put_three(
        Part::Text(name),
        Part::Text("("),
        Part::Items(arguments, Ban::of_all(place.is_hashless), true),
        pending,
    )?;
    Ok(true)
}

// What opens a predicate: a comma is before it if there are arguments.
fn brace_after(arguments: &[Node]) -> &'static str
    ensures { result.now ≡ brace_text (terms_of (map term_of arguments.now)) }
{
    if arguments.is_empty() { "{" } else { ", {" }
}

fn put_choice<'a>(
    condition: &'a Node,
    consequent: &'a Program,
    alternative: &'a Program,
    place: Place,
    pending: &mut Vec<Part<'a>>,
) -> Result<bool, AllocError>
    ensures { IfOk result (λ done. NodeExpands done pending.old.items pending.new.items
        (choice (term_of condition.now) (program_term consequent.now) (program_term alternative.now))
        place) }
{
    put_three(
        Part::Program(consequent, place.is_hashless),
        Part::Text(" } else "),
        Part::Else(alternative, place.is_hashless),
        pending,
    )?;
    put_three(
        Part::Text("if "),
        Part::Node(condition, Place::apart(place.is_hashless)),
        Part::Text(" { "),
        pending,
    )?;
    Ok(true)
}
