//! The places of a program's nodes in the order in which a walk meets them.

ghost use Rattle.std.specs.Prelude.{◌≡◌, ◌++◌, ◌∷◌, [], ◌<◌, ◌≤◌, IsTrue, IfOk, IfSome, OnOk, length, map};
ghost use Rattle.std.specs.Option.{option_map};
ghost use Rattle.std.specs.Str.{IsCharBoundary};
ghost use Rattle.expr_syntax.specs.Places.{ArePlacesOf, IsInside, IsPlaceOf, IsSpelledAt, parts_in};
ghost use Rattle.expr_syntax.specs.Places as places;
ghost use Rattle.expr_syntax.specs.Waits.{waits};
ghost use Rattle.expr_tree.specs.Children.{children, bound_children, postfix_children};
ghost use Rattle.expr_tree.specs.LentChildren.{program_children};
ghost use Rattle.expr_tree.specs.TermOf.{bound_term, postfix_term, program_term, term_of};
ghost use Rattle.expr_tree.specs.Weight.{block_weight};

use crate::places::Place;
use crate::places::marks::Marks;
use expr_functions::HigherOrderCall;
use expr_tree::node::{Node, PostfixOperator, Program};
use std::alloc::{AllocError, Global};

/// A node that the walk is still to meet, its mark, and the place that it stands in.
#[derive(Drop)]
pub(crate) struct Waiting<'a> {
    node: &'a Node,
    mark: usize,
    within: Option<Place>,
}

/// The places of a program's nodes. The lists are empty. (They are parameters because the borrow checker accepts a list
/// of references behind `&mut` only if its lifetime is a parameter's.)
pub(crate) fn in_order<'a>(
    text: &str,
    program: &'a Program,
    marks: &Marks,
    mut places: Vec<Place>,
    mut waiting: Vec<Waiting<'a>>,
) -> Result<Vec<Place>, AllocError>
    requires none_met { places.items ≡ [] }
    requires none_waits { waiting.items ≡ [] }
    ensures places { IfOk result (λ ps. ArePlacesOf text.now (program_term program.now) ps.items) }
    ensures count { IfOk result (λ ps. length ps.items ≡ block_weight (program_term program.now)) }
{
    let mut roots = marks.parts(0, marks.len())?;
    wait_for_program(program, None, &mut roots, &mut waiting)?;
    while let Some(next) = waiting.pop() {
        let Some(place) = place_of(text, marks, next.mark, next.within, next.node) else {
            return Err(AllocError);
        };
        places.push(place)?;
        let mut roots = roots_in(marks, next.mark, next.node)?;
        wait_for_children(next.node, Some(place), &mut roots, &mut waiting)?;
    }
    places.reverse();
    Ok(places)
}

/// The place that a mark gives to a node, if the node may stand there.
fn place_of(
    text: &str,
    marks: &Marks,
    mark: usize,
    within: Option<Place>,
    node: &Node,
) -> Option<Place>
    ensures { IfSome result (IsPlaceOf text.now (within, term_of node.now)) }
{
    let place = marks.get(mark)?.place;
    if !is_place(text, place) {
        return None;
    }
    if is_inside(place, within) && is_spelled(text, place, node) {
        return Some(place);
    }
    None
}

fn is_place(text: &str, place: Place) -> bool
    ensures { IsTrue result → (place.start < place.end) × IsCharBoundary text.now place.start
        × IsCharBoundary text.now place.end × (place.end ≤ length text.now) }
{
    place.start < place.end
        && place.end <= text.len()
        && text.is_char_boundary(place.start)
        && text.is_char_boundary(place.end)
}

fn is_inside(place: Place, within: Option<Place>) -> bool
    ensures { IsTrue result → IsInside place within }
{
    match within {
        None => true,
        Some(outer) => {
            if place.start < outer.start || outer.end < place.end {
                return false;
            }
            outer.start < place.start || place.end < outer.end
        }
    }
}

/// Whether a name stands at the place, or the dot of a field, if the node is a name.
fn is_spelled(text: &str, place: Place, node: &Node) -> bool
    requires { (place.start < place.end) × (place.end ≤ length text.now) }
    ensures { IsTrue result → IsSpelledAt text.now (term_of node.now) place }
{
    match ident_of(node) {
        None => true,
        Some(name) => {
            let piece = &text.as_bytes()[place.start..place.end];
            piece == name.as_bytes() || piece == b".".as_slice()
        }
    }
}

/// The name that a node is, if it is one.
fn ident_of(node: &Node) -> Option<&str>
    ensures { option_map (λ t. t.now) result ≡ places.ident_of (term_of node.now) }
{
    match node {
        Node::Ident(name) => Some(name.as_str()),
        _ => None,
    }
}

/// The marks of a node's children, from the last to the first.
fn roots_in(marks: &Marks, mark: usize, node: &Node) -> Result<Vec<usize>, AllocError> {
    match node {
        Node::Func {
            ident,
            args: _,
            predicate: Some(_),
        } => marks.parts_of_call(mark, HigherOrderCall::from_name(ident.as_str())),
        _ => marks.parts(marks.first_inside(mark), mark),
    }
}

fn wait_for_children<'a>(
    node: &'a Node,
    place: Option<Place>,
    roots: &mut Vec<usize>,
    waiting: &mut Vec<Waiting<'a>>,
) -> Result<(), AllocError>
    ensures { OnOk result (waits waiting.new.items ≡ waits waiting.old.items
        ++ parts_in place (children (term_of node.now))) }
{
    match node {
        Node::Ident(_) | Node::Value(_) => Ok(()),
        Node::Array(items) => wait_for_all(items, place, roots, waiting),
        Node::Map(pairs) => wait_for_values(pairs, place, roots, waiting),
        Node::Range(first, last) => wait_for_two(first, last, place, roots, waiting),
        Node::Func {
            ident: _,
            args,
            predicate,
        } => {
            wait_for_all(args, place, roots, waiting)?;
            match predicate {
                None => Ok(()),
                Some(program) => wait_for_program(program, place, roots, waiting),
            }
        }
        Node::Unary { operator: _, node } => wait_for(node, place, roots, waiting),
        Node::Operation {
            operator: _,
            left,
            right,
            compiled_regex: _,
        } => wait_for_two(left, right, place, roots, waiting),
        Node::Postfix { operator, node } => {
            wait_for(node, place, roots, waiting)?;
            wait_for_postfix(operator, place, roots, waiting)
        }
        Node::Conditional {
            condition,
            consequent,
            alternative,
        } => {
            wait_for(condition, place, roots, waiting)?;
            wait_for_program(consequent, place, roots, waiting)?;
            wait_for_program(alternative, place, roots, waiting)
        }
    }
}

fn wait_for_postfix<'a>(
    operator: &'a PostfixOperator,
    place: Option<Place>,
    roots: &mut Vec<usize>,
    waiting: &mut Vec<Waiting<'a>>,
) -> Result<(), AllocError>
    ensures { OnOk result (waits waiting.new.items ≡ waits waiting.old.items
        ++ parts_in place (postfix_children (postfix_term operator.now))) }
{
    match operator {
        PostfixOperator::Index { idx, optional: _ } => wait_for(idx, place, roots, waiting),
        PostfixOperator::Range { start, end } => {
            wait_for_bound(start, place, roots, waiting)?;
            wait_for_bound(end, place, roots, waiting)
        }
        PostfixOperator::Default(node) => wait_for(node, place, roots, waiting),
        PostfixOperator::Pipe(node) => wait_for(node, place, roots, waiting),
        PostfixOperator::Ternary { left, right } => {
            wait_for_two(left, right, place, roots, waiting)
        }
        PostfixOperator::Method { ident: _, args } => wait_for_all(args, place, roots, waiting),
    }
}

fn wait_for_bound<'a>(
    bound: &'a Option<Box<Node>>,
    place: Option<Place>,
    roots: &mut Vec<usize>,
    waiting: &mut Vec<Waiting<'a>>,
) -> Result<(), AllocError>
    ensures { OnOk result (waits waiting.new.items ≡ waits waiting.old.items
        ++ parts_in place (bound_children (bound_term bound.now))) }
{
    match bound {
        None => Ok(()),
        Some(node) => wait_for(node, place, roots, waiting),
    }
}

fn wait_for_two<'a>(
    first: &'a Node,
    second: &'a Node,
    place: Option<Place>,
    roots: &mut Vec<usize>,
    waiting: &mut Vec<Waiting<'a>>,
) -> Result<(), AllocError>
    ensures { OnOk result (waits waiting.new.items ≡ waits waiting.old.items
        ++ parts_in place (term_of first.now ∷ term_of second.now ∷ [])) }
{
    wait_for(first, place, roots, waiting)?;
    wait_for(second, place, roots, waiting)
}

fn wait_for<'a>(
    node: &'a Node,
    place: Option<Place>,
    roots: &mut Vec<usize>,
    waiting: &mut Vec<Waiting<'a>>,
) -> Result<(), AllocError>
    ensures { OnOk result (waits waiting.new.items ≡ waits waiting.old.items
        ++ parts_in place (term_of node.now ∷ [])) }
{
    let mark = roots.pop().unwrap_or(0);
    waiting.push(Waiting {
        node,
        mark,
        within: place,
    })?;
    Ok(())
}

fn wait_for_all<'a>(
    nodes: &'a [Node],
    place: Option<Place>,
    roots: &mut Vec<usize>,
    waiting: &mut Vec<Waiting<'a>>,
) -> Result<(), AllocError>
    ensures { OnOk result (waits waiting.new.items ≡ waits waiting.old.items
        ++ parts_in place (map term_of nodes.now)) }
{
    for node in nodes {
        wait_for(node, place, roots, waiting)?;
    }
    Ok(())
}

fn wait_for_values<'a>(
    named: &'a [(String, Node)],
    place: Option<Place>,
    roots: &mut Vec<usize>,
    waiting: &mut Vec<Waiting<'a>>,
) -> Result<(), AllocError>
    ensures { OnOk result (waits waiting.new.items ≡ waits waiting.old.items
        ++ parts_in place (map (λ l. term_of l.1) named.now)) }
{
    for (_name, value) in named {
        wait_for(value, place, roots, waiting)?;
    }
    Ok(())
}

fn wait_for_program<'a>(
    program: &'a Program,
    place: Option<Place>,
    roots: &mut Vec<usize>,
    waiting: &mut Vec<Waiting<'a>>,
) -> Result<(), AllocError>
    ensures { OnOk result (waits waiting.new.items ≡ waits waiting.old.items
        ++ parts_in place (program_children program.now)) }
{
    wait_for_values(&program.lines, place, roots, waiting)?;
    wait_for(&program.expr, place, roots, waiting)
}
