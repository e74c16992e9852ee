//! The number of nodes of a tree.
ghost use Rattle.std.specs.Prelude.{◌≡◌, ◌+◌, IfOk, map};
ghost use Rattle.expr_error.specs.ErrorKind.{OnlyMemory};
ghost use Rattle.expr_tree.specs.TermOf.{bound_term, line_term, postfix_term, predicate_term, program_term, term_of, terms_of};
ghost use Rattle.expr_tree.specs.Weight.{block_weight, bound_weight, lines_weight, postfix_weight, predicate_weight, terms_weight, weight};

use expr_tree::node::{Node, PostfixOperator, Program};
use expr_value::{Error, Result};

/// A number with one added.
pub(crate) fn one_more(count: usize) -> Result<usize>
    ensures ok { IfOk result (λ n. n ≡ count + 1) }
    ensures err { OnlyMemory result }
{
    match count.checked_add(1) {
        Some(next) => Ok(next),
        None => Err(Error::MemoryError),
    }
}

/// The number of nodes of a tree, added to `before`.
#[cycle(count)]
pub fn count_nodes(node: &Node, before: usize) -> Result<usize>
    ensures ok { IfOk result (λ n. n ≡ before + weight (term_of node.now)) }
    ensures err { OnlyMemory result }
{
    one_more(count_inside(node, before)?)
}

/// The number of nodes inside of a tree, added to `before`.
#[cycle(count)]
pub(crate) fn count_inside(node: &Node, before: usize) -> Result<usize>
    ensures ok { IfOk result (λ n. n + 1 ≡ before + weight (term_of node.now)) }
    ensures err { OnlyMemory result }
{
    match node {
        Node::Ident(_) | Node::Value(_) => Ok(before),
        Node::Array(nodes) => count_all(nodes, before),
        Node::Map(pairs) => count_named(pairs, before),
        Node::Range(first, last) => count_nodes(last, count_nodes(first, before)?),
        Node::Func {
            ident: _,
            args,
            predicate,
        } => count_predicate(predicate, count_all(args, before)?),
        Node::Unary { operator: _, node } => count_nodes(node, before),
        Node::Operation {
            operator: _,
            left,
            right,
            compiled_regex: _,
        } => count_nodes(right, count_nodes(left, before)?),
        Node::Postfix { operator, node } => count_behind(operator, count_nodes(node, before)?),
        Node::Conditional {
            condition,
            consequent,
            alternative,
        } => {
            let condition = count_nodes(condition, before)?;
            let consequent = count_program_nodes(consequent, condition)?;
            count_program_nodes(alternative, consequent)
        }
    }
}

/// The number of nodes of a postfix operator, added to `before`.
#[cycle(count)]
fn count_behind(operator: &PostfixOperator, before: usize) -> Result<usize>
    ensures ok { IfOk result (λ n. n ≡ before + postfix_weight (postfix_term operator.now)) }
    ensures err { OnlyMemory result }
{
    match operator {
        PostfixOperator::Index { idx, optional: _ } => count_nodes(idx, before),
        PostfixOperator::Range { start, end } => count_bound(end, count_bound(start, before)?),
        PostfixOperator::Default(node) => count_nodes(node, before),
        PostfixOperator::Pipe(node) => count_nodes(node, before),
        PostfixOperator::Ternary { left, right } => count_nodes(right, count_nodes(left, before)?),
        PostfixOperator::Method { ident: _, args } => count_all(args, before),
    }
}

/// The number of nodes of a bound, added to `before`.
#[cycle(count)]
fn count_bound(bound: &Option<Box<Node>>, before: usize) -> Result<usize>
    ensures ok { IfOk result (λ n. n ≡ before + bound_weight (bound_term bound.now)) }
    ensures err { OnlyMemory result }
{
    match bound {
        None => Ok(before),
        Some(node) => count_nodes(node, before),
    }
}

/// The number of nodes of the predicate of a call, added to `before`.
#[cycle(count)]
fn count_predicate(predicate: &Option<Box<Program>>, before: usize) -> Result<usize>
    ensures ok { IfOk result (λ n. n ≡ before + predicate_weight (predicate_term predicate.now)) }
    ensures err { OnlyMemory result }
{
    match predicate {
        None => Ok(before),
        Some(program) => count_program_nodes(program, before),
    }
}

/// The number of nodes of these trees, added to `before`.
#[cycle(count)]
fn count_all(nodes: &[Node], before: usize) -> Result<usize>
    ensures ok { IfOk result (λ n. n ≡ before + terms_weight (terms_of (map term_of nodes.now))) }
    ensures err { OnlyMemory result }
{
    let mut count = before;
    for node in nodes {
        count = count_nodes(node, count)?;
    }
    Ok(count)
}

/// The number of nodes of these trees, added to `before`.
#[cycle(count)]
fn count_named(named: &[(String, Node)], before: usize) -> Result<usize>
    ensures ok { IfOk result (λ n. n ≡ before + lines_weight (map line_term named.now)) }
    ensures err { OnlyMemory result }
{
    let mut count = before;
    for (_name, node) in named {
        count = count_nodes(node, count)?;
    }
    Ok(count)
}

/// The number of nodes of a program, added to `before`.
#[cycle(count)]
pub fn count_program_nodes(program: &Program, before: usize) -> Result<usize>
    ensures ok { IfOk result (λ n. n ≡ before + block_weight (program_term program.now)) }
    ensures err { OnlyMemory result }
{
    count_nodes(&program.expr, count_named(&program.lines, before)?)
}
