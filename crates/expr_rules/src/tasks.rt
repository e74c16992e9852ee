//! The parts of a program that are still to be looked at.
ghost use Rattle.std.specs.Prelude.{◌+◌, ◌++◌, map, OnOk};
ghost use Rattle.expr_rules.specs.Needs.{asked_by, asked_by_all, asked_by_block, asked_by_bound, asked_by_pairs, asked_by_postfix, asked_by_predicate};
ghost use Rattle.expr_rules.specs.Tasks.{PutsFewer, PutsTasks, parts_asked};
ghost use Rattle.expr_text.specs.Steps.{block_steps, bound_steps, items_steps, pairs_steps, postfix_steps, predicate_steps, term_steps};
ghost use Rattle.expr_tree.specs.Term.{block_with, term_pairs};
ghost use Rattle.expr_tree.specs.TermOf.{bound_term, line_term, postfix_term, predicate_term, program_term, term_of, terms_of};

use expr_tree::node::{Node, PostfixOperator, Program};
use std::alloc::AllocError;

/// What is still to be looked at.
#[derive(Drop)]
pub(crate) enum Task<'a> {
    Node(&'a Node),
    /// Nodes of a list.
    Items(&'a [Node]),
    /// The values of a map literal, each with its key.
    Pairs(&'a [(String, Node)]),
    /// Lines, each with its name, and the expression behind them.
    Lines(&'a [(String, Node)], &'a Node),
    /// From here on, a line has this name.
    Bind(&'a str),
    /// The last line is left.
    Unbind,
}

/// Puts the parts of a node.
pub(crate) fn put_parts<'a>(node: &'a Node, pending: &mut Vec<Task<'a>>) -> Result<(), AllocError>
    ensures { OnOk result (PutsFewer pending.old.items pending.new.items
        (λ a. parts_asked a (term_of node.now)) (term_steps (term_of node.now))) }
{
    match node {
        Node::Ident(_) | Node::Value(_) => Ok(()),
        Node::Array(items) => put_items(items, pending),
        Node::Map(pairs) => put_pairs(pairs, pending),
        Node::Range(first, last) => put_two(first, last, pending),
        Node::Func {
            ident: _,
            args,
            predicate,
        } => put_call(args, predicate, pending),
        Node::Unary { operator: _, node } => put_one(node, pending),
        Node::Operation {
            operator: _,
            left,
            right,
            compiled_regex: _,
        } => put_two(left, right, pending),
        Node::Postfix { operator, node } => put_postfix(operator, node, pending),
        Node::Conditional {
            condition,
            consequent,
            alternative,
        } => put_choice(condition, consequent, alternative, pending),
    }
}

/// Puts the operand of a postfix operator, and the operator's own parts.
fn put_postfix<'a>(
    operator: &'a PostfixOperator,
    operand: &'a Node,
    pending: &mut Vec<Task<'a>>,
) -> Result<(), AllocError>
    ensures { OnOk result (PutsTasks pending.old.items pending.new.items
        (λ a. asked_by a (term_of operand.now) ++ asked_by_postfix a (postfix_term operator.now))
        (term_steps (term_of operand.now) + postfix_steps (postfix_term operator.now))) }
{
    put_operator(operator, pending)?;
    put_one(operand, pending)
}

/// Puts the parts of a postfix operator.
fn put_operator<'a>(
    operator: &'a PostfixOperator,
    pending: &mut Vec<Task<'a>>,
) -> Result<(), AllocError>
    ensures { OnOk result (PutsTasks pending.old.items pending.new.items
        (λ a. asked_by_postfix a (postfix_term operator.now))
        (postfix_steps (postfix_term operator.now))) }
{
    match operator {
        PostfixOperator::Index { idx, optional: _ } => put_one(idx, pending),
        PostfixOperator::Range { start, end } => put_bounds(start, end, pending),
        PostfixOperator::Default(node) | PostfixOperator::Pipe(node) => put_one(node, pending),
        PostfixOperator::Ternary { left, right } => put_two(left, right, pending),
        PostfixOperator::Method { ident: _, args } => put_items(args, pending),
    }
}

/// Puts a condition and the programs that it chooses between.
fn put_choice<'a>(
    condition: &'a Node,
    consequent: &'a Program,
    alternative: &'a Program,
    pending: &mut Vec<Task<'a>>,
) -> Result<(), AllocError>
    ensures { OnOk result (PutsTasks pending.old.items pending.new.items
        (λ a. asked_by a (term_of condition.now) ++ (asked_by_block a (program_term consequent.now)
        ++ asked_by_block a (program_term alternative.now)))
        (term_steps (term_of condition.now) + (block_steps (program_term consequent.now)
        + block_steps (program_term alternative.now)))) }
{
    put_program(alternative, pending)?;
    put_program(consequent, pending)?;
    put_one(condition, pending)
}

/// Puts the arguments of a call, and its predicate.
fn put_call<'a>(
    arguments: &'a [Node],
    predicate: &'a Option<Box<Program>>,
    pending: &mut Vec<Task<'a>>,
) -> Result<(), AllocError>
    ensures { OnOk result (PutsTasks pending.old.items pending.new.items
        (λ a. asked_by_all a (terms_of (map term_of arguments.now))
        ++ asked_by_predicate a (predicate_term predicate.now))
        (items_steps (terms_of (map term_of arguments.now))
        + predicate_steps (predicate_term predicate.now))) }
{
    put_predicate(predicate, pending)?;
    put_items(arguments, pending)
}

/// Puts the predicate of a call, if it has one.
fn put_predicate<'a>(
    predicate: &'a Option<Box<Program>>,
    pending: &mut Vec<Task<'a>>,
) -> Result<(), AllocError>
    ensures { OnOk result (PutsTasks pending.old.items pending.new.items
        (λ a. asked_by_predicate a (predicate_term predicate.now))
        (predicate_steps (predicate_term predicate.now))) }
{
    match predicate {
        None => Ok(()),
        Some(program) => put_program(program, pending),
    }
}

/// Puts the bounds of a slice.
fn put_bounds<'a>(
    start: &'a Option<Box<Node>>,
    end: &'a Option<Box<Node>>,
    pending: &mut Vec<Task<'a>>,
) -> Result<(), AllocError>
    ensures { OnOk result (PutsTasks pending.old.items pending.new.items
        (λ a. asked_by_bound a (bound_term start.now) ++ asked_by_bound a (bound_term end.now))
        (bound_steps (bound_term start.now) + bound_steps (bound_term end.now))) }
{
    put_bound(end, pending)?;
    put_bound(start, pending)
}

/// Puts a bound of a slice, if there is one.
fn put_bound<'a>(
    bound: &'a Option<Box<Node>>,
    pending: &mut Vec<Task<'a>>,
) -> Result<(), AllocError>
    ensures { OnOk result (PutsTasks pending.old.items pending.new.items
        (λ a. asked_by_bound a (bound_term bound.now)) (bound_steps (bound_term bound.now))) }
{
    match bound {
        None => Ok(()),
        Some(node) => put_one(node, pending),
    }
}

/// Puts a program.
pub(crate) fn put_program<'a>(
    program: &'a Program,
    pending: &mut Vec<Task<'a>>,
) -> Result<(), AllocError>
    ensures { OnOk result (PutsTasks pending.old.items pending.new.items
        (λ a. asked_by_block a (program_term program.now)) (block_steps (program_term program.now))) }
{
    let lines = program.lines.as_slice();
    pending.push(Task::Lines(lines, &program.expr))?;
    Ok(())
}

/// Puts two nodes.
fn put_two<'a>(
    first: &'a Node,
    second: &'a Node,
    pending: &mut Vec<Task<'a>>,
) -> Result<(), AllocError>
    ensures { OnOk result (PutsTasks pending.old.items pending.new.items
        (λ a. asked_by a (term_of first.now) ++ asked_by a (term_of second.now))
        (term_steps (term_of first.now) + term_steps (term_of second.now))) }
{
    put_one(second, pending)?;
    put_one(first, pending)
}

/// Puts a node.
fn put_one<'a>(node: &'a Node, pending: &mut Vec<Task<'a>>) -> Result<(), AllocError>
    ensures { OnOk result (PutsTasks pending.old.items pending.new.items
        (λ a. asked_by a (term_of node.now)) (term_steps (term_of node.now))) }
{
    pending.push(Task::Node(node))?;
    Ok(())
}

/// Puts the nodes of a list as one task.
fn put_items<'a>(items: &'a [Node], pending: &mut Vec<Task<'a>>) -> Result<(), AllocError>
    ensures { OnOk result (PutsTasks pending.old.items pending.new.items
        (λ a. asked_by_all a (terms_of (map term_of items.now)))
        (items_steps (terms_of (map term_of items.now)))) }
{
    pending.push(Task::Items(items))?;
    Ok(())
}

/// Puts the values of a map literal as one task.
fn put_pairs<'a>(pairs: &'a [(String, Node)], pending: &mut Vec<Task<'a>>) -> Result<(), AllocError>
    ensures { OnOk result (PutsTasks pending.old.items pending.new.items
        (λ a. asked_by_pairs a (term_pairs (map line_term pairs.now)))
        (pairs_steps (term_pairs (map line_term pairs.now)))) }
{
    pending.push(Task::Pairs(pairs))?;
    Ok(())
}

/// Puts the first node of a list, and the others as one task.
pub(crate) fn split_items<'a>(
    items: &'a [Node],
    pending: &mut Vec<Task<'a>>,
) -> Result<(), AllocError>
    ensures { OnOk result (PutsFewer pending.old.items pending.new.items
        (λ a. asked_by_all a (terms_of (map term_of items.now)))
        (items_steps (terms_of (map term_of items.now)))) }
{
    match items.split_first() {
        None => Ok(()),
        Some((item, rest)) => {
            put_items(rest, pending)?;
            put_one(item, pending)
        }
    }
}

/// Puts the first value of a map literal, and the others as one task.
pub(crate) fn split_pairs<'a>(
    pairs: &'a [(String, Node)],
    pending: &mut Vec<Task<'a>>,
) -> Result<(), AllocError>
    ensures { OnOk result (PutsFewer pending.old.items pending.new.items
        (λ a. asked_by_pairs a (term_pairs (map line_term pairs.now)))
        (pairs_steps (term_pairs (map line_term pairs.now)))) }
{
    match pairs.split_first() {
        None => Ok(()),
        Some((pair, rest)) => {
            put_pairs(rest, pending)?;
            put_one(&pair.1, pending)
        }
    }
}

/// Puts the value of the first line, and what is behind it as one task, for which the line has its name.
pub(crate) fn split_lines<'a>(
    lines: &'a [(String, Node)],
    last: &'a Node,
    pending: &mut Vec<Task<'a>>,
) -> Result<(), AllocError>
    ensures { OnOk result (PutsFewer pending.old.items pending.new.items
        (λ a. asked_by_block a (block_with (map line_term lines.now) (term_of last.now)))
        (block_steps (block_with (map line_term lines.now) (term_of last.now)))) }
{
    match lines.split_first() {
        None => put_one(last, pending),
        Some((line, rest)) => {
            pending.push(Task::Unbind)?;
            pending.push(Task::Lines(rest, last))?;
            pending.push(Task::Bind(line.0.as_str()))?;
            put_one(&line.1, pending)
        }
    }
}
