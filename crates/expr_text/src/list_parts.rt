//! The parts of lists of nodes, and of programs.
//!
//! A function that puts parts returns whether there is a text.
ghost use Rattle.std.specs.Prelude.{◌≡◌, ◌+◌, map, IfOk};
ghost use Rattle.expr_text.specs.Brackets.{block_is_if, is_choice_term};
ghost use Rattle.expr_text.specs.Layout.{program_text};
ghost use Rattle.expr_text.specs.Parts.{Expands, block_stands, else_text, items_stand, items_text, lines_stand, lines_text, pairs_stand, pairs_text};
ghost use Rattle.expr_text.specs.Steps.{block_steps, items_steps, lines_steps};
ghost use Rattle.expr_tree.specs.TermOf.{term_of, terms_of, line_term, program_term};

use crate::literal_parts::{gap, key_part};
use crate::part::{Ban, Part, Place, put, put_three};
use crate::word::is_free_word;
use expr_tree::node::{Node, Program};
use std::alloc::AllocError;

/// Puts the first item, and the others as one part.
pub(crate) fn put_items<'a>(
    items: &'a [Node],
    ban: Ban,
    is_first: bool,
    pending: &mut Vec<Part<'a>>,
) -> Result<bool, AllocError>
    ensures { IfOk result (λ done. Expands done pending.old.items pending.new.items
        (items_text is_first (terms_of (map term_of items.now)))
        (items_stand ban (terms_of (map term_of items.now)))
        (items_steps (terms_of (map term_of items.now)))) }
{
    match items.split_first() {
        None => Ok(true),
        Some((item, rest)) => {
            let is_hashless = ban.has_first(rest.is_empty());
            put_three(
                Part::Text(gap(is_first)),
                Part::Node(item, Place::apart(is_hashless)),
                Part::Items(rest, ban.after_first(), false),
                pending,
            )?;
            Ok(true)
        }
    }
}

/// Puts the first key of a map with its node, and the others as one part.
pub(crate) fn put_pairs<'a>(
    pairs: &'a [(String, Node)],
    is_hashless: bool,
    is_first: bool,
    pending: &mut Vec<Part<'a>>,
) -> Result<bool, AllocError>
    ensures { IfOk result (λ done. Expands done pending.old.items pending.new.items
        (pairs_text is_first (map line_term pairs.now))
        (pairs_stand is_hashless (map line_term pairs.now))
        (lines_steps (map line_term pairs.now))) }
{
    match pairs.split_first() {
        None => Ok(true),
        Some((pair, rest)) => {
            put_three(
                Part::Text(": "),
                Part::Node(&pair.1, Place::apart(is_hashless)),
                Part::Pairs(rest, is_hashless, false),
                pending,
            )?;
            put_three(
                Part::Text(gap(is_first)),
                key_part(pair.0.as_str()),
                Part::Text(""),
                pending,
            )?;
            Ok(true)
        }
    }
}

/// Puts the first line, and the others as one part. Each line is on a line of its own.
pub(crate) fn put_lines<'a>(
    lines: &'a [(String, Node)],
    is_hashless: bool,
    pending: &mut Vec<Part<'a>>,
) -> Result<bool, AllocError>
    ensures { IfOk result (λ done. Expands done pending.old.items pending.new.items
        (lines_text (map line_term lines.now))
        (lines_stand is_hashless (map line_term lines.now))
        (lines_steps (map line_term lines.now))) }
{
    match lines.split_first() {
        None => Ok(true),
        Some((line, rest)) => {
            let name = line.0.as_str();
            if !is_free_word(name) {
                return Ok(false);
            }
            put_three(
                Part::Node(&line.1, Place::apart(is_hashless)),
                Part::Text(";\n"),
                Part::Lines(rest, is_hashless),
                pending,
            )?;
            put_three(
                Part::Text("let "),
                Part::Text(name),
                Part::Text(" = "),
                pending,
            )?;
            Ok(true)
        }
    }
}

/// Puts the parts of a program.
pub(crate) fn put_program<'a>(
    program: &'a Program,
    is_hashless: bool,
    pending: &mut Vec<Part<'a>>,
) -> Result<bool, AllocError>
    ensures { IfOk result (λ done. Expands done pending.old.items pending.new.items
        (program_text (program_term program.now)) (block_stands is_hashless (program_term program.now))
        (block_steps (program_term program.now))) }
{
    let lines = program.lines.as_slice();
    put_three(
        Part::Lines(lines, is_hashless),
        Part::Node(&program.expr, Place::apart(is_hashless)),
        Part::Text(""),
        pending,
    )?;
    Ok(true)
}

/// Puts what follows `else`: another `if`, or a program in braces.
pub(crate) fn put_else<'a>(
    program: &'a Program,
    is_hashless: bool,
    pending: &mut Vec<Part<'a>>,
) -> Result<bool, AllocError>
    ensures { IfOk result (λ done. Expands done pending.old.items pending.new.items
        (else_text (program_term program.now)) (block_stands is_hashless (program_term program.now))
        (20 + block_steps (program_term program.now))) }
{
    if is_if(program) {
        put(
            Part::Node(&program.expr, Place::apart(is_hashless)),
            pending,
        )?;
        return Ok(true);
    }
    put_three(
        Part::Text("{ "),
        Part::Program(program, is_hashless),
        Part::Text(" }"),
        pending,
    )?;
    Ok(true)
}

// Whether a program is an `if` alone.
fn is_if(program: &Program) -> bool
    ensures { result ≡ block_is_if (program_term program.now) }
{
    let lines = program.lines.as_slice();
    if lines.is_empty() {
        is_choice(&program.expr)
    } else {
        false
    }
}

fn is_choice(node: &Node) -> bool
    ensures { result ≡ is_choice_term (term_of node.now) }
{
    match node {
        Node::Conditional {
            condition: _,
            consequent: _,
            alternative: _,
        } => true,
        _ => false,
    }
}
