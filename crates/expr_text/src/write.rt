//! Writes the text of a program or a node, with a loop over the parts that are still to be written.
ghost use Rattle.std.specs.Prelude.{◌≡◌, ◌++◌, [], true, string_bytes, IfErr, IfOk, IsTrue, OnOk};
ghost use Rattle.expr_error.specs.ErrorKind.{evaluation, IsOfKind, OnlyMemory};
ghost use Rattle.expr_error.specs.Quoted.{quoted_text};
ghost use Rattle.expr_syntax.specs.Texts.{IsProgramOf};
ghost use Rattle.expr_text.specs.Layout.{bytes_text, program_text};
ghost use Rattle.expr_text.specs.Parts.{IsWhole, WritesOrNot, part_stands, text_of_part};
ghost use Rattle.expr_text.specs.Texts.{block_has_text};
ghost use Rattle.expr_tree.specs.Term.{answers};
ghost use Rattle.expr_tree.specs.TermOf.{term_of, program_term};

use crate::list_parts::{put_else, put_items, put_lines, put_pairs, put_program};
use crate::literal_parts::{put_literal, put_members};
use crate::node_parts::put_node;
use crate::part::{Part, Place};
use crate::quoted::{BytesLiteral, QuotedText};
use expr_error::{Error, refusal};
use expr_tree::node::{Node, Program};
use std::alloc::{AllocError, Global};
use std::fmt::Write;

/// The text of a program, in the normal form.
///
/// # Errors
///
/// Returns `ExprError` if no text compiles to this program, and `MemoryError` if an allocation fails. Each program that
/// `compile` returns has a text.
pub fn to_code(alloc: Global, program: &Program) -> expr_error::Result<String>
    ensures text { IfOk result (λ s. string_bytes s ≡ program_text (program_term program.now)) }
    ensures program { IfOk result (λ s. IsProgramOf (string_bytes s) (program_term program.now)) }
    ensures answers { IsTrue (block_has_text (program_term program.now)) → OnlyMemory result }
    ensures refusal { IfErr result (λ e. IsOfKind e evaluation) }
{
    write_text(Part::Program(program, false), alloc)
}

/// The text of a node, in the normal form: that of a program without lines.
///
/// # Errors
///
/// Returns `ExprError` if no text compiles to this node, and `MemoryError` if an allocation fails.
pub fn node_to_code(alloc: Global, node: &Node) -> expr_error::Result<String>
    ensures text { IfOk result (λ s. string_bytes s ≡ program_text (answers (term_of node.now))) }
    ensures program { IfOk result (λ s. IsProgramOf (string_bytes s) (answers (term_of node.now))) }
    ensures answers { IsTrue (block_has_text (answers (term_of node.now))) → OnlyMemory result }
    ensures refusal { IfErr result (λ e. IsOfKind e evaluation) }
{
    write_text(Part::Node(node, Place::apart(false)), alloc)
}

// The text of a part, or the error if it has none.
fn write_text<'a>(part: Part<'a>, alloc: Global) -> expr_error::Result<String>
    ensures text { IfOk result (λ s. string_bytes s ≡ text_of_part part.entry) }
    ensures stands { IfOk result (λ s. part_stands part.entry ≡ true) }
    ensures answers { part_stands part.entry ≡ true → OnlyMemory result }
    ensures refusal { IfErr result (λ e. IsOfKind e evaluation) }
{
    match write_all(part, alloc, Vec::new(alloc)) {
        Ok(Some(text)) => Ok(text),
        Ok(None) => Err(refusal(alloc, "no expression compiles to this program")),
        Err(_) => Err(Error::MemoryError),
    }
}

// Writes a part, unless it has no text. `pending` is empty. (It is a parameter because the borrow checker accepts a list
// of references behind `&mut` only if its lifetime is a parameter's.)
fn write_all<'a>(
    part: Part<'a>,
    alloc: Global,
    mut pending: Vec<Part<'a>>,
) -> Result<Option<String>, AllocError>
    requires { pending.items ≡ [] }
    ensures { IfOk result (λ text. IsWhole text (text_of_part part.entry) (part_stands part.entry)) }
{
    let mut out = String::new(alloc);
    pending.push(part)?;
    while let Some(part) = pending.pop() {
        let is_written = write_part(part, &mut out, &mut pending)?;
        if !is_written {
            return Ok(None);
        }
    }
    Ok(Some(out))
}

// Writes a part that has no parts, or else puts its parts on top of those that are pending. Returns whether it has a
// text.
fn write_part<'a>(
    part: Part<'a>,
    out: &mut String,
    pending: &mut Vec<Part<'a>>,
) -> Result<bool, AllocError>
    ensures { IfOk result (λ done. WritesOrNot done part.entry (string_bytes out.old) pending.old.items
        (string_bytes out.new) pending.new.items) }
{
    match part {
        Part::Text(text) => {
            out.push_str(text)?;
            Ok(true)
        }
        Part::Quoted(text) => {
            write_quoted(text, out)?;
            Ok(true)
        }
        Part::Bytes(bytes) => {
            write_bytes(bytes, out)?;
            Ok(true)
        }
        Part::Integer(n) => {
            write!(out, "{n}")?;
            Ok(true)
        }
        Part::Node(node, place) => put_node(node, place, pending),
        Part::Items(items, ban, is_first) => put_items(items, ban, is_first, pending),
        Part::Pairs(pairs, is_hashless, is_first) => {
            put_pairs(pairs, is_hashless, is_first, pending)
        }
        Part::Members(keys, values, is_first) => put_members(keys, values, is_first, pending),
        Part::Literal(value) => put_literal(value, pending),
        Part::Lines(lines, is_hashless) => put_lines(lines, is_hashless, pending),
        Part::Program(program, is_hashless) => put_program(program, is_hashless, pending),
        Part::Else(program, is_hashless) => put_else(program, is_hashless, pending),
    }
}

fn write_quoted(text: &str, out: &mut String) -> Result<(), AllocError>
    ensures { OnOk result (string_bytes out.new ≡ string_bytes out.old ++ quoted_text text.now) }
{
    let literal = QuotedText { text };
    write!(out, "{literal}")
}

fn write_bytes(bytes: &[u8], out: &mut String) -> Result<(), AllocError>
    ensures { OnOk result (string_bytes out.new ≡ string_bytes out.old ++ bytes_text bytes.now) }
{
    let literal = BytesLiteral { bytes };
    write!(out, "{literal}")
}
