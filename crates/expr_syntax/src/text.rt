//! Compiling an expression.
ghost use Rattle.std.specs.Prelude.{◌≡◌, ℕ, Err};
ghost use Rattle.expr_tokens.specs.Grammar.{TreeProgram};
ghost use Rattle.expr_syntax.specs.Promises.{CompilesText, CompilesTextWithin};
ghost use Rattle.expr_syntax.specs.Texts.{IsParseRefusal, IsPlaced, IsRead, IsReadFor, IsTreeOf};
ghost use Rattle.std.specs.Str.{IsCharBoundary};
ghost use Rattle.expr_error.specs.declared.error.Error.{Error};

use crate::parser::{ParseError, parse};
use expr_parts::AnnotatedProgram;
use expr_tree::node::Program;
use expr_value::{Error, Result};
use std::alloc::Global;

/// Compiles an expression.
///
/// # Errors
///
/// Returns `PestError` if the source has no tree in the grammar, with the byte offset of the first fault. That is the
/// first token with which no program goes on, or else the first bytes that are no token, or else the end of the source.
/// Returns `ParseError` if there is a tree, but an integer literal in it is 2^63 or more. Returns `MemoryError` if an
/// allocation fails.
pub fn compile(alloc: Global, code: &str) -> Result<Program>
    ensures { CompilesText code.now result }
{
    let program = read_program(alloc, code)?;
    Ok(program.into_program())
}

/// Compiles an expression whose tree is at most `height` high. The height is the greatest number of trees one inside
/// another, with brackets, lines and predicates. `1` has height 1, `(1)` and `-1` have 2, `1 + 2 * 3` has 3.
///
/// # Errors
///
/// Returns the errors of [`compile`], and `ParseError` if the tree is higher. A source without a tree gives `PestError`
/// whatever the bound is.
pub fn compile_within(alloc: Global, code: &str, height: usize) -> Result<Program>
    ensures { CompilesTextWithin code.now height result }
{
    let program = read_program(alloc, code)?;
    let tree_height = program.height();
    if tree_height > height {
        return Err(refusal(
            alloc,
            "the expression nests too deeply: its tree is higher than the limit",
        ));
    }
    Ok(program.into_program())
}

// Reads the program of a source, and the height of its tree.
pub(crate) fn read_program(alloc: Global, code: &str) -> Result<AnnotatedProgram>
    ensures answer { IsRead code.now result }
    ensures only { (t : TreeProgram) → IsTreeOf code.now t → IsReadFor t result }
    ensures place { IsPlaced code.now result }
    ensures boundary { (place : ℕ) → result ≡ Err (Error.PestError place) → IsCharBoundary code.now place }
{
    match parse(alloc, code) {
        Ok(program) => Ok(program),
        Err(ParseError::Syntax(place)) => Err(Error::PestError(place)),
        Err(ParseError::Literal) => Err(refusal(
            alloc,
            "an integer literal is greater than 9223372036854775807",
        )),
        Err(ParseError::Memory) => Err(Error::MemoryError),
    }
}

// The error for a source that has a tree.
fn refusal(alloc: Global, message: &str) -> Error
    ensures { IsParseRefusal result }
{
    match String::from_str(alloc, message) {
        Ok(text) => Error::ParseError(text),
        Err(_) => Error::MemoryError,
    }
}
