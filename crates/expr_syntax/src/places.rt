//! The place of each node of a program in its text.
ghost use Rattle.std.specs.Prelude.{◌≡◌, IfOk, length};
ghost use Rattle.expr_syntax.specs.Places.{ArePlacesOf, program_alone};
ghost use Rattle.expr_syntax.specs.Promises.{CompilesText};
ghost use Rattle.expr_tree.specs.TermOf.{program_term};
ghost use Rattle.expr_tree.specs.Weight.{block_weight};

mod marks;
mod order;
mod placer;

use crate::text::compile;
use expr_tree::node::Program;
use expr_value::{Error, Result};
use order::in_order;
use placer::marks_of;
use std::alloc::{AllocError, Global};

/// A part of a text.
#[derive(Clone, Copy, Debug, PartialEq, Eq)]
pub struct Place {
    /// Offset of its first byte.
    pub start: usize,
    /// Offset after its last byte.
    pub end: usize,
}

/// A program, and the place of each of its nodes in the text that it was compiled from.
#[derive(Drop)]
pub struct PlacedProgram {
    pub program: Program,
    /// A place for each node, in post-order: those of a node's children from the first to the last, and then its own.
    /// The children of a call are its arguments, and then the lines and the expression of its predicate. The place of
    /// a member's or a field's name is its word, and that of a field's `#` is the dot.
    pub places: Vec<Place>,
}

/// Compiles an expression as [`compile`] does, and finds the place of each node of its program. Brackets around a node
/// are no part of its place.
///
/// The places are checked against the program. The answer would be `MemoryError` too if they didn't fit it.
///
/// # Errors
///
/// Returns the errors of [`compile`].
pub fn compile_with_places(alloc: Global, code: &str) -> Result<PlacedProgram>
    // The program, or the error, is one that `compile` may return.
    ensures program { CompilesText code.now (program_alone result) }
    // Each place lies inside the place of the node's parent, between two characters, and a name is what stands there.
    ensures places { IfOk result (λ r. ArePlacesOf code.now (program_term r.program) r.places.items) }
    // There are as many places as nodes.
    ensures count { IfOk result (λ r. length r.places.items ≡ block_weight (program_term r.program)) }
{
    match compile(alloc, code) {
        Ok(program) => match places_of(alloc, code, &program) {
            Ok(places) => Ok(PlacedProgram { program, places }),
            Err(_) => Err(Error::MemoryError),
        },
        Err(error) => Err(error),
    }
}

// The places of the nodes of a text's program.
fn places_of(
    alloc: Global,
    text: &str,
    program: &Program,
) -> std::result::Result<Vec<Place>, AllocError>
    ensures places { IfOk result (λ ps. ArePlacesOf text.now (program_term program.now) ps.items) }
    ensures count { IfOk result (λ ps. length ps.items ≡ block_weight (program_term program.now)) }
{
    let marks = marks_of(alloc, text)?;
    in_order(text, program, &marks, Vec::new(alloc), Vec::new(alloc))
}
