//! What a program returns, and why.
ghost use Rattle.std.specs.List.{All};
ghost use Rattle.expr_explain.specs.Telling.{IsToldOfProgram};
ghost use Rattle.expr_meaning.specs.Allows.{AllowsBlock};
ghost use Rattle.expr_meaning.specs.Host.{no_host};
ghost use Rattle.expr_meaning.specs.World.{world_of};
ghost use Rattle.expr_tree.specs.TermOf.{program_term};
ghost use Rattle.expr_value.specs.Answers.{Returns};

use crate::layer::Layer;
use crate::notes::{Notes, Told, Wish};
use crate::walk::Walk;
use expr_context::ContextProvider;
use expr_meaning::{Functions, NoFunctions};
use expr_tree::node::Program;
use expr_value::{Result, Value};
use std::alloc::Global;

/// What a program returned, and what its parts gave on the way.
#[derive(Drop)]
pub struct Explanation<'a> {
    /// The result of the program.
    pub answer: Result<Value>,
    /// The parts, in the order in which their evaluation ended: each follows its own parts.
    pub parts: Vec<Told<'a>>,
    /// Whether parts were left out, because there were too many of them or for want of memory.
    pub is_cut: bool,
}

/// Explains what a program returns in a context, with no additions of a host: its result, and in order the values of
/// its parts that were evaluated. Parts are the sides of `and`, `or` and comparisons, the operand of `not`, conditions,
/// the values of lines, and names with the parts of their values. Literals are left out, and so is what is inside of
/// calls, arrays, maps, `? :` and `??`. The last part is the one that failed, if one did. At most 1,000 parts are told.
///
/// The program runs once, without limits and by recursion on its tree. So compile an untrusted one within limits, and
/// execute it within limits before you explain it.
pub fn explain<'a>(
    alloc: Global,
    program: &'a Program,
    ctx: &dyn ContextProvider,
) -> Explanation<'a>
    // The result is one that the program may have.
    ensures answer { Returns result.answer (AllowsBlock (world_of no_host (context ctx.now))
        (program_term program.now)) }
    // Each part is one that the program evaluates, with what its meaning allows where it stands.
    ensures parts { All (IsToldOfProgram no_host (context ctx.now) (program_term program.now))
        result.parts.items }
{
    explain_with(alloc, &NoFunctions, &ctx, program, MOST_PARTS)
}

/// The most parts that [`explain`] tells.
const MOST_PARTS: usize = 1000;

/// Explains what a program returns with the names of a provider and in a host, and tells at most so many parts.
pub fn explain_with<'a, H: Functions, P: ContextProvider>(
    alloc: Global,
    host: &H,
    provider: &P,
    program: &'a Program,
    most: usize,
) -> Explanation<'a>
    ensures answer { Returns result.answer
        (AllowsBlock (world_of (H.host host.now) (P.context provider.now)) (program_term program.now)) }
    ensures parts { All
        (IsToldOfProgram (H.host host.now) (P.context provider.now) (program_term program.now))
        result.parts.items }
{
    let walk = Walk {
        alloc,
        host,
        provider,
    };
    let layer = Layer::outermost_layer(alloc);
    let mut notes = Notes::without_parts(alloc, most);
    let answer = walk.block(program, &layer, Wish::Telling, &mut notes);
    Explanation {
        answer,
        parts: notes.parts,
        is_cut: notes.is_cut,
    }
}
