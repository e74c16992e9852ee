//! Flat code in memory.
ghost use Rattle.expr_code.specs.Shapes.{IsSafeShape};

use crate::lowering::Lowering;
use expr_code::Block;
use expr_pattern::PatternRoom;
use expr_tree::node::{Pattern, Program};
use expr_value::{Result, Value};
use std::alloc::Global;

/// Flat code: blocks of instructions, and a room for a pattern. [`Code::from_blocks`] makes any code again
/// from its blocks. Each jump stays within its block, each call with a predicate runs a later block, and each
/// instruction finds its operands and slots.
#[derive(Drop)]
pub struct Code<L, N, P> {
    /// The block of the program.
    pub first: Block<L, N, P>,
    /// The blocks of the predicates.
    pub later: Vec<Block<L, N, P>>,
    /// Room for the first pattern that a run builds and that is not a literal. All runs of this code share
    /// it.
    pub room: PatternRoom,
    pub ghost safe: { IsSafeShape first later },
}

impl<'p> Code<&'p Value, &'p String, &'p Pattern> {
    ghost use Rattle.std.specs.Prelude.{IfOk, string_bytes};
    ghost use Rattle.expr_code.specs.Codes.{IsCode};
    ghost use Rattle.expr_lowering.specs.Blocks.{CodeKeeps, blocks_of};
    ghost use Rattle.expr_lowering.specs.Kept.{ProgramKeeps};
    ghost use Rattle.expr_tree.specs.TermOf.{program_term};
    ghost use Rattle.expr_error.specs.ErrorKind.{OnlyMemory};

    /// Lowers a program to code that borrows its literals, its names and its compiled patterns. It also makes
    /// what pays off only from the second run.
    ///
    /// # Errors
    ///
    /// Returns `MemoryError` if an allocation fails.
    pub fn lower(
        alloc: Global,
        program: &'p Program,
    ) -> Result<Code<&'p Value, &'p String, &'p Pattern>>
        ensures code { IfOk result (λ c. IsCode (program_term program.now)
            (blocks_of (λ v. v.now) (λ n. string_bytes n.now) c)) }
        ensures kept { ProgramKeeps program.now
            → IfOk result (λ c. CodeKeeps (λ v. v.now) (λ p. p.now) c) }
        ensures refused { OnlyMemory result }
    {
        Self::lower_for(alloc, program, true)
    }

    /// Lowers a program to code, as [`Code::lower`] does, for a single run. It skips what pays off only from
    /// the second.
    ///
    /// # Errors
    ///
    /// Returns `MemoryError` if an allocation fails.
    pub fn lower_once(
        alloc: Global,
        program: &'p Program,
    ) -> Result<Code<&'p Value, &'p String, &'p Pattern>>
        ensures code { IfOk result (λ c. IsCode (program_term program.now)
            (blocks_of (λ v. v.now) (λ n. string_bytes n.now) c)) }
        ensures kept { ProgramKeeps program.now
            → IfOk result (λ c. CodeKeeps (λ v. v.now) (λ p. p.now) c) }
        ensures refused { OnlyMemory result }
    {
        Self::lower_for(alloc, program, false)
    }

    fn lower_for(
        alloc: Global,
        program: &'p Program,
        is_run_again: bool,
    ) -> Result<Code<&'p Value, &'p String, &'p Pattern>>
        ensures code { IfOk result (λ c. IsCode (program_term program.now)
            (blocks_of (λ v. v.now) (λ n. string_bytes n.now) c)) }
        ensures kept { ProgramKeeps program.now
            → IfOk result (λ c. CodeKeeps (λ v. v.now) (λ p. p.now) c) }
        ensures refused { OnlyMemory result }
    {
        let mut lowering = Lowering::new(alloc, is_run_again);
        let (first, later) = lowering.blocks(program)?;
        Ok(Code {
            first,
            later,
            room: PatternRoom::new(),
        })
    }
}
