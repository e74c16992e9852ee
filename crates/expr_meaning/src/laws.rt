//! Laws of evaluation. Each is a function without a body.
ghost use Rattle.std.specs.Prelude.{◌≡◌, ◌≢◌, ◌↔◌, Bool, Err, List, Ok, codes, false, not, true, Result};
ghost use Rattle.expr_meaning.specs.Allows.{Allows, AllowsPredicate, AllowsBlock};
ghost use Rattle.expr_meaning.specs.Refusals.{NeverRefusesWith};
ghost use Rattle.expr_predicates.specs.Allowed.{HasOneAnswer};
ghost use Rattle.expr_predicates.specs.Folds.{any_holds};
ghost use Rattle.expr_context.specs.Context.{ContextView};
ghost use Rattle.expr_meaning.specs.World.{world_of};
ghost use Rattle.expr_tree.specs.Term.{Block, Term, call, literal, no_terms, operation, predicate, term};
ghost use Rattle.expr_functions.specs.declared.operator.Operator.TheVariants.{And, Or};
ghost use Rattle.expr_value.specs.Answers.{Answer, Returns};
ghost use Rattle.expr_error.specs.ErrorKind.{ErrorKind, evaluation, pattern as bad_pattern};
ghost use Rattle.expr_code.specs.Codes.{IsCode};
ghost use Rattle.expr_meaning.specs.Correct.{RunsAs};
ghost use Rattle.expr_meaning.specs.Lowered.{code_of_block};
ghost use Rattle.expr_code.specs.Instructions.{Op};
ghost use Rattle.expr_meaning.specs.CodeRuns.{CodeAnswers};
ghost use Rattle.expr_code.specs.Safe.{IsSafeCode};
ghost use Rattle.expr_meaning.specs.Wrong.{covering_code, overwriting_code, shadowed_program, shadowing_code};
ghost use Rattle.expr_meaning.specs.Shown.{AnswersStayWithinDepth, CountedRunsAreRuns, RunsHaveCounts};

use crate::environment::Functions;
use expr_value::{Error, Value};

/// In every host, `false and` any right side is false, and `true or` any right side is true. The right side
/// isn't evaluated.
pub fn left_side_decides<H: Functions>()
    ensures and { (host : H) (ctx : ContextView) (right : Term) (answer : Answer)
        → Allows (world_of (H.host host) ctx) (operation And (literal (Value.Bool false)) right) answer
        ↔ answer
        ≡ Ok (Value.Bool false) }
    ensures or { (host : H) (ctx : ContextView) (right : Term) (answer : Answer)
        → Allows (world_of (H.host host) ctx) (operation Or (literal (Value.Bool true)) right) answer ↔ answer
        ≡ Ok (Value.Bool true) }
{}

/// `none` is the opposite of `any` on the same array with the same predicate. This needs a host that adds
/// neither name, a predicate with one allowed result for each item, and calls that both have a value.
pub fn none_in_programs_is_the_opposite_of_any<H: Functions>()
    ensures { (host : H) (ctx : ContextView) (array : Term) (block : Block)
        (items : List Value) (any none : Value)
        → (H.host host).is_added (codes "any") ≡ false → (H.host host).is_added (codes "none") ≡ false
        → ((a : Answer) → Allows (world_of (H.host host) ctx) array a → a ≡ Ok (Value.Array items))
        → HasOneAnswer any_holds (AllowsPredicate (world_of (H.host host) ctx) (predicate block)) items
        → Allows (world_of (H.host host) ctx) (call (codes "any") (term array no_terms) (predicate block))
        (Ok any)
        → Allows (world_of (H.host host) ctx) (call (codes "none") (term array no_terms) (predicate block))
        (Ok none)
        → (b : Bool) × (any ≡ Value.Bool b) × (none ≡ Value.Bool (not b)) }
{}

/// A program fails only with an evaluation error, an error of a pattern, or an error of a function that the
/// host has added.
pub fn programs_refuse_to_evaluate<H: Functions>()
    ensures { (host : H) (ctx : ContextView) (program : Block) (fault : ErrorKind)
        → fault ≢ evaluation → fault ≢ bad_pattern → NeverRefusesWith (H.host host) fault
        → ¬ (AllowsBlock (world_of (H.host host) ctx) program (Err fault)) }
{}

/// In every host and context, the runs of a program's code allow exactly what the program allows.
pub fn runs_as_programs<H: Functions>()
    ensures { (host : H) (ctx : ContextView) (b : Block) (blocks : List (List Op)) → IsCode b blocks
        → RunsAs (world_of (H.host host) ctx) b blocks }
{}

/// A program's code finds what it needs at each of its instructions.
pub fn codes_are_safe()
    ensures { (b : Block) (blocks : List (List Op)) → IsCode b blocks → IsSafeCode blocks }
{}

/// Each program has a code.
pub fn programs_have_codes()
    ensures { (b : Block) → IsCode b (code_of_block b) }
{}

/// No program has a code in which the slots of an inner block overwrite those of an outer line.
pub fn stale_slots_are_refused()
    ensures { (b : Block) → (IsCode b covering_code → ⊥) × (IsCode b overwriting_code → ⊥) }
{}

/// Code that finds all that it needs may still be wrong: an inner line in the slot of an outer one. In every
/// host and context it runs differently from its program.
pub fn shadowed_lines_are_refused<H: Functions>()
    ensures { (host : H) (ctx : ContextView)
        → IsSafeCode shadowing_code
        × (RunsAs (world_of (H.host host) ctx) shadowed_program shadowing_code → ⊥) }
{}

/// The program allows every result of its code.
pub fn execution_answers_programs<H: Functions>()
    ensures { (host : H) (ctx : ContextView) (b : Block) (blocks : List (List Op)) (r : Result Value Error)
        → IsCode b blocks → Returns r (CodeAnswers (world_of (H.host host) ctx) blocks)
        → Returns r (AllowsBlock (world_of (H.host host) ctx) b) }
{}

/// In every host and context, each result of a counted run is a result of a plain run. This holds for all
/// costs and all limits.
pub fn counted_runs_are_runs<H: Functions>()
    ensures { (host : H) (ctx : ContextView) (blocks : List (List Op))
        → CountedRunsAreRuns (world_of (H.host host) ctx) blocks }
{}

/// In every host and context, each run of code is a counted run within limits that are large enough, and
/// without limits.
pub fn runs_have_counts<H: Functions>()
    ensures { (host : H) (ctx : ContextView) (blocks : List (List Op))
        → RunsHaveCounts (world_of (H.host host) ctx) blocks }
{}

/// In every host and context, the result of a counted run is never deeper than the limit.
pub fn answers_stay_within_depth<H: Functions>()
    ensures { (host : H) (ctx : ContextView) (blocks : List (List Op))
        → AnswersStayWithinDepth (world_of (H.host host) ctx) blocks }
{}
