//! Laws about the program that is built for a tree, each the contract of an empty function.

ghost use Rattle.std.specs.Prelude.{◌≡◌, List};
ghost use Rattle.expr_tokens.specs.declared.token.Token.{Token};
ghost use Rattle.expr_tokens.specs.Machine.{tree_of};
ghost use Rattle.expr_parts.specs.Measures.{with_height_if_any};
ghost use Rattle.expr_parts.specs.Programs.{BracketsLeaveExpression, BracketsLeaveInside, BracketsLeaveProgram};
ghost use Rattle.expr_parts.specs.Nodes.{block_of_tokens};

/// Brackets around an expression don't change its program. The same holds of expressions inside a program.
pub fn brackets_leave_program()
    ensures expression { BracketsLeaveExpression }
    ensures program { BracketsLeaveProgram }
    ensures inside { BracketsLeaveInside }
{}

// The machine that builds nodes returns the program of the tree, and its height.
fn erasure()
    ensures { (ts : List Token) → block_of_tokens ts ≡ with_height_if_any (tree_of ts) }
{}
