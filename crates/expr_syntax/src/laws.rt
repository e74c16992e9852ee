//! Laws about expressions and their trees, each the contract of an empty function.

ghost use Rattle.std.specs.Prelude.{IsTrue};
ghost use Rattle.expr_syntax.specs.Printed.{printed_term};
ghost use Rattle.expr_syntax.specs.Texts.{IsProgramOf, OneTreeOfText};
ghost use Rattle.expr_tokens.specs.Printed.{is_readable};
ghost use Rattle.expr_tree.specs.Term.{answers};
ghost use Rattle.expr_value.specs.Values.{text_of};
ghost use Rattle.expr_value.specs.declared.value.Value.{Value};

/// An expression has at most one tree, in whatever way it reads as tokens.
pub fn one_tree_of_text()
    ensures { OneTreeOfText }
{}

/// The printed form of a value has a tree whose literals fit, and its program is the one given here. The value may be
/// built of nil, booleans, integers above the least, strings, arrays, and maps with distinct words as keys.
pub fn printed_text_has_program()
    ensures { (v : Value) → IsTrue (is_readable v) → IsProgramOf (text_of v) (answers (printed_term v)) }
{}
