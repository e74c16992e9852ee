//! What holds of the text of a program.

ghost use Rattle.std.specs.Prelude.{◌≡◌, ◌≤◌, ℕ, nat_lt, List, Result, IsTrue};
ghost use Rattle.std.specs.List.{AllByRecursion, list_all};
ghost use Rattle.expr_parts.specs.Programs.{program_of};
ghost use Rattle.expr_text.specs.Texts.{block_has_text, token_has_text};
ghost use Rattle.expr_tokens.specs.Grammar.{Fits, TreeProgram, program_tokens};
ghost use Rattle.expr_tokens.specs.Height.{program_height};
ghost use Rattle.expr_error.specs.declared.error.Error.{Error};
ghost use Rattle.expr_syntax.specs.Promises.{CompilesText};
ghost use Rattle.expr_syntax.specs.Texts.{IsProgramOf, IsProgramWithin};
ghost use Rattle.expr_text.specs.Back.{GivesBack};
ghost use Rattle.expr_tree.specs.declared.node.Program.{Program};
ghost use Rattle.expr_text.specs.Layout.{program_text};
ghost use Rattle.expr_text.specs.Trees.{printed_tree};
ghost use Rattle.expr_tree.specs.Term.{Block};

/// The tree of each program fits the grammar: brackets stand wherever they must.
pub fn printed_tree_fits()
    ensures { (b : Block) → Fits (printed_tree b) }
{}

/// The program of a program's tree is that program, where it has a text.
pub fn printed_tree_is_of_program()
    ensures { (b : Block) → IsTrue (block_has_text b) → program_of (printed_tree b) ≡ b }
{}

/// The program of each tree whose tokens can be written has a text.
pub fn programs_of_trees_have_text()
    ensures { (p : TreeProgram) → AllByRecursion (λ t. IsTrue (token_has_text t)) (program_tokens p)
        → IsTrue (block_has_text (program_of p)) }
{}

/// The text of a program that has one is a text of that program.
pub fn printed_text_has_the_program()
    ensures { (b : Block) → IsTrue (block_has_text b) → IsProgramOf (program_text b) b }
{}

/// Each program that a text has has a text of its own.
pub fn programs_of_texts_have_text()
    ensures { (text : List ℕ) (b : Block) → IsTrue (list_all (λ x. nat_lt x 256) text)
        → IsProgramOf text b → IsTrue (block_has_text b) }
{}

/// The tree of a program is no higher than any tree of that program whose tokens can be written.
pub fn printed_tree_is_lowest()
    ensures { (p : TreeProgram) → Fits p
        → AllByRecursion (λ t. IsTrue (token_has_text t)) (program_tokens p)
        → program_height (printed_tree (program_of p)) ≤ program_height p }
{}

/// Compiling the text of a program that has one gives that program, or fails because it is out of memory.
pub fn text_gives_the_program_back()
    ensures { (b : Block) (r : Result Program Error) → IsTrue (block_has_text b)
        → CompilesText (program_text b) r → GivesBack b r }
{}

/// What passed a bound on height passes it again.
pub fn text_passes_the_bound()
    ensures { (text : List ℕ) (height : ℕ) (b : Block) → IsTrue (list_all (λ x. nat_lt x 256) text)
        → IsProgramWithin text height b → program_height (printed_tree b) ≤ height }
{}

/// Two programs of one text are one.
pub fn one_program_of_text()
    ensures { (text : List ℕ) (b c : Block) → IsProgramOf text b → IsProgramOf text c → b ≡ c }
{}
