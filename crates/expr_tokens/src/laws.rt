//! Laws about the definitions, each the contract of a function without a body.
ghost use Rattle.std.specs.Prelude.{◌≡◌, ◌↔◌, ℕ, List, Some, IsTrue};
ghost use Rattle.expr_tokens.specs.Lexer.{lex};
ghost use Rattle.expr_tokens.specs.Reading.{Reads};
ghost use Rattle.expr_tokens.specs.declared.token.Token.{Token};
ghost use Rattle.expr_tokens.specs.Printed.{is_readable, printed_tokens};
ghost use Rattle.expr_value.specs.Values.{text_of};
ghost use Rattle.expr_value.specs.declared.value.Value.{Value};
ghost use Rattle.expr_tokens.specs.Grammar.{TreeProgram, Spells, Fits, OneTree, BracketsFit};
ghost use Rattle.expr_tokens.specs.Brackets.{BracketsFitInside};
ghost use Rattle.expr_tokens.specs.Machine.{tree_of};

/// A source reads as at most one list of tokens.
pub fn one_reading()
    ensures { (text : List ℕ) (a b : List Token) → Reads text a → Reads text b → a ≡ b }
{}

/// The lexer of the definitions returns the reading of a source, and nothing if there is none.
pub fn lexer_gives_the_reading()
    ensures { (text : List ℕ) (tokens : List Token) → Reads text tokens ↔ (lex text ≡ Some tokens) }
{}

/// The printed form of a value reads as the tokens of its parts. The value may be built of nil, booleans, integers
/// above the least, strings, arrays, and maps with distinct words as keys.
pub fn printed_text_reads()
    ensures { (v : Value) → IsTrue (is_readable v) → Reads (text_of v) (printed_tokens v) }
{}

/// Two trees that spell the same tokens and fit are the same tree.
pub fn one_tree()
    ensures { OneTree }
{}

/// A program's expression may be put in brackets, and so may any expression inside it.
pub fn brackets_fit()
    ensures whole { BracketsFit }
    ensures inside { BracketsFitInside }
{}

// The token machine returns only a tree that spells the tokens and fits.
fn parsing_is_sound()
    ensures { (p : TreeProgram) (ts : List Token) → tree_of ts ≡ Some p → Spells p ts × Fits p }
{}
