//! Laws about the definitions, each the contract of an empty function.
ghost use Rattle.std.specs.Prelude.{ℕ, List};
ghost use Rattle.expr_layout.specs.Layouts.{HasOneLayout};
ghost use Rattle.expr_layout.specs.declared.token.LayoutToken.{LayoutToken};

/// A layout is at most one list of tokens.
pub fn layouts_have_one_reading()
    ensures { (layout : List ℕ) (ts us : List LayoutToken) → HasOneLayout layout ts us }
{}
