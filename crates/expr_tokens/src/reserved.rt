//! The reserved words.
ghost use Rattle.std.specs.Prelude.{◌≡◌};
ghost use Rattle.expr_tokens.specs.Spellings.{reserved_text};
ghost use Rattle.expr_tokens.specs.Lexer.{reserved_of};

/// A word that can't be a variable.
#[derive(Clone, Copy, PartialEq, Eq, Debug)]
pub enum Reserved {
    True,
    False,
    Nil,
    Let,
    If,
    Else,
    Not,
    And,
    Or,
    In,
    Contains,
    StartsWith,
    EndsWith,
    Matches,
}

const ALL: [Reserved; 14] = [
    Reserved::True,
    Reserved::False,
    Reserved::Nil,
    Reserved::Let,
    Reserved::If,
    Reserved::Else,
    Reserved::Not,
    Reserved::And,
    Reserved::Or,
    Reserved::In,
    Reserved::Contains,
    Reserved::StartsWith,
    Reserved::EndsWith,
    Reserved::Matches,
];

impl Reserved {
    /// The spelling of the word.
    pub fn spelling(self) -> &'static str
        ensures { result.now ≡ reserved_text self }
    {
        match self {
            Reserved::True => "true",
            Reserved::False => "false",
            Reserved::Nil => "nil",
            Reserved::Let => "let",
            Reserved::If => "if",
            Reserved::Else => "else",
            Reserved::Not => "not",
            Reserved::And => "and",
            Reserved::Or => "or",
            Reserved::In => "in",
            Reserved::Contains => "contains",
            Reserved::StartsWith => "startsWith",
            Reserved::EndsWith => "endsWith",
            Reserved::Matches => "matches",
        }
    }
}

/// The reserved word with this spelling, or `None`.
pub fn reserved_of(word: &str) -> Option<Reserved>
    ensures { result ≡ reserved_of word.now }
{
    ALL.iter()
        .copied()
        .find(|reserved| reserved.spelling() == word)
}
