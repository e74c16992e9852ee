//! The signs in which operators are written, and what they capture.
ghost use Rattle.std.specs.Prelude.{◌≡◌, ◌++◌, codes};
ghost use Rattle.expr_text.specs.Layout.{infix_pieces, prefix_pieces};
ghost use Rattle.expr_text.specs.Trees as trees;
ghost use Rattle.expr_tokens.specs.Reading.{pieces_text};

use expr_functions::operator::{Operator, UnaryOperator};
use expr_tokens::operator_sign::{InfixSign, PrefixSign};

/// The sign of an operator: `and` and `or` are words, and a power is `^`.
pub(crate) fn infix_of(operator: Operator) -> InfixSign
    ensures { result ≡ trees.infix_of operator }
{
    match operator {
        Operator::Add => InfixSign::Add,
        Operator::Subtract => InfixSign::Subtract,
        Operator::Multiply => InfixSign::Multiply,
        Operator::Divide => InfixSign::Divide,
        Operator::Modulo => InfixSign::Modulo,
        Operator::Pow => InfixSign::Caret,
        Operator::Equal => InfixSign::Equal,
        Operator::NotEqual => InfixSign::NotEqual,
        Operator::GreaterThan => InfixSign::Greater,
        Operator::GreaterThanOrEqual => InfixSign::GreaterEqual,
        Operator::LessThan => InfixSign::Less,
        Operator::LessThanOrEqual => InfixSign::LessEqual,
        Operator::And => InfixSign::And,
        Operator::Or => InfixSign::Or,
        Operator::In => InfixSign::In,
        Operator::NotIn => InfixSign::NotIn,
        Operator::Contains => InfixSign::Contains,
        Operator::StartsWith => InfixSign::StartsWith,
        Operator::EndsWith => InfixSign::EndsWith,
        Operator::Matches => InfixSign::Matches,
    }
}

/// The sign of an operator before its operand: `not` is a word.
pub(crate) fn prefix_of(operator: UnaryOperator) -> PrefixSign
    ensures { result ≡ trees.prefix_of operator }
{
    match operator {
        UnaryOperator::Not => PrefixSign::Not,
        UnaryOperator::Positive => PrefixSign::Positive,
        UnaryOperator::Negative => PrefixSign::Negative,
    }
}

/// The level above which an operator captures what follows.
pub(crate) fn infix_catch(sign: InfixSign) -> u8
    ensures { result ≡ trees.infix_catch sign }
{
    match sign {
        InfixSign::Caret | InfixSign::StarStar => 10,
        _ => sign.level(),
    }
}

/// The level above which an operator before its operand captures what follows.
pub(crate) fn prefix_catch(sign: PrefixSign) -> u8
    ensures { result ≡ trees.prefix_catch sign }
{
    match sign {
        PrefixSign::Not | PrefixSign::Bang => 7,
        PrefixSign::Positive | PrefixSign::Negative => 9,
    }
}

/// An operator with a blank on either side.
pub(crate) fn infix_text(sign: InfixSign) -> &'static str
    ensures { result.now ≡ codes " " ++ (pieces_text (infix_pieces sign) ++ codes " ") }
{
    match sign {
        InfixSign::Or => " or ",
        InfixSign::BarBar => " || ",
        InfixSign::And => " and ",
        InfixSign::AndAnd => " && ",
        InfixSign::Equal => " == ",
        InfixSign::NotEqual => " != ",
        InfixSign::Less => " < ",
        InfixSign::LessEqual => " <= ",
        InfixSign::Greater => " > ",
        InfixSign::GreaterEqual => " >= ",
        InfixSign::In => " in ",
        InfixSign::NotIn => " not in ",
        InfixSign::Contains => " contains ",
        InfixSign::StartsWith => " startsWith ",
        InfixSign::EndsWith => " endsWith ",
        InfixSign::Matches => " matches ",
        InfixSign::Range => " .. ",
        InfixSign::Add => " + ",
        InfixSign::Subtract => " - ",
        InfixSign::Multiply => " * ",
        InfixSign::Divide => " / ",
        InfixSign::Modulo => " % ",
        InfixSign::Caret => " ^ ",
        InfixSign::StarStar => " ** ",
        InfixSign::Coalesce => " ?? ",
    }
}

/// An operator before its operand. A blank follows `not` and `!`.
pub(crate) fn prefix_text(sign: PrefixSign) -> &'static str
    ensures { result.now ≡ pieces_text (prefix_pieces sign) }
{
    match sign {
        PrefixSign::Not => "not ",
        PrefixSign::Bang => "! ",
        PrefixSign::Positive => "+",
        PrefixSign::Negative => "-",
    }
}
