//! What the parser keeps of what it has read. Frames and states are moved at each token, so the parts that only wait
//! are boxed.
//!
//! A type here has the name of what it models in the token machine of the grammar (`OperandStart`, `Holder`, `Caller`,
//! `Branches`, `Section`, `Frame`), with annotated nodes in place of trees. The same holds of `Arguments`, `Entries`
//! and `Lines`.

use crate::annotated_node::AnnotatedNode;
use crate::arguments::Arguments;
use crate::entries::Entries;
use crate::program::{AnnotatedProgram, Lines};
use expr_functions::operator::Operator;
use expr_tokens::Token;
use expr_tokens::operator_sign::{InfixSign, PrefixSign};
use expr_value::{Boxed, Items, Text, Value};

/// The branches of a condition before its last one.
pub type Branches = Items<(AnnotatedNode, AnnotatedProgram)>;

/// What a list is for.
#[derive(Drop)]
pub enum Holder {
    Array,
    Method(Boxed<AnnotatedNode>, Text),
}

/// What arguments are for.
#[derive(Drop)]
pub enum Caller {
    Function(Text),
    Pipe(Boxed<AnnotatedNode>, Text),
}

/// What a program is for.
#[derive(Drop)]
pub enum Section {
    Top,
    Then(Branches, Boxed<AnnotatedNode>),
    Last(Branches, Boxed<AnnotatedNode>, Boxed<AnnotatedProgram>),
    Predicate,
}

/// What waits for its last part, which an operator may end.
#[derive(Drop)]
pub enum Reaching {
    Under(PrefixSign),
    After(AnnotatedNode, InfixSign),
    Otherwise(AnnotatedNode, AnnotatedNode),
}

/// What is open to the left of the current token.
#[derive(Drop)]
pub enum Frame {
    Reaching(Reaching),
    /// Brackets, each directly inside the one before. The number is how many there are besides the first.
    Inside(usize),
    Middle(AnnotatedNode),
    List(Holder, Arguments),
    Call(Caller, Arguments),
    Index(AnnotatedNode, bool),
    Cut(AnnotatedNode, Option<AnnotatedNode>),
    Condition(Branches),
    Body(Section, Lines),
    Value(Text),
    Entry(Entries, Text),
}

/// An operand, as far as arguments may follow it.
#[derive(Drop)]
pub enum OpenOperand {
    Name(Text),
    Member(AnnotatedNode, Text),
    Whole(AnnotatedNode),
}

/// What has been read since the last frame.
#[derive(Drop)]
pub enum ParseState {
    Want,
    Have(OpenOperand),
    Dotted(AnnotatedNode),
    Questioned(AnnotatedNode),
    Negated(AnnotatedNode),
    Barred(AnnotatedNode),
    Piped(AnnotatedNode, Text),
    Chosen(Branches, Boxed<AnnotatedNode>, Boxed<AnnotatedProgram>),
    Alternate(Branches, Boxed<AnnotatedNode>, Boxed<AnnotatedProgram>),
    NamesLine,
    Named(Text),
    Argued(AnnotatedProgram),
    NamesField,
    Braced,
    BracedKey(Token),
    Keys(Entries),
    Colons(Entries, Text),
}

/// What a token is at the beginning of an operand.
#[derive(Drop)]
pub enum OperandStart {
    Literal(Value),
    Name(Text),
    HashName(Text),
    Sign(PrefixSign),
    Group,
    List,
    Brace,
    Field,
    Choice,
    Line,
    Other(Token),
}

/// Why a token could not be read.
#[derive(Clone, Copy, Debug, PartialEq, Eq)]
pub enum ReadError {
    Syntax,
    Memory,
}

/// What an infix operator makes of its operands.
#[derive(Clone, Copy, PartialEq, Eq, Debug)]
pub enum Meaning {
    Operator(Operator),
    Range,
    Default,
}
