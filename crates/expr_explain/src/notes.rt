//! What is told of the parts of a program.
ghost use Rattle.std.specs.Prelude.{◌≡◌, ◌≢◌, ◌+◌, [], IsTrue, OnOk};
ghost use Rattle.expr_error.specs.ErrorKind.{OnlyMemory, error_kind, memory};
ghost use Rattle.expr_explain.specs.Noting.{AddsOne};
ghost use Rattle.expr_tree.specs.TermOf.{program_term, term_of};
ghost use Rattle.expr_tree.specs.Weight.{block_weight, weight};

use crate::count::{count_inside, count_nodes, count_program_nodes, one_more};
use expr_functions::operator::{Operator, UnaryOperator};
use expr_tree::node::{Node, PostfixOperator, Program};
use expr_value::{Error, Result, Value};
use std::alloc::Global;

/// What a part gave.
#[derive(Drop)]
pub enum PartFinding {
    /// Its value.
    Value(Value),
    /// The evaluation ended in this part, with the error that is the answer.
    Failed,
}

/// A part of a program, and what it gave.
#[derive(Drop)]
pub struct Told<'a> {
    pub node: &'a Node,
    /// The number of the node among those of the program, from 0: children before their parents, from left to right.
    pub number: usize,
    pub finding: PartFinding,
}

/// Whether a node is told where it stands.
#[derive(Clone, Copy)]
pub(crate) enum Wish {
    /// If it says something by itself: a name, a part of a value, a comparison, `and`, `or` or `not`.
    Telling,
    /// Unless it is made of literals.
    Part,
}

impl Wish {
    fn wants(self, node: &Node) -> bool {
        match self {
            Wish::Telling => is_telling(node),
            Wish::Part => !is_constant(node),
        }
    }
}

/// Whether a node is a name, a part of a value, a comparison, `and`, `or` or `not`.
fn is_telling(node: &Node) -> bool {
    match node {
        Node::Unary { operator, node: _ } => matches!(operator, UnaryOperator::Not),
        Node::Operation {
            operator,
            left: _,
            right: _,
            compiled_regex: _,
        } => is_judging(*operator),
        Node::Ident(_) => true,
        Node::Postfix { operator, node: _ } => matches!(operator, PostfixOperator::Index { .. }),
        _ => false,
    }
}

/// Whether a node is a literal, or an array, a range, a sign or `not` of literals.
fn is_constant(node: &Node) -> bool {
    match node {
        Node::Array(items) => items.iter().all(|item| is_literal_node(item)),
        Node::Range(first, last) => is_literal_node(first) && is_literal_node(last),
        Node::Unary { operator: _, node } => is_literal_node(node),
        _ => is_literal_node(node),
    }
}

fn is_literal_node(node: &Node) -> bool {
    matches!(node, Node::Value(_))
}

/// Whether an operator is `and`, `or` or a comparison.
pub(crate) fn is_judging(operator: Operator) -> bool {
    !matches!(
        operator,
        Operator::Add
            | Operator::Subtract
            | Operator::Multiply
            | Operator::Divide
            | Operator::Modulo
            | Operator::Pow
    )
}

/// Whether an error is more than a lack of memory.
pub(crate) fn is_refusal(error: &Error) -> bool
    ensures { IsTrue result → error_kind error.now ≢ memory }
{
    match error {
        Error::PestError(_) => true,
        Error::ParseError(_) => true,
        Error::ExprError(_) => true,
        Error::RegexError(_) => true,
        Error::MemoryError => false,
    }
}

/// The parts that were told so far.
#[derive(Drop)]
pub(crate) struct Notes<'a> {
    pub(crate) parts: Vec<Told<'a>>,
    /// How many nodes of the program have ended.
    pub(crate) count: usize,
    /// Whether parts were left out.
    pub(crate) is_cut: bool,
    /// The most parts that are told.
    most: usize,
    /// Whether the part that failed was told.
    has_failed: bool,
}

impl<'a> Notes<'a> {
    /// Nothing is told yet.
    pub(crate) fn without_parts(alloc: Global, most: usize) -> Notes<'a>
        ensures parts { result.parts.items ≡ [] }
        ensures count { result.count ≡ 0 }
    {
        Notes {
            parts: Vec::new(alloc),
            count: 0,
            is_cut: false,
            most,
            has_failed: false,
        }
    }

    /// One node more has ended.
    pub(crate) fn step(&mut self) -> Result<()>
        ensures count { OnOk result (self.new.count ≡ self.old.count + 1) }
        ensures parts { self.new.parts.items ≡ self.old.parts.items }
        ensures err { OnlyMemory result }
    {
        self.count = one_more(self.count)?;
        Ok(())
    }

    /// A node isn't evaluated: it has ended with all inside of it.
    pub(crate) fn skip(&mut self, node: &Node) -> Result<()>
        ensures count { OnOk result (self.new.count ≡ self.old.count + weight (term_of node.now)) }
        ensures parts { self.new.parts.items ≡ self.old.parts.items }
        ensures err { OnlyMemory result }
    {
        self.count = count_nodes(node, self.count)?;
        Ok(())
    }

    /// A node is evaluated whole: all inside of it has ended.
    pub(crate) fn skip_inside(&mut self, node: &Node) -> Result<()>
        ensures count { OnOk result (self.new.count + 1 ≡ self.old.count + weight (term_of node.now)) }
        ensures parts { self.new.parts.items ≡ self.old.parts.items }
        ensures err { OnlyMemory result }
    {
        self.count = count_inside(node, self.count)?;
        Ok(())
    }

    /// A program isn't evaluated.
    pub(crate) fn skip_program(&mut self, program: &Program) -> Result<()>
        ensures count { OnOk result (self.new.count
            ≡ self.old.count + block_weight (program_term program.now)) }
        ensures parts { self.new.parts.items ≡ self.old.parts.items }
        ensures err { OnlyMemory result }
    {
        self.count = count_program_nodes(program, self.count)?;
        Ok(())
    }

    /// Tells the value of the node that has just ended, if it is wished. The part is left out if there is no room or no
    /// memory for it.
    pub(crate) fn tell(&mut self, wish: Wish, node: &'a Node, value: &Value)
        ensures told { AddsOne self.old.parts.items self.new.parts.items (term_of node.now) self.old.count
            (PartFinding.Value value.now) }
        ensures count { self.new.count ≡ self.old.count }
    {
        if !wish.wants(node) {
            return;
        }
        let end = self.count;
        match value.clone() {
            Ok(value) => self.add(node, end, PartFinding::Value(value)),
            Err(_) => self.is_cut = true,
        }
    }

    /// Tells the node in which the evaluation fails, if none was told yet. So many nodes had ended before it.
    pub(crate) fn tell_failure(&mut self, node: &'a Node, before: usize)
        ensures told { AddsOne self.old.parts.items self.new.parts.items (term_of node.now)
            (before + weight (term_of node.now)) PartFinding.Failed }
    {
        if self.has_failed {
            return;
        }
        self.has_failed = true;
        match count_nodes(node, before) {
            Ok(end) => self.add(node, end, PartFinding::Failed),
            Err(_) => self.is_cut = true,
        }
    }

    /// Adds a part, if there is room and memory for it. So many nodes have ended with it.
    fn add(&mut self, node: &'a Node, end: usize, finding: PartFinding)
        ensures told { AddsOne self.old.parts.items self.new.parts.items (term_of node.now) end finding }
        ensures count { self.new.count ≡ self.old.count }
    {
        let Some(number) = end.checked_sub(1) else {
            return;
        };
        if self.parts.len() >= self.most {
            self.is_cut = true;
            return;
        }
        let told = Told {
            node,
            number,
            finding,
        };
        if self.parts.push(told).is_err() {
            self.is_cut = true;
        }
    }
}
