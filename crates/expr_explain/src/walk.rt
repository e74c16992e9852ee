//! Evaluation by recursion on the tree, which tells what parts give.
ghost use Rattle.std.specs.Prelude.{◌≡◌, ◌+◌, OnOk};
ghost use Rattle.expr_explain.specs.Standing.{InBlock, InBranches, InParts, InRight, InTree};
ghost use Rattle.expr_explain.specs.Telling.{TellsOf};
ghost use Rattle.expr_explain.specs.Walks.{walk_host, walk_names, walk_world};
ghost use Rattle.expr_meaning.specs.Allows.{Allows, AllowsBlock, BranchMayReturn, OperationMayReturn};
ghost use Rattle.expr_tree.specs.TermOf.{program_term, term_of};
ghost use Rattle.expr_tree.specs.Weight.{block_weight, weight};
ghost use Rattle.expr_value.specs.Answers.{Returns};

use crate::layer::{Layer, Layered, LineValue};
use crate::notes::{Notes, Wish, is_judging, is_refusal};
use crate::sides::{joined_sides, left_alone};
use expr_context::ContextProvider;
use expr_eval::Evaluation;
use expr_functions::operator::{Operator, UnaryOperator};
use expr_meaning::Functions;
use expr_operators::{prefix, unexpected_kind};
use expr_pattern::Pattern;
use expr_tree::node::{Node, Program};
use expr_value::{Result, Value};
use std::alloc::Global;

/// A walk over a program, with the additions of a host and the names of a provider.
#[derive(Drop)]
pub(crate) struct Walk<'w, H, P> {
    pub(crate) alloc: Global,
    pub(crate) host: &'w H,
    pub(crate) provider: &'w P,
}

impl<'w, H: Functions, P: ContextProvider> Walk<'w, H, P> {
    /// Evaluates a node, and tells it if that is wished. Tells the node in which the evaluation fails.
    #[cycle(walk)]
    fn visit<'a>(
        &self,
        node: &'a Node,
        layer: &Layer<'_>,
        wish: Wish,
        notes: &mut Notes<'a>,
    ) -> Result<Value>
        ensures answer { Returns result
            (Allows (walk_world H.host P.context self.now layer.now) (term_of node.now)) }
        ensures count { OnOk result (notes.new.count ≡ notes.old.count + weight (term_of node.now)) }
        ensures told { TellsOf (walk_host H.host P.context self.now)
            (InTree (walk_host H.host P.context self.now) (walk_names H.host P.context self.now layer.now)
            notes.old.count (term_of node.now))
            notes.old.parts.items notes.new.parts.items }
    {
        let before = notes.count;
        match self.look_into(node, layer, notes) {
            Ok(value) => {
                notes.step()?;
                notes.tell(wish, node, &value);
                Ok(value)
            }
            Err(error) => {
                if !is_refusal(&error) {
                    return Err(error);
                }
                notes.tell_failure(node, before);
                Err(error)
            }
        }
    }

    /// Evaluates a node, and tells the parts inside of it.
    #[cycle(walk)]
    fn look_into<'a>(
        &self,
        node: &'a Node,
        layer: &Layer<'_>,
        notes: &mut Notes<'a>,
    ) -> Result<Value>
        ensures answer { Returns result
            (Allows (walk_world H.host P.context self.now layer.now) (term_of node.now)) }
        ensures count { OnOk result (notes.new.count + 1 ≡ notes.old.count + weight (term_of node.now)) }
        ensures told { TellsOf (walk_host H.host P.context self.now)
            (InParts (walk_host H.host P.context self.now) (walk_names H.host P.context self.now layer.now)
            notes.old.count (term_of node.now))
            notes.old.parts.items notes.new.parts.items }
    {
        match node {
            Node::Unary { operator, node } => {
                let operand = self.visit(node, layer, wish_under(*operator), notes)?;
                prefix(self.alloc, *operator, &operand)
            }
            Node::Operation {
                operator,
                left,
                right,
                compiled_regex,
            } => {
                let wish = wish_beside(*operator);
                let first = self.visit(left, layer, wish, notes)?;
                let kept = compiled_regex.pattern();
                self.right_side(*operator, &first, right, kept, layer, notes)
            }
            Node::Conditional {
                condition,
                consequent,
                alternative,
            } => {
                let condition = self.visit(condition, layer, Wish::Part, notes)?;
                self.selected_program(&condition, consequent, alternative, layer, notes)
            }
            _ => {
                notes.skip_inside(node)?;
                self.whole(node, layer)
            }
        }
    }

    /// Evaluates a node, and tells nothing.
    fn whole(&self, node: &Node, layer: &Layer<'_>) -> Result<Value>
        ensures { Returns result
            (Allows (walk_world H.host P.context self.now layer.now) (term_of node.now)) }
    {
        let evaluation = Evaluation {
            alloc: self.alloc,
            host: self.host,
            provider: Layered {
                layer,
                provider: self.provider,
            },
        };
        evaluation.answer_node(node)
    }

    /// Applies an operator to this value on the left and a node on the right, unless the left side is enough.
    #[cycle(walk)]
    fn right_side<'a>(
        &self,
        operator: Operator,
        first: &Value,
        right: &'a Node,
        kept: Option<&Pattern>,
        layer: &Layer<'_>,
        notes: &mut Notes<'a>,
    ) -> Result<Value>
        ensures answer { Returns result (OperationMayReturn operator first.now
            (Allows (walk_world H.host P.context self.now layer.now) (term_of right.now))) }
        ensures count { OnOk result (notes.new.count ≡ notes.old.count + weight (term_of right.now)) }
        ensures told { TellsOf (walk_host H.host P.context self.now)
            (InRight (walk_host H.host P.context self.now) operator first.now
            (walk_names H.host P.context self.now layer.now) notes.old.count (term_of right.now))
            notes.old.parts.items notes.new.parts.items }
    {
        match left_alone(self.alloc, operator, first)? {
            Some(answer) => {
                notes.skip(right)?;
                Ok(answer)
            }
            None => {
                let second = self.visit(right, layer, wish_beside(operator), notes)?;
                joined_sides(self.alloc, operator, first, &second, kept)
            }
        }
    }

    /// The value of the program that a condition of this value selects.
    #[cycle(walk)]
    fn selected_program<'a>(
        &self,
        condition: &Value,
        consequent: &'a Program,
        alternative: &'a Program,
        layer: &Layer<'_>,
        notes: &mut Notes<'a>,
    ) -> Result<Value>
        ensures answer { Returns result (BranchMayReturn condition.now
            (AllowsBlock (walk_world H.host P.context self.now layer.now) (program_term consequent.now))
            (AllowsBlock (walk_world H.host P.context self.now layer.now) (program_term alternative.now))) }
        ensures count { OnOk result (notes.new.count ≡ notes.old.count
            + (block_weight (program_term consequent.now) + block_weight (program_term alternative.now))) }
        ensures told { TellsOf (walk_host H.host P.context self.now)
            (InBranches (walk_host H.host P.context self.now) condition.now
            (walk_names H.host P.context self.now layer.now) notes.old.count
            (program_term consequent.now) (program_term alternative.now))
            notes.old.parts.items notes.new.parts.items }
    {
        match condition {
            Value::Bool(true) => {
                let value = self.block(consequent, layer, Wish::Telling, notes)?;
                notes.skip_program(alternative)?;
                Ok(value)
            }
            Value::Bool(false) => {
                notes.skip_program(consequent)?;
                self.block(alternative, layer, Wish::Telling, notes)
            }
            other => Err(unexpected_kind(self.alloc, "a Bool", other)),
        }
    }

    /// Evaluates a program. Each of its lines binds a name for what follows, and is told.
    #[cycle(walk)]
    pub(crate) fn block<'a>(
        &self,
        program: &'a Program,
        layer: &Layer<'_>,
        wish: Wish,
        notes: &mut Notes<'a>,
    ) -> Result<Value>
        ensures answer { Returns result
            (AllowsBlock (walk_world H.host P.context self.now layer.now) (program_term program.now)) }
        ensures count { OnOk result (notes.new.count
            ≡ notes.old.count + block_weight (program_term program.now)) }
        ensures told { TellsOf (walk_host H.host P.context self.now)
            (InBlock (walk_host H.host P.context self.now) (walk_names H.host P.context self.now layer.now)
            notes.old.count (program_term program.now))
            notes.old.parts.items notes.new.parts.items }
    {
        let mut inner = Layer {
            lines: Vec::new(self.alloc),
            outer: Some(layer),
        };
        for (name, node) in &program.lines {
            let value = self.visit(node, &inner, Wish::Part, notes)?;
            inner.lines.push(LineValue { name, value })?;
        }
        self.visit(&program.expr, &inner, wish, notes)
    }
}

/// What is told of the operand of a prefix operator: any part under `not`.
fn wish_under(operator: UnaryOperator) -> Wish {
    match operator {
        UnaryOperator::Not => Wish::Part,
        UnaryOperator::Positive | UnaryOperator::Negative => Wish::Telling,
    }
}

/// What is told of the sides of an operator: any part of `and`, `or` and comparisons.
fn wish_beside(operator: Operator) -> Wish {
    if is_judging(operator) {
        Wish::Part
    } else {
        Wish::Telling
    }
}
