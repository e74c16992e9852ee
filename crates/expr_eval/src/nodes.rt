//! Single nodes, operators and calls, where only the context binds names.
ghost use Rattle.std.specs.Prelude.{true};
ghost use Rattle.std.specs.Option.{option_copied};
ghost use Rattle.expr_meaning.specs.Allows.{AllowsCall, AllowsPredicate};
ghost use Rattle.expr_eval.specs.Here.{outermost};
ghost use Rattle.expr_eval.specs.Handed.{predicate_lent};
ghost use Rattle.expr_eval.specs.NodePromises.{AnswersCall, AnswersNode, AnswersOperation, AnswersPostfix, AnswersTerm};
ghost use Rattle.expr_tree.specs.Term.{no_predicate, predicate, unary};
ghost use Rattle.expr_tree.specs.TermOf.{postfix_term, program_term, term_of};
ghost use Rattle.expr_value.specs.Answers.{Returns};

use crate::evaluation::Evaluation;
use crate::scope::Scope;
use expr_arguments::cows_of_values;
use expr_context::ContextProvider;
use expr_functions::operator::{Operator, UnaryOperator};
use expr_meaning::{Functions, call_added, call_alone};
use expr_operators::prefix;
use expr_pattern::Pattern;
use expr_tree::node::{Node, PostfixOperator, Program};
use expr_value::{Result, Value};

impl<'a, H: Functions, P: ContextProvider> Evaluation<'a, H, P> {
    /// Evaluates a node. An operation uses its compiled pattern.
    ///
    /// # Errors
    ///
    /// Returns the first error in the order of evaluation, as [`eval_expr`](crate::eval_expr) does.
    pub fn answer_node<'s>(&'s self, node: &'s Node) -> Result<Value>
        ensures { AnswersNode (outermost H.host P.context self.now) node.now result }
    {
        match node {
            Node::Operation {
                operator,
                left,
                right,
                compiled_regex,
            } => (&*self).answer_operation(*operator, &*left, &*right, compiled_regex.pattern()),
            _ => (&*self).answer_term(&*node),
        }
    }

    /// Evaluates a node, whatever pattern it has compiled.
    fn answer_term<'s>(&'s self, node: &'s Node) -> Result<Value>
        ensures { AnswersTerm (outermost H.host P.context self.now) (term_of node.now) result }
    {
        let scope: Scope<'s> = Scope::outermost(self.alloc);
        let held = (&*self).evaluate(&*node, &scope)?;
        held.into_value()
    }

    /// Evaluates an operator between two nodes. For `matches`, a compiled pattern of the string on the right
    /// is used.
    ///
    /// # Errors
    ///
    /// Returns the first error in the order of evaluation, as [`eval_operator`](crate::eval_operator) does.
    pub fn answer_operation<'s>(
        &'s self,
        operator: Operator,
        left: &'s Node,
        right: &'s Node,
        kept: Option<&Pattern>,
    ) -> Result<Value>
        ensures { AnswersOperation (outermost H.host P.context self.now) operator left.now right.now
            (option_copied kept.entry) result }
    {
        let scope: Scope<'s> = Scope::outermost(self.alloc);
        let first = (&*self).evaluate(&*left, &scope)?;
        (&*self).operate(&*right, &scope, operator, first.get(), kept)
    }

    /// Evaluates a prefix operator on a node.
    ///
    /// # Errors
    ///
    /// Returns the first error in the order of evaluation: `ExprError`, or `MemoryError` if an allocation
    /// fails.
    pub fn answer_prefix(&self, operator: UnaryOperator, node: &Node) -> Result<Value>
        ensures { AnswersTerm (outermost H.host P.context self.now) (unary operator (term_of node.now))
            result }
    {
        let value = self.answer_node(node)?;
        prefix(self.alloc, operator, &value)
    }

    /// Evaluates a postfix operator on a node.
    ///
    /// # Errors
    ///
    /// Returns the first error in the order of evaluation: `ExprError`, or `MemoryError` if an allocation
    /// fails.
    pub fn answer_behind<'s>(
        &'s self,
        operator: &'s PostfixOperator,
        node: &'s Node,
    ) -> Result<Value>
        ensures { AnswersPostfix (outermost H.host P.context self.now) (postfix_term operator.now)
            (term_of node.now) result }
    {
        let scope: Scope<'s> = Scope::outermost(self.alloc);
        let value = (&*self).evaluate(&*node, &scope)?;
        let answer = (&*self).follow(&*operator, &scope, value)?;
        answer.into_value()
    }

    /// Calls a function by name on these values. The host's function of this name comes before the built-in.
    /// A program that is passed is the predicate of a built-in.
    ///
    /// # Errors
    ///
    /// Returns `ExprError` if no function has this name or if it fails, the errors of the host's function,
    /// and `MemoryError` if an allocation fails.
    pub fn answer_named<'s>(
        &'s self,
        ident: &str,
        args: Vec<Value>,
        predicate: Option<&'s Program>,
    ) -> Result<Value>
        ensures { AnswersCall (outermost H.host P.context self.now) ident.now args.items
            (predicate_lent predicate.entry) result }
    {
        if self.host.has(ident) {
            return call_added(self.alloc, self.host, ident, args);
        }
        match predicate {
            None => (&*self).answer_built_in(ident, args),
            Some(program) => (&*self).answer_call(&*program, ident, args),
        }
    }

    /// Calls a built-in by name on these values, without a predicate. The host has no function of this name.
    fn answer_built_in(&self, ident: &str, args: Vec<Value>) -> Result<Value>
        ensures { AnswersCall (outermost H.host P.context self.now) ident.now args.items no_predicate
            result }
    {
        let args = cows_of_values(self.alloc, args)?;
        call_alone(self.alloc, self.host, ident, args)?.into_value()
    }

    /// Calls a function on these values, with a predicate.
    fn answer_call<'s>(
        &'s self,
        program: &'s Program,
        ident: &str,
        args: Vec<Value>,
    ) -> Result<Value>
        ensures { Returns result (AllowsCall (H.host self.now.host.now) ident.now args.items true
            (AllowsPredicate (outermost H.host P.context self.now)
            (predicate (program_term program.now)))) }
    {
        let args = cows_of_values(self.alloc, args)?;
        let scope: Scope<'s> = Scope::outermost(self.alloc);
        (&*self).call_with(&*program, &scope, ident, args)
    }
}
