//! The older interface: a parser that holds an environment.
ghost use Rattle.std.specs.Prelude.{◌≡◌, None, OnErr, OnOk};
ghost use Rattle.expr.specs.Hosted.{FindSame, FindsNothing, IsAdded, host_of, moment_set, function_named, zone_at};
ghost use Rattle.expr.specs.Parsers.{environment_of};
ghost use Rattle.expr_meaning.specs.World.{world_of};
ghost use Rattle.expr_syntax.specs.Promises.{CompilesText};
ghost use Rattle.expr_error.specs.ErrorKind.{OnlyMemory};
ghost use Rattle.expr_value.specs.declared.value.Value.{Value};
ghost use Rattle.expr_machine.specs.Promises.{RunsProgram};
ghost use Rattle.expr_eval.specs.Promises.{AnswersText};
ghost use Rattle.expr_eval.specs.NodePromises.{AnswersNode};

use crate::boxed_function::Function;
use crate::environment::Environment;
use expr_context::ContextProvider;
use expr_tree::node::{Node, Program};
use expr_value::{Result, Value};
use std::alloc::Global;

/// An environment with a `compile` function.
#[deprecated(note = "take `Environment`, and `compile` for texts")]
#[derive(Drop)]
pub struct Parser {
    environment: Environment,
}

impl Parser {
    /// Creates a parser that adds nothing. It allocates no memory.
    pub fn new(alloc: Global) -> Parser
        ensures functions { FindsNothing (function_named (environment_of result)) }
        ensures zones { FindsNothing (zone_at (environment_of result)) }
        ensures moment { moment_set (environment_of result) ≡ None }
    {
        Parser {
            environment: Environment::new(alloc),
        }
    }

    /// Adds a function. It replaces an earlier function or a built-in of this name. On an error the parser
    /// stays as it was.
    ///
    /// # Errors
    ///
    /// Returns `MemoryError` if an allocation fails.
    pub fn add_function(&mut self, name: &str, function: Function) -> Result<()>
        requires { Function.IsAlwaysCallable function }
        ensures added { OnOk result (IsAdded (λ r. r.function) name.now function
            (function_named (environment_of self.old)) (function_named (environment_of self.new))) }
        ensures err { OnErr result (FindSame (function_named (environment_of self.old))
            (function_named (environment_of self.new))) }
        ensures zones { FindSame (zone_at (environment_of self.old)) (zone_at (environment_of self.new)) }
        ensures moment { moment_set (environment_of self.new) ≡ moment_set (environment_of self.old) }
        ensures refusal { OnlyMemory result }
    {
        self.environment.add_function(name, function)
    }

    /// Compiles an expression, as [`compile`](expr_syntax::compile) does.
    ///
    /// # Errors
    ///
    /// Returns the errors of `compile`.
    pub fn compile(&self, alloc: Global, code: &str) -> Result<Program>
        ensures { CompilesText code.now result }
    {
        expr_syntax::compile(alloc, code)
    }

    /// Runs a program in a context, as [`Environment::run`] does.
    ///
    /// # Errors
    ///
    /// Returns the errors of [`Environment::run`].
    pub fn run(&self, alloc: Global, program: &Program, ctx: &dyn ContextProvider) -> Result<Value>
        ensures { RunsProgram (world_of (host_of (environment_of self.now)) (context ctx.now)) program.now
            result }
    {
        self.environment.run(alloc, program, ctx)
    }

    /// Evaluates an expression in a context, as [`Environment::eval`] does.
    ///
    /// # Errors
    ///
    /// Returns the errors of [`Environment::eval`].
    pub fn eval(&self, alloc: Global, code: &str, ctx: &dyn ContextProvider) -> Result<Value>
        ensures { AnswersText (world_of (host_of (environment_of self.now)) (context ctx.now)) code.now
            result }
    {
        self.environment.eval(alloc, code, ctx)
    }

    /// Evaluates a node in a context, as [`Environment::eval_expr`] does.
    ///
    /// # Errors
    ///
    /// Returns the errors of [`Environment::eval_expr`].
    pub fn eval_expr(&self, alloc: Global, ctx: &dyn ContextProvider, node: &Node) -> Result<Value>
        ensures { AnswersNode (world_of (host_of (environment_of self.now)) (context ctx.now)) node.now
            result }
    {
        self.environment.eval_expr(alloc, ctx, node)
    }
}
