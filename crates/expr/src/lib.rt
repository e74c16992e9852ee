//! The public interface of the expression language: expressions in, values or errors out.
#![tactic(auto)]

mod boxed_function;
mod environment;
pub mod laws;
mod limited;
mod macros;
mod parser;

pub use boxed_function::Function;
pub use environment::Environment;
pub use expr_context::{Context, ContextProvider};
pub use expr_eval::{
    eval, eval_expr, eval_func, eval_operator, eval_postfix_operator, eval_unary_operator,
};
pub use expr_functions::operator::{Operator, UnaryOperator};
pub use expr_limits::{Limit, Limits, Outcome};
pub use expr_lowering::{Block, Code, Instruction, OwnedCode, Pointer, PredicateCall};
pub use expr_machine::{LimitedRun, ReusableMachine, execute, run};
pub use expr_meaning::ExprCall;
pub use expr_predicates::Predicate;
pub use expr_syntax::{
    LineColumn, Place, PlacedProgram, compile, compile_limited, compile_with_places,
    compile_within, line_column_of,
};
pub use expr_text::{node_to_code, to_code};
pub use expr_tree::node::{CompiledRegex, Node, Pattern, PostfixOperator, Program, Unbuilt};
#[doc(hidden)]
pub use expr_value::assembly;
pub use expr_value::{
    DateTimeValue, Error, Items, Key, KeyedMap, Result, Text, TimezoneValue, Value, ValueMap,
};
pub use limited::{eval_limited, execute_limited, execute_used};
pub use parser::Parser;
