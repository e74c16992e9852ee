//! `eval`: evaluates an expression, or a single node, operator or call.
#![tactic(auto)]

mod alone;
mod evaluation;
mod nodes;
mod scope;
mod text;

pub use alone::{eval_expr, eval_func, eval_operator, eval_postfix_operator, eval_unary_operator};
pub use evaluation::Evaluation;
pub use text::{eval, evaluate_text};
