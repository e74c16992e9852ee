//! Each public call on texts, programs, nodes, code, environments and parsers that no other program of the gate makes, by its name
//! and with memory to spare. `bin/called` holds what this and the other modules print to the sources.
use crate::answers::answer_of;
use crate::page::Page;
use expr::{
    Code, Context, Environment, ExprCall, Limits, Node, Parser, Pattern, Program, Result,
    ReusableMachine, Value, eval, eval_expr, eval_func, eval_limited, eval_operator,
    eval_postfix_operator, eval_unary_operator, execute, execute_limited, execute_used,
};
use std::alloc::Global;

/// Puts the calls for a node of its kind, free and of an environment, with a pattern handed in.
pub fn put_node(
    alloc: Global,
    host: &Environment,
    context: &Context,
    node: &Node,
    pattern: Option<&Pattern>,
    page: &mut Page,
) {
    match node {
        Node::Operation {
            operator,
            left,
            right,
            ..
        } => {
            let answer = eval_operator(alloc, context, operator, left, right, pattern);
            page.put_call("eval_operator", answer);
            let answer = host.eval_operator(alloc, context, operator, left, right, pattern);
            page.put_call("Environment::eval_operator", answer);
        }
        Node::Unary { operator, node } => {
            let answer = eval_unary_operator(alloc, context, operator, node);
            page.put_call("eval_unary_operator", answer);
            let answer = host.eval_unary_operator(alloc, context, operator, node);
            page.put_call("Environment::eval_unary_operator", answer);
        }
        Node::Postfix { operator, node } => {
            let answer = eval_postfix_operator(alloc, context, operator, node);
            page.put_call("eval_postfix_operator", answer);
            match operator.clone() {
                Ok(copy) => {
                    let answer = host.eval_postfix_operator(alloc, context, &copy, node);
                    page.put_call(
                        "PostfixOperator::clone: Environment::eval_postfix_operator",
                        answer,
                    );
                }
                Err(_) => page.miss(),
            }
        }
        Node::Func {
            ident,
            args,
            predicate,
        } => {
            let asked: Option<&Program> = match predicate {
                Some(program) => Some(program),
                None => None,
            };
            let answer = answer_by_name(alloc, None, context, ident, args, asked);
            page.put_call("eval_func", answer);
            let answer = answer_by_name(alloc, Some(host), context, ident, args, asked);
            page.put_call("Environment::eval_func", answer);
        }
        _ => page.put("!!no call for such a node"),
    }
}

/// What a call of a name on what arguments come to has for an answer, free or of an environment.
fn answer_by_name(
    alloc: Global,
    host: Option<&Environment>,
    context: &Context,
    name: &str,
    args: &[Node],
    asked: Option<&Program>,
) -> Result<Value> {
    let mut values = Vec::new(alloc);
    for node in args {
        values.push(eval_expr(alloc, context, node)?)?;
    }
    match host {
        Some(host) => host.eval_func(alloc, context, name, values, asked),
        None => eval_func(alloc, context, name, values, asked),
    }
}

/// Puts the calls for a text and its program, free, of an environment and of a parser.
pub fn put_text(
    alloc: Global,
    host: &Environment,
    context: &Context,
    text: &str,
    program: &Program,
    page: &mut Page,
) {
    put_parser(alloc, context, text, program, page);
    page.put_call("eval", eval(alloc, text, context));
    let answer = host.eval(alloc, text, context);
    page.put_call(
        "Environment::new: Environment::add_function: Environment::add_timezone: Environment::eval",
        answer,
    );
    let limits = Limits::untrusted();
    let outcome = eval_limited(alloc, text, context, &limits);
    page.put_limited("eval_limited", outcome);
    let outcome = host.eval_limited(alloc, text, context, &limits);
    page.put_limited("Environment::eval_limited", outcome);
    page.put_call("Environment::run", host.run(alloc, program, context));
    let answer = host.eval_expr(alloc, context, &program.expr);
    page.put_call("Environment::eval_expr", answer);
    match again(alloc, program) {
        Ok(code) => put_code(alloc, host, context, &code, page),
        Err(error) => page.put_error(error),
    }
}

/// Puts the calls of a parser that counts the arguments of `n`.
fn put_parser(alloc: Global, context: &Context, text: &str, program: &Program, page: &mut Page) {
    let mut parser = Parser::new(alloc);
    match Box::new(alloc, |call: ExprCall| Ok(Value::from(call.args.len()))) {
        Ok(function) => page.note(parser.add_function("n", function)),
        Err(_) => page.miss(),
    }
    let answer = parser.eval(alloc, text, context);
    page.put_call("Parser::new: Parser::add_function: Parser::eval", answer);
    let answer = answer_of(alloc, context, parser.compile(alloc, text));
    page.put_call("Parser::compile", answer);
    page.put_call("Parser::run", parser.run(alloc, program, context));
    let answer = parser.eval_expr(alloc, context, &program.expr);
    page.put_call("Parser::eval_expr", answer);
}

/// A program's code, taken apart and put together again.
fn again(alloc: Global, program: &Program) -> Result<Code<&Value, &String, &Pattern>> {
    let once = Code::lower_once(alloc, program)?;
    Code::from_blocks(alloc, once.first, once.later)
}

/// Puts the calls on code, and those of a machine, which is used again.
fn put_code(
    alloc: Global,
    host: &Environment,
    context: &Context,
    code: &Code<&Value, &String, &Pattern>,
    page: &mut Page,
) {
    let answer = execute(alloc, code, context);
    page.put_call("Code::lower_once: Code::from_blocks: execute", answer);
    page.put_call("Environment::execute", host.execute(alloc, code, context));
    let limits = Limits::untrusted();
    let outcome = execute_limited(alloc, code, context, &limits);
    page.put_limited("execute_limited", outcome);
    let outcome = host.execute_limited(alloc, code, context, &limits);
    page.put_limited("Environment::execute_limited", outcome);
    let used = execute_used(alloc, code, context, &limits);
    page.put_limited("execute_used", used.outcome);
    let used = host.execute_used(alloc, code, context, &limits);
    page.put_limited("Environment::execute_used", used.outcome);
    let mut machine = ReusableMachine::new(alloc, code);
    page.put_call("ReusableMachine::new", machine.execute(host, context));
    page.put_call("ReusableMachine::execute", machine.execute(host, context));
    let outcome = machine.execute_limited(host, context, &limits);
    page.put_limited("ReusableMachine::execute_limited", outcome);
    let used = machine.execute_used(host, context, &limits);
    page.put_limited("ReusableMachine::execute_used", used.outcome);
}
