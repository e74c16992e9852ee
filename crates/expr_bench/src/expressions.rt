//! Rows of an expression and the names that it is evaluated among, and the ways from a text to a value.
use crate::answers::answer_of;
use crate::page::Page;
use crate::row::{Row, RowKind};
use expr::{Code, Context, OwnedCode, Program, Result, compile, eval, eval_expr, run};
use std::alloc::Global;

/// The names of a map that is written behind an expression, if one is.
fn names(alloc: Global, map: &str) -> Result<Context> {
    if map.is_empty() {
        return Ok(Context::new(alloc));
    }
    let map = eval(alloc, map, &Context::new(alloc))?;
    Context::try_from(alloc, map)
}

/// Puts what a row comes to: by `eval` alone, or by each way. Where its tree is one of them, that is counted.
pub fn put_row(alloc: Global, row: &Row, trees: &mut usize, page: &mut Page) {
    let text = row.text.as_str();
    match names(alloc, row.word.as_str()) {
        Ok(context) => {
            if let RowKind::Ways = row.kind {
                put_ways(alloc, text, &context, trees, page);
            } else {
                page.put_answer(eval(alloc, text, &context));
            }
        }
        Err(error) => page.put_error(error),
    }
}

/// Puts what a text comes to by its program and by that one's code, or that another way differs.
fn put_ways(alloc: Global, text: &str, context: &Context, trees: &mut usize, page: &mut Page) {
    match compile(alloc, text) {
        Ok(program) => put_program(alloc, &program, context, trees, page),
        Err(error) => page.put_error(error),
    }
    page.put_same(eval(alloc, text, context));
}

/// Puts what a program comes to by recursion on its tree, which is counted, or by `run` where it has lines; and compares that with
/// its code, kept without the program.
fn put_program(
    alloc: Global,
    program: &Program,
    context: &Context,
    trees: &mut usize,
    page: &mut Page,
) {
    if program.lines.is_empty() {
        *trees = trees.saturating_add(1);
        page.put_answer(eval_expr(alloc, context, &program.expr));
    } else {
        page.put_answer(run(alloc, program, context));
    }
    page.put_same(answer_of(alloc, context, kept(alloc, program)));
}

/// A program's code, kept without it.
fn kept(alloc: Global, program: &Program) -> Result<OwnedCode> {
    Code::lower(alloc, program)?.keep(alloc)
}
