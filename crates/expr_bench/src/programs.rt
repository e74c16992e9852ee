//! Programs of texts.
use crate::page::Page;
use crate::row::{Row, RowKind};
use expr::{
    Context, Error, Node, Program, compile, compile_with_places, compile_within, eval_expr,
    node_to_code, run, to_code,
};
use std::alloc::Global;

/// Puts what a text's program shows, within the height behind the text if one is there; or the place of its fault.
pub fn put_text(alloc: Global, row: &Row, page: &mut Page) {
    let text = row.text.as_str();
    let made = match row.word.parse::<usize>() {
        Ok(height) => compile_within(alloc, text, height),
        Err(_) => compile(alloc, text),
    };
    match made {
        Ok(program) => put_program(alloc, row.kind, &program, page),
        Err(Error::PestError(place)) => {
            page.put("syntax fault at ");
            page.put_shown(&place);
        }
        Err(other) => page.put_error(other),
    }
}

/// Puts a program as a text in the normal form; its pattern, and that of a copy; or which calls take memory: running `1 + 2` may, and
/// evaluating its node doesn't.
fn put_program(alloc: Global, kind: RowKind, program: &Program, page: &mut Page) {
    match kind {
        RowKind::Pattern => put_patterns(alloc, program, page),
        RowKind::Plain => {
            let context = Context::new(alloc);
            page.put_said("compile: run", run(alloc, program, &context));
            page.put_said("eval_expr", eval_expr(alloc, &context, &program.expr));
        }
        _ => page.put_answer(to_code(alloc, program)),
    }
}

/// Puts the pattern that is built of a program's text. A copy has none, and comes to the same.
fn put_patterns(alloc: Global, program: &Program, page: &mut Page) {
    put_pattern(inner(&program.expr), page);
    match program.clone() {
        Ok(copy) => {
            page.put(", in a copy ");
            put_pattern(inner(&copy.expr), page);
            let answer = run(alloc, &copy, &Context::new(alloc));
            page.put_call("Program::clone: Node::clone", answer);
        }
        Err(_) => page.miss(),
    }
}

/// The node of a call's predicate, or the node itself.
fn inner(node: &Node) -> &Node {
    match node {
        Node::Func {
            predicate: Some(program),
            ..
        } => &program.expr,
        other => other,
    }
}

fn put_pattern(node: &Node, page: &mut Page) {
    if let Node::Operation { compiled_regex, .. } = node
        && let Some(pattern) = compiled_regex.pattern()
    {
        page.put(pattern.text());
    } else {
        page.put("none");
    }
}

/// Puts where each node of a text's program stands in the text, in post-order.
pub fn put_places(alloc: Global, text: &str, page: &mut Page) {
    page.put_name("compile_with_places");
    match compile_with_places(alloc, text) {
        Ok(placed) => {
            let mut gap = "";
            for place in &placed.places {
                page.put(gap);
                page.put_shown(&place.start);
                page.put("..");
                page.put_shown(&place.end);
                gap = " ";
            }
        }
        Err(error) => page.put_error(error),
    }
}

/// Puts the text of a name alone, which has one where it is a word that isn't reserved: as a program's and as a node's.
pub fn put_name(alloc: Global, name: &str, page: &mut Page) {
    let Ok(name) = String::from_str(alloc, name) else {
        return page.miss();
    };
    let program = Program {
        lines: Vec::new(alloc),
        expr: Node::Ident(name),
    };
    page.put_name("to_code");
    page.put_answer(to_code(alloc, &program));
    page.put_name("node_to_code");
    page.put_answer(node_to_code(alloc, &program.expr));
}
