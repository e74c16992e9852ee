//! The program that reads the test rows and prints their results.
//!
//! A row is a line, and so is its result: a value, or `!` and the word for an error. In both, a backslash, newline, carriage
//! return, tab and NUL are written `\\`, `\n`, `\r`, `\t`, `\0`, and a `%` at the beginning `\%`. Behind an expression, a tab
//! and a map may bind names. A line `%KIND ..` asks for something else, which `put_answer` says. `%by_tree` prints how many lines
//! above it were also evaluated by recursion on the tree. `bin/rows` makes the lines.
//!
//! A function here owns one tree, environment or machine at most, takes the rest by reference, and puts what it shows on a page,
//! which remembers whether memory was missing. So few paths have something to drop, and each of those is a step of its proof.
#![tactic(auto)]

pub mod answers;
pub mod calls;
pub mod expressions;
pub mod page;
pub mod programs;
pub mod row;
pub mod rules;
pub mod shop;
pub mod tokens;
pub mod topics;
pub mod values;

use crate::page::Page;
use crate::row::{Row, RowKind};
use std::alloc::Global;
use std::io;

/// Puts what a row comes to. Where its tree is evaluated too, that is counted.
fn put_answer(alloc: Global, row: &Row, trees: &mut usize, page: &mut Page) {
    match row.kind {
        RowKind::Ways | RowKind::Once => expressions::put_row(alloc, row, trees, page),
        RowKind::ByTree => page.put_shown(trees),
        RowKind::Tokens => tokens::put_tokens(alloc, row, page),
        RowKind::Text | RowKind::Pattern | RowKind::Plain => programs::put_text(alloc, row, page),
        RowKind::Name => programs::put_name(alloc, row.text.as_str(), page),
        RowKind::Places => programs::put_places(alloc, row.text.as_str(), page),
        RowKind::Topic => topics::put_topics(alloc, page),
        RowKind::Unknown => page.put("!!no such kind"),
        _ => shop::put_among(alloc, row, page),
    }
}

fn main(rt: HostRuntime) -> io::Result<()> {
    let alloc = rt.alloc();
    let lines = io::read_to_string(alloc, rt.reader())?;
    let mut trees = 0;
    let mut answers = Page::new(alloc);
    for line in lines.lines() {
        let mut page = Page::new(alloc);
        match Row::read(alloc, line) {
            Ok(row) => put_answer(alloc, &row, &mut trees, &mut page),
            Err(_) => page.miss(),
        }
        answers.put_row(&page);
    }
    let answers = answers.into_text()?;
    print!(rt; "{answers}")
}
