//! The host of the rows: the names, functions, zones and time that a text comes to a value among.
use crate::calls::{put_node, put_text};
use crate::page::Page;
use crate::row::{Row, RowKind};
use crate::rules::{answer, put_order};
use crate::values::{put_scope, put_value};
use expr::{
    Context, ContextProvider, Environment, Error, ExprCall, Pattern, Result, Value, compile, value,
};
use jiff::Timestamp;
use jiff::tz::TimeZone;
use std::alloc::Global;
use std::cell::Cell;

/// The names, of values that no text makes among them, by keys and items in each form of `value!`.
fn names(alloc: Global) -> Result<Context> {
    let bytes = vec![in alloc; 1_u8, 2]?;
    let unnamed = String::new(alloc);
    let more = ("small", 7_i32);
    let names = value!(in alloc; {
        "a": 2,
        "default": Value::default(),
        more.0: more.1,
        "largest": usize::MAX,
        "span": Value::Duration(-5),
        ("last"): Value::Month(12),
        unnamed: bytes,
        "odd": [Value::Month(13), Value::Weekday(7), nil, [], {},],
        "named": {"b": nil, "a": ["x", true], "b": {"c": nil},},
    });
    Context::try_from(alloc, names?)
}

/// Names without a map: there is never memory for one.
#[derive(Drop)]
struct Unmapped {
    names: Context,
}

impl ContextProvider for Unmapped {
    ghost use Rattle.expr.specs.NamedPairs.{find};

    ghost context = { λ p. record { value_of = λ name. find name p.names; map = p.names } };

    fn get(&self, key: &str) -> Option<&Value> {
        self.names.get(key)
    }

    fn to_context(&self, _alloc: Global) -> Result<Context> {
        Err(Error::MemoryError)
    }
}

/// The functions, each with the expression that its calls come to. The second `n` takes the place of the first. `abs` and `none` are
/// names of built-ins, and `p` is an error of another kind.
const FUNCTIONS: &[(&str, &str)] = &[
    ("add", "sum(args)"),
    ("n", "sum(args)"),
    ("abs", "name"),
    ("n", "len(args)"),
    ("none", "len(args)"),
    ("p", "9223372036854775808"),
    ("points", "args[0] * args[1]"),
    ("tick", "calls"),
];

/// What a call of the function at an index comes to. `calls` counts its calls.
fn answer_to(alloc: Global, index: usize, call: ExprCall, calls: &Cell<i64>) -> Result<Value> {
    let count = calls.get().wrapping_add(1);
    calls.set(count);
    let names = value!(in alloc; {"name": call.ident, "args": call.args, "calls": count});
    match FUNCTIONS.get(index) {
        Some((_, code)) => answer(alloc, code, names),
        None => names,
    }
}

/// Puts what a row comes to in the shop, which is made here, since no function may hand out boxed closures that it makes. A closure
/// that is boxed captures no reference, so each has the index of its expression.
pub fn put_among(alloc: Global, row: &Row, page: &mut Page) {
    let mut shop = Environment::new(alloc);
    for (index, (name, _)) in FUNCTIONS.iter().enumerate() {
        let calls = Cell::new(0_i64);
        let function = move |call: ExprCall| answer_to(alloc, index, call, &calls);
        match Box::new(alloc, function) {
            Ok(function) => page.note(shop.add_function(name, function)),
            Err(_) => page.miss(),
        }
    }
    page.note(shop.add_timezone("X/Zero", TimeZone::UTC));
    shop.add_versions();
    shop.set_now(Timestamp::UNIX_EPOCH);
    put_in(alloc, row, &shop, page);
}

/// Puts what a row comes to in the shop, among its names.
fn put_in(alloc: Global, row: &Row, shop: &Environment, page: &mut Page) {
    match names(alloc) {
        Ok(names) => put_kind(alloc, row, shop, &Unmapped { names }, page),
        Err(error) => page.put_error(error),
    }
}

fn put_kind(alloc: Global, row: &Row, shop: &Environment, unmapped: &Unmapped, page: &mut Page) {
    let text = row.text.as_str();
    let names = &unmapped.names;
    match row.kind {
        RowKind::Refusing => page.put_answer(shop.eval(alloc, text, unmapped)),
        RowKind::Order => put_order(alloc, shop, row, page),
        RowKind::Held => put_value(alloc, shop.eval(alloc, text, names), page),
        RowKind::Scope => put_scope(alloc, names, text, page),
        RowKind::Calls | RowKind::Parts => put_calls(alloc, row, shop, names, page),
        _ => page.put_answer(shop.eval(alloc, text, names)),
    }
}

/// Puts the calls on a text and its program, or on the program's last node. The pattern of a source is handed in if it is one: a
/// pattern of any other source is passed over.
fn put_calls(alloc: Global, row: &Row, shop: &Environment, names: &Context, page: &mut Page) {
    let text = row.text.as_str();
    match compile(alloc, text) {
        Ok(program) => {
            if let RowKind::Calls = row.kind {
                put_text(alloc, shop, names, text, &program, page);
            } else {
                let pattern = Pattern::new(alloc, row.word.as_str()).ok();
                put_node(alloc, shop, names, &program.expr, pattern.as_ref(), page);
            }
        }
        Err(error) => page.put_error(error),
    }
}
