//! The rule engine of docs/RATTLE.md: what a rule comes to for an order, in the shop's environment.
use crate::page::Page;
use crate::row::Row;
use expr::{
    Context, ContextProvider, Environment, Error, Result, Value, bail, compile_within, eval,
    line_column_of, value,
};
use std::alloc::Global;

/// What an expression comes to among the names of a map: a host in a few lines.
pub fn answer(alloc: Global, code: &str, map: Result<Value>) -> Result<Value> {
    let names = Context::try_from(alloc, map?)?;
    eval(alloc, code, &names)
}

/// The record of a line, which is a JSON object.
fn record_of(alloc: Global, line: &str) -> Result<Context> {
    let record = answer(alloc, "fromJSON(text)", value!(in alloc; {"text": line}))?;
    Context::try_from(alloc, record)
}

/// A record, and the number of its line, which rules see as `line`: names that a host lends without a map of its own.
#[derive(Drop)]
pub struct Order {
    pub record: Context,
    pub line: Value,
}

impl ContextProvider for Order {
    ghost use Rattle.std.specs.Prelude.{Some, codes, bytes_eq, if◌then◌else◌};
    ghost use Rattle.expr.specs.NamedPairs.{find};

    ghost context = { λ order. record {
      value_of = λ name. if bytes_eq name (codes "line") then Some order.line else find name order.record;
      map = order.record;
    } };

    fn get(&self, key: &str) -> Option<&Value> {
        if key == "line" {
            return Some(&self.line);
        }
        self.record.get(key)
    }

    fn to_context(&self, alloc: Global) -> Result<Context> {
        self.record.to_context(alloc)
    }
}

/// What a refusal of `compile` is shown as to the author of a rule.
pub fn refusal_text(alloc: Global, code: &str, error: &Error) -> Result<String> {
    match error {
        Error::PestError(place) => {
            let at = line_column_of(alloc, code, *place)?;
            Ok(format!(in alloc; "line {}, column {}\n{}", at.line, at.column, at.shown)?)
        }
        Error::ParseError(message) => Ok(message.clone()?),
        other => Ok(other.to_string(alloc)?),
    }
}

/// What a rule, whose tree has a height of 500 at most, comes to for an order.
fn judge(alloc: Global, shop: &Environment, code: &str, order: &Order) -> Result<Value> {
    if code.is_empty() {
        bail!(in alloc; "no rule stands in {} bytes", code.len());
    }
    let rule = compile_within(alloc, code, 500)?;
    shop.run(alloc, &rule, order)
}

/// Puts what is shown to the author of a rule. Out of memory is a piece that is missed.
fn put_refusal(alloc: Global, code: &str, error: Error, page: &mut Page) {
    if let Error::MemoryError = error {
        page.miss();
    } else {
        page.put_answer(refusal_text(alloc, code, &error));
    }
}

/// Puts what a rule comes to for the order of a line, the first, or what is shown to the rule's author.
pub fn put_order(alloc: Global, shop: &Environment, row: &Row, page: &mut Page) {
    let code = row.text.as_str();
    let judged = match record_of(alloc, row.word.as_str()) {
        Ok(record) => {
            let line = Value::Integer(1);
            judge(alloc, shop, code, &Order { record, line })
        }
        Err(error) => Err(error),
    };
    match judged {
        Err(error) => put_refusal(alloc, code, error, page),
        answer => page.put_answer(answer),
    }
}
