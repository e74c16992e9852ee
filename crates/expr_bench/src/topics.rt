//! What no text asks for: calls on what a host makes, and how many bytes types take.
use crate::answers::answer_of;
use crate::page::Page;
use expr::{
    Code, Context, Error, Instruction, Key, KeyedMap, Node, Pattern, Result, Value, ValueMap,
};
use std::alloc::Global;
use std::mem::size_of;

/// A context of pairs with one name.
fn paired(alloc: Global) -> Result<Context> {
    let pairs = vec![in alloc;
        (String::new(alloc), Value::Integer(1)),
        (String::new(alloc), Value::Integer(2)),
    ]?;
    Context::from_pairs(alloc, pairs)
}

/// Puts calls on what a host makes: pairs of which the later counts, the error of a text, and code without a block.
pub fn put_topics(alloc: Global, page: &mut Page) {
    page.put_thing("Context::from_pairs", paired(alloc));
    page.put_name("a text");
    page.put_error(Error::from(String::new(alloc)));
    let none: Result<Code<&Value, &String, &Pattern>> = Code::from_blocks(
        alloc,
        Vec::new(alloc),
        Vec::new(alloc),
    );
    let answer = answer_of(alloc, &Context::new(alloc), none);
    page.put_call("Code::from_blocks", answer);
    put_sizes(page);
}

/// Puts how many bytes types take: values, keys, maps, contexts, errors, results, nodes, and instructions that lend.
fn put_sizes(page: &mut Page) {
    page.put_name("sizes");
    page.put_debug(&(
        size_of::<Value>(),
        size_of::<Key>(),
        size_of::<ValueMap>(),
        size_of::<KeyedMap>(),
        size_of::<Context>(),
        size_of::<Error>(),
        size_of::<Result<Value>>(),
        size_of::<Node>(),
        size_of::<Instruction<&'static Value, &'static String, &'static Pattern>>(),
    ));
}
