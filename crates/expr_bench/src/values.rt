//! What values and contexts lend and hold.
use crate::page::Page;
use expr::{
    Context, ContextProvider, DateTimeValue, Items, Key, KeyedMap, Result, Text, TimezoneValue,
    Value, ValueMap, eval,
};
use std::alloc::Global;
use std::fmt::Display;
use std::iter::Zip;
use std::slice::Iter;

/// Puts what a value lends, what its parts have, and copies of them.
pub fn put_value(alloc: Global, answer: Result<Value>, page: &mut Page) {
    match answer {
        Ok(value) => {
            put_lent(&value, page);
            put_held(alloc, &value, page);
        }
        Err(error) => page.put_error(error),
    }
}

/// Puts what a value lends to each of the calls that ask for one kind.
fn put_lent(value: &Value, page: &mut Page) {
    page.put_debug(&(
        value.as_integer(),
        value.as_bool(),
        value.as_duration(),
        value.as_string(),
        value.as_array(),
        value.as_bytes(),
        value.as_map(),
        value.as_keyed_map(),
        value.as_datetime().is_some(),
        value.is_nil(),
    ));
}

/// Puts what the parts of a value have and lend, and copies of them.
fn put_held(alloc: Global, value: &Value, page: &mut Page) {
    match value {
        Value::String(text) => put_string(text, page),
        Value::Array(items) => put_items(items, page),
        Value::Map(map) => put_map(map, page),
        Value::KeyedMap(map) => put_keyed_map(map, page),
        Value::DateTime(moment) => put_moment(alloc, moment.get(), page),
        Value::Timezone(zone) => put_zone(alloc, zone.get(), page),
        _ => {}
    }
}

fn put_string(text: &Text, page: &mut Page) {
    page.put(" ");
    page.put_debug(&(text, text.len()));
    page.put("; ");
    page.put_shown(text);
}

fn put_items(items: &Items<Value>, page: &mut Page) {
    page.put_copy("Items::clone", items);
    page.put_debug(&(
        *items == *items,
        items.len(),
        items.is_empty(),
        items.get(1),
    ));
    for item in items.iter() {
        page.put("; ");
        page.put_shown(item);
    }
}

/// Puts the pairs of a map or a context, in their order.
fn put_pairs<K: Display>(pairs: Zip<Iter<'_, K>, Iter<'_, Value>>, page: &mut Page) {
    for (name, value) in pairs {
        page.put("; ");
        page.put_shown(name);
        page.put("=");
        page.put_shown(value);
    }
}

fn put_map(map: &ValueMap, page: &mut Page) {
    page.put_copy("ValueMap::clone", map);
    page.put_debug(&(*map == *map, map.len(), map.is_empty(), map.get("a")));
    put_pairs(map.iter(), page);
}

fn put_keyed_map(map: &KeyedMap, page: &mut Page) {
    page.put_copy("Key::clone: KeyedMap::clone", map);
    let found = (
        map.get_by_key(&Key::Integer(2)),
        map.get(&Value::Integer(2)),
    );
    page.put_debug(&(
        map.keys().len(),
        map.values().len(),
        map.get_index(1),
        found,
    ));
    put_pairs(map.iter(), page);
}

fn put_moment(alloc: Global, moment: &DateTimeValue, page: &mut Page) {
    let fixed = DateTimeValue::fixed(moment.timestamp(), moment.offset());
    if let Some(later) = fixed.checked_add_signed(5) {
        page.put(" ");
        page.put_debug(&later.checked_difference(moment));
        page.put_name("Key::datetime");
        page.put_answer(Key::datetime(alloc, later));
    }
}

fn put_zone(alloc: Global, zone: &TimezoneValue, page: &mut Page) {
    page.put(" ");
    page.put(zone.name());
    match zone.clone() {
        Ok(copy) => {
            page.put_name("TimezoneValue::clone: Key::timezone");
            page.put_answer(Key::timezone(alloc, copy));
        }
        Err(_) => page.miss(),
    }
}

/// The whole map of a provider of any kind.
fn map_of<P: ContextProvider>(alloc: Global, provider: &P) -> Result<Context> {
    provider.to_context(alloc)
}

/// Puts what a context has, and what a text comes to where it is lent.
pub fn put_scope(alloc: Global, context: &Context, text: &str, page: &mut Page) {
    page.put_debug(&(*context == *context, context.len(), context.is_empty()));
    put_pairs(context.iter(), page);
    let lent: &dyn ContextProvider = context;
    let map = map_of(alloc, &lent);
    page.put_thing("Context::clone: ContextProvider::to_context", map);
    page.put_call("ContextProvider::environment", eval(alloc, text, lent));
}
