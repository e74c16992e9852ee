//! The rows that lines write.
use crate::page::Page;
use std::alloc::{AllocError, Global};

/// What a row asks for.
#[derive(Clone, Copy)]
pub enum RowKind {
    /// What an expression comes to, by each way.
    Ways,
    /// What an expression comes to by `eval` alone.
    Once,
    /// How many expressions were evaluated by their trees.
    ByTree,
    /// The tokens of a text, and where they start if there is a word.
    Tokens,
    /// A program in the normal form, of any height, or up to a height.
    Text,
    /// The pattern of a program, and a copy's.
    Pattern,
    /// Which calls on a program take memory.
    Plain,
    /// The text of a name alone.
    Name,
    /// Where each node of a program stands in its text.
    Places,
    /// What no text asks for.
    Topic,
    /// What a text comes to in the shop.
    Environment,
    /// The same among names without memory for their map.
    Refusing,
    /// What a rule comes to for an order.
    Order,
    /// What a value lends and holds.
    Held,
    /// What a context lends and holds.
    Scope,
    /// All calls for a text.
    Calls,
    /// The calls for a node.
    Parts,
    Unknown,
}

/// The kinds, each with its word. An expression has none.
const KINDS: &[(&str, RowKind)] = &[
    ("", RowKind::Ways),
    ("once", RowKind::Once),
    ("by_tree", RowKind::ByTree),
    ("tokens", RowKind::Tokens),
    ("text", RowKind::Text),
    ("pattern", RowKind::Pattern),
    ("plain", RowKind::Plain),
    ("name", RowKind::Name),
    ("places", RowKind::Places),
    ("topic", RowKind::Topic),
    ("environment", RowKind::Environment),
    ("refusing", RowKind::Refusing),
    ("order", RowKind::Order),
    ("held", RowKind::Held),
    ("scope", RowKind::Scope),
    ("calls", RowKind::Calls),
    ("parts", RowKind::Parts),
];

/// The kind of a word.
fn kind_of(word: &str) -> RowKind {
    for (name, kind) in KINDS {
        if *name == word {
            return *kind;
        }
    }
    RowKind::Unknown
}

/// The text that a part of a line writes.
fn unescaped(alloc: Global, part: &str) -> Result<String, AllocError> {
    let mut page = Page::new(alloc);
    let mut is_escaped = false;
    for c in part.chars() {
        if is_escaped {
            page.put_char(match c {
                'n' => '\n',
                'r' => '\r',
                't' => '\t',
                '0' => '\0',
                other => other,
            });
            is_escaped = false;
        } else if c == '\\' {
            is_escaped = true;
        } else {
            page.put_char(c);
        }
    }
    page.into_text()
}

/// A text, and a word behind it, which may be empty.
#[derive(Drop)]
pub struct Row {
    pub kind: RowKind,
    pub text: String,
    pub word: String,
}

impl Row {
    /// The row that a line writes, with a space behind its kind and a tab before its word.
    pub fn read(alloc: Global, line: &str) -> Result<Row, AllocError> {
        let (kind, rest) = match line.strip_prefix('%') {
            Some(rest) => rest.split_once(' ').unwrap_or((rest, "")),
            None => ("", line),
        };
        let (text, word) = rest.split_once('\t').unwrap_or((rest, ""));
        Ok(Row {
            kind: kind_of(kind),
            text: unescaped(alloc, text)?,
            word: unescaped(alloc, word)?,
        })
    }
}
