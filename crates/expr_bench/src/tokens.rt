//! Readings of texts.
use crate::page::Page;
use crate::row::Row;
use expr_tokens::{Reading, Token, read};
use std::alloc::Global;

/// Puts a token in a form of its own: large integers as `large`, contents in angle brackets after the first letter of their kind.
fn put_token(token: &Token, page: &mut Page) {
    match token {
        Token::Integer(Some(value)) => page.put_shown(value),
        Token::Integer(None) => page.put("large"),
        Token::Word(word) => page.put(word.as_str()),
        Token::Reserved(reserved) => {
            page.put(reserved.spelling());
            page.put("!");
        }
        Token::Hash(name) => page.put(name.as_str()),
        Token::Quoted(content) => put_content("q<", content.as_str(), page),
        Token::Raw(content) => put_content("r<", content.as_str(), page),
        Token::Bytes(bytes) => {
            page.put("b<");
            page.put_debug(&bytes.as_slice());
            page.put(">");
        }
        Token::Sign(sign) => page.put(sign.spelling()),
    }
}

fn put_content(front: &str, content: &str, page: &mut Page) {
    page.put(front);
    page.put(content);
    page.put(">");
}

/// Puts the tokens of a text, after `?` the place of its fault, and behind `@` where the tokens start, if a word asks for that.
pub fn put_tokens(alloc: Global, row: &Row, page: &mut Page) {
    match read(alloc, row.text.as_str()) {
        Ok(reading) => put_reading(&reading, !row.word.is_empty(), page),
        Err(_) => page.miss(),
    }
}

fn put_reading(reading: &Reading, has_starts: bool, page: &mut Page) {
    for token in &reading.tokens {
        page.put_space();
        put_token(token, page);
    }
    if let Some(place) = reading.fault {
        page.put_space();
        page.put("?");
        page.put_shown(&place);
    }
    if has_starts {
        page.put(" @");
        page.put_debug(&reading.starts.as_slice());
    }
}
