//! A text that is written piece by piece.
use expr::{Error, Outcome, Result, Value};
use std::alloc::{AllocError, Global};
use std::fmt::{Debug, Display};

/// A text so far, and whether there was memory for each piece of it.
#[derive(Drop)]
pub struct Page {
    text: String,
    is_whole: bool,
}

/// The word for a kind of error, after a sign that begins no value.
pub fn word_of(error: &Error) -> &'static str {
    match error {
        Error::PestError(_) => "!syntax",
        Error::ParseError(_) => "!literal",
        Error::ExprError(_) => "!evaluation",
        Error::RegexError(_) => "!pattern",
        Error::MemoryError => "!memory",
    }
}

impl Page {
    pub fn new(alloc: Global) -> Page {
        Page {
            text: String::new(alloc),
            is_whole: true,
        }
    }

    /// Puts a piece at the end.
    pub fn put(&mut self, piece: &str) {
        if self.text.push_str(piece).is_err() {
            self.is_whole = false;
        }
    }

    /// Puts a character at the end.
    pub fn put_char(&mut self, c: char) {
        if self.text.push(c).is_err() {
            self.is_whole = false;
        }
    }

    /// Puts a space at the end, unless the page is empty.
    pub fn put_space(&mut self) {
        if !self.text.is_empty() {
            self.put(" ");
        }
    }

    /// Puts a piece at the end that itself took memory.
    pub fn put_made(&mut self, piece: std::result::Result<String, AllocError>) {
        match piece {
            Ok(piece) => self.put(piece.as_str()),
            Err(_) => self.is_whole = false,
        }
    }

    /// Puts what is printed of a thing.
    pub fn put_shown<T: Display>(&mut self, thing: &T) {
        self.put_made(thing.to_string(self.allocator()));
    }

    /// Puts what `{:?}` prints of a thing.
    pub fn put_debug<T: Debug>(&mut self, thing: &T) {
        self.put_made(format!(in self.allocator(); "{thing:?}"));
    }

    /// Notes that a piece is missing.
    pub fn miss(&mut self) {
        self.is_whole = false;
    }

    /// Puts the word for an error. Out of memory is a piece that is missed.
    pub fn put_error(&mut self, error: Error) {
        match error {
            Error::MemoryError => self.is_whole = false,
            other => self.put(word_of(&other)),
        }
    }

    /// Notes whether something is done.
    pub fn note(&mut self, done: Result<()>) {
        if done.is_err() {
            self.is_whole = false;
        }
    }

    /// Puts the printed text of an answer, or the word for its error.
    pub fn put_answer<T: Display + Drop>(&mut self, answer: Result<T>) {
        match answer {
            Ok(value) => self.put_shown(&value),
            Err(error) => self.put_error(error),
        }
    }

    /// Puts the name of a call, before its answer.
    pub fn put_name(&mut self, name: &str) {
        self.put_space();
        self.put(name);
        self.put(": ");
    }

    /// Puts the name of a call and what it answers.
    pub fn put_call(&mut self, name: &str, answer: Result<Value>) {
        self.put_name(name);
        self.put_answer(answer);
    }

    /// Puts the name of a call within limits and what it answers.
    pub fn put_limited<T: Display + Drop>(&mut self, name: &str, outcome: Result<Outcome<T>>) {
        self.put_name(name);
        match outcome {
            Ok(Outcome::Answered(value)) => self.put_shown(&value),
            Ok(Outcome::Stopped(_)) => self.put("!stopped"),
            Err(error) => self.put_error(error),
        }
    }

    /// Puts the name of a call and what it answers, out of memory among it.
    pub fn put_said<T: Display + Drop>(&mut self, name: &str, answer: Result<T>) {
        self.put_name(name);
        match answer {
            Ok(value) => self.put_shown(&value),
            Err(error) => self.put(word_of(&error)),
        }
    }

    /// Puts the name of a call and what `{:?}` prints of the thing that it makes.
    pub fn put_thing<T: Debug + Drop>(&mut self, name: &str, made: Result<T>) {
        self.put_name(name);
        match made {
            Ok(thing) => self.put_debug(&thing),
            Err(error) => self.put_error(error),
        }
    }

    /// Puts the name of a call that copies a thing, and what `{:?}` prints of the copy.
    pub fn put_copy<T: Clone + Debug + Drop>(&mut self, name: &str, thing: &T) {
        self.put_name(name);
        match thing.clone() {
            Ok(copy) => self.put_debug(&copy),
            Err(_) => self.miss(),
        }
        self.put(" ");
    }

    /// Compares what is on the page with what another answer prints, and says so where they differ.
    pub fn put_same(&mut self, answer: Result<Value>) {
        let mut other = Page::new(self.allocator());
        other.put_answer(answer);
        if !other.is_whole {
            self.is_whole = false;
        } else if self.text != other.text {
            self.put("!!the ways to an answer differ");
        }
    }

    /// Puts a text as a line writes it, and ends the line.
    fn put_line(&mut self, text: &str) {
        for c in text.chars() {
            let escape = match c {
                '\\' => '\\',
                '\n' => 'n',
                '\r' => 'r',
                '\t' => 't',
                '\0' => '0',
                other => {
                    self.put_char(other);
                    continue;
                }
            };
            self.put_char('\\');
            self.put_char(escape);
        }
        self.put("\n");
    }

    /// Puts what a row came to, whose page is another, on a line.
    pub fn put_row(&mut self, row: &Page) {
        self.put_line(if row.is_whole {
            row.text.as_str()
        } else {
            word_of(&Error::MemoryError)
        });
    }

    fn allocator(&self) -> Global {
        *self.text.allocator()
    }

    /// The text, or an error where there was no memory for all of it.
    pub fn into_text(self) -> std::result::Result<String, AllocError> {
        let Page { text, is_whole } = self;
        if is_whole { Ok(text) } else { Err(AllocError) }
    }
}
