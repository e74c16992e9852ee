//! Reports on standard error. If one can't be written, nothing else changes.
use expr::{Error, line_column_of};
use expr_records::{PassedLimit, StreamEnd};
use std::alloc::Global;
use std::io::{self, ErrorKind, Write};

/// Reports an argument that isn't `NAME=CODE`.
pub fn tell_bad_name<E: Write>(err: &mut E, word: &str) {
    let _ = writeln!(err, "expr_lines: --name expects NAME=CODE, found {word}");
}

/// Reports why an expression failed. If it doesn't compile, the report shows the position of the error with a
/// caret under it.
pub fn tell_refused_text<E: Write>(alloc: Global, err: &mut E, text: &str, error: &Error) {
    if let Error::PestError(place) = error {
        if let Ok(at) = line_column_of(alloc, text, *place) {
            let _ = writeln!(
                err,
                "expr_lines: syntax error at line {}, column {}\n{}",
                at.line, at.column, at.shown
            );
            return;
        }
    }
    let _ = writeln!(err, "expr_lines: the expression {text} fails: {error}");
}

/// Reports that the expression, or that of a name, passes a limit before the first record is read.
pub fn tell_passed_limit<E: Write>(err: &mut E, what: &str, passed: PassedLimit) {
    let _ = writeln!(err, "expr_lines: {what} passes a limit: {passed}");
}

/// Reports a stream that can't be read, or output that can't be written. A closed pipe is not reported.
pub fn tell_end<E: Write>(err: &mut E, name: &str, end: &StreamEnd) {
    match end {
        StreamEnd::Whole | StreamEnd::Stopped => {}
        StreamEnd::Unread(error) => tell_unusable(err, name, error),
        StreamEnd::Unwritten(error) => {
            if error.kind() != ErrorKind::BrokenPipe {
                tell_unusable(err, "standard output", error);
            }
        }
    }
}

/// Reports an error of input or output.
fn tell_unusable<E: Write>(err: &mut E, name: &str, error: &io::Error) {
    let _ = writeln!(err, "expr_lines: {name}: {error}");
}
