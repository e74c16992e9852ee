//! The command line of the program `expr`: its arguments, its output and its status.
ghost use Rattle.std.specs.Prelude.{◌≡◌, ◌≤◌, ◌↔◌, ◌⊎◌, [], ◌∷◌, ◌++◌, false, map, string_bytes, Ok, Err, OnOk};
ghost use Rattle.std.specs.Io.KnownBytes.{Appends};
ghost use Rattle.std.specs.List.{list_all};
ghost use Rattle.expr_program.specs.Served.{MayAnswerUnder, MayBind, MayPrint, MayServe};
ghost use Rattle.expr_program.specs.Words.{code_of, is_binding, is_call, bound_name, word_for};
ghost use Rattle.expr_value.specs.Answers.{Returns};
ghost use Rattle.expr_error.specs.ErrorKind.{error_kind, RefusesWith};
ghost use Rattle.expr_value.specs.Names.{put};
ghost use Rattle.expr_value.specs.Values.{text_of};
ghost use Rattle.expr_value.specs.declared.value.Value.{Value};

use expr::{Context, Error, Result, Value, compile_within, run};
use std::alloc::Global;
use std::io::Write;

/// The NAME and the CODE of an argument NAME=CODE. The first `=` divides them.
fn parts(word: &str) -> (&str, &str)
    ensures name { result.0.now ≡ bound_name word.now }
    ensures code { result.1.now ≡ code_of word.now }
{
    match word.split_once('=') {
        Some((name, code)) => (name, code),
        None => (word, ""),
    }
}

/// Whether an argument is a binding NAME=CODE: it has an `=`, and a NAME before it.
fn is_binding(word: &str) -> bool
    ensures { result ≡ is_binding word.now }
{
    match word.split_once('=') {
        Some((name, _code)) => !name.is_empty(),
        None => false,
    }
}

/// Whether all of these arguments are bindings.
fn are_bindings(words: &[String]) -> bool
    ensures { result ≡ list_all is_binding (map string_bytes words.now) }
{
    for word in words {
        if !is_binding(word.as_str()) {
            return false;
        }
    }
    true
}

/// The greatest height of an expression's tree. Reading and lowering take stack in proportion to it.
const HEIGHT: usize = 500;

/// Evaluates code under some names. A tree above the greatest height is an error of the kind of a literal
/// that is too large.
fn value_under(alloc: Global, code: &str, names: &Context) -> Result<Value>
    ensures { Returns result (MayAnswerUnder names.now code.now) }
{
    let program = compile_within(alloc, code, HEIGHT)?;
    run(alloc, &program, names)
}

/// Evaluates the code of a binding in an empty context and puts the value under its name.
fn bind(alloc: Global, word: &str, context: &mut Context) -> Result<()>
    ensures bound { OnOk result ((v : Value) × MayAnswerUnder [] (code_of word.now) (Ok v)
        × context.new ≡ put (bound_name word.now) v context.old) }
    ensures refused { RefusesWith result
        (λ k. MayAnswerUnder [] (code_of word.now) (Err k)) }
{
    let (name, code) = parts(word);
    let value = value_under(alloc, code, &Context::new(alloc))?;
    context.insert(String::from_str(alloc, name)?, value)
}

/// The context that these bindings make, from left to right.
fn context_of(alloc: Global, bindings: &[String]) -> Result<Context>
    ensures { Returns result (MayBind (map string_bytes bindings.now) []) }
{
    let mut context = Context::new(alloc);
    for word in bindings {
        bind(alloc, word.as_str(), &mut context)?;
    }
    Ok(context)
}

/// Evaluates code in the context that the bindings make.
fn answer(alloc: Global, code: &str, bindings: &[String]) -> Result<Value>
    ensures { Returns result (MayServe code.now (map string_bytes bindings.now)) }
{
    let context = context_of(alloc, bindings)?;
    value_under(alloc, code, &context)
}

/// The word for a kind of error.
fn word_of(error: &Error) -> &'static str
    ensures { result.now ≡ word_for (error_kind error.now) }
{
    match error {
        Error::PestError(_) => "syntax",
        Error::ParseError(_) => "literal",
        Error::ExprError(_) => "evaluation",
        Error::RegexError(_) => "pattern",
        Error::MemoryError => "memory",
    }
}

/// Reports how the program is called, and returns the status 2. A failing `err` changes nothing.
pub fn refuse_usage<E: Write>(err: &mut E) -> u8
    ensures { result ≡ 2 }
{
    let _ = writeln!(err, "usage");
    2
}

/// Reports the word for an error, and returns the status 1. A failing `err` changes nothing.
fn refuse<E: Write>(err: &mut E, error: &Error) -> u8
    ensures { result ≡ 1 }
{
    let word = word_of(error);
    let _ = writeln!(err, "{word}");
    1
}

/// Prints a value on a line of its own. Returns 0, or 1 if `out` fails.
fn print<O: Write>(out: &mut O, value: &Value) -> u8
    ensures status { result ≤ 1 }
    ensures printed { result ≡ 0 → Appends (O.contents out.old) (O.contents out.new)
        (text_of value.now ++ 10 ∷ []) }
{
    if writeln!(out, "{value}").is_ok() && out.flush().is_ok() {
        0
    } else {
        1
    }
}

/// Runs the program on the arguments `CODE [NAME=CODE]...` and returns its status.
///
/// Each binding is cut at its first `=`. Without arguments, or if a binding has no `=` or an empty NAME, it
/// writes `usage` to `err` and returns 2. Otherwise it evaluates the bindings from left to right, each in an
/// empty context. A repeated NAME takes the later value. Then it evaluates CODE in the context of the
/// bindings, writes the value's `Display` to `out`, and returns 0.
///
/// At the first error it writes one word to `err` and returns 1:
///
/// - `syntax`: the code doesn't match the grammar
/// - `literal`: an integer of 2^63 or more, or a tree higher than 500
/// - `evaluation`: the evaluation failed
/// - `pattern`: a regular expression is not valid
/// - `memory`: an allocation failed
///
/// There are no other limits.
///
/// It writes to `out`, and flushes it, only if there is a value to print. If `out` fails, it returns 1 and
/// writes nothing to `err`. What `out` took before that stays. A failing `err` changes no status.
pub fn serve<O: Write, E: Write>(alloc: Global, words: &[String], out: &mut O, err: &mut E) -> u8
    ensures status { result ≤ 2 }
    ensures usage { result ≡ 2 ↔ is_call (map string_bytes words.now) ≡ false }
    ensures silent { result ≡ 2 → O.contents out.new ≡ O.contents out.old }
    ensures printed { result ≡ 0 → (v : Value) × MayPrint (map string_bytes words.now) v
        × Appends (O.contents out.old) (O.contents out.new) (text_of v ++ 10 ∷ []) }
    ensures touched { ((v : Value) × MayPrint (map string_bytes words.now) v)
        ⊎ (O.contents out.new ≡ O.contents out.old) }
{
    let Some((code, bindings)) = words.split_first() else {
        return refuse_usage(err);
    };
    if !are_bindings(bindings) {
        return refuse_usage(err);
    }
    match answer(alloc, code.as_str(), bindings) {
        Ok(value) => print(out, &value),
        Err(error) => refuse(err, &error),
    }
}
