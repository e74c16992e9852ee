//! The program `expr_lines`: filters, counts or rewrites records with an expression. Each line is a record in
//! JSON.
#![tactic(auto)]

ghost use Rattle.std.specs.Prelude.{◌≡◌, ◌≢◌, ◌↔◌, Bool, IsTrue};
ghost use Rattle.expr_records.specs.declared.course.Course.{Course};
ghost use Rattle.expr_records.specs.declared.query.Purpose.TheVariants as Purpose;
ghost use Rattle.expr_records.specs.Courses.{status_after};

mod options;
mod progress;
mod reports;

use expr::{Context, Environment, Outcome};
use expr_records::{
    Course, FAILED, JsonReader, LineBuffer, PassedLimit, Query, RecordFilter, StreamEnd, Tally,
    bind, code_of_text, finish,
};
use jiff::Timestamp;
use options::Options;
use progress::{Progress, ProgressReader};
use reports::{tell_bad_name, tell_end, tell_passed_limit, tell_refused_text};
use std::alloc::{AllocError, Global};
use std::io::{BufReader, BufWriter, ErrorKind, IsTerminal, Read, Stderr, Write};
use std::process::ExitCode;
use std::{env, fs};

/// The status for wrong arguments and for an expression that doesn't compile.
const USAGE: u8 = 2;

/// How many bytes are read or written at a time.
const BUFFER: usize = 1 << 16;

fn main(rt: HostRuntime) -> ExitCode {
    let words: Result<Vec<String>, AllocError> = match env::args(&rt) {
        Ok(args) => args.collect(rt.alloc()),
        Err(error) if error.kind() == ErrorKind::InvalidData => {
            let _ = writeln!(rt.stderr(), "expr_lines: an argument is not UTF-8");
            return ExitCode::from(USAGE);
        }
        Err(_) => Err(AllocError),
    };
    let Ok(words) = words else {
        return ExitCode::from(FAILED);
    };
    match Options::read(rt.alloc(), words.as_slice()) {
        Ok(options) => ExitCode::from(run(&rt, &options)),
        Err(error) => {
            let said = error.print(&rt);
            let status = if error.use_stderr() { USAGE } else { 0 };
            ExitCode::from(if said.is_err() { FAILED } else { status })
        }
    }
}

/// Does what the options ask for, and returns the status.
fn run(rt: &HostRuntime, options: &Options) -> u8 {
    let alloc = rt.alloc();
    let mut err = rt.stderr();
    let mut environment = Environment::new(alloc);
    if let Ok(now) = Timestamp::now(rt) {
        environment.set_now(now);
    }
    let Some(names) = names_of(alloc, &environment, options, &mut err) else {
        return USAGE;
    };
    let text = options.expression;
    let code = match code_of_text(alloc, text, options.limits) {
        Ok(Outcome::Answered(code)) => code,
        Ok(Outcome::Stopped(limit)) => {
            let passed = PassedLimit::of(options.limits, limit);
            tell_passed_limit(&mut err, "the expression", passed);
            return USAGE;
        }
        Err(error) => {
            tell_refused_text(alloc, &mut err, text, &error);
            return USAGE;
        }
    };
    let Ok(out) = BufWriter::with_capacity(alloc, BUFFER, rt.stdout()) else {
        return FAILED;
    };
    let mut record_filter = RecordFilter {
        judge: Query::new(
            alloc,
            &environment,
            &names,
            options.purpose,
            options.limits,
            &code,
        ),
        stops: options.stops,
        held: LineBuffer::new(alloc, options.bound),
        reader: JsonReader::new(alloc),
        out,
        err,
        tally: Tally::new(),
    };
    work(rt, options, &mut record_filter)
}

/// The context of the arguments `NAME=CODE`. Returns None if one of them fails, and reports why.
fn names_of<E: Write>(
    alloc: Global,
    environment: &Environment,
    options: &Options,
    err: &mut E,
) -> Option<Context> {
    let mut names = Context::new(alloc);
    for word in &options.names {
        let (name, code) = word.split_once('=').unwrap_or(("", *word));
        if name.is_empty() {
            tell_bad_name(err, *word);
            return None;
        }
        match bind(alloc, environment, name, code, options.limits, &mut names) {
            Ok(Outcome::Answered(())) => {}
            Ok(Outcome::Stopped(limit)) => {
                tell_passed_limit(err, name, PassedLimit::of(options.limits, limit));
                return None;
            }
            Err(error) => {
                tell_refused_text(alloc, err, code, &error);
                return None;
            }
        }
    }
    Some(names)
}

/// Processes the files, and returns the status.
fn work<W: Write, E: Write>(
    rt: &HostRuntime,
    options: &Options,
    record_filter: &mut RecordFilter<Query<Environment>, W, E>,
) -> u8
    ensures { (course : Course) × (seeks : Bool) × (IsTrue seeks ↔ (options.now.purpose ≢ Purpose.Rewrite))
        × (result ≡ status_after course record_filter.new.tally seeks) }
{
    let mut course = Course::Done;
    let mut names = options.files.as_slice();
    if names.is_empty() {
        names = &["-"];
    }
    for name in names {
        let end = process_named(rt, options, *name, record_filter);
        tell_end(&mut record_filter.err, *name, &end);
        course = course.after(&end);
        if end.is_last() {
            break;
        }
    }
    if matches!(course, Course::Done | Course::Unread) {
        if let Err(error) = finish(
            &mut record_filter.out,
            options.purpose,
            &record_filter.tally,
        ) {
            let end = StreamEnd::Unwritten(error);
            tell_end(&mut record_filter.err, "standard output", &end);
            course = course.after(&end);
        }
    }
    course.status(&record_filter.tally, options.purpose.seeks())
}

/// Processes a file. The name `-` is standard input.
fn process_named<W: Write, E: Write>(
    rt: &HostRuntime,
    options: &Options,
    name: &str,
    record_filter: &mut RecordFilter<Query<Environment>, W, E>,
) -> StreamEnd {
    let alloc = rt.alloc();
    if name == "-" {
        let stream = ProgressReader::new(rt.stdin(), rt, progress_of(rt, options, 0));
        return process_stream(alloc, name, stream, record_filter);
    }
    match fs::open(rt, name) {
        Ok(file) => {
            let length = file.metadata().map_or(0, |data| data.len());
            let stream = ProgressReader::new(file, rt, progress_of(rt, options, length));
            process_stream(alloc, name, stream, record_filter)
        }
        Err(error) => StreamEnd::Unread(error),
    }
}

/// The progress of a stream of this length, if it is wanted and standard error is a terminal.
fn progress_of(rt: &HostRuntime, options: &Options, length: u64) -> Option<Progress<Stderr>> {
    let err = rt.stderr();
    if options.tells && err.is_terminal() {
        Some(Progress::new(rt, length, err))
    } else {
        None
    }
}

/// Processes a stream.
fn process_stream<R: Read + Drop, W: Write, E: Write>(
    alloc: Global,
    name: &str,
    stream: R,
    record_filter: &mut RecordFilter<Query<Environment>, W, E>,
) -> StreamEnd {
    match BufReader::with_capacity(alloc, BUFFER, stream) {
        Ok(mut reader) => record_filter.process(alloc, name, &mut reader),
        Err(error) => StreamEnd::Unread(error),
    }
}
