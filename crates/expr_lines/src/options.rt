//! The arguments of the program.
use clap::{Arg, ArgAction, ArgMatches, Command, Error, value_parser};
use expr::Limits;
use expr_records::Purpose;
use std::alloc::{AllocError, Global};

/// What `--help` prints before the options.
const ABOUT: &str = "Filters, counts or rewrites JSON lines with an expression.";

/// What `--help` prints after the options.
const NOTES: &str = "\
The expression sees the members of a line's JSON object as names, and the whole object as $env.
Lines for which it is true are written as they are. Blank lines are skipped. A line with an error
is reported on standard error, and the rest goes on. It is an error if the line is not a JSON
object, if it has a number that isn't whole, if the expression fails or passes a limit, or if the
result is neither true nor false. Put -- before an expression that begins with -.

The limits are those for untrusted expressions: on the height of the tree, the weight of patterns,
and the steps, the size and the depth of a run. Each line's run begins with all its steps.

Status: 0 if something was kept or everything was rewritten, 1 if nothing was kept, 2 for wrong
arguments or an expression that doesn't compile, 3 if a line had an error, 4 if something can't be
read or written.";

/// What the arguments ask for.
#[derive(Drop)]
pub struct Options<'a> {
    pub expression: &'a str,
    /// Names of files. The name `-` is standard input.
    pub files: Vec<&'a str>,
    /// Arguments `NAME=CODE`.
    pub names: Vec<&'a str>,
    pub purpose: Purpose,
    /// The limits of the expression and of each run, if there are any.
    pub limits: Option<Limits>,
    /// Whether to stop at the first record with an error.
    pub stops: bool,
    /// The greatest length of a line, in bytes.
    pub bound: usize,
    /// Whether to show the progress.
    pub tells: bool,
}

/// An option without a value, with its name and its letter.
fn flag<'a>(alloc: Global, name: &'a str, letter: char, help: &'a str) -> Arg<'a> {
    Arg::new(alloc, name)
        .short(letter)
        .long(name)
        .action(ArgAction::SetTrue)
        .help(help)
}

/// The option that rewrites records.
fn map_option<'a>(alloc: Global) -> Result<Arg<'a>, AllocError> {
    let help = "Write each result as a line of JSON";
    flag(alloc, "map", 'm', help)
        .conflicts_with("count")?
        .conflicts_with("invert")
}

/// The options that say what to do with the records.
fn with_purposes<'a>(alloc: Global, command: Command<'a>) -> Result<Command<'a>, AllocError> {
    let map = map_option(alloc)?;
    let count = "Write how many results are true";
    let invert = "Keep or count the lines for which the result is false";
    command
        .arg(map)?
        .arg(flag(alloc, "count", 'c', count))?
        .arg(flag(alloc, "invert", 'v', invert))
}

/// The option for arguments `NAME=CODE`.
fn name_option<'a>(alloc: Global) -> Arg<'a> {
    Arg::new(alloc, "name")
        .short('n')
        .long("name")
        .value_name("NAME=CODE")
        .action(ArgAction::Append)
        .help("Set NAME to the value of CODE; it wins over a member of that name")
}

/// An option that turns limits on or off. The last of them counts.
fn limits_option<'a>(alloc: Global, name: &'a str, help: &'a str) -> Result<Arg<'a>, AllocError> {
    Arg::new(alloc, name)
        .long(name)
        .action(ArgAction::SetTrue)
        .help(help)
        .overrides_with_all(&["limits", "no-limits"])
}

/// The options for limits.
fn with_limits<'a>(alloc: Global, command: Command<'a>) -> Result<Command<'a>, AllocError> {
    let on = "Stop at the limits for untrusted expressions; this is the default";
    let off = "Compile and run without limits, for expressions of your own";
    command
        .arg(limits_option(alloc, "limits", on)?)?
        .arg(limits_option(alloc, "no-limits", off)?)
}

/// The option for the greatest length of a line.
fn bound_option<'a>(alloc: Global) -> Arg<'a> {
    Arg::new(alloc, "max-line")
        .long("max-line")
        .value_name("BYTES")
        .value_parser(value_parser!(u32))
        .default_value("64000000")
        .help("Make longer lines an error")
}

/// The options that say how to work.
fn with_manners<'a>(alloc: Global, command: Command<'a>) -> Result<Command<'a>, AllocError> {
    let fail_fast = "Stop at the first line with an error";
    let progress = "Show the progress each second, if standard error is a terminal";
    command
        .arg(name_option(alloc))?
        .arg(flag(alloc, "fail-fast", 'f', fail_fast))?
        .arg(bound_option(alloc))?
        .arg(flag(alloc, "progress", 'p', progress))
}

/// The arguments that are not options.
fn with_operands<'a>(alloc: Global, command: Command<'a>) -> Result<Command<'a>, AllocError> {
    let expression = Arg::new(alloc, "EXPRESSION")
        .required(true)
        .help("The expression to evaluate for each line");
    let files = Arg::new(alloc, "FILE")
        .num_args(0..)
        .action(ArgAction::Append)
        .help("Files to read; - or no file is standard input");
    command.arg(expression)?.arg(files)
}

/// The command line.
fn command<'a>(alloc: Global) -> Result<Command<'a>, AllocError> {
    let command = Command::new(alloc, "expr_lines")
        .about(ABOUT)
        .after_help(NOTES);
    let command = with_operands(alloc, command)?;
    let command = with_purposes(alloc, command)?;
    with_limits(alloc, with_manners(alloc, command)?)
}

/// What to do with the records.
fn purpose_of(matches: &ArgMatches) -> Purpose {
    let truth = !matches.get_flag("invert");
    if matches.get_flag("map") {
        Purpose::Rewrite
    } else if matches.get_flag("count") {
        Purpose::Count(truth)
    } else {
        Purpose::Keep(truth)
    }
}

/// The limits of the expression and of each run, if there are any.
fn limits_of(matches: &ArgMatches) -> Option<Limits> {
    if matches.get_flag("no-limits") {
        None
    } else {
        Some(Limits::untrusted())
    }
}

/// The values of an option.
fn values_of<'a>(
    alloc: Global,
    matches: &ArgMatches<'a>,
    id: &str,
) -> Result<Vec<&'a str>, AllocError> {
    let mut values = Vec::new(alloc);
    if let Some(given) = matches.get_strs(id) {
        for value in given {
            values.push(*value)?;
        }
    }
    Ok(values)
}

impl<'a> Options<'a> {
    /// Reads the arguments. The first is the program's name.
    ///
    /// # Errors
    ///
    /// Returns what to print for wrong arguments or for `--help`.
    pub fn read(alloc: Global, words: &'a [String]) -> Result<Options<'a>, Error> {
        let matches = command(alloc)?.try_get_matches_from(words)?;
        Ok(Options {
            expression: matches.get_str("EXPRESSION").unwrap_or(""),
            files: values_of(alloc, &matches, "FILE")?,
            names: values_of(alloc, &matches, "name")?,
            purpose: purpose_of(&matches),
            limits: limits_of(&matches),
            stops: matches.get_flag("fail-fast"),
            bound: matches.get_one::<u32>("max-line").unwrap_or(64_000_000) as usize,
            tells: matches.get_flag("progress"),
        })
    }
}
