//! The functions on versions by name, and their calls.
ghost use Rattle.std.specs.Prelude.{◌≡◌, is_some, string_bytes};
ghost use Rattle.std.specs.Option.{option_map};
ghost use Rattle.expr_arguments.specs.Arguments.{two_texts};
ghost use Rattle.expr_error.specs.ErrorKind.{IsOfKind, evaluation};
ghost use Rattle.expr_value.specs.Answers.{Returns, ReturnsExactly};
ghost use Rattle.expr_versions.specs.Versions.{VersionsReturn, compared, function_added, version_function, matched, ordering_number, version_answer};

use crate::reading::{requirement_of, version_of};
use expr_arguments::{cows_of_values, unexpected_arguments};
use expr_value::{Error, Result, Value};
use std::alloc::Global;
use std::cmp::Ordering;

/// A function on versions.
#[derive(Clone, Copy)]
pub enum VersionFunction {
    /// `versionMatches`: whether a version matches a requirement, by the rules of Cargo.
    Matches,
    /// `versionCompare`: -1, 0 or 1, as the first version comes before the second, is level with it, or comes after it.
    /// Build metadata counts nothing.
    Compare,
}

impl VersionFunction {
    /// The function of this name.
    pub fn from_name(name: &str) -> Option<VersionFunction>
        ensures { result ≡ version_function name.now }
    {
        match name {
            "versionMatches" => Some(VersionFunction::Matches),
            "versionCompare" => Some(VersionFunction::Compare),
            _ => None,
        }
    }

    /// Calls the function.
    ///
    /// # Errors
    ///
    /// Returns `ExprError` for other arguments than two strings, and for a string that is no version or no
    /// requirement. Returns `MemoryError` if an allocation fails.
    pub fn call(self, alloc: Global, arguments: Vec<Value>) -> Result<Value>
        ensures { ReturnsExactly result (version_answer self arguments.items) }
    {
        let Some((first, second)) = two_texts(&arguments) else {
            return Err(self.unexpected(alloc, arguments));
        };
        match self {
            VersionFunction::Matches => matches(alloc, first, second),
            VersionFunction::Compare => compare(alloc, first, second),
        }
    }

    /// The error for other arguments than two strings.
    #[inline(never)]
    fn unexpected(self, alloc: Global, arguments: Vec<Value>) -> Error
        ensures { IsOfKind result evaluation }
    {
        let expected = match self {
            VersionFunction::Matches => "versionMatches takes two strings",
            VersionFunction::Compare => "versionCompare takes two strings",
        };
        match cows_of_values(alloc, arguments) {
            Ok(found) => unexpected_arguments(alloc, expected, found.as_slice()),
            Err(error) => error,
        }
    }
}

/// Whether a host has added a function on versions of this name. `are_added` says whether it has added them.
#[inline(always)]
pub fn has_version_function(are_added: bool, name: &str) -> bool
    ensures { result ≡ is_some (function_added are_added name.now) }
{
    are_added && VersionFunction::from_name(name).is_some()
}

/// Calls the function on versions of this name, if a host has added them.
///
/// # Errors
///
/// Returns `ExprError` for any other name, and the errors of [`VersionFunction::call`].
pub fn call_version_function(
    are_added: bool,
    alloc: Global,
    name: String,
    arguments: Vec<Value>,
) -> Result<Value>
    ensures { Returns result (VersionsReturn are_added (string_bytes name) arguments.items) }
{
    if !are_added {
        return Err(Error::ExprError(name));
    }
    match VersionFunction::from_name(&name) {
        Some(function) => function.call(alloc, arguments),
        None => Err(Error::ExprError(name)),
    }
}

/// The strings, if there are two arguments and both are strings.
fn two_texts(arguments: &[Value]) -> Option<(&str, &str)>
    ensures { option_map (λ p. (p.0.now, p.1.now)) result ≡ two_texts arguments.now }
{
    match arguments {
        [first, second] => Some((first.as_string()?, second.as_string()?)),
        _ => None,
    }
}

/// Whether a version matches a requirement.
fn matches(alloc: Global, version: &str, requirement: &str) -> Result<Value>
    ensures { ReturnsExactly result (matched version.now requirement.now) }
{
    let version = version_of(alloc, "versionMatches", version)?;
    let requirement = requirement_of(alloc, requirement)?;
    Ok(Value::Bool(requirement.matches(&version)))
}

/// How two versions are ordered.
fn compare(alloc: Global, first: &str, second: &str) -> Result<Value>
    ensures { ReturnsExactly result (compared first.now second.now) }
{
    let first = version_of(alloc, "versionCompare", first)?;
    let second = version_of(alloc, "versionCompare", second)?;
    Ok(Value::Integer(ordering_number(first.cmp_precedence(&second))))
}

/// An order as a number: -1, 0 or 1.
fn ordering_number(order: Ordering) -> i64
    ensures { result ≡ ordering_number order }
{
    match order {
        Ordering::Less => -1,
        Ordering::Equal => 0,
        Ordering::Greater => 1,
    }
}
