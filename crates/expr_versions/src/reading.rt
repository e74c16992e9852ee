//! Versions and requirements that strings are read as, and the errors for other strings.
ghost use Rattle.std.specs.Prelude.{◌≡◌, Err, IfOk, IsErr, Ok, map};
ghost use Rattle.expr_error.specs.ErrorKind.{IsOfKind, RefusesWith, evaluation};
ghost use Rattle.semver.specs.Identifiers.{comparator_view, parts_of};
ghost use Rattle.semver.specs.Parse.{memory_error, req_of, version_parts};

use expr_arguments::refusal_of;
use expr_error::show_quoted;
use expr_value::{Error, Result};
use semver::{Version, VersionReq};
use std::alloc::{AllocError, Global};
use std::fmt;

/// The version that a string is read as.
///
/// # Errors
///
/// Returns `ExprError` if the string is no version, and `MemoryError` if an allocation fails.
pub(crate) fn version_of(alloc: Global, function: &str, text: &str) -> Result<Version>
    ensures ok { IfOk result (λ version. version_parts text.now ≡ Ok (parts_of version)) }
    ensures err { RefusesWith result (λ kind. (kind ≡ evaluation) × IsErr (version_parts text.now)) }
{
    match Version::parse(alloc, text) {
        Ok(version) => Ok(version),
        Err(why) => Err(unreadable(alloc, function, "versions such as 1.2.3", text, why)),
    }
}

/// The requirement that a string is read as.
///
/// # Errors
///
/// Returns `ExprError` if the string is no requirement, and `MemoryError` if an allocation fails.
pub(crate) fn requirement_of(alloc: Global, text: &str) -> Result<VersionReq>
    ensures ok { IfOk result (λ requirement. req_of text.now
        ≡ Ok (map comparator_view requirement.comparators.items)) }
    ensures err { RefusesWith result (λ kind. (kind ≡ evaluation) × IsErr (req_of text.now)) }
{
    match VersionReq::parse(alloc, text) {
        Ok(requirement) => Ok(requirement),
        Err(why) => {
            let expected = "a requirement such as >=1.2, <2";
            Err(unreadable(alloc, "versionMatches", expected, text, why))
        }
    }
}

/// The error for a string that can't be read: what the function takes, the string, and why.
#[inline(never)]
fn unreadable(
    alloc: Global,
    function: &str,
    expected: &str,
    text: &str,
    why: semver::Error,
) -> Error
    ensures memory { why ≡ memory_error → result ≡ Error.MemoryError }
    ensures kind { IsOfKind result evaluation }
{
    if why == semver::Error::from(AllocError) {
        return Error::MemoryError;
    }
    let found = Found { text };
    refusal_of(format!(in alloc; "{function} takes {expected}, found {found}: {why}"))
}

/// A string in a message. A long one is its length alone.
#[derive(Drop)]
struct Found<'a> {
    text: &'a str,
}

/// The longest string in bytes that a message quotes.
const LONGEST: usize = 80;

impl fmt::Display for Found<'_> {
    fn fmt<W: fmt::Write>(&self, f: &mut fmt::Formatter<W>) -> fmt::Result {
        if self.text.len() > LONGEST {
            let bytes = self.text.len();
            return write!(f, "a String of {bytes} bytes");
        }
        show_quoted(self.text, f)
    }
}
