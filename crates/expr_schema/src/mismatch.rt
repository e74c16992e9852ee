//! Where a context doesn't keep to a schema.
ghost use Rattle.std.specs.Prelude.{◌≡◌};

use crate::kind::Kind;
use expr_value::{Text, Value};
use std::fmt;

/// A name at which a context doesn't have what a schema says.
#[derive(Drop)]
pub struct Mismatch<'a> {
    pub name: &'a str,
    /// The value that stands there, or `None` where none does.
    pub found: Option<&'a Value>,
    /// The kind that is wanted, or `None` where nothing may stand.
    pub wanted: Option<&'a Kind>,
}

impl<'a> Mismatch<'a> {
    /// A name with what was found there and what was wanted.
    pub(crate) fn at(
        name: &'a Text,
        found: Option<&'a Value>,
        wanted: Option<&'a Kind>,
    ) -> Mismatch<'a>
        ensures { result.name.now ≡ name.now }
    {
        Mismatch {
            name: name.as_str(),
            found,
            wanted,
        }
    }
}

impl fmt::Display for Mismatch<'_> {
    fn fmt<W: fmt::Write>(&self, f: &mut fmt::Formatter<W>) -> fmt::Result {
        write!(f, "`{}`: expected ", self.name)?;
        match self.wanted {
            Some(kind) => write!(f, "{kind}")?,
            None => f.write_str("no value")?,
        }
        f.write_str(", found ")?;
        f.write_str(match self.found {
            Some(value) => kind_word(value),
            None => "no value",
        })
    }
}

/// What values like this one are called.
fn kind_word(value: &Value) -> &'static str {
    match value {
        Value::Nil => "nil",
        Value::Bool(_) => "bool",
        Value::Integer(_) => "int",
        Value::String(_) => "string",
        Value::Bytes(_) => "bytes",
        Value::Duration(_) => "duration",
        Value::Month(_) => "month",
        Value::Weekday(_) => "weekday",
        Value::DateTime(_) => "datetime",
        Value::Timezone(_) => "timezone",
        Value::Array(_) => "an array",
        Value::Map(_) => "a map",
        Value::KeyedMap(_) => "a map with scalars as keys",
    }
}
