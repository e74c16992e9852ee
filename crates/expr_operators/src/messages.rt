//! Messages of errors, for people.
ghost use Rattle.std.specs.Prelude.{Err};
ghost use Rattle.expr_value.specs.Answers.{ReturnsExactly};
ghost use Rattle.expr_error.specs.ErrorKind.{evaluation, IsOfKind};

use expr_arguments::{kind_of, refusal_of};
use expr_value::{Error, Value};
use std::alloc::Global;
use std::fmt::Display;

/// The error for operands that an operator doesn't take.
pub fn mismatch<D: Display>(alloc: Global, operator: &D, left: &Value, right: &Value) -> Error
    ensures { IsOfKind result evaluation }
{
    let left = kind_of(left);
    let right = kind_of(right);
    refusal_of(format!(in alloc; "operator {operator} does not take {left} and {right}"))
}

/// The result of an operator on operands that it doesn't take: an `ExprError`.
#[inline(never)]
pub fn refuse<D: Display>(
    alloc: Global,
    operator: &D,
    left: &Value,
    right: &Value,
) -> expr_value::Result<Value>
    ensures { ReturnsExactly result (Err evaluation) }
{
    Err(mismatch(alloc, operator, left, right))
}

/// The error for a key of a kind by which the value can't be indexed.
pub fn not_indexed(alloc: Global, value: &Value, key: &Value) -> Error
    ensures { IsOfKind result evaluation }
{
    let value = kind_of(value);
    let key = kind_of(key);
    refusal_of(format!(in alloc; "{value} cannot be indexed by {key}"))
}

/// The error for a value of another kind than the expected one.
pub fn unexpected_kind(alloc: Global, expected: &str, met: &Value) -> Error
    ensures { IsOfKind result evaluation }
{
    let met = kind_of(met);
    refusal_of(format!(in alloc; "expected {expected}, found {met}"))
}

/// The error for the operand of a unary operator that takes another kind.
pub fn unexpected_after(alloc: Global, operator: &str, expected: &str, met: &Value) -> Error
    ensures { IsOfKind result evaluation }
{
    let met = kind_of(met);
    refusal_of(format!(in alloc; "expected {expected} after {operator}, found {met}"))
}

/// The error for a name that neither the context nor a `let` line has.
#[inline(never)]
pub fn unknown_name(alloc: Global, name: &str) -> Error
    ensures { IsOfKind result evaluation }
{
    refusal_of(format!(in alloc; "unknown name {name}"))
}

/// The error for a function that is neither added nor built in.
#[inline(never)]
pub fn unknown_function(alloc: Global, name: &str) -> Error
    ensures { IsOfKind result evaluation }
{
    refusal_of(format!(in alloc; "unknown function {name}"))
}

/// The error for a method that the value doesn't have.
#[inline(never)]
pub fn unknown_method(alloc: Global, name: &str) -> Error
    ensures { IsOfKind result evaluation }
{
    refusal_of(format!(in alloc; "unknown method {name}"))
}
