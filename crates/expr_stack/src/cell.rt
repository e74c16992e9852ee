//! A value on a stack or in a slot, as contracts see it.

use expr_value::Value;

/// A value on a stack or in a slot, as contracts see it.
#[derive(Drop)]
pub enum Cell {
    /// A value that was lent for the whole run, or any integer or boolean.
    Value(Value),
    /// A value that the stack owns.
    Own(Value),
    /// The index of a value in the kept list of the machine.
    Place(usize),
}
