//! The limits of a call.

/// A limit that a call exceeds.
#[derive(Debug, Clone, Copy, PartialEq, Eq, Drop)]
pub enum Limit {
    /// The syntax tree of the expression is too high.
    Nesting,
    /// The literal patterns of the expression weigh too much.
    Patterns,
    /// The run takes too many steps.
    Steps,
    /// The run makes a value that is too deep.
    Depth,
    /// The run holds too much at once.
    Size,
}
