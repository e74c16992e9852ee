//! The limits of a value.

/// Which limit a value exceeds.
#[derive(Debug, Clone, Copy, PartialEq, Eq, Drop)]
pub enum ValueLimit {
    /// It weighs too much.
    Weight,
    /// It is too deep.
    Depth,
}
