//! How a walk ends.

/// How a walk ends.
#[derive(Clone, Copy, Debug, PartialEq, Eq)]
pub(crate) enum Ended {
    /// As many arrangements are listed as are wanted.
    Enough,
    /// Nothing is left that it hasn't looked at.
    Whole,
    /// Its fuel is spent, or another worker is done.
    Spent,
}
