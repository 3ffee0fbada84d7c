//! Ways to read a number.

/// A way to read a number. It changes the speed, never the result.
#[derive(Clone, Copy, Debug, PartialEq, Eq)]
pub enum Way {
    /// For a number that probably has one or two digits. It has no branch on which of them it is.
    Short,
    /// For a longer number. It has no branch on the number of digits up to eight.
    Long,
}
