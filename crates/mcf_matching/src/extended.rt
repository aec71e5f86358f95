//! The result of a search.

/// What one search did.
#[derive(Clone, Copy, Debug, PartialEq, Eq)]
pub enum Extended {
    /// The row is matched, and so are all rows and columns that were matched before.
    Matched,
    /// No augmenting path begins at the row: the set that the search reached must send more than it
    /// can.
    Blocked,
}
