//! What is asked of groups.

/// What happens to a group that crosses another one, where its members are neither all members of
/// that group nor none of them.
#[derive(Clone, Copy, Debug, PartialEq, Eq)]
pub enum AtCrossing {
    /// It is a fault.
    Refuse,
    /// The choice need not keep to it, and says where it doesn't.
    Check,
}

/// The texts of two tables, in UTF-8, and which of their columns are filled down.
#[derive(Clone, Copy)]
pub struct GroupTexts<'t> {
    /// The table of persons and things.
    pub costs: &'t [u8],
    /// The table of groups.
    pub groups: &'t [u8],
    /// The heads of the columns in which an empty cell takes the one above, one a line.
    pub fill_down: &'t [u8],
}
