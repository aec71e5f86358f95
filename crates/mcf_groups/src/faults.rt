//! Faults of groups.

/// The greatest number of places of the model of a roster with groups.
pub const PLACE_LIMIT: u32 = 2_000_000_000;

/// What is wrong with a group. The tests are made in the order of the cases.
#[derive(Clone, Copy, Debug, PartialEq, Eq)]
pub enum GroupFaultKind {
    /// The least number of its range is above its greatest.
    Empty,
    /// A member isn't there.
    Astray,
    /// There are more than `PLACE_LIMIT` places.
    Size,
    /// An earlier group of the same kind has some of its members, and not all.
    Crossing,
}

/// A group, counted from 1, and its fault.
#[derive(Clone, Copy, Debug, PartialEq, Eq)]
pub struct GroupFault {
    pub group: usize,
    pub what: GroupFaultKind,
}
