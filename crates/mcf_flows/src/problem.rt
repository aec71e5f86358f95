//! The two problems, and the two sides by which a node set blocks.

/// The problem of an instance.
#[derive(Clone, Copy, Debug, PartialEq, Eq)]
pub enum Problem {
    /// A minimum-cost flow problem.
    Min,
    /// An assignment problem: each arc carries at most one unit, from a node of supply 1 to one of
    /// supply -1.
    Asn,
}

/// The side by which a node set blocks every flow (Hoffman's condition).
#[derive(Clone, Copy, Debug, PartialEq, Eq)]
pub enum Side {
    /// The set must send more than it can.
    Send,
    /// The set must take more than it can.
    Take,
}
