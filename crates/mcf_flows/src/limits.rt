//! The limits of instances and of answers. Code and definitions share each number.

/// The greatest number of nodes.
pub const NODE_LIMIT: u32 = 1_000_000;

/// The greatest number of arcs.
pub const ARC_LIMIT: u32 = 10_000_000;

/// The greatest absolute value of a supply.
pub const SUPPLY_LIMIT: u64 = 1_000_000_000_000_000_000;

/// The greatest absolute value of a bound.
pub const BOUND_LIMIT: u64 = 1_000_000_000_000_000_000;

/// The greatest absolute value of a cost.
pub const COST_LIMIT: u64 = 1_000_000_000_000_000;

/// The greatest total over the arcs, each counted as the absolute value of its cost times the
/// greater absolute value of its bounds.
pub const TOTAL_LIMIT: u128 = 1_000_000_000_000_000_000_000_000_000_000_000_000;

/// The greatest absolute value of a cost, a flow and a price in an answer.
pub const AMOUNT_LIMIT: u128 = 10_000_000_000_000_000_000_000_000_000_000_000_000;

/// The greatest line number that a refusal may name.
pub const LINE_LIMIT: u128 = 10_000_000_000_000_000_000_000_000_000_000_000_000;
