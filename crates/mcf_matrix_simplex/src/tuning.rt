//! The constant that limits the pivots, with the measurements behind it.

/// The simplex gives up after this many pivots per row and column. Random and geometric costs take
/// 3 to 10 at 200 to 1,000 rows. Products of row and column numbers take a seventh of the number of
/// rows: 205 at 1,500.
pub(crate) const PIVOTS_PER_NODE: u64 = 2000;
