//! Offers: the arcs of the net as the pricing rule reads them.

/// The residual arc along which an arc outside the tree can carry more: its ends and the cost of a
/// unit, in 16 bytes.
///
/// A full arc is reversed: its ends are swapped and its cost negated. An arc without capacity has
/// the root at both ends and cost 0, so that its reduced cost is never below 0. A tree arc has
/// either direction: its reduced cost is 0.
#[derive(Clone, Copy, Debug)]
pub(crate) struct ArcOffer {
    pub(crate) from: u32,
    pub(crate) to: u32,
    pub(crate) cost: i64,
}
