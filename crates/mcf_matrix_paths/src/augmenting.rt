//! What both searches have in common: the order of bids and augmenting paths, and the change of
//! prices after a path.

use crate::bidding::{Bidder, reduce_rows};
use mcf_columns::{Pile, at};
use mcf_matrix_rows::Pairing;

/// A search that finds shortest augmenting paths, after bids.
pub(crate) trait Augmenter: Bidder {
    /// Augments the matching along a shortest path from a free row. Returns whether the budget
    /// allowed it.
    fn augment(&mut self, free: u32) -> bool;
}

/// Gives each row of the pile `free` a column: by two rounds of bids, and then by augmenting paths.
/// Returns whether the budget allowed it. `left` is scratch memory.
pub(crate) fn assign_rows<A: Augmenter>(
    search: &mut A,
    free: &mut Pile,
    left: &mut Pile,
    rows: u32,
) -> bool {
    reduce_rows(search, free, left, rows);
    reduce_rows(search, left, free, rows);
    'rows: for place in 0..free.len() {
        if !search.augment(free.get(place)) {
            return false;
        }
    }
    true
}

/// Lowers the price of each settled column by how much nearer it is than the end of the path, whose
/// distance is `end`.
pub(crate) fn lower_settled(pairing: &mut Pairing, settled: &Pile, distances: &[i64], end: i64) {
    'columns: for place in 0..settled.len() {
        let column = settled.get(place);
        let nearer = at(distances, column, 0).wrapping_sub(end);
        pairing.raise(column, nearer);
    }
}
