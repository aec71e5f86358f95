//! Rows that bid for columns: augmenting row reduction (Jonker and Volgenant, A shortest augmenting
//! path algorithm for dense and sparse linear assignment problems, 1987).

use crate::tuning::BIDS_PER_ROW;
use mcf_columns::{NOWHERE, Pile};

/// The result of a bid: the row that lost its column, or `NOWHERE`, and whether the column's price
/// fell.
#[derive(Clone, Copy)]
pub(crate) struct Bid {
    pub(crate) loser: u32,
    pub(crate) has_lowered: bool,
}

/// A search that finds the best column for a row.
pub(crate) trait Bidder {
    /// Gives a free row its best column, which it may take from another row.
    fn bid(&mut self, row: u32) -> Bid;
}

/// Lets each row of the pile `free` bid once. A row that loses its column bids again at once if the
/// column's price fell, at most `BIDS_PER_ROW` times `rows` times in all. Rows that end without a
/// column go onto the pile `left`.
pub(crate) fn reduce_rows<B: Bidder>(bidder: &mut B, free: &Pile, left: &mut Pile, rows: u32) {
    let mut bids = rows.saturating_mul(BIDS_PER_ROW);
    left.clear();
    'rows: for place in 0..free.len() {
        bids = bid_on(bidder, free.get(place), left, bids);
    }
}

// Lets a row bid, and then each row that loses its column to a bid. Returns how many bids are left.
fn bid_on<B: Bidder>(bidder: &mut B, first: u32, left: &mut Pile, bids: u32) -> u32 {
    let mut row = first;
    'bids: for used in 0..bids {
        let bid = bidder.bid(row);
        if bid.loser == NOWHERE {
            return bids.wrapping_sub(used);
        }
        row = bid.loser;
        if !bid.has_lowered {
            left.add(row);
            return bids.wrapping_sub(used);
        }
    }
    let bid = bidder.bid(row);
    if bid.loser != NOWHERE {
        left.add(bid.loser);
    }
    0
}
