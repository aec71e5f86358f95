#![tactic(auto)]

//! What the searches of cost matrices share: a view of a matrix, scans of whole rows, and the pairs
//! that a search has made.
//!
//! A proved judge checks what each search finds, so nothing is proved here about the numbers: each
//! call is safe, ends, and keeps the lengths of slices.
//!
//! It builds on `mcf_text` and `mcf_columns`.

mod pairing;
mod scans;
mod view;

pub use pairing::Pairing;
pub use scans::{
    BLOCK, NOTHING, RowOffer, Two, UNREACHED, lower_prices, offer_all, row_greatest, row_least,
    two_least, write_block_leasts,
};
pub use view::View;
