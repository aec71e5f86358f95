#![tactic(auto)]

//! Shortest augmenting paths on a cost matrix, for matchings of all rows (Jonker and Volgenant, A
//! shortest augmenting path algorithm for dense and sparse linear assignment problems, 1987).
//!
//! Nothing is proved of the matching that a search finds: the search is safe and ends.
//!
//! It builds on `mcf_columns` and `mcf_matrix_rows`.

mod augmenting;
mod bidding;
mod heap;
mod lazy;
mod lists;
mod matching;
mod reduction;
mod tuning;
mod whole;

pub use matching::search_by_paths;
