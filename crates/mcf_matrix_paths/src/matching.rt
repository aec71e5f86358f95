//! Which search is made: one over whole rows, or one over lists of their least entries.

use crate::tuning::LIST_ROWS;
use crate::{lazy, whole};
use mcf_matrix_rows::{Pairing, View};
use mcf_text::NoMemory;
use std::alloc::Global;

/// Searches for a least-cost matching of all rows, by shortest augmenting paths.
///
/// The view must have no forbidden pairs, and no more rows than columns. The pairing returned is
/// meant to have a column for each row, and prices of columns that show it to be least; the caller
/// has to check both. Returns `None` if the search exceeds its budget of steps.
///
/// # Errors
///
/// `NoMemory` if an allocation is refused.
pub fn search_by_paths(alloc: Global, view: View<'_>) -> Result<Option<Pairing>, NoMemory> {
    if view.rows < LIST_ROWS {
        whole::search(alloc, view)
    } else {
        lazy::search(alloc, view)
    }
}
