//! Column reduction: the price of each column is its least entry, and the column is paired with the
//! row of that entry if the row is free.

use mcf_columns::{NOWHERE, at, narrow, put};
use mcf_matrix_rows::{Pairing, View, lower_prices};

/// Reduces the columns of a square matrix, in order. Each column is paired with the first row that
/// has its least entry. `rows` is scratch memory, one entry for each column. `counts` receives for
/// each row how many columns have their least entry there.
pub(crate) fn reduce_columns(
    view: View<'_>,
    pairing: &mut Pairing,
    rows: &mut [i64],
    counts: &mut [u32],
) {
    write_least_entries(view, pairing.prices.as_mut_slice(), rows);
    counts.fill(0);
    'columns: for column in 0..view.columns {
        let row = u32::try_from(at(rows, column, -1)).unwrap_or(NOWHERE);
        let count = at(counts, row, 1);
        put(counts, row, count.wrapping_add(1));
        if count == 0 {
            pairing.pair(row, column);
        }
    }
}

// Writes each column's least entry, and the first row that has it.
fn write_least_entries(view: View<'_>, prices: &mut [i64], rows: &mut [i64]) {
    prices.fill(i64::MAX);
    rows.fill(0);
    'rows: for row in 0..view.rows {
        lower_prices(i64::from(row), view.row(row), prices, rows);
    }
}
