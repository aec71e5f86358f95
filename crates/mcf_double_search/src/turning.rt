//! The exchange of rows and columns, for matrices with more rows than columns.

use crate::found::{DoubleAssignment, DoubleFound};
use mcf_columns::{NOWHERE, at, narrow, put};
use mcf_matrix_search::Cover;
use mcf_text::{NoMemory, copies};
use std::alloc::Global;

/// Exchanges rows and columns in what a search found.
pub(crate) fn turn_found(
    alloc: Global,
    found: Option<DoubleFound>,
) -> Result<Option<DoubleFound>, NoMemory> {
    match found {
        Some(DoubleFound::Assignment(found)) => Ok(Some(DoubleFound::Assignment(turn_assignment(
            alloc, found,
        )?))),
        Some(DoubleFound::Cover(Cover { rows, columns })) => Ok(Some(DoubleFound::Cover(Cover {
            rows: columns,
            columns: rows,
        }))),
        None => Ok(None),
    }
}

// Exchanges rows and columns of an assignment.
fn turn_assignment(alloc: Global, turned: DoubleAssignment) -> Result<DoubleAssignment, NoMemory> {
    let mut column_of = copies(alloc, turned.column_prices.len(), NOWHERE)?;
    'columns: for column in 0..narrow(turned.column_of.len()) {
        let row = at(&turned.column_of, column, NOWHERE);
        put(&mut column_of, row, column);
    }
    Ok(DoubleAssignment {
        column_of,
        row_prices: turned.column_prices,
        column_prices: turned.row_prices,
        unit: turned.unit,
        is_rounded: turned.is_rounded,
    })
}
