//! Copies of matrices in which another cost stands for forbidden pairs, transposed if there are
//! more rows than columns.

use mcf_columns::{at, narrow, put};
use mcf_matrix::FORBIDDEN;
use mcf_matrix_rows::View;
use mcf_text::{NoMemory, copies};
use std::alloc::Global;

// The number of rows that are transposed together, so that they share cache lines.
const SIDE_BY_SIDE: u32 = 16;

/// Copies the costs row after row, with `far` as the cost of forbidden pairs, and transposed if
/// `is_turned`.
///
/// # Errors
/// `NoMemory` if the allocation is refused.
pub(crate) fn copy_costs(
    alloc: Global,
    view: View<'_>,
    far: i64,
    is_turned: bool,
) -> Result<Vec<i64>, NoMemory> {
    let count = (view.rows as usize).saturating_mul(view.columns as usize);
    let mut copy = copies(alloc, count, far)?;
    if is_turned {
        turn_all(view, far, copy.as_mut_slice());
    } else {
        copy_rows(view, far, copy.as_mut_slice());
    }
    Ok(copy)
}

// Returns the cost of a pair, or `far` if it is forbidden.
#[inline(always)]
fn cost_or(cost: i64, far: i64) -> i64 {
    if cost == FORBIDDEN { far } else { cost }
}

// Copies all rows.
fn copy_rows(view: View<'_>, far: i64, copy: &mut [i64]) {
    let columns = view.columns as usize;
    'rows: for row in 0..view.rows {
        let start = (row as usize).wrapping_mul(columns).min(copy.len());
        copy_row(view.row(row), far, columns, &mut copy[start..]);
    }
}

// Copies the first `columns` entries of a row.
fn copy_row(entries: &[i64], far: i64, columns: usize, copy: &mut [i64]) {
    let count = columns.min(entries.len()).min(copy.len());
    'columns: for j in 0..count {
        copy[j] = cost_or(entries[j], far);
    }
}

// Copies all columns as rows.
fn turn_all(view: View<'_>, far: i64, copy: &mut [i64]) {
    'blocks: for block in 0..view.rows / SIDE_BY_SIDE + 1 {
        turn_block(view, far, block.wrapping_mul(SIDE_BY_SIDE), copy);
    }
}

// Copies the entries of all columns in adjacent rows, `SIDE_BY_SIDE` from `first` on.
fn turn_block(view: View<'_>, far: i64, first: u32, copy: &mut [i64]) {
    'columns: for column in 0..view.columns {
        turn_column(view, far, first, column, copy);
    }
}

// Copies the entries of one column in these rows.
fn turn_column(view: View<'_>, far: i64, first: u32, column: u32, copy: &mut [i64]) {
    let start = (column as usize).wrapping_mul(view.rows as usize);
    let end = first.saturating_add(SIDE_BY_SIDE).min(view.rows);
    'rows: for row in first..end {
        let place = start.wrapping_add(row as usize);
        if place < copy.len() {
            copy[place] = cost_or(view.cost(row, column), far);
        }
    }
}
