//! Least assignments of cost matrices in arrays, and the judge of such assignments.
ghost use Rattle.std.specs.Prelude.{◌≡◌, ◌+◌, ℕ, List, length, true, false};
ghost use Rattle.mcf_matrix.specs.Covers.{IsShortCover};
ghost use Rattle.mcf_matrix.specs.Matchings.{IsLeastMatching, IsMatching};
ghost use Rattle.mcf_matrix.specs.MatrixPrices.{IsShownMatching};
ghost use Rattle.mcf_matrix.specs.Tables.{IsMatrix, whole_costs};
ghost use Rattle.mcf_c.specs.Matrices.{AnswersMatrix, HandsCover, JudgesMatrix, LacksLines, costs_of, table_of};

use crate::handing::put_marks;
use crate::statuses::{
    ACCEPTED, BLOCKED, BUFFER_TOO_SMALL, FLOW, INVALID_INPUT, NO_MEMORY, NOT_SHOWN, REJECTED,
};
use crate::transports::Lines;
use mcf_matrix::{Matrix, judge_assignment};
use mcf_matrix_solver::{Assigned, Assignment, Cover, assign};
use std::alloc::Global;

/// A cost matrix in an array: the cost of row i and column j is at place i * stride + j, where rows
/// and columns count from 0. The greatest number of 64 bits forbids the pair.
#[repr(C)]
#[derive(Clone, Copy)]
pub struct McfMatrix<'a> {
    pub costs: &'a [i64],
    pub rows: usize,
    pub columns: usize,
    pub stride: usize,
}

/// Returns whether arrays have these lengths: an entry and a price for each row, and a price for
/// each column.
pub(crate) fn are_lines(lines: Lines, entries: usize, prices: Lines) -> bool
    ensures yes { result ≡ true → (entries ≡ lines.rows) × (prices.rows ≡ lines.rows) × (prices.columns ≡ lines.columns) }
    ensures no { result ≡ false → LacksLines lines.rows lines.columns entries prices.rows prices.columns }
{
    entries == lines.rows && prices.rows == lines.rows && prices.columns == lines.columns
}

/// Finds a least assignment of a cost matrix. Writes the column of each row, or a number that is no
/// column's for a row without one, and prices of rows and columns that show the assignment.
///
/// The status is 0 for an assignment. It is 1 if there is none: the prices then mark by 1 rows and
/// columns that cover all allowed pairs and are fewer than the smaller side has, and by 0 all
/// others. It is 2 if rows overlap or don't end within the costs, or a cost is more than 10^15 from
/// 0; 3 if an allocation is refused; 4 if a buffer doesn't have an entry for each row or column;
/// and 7 if the search found nothing that the judge accepts. From 2 on all buffers are unchanged,
/// and at 1 the columns are.
#[unsafe(no_mangle)]
pub extern "C" fn mcf_assign_matrix(
    alloc: Global,
    matrix: &McfMatrix<'_>,
    column_of: &mut [u32],
    row_prices: &mut [i64],
    column_prices: &mut [i64],
) -> u32
    ensures answers { AnswersMatrix (IsMatrix (table_of matrix.now)) (LacksLines matrix.now.rows matrix.now.columns (length column_of.old) (length row_prices.old) (length column_prices.old)) (matrix.now.rows + matrix.now.columns) result column_of.old column_of.new row_prices.old row_prices.new column_prices.old column_prices.new }
    ensures shown { result ≡ FLOW → IsShownMatching (costs_of matrix.now) column_of.new row_prices.new column_prices.new }
    ensures least { result ≡ FLOW → IsLeastMatching (costs_of matrix.now) column_of.new }
    ensures cover { result ≡ BLOCKED → HandsCover (costs_of matrix.now) row_prices.new column_prices.new }
    ensures none { result ≡ BLOCKED → (x : List ℕ) → ¬ IsMatching (costs_of matrix.now) x }
{
    let McfMatrix { rows, columns, .. } = *matrix;
    let prices = Lines {
        rows: row_prices.len(),
        columns: column_prices.len(),
    };
    if !are_lines(Lines { rows, columns }, column_of.len(), prices) {
        return BUFFER_TOO_SMALL;
    }
    let Ok(matrix) = Matrix::of(matrix.costs, rows, columns, matrix.stride) else {
        return INVALID_INPUT;
    };
    match assign(alloc, &matrix) {
        Ok(Assigned::Least(found)) => {
            put_assignment(&matrix, &found, column_of, row_prices, column_prices);
            FLOW
        }
        Ok(Assigned::Infeasible(cover)) => {
            put_cover(&matrix, &cover, row_prices, column_prices);
            BLOCKED
        }
        Ok(Assigned::NotShown) => NOT_SHOWN,
        Err(_) => NO_MEMORY,
    }
}

// Writes an assignment with its prices.
fn put_assignment(
    matrix: &Matrix<'_>,
    found: &Assignment,
    column_of: &mut [u32],
    row_prices: &mut [i64],
    column_prices: &mut [i64],
)
    requires shown { IsShownMatching (whole_costs matrix.now) found.now.column_of.items found.now.row_prices.items found.now.column_prices.items }
    requires columns { length column_of.old ≡ matrix.now.rows }
    requires row_prices { length row_prices.old ≡ matrix.now.rows }
    requires column_prices { length column_prices.old ≡ matrix.now.columns }
    ensures columns { column_of.new ≡ found.now.column_of.items }
    ensures row_prices { row_prices.new ≡ found.now.row_prices.items }
    ensures column_prices { column_prices.new ≡ found.now.column_prices.items }
{
    column_of.copy_from_slice(found.column_of.as_slice());
    row_prices.copy_from_slice(found.row_prices.as_slice());
    column_prices.copy_from_slice(found.column_prices.as_slice());
}

// Writes the marks of a cover.
fn put_cover(matrix: &Matrix<'_>, cover: &Cover, row_marks: &mut [i64], column_marks: &mut [i64])
    requires cover { IsShortCover (whole_costs matrix.now) cover.now.rows.items cover.now.columns.items }
    requires rows { length row_marks.old ≡ matrix.now.rows }
    requires columns { length column_marks.old ≡ matrix.now.columns }
    ensures { HandsCover (whole_costs matrix.now) row_marks.new column_marks.new }
{
    put_marks(cover.rows.as_slice(), row_marks);
    put_marks(cover.columns.as_slice(), column_marks);
}

/// Judges an assignment with prices for a cost matrix, whoever made them.
///
/// The status is 0 if the prices show that the assignment is least, 1 if they don't or an array
/// doesn't have an entry for each row or column, 2 if the matrix has a fault, and 3 if an
/// allocation is refused.
#[unsafe(no_mangle)]
pub extern "C" fn mcf_check_matrix(
    alloc: Global,
    matrix: &McfMatrix<'_>,
    column_of: &[u32],
    row_prices: &[i64],
    column_prices: &[i64],
) -> u32
    ensures judges { JudgesMatrix (IsMatrix (table_of matrix.now)) (IsShownMatching (costs_of matrix.now) column_of.now row_prices.now column_prices.now) matrix.now.columns result }
    ensures least { result ≡ ACCEPTED → IsLeastMatching (costs_of matrix.now) column_of.now }
{
    let Ok(matrix) = Matrix::of(matrix.costs, matrix.rows, matrix.columns, matrix.stride) else {
        return INVALID_INPUT;
    };
    match judge_assignment(alloc, &matrix, column_of, row_prices, column_prices) {
        Ok(true) => ACCEPTED,
        Ok(false) => REJECTED,
        Err(_) => NO_MEMORY,
    }
}
