//! Least assignments of cost matrices of doubles in arrays, and the judge of such assignments.
ghost use Rattle.std.specs.Prelude.{◌≡◌, ◌≤◌, ◌+◌, ℕ, IsTrue, List, length, true, false};
ghost use Rattle.mcf_c.specs.DoubleMatrices.{HandsWideCover, costs_by, double_costs_of, doubles_of, gap_by, tells_rounded, wide_values};
ghost use Rattle.mcf_c.specs.Matrices.{AnswersMatrix, JudgesMatrix, LacksLines};
ghost use Rattle.mcf_matrix.specs.Covers.{IsShortCover};
ghost use Rattle.mcf_matrix.specs.Matchings.{IsLeastMatching, IsMatching};
ghost use Rattle.mcf_matrix.specs.MatrixPrices.{IsShownMatching};
ghost use Rattle.mcf_matrix_doubles.specs.DoublePrices.{AreSmallPrices, in_units};
ghost use Rattle.mcf_matrix_doubles.specs.DoubleTables.{IsDoubleMatrix, double_costs};
ghost use Rattle.mcf_matrix_doubles.specs.Rounding.{IsNearlyLeastMatching, costs_read};
ghost use Rattle.mcf_matrix_doubles.specs.Spans.{IsNarrow, IsWide};

use crate::matrices::are_lines;
use crate::statuses::{
    ACCEPTED, BLOCKED, BUFFER_TOO_SMALL, FLOW, INVALID_INPUT, NO_MEMORY, NOT_SHOWN, REJECTED,
};
use crate::transports::Lines;
use crate::wide::{McfWide, numbers_of, put_wide, put_wide_marks};
use mcf_double_solver::{Cover, DoubleAssigned, DoubleAssignment, DoubleMatrix, assign};
use mcf_matrix_doubles::{DoublePrices, judge_assignment};
use std::alloc::Global;

/// A cost matrix of doubles in an array, by their bits: those of row i and column j are at place
/// i * stride + j, where rows and columns count from 0. +infinity forbids the pair.
#[repr(C)]
#[derive(Clone, Copy)]
pub struct McfDoubles<'a> {
    pub costs: &'a [u64],
    pub rows: usize,
    pub columns: usize,
    pub stride: usize,
}

/// The unit of prices, 2^unit * 2^-1074, and whether costs are rounded down to such units: any
/// number but 0 tells so.
#[repr(C)]
#[derive(Clone, Copy)]
pub struct McfScale {
    pub unit: u32,
    pub is_rounded: u32,
}

/// Returns the scale of a unit.
pub(crate) fn scale_of(unit: u32, is_rounded: bool) -> McfScale
    ensures unit { result.unit ≡ unit }
    ensures told { tells_rounded result ≡ is_rounded }
{
    McfScale {
        unit,
        is_rounded: if is_rounded { 1 } else { 0 },
    }
}

/// Finds a least assignment of a cost matrix of doubles, which it reads exactly. Writes the column
/// of each row, or a number that is no column's for a row without one, and prices of rows and
/// columns that show the assignment, in units of 2^unit * 2^-1074.
///
/// Unless the bits of finite entries span more than 118 places, the assignment is exact. If they
/// do, it may be a least one of the entries rounded down to such units, and `scale` tells so: no
/// assignment costs less by as much as one unit a pair, and the greatest size of an entry is at
/// least 2^117 units.
///
/// The status is 0 for an assignment. It is 1 if there is none: the prices then mark by 1 rows and
/// columns that cover all allowed pairs and are fewer than the smaller side has, and by 0 all
/// others. It is 2 if rows overlap or don't end within the costs, or an entry is a NaN or
/// -infinity; 3 if an allocation is refused; 4 if a buffer doesn't have an entry for each row or
/// column; and 7 if the search found nothing that the judge accepts. From 2 on all buffers are
/// unchanged, and at 1 the columns and the scale are.
#[unsafe(no_mangle)]
pub extern "C" fn mcf_assign_doubles(
    alloc: Global,
    matrix: &McfDoubles<'_>,
    column_of: &mut [u32],
    row_prices: &mut [McfWide],
    column_prices: &mut [McfWide],
    scale: &mut McfScale,
) -> u32
    ensures answers { AnswersMatrix (IsDoubleMatrix (doubles_of matrix.now)) (LacksLines matrix.now.rows matrix.now.columns (length column_of.old) (length row_prices.old) (length column_prices.old)) (matrix.now.rows + matrix.now.columns) result column_of.old column_of.new row_prices.old row_prices.new column_prices.old column_prices.new }
    ensures shown { result ≡ FLOW → IsShownMatching (costs_by scale.new matrix.now) column_of.new (in_units scale.new.unit (wide_values row_prices.new)) (in_units scale.new.unit (wide_values column_prices.new)) }
    ensures least { result ≡ FLOW → IsLeastMatching (costs_by scale.new matrix.now) column_of.new }
    ensures near { result ≡ FLOW → IsNearlyLeastMatching (double_costs_of matrix.now) column_of.new (gap_by scale.new matrix.now) }
    ensures exact { result ≡ FLOW → IsNarrow (double_costs_of matrix.now) → tells_rounded scale.new ≡ false }
    ensures wide { result ≡ FLOW → IsTrue (tells_rounded scale.new) → IsWide scale.new.unit (double_costs_of matrix.now) }
    ensures cover { result ≡ BLOCKED → HandsWideCover (double_costs_of matrix.now) row_prices.new column_prices.new }
    ensures none { result ≡ BLOCKED → (x : List ℕ) → ¬ IsMatching (double_costs_of matrix.now) x }
    ensures scale_stays { BLOCKED ≤ result → scale.new ≡ scale.old }
{
    let McfDoubles { rows, columns, .. } = *matrix;
    let prices = Lines {
        rows: row_prices.len(),
        columns: column_prices.len(),
    };
    if !are_lines(Lines { rows, columns }, column_of.len(), prices) {
        return BUFFER_TOO_SMALL;
    }
    let Ok(matrix) = DoubleMatrix::of(matrix.costs, rows, columns, matrix.stride) else {
        return INVALID_INPUT;
    };
    match assign(alloc, &matrix) {
        Ok(DoubleAssigned::Least(found)) => {
            put_found(&matrix, &found, column_of, row_prices, column_prices);
            *scale = scale_of(found.unit, found.is_rounded);
            FLOW
        }
        Ok(DoubleAssigned::Infeasible(cover)) => {
            put_cover(&matrix, &cover, row_prices, column_prices);
            BLOCKED
        }
        Ok(DoubleAssigned::NotShown) => NOT_SHOWN,
        Err(_) => NO_MEMORY,
    }
}

// Writes an assignment with its prices.
fn put_found(
    matrix: &DoubleMatrix<'_>,
    found: &DoubleAssignment,
    column_of: &mut [u32],
    row_prices: &mut [McfWide],
    column_prices: &mut [McfWide],
)
    requires shown { IsShownMatching (costs_read found.now.unit found.now.is_rounded (double_costs matrix.now)) found.now.column_of.items (in_units found.now.unit found.now.row_prices.items) (in_units found.now.unit found.now.column_prices.items) }
    requires columns { length column_of.old ≡ matrix.now.rows }
    requires row_prices { length row_prices.old ≡ matrix.now.rows }
    requires column_prices { length column_prices.old ≡ matrix.now.columns }
    ensures columns { column_of.new ≡ found.now.column_of.items }
    ensures row_prices { wide_values row_prices.new ≡ found.now.row_prices.items }
    ensures column_prices { wide_values column_prices.new ≡ found.now.column_prices.items }
{
    column_of.copy_from_slice(found.column_of.as_slice());
    put_wide(found.row_prices.as_slice(), row_prices);
    put_wide(found.column_prices.as_slice(), column_prices);
}

// Writes the marks of a cover.
fn put_cover(
    matrix: &DoubleMatrix<'_>,
    cover: &Cover,
    row_marks: &mut [McfWide],
    column_marks: &mut [McfWide],
)
    requires cover { IsShortCover (double_costs matrix.now) cover.now.rows.items cover.now.columns.items }
    requires rows { length row_marks.old ≡ matrix.now.rows }
    requires columns { length column_marks.old ≡ matrix.now.columns }
    ensures { HandsWideCover (double_costs matrix.now) row_marks.new column_marks.new }
{
    put_wide_marks(cover.rows.as_slice(), row_marks);
    put_wide_marks(cover.columns.as_slice(), column_marks);
}

/// Judges an assignment with prices for a matrix of doubles, whoever made them, exactly.
///
/// The status is 0 if the prices show that the assignment is least, of the entries or of the
/// entries rounded down, as `scale` tells; 1 if they don't, a price isn't less than 2^125 from 0,
/// or an array doesn't have an entry for each row or column; 2 if the matrix has a fault; and 3 if
/// an allocation is refused.
#[unsafe(no_mangle)]
pub extern "C" fn mcf_check_doubles(
    alloc: Global,
    matrix: &McfDoubles<'_>,
    column_of: &[u32],
    row_prices: &[McfWide],
    column_prices: &[McfWide],
    scale: &McfScale,
) -> u32
    ensures judges { JudgesMatrix (IsDoubleMatrix (doubles_of matrix.now))
        (AreSmallPrices (wide_values row_prices.now) × AreSmallPrices (wide_values column_prices.now)
        × IsShownMatching (costs_by scale.now matrix.now) column_of.now (in_units scale.now.unit (wide_values row_prices.now)) (in_units scale.now.unit (wide_values column_prices.now)))
        (length row_prices.now + length column_prices.now + matrix.now.columns) result }
    ensures least { result ≡ ACCEPTED → IsLeastMatching (costs_by scale.now matrix.now) column_of.now }
    ensures near { result ≡ ACCEPTED → IsNearlyLeastMatching (double_costs_of matrix.now) column_of.now (gap_by scale.now matrix.now) }
{
    let Ok(matrix) = DoubleMatrix::of(matrix.costs, matrix.rows, matrix.columns, matrix.stride)
    else {
        return INVALID_INPUT;
    };
    let Ok(rows) = numbers_of(alloc, row_prices) else {
        return NO_MEMORY;
    };
    let Ok(columns) = numbers_of(alloc, column_prices) else {
        return NO_MEMORY;
    };
    let prices = DoublePrices {
        rows: rows.as_slice(),
        columns: columns.as_slice(),
        unit: scale.unit,
        is_rounded: 0 < scale.is_rounded,
    };
    match judge_assignment(alloc, &matrix, column_of, &prices) {
        Ok(true) => ACCEPTED,
        Ok(false) => REJECTED,
        Err(_) => NO_MEMORY,
    }
}
