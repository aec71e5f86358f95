//! The searches of cost matrices.
ghost use Rattle.std.specs.Prelude.{◌≤◌, ◌+◌, IfNone, IfOk, OnErr};

use crate::cuts::find_uneven;
use crate::found::{Assignment, Found, FoundPlan, Plan};
use crate::planning::{Listing, find_without_pairs};
use crate::{assigning, planning};
use mcf_columns::narrow;
use mcf_matrix::{Masses, Matrix, Shipment};
use mcf_matrix_rows::View;
use mcf_text::NoMemory;
use std::alloc::Global;

// The searches return `None` for a matrix with more rows or columns.
const MOST_LINES: usize = 1 << 30;

/// Searches for a least assignment with prices that show it, or for a cover that shows that there
/// is no assignment.
///
/// Prices are meant to satisfy `row_price + column_price <= cost` for each allowed pair, with
/// equality for the pairs of the assignment. If there are more columns than rows, free columns are
/// meant to have the price 0 and no column a price above 0; if there are more rows, the same holds
/// for rows. The caller has to check the result: this call promises nothing about it. Returns
/// `None` if the search exceeds its budget of steps or the matrix has more than 2^30 rows or
/// columns.
///
/// The search uses shortest augmenting paths (Jonker and Volgenant, A shortest augmenting path
/// algorithm for dense and sparse linear assignment problems, 1987), and the network simplex if
/// these take too long. It copies a matrix with more rows than columns or with forbidden pairs.
///
/// # Errors
///
/// `NoMemory` if an allocation is refused; a matrix without rows and columns needs none.
pub fn find_assignment(alloc: Global, matrix: &Matrix<'_>) -> Result<Option<Found>, NoMemory>
    ensures none { IfOk result (λ found. IfNone found (1 ≤ matrix.now.rows + matrix.now.columns)) }
    ensures wants { OnErr result (1 ≤ matrix.now.rows + matrix.now.columns) }
{
    let (rows, columns) = (matrix.rows(), matrix.columns());
    if rows == 0 && columns == 0 {
        return Ok(Some(Found::Assignment(Assignment {
            column_of: Vec::new(alloc),
            row_prices: Vec::new(alloc),
            column_prices: Vec::new(alloc),
        })));
    }
    if rows > MOST_LINES || columns > MOST_LINES {
        return Ok(None);
    }
    assigning::find(alloc, view_of(matrix))
}

// Returns a view of a matrix.
fn view_of<'a>(matrix: &Matrix<'a>) -> View<'a> {
    View {
        costs: matrix.entries(),
        rows: narrow(matrix.rows()),
        columns: narrow(matrix.columns()),
        stride: matrix.stride(),
        zeros: &[],
    }
}

/// Searches for a least transport plan for supplies of rows and demands of columns, with prices
/// that show it, or for a cut that shows that no plan exists.
///
/// Prices are meant to satisfy `row_price + column_price <= cost` for each allowed pair, with
/// equality for the pairs that the plan uses. The caller has to check the result: this call
/// promises nothing about it. If a supply or a demand is below 0, or their sums differ, it finds a
/// cut. Returns `None` if there isn't a supply for each row and a demand for each column, the
/// search exceeds its budget of pivots, or the matrix has more than 2^30 rows or columns.
///
/// The search is the network simplex on all pairs (Dantzig, Application of the simplex method to a
/// transportation problem, 1951). It copies a matrix with forbidden pairs. If the plan that it
/// finds there uses forbidden pairs, the cut has the rows that send through these, and all that
/// residual paths reach from them.
///
/// # Errors
///
/// `NoMemory` if an allocation is refused; a matrix without rows and columns needs none.
pub fn find_plan(
    alloc: Global,
    matrix: &Matrix<'_>,
    masses: &Masses<'_>,
) -> Result<Option<FoundPlan>, NoMemory>
    ensures wants { OnErr result (1 ≤ matrix.now.rows + matrix.now.columns) }
{
    search(alloc, matrix, masses, Listing::Used)
}

/// Searches as `find_plan` does. The plan that it finds lists the pairs of its basis, also those
/// whose amount is 0, so that `improve_plan` can start from it.
///
/// # Errors
///
/// `NoMemory` if an allocation is refused; a matrix without rows and columns needs none.
pub fn find_basic_plan(
    alloc: Global,
    matrix: &Matrix<'_>,
    masses: &Masses<'_>,
) -> Result<Option<FoundPlan>, NoMemory>
    ensures wants { OnErr result (1 ≤ matrix.now.rows + matrix.now.columns) }
{
    search(alloc, matrix, masses, Listing::Basis)
}

/// Improves a plan to a least one for other costs, with prices that show it, by the network simplex
/// from the basis that the plan lists. The plan is meant to be one of `find_basic_plan` or of this
/// call, which lists the pairs of its basis, too.
///
/// The caller has to check the result: this call promises nothing about it. A forbidden pair is
/// read as a cost. Returns `None` if the plan lists no basis, the matrix has no rows or no columns
/// or more than 2^30, or the search exceeds its budget of pivots.
///
/// # Errors
///
/// `NoMemory` if an allocation is refused; a matrix without rows or without columns needs none.
pub fn improve_plan(
    alloc: Global,
    matrix: &Matrix<'_>,
    plan: &[Shipment],
) -> Result<Option<Plan>, NoMemory>
    ensures wants { OnErr result ((1 ≤ matrix.now.rows) × (1 ≤ matrix.now.columns)) }
{
    let (rows, columns) = (matrix.rows(), matrix.columns());
    if rows == 0 || columns == 0 || rows > MOST_LINES || columns > MOST_LINES {
        return Ok(None);
    }
    planning::improve(alloc, view_of(matrix), plan)
}

// Searches for a least transport plan, or for a cut that shows that no plan exists.
fn search(
    alloc: Global,
    matrix: &Matrix<'_>,
    masses: &Masses<'_>,
    listing: Listing,
) -> Result<Option<FoundPlan>, NoMemory>
    ensures wants { OnErr result (1 ≤ matrix.now.rows + matrix.now.columns) }
{
    let (rows, columns) = (matrix.rows(), matrix.columns());
    let are_counted = masses.supplies.len() == rows && masses.demands.len() == columns;
    if !are_counted || rows > MOST_LINES || columns > MOST_LINES {
        return Ok(None);
    }
    if let Some(cut) = find_uneven(alloc, rows, columns, masses)? {
        return Ok(Some(cut));
    }
    if rows == 0 || columns == 0 {
        return Ok(Some(find_without_pairs(alloc, rows, columns)?));
    }
    planning::find(alloc, view_of(matrix), masses, listing)
}
