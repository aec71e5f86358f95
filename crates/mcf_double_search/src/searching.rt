//! The search in a matrix of doubles.
ghost use Rattle.std.specs.Prelude.{◌≤◌, ◌+◌, IfNone, IfOk, OnErr};

use crate::cutting::{Grid, cut_costs};
use crate::found::{DoubleAssignment, DoubleFound};
use crate::lines::Lines;
use crate::near::finer_prices;
use crate::refining::refine;
use crate::turning::turn_found;
use crate::window::Window;
use mcf_matrix::Matrix;
use mcf_matrix_doubles::DoubleMatrix;
use mcf_matrix_search::{Assignment, Found};
use mcf_text::NoMemory;
use std::alloc::Global;

// The greatest number of rows or columns that is searched.
const MOST_LINES: usize = 1 << 30;

/// Searches for a least assignment, with prices that show it, or for a cover that shows that there
/// is none.
///
/// The caller has to check the result: this call promises nothing about it. If the bits of the
/// finite entries span at most 49 places, it searches a matrix of exact whole costs. Otherwise it
/// rounds entries to multiples of a power of 2, searches a least assignment of these, and
/// refines it by shortest augmenting paths among the pairs whose exact reduced cost is near 0
/// (Dijkstra 1959). If the bits span more than 118 places, it searches the entries rounded down to
/// the highest 118. Returns `None` if a search gives up. The whole costs take 8 bytes for each
/// entry.
///
/// # Errors
///
/// `NoMemory` if an allocation is refused; a matrix without rows and columns needs none.
pub fn find_assignment(
    alloc: Global,
    matrix: &DoubleMatrix<'_>,
) -> Result<Option<DoubleFound>, NoMemory>
    ensures none { IfOk result (λ found. IfNone found (1 ≤ matrix.now.rows + matrix.now.columns)) }
    ensures wants { OnErr result (1 ≤ matrix.now.rows + matrix.now.columns) }
{
    let (rows, columns) = (matrix.rows(), matrix.columns());
    if rows == 0 && columns == 0 {
        return Ok(Some(DoubleFound::Assignment(DoubleAssignment {
            column_of: Vec::new(alloc),
            row_prices: Vec::new(alloc),
            column_prices: Vec::new(alloc),
            unit: 0,
            is_rounded: false,
        })));
    }
    if rows > MOST_LINES || columns > MOST_LINES {
        return Ok(None);
    }
    let lines = Lines::of(matrix);
    let found = find(alloc, matrix, lines)?;
    if lines.is_turned {
        return turn_found(alloc, found);
    }
    Ok(found)
}

// Searches the lines of a matrix.
fn find(
    alloc: Global,
    matrix: &DoubleMatrix<'_>,
    lines: Lines<'_>,
) -> Result<Option<DoubleFound>, NoMemory> {
    let window = Window::of(matrix);
    let costs = cut_costs(alloc, matrix, Grid::nearest(window.grid()), lines.is_turned)?;
    let (rows, columns) = (lines.rows(), lines.columns());
    let Ok(whole) = Matrix::of(&costs, rows, columns, columns) else {
        return Ok(None);
    };
    match mcf_matrix_search::find_assignment(alloc, &whole)? {
        Some(Found::Assignment(found)) => {
            let exact = made_exact(alloc, lines, window, found, &costs)?;
            Ok(exact.map(DoubleFound::Assignment))
        }
        Some(Found::Cover(cover)) => Ok(Some(DoubleFound::Cover(cover))),
        None => Ok(None),
    }
}

// Returns an assignment of whole costs as one of the exact costs: refined, if these differ. Returns
// `None` if a row can't be matched.
fn made_exact(
    alloc: Global,
    lines: Lines<'_>,
    window: Window,
    found: Assignment,
    costs: &[i64],
) -> Result<Option<DoubleAssignment>, NoMemory> {
    if window.is_whole() {
        return Ok(Some(as_found(alloc, found, window)?));
    }
    refine(alloc, lines, window, found, costs)
}

// Returns an assignment of exact whole costs as one of doubles.
fn as_found(
    alloc: Global,
    found: Assignment,
    window: Window,
) -> Result<DoubleAssignment, NoMemory> {
    let (mut row_prices, column_prices) = finer_prices(alloc, &found, 0)?;
    row_prices.truncate(found.row_prices.len());
    Ok(DoubleAssignment {
        column_of: found.column_of,
        row_prices,
        column_prices,
        unit: window.low,
        is_rounded: window.is_cut,
    })
}
