//! The network simplex on all pairs of a matrix.

use crate::basis::{Basis, Entering, Links};
use crate::plan::{Cell, FirstPlan};
use crate::tuning::PIVOTS_PER_NODE;
use mcf_columns::{NOWHERE, at, put};
use mcf_matrix_rows::{Pairing, View, row_least};
use mcf_text::{NoMemory, copies};
use std::alloc::Global;

/// Searches for a least transport plan, from the supplies of the view's senders to the demands of
/// its columns, by the network simplex. The view has rows and columns.
///
/// Returns the last basis, whose prices are meant to show its plan to be least; the caller has to
/// check that. Returns `None` if the search exceeds its budget of pivots.
///
/// # Errors
/// `NoMemory` if an allocation is refused.
pub fn search_plan<'a>(
    alloc: Global,
    view: View<'a>,
    supplies: &[i64],
    demands: &[i64],
) -> Result<Option<Basis<'a>>, NoMemory> {
    let mut numbers = copies(alloc, view.columns as usize, 0)?;
    let mut plan = FirstPlan::start(alloc, view)?;
    plan.write(supplies, demands);
    plan.make(numbers.as_mut_slice());
    improve_plan(alloc, view, plan.made())
}

/// Improves a transport plan to a least one for the view's costs, by the network simplex. The cells
/// are meant to be those of a basis: the arcs of a spanning tree of senders and columns. The view
/// has rows and columns.
///
/// Returns the last basis, as `search_plan` does. Returns `None` if the cells span no tree, or the
/// search exceeds its budget of pivots.
///
/// # Errors
/// `NoMemory` if an allocation is refused.
pub fn improve_plan<'a>(
    alloc: Global,
    view: View<'a>,
    cells: &[Cell],
) -> Result<Option<Basis<'a>>, NoMemory> {
    let mut basis = Basis::start(alloc, view)?;
    let mut links = Links::start(alloc, basis.nodes())?;
    if basis.span(cells, &mut links) && improve(&mut basis) {
        return Ok(Some(basis));
    }
    Ok(None)
}

/// Prices one row after another and lets the row's pair of least reduced cost enter, until no row
/// has a pair of negative reduced cost. Returns false if that takes too many pivots.
fn improve(basis: &mut Basis<'_>) -> bool {
    let rows = basis.rows();
    let most = u64::from(basis.nodes()).saturating_mul(PIVOTS_PER_NODE);
    let (mut row, mut quiet, mut pivots) = (0u32, 0u32, 0u64);
    'rows: for _ in 0..u64::MAX {
        if quiet >= rows {
            return true;
        }
        quiet = quiet.wrapping_add(1);
        if pivot_at(basis, row) {
            quiet = 0;
            pivots = pivots.wrapping_add(1);
            if pivots > most {
                return false;
            }
        }
        row = row.wrapping_add(1);
        row = if row >= rows { 0 } else { row };
    }
    false
}

// Lets the pair of least reduced cost in a row enter, if that cost is negative. Returns whether it
// is.
#[inline(always)]
fn pivot_at(basis: &mut Basis<'_>, row: u32) -> bool {
    let (least, column) = row_least(basis.view.row(row), &basis.column_prices);
    let reduced = least.wrapping_sub(at(&basis.row_prices, row, 0));
    let enters = reduced < 0 && column != NOWHERE;
    if enters {
        basis.pivot(Entering {
            row,
            column,
            reduced,
        });
    }
    enters
}

/// Searches for a least-cost matching of all rows by the network simplex. The view has at least one
/// row, no more rows than columns, and no forbidden pairs.
///
/// The pairing returned is meant to have a column for each row, and prices of columns that show it
/// to be least; the caller has to check both. Returns `None` if the search exceeds its budget of
/// pivots. An added row of zeros takes the columns that stay free.
///
/// # Errors
/// `NoMemory` if an allocation is refused.
pub fn search_matching(alloc: Global, view: View<'_>) -> Result<Option<Pairing>, NoMemory> {
    let left = view.columns.saturating_sub(view.rows);
    let zeros = copies(alloc, if left > 0 { view.columns as usize } else { 0 }, 0)?;
    let wide = View {
        zeros: &zeros,
        ..view
    };
    let mut supplies = copies(alloc, wide.senders() as usize, 1)?;
    let demands = copies(alloc, view.columns as usize, 1)?;
    put(&mut supplies, view.rows, i64::from(left));
    let mut pairing = Pairing::start(alloc, view.rows, view.columns)?;
    let Some(basis) = search_plan(alloc, wide, &supplies, &demands)? else {
        return Ok(None);
    };
    write_pairs(&basis, &mut pairing);
    Ok(Some(pairing))
}

// Writes the pairs of a basis, and its prices of columns, shifted by the price of the row of zeros
// so that a free column has the price 0.
fn write_pairs(basis: &Basis<'_>, pairing: &mut Pairing) {
    'nodes: for node in 0..basis.nodes() {
        if let Some(cell) = basis.cell(node) {
            if cell.amount > 0 && cell.row < basis.view.rows {
                pairing.pair(cell.row, cell.column);
            }
        }
    }
    let zero = at(&basis.row_prices, basis.view.rows, 0);
    'columns: for column in 0..basis.view.columns {
        let price = at(&basis.column_prices, column, 0);
        put(&mut pairing.prices, column, price.wrapping_add(zero));
    }
}
