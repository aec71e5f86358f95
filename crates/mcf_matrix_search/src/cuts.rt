//! Cuts: rows and columns that exclude every transport plan (Hoffman's condition; Ahuja, Magnanti
//! and Orlin, Network Flows, section 6.7).
ghost use Rattle.std.specs.Prelude.{◌≤◌, ◌+◌, OnErr};

use crate::found::{Cut, FoundPlan};
use crate::planning::used_at;
use mcf_columns::{at, narrow, put};
use mcf_flows::Side;
use mcf_matrix::{Masses, Shipment};
use mcf_matrix_rows::View;
use mcf_matrix_simplex::Basis;
use mcf_text::{NoMemory, copies};
use std::alloc::Global;

/// Returns a cut that the masses alone give: a row or a column of negative mass, or all rows and
/// columns if supplies and demands differ in total. Returns `None` if they give none.
pub(crate) fn find_uneven(
    alloc: Global,
    rows: usize,
    columns: usize,
    masses: &Masses<'_>,
) -> Result<Option<FoundPlan>, NoMemory>
    ensures { OnErr result (1 ≤ rows + columns) }
{
    let negative_row = negative_in(masses.supplies);
    let negative_column = negative_in(masses.demands);
    let difference = total(masses.supplies).saturating_sub(total(masses.demands));
    let is_negative = negative_row.is_some() || negative_column.is_some();
    if !is_negative && difference == 0 {
        return Ok(None);
    }
    let mut cut = Cut {
        rows: copies(alloc, rows, !is_negative)?,
        columns: copies(alloc, columns, !is_negative)?,
        side: if difference > 0 {
            Side::Send
        } else {
            Side::Take
        },
    };
    if let Some(row) = negative_row {
        put(&mut cut.rows, row, true);
        cut.side = Side::Take;
    } else if let Some(column) = negative_column {
        put(&mut cut.columns, column, true);
        cut.side = Side::Send;
    }
    Ok(Some(FoundPlan::Cut(cut)))
}

// Returns the place of the first negative mass.
fn negative_in(masses: &[i64]) -> Option<u32> {
    'lines: for i in 0..masses.len() {
        if masses[i] < 0 {
            return Some(narrow(i));
        }
    }
    None
}

// Returns the sum of masses.
fn total(masses: &[i64]) -> i128 {
    let mut total = 0i128;
    'lines: for i in 0..masses.len() {
        total = total.saturating_add(i128::from(masses[i]));
    }
    total
}

/// Returns a cut: the rows that supply more than they can send through pairs of cost below a limit,
/// and all rows and columns on residual paths from these. The plan sends as little as it can
/// through other pairs.
pub(crate) fn find_reached(
    alloc: Global,
    view: View<'_>,
    basis: &Basis<'_>,
    far: i64,
) -> Result<Cut, NoMemory> {
    let mut cut = Cut {
        rows: copies(alloc, view.rows as usize, false)?,
        columns: copies(alloc, view.columns as usize, false)?,
        side: Side::Send,
    };
    'nodes: for node in 0..basis.nodes() {
        if let Some(used) = used_at(basis, node) {
            if view.cost(used.row, used.column) >= far {
                cut.reach(view, used.row, far);
            }
        }
    }
    'rounds: for _ in 0..view.rows {
        if !cut.spread(view, basis, far) {
            break;
        }
    }
    Ok(cut)
}

impl Cut {
    // Marks a row, and each column of a pair that costs less than a limit.
    fn reach(&mut self, view: View<'_>, row: u32, far: i64) {
        if at(&self.rows, row, true) {
            return;
        }
        put(&mut self.rows, row, true);
        let entries = view.row(row);
        'columns: for column in 0..view.columns {
            if at(entries, column, far) < far {
                put(&mut self.columns, column, true);
            }
        }
    }

    // Marks the rows that send to a marked column, with the columns of their pairs. Returns whether
    // one of these rows wasn't marked.
    fn spread(&mut self, view: View<'_>, basis: &Basis<'_>, far: i64) -> bool {
        let mut is_new = false;
        'nodes: for node in 0..basis.nodes() {
            if let Some(used) = used_at(basis, node) {
                if self.leads_on(used) {
                    self.reach(view, used.row, far);
                    is_new = true;
                }
            }
        }
        is_new
    }

    // Returns whether a pair that is used leads from a marked column to a row that isn't marked.
    fn leads_on(&self, used: Shipment) -> bool {
        at(&self.columns, used.column, false) && !at(&self.rows, used.row, true)
    }
}
