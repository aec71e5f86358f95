//! Transport plans: the search, and the plan that its basis gives.
ghost use Rattle.std.specs.Prelude.{◌≤◌, ◌+◌, OnErr};

use crate::copying::copy_costs;
use crate::cuts::find_reached;
use crate::found::{FoundPlan, Plan};
use crate::ranges::{far_cost, has_forbidden};
use mcf_columns::put;
use mcf_matrix::{Masses, Shipment};
use mcf_matrix_rows::View;
use mcf_matrix_simplex::{Basis, Cell, improve_plan, search_plan};
use mcf_text::{NoMemory, copies};
use std::alloc::Global;

// The first content of each place of a plan, before it is written.
const NO_SHIPMENT: Shipment = Shipment {
    row: 0,
    column: 0,
    amount: 0,
};

/// Which pairs of a basis a plan lists: those whose amount is above 0, or all.
#[derive(Clone, Copy)]
pub(crate) enum Listing {
    Used,
    Basis,
}

/// Searches a view for a plan. The view has rows and columns, and may have forbidden pairs.
pub(crate) fn find(
    alloc: Global,
    view: View<'_>,
    masses: &Masses<'_>,
    listing: Listing,
) -> Result<Option<FoundPlan>, NoMemory> {
    if !has_forbidden(view) {
        return find_limited(alloc, view, masses, i64::MAX, listing);
    }
    let far = far_cost(view);
    let costs = copy_costs(alloc, view, far, false)?;
    let copy = View {
        costs: &costs,
        stride: view.columns as usize,
        ..view
    };
    find_limited(alloc, copy, masses, far, listing)
}

// Searches a view in which the cost `far` stands for forbidden pairs. Returns a cut if the plan
// uses such pairs.
fn find_limited(
    alloc: Global,
    view: View<'_>,
    masses: &Masses<'_>,
    far: i64,
    listing: Listing,
) -> Result<Option<FoundPlan>, NoMemory> {
    let Some(basis) = search_plan(alloc, view, masses.supplies, masses.demands)? else {
        return Ok(None);
    };
    if reaches(view, &basis, far) {
        let cut = find_reached(alloc, view, &basis, far)?;
        return Ok(Some(FoundPlan::Cut(cut)));
    }
    let plan = plan_of(alloc, basis, listing)?;
    Ok(Some(FoundPlan::Plan(plan)))
}

/// Improves a plan that lists the pairs of its basis, for the costs of a view. The view has rows
/// and columns.
pub(crate) fn improve(
    alloc: Global,
    view: View<'_>,
    plan: &[Shipment],
) -> Result<Option<Plan>, NoMemory> {
    let mut cells = copies(alloc, plan.len(), Cell::default())?;
    copy_cells(plan, cells.as_mut_slice());
    let Some(basis) = improve_plan(alloc, view, &cells)? else {
        return Ok(None);
    };
    Ok(Some(plan_of(alloc, basis, Listing::Basis)?))
}

// Copies the shipments of a plan.
fn copy_cells(plan: &[Shipment], cells: &mut [Cell]) {
    let count = plan.len().min(cells.len());
    'shipments: for i in 0..count {
        cells[i] = Cell {
            row: plan[i].row,
            column: plan[i].column,
            amount: plan[i].amount,
        };
    }
}

// Returns the plan of a basis.
fn plan_of(alloc: Global, basis: Basis<'_>, listing: Listing) -> Result<Plan, NoMemory> {
    let mut shipments = copies(alloc, count_listed(&basis, listing), NO_SHIPMENT)?;
    write_listed(&basis, listing, shipments.as_mut_slice());
    Ok(Plan {
        shipments,
        row_prices: basis.row_prices,
        column_prices: basis.column_prices,
    })
}

// Returns whether a pair that is used costs at least `far`.
fn reaches(view: View<'_>, basis: &Basis<'_>, far: i64) -> bool {
    'nodes: for node in 0..basis.nodes() {
        if let Some(used) = used_at(basis, node) {
            if view.cost(used.row, used.column) >= far {
                return true;
            }
        }
    }
    false
}

// Returns the shipment on the arc from a node to its parent, if it is listed.
fn listed_at(basis: &Basis<'_>, node: u32, listing: Listing) -> Option<Shipment> {
    let cell = basis.cell(node)?;
    let is_listed = match listing {
        Listing::Used => cell.amount > 0,
        Listing::Basis => true,
    };
    if !is_listed {
        return None;
    }
    Some(Shipment {
        row: cell.row,
        column: cell.column,
        amount: cell.amount,
    })
}

/// Returns the shipment on the arc from a node to its parent, if its amount is above 0.
pub(crate) fn used_at(basis: &Basis<'_>, node: u32) -> Option<Shipment> {
    listed_at(basis, node, Listing::Used)
}

// Returns the number of pairs that are listed.
fn count_listed(basis: &Basis<'_>, listing: Listing) -> usize {
    let mut count = 0usize;
    'nodes: for node in 0..basis.nodes() {
        count = count.wrapping_add(usize::from(listed_at(basis, node, listing).is_some()));
    }
    count
}

// Writes the shipments of the pairs that are listed.
fn write_listed(basis: &Basis<'_>, listing: Listing, shipments: &mut [Shipment]) {
    let mut place = 0u32;
    'nodes: for node in 0..basis.nodes() {
        if let Some(shipment) = listed_at(basis, node, listing) {
            put(shipments, place, shipment);
            place = place.wrapping_add(1);
        }
    }
}

/// Returns the plan of a matrix without rows or without columns, whose supplies and demands are 0.
///
/// # Errors
/// `NoMemory` if an allocation is refused; a matrix without rows and columns needs none.
pub(crate) fn find_without_pairs(
    alloc: Global,
    rows: usize,
    columns: usize,
) -> Result<FoundPlan, NoMemory>
    ensures { OnErr result (1 ≤ rows + columns) }
{
    Ok(FoundPlan::Plan(Plan {
        shipments: Vec::new(alloc),
        row_prices: copies(alloc, rows, 0)?,
        column_prices: copies(alloc, columns, 0)?,
    }))
}
