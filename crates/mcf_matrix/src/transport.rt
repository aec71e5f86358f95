//! The judge of transport plans: it tests whether prices show a plan to be least.
ghost use Rattle.std.specs.Prelude.{◌≡◌, ◌+◌, ◌≤◌, ◌↔◌, IfOk, IsTrue, OnErr, length};
ghost use Rattle.mcf_matrix.specs.Plans.{IsLeastPlan, IsShownPlan, mass_total, plan_cost};
ghost use Rattle.mcf_matrix.specs.Tables.{whole_costs};

use crate::matrix::Matrix;
use crate::shipment::{Masses, Shipment};
use crate::showing_plans::shows_plan;
use crate::whole_prices::WholePrices;
use mcf_text::NoMemory;
use std::alloc::Global;

/// Returns whether the prices show that the transport plan is least: the exact test of a plan with
/// its prices (Hitchcock 1941; Ahuja, Magnanti and Orlin, Network Flows, section 9.4).
///
/// A pair may have several entries. There is a price for each row and one for each column; returns
/// false for lists of other lengths. It reads each entry of the matrix once, and the plan three
/// times.
///
/// # Errors
/// `NoMemory` if an allocation is refused: it needs a number for each row and each column.
pub fn judge_transport(
    alloc: Global,
    matrix: &Matrix,
    masses: &Masses,
    plan: &[Shipment],
    row_prices: &[i64],
    column_prices: &[i64],
) -> Result<bool, NoMemory>
    ensures exact { IfOk result (λ holds. IsTrue holds ↔ IsShownPlan (whole_costs matrix.now) masses.now.supplies.now masses.now.demands.now plan.now row_prices.now column_prices.now) }
    ensures least { IfOk result (λ holds. IsTrue holds → IsLeastPlan (whole_costs matrix.now) masses.now.supplies.now masses.now.demands.now plan.now) }
    ensures cost { IfOk result (λ holds. IsTrue holds → plan_cost (whole_costs matrix.now) plan.now ≡ mass_total (whole_costs matrix.now) masses.now.supplies.now masses.now.demands.now row_prices.now column_prices.now) }
    ensures wants { OnErr result (1 ≤ matrix.now.rows + matrix.now.columns) }
{
    if !fits_matrix(matrix, row_prices.len(), column_prices.len()) {
        return Ok(false);
    }
    let priced = WholePrices {
        matrix,
        row_prices,
        column_prices,
    };
    shows_plan(alloc, &priced, masses, plan)
}

// Returns whether both lists have the lengths of the matrix's rows and columns.
fn fits_matrix(matrix: &Matrix, rows: usize, columns: usize) -> bool
    ensures { IsTrue result ↔ ((rows ≡ matrix.now.rows) × (columns ≡ matrix.now.columns)) }
{
    rows == matrix.rows() && columns == matrix.columns()
}
