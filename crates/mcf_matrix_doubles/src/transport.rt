//! The judge of transport plans for costs of doubles.
ghost use Rattle.std.specs.Prelude.{◌≡◌, ◌+◌, ◌≤◌, ◌↔◌, IfOk, IsTrue, OnErr, length};
ghost use Rattle.mcf_matrix.specs.PlaceSums.{at_place, sum_below};
ghost use Rattle.mcf_matrix.specs.Plans.{IsLeastPlan, IsShownPlan, mass_total, plan_cost};
ghost use Rattle.mcf_matrix_doubles.specs.DoublePrices.{AreReadyPrices, AreSmallPrices, in_units};
ghost use Rattle.mcf_matrix_doubles.specs.DoubleTables.{double_costs};
ghost use Rattle.mcf_matrix_doubles.specs.Rounding.{IsNearlyLeastPlan, costs_read, most_lost};

use crate::assignment::{DoublePrices, PricedDoubles};
use crate::double_matrix::DoubleMatrix;
use crate::prices::are_small_prices;
use mcf_matrix::{Masses, Shipment, shows_plan};
use mcf_text::NoMemory;
use std::alloc::Global;

/// Whether the prices show that the transport plan is least, exactly (Hitchcock 1941; Ahuja,
/// Magnanti and Orlin, Network Flows, section 9.4): each finite double is the number that its bits
/// stand for, and +infinity forbids its pair.
///
/// A pair may have several entries. The prices are one for each row and one for each column, each
/// less than 2^125 units from 0. Lists of other lengths, of masses too, and greater prices are
/// refused. It reads each entry of the matrix once, and the plan three times.
///
/// If the entries are rounded down to units, the plan is least for these multiples. Then no plan
/// costs less by as much as one unit times the total supply, if that isn't 0.
///
/// # Errors
/// `NoMemory` if an allocation is refused: it needs a number for each row and each column.
pub fn judge_transport(
    alloc: Global,
    matrix: &DoubleMatrix,
    masses: &Masses,
    plan: &[Shipment],
    prices: &DoublePrices,
) -> Result<bool, NoMemory>
    ensures exact { IfOk result (λ holds. IsTrue holds ↔ (AreSmallPrices prices.now.rows.now × AreSmallPrices prices.now.columns.now
        × IsShownPlan (costs_read prices.now.unit prices.now.is_rounded (double_costs matrix.now)) masses.now.supplies.now masses.now.demands.now plan.now (in_units prices.now.unit prices.now.rows.now) (in_units prices.now.unit prices.now.columns.now))) }
    ensures least { IfOk result (λ holds. IsTrue holds → IsLeastPlan (costs_read prices.now.unit prices.now.is_rounded (double_costs matrix.now)) masses.now.supplies.now masses.now.demands.now plan.now) }
    ensures near { IfOk result (λ holds. IsTrue holds → IsNearlyLeastPlan (double_costs matrix.now) masses.now.supplies.now masses.now.demands.now plan.now
        (most_lost prices.now.unit prices.now.is_rounded (sum_below (at_place masses.now.supplies.now) matrix.now.rows))) }
    ensures cost { IfOk result (λ holds. IsTrue holds → plan_cost (costs_read prices.now.unit prices.now.is_rounded (double_costs matrix.now)) plan.now
        ≡ mass_total (double_costs matrix.now) masses.now.supplies.now masses.now.demands.now (in_units prices.now.unit prices.now.rows.now) (in_units prices.now.unit prices.now.columns.now)) }
    ensures wants { OnErr result (1 ≤ matrix.now.rows + matrix.now.columns) }
{
    let DoublePrices {
        rows,
        columns,
        unit,
        is_rounded,
    } = *prices;
    if !are_ready(matrix, rows, columns) {
        return Ok(false);
    }
    let priced = PricedDoubles {
        matrix,
        row_prices: rows,
        column_prices: columns,
        unit,
        is_rounded,
    };
    shows_plan(alloc, &priced, masses, plan)
}

// Whether there are a small price for each row and a small price for each column.
fn are_ready(matrix: &DoubleMatrix, rows: &[i128], columns: &[i128]) -> bool
    ensures { IsTrue result ↔ AreReadyPrices matrix.now.rows matrix.now.columns rows.now columns.now }
{
    if rows.len() != matrix.rows() {
        return false;
    }
    if columns.len() != matrix.columns() {
        return false;
    }
    if !are_small_prices(rows) {
        return false;
    }
    are_small_prices(columns)
}
