//! Whether prices show a transport plan, for whatever the costs are stored in.
ghost use Rattle.std.specs.Prelude.{◌≡◌, ◌+◌, ◌<◌, ◌≤◌, ◌↔◌, ℕ, pos, IfOk, IsTrue, OnErr, length};
ghost use Rattle.std.specs.List.{All};
ghost use Rattle.mcf_matrix.specs.PlaceSums.{at_place};
ghost use Rattle.mcf_matrix.specs.Plans.{IsLeastPlan, IsShownPlan, mass_total, plan_cost};
ghost use Rattle.mcf_matrix.specs.Private.Shipping.{AreMet, AreSendable, IsGoodShipment};

use crate::shipment::{Masses, Shipment};
use crate::showing::Priced;
use mcf_text::NoMemory;
use std::alloc::Global;

/// Whether the prices show that the transport plan is least (Hitchcock 1941; Ahuja, Magnanti and
/// Orlin, Network Flows, section 9.4). A pair may have several entries. Supplies and demands of
/// other lengths are refused.
///
/// # Errors
/// `NoMemory` if an allocation is refused: it needs a number for each row and each column.
pub fn shows_plan<P: Priced>(
    alloc: Global,
    priced: &P,
    masses: &Masses,
    plan: &[Shipment],
) -> Result<bool, NoMemory>
    requires ready { P.IsReady priced.now }
    requires row_prices { length (P.row_prices priced.now) ≡ (P.costs priced.now).rows }
    requires column_prices { length (P.column_prices priced.now) ≡ (P.costs priced.now).columns }
    ensures exact { IfOk result (λ holds. IsTrue holds ↔ IsShownPlan (P.costs priced.now) masses.now.supplies.now masses.now.demands.now plan.now (P.row_prices priced.now) (P.column_prices priced.now)) }
    ensures least { IfOk result (λ holds. IsTrue holds → IsLeastPlan (P.costs priced.now) masses.now.supplies.now masses.now.demands.now plan.now) }
    ensures cost { IfOk result (λ holds. IsTrue holds → plan_cost (P.costs priced.now) plan.now ≡ mass_total (P.costs priced.now) masses.now.supplies.now masses.now.demands.now (P.row_prices priced.now) (P.column_prices priced.now)) }
    ensures wants { OnErr result (1 ≤ (P.costs priced.now).rows + (P.costs priced.now).columns) }
{
    let supplies = masses.supplies;
    let demands = masses.demands;
    if !fits(priced, supplies.len(), demands.len()) {
        return Ok(false);
    }
    let mut supplies_left = copy_of(alloc, supplies)?;
    let mut demands_left = copy_of(alloc, demands)?;
    let holds = is_shown(priced, plan, &mut supplies_left, &mut demands_left);
    Ok(holds)
}

// Returns whether both lists have the lengths of the rows and columns.
fn fits<P: Priced>(priced: &P, rows: usize, columns: usize) -> bool
    ensures { IsTrue result ↔ ((rows ≡ (P.costs priced.now).rows) × (columns ≡ (P.costs priced.now).columns)) }
{
    rows == priced.row_count() && columns == priced.column_count()
}

// Returns a copy of a list of numbers.
fn copy_of(alloc: Global, numbers: &[i64]) -> Result<Vec<i64>, NoMemory>
    ensures value { IfOk result (λ copy. copy.items ≡ numbers.now) }
    ensures wants { OnErr result (1 ≤ length numbers.now) }
{
    let mut copy = Vec::new(alloc);
    copy.extend_from_slice(numbers)?;
    Ok(copy)
}

// Returns whether the prices show the plan to be least, if the lists have the right lengths. It
// subtracts the plan's amounts from the supplies and demands.
fn is_shown<P: Priced>(
    priced: &P,
    plan: &[Shipment],
    supplies: &mut [i64],
    demands: &mut [i64],
) -> bool
    requires ready { P.IsReady priced.now }
    requires supplies { length supplies.old ≡ (P.costs priced.now).rows }
    requires demands { length demands.old ≡ (P.costs priced.now).columns }
    requires row_prices { length (P.row_prices priced.now) ≡ (P.costs priced.now).rows }
    requires column_prices { length (P.column_prices priced.now) ≡ (P.costs priced.now).columns }
    ensures { IsTrue result ↔ IsShownPlan (P.costs priced.now) supplies.old demands.old plan.now (P.row_prices priced.now) (P.column_prices priced.now) }
{
    if !shipments_hold(priced, plan) {
        return false;
    }
    if !supplies_are_met(plan, supplies) {
        return false;
    }
    if !demands_are_met(plan, demands) {
        return false;
    }
    priced.has_none_below()
}

// Returns whether each entry has an allowed pair, no amount below 0, and the reduced cost 0 if its
// amount is above 0.
fn shipments_hold<P: Priced>(priced: &P, plan: &[Shipment]) -> bool
    requires ready { P.IsReady priced.now }
    ensures { IsTrue result ↔ All (IsGoodShipment (P.costs priced.now) (P.row_prices priced.now) (P.column_prices priced.now)) plan.now }
{
    for shipment in plan {
        if !is_good(priced, *shipment) {
            return false;
        }
    }
    true
}

// Returns the same of one entry, whose row and column may lie outside the matrix.
fn is_good<P: Priced>(priced: &P, shipment: Shipment) -> bool
    requires ready { P.IsReady priced.now }
    ensures { IsTrue result ↔ IsGoodShipment (P.costs priced.now) (P.row_prices priced.now) (P.column_prices priced.now) shipment }
{
    let row = shipment.row as usize;
    let column = shipment.column as usize;
    if priced.row_count() <= row {
        return false;
    }
    if priced.column_count() <= column {
        return false;
    }
    if shipment.amount < 0 {
        return false;
    }
    if 0 < shipment.amount {
        return priced.is_good_pair(row, column);
    }
    priced.is_allowed_pair(row, column)
}

// Subtracts the plan's amounts from the supplies. Returns whether each row sends exactly its
// supply.
fn supplies_are_met(plan: &[Shipment], supplies: &mut [i64]) -> bool
    requires { AreSendable (λ s. s.row) (length supplies.old) plan.now }
    ensures { IsTrue result ↔ AreMet (λ s. s.row) plan.now supplies.old }
{
    for shipment in plan {
        let row = shipment.row as usize;
        let left = supplies[row];
        if left < shipment.amount {
            return false;
        }
        supplies[row] = left - shipment.amount;
    }
    are_zero(supplies)
}

// Subtracts the plan's amounts from the demands. Returns whether each column receives exactly its
// demand.
fn demands_are_met(plan: &[Shipment], demands: &mut [i64]) -> bool
    requires { AreSendable (λ s. s.column) (length demands.old) plan.now }
    ensures { IsTrue result ↔ AreMet (λ s. s.column) plan.now demands.old }
{
    for shipment in plan {
        let column = shipment.column as usize;
        let left = demands[column];
        if left < shipment.amount {
            return false;
        }
        demands[column] = left - shipment.amount;
    }
    are_zero(demands)
}

// Returns whether all numbers are 0.
fn are_zero(numbers: &[i64]) -> bool
    ensures { IsTrue result ↔ ((i : ℕ) → i < length numbers.now → at_place numbers.now i ≡ pos 0) }
{
    for number in numbers {
        if *number != 0 {
            return false;
        }
    }
    true
}
