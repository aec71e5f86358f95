//! The problem without periods that stands for one over periods.
ghost use Rattle.std.specs.Prelude.{◌≡◌, ◌+◌, ◌++◌, IfOk, OnOk, map};
ghost use Rattle.mcf_periods.specs.Flat.{IsFlat, flat_row, flat_rows, number_in, stock_row};
ghost use Rattle.mcf_places.specs.PlannerFaults.{IsProperPlanner};

use crate::rows::{DepartureRow, PeriodRows, Store};
use mcf_model::RouteRow;
use mcf_places::{Planner, PlannerFault, Policy};
use mcf_text::NoMemory;
use std::alloc::Global;

// The number of a place in a period; 0, which is no place's, if there is none that fits.
fn number_in(count: u32, place: u32, period: u64) -> u32
    ensures { result ≡ number_in count place period }
{
    if place == 0 || place > count {
        return 0;
    }
    let before = u64::from(count).saturating_mul(period.saturating_sub(1));
    let number = u64::from(place).saturating_add(before);
    u32::try_from(number).unwrap_or(0)
}

// The row of a store.
fn stock_row(count: u32, store: Store) -> RouteRow
    ensures { result ≡ stock_row count store }
{
    let period = u64::from(store.period);
    RouteRow {
        tail: number_in(count, store.place, period),
        head: number_in(count, store.place, period + 1),
        first_step: 0,
        step_count: 0,
        least: 0,
        last_most: store.most,
        last_cost: store.cost,
        both: false,
    }
}

// The row of a departure.
fn flat_row(count: u32, departure: DepartureRow) -> RouteRow
    ensures { result ≡ flat_row count departure }
{
    let period = u64::from(departure.period);
    let arrival = period + u64::from(departure.lead);
    RouteRow {
        tail: number_in(count, departure.row.tail, period),
        head: number_in(count, departure.row.head, arrival),
        both: false,
        ..departure.row
    }
}

// Appends the rows of stores.
fn push_stores(made: &mut Vec<RouteRow>, count: u32, stores: &[Store]) -> Result<(), NoMemory>
    ensures { OnOk result (made.new.items ≡ made.old.items ++ map (stock_row count) stores.now) }
{
    for place in 0..stores.len() {
        made.push(stock_row(count, stores[place]))?;
    }
    Ok(())
}

// Appends the rows of departures.
fn push_departures(
    made: &mut Vec<RouteRow>,
    count: u32,
    departures: &[DepartureRow],
) -> Result<(), NoMemory>
    ensures { OnOk result (made.new.items ≡ made.old.items ++ map (flat_row count) departures.now) }
{
    for place in 0..departures.len() {
        made.push(flat_row(count, departures[place]))?;
    }
    Ok(())
}

// The rows of the problem without periods.
fn flat_rows(alloc: Global, rows: &PeriodRows) -> Result<Vec<RouteRow>, NoMemory>
    ensures { IfOk result (λ made. made.items ≡ flat_rows rows.now) }
{
    let mut made = Vec::new(alloc);
    push_stores(&mut made, rows.count, &rows.stores)?;
    push_departures(&mut made, rows.count, &rows.departures)?;
    Ok(made)
}

/// Makes the problem without periods that stands for one over periods. It has a place for each
/// place in each period; its routes are those of the stores, and then those of the departures.
///
/// # Errors
///
/// All faults of that problem: its places and its rows of routes count from 1. `NoMemory` if an
/// allocation is refused.
pub fn flat(
    alloc: Global,
    rows: PeriodRows,
    policy: Policy,
) -> Result<Result<Planner, Vec<PlannerFault>>, NoMemory>
    ensures exact { IfOk result (IsFlat rows policy) }
    ensures proper { IfOk result (λ made. IfOk made IsProperPlanner) }
{
    let routes = flat_rows(alloc, &rows)?;
    Planner::of(alloc, rows.places, rows.steps, routes, policy)
}
