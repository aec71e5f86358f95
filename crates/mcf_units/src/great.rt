//! Numbers that are too great in whole units.
ghost use Rattle.std.specs.Prelude.{◌≡◌, ◌++◌, nat_lt, IfOk, OnOk};
ghost use Rattle.mcf_reading.specs.declared.locations.Head.TheVariants.{Least};
ghost use Rattle.mcf_reading.specs.declared.locations.Table.TheVariants.{Routes};
ghost use Rattle.mcf_units.specs.GreatNumbers.{great_at, great_bounds, great_faults, great_in_turn, great_numbers, great_place, great_route, great_step, step_total, unless_whole, unless_whole_limit};

use crate::scales::Scales;
use crate::terms::Terms;
use crate::wholes::is_whole;
use mcf_decimal::Decimal;
use mcf_reading::{BoundsEntry, ColumnAt, Head, Location, PlaceEntry, StepEntry, Table, Tables};
use mcf_text::NoMemory;
use std::alloc::Global;

/// The greatest number of steps before the last of their routes.
pub const STEP_LIMIT: usize = 4_294_967_294;

/// A number that is too great, or that there are too many.
#[derive(Clone, Copy, Debug, PartialEq, Eq)]
pub enum GreatFault {
    /// There are more than `STEP_LIMIT` steps before the last of their routes.
    Steps,
    /// The penalty doesn't fit 64 bits, in the unit of all costs.
    Penalty,
    /// The number in this cell doesn't fit 64 bits, in the unit of all amounts or of all costs.
    Cell(Location),
}

// The cell of a row under a head.
fn great_at(table: Table, row: usize, head: Head) -> GreatFault
    ensures { result ≡ great_at table row head }
{
    GreatFault::Cell(Location {
        table,
        row,
        column: ColumnAt::Under(head),
    })
}

// Appends a fault, unless the number is whole and fits.
fn push_unless_whole(
    found: &mut Vec<GreatFault>,
    scale: u32,
    number: Decimal,
    fault: GreatFault,
) -> Result<(), NoMemory>
    ensures { OnOk result (found.new.items ≡ found.old.items ++ unless_whole scale number fault) }
{
    if !is_whole(scale, number) {
        found.push(fault)?;
    }
    Ok(())
}

// The same for a limit.
fn push_limit(
    found: &mut Vec<GreatFault>,
    scale: u32,
    most: Option<Decimal>,
    fault: GreatFault,
) -> Result<(), NoMemory>
    ensures { OnOk result (found.new.items ≡ found.old.items ++ unless_whole_limit scale most fault) }
{
    match most {
        Some(number) => push_unless_whole(found, scale, number, fault),
        None => Ok(()),
    }
}

// Appends the numbers of bounds that are too great.
fn push_bounds(
    found: &mut Vec<GreatFault>,
    scales: Scales,
    row: usize,
    through: Option<BoundsEntry>,
) -> Result<(), NoMemory>
    ensures { OnOk result (found.new.items ≡ found.old.items ++ great_bounds scales row through) }
{
    let Some(bounds) = through else {
        return Ok(());
    };
    let least = great_at(Table::Places, row, Head::Least);
    let most = great_at(Table::Places, row, Head::Most(1));
    let cost = great_at(Table::Places, row, Head::Cost(1));
    push_unless_whole(found, scales.amounts, bounds.least, least)?;
    push_limit(found, scales.amounts, bounds.most, most)?;
    push_unless_whole(found, scales.costs, bounds.cost, cost)
}

// Appends the numbers of a place that are too great.
fn push_place(
    found: &mut Vec<GreatFault>,
    scales: Scales,
    row: usize,
    entry: PlaceEntry,
) -> Result<(), NoMemory>
    ensures { OnOk result (found.new.items ≡ found.old.items ++ great_place scales row entry) }
{
    let supply = great_at(Table::Places, row, Head::Supply);
    let penalty = great_at(Table::Places, row, Head::Penalty);
    push_unless_whole(found, scales.amounts, entry.supply, supply)?;
    push_bounds(found, scales, row, entry.through)?;
    push_limit(found, scales.costs, entry.penalty, penalty)
}

// Appends the numbers of places that are too great.
fn push_places(
    found: &mut Vec<GreatFault>,
    scales: Scales,
    places: &[PlaceEntry],
) -> Result<(), NoMemory>
    ensures { OnOk result (found.new.items ≡ found.old.items ++ great_in_turn (great_place scales) 1 places.now) }
{
    for place in 0..places.len() {
        push_place(found, scales, place + 1, places[place])?;
    }
    Ok(())
}

// Appends the numbers of a step, counted from 1, that are too great.
fn push_step(
    found: &mut Vec<GreatFault>,
    scales: Scales,
    row: usize,
    step: usize,
    entry: StepEntry,
) -> Result<(), NoMemory>
    ensures { OnOk result (found.new.items ≡ found.old.items ++ great_step scales row step entry) }
{
    let most = great_at(Table::Routes, row, Head::Most(step));
    let cost = great_at(Table::Routes, row, Head::Cost(step));
    push_limit(found, scales.amounts, entry.most, most)?;
    push_unless_whole(found, scales.costs, entry.cost, cost)
}

// Appends the numbers of steps that are too great.
fn push_steps(
    found: &mut Vec<GreatFault>,
    scales: Scales,
    row: usize,
    steps: &[StepEntry],
) -> Result<(), NoMemory>
    ensures { OnOk result (found.new.items ≡ found.old.items ++ great_in_turn (great_step scales row) 1 steps.now) }
{
    for step in 0..steps.len() {
        push_step(found, scales, row, step + 1, steps[step])?;
    }
    Ok(())
}

// Appends the numbers of a route that are too great.
fn push_route(
    found: &mut Vec<GreatFault>,
    scales: Scales,
    row: usize,
    least: Decimal,
    steps: &[StepEntry],
) -> Result<(), NoMemory>
    ensures { OnOk result (found.new.items ≡ found.old.items ++ (unless_whole scales.amounts least (great_at Routes row Least) ++ great_in_turn (great_step scales row) 1 steps.now)) }
{
    let fault = great_at(Table::Routes, row, Head::Least);
    push_unless_whole(found, scales.amounts, least, fault)?;
    push_steps(found, scales, row, steps)
}

// Appends the numbers of routes that are too great.
fn push_routes(found: &mut Vec<GreatFault>, scales: Scales, tables: &Tables) -> Result<(), NoMemory>
    ensures { OnOk result (found.new.items ≡ found.old.items ++ great_in_turn (great_route scales) 1 tables.now.routes) }
{
    for place in 0..tables.route_count() {
        let route = tables.route(place);
        push_route(found, scales, place + 1, route.least, route.steps)?;
    }
    Ok(())
}

// Whether there are too many steps before the last of their routes.
fn has_many_steps(tables: &Tables) -> bool
    ensures { result ≡ nat_lt STEP_LIMIT (step_total tables.now.routes) }
{
    let mut total = 0;
    for place in 0..tables.route_count() {
        total += tables.route(place).steps.len().saturating_sub(1);
        if total > STEP_LIMIT {
            return true;
        }
    }
    false
}

// All numbers that are too great.
fn great_numbers(
    alloc: Global,
    scales: Scales,
    tables: &Tables,
    terms: Terms,
) -> Result<Vec<GreatFault>, NoMemory>
    ensures { IfOk result (λ found. found.items ≡ great_numbers scales tables.now terms) }
{
    let mut found = Vec::new(alloc);
    push_limit(&mut found, scales.costs, terms.penalty, GreatFault::Penalty)?;
    push_places(&mut found, scales, tables.places())?;
    push_routes(&mut found, scales, tables)?;
    Ok(found)
}

/// That there are too many steps, or else all numbers that are too great.
///
/// # Errors
///
/// `NoMemory` if an allocation is refused.
pub fn great_faults(
    alloc: Global,
    scales: Scales,
    tables: &Tables,
    terms: Terms,
) -> Result<Vec<GreatFault>, NoMemory>
    ensures { IfOk result (λ found. found.items ≡ great_faults scales tables.now terms) }
{
    if has_many_steps(tables) {
        return Ok(vec![in alloc; GreatFault::Steps]?);
    }
    great_numbers(alloc, scales, tables, terms)
}
