//! The tables of whole numbers of which a planner's problem is made.
ghost use Rattle.std.specs.Prelude.{◌≡◌, ◌≤◌, ◌++◌, IfOk, OnOk, length, map};
ghost use Rattle.mcf_units.specs.GreatNumbers.{step_total};
ghost use Rattle.mcf_units.specs.Wholes.{earlier, place_in, rows_in, step_in, steps_in};

use crate::great::STEP_LIMIT;
use crate::scales::Scales;
use crate::wholes::{place_in, row_in, step_in};
use mcf_model::{RouteRow, Step};
use mcf_places::Place;
use mcf_reading::{PlaceEntry, StepEntry, Tables};
use mcf_text::NoMemory;
use std::alloc::Global;

/// The routes of a problem.
#[derive(Drop)]
pub struct RouteTables {
    /// The table of their steps.
    pub steps: Vec<Step>,
    /// Their rows.
    pub rows: Vec<RouteRow>,
}

// The places in units.
pub(crate) fn places_in(
    alloc: Global,
    scales: Scales,
    places: &[PlaceEntry],
) -> Result<Vec<Place>, NoMemory>
    ensures { IfOk result (λ made. made.items ≡ map (place_in scales) places.now) }
{
    let mut made = Vec::new(alloc);
    for place in 0..places.len() {
        made.push(place_in(scales, places[place]))?;
    }
    Ok(made)
}

// Appends the steps before the last, in units.
fn push_steps(made: &mut Vec<Step>, scales: Scales, steps: &[StepEntry]) -> Result<(), NoMemory>
    ensures { OnOk result (made.new.items ≡ made.old.items ++ map (step_in scales) (earlier steps.now)) }
{
    for step in 0..steps.len().saturating_sub(1) {
        made.push(step_in(scales, steps[step]))?;
    }
    Ok(())
}

/// The routes in units.
///
/// # Errors
///
/// `NoMemory` if an allocation is refused.
pub fn routes_in(alloc: Global, scales: Scales, tables: &Tables) -> Result<RouteTables, NoMemory>
    requires { step_total tables.now.routes ≤ STEP_LIMIT }
    ensures steps { IfOk result (λ made. made.steps.items ≡ steps_in scales tables.now.routes) }
    ensures rows { IfOk result (λ made. made.rows.items ≡ rows_in scales 0 tables.now.routes) }
{
    let mut steps = Vec::new(alloc);
    let mut rows = Vec::new(alloc);
    for place in 0..tables.route_count() {
        rows.push(row_in(scales, steps.len() as u32, tables, place))?;
        push_steps(&mut steps, scales, tables.route(place).steps)?;
    }
    Ok(RouteTables { steps, rows })
}
