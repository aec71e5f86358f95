//! The problem in which only what is missing costs something.
ghost use Rattle.std.specs.Prelude.{◌≡◌, IfOk, map};
ghost use Rattle.mcf_places.specs.Shortage.{counting, free_bounds, free_place, free_row, free_step, shortage_of};
ghost use Rattle.std.specs.Prelude.{option_map};

use crate::places::{Bounds, Place, Policy};
use crate::problem::Planner;
use mcf_model::{RouteRow, Step};
use mcf_text::NoMemory;
use std::alloc::Global;

// Returns bounds at no cost.
fn free_bounds(through: Option<Bounds>) -> Option<Bounds>
    ensures { result ≡ option_map free_bounds through }
{
    match through {
        Some(bounds) => Some(Bounds { cost: 0, ..bounds }),
        None => None,
    }
}

// Returns a place whose bounds cost nothing, with no penalty of its own.
fn free_place(place: Place) -> Place
    ensures { result ≡ free_place place }
{
    Place {
        supply: place.supply,
        through: free_bounds(place.through),
        penalty: None,
    }
}

// Returns a step at no cost.
fn free_step(step: Step) -> Step
    ensures { result ≡ free_step step }
{
    Step { cost: 0, ..step }
}

// Returns the row of a route at no cost.
fn free_row(row: RouteRow) -> RouteRow
    ensures { result ≡ free_row row }
{
    RouteRow {
        last_cost: 0,
        ..row
    }
}

// Returns a policy with a penalty of 1 for all places.
fn counting(policy: Policy) -> Policy
    ensures { result ≡ counting policy }
{
    Policy {
        penalty: Some(1),
        ..policy
    }
}

// Returns places whose bounds cost nothing.
fn free_places(alloc: Global, places: &[Place]) -> Result<Vec<Place>, NoMemory>
    ensures { IfOk result (λ made. made.items ≡ map free_place places.now) }
{
    let mut made = Vec::with_capacity(alloc, places.len())?;
    for place in 0..places.len() {
        let free = free_place(places[place]);
        made.push(free)?;
    }
    Ok(made)
}

// Returns steps at no cost.
fn free_steps(alloc: Global, steps: &[Step]) -> Result<Vec<Step>, NoMemory>
    ensures { IfOk result (λ made. made.items ≡ map free_step steps.now) }
{
    let mut made = Vec::with_capacity(alloc, steps.len())?;
    for place in 0..steps.len() {
        let free = free_step(steps[place]);
        made.push(free)?;
    }
    Ok(made)
}

// Returns rows of routes at no cost.
fn free_rows(alloc: Global, rows: &[RouteRow]) -> Result<Vec<RouteRow>, NoMemory>
    ensures { IfOk result (λ made. made.items ≡ map free_row rows.now) }
{
    let mut made = Vec::with_capacity(alloc, rows.len())?;
    for place in 0..rows.len() {
        let free = free_row(rows[place]);
        made.push(free)?;
    }
    Ok(made)
}

// Returns a copy of numbers.
pub(crate) fn copied_numbers(alloc: Global, numbers: &[usize]) -> Result<Vec<usize>, NoMemory>
    ensures { IfOk result (λ made. made.items ≡ numbers.now) }
{
    Ok(numbers.iter().copied().collect(alloc)?)
}

// Returns the problem in which only what is missing costs something, 1 a unit.
pub(crate) fn shortage_of(alloc: Global, planner: &Planner) -> Result<Planner, NoMemory>
    ensures { IfOk result (λ made. made ≡ shortage_of planner.now) }
{
    let parts = planner.parts();
    let places = free_places(alloc, parts.places)?;
    let steps = free_steps(alloc, parts.steps)?;
    let rows = free_rows(alloc, parts.rows)?;
    let returning = copied_numbers(alloc, parts.returning)?;
    let policy = counting(parts.policy);
    Ok(Planner {
        places,
        steps,
        rows,
        returning,
        policy,
    })
}
