//! The model of a planner's problem.
ghost use Rattle.std.specs.Prelude.{◌≡◌, ◌≤◌, ◌+ℤ◌, ◌≤ℤ◌, ℕ, IfOk, List, length, map, pos, ◌+◌};
ghost use Rattle.std.specs.List.{All};
ghost use Rattle.mcf_flows.specs.Network.{IsNode};
ghost use Rattle.mcf_model.specs.Faults.{AreListed};
ghost use Rattle.mcf_model.specs.Tables.{route_of};
ghost use Rattle.mcf_places.specs.Models.{gate_route, model_of};
ghost use Rattle.mcf_places.specs.PlannerFaults.{HasLimits, IsProperPlanner, IsSmallPlace};
ghost use Rattle.mcf_places.specs.LimitedPlanners.{limited};
ghost use Rattle.mcf_places.specs.Ways.{with_tables};

use crate::faults::PLACE_LIMIT;
use crate::limits::{limit_for, limited_of};
use crate::places::{Place, Policy};
use crate::problem::{Parts, Planner};
use crate::rows::{Kind, gate_of, hub_of, plain_row, push_exits, push_kind};
use crate::supplies::supplies_of;
use mcf_model::{PlanModel, RouteRow, Step};
use mcf_text::NoMemory;
use std::alloc::Global;

// Returns the route of all that is missing.
fn gate_row(most: i64, places: &[Place]) -> RouteRow
    requires few { length places.now ≤ PLACE_LIMIT }
    ensures route { (steps : List Step) → (rows : List RouteRow) → (returning : List ℕ) → (policy : Policy) → route_of steps result ≡ gate_route most (with_tables places.now steps rows returning policy) }
    ensures plain { (result.first_step + result.step_count) ≡ 0 }
{
    plain_row(hub_of(places), gate_of(places), 0, Some(most), 0)
}

// Returns the routes of the model in which no more than `most` units are missing.
fn rows_of(alloc: Global, parts: Parts<'_>, most: i64) -> Result<Vec<RouteRow>, NoMemory>
    requires few { length parts.places.now ≤ PLACE_LIMIT }
    requires small { All IsSmallPlace parts.places.now }
    requires inside { All (λ row. IsNode (length parts.places.now) row.tail) parts.rows.now }
    ensures routes { IfOk result (λ made. map (route_of parts.entry.steps.now) made.items
        ≡ (model_of most (with_tables parts.entry.places.now parts.entry.steps.now parts.entry.rows.now parts.entry.returning.now parts.entry.policy)).routes) }
    ensures listed { IfOk result (λ made. AreListed parts.entry.steps.now parts.entry.rows.now → AreListed parts.entry.steps.now made.items) }
{
    let mut rows = Vec::new(alloc);
    push_exits(parts.places, parts.rows, &mut rows)?;
    push_kind(Kind::Through, parts.places, parts.policy, &mut rows)?;
    push_kind(Kind::Stay, parts.places, parts.policy, &mut rows)?;
    push_kind(Kind::Missing, parts.places, parts.policy, &mut rows)?;
    let gate = gate_row(most, parts.places);
    rows.push(gate)?;
    Ok(rows)
}

// Returns a copy of steps.
pub(crate) fn copied_steps(alloc: Global, steps: &[Step]) -> Result<Vec<Step>, NoMemory>
    ensures { IfOk result (λ made. made.items ≡ steps.now) }
{
    Ok(steps.iter().copied().collect(alloc)?)
}

/// Returns the model of a planner's problem in which no more than `most` units are missing in
/// total. Its first places are those of the problem, and its first routes are those of the problem.
/// Bounds that have no limit have one in the model, if some cost is below 0: one that changes no
/// plan (`limits_change_no_plan`), and that none fills (`plans_fill_no_limit`).
///
/// # Errors
/// `NoMemory` if an allocation is refused. The model always has places, so it always allocates.
pub fn model_of(alloc: Global, planner: &Planner, most: i64) -> Result<PlanModel, NoMemory>
    ensures { IfOk result (λ made. made ≡ model_of most (limited planner.now)) }
{
    match limit_for(planner) {
        Some(limit) => {
            let limited = limited_of(alloc, planner, limit)?;
            limited_model_of(alloc, &limited, most)
        }
        None => limited_model_of(alloc, planner, most),
    }
}

// Returns the model of a problem in which bounds have the limits that they need.
pub(crate) fn limited_model_of(
    alloc: Global,
    planner: &Planner,
    most: i64,
) -> Result<PlanModel, NoMemory>
    requires { HasLimits planner.now }
    ensures { IfOk result (λ made. made ≡ model_of most planner.now) }
{
    let parts = planner.parts();
    let supplies = supplies_of(alloc, parts.places)?;
    let rows = rows_of(alloc, parts, most)?;
    let steps = copied_steps(alloc, parts.steps)?;
    match PlanModel::of(supplies, steps, rows) {
        Ok(model) => Ok(model),
        Err(_) => unreachable!(),
    }
}
