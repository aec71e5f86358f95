//! For how many units the prices of a planner's least plan hold.
ghost use Rattle.std.specs.Prelude.{◌≡◌, ◌≤◌, IfNone, IfOk, IfSome, length};
ghost use Rattle.mcf_flows.specs.Network.{IsNode};
ghost use Rattle.mcf_model.specs.Tables.{route_at};
ghost use Rattle.mcf_places.specs.Answers.{IsShownIn};
ghost use Rattle.mcf_places.specs.LimitedPlanners.{limited};
ghost use Rattle.mcf_places.specs.Models.{exit_of};
ghost use Rattle.mcf_unit_ranges.specs.PlannerUnits.{IsRouteRange, IsUnitsRangeBetween};
ghost use Rattle.mcf_unit_ranges.specs.Spans.{directed};
ghost use Rattle.mcf_unit_ranges.specs.Told.{IsUntold};

use crate::laws::{route_savings_are_the_models, units_are_the_models};
use crate::ranging::{UnitsRange, units_range};
use crate::rows::Ends;
use crate::saving::room_range;
use mcf_model::Solves;
use mcf_places::{LeastPlannerPlan, PLACE_LIMIT, Place, Planner, sound_planners_have_sound_models};
use mcf_text::NoMemory;
use std::alloc::Global;

/// Returns for how many units more room on a route of a planner's problem, by its number, saves
/// what its least plan tells of one more. It is the range of the route's room in the model that the
/// plan was found in, in which bounds have the limits that they need.
///
/// It is `None` where `room_range` is.
///
/// # Errors
///
/// `NoMemory` if an allocation is refused.
pub fn planner_room_range<S: Solves>(
    alloc: Global,
    solver: &mut S,
    planner: &Planner,
    least: &LeastPlannerPlan,
    number: usize,
) -> Result<Option<UnitsRange>, NoMemory>
    requires shown { IsShownIn (limited planner.now) least.now }
    requires route { IsNode (length planner.now.routes) number }
    ensures range { IfOk result (λ told. IfSome told (λ range. IsRouteRange (limited planner.now) least.now number range.most)) }
    ensures untold { IfOk result (λ told. IfNone told (IsUntold least.now.shown.model least.now.shown.prices.items (directed least.now.shown.prices.items (route_at least.now.shown.model number)).head (directed least.now.shown.prices.items (route_at least.now.shown.model number)).tail)) }
{
    // Called only for its clause: the problem has no fault.
    let _places = planner.places();
    route_savings_are_the_models();
    let shown = &least.shown;
    room_range(alloc, solver, &shown.model, &shown.prices, number)
}

// Returns the number of the exit of a place; without bounds this is its entry.
fn exit_of(places: &[Place], place: u32) -> u32
    requires few { length places.now ≤ PLACE_LIMIT }
    requires place { IsNode (length places.now) place }
    ensures { result ≡ exit_of places.now place }
{
    match places[place as usize - 1].through {
        Some(_) => places.len() as u32 + 2 + place,
        None => place,
    }
}

/// Returns for how many units the prices of a planner's least plan tell what units cost that come
/// in at one place and are taken out at another. It is the range of units between the entry of the
/// one and the exit of the other in the model that the plan was found in, in which bounds have the
/// limits that they need.
///
/// It is `None` where `units_range` is.
///
/// # Errors
///
/// `NoMemory` if an allocation is refused.
pub fn planner_units_range<S: Solves>(
    alloc: Global,
    solver: &mut S,
    planner: &Planner,
    least: &LeastPlannerPlan,
    ends: Ends,
) -> Result<Option<UnitsRange>, NoMemory>
    requires shown { IsShownIn (limited planner.now) least.now }
    requires from { IsNode (length planner.now.places) ends.from }
    requires to { IsNode (length planner.now.places) ends.to }
    ensures range { IfOk result (λ told. IfSome told (λ range. IsUnitsRangeBetween (limited planner.now) least.now ends.from ends.to range.most)) }
    ensures untold { IfOk result (λ told. IfNone told (IsUntold least.now.shown.model least.now.shown.prices.items ends.from (exit_of planner.now.places ends.to))) }
{
    let places = planner.places();
    units_are_the_models();
    sound_planners_have_sound_models();
    let to = exit_of(places, ends.to);
    let between = Ends {
        from: ends.from,
        to,
    };
    let shown = &least.shown;
    units_range(alloc, solver, &shown.model, &shown.prices, between)
}
