//! For how many units one more that may pass through a place saves what the prices say.
ghost use Rattle.std.specs.Prelude.{◌≡◌, ◌+◌, ◌<◌, ◌≤◌, ◌^◌, IfOk, Some, length};
ghost use Rattle.std.specs.Option.{option_to_list};
ghost use Rattle.mcf_figures.specs.FigureLaws.{IsPriced};
ghost use Rattle.mcf_model.specs.Tables.{IsRouteNumber};
ghost use Rattle.mcf_places.specs.Answers.{IsShownIn};
ghost use Rattle.mcf_places.specs.LimitedPlanners.{limited};
ghost use Rattle.mcf_plan_figures.specs.PlannerFigures.{through_number};
ghost use Rattle.mcf_range_text.specs.PassRangeTexts.{ArePassRanges, IsPassRange, IsPassRangeAt};

use crate::rooms::room_range;
use mcf_model::Solves;
use mcf_places::{Bounds, LeastPlannerPlan, Place, Planner, ShownModel};
use mcf_plan_figures::told_figures_are_the_planners;
use mcf_text::NoMemory;
use mcf_unit_ranges::UnitsRange;
use std::alloc::Global;

// Returns the range of the room on a route of the model, if it carries what passes through a place.
fn pass_range<S: Solves>(
    alloc: Global,
    solver: &mut S,
    shown: &ShownModel,
    number: usize,
    through: Option<Bounds>,
) -> Result<Option<UnitsRange>, NoMemory>
    requires priced { IsPriced shown.now.model shown.now.prices.items shown.now.carries.items }
    requires number { (bounds : Bounds) → through ≡ Some bounds → IsRouteNumber shown.now.model number }
    ensures { IfOk result (IsPassRange shown.now number through) }
{
    match through {
        Some(_) => room_range(alloc, solver, shown, number),
        None => Ok(None),
    }
}

// Returns the range of a place, if the model's route with a number carries what passes through it.
fn place_pass<S: Solves>(
    alloc: Global,
    solver: &mut S,
    planner: &Planner,
    least: &LeastPlannerPlan,
    row: usize,
    number: usize,
) -> Result<Option<UnitsRange>, NoMemory>
    requires shown { IsShownIn (limited planner.now) least.now }
    requires low { 1 ≤ row }
    requires high { row ≤ length planner.now.places }
    requires number { number ≡ through_number planner.now row }
    ensures { IfOk result (IsPassRangeAt planner.now least.now.shown row) }
{
    told_figures_are_the_planners();
    let places = planner.places();
    pass_range(alloc, solver, &least.shown, number, places[row - 1].through)
}

// Returns the number of the route for the next place with bounds, if that of a place is known.
fn next_number(number: usize, place: Place) -> usize
    requires { number < 2 ^ 63 + 2 ^ 32 }
    ensures { result ≡ number + length (option_to_list place.through) }
{
    match place.through {
        Some(_) => number + 1,
        None => number,
    }
}

// Returns the number of the first route of the model that carries what passes through a place.
fn first_number(planner: &Planner, least: &LeastPlannerPlan) -> usize
    requires { IsShownIn (limited planner.now) least.now }
    ensures value { result ≡ length planner.now.routes + 1 }
    ensures few { result < 2 ^ 63 + 1 }
{
    // Called only for its clause: there are no more routes than amounts.
    let _carried = least.shown.carries.len();
    planner.route_count() + 1
}

/// Returns the ranges of what passes through all places.
///
/// # Errors
///
/// `NoMemory` if an allocation is refused.
pub(crate) fn pass_ranges<S: Solves>(
    alloc: Global,
    solver: &mut S,
    planner: &Planner,
    least: &LeastPlannerPlan,
) -> Result<Vec<Option<UnitsRange>>, NoMemory>
    requires { IsShownIn (limited planner.now) least.now }
    ensures { IfOk result (λ made. ArePassRanges planner.now least.now made.items) }
{
    let places = planner.places();
    let mut made = Vec::with_capacity(alloc, places.len())?;
    let mut number = first_number(planner, least);
    for place in 0..places.len() {
        let told = place_pass(alloc, solver, planner, least, place + 1, number)?;
        made.push(told)?;
        number = next_number(number, places[place]);
    }
    Ok(made)
}
