//! For how many units more room on a route saves what the prices say.
ghost use Rattle.std.specs.Prelude.{◌≡◌, ◌-◌, ◌≤◌, ◌≤ℤ◌, ◌<ℤ◌, ◌⊎◌, IfOk, IsTrue, false, pos};
ghost use Rattle.mcf_figures.specs.Figures.{saving};
ghost use Rattle.mcf_figures.specs.FigureLaws.{IsPriced};
ghost use Rattle.mcf_figures.specs.Told.{HasFigures};
ghost use Rattle.mcf_model.specs.Tables.{IsRouteNumber, route_at};
ghost use Rattle.mcf_places.specs.Answers.{IsShownIn};
ghost use Rattle.mcf_places.specs.LimitedPlanners.{limited};
ghost use Rattle.mcf_places.specs.Planners.{row_count};
ghost use Rattle.mcf_range_text.specs.RoomRangeTexts.{AreRoomRanges, IsRoomRange, IsRowRoom, is_loop};

use mcf_figures::route_figures;
use mcf_model::Solves;
use mcf_places::{LeastPlannerPlan, Planner, ShownModel};
use mcf_text::NoMemory;
use mcf_unit_ranges::{UnitsRange, room_range as model_range};
use std::alloc::Global;

// Returns whether more room on a route of the model saves something.
fn saves_something(shown: &ShownModel, number: usize) -> bool
    requires { IsRouteNumber shown.now.model number }
    ensures yes { IsTrue result → pos 0 <ℤ saving shown.now.prices.items (route_at shown.now.model number) }
    ensures no { result ≡ false → ((¬ HasFigures shown.now.model shown.now.prices.items shown.now.carries.items (number - 1))
        ⊎ (saving shown.now.prices.items (route_at shown.now.model number) ≤ℤ pos 0)) }
{
    match route_figures(&shown.model, &shown.prices, &shown.carries, number - 1) {
        Some(told) => told.saves > 0,
        None => false,
    }
}

// Returns for how many units more room on a route of the model saves what the prices say, if that
// is told.
pub(crate) fn room_range<S: Solves>(
    alloc: Global,
    solver: &mut S,
    shown: &ShownModel,
    number: usize,
) -> Result<Option<UnitsRange>, NoMemory>
    requires priced { IsPriced shown.now.model shown.now.prices.items shown.now.carries.items }
    requires number { IsRouteNumber shown.now.model number }
    ensures { IfOk result (IsRoomRange shown.now number) }
{
    let saves = saves_something(shown, number);
    if !saves {
        return Ok(None);
    }
    model_range(alloc, solver, &shown.model, &shown.prices, number)
}

// Returns whether the route of a row leads from a place back to it.
fn is_loop(planner: &Planner, row: usize) -> bool
    requires low { 1 ≤ row }
    requires high { row ≤ row_count planner.now }
    ensures { result ≡ is_loop planner.now row }
{
    let route = planner.route(row - 1);
    route.row.tail == route.row.head
}

// Returns the range of the room on the route of a row, if it is no loop.
fn row_room<S: Solves>(
    alloc: Global,
    solver: &mut S,
    planner: &Planner,
    least: &LeastPlannerPlan,
    row: usize,
) -> Result<Option<UnitsRange>, NoMemory>
    requires shown { IsShownIn (limited planner.now) least.now }
    requires low { 1 ≤ row }
    requires high { row ≤ row_count planner.now }
    ensures { IfOk result (IsRowRoom planner.now least.now.shown row) }
{
    let loops = is_loop(planner, row);
    if loops {
        return Ok(None);
    }
    room_range(alloc, solver, &least.shown, row)
}

/// Returns the ranges of the room on the routes of all rows.
///
/// # Errors
///
/// `NoMemory` if an allocation is refused.
pub(crate) fn room_ranges<S: Solves>(
    alloc: Global,
    solver: &mut S,
    planner: &Planner,
    least: &LeastPlannerPlan,
) -> Result<Vec<Option<UnitsRange>>, NoMemory>
    requires { IsShownIn (limited planner.now) least.now }
    ensures { IfOk result (λ made. AreRoomRanges planner.now least.now made.items) }
{
    let count = planner.row_count();
    let mut made = Vec::with_capacity(alloc, count)?;
    for place in 0..count {
        let told = row_room(alloc, solver, planner, least, place + 1)?;
        made.push(told)?;
    }
    Ok(made)
}
