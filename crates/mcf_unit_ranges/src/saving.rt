//! For how many units more room on a route saves what the prices say.
ghost use Rattle.std.specs.Prelude.{◌≡◌, ◌*◌, ◌↔◌, ◌<ℤ◌, ◌-ℤ◌, List, IfNone, IfOk, IfSome, IsTrue, pos};
ghost use Rattle.std.specs.List.{All};
ghost use Rattle.mcf_figures.specs.Figures.{figure_limit, gain, saving};
ghost use Rattle.mcf_flows.specs.WellFormed.{IsUpTo};
ghost use Rattle.mcf_model.specs.Model.{charged};
ghost use Rattle.mcf_model.specs.Tables.{IsRouteNumber, route_at, route_with};
ghost use Rattle.mcf_unit_ranges.specs.Spans.{directed};
ghost use Rattle.mcf_unit_ranges.specs.Told.{IsRoomRangeAt, IsUntold};

use crate::ranging::{UnitsRange, units_range};
use crate::rows::Ends;
use crate::spans::{directed, price_drop};
use mcf_figures::are_small;
use mcf_model::{PlanModel, RouteRow, Solves, Step};
use mcf_text::NoMemory;
use std::alloc::Global;

// Returns a price drop, without its sign on a route both ways.
fn charged(both: bool, drop: i128) -> i128
    requires { IsUpTo (2 * figure_limit) drop }
    ensures { result ≡ charged both drop }
{
    if both && drop < 0 { -drop } else { drop }
}

// Returns whether a price drop is above a cost.
fn exceeds(drop: i128, cost: i64) -> bool
    ensures { IsTrue result ↔ (pos 0 <ℤ (drop -ℤ cost)) }
{
    i128::from(cost) < drop
}

// Returns whether the price drop is above the cost of a unit of the last step.
fn gains(row: RouteRow, prices: &[i128]) -> bool
    requires { All (IsUpTo figure_limit) prices.now }
    ensures { (own : List Step) → IsTrue result ↔ (pos 0 <ℤ gain prices.now (route_with row own)) }
{
    let drop = price_drop(prices, row.tail, row.head);
    let size = charged(row.both, drop);
    exceeds(size, row.last_cost)
}

// Returns whether more room on a route saves something, by the prices.
fn saves(row: RouteRow, prices: &[i128]) -> bool
    requires { All (IsUpTo figure_limit) prices.now }
    ensures { (own : List Step) → IsTrue result ↔ (pos 0 <ℤ saving prices.now (route_with row own)) }
{
    let gains = gains(row, prices);
    match row.last_most {
        Some(_) => gains,
        None => false,
    }
}

// Returns the head and the tail of a route, in the direction in which the price drops.
fn ends_of(row: RouteRow, prices: &[i128]) -> Ends
    requires { All (IsUpTo figure_limit) prices.now }
    ensures from { (own : List Step) → result.from ≡ (directed prices.now (route_with row own)).head }
    ensures to { (own : List Step) → result.to ≡ (directed prices.now (route_with row own)).tail }
{
    let there = directed(row, prices);
    Ends {
        from: there.head,
        to: there.tail,
    }
}

/// Returns for how many units more room on a route, by its number, saves what the prices of a least
/// plan say of one more: that of each plan that the prices show to be least, in some finer units.
/// It is the range of units from the route's head to its tail, in the direction in which the price
/// drops, if more room saves something; otherwise there is no limit, since any number of units
/// saves nothing.
///
/// It is `None` where `units_range` of these ends is.
///
/// # Errors
///
/// `NoMemory` if an allocation is refused.
pub fn room_range<S: Solves>(
    alloc: Global,
    solver: &mut S,
    model: &PlanModel,
    prices: &[i128],
    number: usize,
) -> Result<Option<UnitsRange>, NoMemory>
    requires number { IsRouteNumber model.now number }
    ensures range { IfOk result (λ told. IfSome told (λ range. IsRoomRangeAt model.now prices.now number range.most)) }
    ensures untold { IfOk result (λ told. IfNone told (IsUntold model.now prices.now (directed prices.now (route_at model.now number)).head (directed prices.now (route_at model.now number)).tail)) }
{
    let small_prices = are_small(prices);
    if !small_prices {
        return Ok(None);
    }
    let route = model.route(number - 1);
    let saves = saves(route.row, prices);
    if !saves {
        return Ok(Some(UnitsRange { most: None }));
    }
    let ends = ends_of(route.row, prices);
    units_range(alloc, solver, model, prices, ends)
}
