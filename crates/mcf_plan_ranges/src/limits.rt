//! Of which plans ranges are told.
ghost use Rattle.std.specs.Prelude.{◌≡◌, ◌<◌, ◌≤◌, ◌*◌, ◌↔◌, IsTrue, length, slice_index_or};
ghost use Rattle.std.specs.List.{All};
ghost use Rattle.mcf_engine.specs.SmallPrices.{price_limit};
ghost use Rattle.mcf_figures.specs.Figures.{figure_limit};
ghost use Rattle.mcf_flows.specs.Limits.{arc_limit, limits, node_limit};
ghost use Rattle.mcf_flows.specs.WellFormed.{IsUpTo};
ghost use Rattle.mcf_model.specs.Tables.{no_route, route_with};
ghost use Rattle.mcf_plan_ranges.specs.PlanRanges.{AreWithinLimits, HasSmallCosts};

use crate::residual::number_at;
use mcf_figures::are_small;
use mcf_flows::{ARC_LIMIT, COST_LIMIT, NODE_LIMIT};
use mcf_model::{PlanModel, RouteRow, Step};

// The greatest absolute value of a price.
const PRICE_LIMIT: i128 = 1_000_000_000_000_000_000_000;

// Returns whether a cost may be that of an arc.
fn is_small_cost(cost: i64) -> bool
    ensures { IsTrue result ↔ IsUpTo limits.cost cost }
{
    let limit = COST_LIMIT as i64;
    -limit <= cost && cost <= limit
}

// Returns whether the cost of each step may be that of an arc.
fn are_small_steps(own: &[Step]) -> bool
    ensures { IsTrue result ↔ All (λ s. IsUpTo limits.cost s.cost) own.now }
{
    for place in 0..own.len() {
        if !is_small_cost(own[place].cost) {
            return false;
        }
    }
    true
}

// Returns whether each cost of a route may be that of an arc.
fn has_small_costs(row: RouteRow, own: &[Step]) -> bool
    ensures { IsTrue result ↔ HasSmallCosts (route_with row own.now) }
{
    let steps = are_small_steps(own);
    let last = is_small_cost(row.last_cost);
    steps && last
}

// Returns whether each cost of the route at a place may be that of an arc.
fn has_small_costs_at(model: &PlanModel, place: usize) -> bool
    requires { place < length model.now.routes }
    ensures { IsTrue result ↔ HasSmallCosts (slice_index_or model.now.routes place no_route) }
{
    let route = model.route(place);
    has_small_costs(route.row, route.steps)
}

// Returns whether each cost of each route may be that of an arc.
fn are_small_costs(model: &PlanModel) -> bool
    ensures { IsTrue result ↔ All HasSmallCosts model.now.routes }
{
    for place in 0..model.route_count() {
        if !has_small_costs_at(model, place) {
            return false;
        }
    }
    true
}

// Returns whether a price is within the limit.
fn is_small_price(price: i128) -> bool
    ensures { IsTrue result ↔ IsUpTo price_limit price }
{
    -PRICE_LIMIT <= price && price <= PRICE_LIMIT
}

// Returns whether no price is beyond the limit.
fn are_small_prices(prices: &[i128]) -> bool
    ensures { IsTrue result ↔ All (IsUpTo price_limit) prices.now }
{
    for place in 0..prices.len() {
        let price = number_at(prices, place);
        if !is_small_price(price) {
            return false;
        }
    }
    true
}

// Returns whether there are no more places and routes than a network takes, and one price for each
// place.
fn are_few(model: &PlanModel, prices: &[i128]) -> bool
    ensures { IsTrue result ↔ ((length model.now.supplies ≤ node_limit) × (2 * length model.now.routes ≤ arc_limit) × (length prices.now ≡ length model.now.supplies)) }
{
    let places = model.place_count();
    let routes = model.route_count();
    places <= NODE_LIMIT as usize && routes <= (ARC_LIMIT / 2) as usize && prices.len() == places
}

/// Returns whether the numbers of a model, of prices and of a plan are within the limits of ranges.
pub(crate) fn are_within_limits(model: &PlanModel, prices: &[i128], carries: &[i128]) -> bool
    ensures { IsTrue result ↔ AreWithinLimits model.now prices.now carries.now }
{
    let few = are_few(model, prices);
    let costs = are_small_costs(model);
    let small_prices = are_small_prices(prices);
    let small_amounts = are_small(carries);
    few && costs && small_prices && small_amounts
}
