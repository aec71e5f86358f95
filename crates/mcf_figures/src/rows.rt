//! What is told of each route of a plan.
ghost use Rattle.std.specs.Prelude.{◌≡◌, ◌≤ℤ◌, ◌↔◌, IfNone, IfSome, IsTrue, pos};
ghost use Rattle.std.specs.List.{All};
ghost use Rattle.mcf_flows.specs.WellFormed.{IsUpTo};
ghost use Rattle.mcf_flows.specs.Network.{at_node};
ghost use Rattle.mcf_model.specs.Laws.{IsProper};
ghost use Rattle.mcf_model.specs.Tables.{IsRouteNumber, no_route, route_at, route_with};
ghost use Rattle.mcf_figures.specs.Figures.{IsExact, amount_at, figure_limit};
ghost use Rattle.mcf_figures.specs.Groups.{AreGroups, is_exact_between};
ghost use Rattle.mcf_figures.specs.Rows.{row_told};
ghost use Rattle.mcf_figures.specs.Told.{AreSmall, are_small, cost_told};

use crate::costs::route_cost;
use crate::figures::{RouteFigures, figures_of, number_at, price_of};
use crate::groups::is_exact_between;
use crate::units::is_small;
use mcf_model::{PlanModel, RouteParts, RouteRow, Step};

/// What is told of a route in a plan.
#[derive(Clone, Copy, Debug, PartialEq, Eq)]
pub struct RowFigures {
    /// The cost of what the route carries, or `None` if that is more than 10^18 units.
    pub cost: Option<i128>,
    /// How much more the route may carry, or `None` without a limit.
    pub free: Option<i128>,
    /// What one more unit of room saves at most.
    pub saves: i128,
    /// Whether one more unit of room saves just that.
    pub exact: bool,
    /// By how much the plan's cost rises at least if the route has to carry one unit more, or
    /// `None` if it is full.
    pub dearer: Option<i128>,
}

// A route that carries nothing.
fn no_route<'m>() -> RouteParts<'m>
    ensures { route_with result.row result.steps.now ≡ no_route }
{
    let row = RouteRow {
        tail: 0,
        head: 0,
        first_step: 0,
        step_count: 0,
        least: 0,
        last_most: Some(0),
        last_cost: 0,
        both: false,
    };
    RouteParts { row, steps: &[] }
}

// Returns a route by its number; past the end, one that carries nothing.
fn route_at(model: &PlanModel, number: usize) -> RouteParts<'_>
    ensures route { route_with result.row result.steps.now ≡ route_at model.now number }
    ensures takes { All (λ s. pos 0 ≤ℤ s.most) result.steps.now }
    ensures proper { IsProper model.now }
{
    let place = number.saturating_sub(1);
    if place < model.route_count() {
        model.route(place)
    } else {
        no_route()
    }
}

// Returns the amount that a route carries, by the route's number.
fn amount_at(carries: &[i128], number: usize) -> i128
    ensures { result ≡ amount_at carries.now number }
{
    number_at(carries, number.saturating_sub(1))
}

// Returns what is told of a route that carries an amount.
fn row_of(
    row: RouteRow,
    own: &[Step],
    carried: i128,
    found: RouteFigures,
    groups: &[usize],
) -> RowFigures
    requires { All (λ s. pos 0 ≤ℤ s.most) own.now }
    ensures cost { result.cost ≡ cost_told (route_with row own.now) carried }
    ensures free { result.free ≡ found.free }
    ensures saves { result.saves ≡ found.saves }
    ensures exact { result.exact ≡ is_exact_between groups.now row.tail row.head found.saves }
    ensures dearer { result.dearer ≡ found.dearer }
{
    let cost = route_cost(row, own, carried);
    let exact = is_exact_between(groups, row.tail, row.head, found.saves);
    RowFigures {
        cost,
        free: found.free,
        saves: found.saves,
        exact,
        dearer: found.dearer,
    }
}

/// Returns what is told of a route, by its number, in a plan of a model at the prices that show it,
/// whose groups are those of `groups_of`: the cost of what it carries, how much more it may carry,
/// what one more unit of room saves, whether it saves just that, and what it costs at least to
/// carry one more unit. Past the last route it is told of a route that carries nothing.
///
/// It is `None` if the amount or a price at the route's ends is further than 10^36 from 0.
pub fn row_figures(
    model: &PlanModel,
    prices: &[i128],
    carries: &[i128],
    groups: &[usize],
    number: usize,
) -> Option<RowFigures>
    ensures some { IfSome result (λ told. told ≡ row_told model.now prices.now carries.now groups.now number) }
    ensures none { IfNone result (¬ AreSmall (amount_at carries.now number) (at_node prices.now (route_at model.now number).tail) (at_node prices.now (route_at model.now number).head)) }
    ensures small { IfSome result (λ told. AreSmall (amount_at carries.now number) (at_node prices.now (route_at model.now number).tail) (at_node prices.now (route_at model.now number).head)) }
    ensures exact { IfSome result (λ told. IsRouteNumber model.now number → AreGroups prices.now model.now carries.now groups.now
        → (IsTrue told.exact ↔ IsExact prices.now model.now carries.now number)) }
{
    let route = route_at(model, number);
    let carried = amount_at(carries, number);
    let tail = price_of(prices, route.row.tail);
    let head = price_of(prices, route.row.head);
    match figures_of(route.row, route.steps, carried, tail, head) {
        Some(found) => Some(row_of(route.row, route.steps, carried, found, groups)),
        None => None,
    }
}

/// Returns whether all numbers are within the limit of figures: none is further than 10^36 from 0.
pub fn are_small(numbers: &[i128]) -> bool
    ensures value { result ≡ are_small numbers.now }
    ensures small { IsTrue result ↔ All (IsUpTo figure_limit) numbers.now }
{
    for place in 0..numbers.len() {
        if !is_small(numbers[place]) {
            return false;
        }
    }
    true
}
