//! The figures of a route in a plan.
ghost use Rattle.std.specs.Prelude.{◌≡◌, ◌*◌, ◌<◌, ◌-ℤ◌, ◌≤ℤ◌, IfNone, IfSome, length, pos, slice_index_or};
ghost use Rattle.std.specs.List.{All};
ghost use Rattle.mcf_flows.specs.Network.{at_node};
ghost use Rattle.mcf_flows.specs.WellFormed.{IsUpTo};
ghost use Rattle.mcf_model.specs.Tables.{no_route, route_with};
ghost use Rattle.mcf_figures.specs.Figures.{figure_limit};
ghost use Rattle.mcf_figures.specs.Private.Units.{AreNumbers};
ghost use Rattle.mcf_figures.specs.Told.{AreRouteFigures, AreSmall, HasFigures};

use crate::loose::is_loose;
use crate::units::{dearer, free, is_small, saving};
use mcf_model::{PlanModel, RouteRow, Step};

/// What one more unit does on a route of a plan.
#[derive(Clone, Copy, Debug, PartialEq, Eq)]
pub struct RouteFigures {
    /// How much more the route may carry, or `None` without a limit.
    pub free: Option<i128>,
    /// What one more unit of room saves: the price drop less the cost of a unit of the last step,
    /// if that is above 0 and the route has a limit.
    pub saves: i128,
    /// Whether the route may carry one unit more, and one less, at the cost that the prices say.
    pub loose: bool,
    /// By how much the plan's cost rises at least if the route has to carry one unit more, or
    /// `None` if it is full.
    pub dearer: Option<i128>,
}

// Returns the number at a place, or 0 past the end.
pub(crate) fn number_at(numbers: &[i128], place: usize) -> i128
    ensures { result ≡ slice_index_or numbers.now place (pos 0) }
{
    if place < numbers.len() {
        numbers[place]
    } else {
        0
    }
}

// Returns the price of a place, or 0 if it has none.
pub(crate) fn price_of(prices: &[i128], node: u32) -> i128
    ensures { result ≡ at_node prices.now node }
{
    number_at(prices, (node as usize).saturating_sub(1))
}

// Returns how far the first price is above the second.
fn drop_of(tail: i128, head: i128) -> i128
    requires tail { IsUpTo figure_limit tail }
    requires head { IsUpTo figure_limit head }
    ensures value { result ≡ tail -ℤ head }
    ensures small { IsUpTo (2 * figure_limit) result }
{
    tail - head
}

// Returns the figures of a route that carries an amount, if the price drops by so much on it.
fn numbers_of(row: RouteRow, own: &[Step], carried: i128, drop: i128) -> RouteFigures
    requires carried { IsUpTo figure_limit carried }
    requires drop { IsUpTo (2 * figure_limit) drop }
    requires takes { All (λ s. pos 0 ≤ℤ s.most) own.now }
    ensures { AreNumbers (route_with row own.now) carried drop result }
{
    let free = free(row, own, carried);
    let saves = saving(row, drop);
    let loose = is_loose(row, own, carried, drop);
    let dearer = dearer(row, own, carried, drop);
    RouteFigures {
        free,
        saves,
        loose,
        dearer,
    }
}

// Returns the figures of a route that carries an amount, if the prices at its ends are these.
pub(crate) fn figures_of(
    row: RouteRow,
    own: &[Step],
    carried: i128,
    tail: i128,
    head: i128,
) -> Option<RouteFigures>
    requires { All (λ s. pos 0 ≤ℤ s.most) own.now }
    ensures some { IfSome result (AreNumbers (route_with row own.now) carried (tail -ℤ head)) }
    ensures none { IfNone result (¬ AreSmall carried tail head) }
    ensures small { IfSome result (λ f. AreSmall carried tail head) }
{
    let small = is_small(carried);
    let small_tail = is_small(tail);
    let small_head = is_small(head);
    if small && small_tail && small_head {
        let drop = drop_of(tail, head);
        return Some(numbers_of(row, own, carried, drop));
    }
    None
}

/// Returns the figures of a route, whose place counts from 0, in a plan of a model at the prices
/// that show it: how much more it may carry, what one more unit of room saves at most, whether it
/// is loose, and what it costs at least to carry one more unit.
///
/// It is `None` if there is no such route, or if the amount or a price at its ends is further than
/// 10^36 from 0.
pub fn route_figures(
    model: &PlanModel,
    prices: &[i128],
    carries: &[i128],
    place: usize,
) -> Option<RouteFigures>
    ensures some { IfSome result (AreRouteFigures prices.now (slice_index_or model.now.routes place no_route) (slice_index_or carries.now place (pos 0))) }
    ensures none { IfNone result (¬ HasFigures model.now prices.now carries.now place) }
    ensures has { IfSome result (λ f. HasFigures model.now prices.now carries.now place) }
{
    if model.route_count() <= place {
        return None;
    }
    let route = model.route(place);
    let carried = number_at(carries, place);
    let tail = price_of(prices, route.row.tail);
    let head = price_of(prices, route.row.head);
    figures_of(route.row, route.steps, carried, tail, head)
}
