//! The spans of routes, as rows.
ghost use Rattle.std.specs.Prelude.{◌≡◌, ◌*◌, ◌+◌, ◌<◌, ◌-ℤ◌, ◌&&◌, ◌↔◌, List, [], IfOk, IfSome, IsTrue, if◌then◌else◌, int_lt, length, map, pos, slice_index_or};
ghost use Rattle.std.specs.List.{All};
ghost use Rattle.std.specs.Ordering.{int_eq};
ghost use Rattle.mcf_figures.specs.Figures.{figure_limit};
ghost use Rattle.mcf_flows.specs.Limits.{limits};
ghost use Rattle.mcf_flows.specs.Network.{at_node};
ghost use Rattle.mcf_flows.specs.WellFormed.{IsUpTo};
ghost use Rattle.mcf_model.specs.Prices.{price_drop};
ghost use Rattle.mcf_model.specs.Tables.{no_route, route_with};
ghost use Rattle.mcf_unit_ranges.specs.Spans.{directed, highest, lowest, span, turned};
ghost use Rattle.mcf_unit_ranges.specs.Told.{HasSmallSpan};

use crate::limits::{is_small_bound, is_small_limit};
use crate::rooms::{highest, lowest};
use mcf_model::{PlanModel, RouteRow, Step};

// Returns the price of a place, or 0 if it has none.
fn price_of(prices: &[i128], node: u32) -> i128
    requires { All (IsUpTo figure_limit) prices.now }
    ensures value { result ≡ at_node prices.now node }
    ensures small { IsUpTo figure_limit result }
{
    let place = (node as usize).saturating_sub(1);
    if place < prices.len() {
        prices[place]
    } else {
        0
    }
}

/// Returns how far the price drops between two places.
pub(crate) fn price_drop(prices: &[i128], tail: u32, head: u32) -> i128
    requires { All (IsUpTo figure_limit) prices.now }
    ensures value { result ≡ at_node prices.now tail -ℤ at_node prices.now head }
    ensures small { IsUpTo (2 * figure_limit) result }
{
    price_of(prices, tail) - price_of(prices, head)
}

// Returns the route in its other direction, if so asked.
fn turned_if(row: RouteRow, back: bool) -> RouteRow
    ensures { (own : List Step) → route_with result own ≡ (if back then turned (route_with row own) else route_with row own) }
{
    if back {
        RouteRow {
            tail: row.head,
            head: row.tail,
            ..row
        }
    } else {
        row
    }
}

/// Returns the route in the direction in which the price drops.
pub(crate) fn directed(row: RouteRow, prices: &[i128]) -> RouteRow
    requires { All (IsUpTo figure_limit) prices.now }
    ensures { (own : List Step) → route_with result own ≡ directed prices.now (route_with row own) }
{
    let drop = price_drop(prices, row.tail, row.head);
    let back = row.both && drop < 0;
    turned_if(row, back)
}

// The lowest and the highest amount of a span.
#[derive(Clone, Copy)]
struct Bounds {
    low: i128,
    high: Option<i128>,
}

// Returns the lowest and the highest amount of the span of a route in its direction.
fn bounds_of(row: RouteRow, own: &[Step], prices: &[i128]) -> Bounds
    requires { All (IsUpTo figure_limit) prices.now }
    ensures low { result.low ≡ lowest (price_drop prices.now (route_with row own.now)) (route_with row own.now) }
    ensures high { result.high ≡ highest (price_drop prices.now (route_with row own.now)) (route_with row own.now) }
{
    let drop = price_drop(prices, row.tail, row.head);
    let low = lowest(row, own, drop);
    let high = highest(row, own, drop);
    Bounds { low, high }
}

// Returns the lowest and the highest amount of the span of a route.
fn span_bounds(row: RouteRow, own: &[Step], prices: &[i128]) -> Bounds
    requires { All (IsUpTo figure_limit) prices.now }
    ensures low { result.low ≡ (span prices.now (route_with row own.now)).least }
    ensures high { result.high ≡ (span prices.now (route_with row own.now)).last_most }
{
    let there = directed(row, prices);
    bounds_of(there, own, prices)
}

// Returns whether the lowest and the highest amount of a route's span are within the limit.
fn has_small_span(row: RouteRow, own: &[Step], prices: &[i128]) -> bool
    requires { All (IsUpTo figure_limit) prices.now }
    ensures { IsTrue result ↔ HasSmallSpan prices.now (route_with row own.now) }
{
    let bounds = span_bounds(row, own, prices);
    let low = is_small_bound(bounds.low);
    let high = is_small_limit(bounds.high);
    low && high
}

// Returns whether those of the route at a place are.
fn has_small_span_at(model: &PlanModel, prices: &[i128], place: usize) -> bool
    requires place { place < length model.now.routes }
    requires prices { All (IsUpTo figure_limit) prices.now }
    ensures { IsTrue result ↔ HasSmallSpan prices.now (slice_index_or model.now.routes place no_route) }
{
    let route = model.route(place);
    has_small_span(route.row, route.steps, prices)
}

/// Returns whether the lowest and the highest amount of each route's span are within the limit.
pub(crate) fn are_small_spans(model: &PlanModel, prices: &[i128]) -> bool
    requires { All (IsUpTo figure_limit) prices.now }
    ensures { IsTrue result ↔ All (HasSmallSpan prices.now) model.now.routes }
{
    for place in 0..model.route_count() {
        if !has_small_span_at(model, prices, place) {
            return false;
        }
    }
    true
}

// Returns an amount in 64 bits.
fn narrowed(amount: i128) -> i64
    requires { IsUpTo limits.bound amount }
    ensures { result ≡ amount }
{
    amount as i64
}

// Returns an amount in 64 bits, if there is one.
fn narrowed_limit(amount: Option<i128>) -> Option<i64>
    requires { IfSome amount (IsUpTo limits.bound) }
    ensures { result ≡ amount }
{
    match amount {
        Some(most) => Some(narrowed(most)),
        None => None,
    }
}

// Returns whether the price stays on a route both ways.
fn stays(row: RouteRow, prices: &[i128]) -> bool
    requires { All (IsUpTo figure_limit) prices.now }
    ensures { (own : List Step) → result ≡ row.both && int_eq (price_drop prices.now (route_with row own)) (pos 0) }
{
    row.both && price_drop(prices, row.tail, row.head) == 0
}

/// Returns the span of a route.
pub(crate) fn span_row(row: RouteRow, own: &[Step], prices: &[i128]) -> RouteRow
    requires prices { All (IsUpTo figure_limit) prices.now }
    requires small { HasSmallSpan prices.now (route_with row own.now) }
    ensures span { route_with result [] ≡ span prices.now (route_with row own.now) }
    ensures plain { (result.first_step + result.step_count) ≡ 0 }
{
    let there = directed(row, prices);
    let bounds = span_bounds(row, own, prices);
    RouteRow {
        tail: there.tail,
        head: there.head,
        first_step: 0,
        step_count: 0,
        least: narrowed(bounds.low),
        last_most: narrowed_limit(bounds.high),
        last_cost: 0,
        both: stays(there, prices),
    }
}

/// Returns the span of the route at a place.
pub(crate) fn span_at(model: &PlanModel, prices: &[i128], place: usize) -> RouteRow
    requires place { place < length model.now.routes }
    requires prices { All (IsUpTo figure_limit) prices.now }
    requires small { All (HasSmallSpan prices.now) model.now.routes }
    ensures span { route_with result [] ≡ span prices.now (slice_index_or model.now.routes place no_route) }
    ensures plain { (result.first_step + result.step_count) ≡ 0 }
{
    let route = model.route(place);
    span_row(route.row, route.steps, prices)
}
