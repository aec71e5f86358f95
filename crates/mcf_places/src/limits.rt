//! The limits of bounds that have none, where some cost is below 0.
ghost use Rattle.std.specs.Prelude.{◌≡◌, ◌+ℤ◌, ◌≤◌, ◌^◌, ◌&&◌, IfOk, Some, map, option_map, pos};
ghost use Rattle.std.specs.List.{list_any};
ghost use Rattle.mcf_model.specs.Bottlenecks.{limit_or_zero, route_sum};
ghost use Rattle.mcf_model.specs.Model.{size};
ghost use Rattle.mcf_model.specs.Tables.{route_of};
ghost use Rattle.mcf_places.specs.LimitedPlanners.{limit_for, limited, limited_bounds, limited_place};
ghost use Rattle.mcf_places.specs.PlannerFaults.{IsProperPlanner, is_open};
ghost use Rattle.mcf_places.specs.Planners.{place_sum};
ghost use Rattle.mcf_places.specs.Throughput.{IsCut, ample_limit, bounds_span, cut, is_beyond, place_span, route_span, steps_span, ways_span};

use crate::faults::{earning, is_open};
use crate::making::copied_steps;
use crate::places::{Bounds, Place};
use crate::problem::Planner;
use crate::shortage::copied_numbers;
use mcf_model::{RouteRow, Step, own_steps};
use mcf_text::NoMemory;
use std::alloc::Global;

/// The greatest limit that bounds without one may get.
pub const THROUGHPUT_LIMIT: u64 = 1_000_000_000_000_000_000;

// One more.
const TOO_MUCH: u64 = 1_000_000_000_000_000_001;

// Returns the absolute value of a number.
fn size(number: i64) -> u64
    ensures value { pos result ≡ size number }
    ensures high { result ≤ 2 ^ 63 }
{
    number.unsigned_abs()
}

// Returns a sum and one more absolute value, or one more than the greatest limit if it is beyond
// that.
fn more(total: u64, amount: i64) -> u64
    requires { IsCut total }
    ensures value { pos result ≡ cut (pos total +ℤ size amount) }
    ensures within { IsCut result }
{
    let size = size(amount);
    (total + size).min(TOO_MUCH)
}

// Returns a limit, or 0 if there is none.
fn limit_or_zero(most: Option<i64>) -> i64
    ensures { result ≡ limit_or_zero most }
{
    match most {
        Some(most) => most,
        None => 0,
    }
}

// Returns a sum and those of the capacities of steps.
fn steps_more(total: u64, steps: &[Step]) -> u64
    requires { IsCut total }
    ensures value { pos result ≡ cut (pos total +ℤ steps_span steps.now) }
    ensures within { IsCut result }
{
    let mut sum = total;
    for place in 0..steps.len() {
        sum = more(sum, steps[place].most);
    }
    sum
}

// Returns a sum and those of the amounts of a route, one way.
fn route_more(total: u64, steps: &[Step], row: RouteRow) -> u64
    requires { IsCut total }
    ensures value { pos result ≡ cut (pos total +ℤ route_span (route_of steps.now row)) }
    ensures within { IsCut result }
{
    let with_least = more(total, row.least);
    let with_last = more(with_least, limit_or_zero(row.last_most));
    let own = own_steps(steps, row);
    steps_more(with_last, own)
}

// Returns a sum and those of the amounts of a route, for each way that it is used.
fn ways_more(total: u64, steps: &[Step], row: RouteRow) -> u64
    requires { IsCut total }
    ensures value { pos result ≡ cut (pos total +ℤ ways_span (route_of steps.now row)) }
    ensures within { IsCut result }
{
    let there = route_more(total, steps, row);
    if row.both {
        route_more(there, steps, row)
    } else {
        there
    }
}

// Returns a sum and those of the amounts of routes.
fn routes_more(total: u64, steps: &[Step], rows: &[RouteRow]) -> u64
    requires { IsCut total }
    ensures value { pos result ≡ cut (pos total +ℤ route_sum ways_span (map (route_of steps.now) rows.now)) }
    ensures within { IsCut result }
{
    let mut sum = total;
    for route in 0..rows.len() {
        sum = ways_more(sum, steps, rows[route]);
    }
    sum
}

// Returns a sum and those of the amounts of bounds.
fn bounds_more(total: u64, through: Option<Bounds>) -> u64
    requires { IsCut total }
    ensures value { pos result ≡ cut (pos total +ℤ bounds_span through) }
    ensures within { IsCut result }
{
    match through {
        Some(bounds) => {
            let with_least = more(total, bounds.least);
            more(with_least, limit_or_zero(bounds.most))
        }
        None => total,
    }
}

// Returns a sum and those of the amounts of a place.
fn place_more(total: u64, place: Place) -> u64
    requires { IsCut total }
    ensures value { pos result ≡ cut (pos total +ℤ place_span place) }
    ensures within { IsCut result }
{
    let with_supply = more(total, place.supply);
    bounds_more(with_supply, place.through)
}

// Returns a sum and those of the amounts of places.
fn places_more(total: u64, places: &[Place]) -> u64
    requires { IsCut total }
    ensures value { pos result ≡ cut (pos total +ℤ place_sum (λ v p. place_span p) 1 places.now) }
    ensures within { IsCut result }
{
    let mut sum = total;
    for place in 0..places.len() {
        sum = place_more(sum, places[place]);
    }
    sum
}

// Returns a limit that no plan fills, cut to one more than the greatest limit.
fn ample_limit(places: &[Place], steps: &[Step], rows: &[RouteRow]) -> u64
    ensures value { pos result ≡ cut (ample_limit places.now (map (route_of steps.now) rows.now)) }
    ensures within { IsCut result }
{
    let of_places = places_more(1, places);
    routes_more(of_places, steps, rows)
}

// Returns whether the limit that no plan fills is greater than a limit may be.
pub(crate) fn is_beyond(places: &[Place], steps: &[Step], rows: &[RouteRow]) -> bool
    ensures { result ≡ is_beyond places.now (map (route_of steps.now) rows.now) }
{
    ample_limit(places, steps, rows) > THROUGHPUT_LIMIT
}

// Returns whether some bounds have no limit.
fn some_open(places: &[Place]) -> bool
    ensures { result ≡ list_any (λ p. is_open p.through) places.now }
{
    for place in 0..places.len() {
        if is_open(places[place].through) {
            return true;
        }
    }
    false
}

// Returns whether both hold.
fn both(first: bool, second: bool) -> bool
    ensures { result ≡ (first && second) }
{
    first && second
}

// Returns the limit of bounds that need one and have none.
pub(crate) fn limit_for(planner: &Planner) -> Option<i64>
    ensures value { result ≡ limit_for planner.now }
    ensures proper { IsProperPlanner planner.now }
{
    let parts = planner.parts();
    let open = some_open(parts.places);
    let earning = earning(parts.places, parts.steps, parts.rows);
    if both(open, earning) {
        let limit = ample_limit(parts.places, parts.steps, parts.rows);
        Some(limit as i64)
    } else {
        None
    }
}

// Returns bounds with a limit.
fn limited_bounds(limit: i64, through: Option<Bounds>) -> Option<Bounds>
    ensures { result ≡ option_map (limited_bounds (Some limit)) through }
{
    match through {
        Some(bounds) => Some(Bounds {
            most: Some(bounds.most.unwrap_or(limit)),
            ..bounds
        }),
        None => None,
    }
}

// Returns a place whose bounds have a limit.
fn limited_place(limit: i64, place: Place) -> Place
    ensures { result ≡ limited_place (Some limit) place }
{
    Place {
        supply: place.supply,
        through: limited_bounds(limit, place.through),
        penalty: place.penalty,
    }
}

// Returns places whose bounds have limits.
fn limited_places(alloc: Global, limit: i64, places: &[Place]) -> Result<Vec<Place>, NoMemory>
    ensures { IfOk result (λ made. made.items ≡ map (limited_place (Some limit)) places.now) }
{
    let mut made = Vec::with_capacity(alloc, places.len())?;
    for place in 0..places.len() {
        let limited = limited_place(limit, places[place]);
        made.push(limited)?;
    }
    Ok(made)
}

// Returns a copy of rows.
fn copied_rows(alloc: Global, rows: &[RouteRow]) -> Result<Vec<RouteRow>, NoMemory>
    ensures { IfOk result (λ made. made.items ≡ rows.now) }
{
    Ok(rows.iter().copied().collect(alloc)?)
}

// Returns the problem in which bounds that need a limit and have none have this one.
pub(crate) fn limited_of(alloc: Global, planner: &Planner, limit: i64) -> Result<Planner, NoMemory>
    requires { limit_for planner.now ≡ Some limit }
    ensures { IfOk result (λ made. made ≡ limited planner.now) }
{
    let parts = planner.parts();
    let places = limited_places(alloc, limit, parts.places)?;
    let steps = copied_steps(alloc, parts.steps)?;
    let rows = copied_rows(alloc, parts.rows)?;
    let returning = copied_numbers(alloc, parts.returning)?;
    Ok(Planner {
        places,
        steps,
        rows,
        returning,
        policy: parts.policy,
    })
}
