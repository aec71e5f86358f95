//! The lowest and the highest amount of a route's span, from the rooms of its steps.
ghost use Rattle.std.specs.Prelude.{◌≡◌, ◌^◌, ◌+ℤ◌, ◌≤ℤ◌, [], int_le, int_lt, neg_ℤ, option_map, pos};
ghost use Rattle.std.specs.Int.{int_max};
ghost use Rattle.mcf_model.specs.Faults.{first_cost};
ghost use Rattle.mcf_model.specs.Tables.{route_with};
ghost use Rattle.mcf_unit_ranges.specs.Spans.{highest, lowest, room_below, room_up_to};

use mcf_model::{RouteRow, Step};

// Returns the capacity of a step.
fn most_of(step: Step) -> i128
    ensures value { result ≡ step.most }
    ensures low { neg_ℤ (pos (2 ^ 63)) ≤ℤ result }
    ensures high { result ≤ℤ pos (2 ^ 63) }
{
    i128::from(step.most)
}

// Returns whether a unit costs less than the price drop.
fn costs_less(cost: i64, drop: i128) -> bool
    ensures { result ≡ int_lt cost drop }
{
    i128::from(cost) < drop
}

// Returns whether a unit costs no more than the price drop.
fn costs_no_more(cost: i64, drop: i128) -> bool
    ensures { result ≡ int_le cost drop }
{
    i128::from(cost) <= drop
}

// Returns the room of the last step, if a unit of it costs less than the price drop; otherwise 0.
fn last_below(last_cost: i64, last_most: Option<i64>, drop: i128) -> i128
    ensures value { result ≡ room_below drop [] last_cost last_most }
    ensures low { neg_ℤ (pos (2 ^ 63)) ≤ℤ result }
    ensures high { result ≤ℤ pos (2 ^ 63) }
{
    let cheap = costs_less(last_cost, drop);
    match last_most {
        Some(most) => { if cheap { i128::from(most) } else { 0 } }
        None => 0,
    }
}

// Returns the room of the first steps, as far as a unit of them costs less than the price drop.
fn room_below(own: &[Step], last_cost: i64, last_most: Option<i64>, drop: i128) -> i128
    ensures { result ≡ room_below drop own.now last_cost last_most }
{
    let mut total = 0i128;
    for place in 0..own.len() {
        if !costs_less(own[place].cost, drop) {
            return total;
        }
        total += most_of(own[place]);
    }
    total + last_below(last_cost, last_most, drop)
}

// Returns the limit of the last step, if a unit of it costs no more than the price drop; otherwise
// 0.
fn last_up_to(last_cost: i64, last_most: Option<i64>, drop: i128) -> Option<i64>
    ensures { result ≡ room_up_to drop [] last_cost last_most }
{
    let cheap = costs_no_more(last_cost, drop);
    if cheap { last_most } else { Some(0) }
}

// Returns the sum of a room and of a limit, if there is one.
fn with_last(total: i128, last: Option<i64>) -> Option<i128>
    requires low { neg_ℤ (pos (2 ^ 126)) ≤ℤ total }
    requires high { total ≤ℤ pos (2 ^ 126) }
    ensures { result ≡ option_map (λ x. total +ℤ x) last }
{
    match last {
        Some(most) => Some(total + i128::from(most)),
        None => None,
    }
}

// Returns the room of the first steps, as far as a unit of them costs no more than the price drop;
// `None` is no limit.
fn room_up_to(own: &[Step], last_cost: i64, last_most: Option<i64>, drop: i128) -> Option<i128>
    ensures { result ≡ room_up_to drop own.now last_cost last_most }
{
    let mut total = 0i128;
    for place in 0..own.len() {
        if !costs_no_more(own[place].cost, drop) {
            return Some(total);
        }
        total += most_of(own[place]);
    }
    with_last(total, last_up_to(last_cost, last_most, drop))
}

// Returns the cost of the first unit of a route.
fn first_cost(own: &[Step], last_cost: i64) -> i64
    ensures { result ≡ first_cost own.now last_cost }
{
    if own.len() == 0 {
        last_cost
    } else {
        own[0].cost
    }
}

// Returns the larger of two amounts.
fn larger(least: i64, room: i128) -> i128
    ensures { result ≡ int_max least room }
{
    let least = i128::from(least);
    if least < room { room } else { least }
}

/// Returns the lowest amount of a route of least reduced cost, if the price drops by so much.
pub(crate) fn lowest(row: RouteRow, own: &[Step], drop: i128) -> i128
    ensures { result ≡ lowest drop (route_with row own.now) }
{
    let first = first_cost(own, row.last_cost);
    if costs_less(first, drop) {
        let room = room_below(own, row.last_cost, row.last_most, drop);
        larger(row.least, room)
    } else {
        i128::from(row.least)
    }
}

// Returns the larger of a least amount and of a limit, if there is one.
fn larger_limit(least: i64, room: Option<i128>) -> Option<i128>
    ensures { result ≡ option_map (λ x. int_max least x) room }
{
    match room {
        Some(most) => Some(larger(least, most)),
        None => None,
    }
}

/// Returns the highest amount of a route of least reduced cost, if the price drops by so much;
/// `None` is no limit.
pub(crate) fn highest(row: RouteRow, own: &[Step], drop: i128) -> Option<i128>
    ensures { result ≡ highest drop (route_with row own.now) }
{
    let first = first_cost(own, row.last_cost);
    if costs_no_more(first, drop) {
        let room = room_up_to(own, row.last_cost, row.last_most, drop);
        larger_limit(row.least, room)
    } else {
        Some(i128::from(row.least))
    }
}
