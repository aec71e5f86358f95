//! The routes of a problem's model, as rows.
ghost use Rattle.std.specs.Prelude.{◌≡◌, ◌≤◌, ◌<◌, ◌+◌, ◌++◌, ◌∷◌, [], List, Some, None, OnOk, length, map, option_map, pos, suc, slice_index_or};
ghost use Rattle.std.specs.List.{All};
ghost use Rattle.std.specs.Option.{IfSome};
ghost use Rattle.mcf_flows.specs.Network.{IsNode};
ghost use Rattle.mcf_model.specs.declared.rows.Step.{Step as StepRow};
ghost use Rattle.mcf_model.specs.Faults.{AreListed};
ghost use Rattle.mcf_model.specs.Tables.{route_of, route_with};
ghost use Rattle.mcf_places.specs.Kinds.{kind_route};
ghost use Rattle.mcf_places.specs.Models.{exit_by, exit_of, from_exit, gate_of, hub_of, missing_route, plain_route, routes_by, stay_route, through_route};
ghost use Rattle.mcf_places.specs.PlannerFaults.{IsSmallPlace};

use crate::faults::{PLACE_LIMIT, missing_cost};
use crate::places::{Bounds, Place, Policy};
use mcf_model::RouteRow;
use mcf_text::NoMemory;

// The kinds of routes that are made for places.
#[derive(Clone, Copy)]
pub(crate) enum Kind {
    // from the entry of a place with bounds to its exit
    Through,
    // from a place that gives to the hub
    Stay,
    // from the gate to a place that wants
    Missing,
}

// Returns a route of one step, one way.
pub(crate) fn plain_row(tail: u32, head: u32, least: i64, most: Option<i64>, cost: i64) -> RouteRow
    ensures route { route_with result [] ≡ plain_route tail head least most cost }
    ensures plain { (result.first_step + result.step_count) ≡ 0 }
{
    RouteRow {
        tail,
        head,
        first_step: 0,
        step_count: 0,
        least,
        last_most: most,
        last_cost: cost,
        both: false,
    }
}

// Returns the number of the hub.
pub(crate) fn hub_of(places: &[Place]) -> u32
    requires few { length places.now ≤ PLACE_LIMIT }
    ensures { result ≡ hub_of places.now }
{
    places.len() as u32 + 1
}

// Returns the number of the gate.
pub(crate) fn gate_of(places: &[Place]) -> u32
    requires few { length places.now ≤ PLACE_LIMIT }
    ensures { result ≡ gate_of places.now }
{
    places.len() as u32 + 2
}

// Returns the number of the exit of a place with these bounds.
fn exit_by(places: &[Place], place: u32, through: Option<Bounds>) -> u32
    requires few { length places.now ≤ PLACE_LIMIT }
    requires inside { place ≤ length places.now }
    ensures { result ≡ exit_by (length places.now) place through }
{
    match through {
        Some(_) => gate_of(places) + place,
        None => place,
    }
}

// Returns the number of the exit of the place with a number.
pub(crate) fn exit_of(places: &[Place], place: u32) -> u32
    requires few { length places.now ≤ PLACE_LIMIT }
    requires inside { IsNode (length places.now) place }
    ensures { result ≡ exit_of places.now place }
{
    exit_by(places, place, places[place as usize - 1].through)
}

// Returns a route from the exit of its tail.
fn from_exit(places: &[Place], row: RouteRow) -> RouteRow
    requires few { length places.now ≤ PLACE_LIMIT }
    requires inside { IsNode (length places.now) row.tail }
    ensures route { (steps : List StepRow) → route_of steps result ≡ from_exit places.now (route_of steps row) }
    ensures listed { (result.first_step + result.step_count) ≡ row.first_step + row.step_count }
{
    RouteRow {
        tail: exit_of(places, row.tail),
        ..row
    }
}

// Returns the route from the entry of a place with bounds to its exit.
fn through_row(places: &[Place], number: u32, place: Place) -> Option<RouteRow>
    requires few { length places.now ≤ PLACE_LIMIT }
    requires inside { number ≤ length places.now }
    ensures route { option_map (λ row. route_with row []) result ≡ through_route places.now number place }
    ensures plain { IfSome result (λ row. (row.first_step + row.step_count) ≡ 0) }
{
    match place.through {
        Some(bounds) => Some(plain_row(
            number,
            gate_of(places) + number,
            bounds.least,
            bounds.most,
            bounds.cost,
        )),
        None => None,
    }
}

// Returns the route of what stays at a place to the hub.
fn stay_row(places: &[Place], unused: bool, number: u32, place: Place) -> Option<RouteRow>
    requires few { length places.now ≤ PLACE_LIMIT }
    ensures route { option_map (λ row. route_with row []) result ≡ stay_route unused (hub_of places.now) number place }
    ensures plain { IfSome result (λ row. (row.first_step + row.step_count) ≡ 0) }
{
    if unused && 0 < place.supply {
        let most = place.supply.max(0);
        Some(plain_row(number, hub_of(places), 0, Some(most), 0))
    } else {
        None
    }
}

// Returns the route of what is missing at a place from the gate.
fn missing_row(places: &[Place], policy: Policy, number: u32, place: Place) -> Option<RouteRow>
    requires few { length places.now ≤ PLACE_LIMIT }
    requires inside { number ≤ length places.now }
    requires small { IsSmallPlace place }
    ensures route { option_map (λ row. route_with row []) result ≡ missing_route policy places.now number place }
    ensures plain { IfSome result (λ row. (row.first_step + row.step_count) ≡ 0) }
{
    if policy.short && place.supply < 0 {
        let most = (-place.supply).max(0);
        let exit = exit_by(places, number, place.through);
        let cost = missing_cost(policy, place);
        Some(plain_row(gate_of(places), exit, 0, Some(most), cost))
    } else {
        None
    }
}

// Returns the route of a kind that is made for a place.
fn kind_row(
    kind: Kind,
    places: &[Place],
    policy: Policy,
    number: u32,
    place: Place,
) -> Option<RouteRow>
    requires few { length places.now ≤ PLACE_LIMIT }
    requires inside { number ≤ length places.now }
    requires small { IsSmallPlace place }
    ensures route { option_map (λ row. route_with row []) result ≡ kind_route kind places.now policy number place }
    ensures plain { IfSome result (λ row. (row.first_step + row.step_count) ≡ 0) }
{
    match kind {
        Kind::Through => through_row(places, number, place),
        Kind::Stay => stay_row(places, policy.unused, number, place),
        Kind::Missing => missing_row(places, policy, number, place),
    }
}

// Appends the routes of a kind that are made for places.
pub(crate) fn push_kind(
    kind: Kind,
    places: &[Place],
    policy: Policy,
    rows: &mut Vec<RouteRow>,
) -> Result<(), NoMemory>
    requires few { length places.now ≤ PLACE_LIMIT }
    requires small { All IsSmallPlace places.now }
    ensures listed { OnOk result ((steps : List StepRow) → AreListed steps rows.old.items → AreListed steps rows.new.items) }
    ensures routes { OnOk result ((steps : List StepRow) → map (route_of steps) rows.new.items ≡ map (route_of steps) rows.old.items ++ routes_by (kind_route kind places.now policy) 1 places.now) }
{
    for place in 0..places.len() {
        match kind_row(kind, places, policy, place as u32 + 1, places[place]) {
            Some(row) => rows.push(row)?,
            None => {}
        }
    }
    Ok(())
}

// Appends routes, each from the exit of its tail.
pub(crate) fn push_exits(
    places: &[Place],
    lent: &[RouteRow],
    rows: &mut Vec<RouteRow>,
) -> Result<(), NoMemory>
    requires few { length places.now ≤ PLACE_LIMIT }
    requires inside { All (λ row. IsNode (length places.now) row.tail) lent.now }
    ensures listed { OnOk result ((steps : List StepRow) → AreListed steps lent.now → AreListed steps rows.old.items → AreListed steps rows.new.items) }
    ensures routes { OnOk result ((steps : List StepRow) → map (route_of steps) rows.new.items ≡ map (route_of steps) rows.old.items ++ map (from_exit places.now) (map (route_of steps) lent.now)) }
{
    for place in 0..lent.len() {
        let row = from_exit(places, lent[place]);
        rows.push(row)?;
    }
    Ok(())
}
