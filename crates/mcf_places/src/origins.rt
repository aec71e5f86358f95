//! Where the numbers of a model's network come from.
ghost use Rattle.std.specs.Prelude.{◌≡◌, ◌∷◌, [], ◌+◌, ◌++◌, ◌≤◌, List, length, map, replicate, slice_index_or};
ghost use Rattle.mcf_model.specs.declared.rows.Step.{Step as StepRow};
ghost use Rattle.mcf_model.specs.Faults.{AreListed};
ghost use Rattle.mcf_model.specs.Tables.{route_of};
ghost use Rattle.mcf_places.specs.declared.origins.Origin.{Origin as AnOrigin};
ghost use Rattle.mcf_places.specs.declared.origins.Origin.TheVariants.{OfAll};
ghost use Rattle.mcf_places.specs.PlannerFaults.{IsProperPlanner};
ghost use Rattle.mcf_places.specs.Origins.{IsRowOrigin, arc_count, arc_origins, found_in, kind_origin, next_in, origin_of, penalty_origin, place_origins, route_origins, row_of, row_origin, supply_origin};

use crate::places::{Place, Policy};
use crate::problem::Planner;
use crate::reading::has_route;
use crate::rows::Kind;
use mcf_instance::ArrayFault;
use mcf_model::RouteRow;
use mcf_text::NodeId;

/// What a number of the network of a problem's model comes from.
#[derive(Clone, Copy, Debug, PartialEq, Eq)]
pub enum Origin {
    /// This place, counted from 1: its supply or its bounds.
    OfPlace(usize),
    /// The penalty of this place, counted from 1.
    OfPenalty(usize),
    /// This row of routes, counted from 1.
    OfRoute(usize),
    /// All places and routes: their number, their balance, what is missing in total, or the penalty
    /// of all places.
    OfAll,
}

// What a search for an arc has found.
#[derive(Clone, Copy)]
enum Sought {
    // where it comes from
    Found(Origin),
    // how many arcs of the others are before it
    Left(usize),
}

// Returns the number of arcs of a route.
fn arc_count(row: RouteRow) -> usize
    ensures { (steps : List StepRow) → (row.first_step + row.step_count) ≤ length steps → result ≡ arc_count (route_of steps row) }
{
    let way = row.step_count as usize + 1;
    if row.both { way + way } else { way }
}

// Returns how many arcs are left before an arc after `count` arcs, or `None` if it is one of them.
fn next(count: usize, left: usize) -> Option<usize>
    ensures { (origin : AnOrigin) → (others : List AnOrigin) → slice_index_or (replicate count origin ++ others) left OfAll ≡ next_in result origin others }
{
    if left < count {
        None
    } else {
        Some(left - count)
    }
}

// Seeks an arc among those of routes.
fn seek_route(rows: &[RouteRow], arc: usize) -> Sought
    ensures { (steps : List StepRow) → (others : List AnOrigin) → AreListed steps rows.now → found_in result others ≡ slice_index_or (route_origins 1 (map (route_of steps) rows.now) ++ others) arc OfAll }
{
    let mut left = arc;
    for place in 0..rows.len() {
        let count = arc_count(rows[place]);
        match next(count, left) {
            Some(later) => left = later,
            None => return Sought::Found(Origin::OfRoute(place + 1)),
        }
    }
    Sought::Left(left)
}

// Returns what a penalty comes from: the place that has it, or all places.
fn penalty_origin(number: usize, penalty: Option<i64>) -> Origin
    ensures { result ≡ penalty_origin number penalty }
{
    match penalty {
        Some(_) => Origin::OfPenalty(number),
        None => Origin::OfAll,
    }
}

// Returns what the numbers of a route come from that is made for the place with a number.
fn kind_origin(kind: Kind, number: usize, place: Place) -> Origin
    ensures { result ≡ kind_origin kind number place }
{
    match kind {
        Kind::Through => Origin::OfPlace(number),
        Kind::Stay => Origin::OfPlace(number),
        Kind::Missing => penalty_origin(number, place.penalty),
    }
}

// Seeks an arc among those that are made for places.
fn seek_place(kind: Kind, policy: Policy, places: &[Place], arc: usize) -> Sought
    ensures { (others : List AnOrigin) → found_in result others ≡ slice_index_or (place_origins kind policy 1 places.now ++ others) arc OfAll }
{
    let mut left = arc;
    for place in 0..places.len() {
        let has = has_route(kind, policy, places[place]);
        match next(usize::from(has), left) {
            Some(later) => left = later,
            None => return Sought::Found(kind_origin(kind, place + 1, places[place])),
        }
    }
    Sought::Left(left)
}

// Seeks an arc among those that are made for places, if it isn't found yet.
fn seek_more(kind: Kind, policy: Policy, places: &[Place], sought: Sought) -> Sought
    ensures { (others : List AnOrigin) → found_in result others ≡ found_in sought (place_origins kind policy 1 places.now ++ others) }
{
    match sought {
        Sought::Left(arc) => seek_place(kind, policy, places, arc),
        Sought::Found(_) => sought,
    }
}

// Returns what was found, or all if nothing was.
fn found(sought: Sought) -> Origin
    ensures { result ≡ found_in sought (OfAll ∷ []) }
{
    match sought {
        Sought::Found(origin) => origin,
        Sought::Left(_) => Origin::OfAll,
    }
}

// Returns what the supply of a place of the model comes from.
fn supply_origin(places: &[Place], node: NodeId) -> Origin
    ensures { result ≡ supply_origin places.now node }
{
    let number = node.get() as usize;
    let count = places.len();
    if number <= count {
        Origin::OfPlace(number)
    } else if number - count <= 2 {
        Origin::OfAll
    } else {
        Origin::OfPlace(number - count - 2)
    }
}

// Returns what the numbers of an arc come from; arcs count from 0.
fn arc_origin(planner: &Planner, arc: usize) -> Origin
    ensures value { result ≡ slice_index_or (arc_origins planner.now) arc OfAll }
    ensures proper { IsProperPlanner planner.now }
{
    let parts = planner.parts();
    let routes = seek_route(parts.rows, arc);
    let through = seek_more(Kind::Through, parts.policy, parts.places, routes);
    let stay = seek_more(Kind::Stay, parts.policy, parts.places, through);
    let missing = seek_more(Kind::Missing, parts.policy, parts.places, stay);
    found(missing)
}

// Returns the row of the route with a number.
fn row_of(planner: &Planner, route: usize) -> usize
    ensures { result ≡ row_of planner.now route }
{
    let count = planner.row_count();
    if route <= count {
        return route;
    }
    let at = route - count - 1;
    let returning = planner.returning();
    if at < returning.len() {
        returning[at]
    } else {
        0
    }
}

// Returns an origin with the row of a route.
fn row_origin(planner: &Planner, origin: Origin) -> Origin
    ensures { result ≡ row_origin planner.now origin }
{
    match origin {
        Origin::OfRoute(route) => Origin::OfRoute(row_of(planner, route)),
        other => other,
    }
}

/// Returns what the fault of a network that `least` names comes from. A route that is the way back
/// of a row comes from that row.
pub fn origin_of(planner: &Planner, fault: ArrayFault) -> Origin
    ensures value { result ≡ origin_of planner.now fault }
    ensures row { IsRowOrigin planner.now result }
{
    match fault {
        ArrayFault::Size => Origin::OfAll,
        ArrayFault::Supply(node) => supply_origin(planner.places(), node),
        ArrayFault::Arc(arc, _) => {
            let place = (arc.get() as usize).saturating_sub(1);
            let origin = arc_origin(planner, place);
            row_origin(planner, origin)
        }
    }
}
