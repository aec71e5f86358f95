//! The figures of a planner's least plan.
ghost use Rattle.std.specs.Prelude.{◌≡◌, ℕ, ◌+◌, ◌^◌, ◌<◌, ◌≤◌, ◌↔◌, ◌⊎◌, IfOk, IsTrue, OnErr, Some, if◌then◌else◌, int_lt, length, map, neg_ℤ, pos, true};
ghost use Rattle.std.specs.List.{range_with_len};
ghost use Rattle.std.specs.Option.{option_to_list};
ghost use Rattle.mcf_flows.specs.Network.{at_node};
ghost use Rattle.mcf_model.specs.Tables.{IsRouteNumber};
ghost use Rattle.mcf_figures.specs.Figures.{IsExact};
ghost use Rattle.mcf_figures.specs.Groups.{AreGroups, group_at};
ghost use Rattle.mcf_places.specs.Models.{exit_by};
ghost use Rattle.mcf_plan_figures.specs.PlannerFigures.{through_number};
ghost use Rattle.mcf_plan_figures.specs.Told.{by_own_limit, groups_in, has_figures, pass_told, place_told, places_told, routes_told, way_told};

use mcf_figures::{RowFigures, are_small, groups_of, row_figures};
use mcf_places::{Bounds, PLACE_LIMIT, Place, Planner, ShownModel};
use mcf_text::NoMemory;
use std::alloc::Global;

/// What is told of what passes through a place.
#[derive(Clone, Copy, Debug, PartialEq, Eq)]
pub struct PassFigures {
    /// How much passes through.
    pub amount: i128,
    /// Its cost, how much more may pass, what it saves if one more unit may, and what it costs at
    /// least if one more has to.
    pub row: RowFigures,
}

/// What is told of a place.
#[derive(Clone, Copy, Debug, PartialEq, Eq)]
pub struct PlaceFigures {
    /// What one more unit of demand costs there.
    pub costs: i128,
    /// The number of its group: between places of one group, costs differ by just that.
    pub group: usize,
    /// What is told of what passes through the place, if it has bounds.
    pub passes: Option<PassFigures>,
}

/// The figures of a plan: what is told of each route and of each place, in order. Both are empty if
/// a price or an amount is further than 10^36 from 0.
#[derive(Drop)]
pub struct PlanFigures {
    pub routes: Vec<RowFigures>,
    pub places: Vec<PlaceFigures>,
}

// Returns what is told of a route of the model.
fn way_told(shown: &ShownModel, groups: &[usize], number: usize) -> RowFigures
    requires { has_figures shown.now ≡ true }
    ensures { result ≡ way_told shown.now groups.now number }
{
    match row_figures(&shown.model, &shown.prices, &shown.carries, groups, number) {
        Some(told) => told,
        None => unreachable!(),
    }
}

// Returns what is told of the first routes of the model.
fn ways_told(
    alloc: Global,
    shown: &ShownModel,
    groups: &[usize],
    count: usize,
) -> Result<Vec<RowFigures>, NoMemory>
    requires { has_figures shown.now ≡ true }
    ensures value { IfOk result (λ made. made.items ≡ map (way_told shown.now groups.now) (range_with_len 1 count)) }
    ensures wants { OnErr result (1 ≤ count) }
{
    let mut made = Vec::with_capacity(alloc, count)?;
    for place in 0..count {
        let told = way_told(shown, groups, place + 1);
        made.push(told)?;
    }
    Ok(made)
}

// Returns a number of a list, by its place from 1, or 0 if it has none.
fn number_at(numbers: &[i128], node: usize) -> i128
    ensures { result ≡ at_node numbers.now node }
{
    match numbers.get(node.saturating_sub(1)) {
        Some(number) => *number,
        None => 0,
    }
}

// Returns what one more unit of demand costs at a place of the model.
fn demand_cost(shown: &ShownModel, node: usize) -> i128
    requires { has_figures shown.now ≡ true }
    ensures { result ≡ neg_ℤ (at_node shown.now.prices.items node) }
{
    -number_at(&shown.prices, node)
}

// Returns the group of a place of the model.
fn group_at(groups: &[usize], node: usize) -> usize
    ensures { result ≡ group_at groups.now node }
{
    match groups.get(node.saturating_sub(1)) {
        Some(group) => *group,
        None => 0,
    }
}

// Returns the place of the model where a unit more of a place's supply comes in, or of its demand
// goes out.
fn home_of(places: usize, row: usize, place: Place) -> usize
    requires few { places ≤ PLACE_LIMIT }
    requires inside { row ≤ places }
    ensures { result ≡ if int_lt (pos 0) place.supply then row else exit_by places row place.through }
{
    if place.supply > 0 {
        return row;
    }
    match place.through {
        Some(_) => places + 2 + row,
        None => row,
    }
}

// Returns what is told, if there is a limit, or if there is none.
fn by_own_limit(most: Option<i64>, told: RowFigures) -> RowFigures
    ensures { result ≡ by_own_limit most told }
{
    match most {
        Some(_) => told,
        None => RowFigures { free: None, ..told },
    }
}

// Returns what is told of what passes through a place, if it has bounds.
fn pass_told(
    shown: &ShownModel,
    groups: &[usize],
    number: usize,
    through: Option<Bounds>,
) -> Option<PassFigures>
    requires { has_figures shown.now ≡ true }
    ensures { result ≡ pass_told shown.now groups.now number through }
{
    match through {
        Some(bounds) => Some(PassFigures {
            amount: number_at(&shown.carries, number),
            row: by_own_limit(bounds.most, way_told(shown, groups, number)),
        }),
        None => None,
    }
}

// Returns what is told of the place of a row, if the model's route with a number carries what
// passes through it.
fn place_told(
    planner: &Planner,
    shown: &ShownModel,
    groups: &[usize],
    row: usize,
    number: usize,
) -> PlaceFigures
    requires figures { has_figures shown.now ≡ true }
    requires low { 1 ≤ row }
    requires high { row ≤ length planner.now.places }
    requires number { number ≡ through_number planner.now row }
    ensures { result ≡ place_told planner.now shown.now groups.now row }
{
    let places = planner.places();
    let place = places[row - 1];
    let home = home_of(places.len(), row, place);
    let costs = demand_cost(shown, home);
    let group = group_at(groups, home);
    let passes = pass_told(shown, groups, number, place.through);
    PlaceFigures {
        costs,
        group,
        passes,
    }
}

// Returns the number of the route for the next place with bounds, if that of a place is known.
fn next_number(number: usize, place: Place) -> usize
    requires { number < 2 ^ 63 }
    ensures { result ≡ number + length (option_to_list place.through) }
{
    match place.through {
        Some(_) => number + 1,
        None => number,
    }
}

// Returns what is told of all places, if there are so many routes.
fn places_told(
    alloc: Global,
    planner: &Planner,
    shown: &ShownModel,
    groups: &[usize],
    routes: usize,
) -> Result<Vec<PlaceFigures>, NoMemory>
    requires figures { has_figures shown.now ≡ true }
    requires routes { routes ≡ length planner.now.routes }
    requires few { routes < 2 ^ 62 }
    ensures value { IfOk result (λ made. made.items ≡ map (place_told planner.now shown.now groups.now) (range_with_len 1 (length planner.now.places))) }
    ensures wants { OnErr result (1 ≤ length planner.now.places) }
{
    let places = planner.places();
    let mut made = Vec::with_capacity(alloc, places.len())?;
    let mut number = routes + 1;
    for place in 0..places.len() {
        let told = place_told(planner, shown, groups, place + 1, number);
        made.push(told)?;
        number = next_number(number, places[place]);
    }
    Ok(made)
}

// Returns whether all prices and amounts are within the limit of figures.
fn has_figures(shown: &ShownModel) -> bool
    ensures { result ≡ has_figures shown.now }
{
    are_small(&shown.prices) && are_small(&shown.carries)
}

// Returns the groups of the places of the model.
fn groups_in(alloc: Global, shown: &ShownModel) -> Result<Vec<usize>, NoMemory>
    requires { has_figures shown.now ≡ true }
    ensures value { IfOk result (λ made. made.items ≡ groups_in shown.now) }
    ensures groups { IfOk result (λ made. AreGroups shown.now.prices.items shown.now.model shown.now.carries.items made.items) }
    ensures exact { IfOk result (λ made. (number : ℕ) → IsRouteNumber shown.now.model number
        → (IsTrue (way_told shown.now made.items number).exact ↔ IsExact shown.now.prices.items shown.now.model shown.now.carries.items number)) }
    ensures wants { OnErr result (1 ≤ length shown.now.model.supplies) }
{
    match groups_of(alloc, &shown.model, &shown.prices, &shown.carries)? {
        Some(groups) => Ok(groups),
        None => unreachable!(),
    }
}

/// Returns the figures of a planner's least plan, by the model that it was found in and prices that
/// show it there: of each route the cost of what it carries, how much more it may carry, what one
/// more unit of room saves, whether it saves just that, and what it costs at least to carry one
/// unit more; of each place what one more unit of demand costs there, and its group; and of each
/// place with bounds how much passes through, and the same of that as of a route.
///
/// # Errors
/// `NoMemory` if an allocation is refused; without places and routes none is needed.
pub fn plan_figures(
    alloc: Global,
    planner: &Planner,
    shown: &ShownModel,
) -> Result<PlanFigures, NoMemory>
    ensures routes { IfOk result (λ made. made.routes.items ≡ routes_told planner.now shown.now) }
    ensures places { IfOk result (λ made. made.places.items ≡ places_told planner.now shown.now) }
    ensures exact { IfOk result (λ made. (number : ℕ) → has_figures shown.now ≡ true → IsRouteNumber shown.now.model number
        → (IsTrue (way_told shown.now (groups_in shown.now) number).exact ↔ IsExact shown.now.prices.items shown.now.model shown.now.carries.items number)) }
    ensures groups { IfOk result (λ made. has_figures shown.now ≡ true → AreGroups shown.now.prices.items shown.now.model shown.now.carries.items (groups_in shown.now)) }
    ensures wants { OnErr result ((1 ≤ length shown.now.model.supplies) ⊎ ((1 ≤ length planner.now.routes) ⊎ (1 ≤ length planner.now.places))) }
{
    let told = has_figures(shown);
    if !told {
        return Ok(PlanFigures {
            routes: Vec::new(alloc),
            places: Vec::new(alloc),
        });
    }
    let groups = groups_in(alloc, shown)?;
    let routes = ways_told(alloc, shown, &groups, planner.route_count())?;
    let places = places_told(alloc, planner, shown, &groups, routes.len())?;
    Ok(PlanFigures { routes, places })
}
