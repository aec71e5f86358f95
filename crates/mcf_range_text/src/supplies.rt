//! What one more unit of a supply or of a demand costs, and for how many units that holds.
ghost use Rattle.std.specs.Prelude.{◌≡◌, ◌≤◌, ◌-ℤ◌, ◌↔◌, IfNone, IfOk, IfSome, IsTrue, if◌then◌else◌, int_lt, length, option_map, pos};
ghost use Rattle.std.specs.List.{All};
ghost use Rattle.mcf_figures.specs.Figures.{figure_limit};
ghost use Rattle.mcf_figures.specs.FigureLaws.{IsPriced};
ghost use Rattle.mcf_flows.specs.Network.{IsNode, at_node};
ghost use Rattle.mcf_flows.specs.WellFormed.{IsUpTo};
ghost use Rattle.mcf_places.specs.Answers.{IsShownIn};
ghost use Rattle.mcf_places.specs.LimitedPlanners.{limited};
ghost use Rattle.mcf_places.specs.Models.{exit_by};
ghost use Rattle.mcf_range_text.specs.SupplyRangeTexts.{AreSupplyRanges, IsCostedRange, IsSupplyRange, costed, has_supply_range, supply_from, supply_to, tells_demand, tells_supply, tells_units};
ghost use Rattle.mcf_unit_ranges.specs.Told.{IsUntold};

use mcf_figures::are_small;
use mcf_model::Solves;
use mcf_places::{
    LeastPlannerPlan, PLACE_LIMIT, Place, Planner, Policy, ShownModel, misses_least, missing_cost,
    sound_planners_have_sound_models,
};
use mcf_plan_figures::told_figures_are_the_planners;
use mcf_text::NoMemory;
use mcf_unit_ranges::{Ends, UnitsRange, units_range};
use std::alloc::Global;

/// What one more unit of a supply or of a demand costs, and for how many units.
#[derive(Clone, Copy)]
pub struct SupplyRange {
    /// The cost of each unit; it saves something if this is below 0.
    pub cost: i128,
    /// The greatest number of units, or `None` without a limit.
    pub most: Option<i64>,
}

// Returns the place of the model where a unit more of a place's supply comes in, or of its demand
// goes out.
fn home_of(places: usize, row: usize, place: Place) -> usize
    requires few { places ≤ PLACE_LIMIT }
    requires inside { row ≤ places }
    ensures value { result ≡ if int_lt (pos 0) place.supply then row else exit_by places row place.through }
    ensures few { result ≤ 2000000002 }
{
    if place.supply > 0 {
        return row;
    }
    match place.through {
        Some(_) => places + 2 + row,
        None => row,
    }
}

// Returns from where to where a unit more of the supply, or of the demand, of a place goes.
fn supply_ends(planner: &Planner, row: usize) -> Ends
    requires low { 1 ≤ row }
    requires high { row ≤ length planner.now.places }
    ensures from { result.from ≡ supply_from planner.now row }
    ensures to { result.to ≡ supply_to planner.now row }
{
    let places = planner.places();
    let place = places[row - 1];
    let home = home_of(places.len(), row, place) as u32;
    let hub = (places.len() + 1) as u32;
    if place.supply > 0 {
        Ends {
            from: home,
            to: hub,
        }
    } else {
        Ends {
            from: hub,
            to: home,
        }
    }
}

// Returns the price of a place of the model, or 0 if it has none.
fn price_of(prices: &[i128], node: u32) -> i128
    requires { All (IsUpTo figure_limit) prices.now }
    ensures value { result ≡ at_node prices.now node }
    ensures small { IsUpTo figure_limit result }
{
    let place = (node as usize).saturating_sub(1);
    if place < prices.len() {
        prices[place]
    } else {
        0
    }
}

// Returns what a unit from one place of the model to another costs.
fn unit_cost(prices: &[i128], ends: Ends) -> i128
    requires { All (IsUpTo figure_limit) prices.now }
    ensures { result ≡ at_node prices.now ends.from -ℤ at_node prices.now ends.to }
{
    price_of(prices, ends.from) - price_of(prices, ends.to)
}

// Returns whether something is told of further units of a supply: one more unit saves something if
// supplies may stay, and else less is missing with it.
fn tells_supply(policy: Policy, cost: i128) -> bool
    ensures { result ≡ tells_supply policy cost }
{
    if policy.unused {
        cost < 0
    } else {
        policy.short
    }
}

// Returns whether something is told of further units of a demand: to bring one more costs less than
// its penalty if demands may be missing, and else less stays with it.
fn tells_demand(policy: Policy, cost: i128, penalty: i64) -> bool
    ensures { result ≡ tells_demand policy cost penalty }
{
    if policy.short {
        cost < i128::from(penalty)
    } else {
        policy.unused
    }
}

// Returns whether something is told of further units of the supply, or of the demand, of a place.
fn tells_units(policy: Policy, place: Place, cost: i128) -> bool
    ensures { result ≡ tells_units policy place cost }
{
    if place.supply > 0 {
        tells_supply(policy, cost)
    } else {
        place.supply < 0 && tells_demand(policy, cost, missing_cost(policy, place))
    }
}

// Returns whether something is told of further units of the supply, or of the demand, of a place
// with these ends.
fn has_supply_range(planner: &Planner, shown: &ShownModel, row: usize, ends: Ends) -> bool
    requires small { All (IsUpTo figure_limit) shown.now.prices.items }
    requires low { 1 ≤ row }
    requires high { row ≤ length planner.now.places }
    requires from { ends.from ≡ supply_from planner.now row }
    requires to { ends.to ≡ supply_to planner.now row }
    ensures { result ≡ has_supply_range planner.now shown.now row }
{
    let cost = unit_cost(&shown.prices, ends);
    let told = tells_units(planner.policy(), planner.places()[row - 1], cost);
    !misses_least(planner) && told
}

// Returns what one more unit costs, and for how many units, if that is told.
fn with_cost(told: Option<UnitsRange>, cost: i128) -> Option<SupplyRange>
    ensures { result ≡ option_map (costed cost) told }
{
    match told {
        Some(range) => Some(SupplyRange {
            cost,
            most: range.most,
        }),
        None => None,
    }
}

// Returns what a unit from one place of the model to another costs, and for how many units, if that
// is told.
fn costed_range<S: Solves>(
    alloc: Global,
    solver: &mut S,
    shown: &ShownModel,
    ends: Ends,
) -> Result<Option<SupplyRange>, NoMemory>
    requires priced { IsPriced shown.now.model shown.now.prices.items shown.now.carries.items }
    requires from { IsNode (length shown.now.model.supplies) ends.from }
    requires to { IsNode (length shown.now.model.supplies) ends.to }
    requires small { All (IsUpTo figure_limit) shown.now.prices.items }
    ensures exact { IfOk result (λ told. IfSome told (IsCostedRange shown.now ends.from ends.to)) }
    ensures none { IfOk result (λ told. IfNone told (IsUntold shown.now.model shown.now.prices.items ends.from ends.to)) }
{
    let cost = unit_cost(&shown.prices, ends);
    let told = units_range(alloc, solver, &shown.model, &shown.prices, ends)?;
    Ok(with_cost(told, cost))
}

// Returns the range of the supply, or of the demand, of a place, if it is told; `small` says
// whether all prices are.
fn supply_range<S: Solves>(
    alloc: Global,
    solver: &mut S,
    planner: &Planner,
    least: &LeastPlannerPlan,
    row: usize,
    small: bool,
) -> Result<Option<SupplyRange>, NoMemory>
    requires shown { IsShownIn (limited planner.now) least.now }
    requires low { 1 ≤ row }
    requires high { row ≤ length planner.now.places }
    requires small { IsTrue small ↔ All (IsUpTo figure_limit) least.now.shown.prices.items }
    ensures { IfOk result (IsSupplyRange planner.now least.now.shown row) }
{
    sound_planners_have_sound_models();
    told_figures_are_the_planners();
    if !small {
        return Ok(None);
    }
    let ends = supply_ends(planner, row);
    let has = has_supply_range(planner, &least.shown, row, ends);
    if !has {
        return Ok(None);
    }
    costed_range(alloc, solver, &least.shown, ends)
}

/// Returns the ranges of the supplies and demands of all places.
///
/// # Errors
///
/// `NoMemory` if an allocation is refused.
pub(crate) fn supply_ranges<S: Solves>(
    alloc: Global,
    solver: &mut S,
    planner: &Planner,
    least: &LeastPlannerPlan,
) -> Result<Vec<Option<SupplyRange>>, NoMemory>
    requires { IsShownIn (limited planner.now) least.now }
    ensures { IfOk result (λ made. AreSupplyRanges planner.now least.now made.items) }
{
    let count = planner.places().len();
    let small = are_small(&least.shown.prices);
    let mut made = Vec::with_capacity(alloc, count)?;
    for place in 0..count {
        let told = supply_range(alloc, solver, planner, least, place + 1, small)?;
        made.push(told)?;
    }
    Ok(made)
}
