//! Plans of problems, read from plans of their models.
ghost use Rattle.std.specs.Prelude.{◌≡◌, ◌++◌, ◌≤◌, ℕ, List, IfOk, OnErr, Some, None, drop, length, pos, ◌⊎◌};
ghost use Rattle.mcf_places.specs.declared.places.Place.{Place as PlaceRow};
ghost use Rattle.mcf_places.specs.Kinds.{kind_has, kind_route};
ghost use Rattle.mcf_places.specs.Models.{by_place, first_amount, later_amounts, plan_of, routes_by};
ghost use Rattle.mcf_places.specs.Planning.{plan_in};

use crate::places::{Place, Policy};
use crate::problem::Planner;
use crate::rows::Kind;
use mcf_text::NoMemory;
use std::alloc::Global;

/// A plan of a planner's problem: what each route carries, what stays at each place, and what is
/// missing at each place, in order. A negative amount that a route carries goes back.
#[derive(Drop)]
pub struct PlannerPlan {
    pub carries: Vec<i128>,
    pub stays: Vec<i128>,
    pub missing: Vec<i128>,
}

// Returns whether a route of a kind is made for a place.
pub(crate) fn has_route(kind: Kind, policy: Policy, place: Place) -> bool
    ensures { result ≡ kind_has kind policy place }
{
    match kind {
        Kind::Through => place.through.is_some(),
        Kind::Stay => policy.unused && 0 < place.supply,
        Kind::Missing => policy.short && place.supply < 0,
    }
}

// Returns an amount for each place: what its route of a kind carries, or 0 if it has none.
fn by_place(
    alloc: Global,
    kind: Kind,
    places: &[Place],
    policy: Policy,
    amounts: &[i128],
) -> Result<Vec<i128>, NoMemory>
    ensures value { IfOk result (λ made. made.items ≡ by_place (kind_route kind places.now policy) 1 places.now amounts.now) }
    ensures wants { OnErr result (1 ≤ length places.now) }
{
    let mut made = Vec::with_capacity(alloc, places.len())?;
    let mut rest = amounts;
    for place in 0..places.len() {
        let (amount, later) = next_amount(kind, policy, places[place], rest);
        made.push(amount)?;
        rest = later;
    }
    Ok(made)
}

// Returns what a place's route of a kind carries, or 0 if it has none, and the amounts after it.
fn next_amount(kind: Kind, policy: Policy, place: Place, amounts: &[i128]) -> (i128, &[i128])
    ensures amount { (places : List PlaceRow) → (v : ℕ) → result.0 ≡ first_amount (kind_route kind places policy v place) amounts.now }
    ensures later { (places : List PlaceRow) → (v : ℕ) → result.1.now ≡ later_amounts (kind_route kind places policy v place) amounts.now }
{
    let has = has_route(kind, policy, place);
    if !has {
        return (0, amounts);
    }
    match amounts.split_first() {
        Some((first, later)) => (*first, later),
        None => (0, amounts),
    }
}

// Returns the number of routes of a kind.
fn count_of(kind: Kind, places: &[Place], policy: Policy) -> usize
    ensures { result ≡ length (routes_by (kind_route kind places.now policy) 1 places.now) }
{
    let mut count = 0;
    for place in 0..places.len() {
        let has = has_route(kind, policy, places[place]);
        if has {
            count += 1;
        }
    }
    count
}

// Returns what is left of amounts after so many.
fn after(amounts: &[i128], count: usize) -> &[i128]
    ensures { result.now ≡ drop count amounts.now }
{
    let (_, later) = amounts.split_at(amounts.len().min(count));
    later
}

/// Returns the plan of a problem from a plan of its model: the amount that each route of the model
/// carries, in order.
///
/// # Errors
/// `NoMemory` if an allocation is refused; a problem without places and without routes needs none.
pub fn plan_of(alloc: Global, planner: &Planner, plan: &[i128]) -> Result<PlannerPlan, NoMemory>
    ensures value { IfOk result (λ made. plan_in made ≡ plan_of planner.now plan.now) }
    ensures wants { OnErr result ((1 ≤ length planner.now.places) ⊎ (1 ≤ length planner.now.routes)) }
{
    let parts = planner.parts();
    let (own, later) = plan.split_at(plan.len().min(parts.rows.len()));
    let throughs = count_of(Kind::Through, parts.places, parts.policy);
    let stayings = count_of(Kind::Stay, parts.places, parts.policy);
    let later = after(later, throughs);
    let carries = copied(alloc, own)?;
    let stays = by_place(alloc, Kind::Stay, parts.places, parts.policy, later)?;
    let later = after(later, stayings);
    let missing = by_place(alloc, Kind::Missing, parts.places, parts.policy, later)?;
    Ok(PlannerPlan {
        carries,
        stays,
        missing,
    })
}

// Returns a copy of amounts.
fn copied(alloc: Global, amounts: &[i128]) -> Result<Vec<i128>, NoMemory>
    ensures value { IfOk result (λ made. made.items ≡ amounts.now) }
    ensures wants { OnErr result (1 ≤ length amounts.now) }
{
    let mut made = Vec::with_capacity(alloc, amounts.len())?;
    for place in 0..amounts.len() {
        made.push(amounts[place])?;
    }
    Ok(made)
}
