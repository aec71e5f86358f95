//! Faults of planners' problems.
ghost use Rattle.std.specs.Prelude.{◌≡◌, ◌≤◌, ◌<ℤ◌, ◌≤ℤ◌, ◌+ℤ◌, ◌++◌, ◌^◌, IfOk, OnOk, pos, suc, ◌||◌, length, map, int_lt};
ghost use Rattle.std.specs.List.{list_any};
ghost use Rattle.mcf_places.specs.declared.faults.PlannerFault.TheVariants.{NoLimit, Routes};
ghost use Rattle.mcf_places.specs.PlannerFaults.{earning, fault_if, flaw_fault, flaw_faults, has_flaw, is_open, penalty_faults, place_earns, planner_faults};
ghost use Rattle.std.specs.Option.{is_some};
ghost use Rattle.mcf_places.specs.Planners.{all_given, all_wanted, given, has_penalties, missing_cost, penalty_of, unit_penalty, wanted};
ghost use Rattle.mcf_places.specs.Ways.{numbers_of};

use crate::limits::is_beyond;
use crate::places::{Bounds, Place, Policy};
use mcf_model::{ModelFault, RouteRow, Step, all_faults, some_earn};
use mcf_text::NoMemory;
use std::alloc::Global;

/// The greatest number of places that a planner's problem may have.
pub const PLACE_LIMIT: usize = 1_000_000_000;

/// The greatest sum of all that places give and all that they want.
pub const SUM_LIMIT: u64 = 9_223_372_036_854_775_807;

/// A fault of a planner's problem. The tests are made in the order of the cases.
#[derive(Clone, Copy, Debug, PartialEq, Eq)]
pub enum PlannerFault {
    /// There are more than `PLACE_LIMIT` places.
    Size,
    /// All that places give and all that they want sum to more than `SUM_LIMIT`.
    Total,
    /// The penalty of all places is below 0.
    Penalty,
    /// The penalty of this place, counted from 1, is below 0.
    BelowPenalty(usize),
    /// This place gives something, and has a penalty, which nothing can be missing for.
    IdlePenalty(usize),
    /// This place wants something, and no penalty is named for it, though demands may be missing
    /// and some place has a penalty of its own.
    NoPenalty(usize),
    /// The bounds of this place, counted from 1, have no limit, some cost is below 0, and one more
    /// than all amounts of the problem together is more than `THROUGHPUT_LIMIT`.
    NoLimit(usize),
    /// A row of routes that has a fault, and the fault.
    Routes(ModelFault),
}

// What may be wrong with the penalty of a place.
#[derive(Clone, Copy)]
pub(crate) enum PenaltyFlaw {
    // it is below 0
    Below,
    // the place gives something
    Idle,
    // the place wants something, and there is none
    Lacking,
}

/// What all places give, and what they want.
#[derive(Clone, Copy, Debug, PartialEq, Eq)]
pub struct Totals {
    pub given: i128,
    pub wanted: i128,
}

/// Returns what a place gives.
pub fn given(place: Place) -> i128
    ensures value { result ≡ given place }
    ensures low { pos 0 ≤ℤ result }
    ensures high { result ≤ℤ pos (2 ^ 63) }
{
    i128::from(place.supply).max(0)
}

/// Returns what a place wants.
pub fn wanted(place: Place) -> i128
    ensures value { result ≡ wanted place }
    ensures low { pos 0 ≤ℤ result }
    ensures high { result ≤ℤ pos (2 ^ 63) }
{
    (-i128::from(place.supply)).max(0)
}

// Returns what all places give, and what they want.
pub(crate) fn sums(places: &[Place]) -> Totals
    ensures given { result.given ≡ all_given places.now }
    ensures wanted { result.wanted ≡ all_wanted places.now }
    ensures given_low { pos 0 ≤ℤ result.given }
    ensures given_high { result.given <ℤ pos (2 ^ 126) }
    ensures wanted_low { pos 0 ≤ℤ result.wanted }
    ensures wanted_high { result.wanted <ℤ pos (2 ^ 126) }
{
    let mut totals = Totals {
        given: 0,
        wanted: 0,
    };
    for place in 0..places.len() {
        totals = Totals {
            given: totals.given + given(places[place]),
            wanted: totals.wanted + wanted(places[place]),
        };
    }
    totals
}

/// Returns whether a unit that passes through a place with these bounds costs less than 0.
pub fn place_earns(through: Option<Bounds>) -> bool
    ensures { result ≡ place_earns through }
{
    match through {
        Some(bounds) => bounds.cost < 0,
        None => false,
    }
}

// Returns whether the bounds of a place have no limit.
pub(crate) fn is_open(through: Option<Bounds>) -> bool
    ensures { result ≡ is_open through }
{
    match through {
        Some(bounds) => bounds.most.is_none(),
        None => false,
    }
}

// Returns whether a unit that passes through some place costs less than 0.
fn places_earn(places: &[Place]) -> bool
    ensures { result ≡ list_any (λ p. place_earns p.through) places.now }
{
    for place in 0..places.len() {
        if place_earns(places[place].through) {
            return true;
        }
    }
    false
}

// Appends a fault, if the test holds.
fn push_if(found: &mut Vec<PlannerFault>, test: bool, fault: PlannerFault) -> Result<(), NoMemory>
    ensures { OnOk result (found.new.items ≡ found.old.items ++ fault_if test fault) }
{
    if test {
        found.push(fault)?;
    }
    Ok(())
}

// Appends the places whose bounds have no limit.
fn push_open(found: &mut Vec<PlannerFault>, places: &[Place]) -> Result<(), NoMemory>
    ensures { OnOk result (found.new.items ≡ found.old.items ++ map NoLimit (numbers_of (λ p. is_open p.through) 1 places.now)) }
{
    for place in 0..places.len() {
        let test = is_open(places[place].through);
        if test {
            found.push(PlannerFault::NoLimit(place + 1))?;
        }
    }
    Ok(())
}

// Appends faults of routes.
fn push_routes(found: &mut Vec<PlannerFault>, faults: &[ModelFault]) -> Result<(), NoMemory>
    ensures { OnOk result (found.new.items ≡ found.old.items ++ map Routes faults.now) }
{
    for place in 0..faults.len() {
        found.push(PlannerFault::Routes(faults[place]))?;
    }
    Ok(())
}

// Returns whether the sum of all that places give and all that they want is too great.
fn is_too_much(places: &[Place]) -> bool
    ensures { result ≡ int_lt (pos SUM_LIMIT) (all_given places.now +ℤ all_wanted places.now) }
{
    let totals = sums(places);
    totals.given + totals.wanted > i128::from(SUM_LIMIT)
}

// Returns the penalty, or 0 if there is none.
pub(crate) fn unit_penalty(penalty: Option<i64>) -> i64
    ensures { result ≡ unit_penalty penalty }
{
    match penalty {
        Some(penalty) => penalty,
        None => 0,
    }
}

// Returns the penalty that holds at a place: its own, or else that of all places.
fn penalty_of(policy: Policy, place: Place) -> Option<i64>
    ensures { result ≡ penalty_of policy place }
{
    match place.penalty {
        Some(penalty) => Some(penalty),
        None => policy.penalty,
    }
}

/// Returns the cost of each unit that is missing at a place: its own penalty, or else that of all
/// places, or 0 if none is named.
pub fn missing_cost(policy: Policy, place: Place) -> i64
    ensures { result ≡ missing_cost policy place }
{
    let penalty = penalty_of(policy, place);
    unit_penalty(penalty)
}

// Returns whether some place has a penalty of its own.
fn has_penalties(places: &[Place]) -> bool
    ensures { result ≡ has_penalties places.now }
{
    for place in 0..places.len() {
        if places[place].penalty.is_some() {
            return true;
        }
    }
    false
}

// Returns whether a penalty is named, for all places or for some.
pub(crate) fn names_penalty(policy: Policy, places: &[Place]) -> bool
    ensures { result ≡ (is_some policy.penalty || has_penalties places.now) }
{
    let own = has_penalties(places);
    policy.penalty.is_some() || own
}

// Returns whether the penalty of a place has a flaw.
fn has_flaw(flaw: PenaltyFlaw, policy: Policy, place: Place) -> bool
    ensures { result ≡ has_flaw flaw policy place }
{
    match flaw {
        PenaltyFlaw::Below => unit_penalty(place.penalty) < 0,
        PenaltyFlaw::Idle => 0 < place.supply && place.penalty.is_some(),
        PenaltyFlaw::Lacking => place.supply < 0 && penalty_of(policy, place).is_none(),
    }
}

// Returns the fault of the place with a number.
fn flaw_fault(flaw: PenaltyFlaw, number: usize) -> PlannerFault
    ensures { result ≡ flaw_fault flaw number }
{
    match flaw {
        PenaltyFlaw::Below => PlannerFault::BelowPenalty(number),
        PenaltyFlaw::Idle => PlannerFault::IdlePenalty(number),
        PenaltyFlaw::Lacking => PlannerFault::NoPenalty(number),
    }
}

// Appends the faults of all places whose penalties have a flaw.
fn push_flaws(
    found: &mut Vec<PlannerFault>,
    flaw: PenaltyFlaw,
    policy: Policy,
    places: &[Place],
) -> Result<(), NoMemory>
    ensures { OnOk result (found.new.items ≡ found.old.items ++ flaw_faults flaw policy places.now) }
{
    for place in 0..places.len() {
        let test = has_flaw(flaw, policy, places[place]);
        if test {
            let fault = flaw_fault(flaw, place + 1);
            found.push(fault)?;
        }
    }
    Ok(())
}

// Appends the faults of penalties.
fn push_penalties(
    found: &mut Vec<PlannerFault>,
    policy: Policy,
    places: &[Place],
) -> Result<(), NoMemory>
    ensures { OnOk result (found.new.items ≡ found.old.items ++ penalty_faults policy places.now) }
{
    let below = unit_penalty(policy.penalty) < 0;
    push_if(found, below, PlannerFault::Penalty)?;
    push_flaws(found, PenaltyFlaw::Below, policy, places)?;
    push_flaws(found, PenaltyFlaw::Idle, policy, places)?;
    let own = has_penalties(places);
    if policy.short && own {
        push_flaws(found, PenaltyFlaw::Lacking, policy, places)?;
    }
    Ok(())
}

// Returns whether some cost of a planner's problem is below 0.
pub(crate) fn earning(places: &[Place], steps: &[Step], rows: &[RouteRow]) -> bool
    ensures { result ≡ earning places.now steps.now rows.now }
{
    let places_earn = places_earn(places);
    let routes_earn = some_earn(steps, rows);
    places_earn || routes_earn
}

// Returns all faults of a planner's problem.
pub(crate) fn planner_faults(
    alloc: Global,
    places: &[Place],
    steps: &[Step],
    rows: &[RouteRow],
    policy: Policy,
) -> Result<Vec<PlannerFault>, NoMemory>
    ensures { IfOk result (λ found. found.items ≡ planner_faults places.now steps.now rows.now policy) }
{
    let earning = earning(places, steps, rows);
    let beyond = is_beyond(places, steps, rows);
    let of_routes = all_faults(alloc, places.len(), steps, earning, rows)?;
    let is_dear = is_too_much(places);
    let mut found = Vec::new(alloc);
    push_if(&mut found, places.len() > PLACE_LIMIT, PlannerFault::Size)?;
    push_if(&mut found, is_dear, PlannerFault::Total)?;
    push_penalties(&mut found, policy, places)?;
    if earning && beyond {
        push_open(&mut found, places)?;
    }
    push_routes(&mut found, &of_routes)?;
    Ok(found)
}
