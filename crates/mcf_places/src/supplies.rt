//! The supplies of a problem's model.
ghost use Rattle.std.specs.Prelude.{◌≡◌, ◌++◌, ◌+ℤ◌, ◌≤ℤ◌, IfOk, OnOk, length, map, pos};
ghost use Rattle.std.specs.List.{All};
ghost use Rattle.mcf_places.specs.Models.{entry_supply, exit_supply, hub_supply, some_bounds, supplies_of};
ghost use Rattle.mcf_places.specs.Planners.{all_given, all_wanted};

use crate::faults::{SUM_LIMIT, sums};
use crate::places::Place;
use mcf_text::NoMemory;
use std::alloc::Global;

// Returns the supply of the entry of a place.
fn entry_supply(place: Place) -> i64
    ensures { result ≡ entry_supply place.through place }
{
    match place.through {
        Some(_) => place.supply.max(0),
        None => place.supply,
    }
}

// Returns the supply of the exit of a place.
fn exit_supply(place: Place) -> i64
    ensures { result ≡ exit_supply place.through place }
{
    match place.through {
        Some(_) => place.supply.min(0),
        None => 0,
    }
}

// Appends the supplies of the entries.
fn push_entries(places: &[Place], supplies: &mut Vec<i64>) -> Result<(), NoMemory>
    ensures { OnOk result (supplies.new.items ≡ supplies.old.items ++ map (λ p. entry_supply p.through p) places.now) }
{
    for place in 0..places.len() {
        let supply = entry_supply(places[place]);
        supplies.push(supply)?;
    }
    Ok(())
}

// Appends the supplies of exits, one for each place.
fn push_exits(places: &[Place], supplies: &mut Vec<i64>) -> Result<(), NoMemory>
    ensures { OnOk result (supplies.new.items ≡ supplies.old.items ++ map (λ p. exit_supply p.through p) places.now) }
{
    for place in 0..places.len() {
        let supply = exit_supply(places[place]);
        supplies.push(supply)?;
    }
    Ok(())
}

// Returns whether some place has bounds.
pub(crate) fn some_bounds(places: &[Place]) -> bool
    ensures { result ≡ some_bounds places.now }
{
    for place in 0..places.len() {
        if places[place].through.is_some() {
            return true;
        }
    }
    false
}

// Returns the supply of the hub.
fn hub_supply(places: &[Place]) -> i64
    requires small { (all_given places.now +ℤ all_wanted places.now) ≤ℤ pos SUM_LIMIT }
    ensures { result ≡ hub_supply places.now }
{
    let totals = sums(places);
    (totals.wanted - totals.given) as i64
}

// Returns the supplies of the model's places.
pub(crate) fn supplies_of(alloc: Global, places: &[Place]) -> Result<Vec<i64>, NoMemory>
    requires small { (all_given places.now +ℤ all_wanted places.now) ≤ℤ pos SUM_LIMIT }
    ensures { IfOk result (λ made. made.items ≡ supplies_of places.now) }
{
    let hub = hub_supply(places);
    let mut supplies = Vec::new(alloc);
    push_entries(places, &mut supplies)?;
    supplies.push(hub)?;
    supplies.push(0)?;
    if some_bounds(places) {
        push_exits(places, &mut supplies)?;
    }
    Ok(supplies)
}
