//! Places of a problem that must send, or take, more than they can.
ghost use Rattle.std.specs.Prelude.{◌≡◌, ◌≤◌, ◌≤ℤ◌, ℤ, IfOk, length};
ghost use Rattle.std.specs.List.{All};
ghost use Rattle.mcf_flows.specs.Blocking.{in_table};
ghost use Rattle.mcf_flows.specs.Network.{IsNode};
ghost use Rattle.mcf_places.specs.Answers.{IsToldBottleneck};
ghost use Rattle.mcf_places.specs.Models.{hub_of, supplies_of};
ghost use Rattle.mcf_places.specs.Told.{entries_told, exits_told};

use crate::faults::PLACE_LIMIT;
use crate::places::Place;
use crate::problem::Planner;
use crate::rows::{exit_of, gate_of, hub_of};
use crate::supplies::some_bounds;
use mcf_flows::{Side, table_of};
use mcf_model::{Bottleneck, side_told, turned_if};
use mcf_text::NoMemory;
use std::alloc::Global;

/// Places that must send, or take, more than they can; `side` says which of both. What arrives at a
/// place, and what it gives, comes in at its entry; what leaves it, and what it wants, goes out at
/// its exit.
#[derive(Drop)]
pub struct PlannerBottleneck {
    /// For each place, in order, whether its entry is one of them.
    pub entries: Vec<bool>,
    /// For each place, in order, whether its exit is one of them.
    pub exits: Vec<bool>,
    /// Whether they must send, or take, more than they can.
    pub side: Side,
}

// Returns the number of the model's places.
fn place_count(places: &[Place]) -> u32
    requires few { length places.now ≤ PLACE_LIMIT }
    ensures { result ≡ length (supplies_of places.now) }
{
    let gate = gate_of(places);
    if some_bounds(places) {
        gate + places.len() as u32
    } else {
        gate
    }
}

// Returns whether a table marks the hub.
fn has_hub(table: &[bool], places: &[Place]) -> bool
    requires few { length places.now ≤ PLACE_LIMIT }
    requires long { length table.now ≡ length (supplies_of places.now) }
    ensures { result ≡ in_table table.now (hub_of places.now) }
{
    let hub = hub_of(places);
    table[hub as usize - 1]
}

// Returns the entries of places that a table marks.
fn entries_told(
    alloc: Global,
    turned: bool,
    table: &[bool],
    places: &[Place],
) -> Result<Vec<bool>, NoMemory>
    requires few { length places.now ≤ PLACE_LIMIT }
    requires long { length table.now ≡ length (supplies_of places.now) }
    ensures { IfOk result (λ made. made.items ≡ entries_told turned table.now places.now) }
{
    let mut made = Vec::with_capacity(alloc, places.len())?;
    for place in 0..places.len() {
        let test = turned_if(turned, table[place]);
        made.push(test)?;
    }
    Ok(made)
}

// Returns the exits of places that a table marks.
fn exits_told(
    alloc: Global,
    turned: bool,
    table: &[bool],
    places: &[Place],
) -> Result<Vec<bool>, NoMemory>
    requires few { length places.now ≤ PLACE_LIMIT }
    requires long { length table.now ≡ length (supplies_of places.now) }
    ensures { IfOk result (λ made. made.items ≡ exits_told turned table.now places.now) }
{
    let mut made = Vec::with_capacity(alloc, places.len())?;
    for place in 0..places.len() {
        let exit = exit_of(places, place as u32 + 1);
        let test = turned_if(turned, table[exit as usize - 1]);
        made.push(test)?;
    }
    Ok(made)
}

// Returns a bottleneck of a problem's model as one of the problem.
pub(crate) fn told(
    alloc: Global,
    planner: &Planner,
    found: &Bottleneck,
) -> Result<PlannerBottleneck, NoMemory>
    requires nodes { All (IsNode (length (supplies_of planner.now.places))) found.now.places.items }
    ensures { IfOk result (IsToldBottleneck planner.now found.now) }
{
    let parts = planner.parts();
    let table = table_of(alloc, place_count(parts.places), &found.places)?;
    let turned = has_hub(&table, parts.places);
    let entries = entries_told(alloc, turned, &table, parts.places)?;
    let exits = exits_told(alloc, turned, &table, parts.places)?;
    Ok(PlannerBottleneck {
        entries,
        exits,
        side: side_told(turned, found.side),
    })
}
