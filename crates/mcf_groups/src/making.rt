//! The model of a roster with groups.
ghost use Rattle.std.specs.Prelude.{◌≡◌, ◌≤◌, ◌+◌, ◌++◌, IfOk, None, OnOk, length, map};
ghost use Rattle.std.specs.List.{All};
ghost use Rattle.mcf_groups.specs.GroupFaults.{group_fault};
ghost use Rattle.mcf_groups.specs.GroupModels.{IsModelOf};
ghost use Rattle.mcf_groups.specs.LinkRows.{nested_row, rows_with};
ghost use Rattle.mcf_groups.specs.Nests.{IsSoundNest, nest_in};
ghost use Rattle.mcf_roster.specs.RosterFaults.{HasBothEnds, IsSoundRoster};

use crate::faults::{GroupFault, PLACE_LIMIT};
use crate::groups::Group;
use crate::nesting::grow;
use crate::nests::{NestTables, entry, start_of};
use mcf_model::{PlanModel, RouteRow, Step};
use mcf_roster::{Pair, Range, Roster, plain_row, push_persons, push_things};
use mcf_text::{NoMemory, copies};
use std::alloc::Global;

// Returns the route of a pair, where pairs stand as a nest says.
pub(crate) fn nested_row(roster: &Roster, nest: &NestTables, pair: Pair) -> RouteRow
    requires sound { IsSoundNest roster.now (nest_in nest.now) }
    requires few { nest.now.places ≤ PLACE_LIMIT }
    requires ends { HasBothEnds (length roster.now.takes) (length roster.now.needs) pair }
    ensures { result ≡ nested_row (nest_in nest.now) pair }
{
    let tail = entry(&nest.tails, pair.what);
    let head = entry(&nest.heads, pair.who);
    let one_or_none = Range { least: 0, most: 1 };
    plain_row(tail + pair.who, head + pair.what, one_or_none, pair.cost)
}

// Appends the routes of pairs.
fn push_pairs(
    roster: &Roster,
    nest: &NestTables,
    pairs: &[Pair],
    rows: &mut Vec<RouteRow>,
) -> Result<(), NoMemory>
    requires sound { IsSoundNest roster.now (nest_in nest.now) }
    requires few { nest.now.places ≤ PLACE_LIMIT }
    requires ends { All (HasBothEnds (length roster.now.takes) (length roster.now.needs)) pairs.now }
    ensures { OnOk result (rows.new.items ≡ rows.old.items ++ map (nested_row (nest_in nest.now)) pairs.now) }
{
    for place in 0..pairs.len() {
        let row = nested_row(roster, nest, pairs[place]);
        rows.push(row)?;
    }
    Ok(())
}

// Returns the routes of the model, where pairs stand as a nest says, with these links.
fn rows_with(
    alloc: Global,
    roster: &Roster,
    nest: &NestTables,
    links: &[RouteRow],
) -> Result<Vec<RouteRow>, NoMemory>
    requires sound { IsSoundNest roster.now (nest_in nest.now) }
    requires few { nest.now.places ≤ PLACE_LIMIT }
    ensures { IfOk result (λ made. made.items ≡ rows_with roster.now (nest_in nest.now) links.now) }
{
    let takes = roster.takes();
    let needs = roster.needs();
    let persons = takes.len() as u32;
    let hub = persons + needs.len() as u32 + 1;
    let mut rows = Vec::new(alloc);
    push_pairs(roster, nest, roster.pairs(), &mut rows)?;
    push_persons(hub, takes, &mut rows)?;
    push_things(persons, hub, needs, &mut rows)?;
    rows.extend_from_slice(links)?;
    Ok(rows)
}

/// Returns the model of a roster with groups, or the first fault of the groups. Outer groups come
/// before inner ones. The model's first places are those of the roster's model: the persons, after
/// them the things, and the hub. Then come the places of each group: one for each person if the
/// group is one of things, and otherwise one for each thing.
///
/// # Errors
/// `NoMemory` if an allocation is refused. The model always has a place, so it always allocates.
pub fn group_model(
    alloc: Global,
    roster: &Roster,
    groups: &[Group],
) -> Result<Result<PlanModel, GroupFault>, NoMemory>
    ensures value { IfOk result (IsModelOf roster.now groups.now) }
    ensures sound { IsSoundRoster roster.now }
{
    let mut nest = start_of(alloc, roster)?;
    let mut links = Vec::new(alloc);
    if let Some(fault) = grow(roster, groups, &mut nest, &mut links)? {
        return Ok(Err(fault));
    }
    let rows = rows_with(alloc, roster, &nest, &links)?;
    let supplies = copies(alloc, nest.places as usize, 0i64)?;
    let steps: Vec<Step> = Vec::new(alloc);
    match PlanModel::of(supplies, steps, rows) {
        Ok(model) => Ok(Ok(model)),
        Err(_) => unreachable!(),
    }
}
