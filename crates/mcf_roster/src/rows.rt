//! The routes of a roster's model, as rows.
ghost use Rattle.std.specs.Prelude.{◌≡◌, ◌≤◌, ◌<◌, ◌+◌, ◌++◌, ◌^◌, IfOk, OnOk, length, map, pos};
ghost use Rattle.std.specs.List.{All, range_with_len};
ghost use Rattle.mcf_roster.specs.Models.{hub_of};
ghost use Rattle.mcf_roster.specs.RosterFaults.{HasBothEnds};
ghost use Rattle.mcf_roster.specs.TableRows.{pair_row, person_row, plain_row, rows_of, thing_row};

use crate::faults::SIZE_LIMIT;
use crate::pairs::{Pair, Range};
use crate::rosters::Roster;
use mcf_model::RouteRow;
use mcf_text::NoMemory;
use std::alloc::Global;

/// Returns a route one way between two places of a model, for a number of units within a range,
/// each at a cost.
pub fn plain_row(tail: u32, head: u32, range: Range, cost: i64) -> RouteRow
    ensures { result ≡ plain_row tail head range cost }
{
    RouteRow {
        tail,
        head,
        first_step: 0,
        step_count: 0,
        least: i64::from(range.least),
        last_most: Some(i64::from(range.most)),
        last_cost: cost,
        both: false,
    }
}

// Returns the route of a pair, after so many persons.
fn pair_row(persons: u32, things: usize, pair: Pair) -> RouteRow
    requires few { (persons + things) ≤ SIZE_LIMIT }
    requires ends { HasBothEnds persons things pair }
    ensures { result ≡ pair_row persons pair }
{
    let one_or_none = Range { least: 0, most: 1 };
    plain_row(pair.who, persons + pair.what, one_or_none, pair.cost)
}

// Appends the routes of pairs.
fn push_pairs(
    persons: u32,
    things: usize,
    pairs: &[Pair],
    rows: &mut Vec<RouteRow>,
) -> Result<(), NoMemory>
    requires few { (persons + things) ≤ SIZE_LIMIT }
    requires ends { All (HasBothEnds persons things) pairs.now }
    ensures { OnOk result (rows.new.items ≡ rows.old.items ++ map (pair_row persons) pairs.now) }
{
    for place in 0..pairs.len() {
        let row = pair_row(persons, things, pairs[place]);
        rows.push(row)?;
    }
    Ok(())
}

/// Appends the routes from the hub to persons, of whom each takes a number of things within its
/// range.
///
/// # Errors
/// `NoMemory` if an allocation is refused.
pub fn push_persons(hub: u32, takes: &[Range], rows: &mut Vec<RouteRow>) -> Result<(), NoMemory>
    requires few { length takes.now ≤ SIZE_LIMIT }
    ensures { OnOk result (rows.new.items ≡ rows.old.items ++ map (person_row hub takes.now) (range_with_len 1 (length takes.now))) }
{
    for place in 0..takes.len() {
        let row = plain_row(hub, place as u32 + 1, takes[place], 0);
        rows.push(row)?;
    }
    Ok(())
}

/// Appends the routes from things, which are after so many persons, to the hub; each thing is taken
/// by a number of persons within its range.
///
/// # Errors
/// `NoMemory` if an allocation is refused.
pub fn push_things(
    persons: u32,
    hub: u32,
    needs: &[Range],
    rows: &mut Vec<RouteRow>,
) -> Result<(), NoMemory>
    requires few { (persons + length needs.now) ≤ SIZE_LIMIT }
    ensures { OnOk result (rows.new.items ≡ rows.old.items ++ map (thing_row persons hub needs.now) (range_with_len 1 (length needs.now))) }
{
    for place in 0..needs.len() {
        let row = plain_row(persons + (place as u32 + 1), hub, needs[place], 0);
        rows.push(row)?;
    }
    Ok(())
}

// Returns the number of the hub.
pub(crate) fn hub_of(takes: &[Range], needs: &[Range]) -> u32
    requires few { (length takes.now + length needs.now) ≤ SIZE_LIMIT }
    ensures { result ≡ (length takes.now + length needs.now) + 1 }
{
    takes.len() as u32 + needs.len() as u32 + 1
}

// Returns the routes of a roster's model.
pub(crate) fn rows_of(alloc: Global, roster: &Roster) -> Result<Vec<RouteRow>, NoMemory>
    ensures { IfOk result (λ made. made.items ≡ rows_of roster.now) }
{
    let takes = roster.takes();
    let needs = roster.needs();
    let persons = takes.len() as u32;
    let hub = hub_of(takes, needs);
    let mut rows = Vec::new(alloc);
    push_pairs(persons, needs.len(), roster.pairs(), &mut rows)?;
    push_persons(hub, takes, &mut rows)?;
    push_things(persons, hub, needs, &mut rows)?;
    Ok(rows)
}
