//! The groups of a roster, one after the other.
ghost use Rattle.std.specs.Prelude.{◌≡◌, ◌≤◌, ◌+◌, ◌++◌, IfOk, None, OnOk, Some};
ghost use Rattle.mcf_groups.specs.GroupFaults.{fault_from, fault_of};
ghost use Rattle.mcf_groups.specs.LinkRows.{IsGrown, group_links};
ghost use Rattle.mcf_groups.specs.Nests.{IsSoundNest, after, leaves, nest_in};
ghost use Rattle.mcf_roster.specs.RosterFaults.{IsSoundRoster};

use crate::faults::GroupFault;
use crate::groups::{Group, Members};
use crate::linking::{Links, push_links};
use crate::nests::{NestTables, fault_of, include, old_before, owner_count};
use mcf_model::RouteRow;
use mcf_roster::Roster;
use mcf_text::NoMemory;

// Returns whether routes that leave places move, and not those that enter them.
fn leaves(of: Members) -> bool
    ensures { result ≡ leaves of }
{
    match of {
        Members::Things => true,
        Members::Persons => false,
    }
}

// Appends the links of a group.
fn push_group(
    roster: &Roster,
    nest: &NestTables,
    group: &Group,
    rows: &mut Vec<RouteRow>,
) -> Result<(), NoMemory>
    requires sound { IsSoundNest roster.now (nest_in nest.now) }
    requires fine { fault_of roster.now (nest_in nest.now) group.now ≡ None }
    ensures { OnOk result (rows.new.items ≡ rows.old.items ++ group_links roster.now (nest_in nest.now) group.now) }
{
    let links = Links {
        leave: leaves(group.of),
        old: old_before(roster, nest, group),
        new: nest.places,
        range: group.range,
    };
    push_links(links, owner_count(roster, group.of), rows)
}

// Adds the places of all groups and appends their links, or returns the first fault.
pub(crate) fn grow(
    roster: &Roster,
    groups: &[Group],
    nest: &mut NestTables,
    rows: &mut Vec<RouteRow>,
) -> Result<Option<GroupFault>, NoMemory>
    requires sound { IsSoundNest roster.now (nest_in nest.old) }
    ensures { IfOk result (IsGrown roster.now groups.now (nest_in nest.old) rows.old.items (nest_in nest.new) rows.new.items) }
{
    for place in 0..groups.len() {
        let group = &groups[place];
        if let Some(what) = fault_of(roster, nest, group) {
            return Ok(Some(GroupFault {
                group: place + 1,
                what,
            }));
        }
        push_group(roster, nest, group, rows)?;
        include(roster, group, nest);
    }
    Ok(None)
}
