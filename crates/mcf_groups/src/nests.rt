//! Where pairs stand in the model of a roster with groups.
ghost use Rattle.std.specs.Prelude.{◌≡◌, ◌≤◌, ◌+◌, IfOk, length};
ghost use Rattle.std.specs.List.{All};
ghost use Rattle.mcf_flows.specs.Network.{IsNode};
ghost use Rattle.mcf_groups.specs.GroupFaults.{fault_of, has_astray, some_elsewhere};
ghost use Rattle.mcf_groups.specs.Groups.{member_count, owner_count};
ghost use Rattle.mcf_groups.specs.Nests.{IsSoundNest, after, before_first, befores, entry, first_before, nest_in, old_before, placed, start_of};
ghost use Rattle.mcf_model.specs.Faults.{is_place};
ghost use Rattle.mcf_roster.specs.RosterFaults.{IsSoundRoster, is_empty};

use crate::faults::{GroupFaultKind, PLACE_LIMIT};
use crate::groups::{Group, Members};
use mcf_roster::{Range, Roster};
use mcf_text::{NoMemory, copies};
use std::alloc::Global;

// The number of places; for each thing the place before those that its pairs leave; and for each
// person the place before those that its pairs enter.
#[derive(Drop)]
pub(crate) struct NestTables {
    pub(crate) places: u32,
    pub(crate) tails: Vec<u32>,
    pub(crate) heads: Vec<u32>,
}

// Returns where pairs stand without groups.
pub(crate) fn start_of(alloc: Global, roster: &Roster) -> Result<NestTables, NoMemory>
    ensures value { IfOk result (λ made. nest_in made ≡ start_of roster.now) }
    ensures sound { IsSoundRoster roster.now }
{
    let persons = roster.takes().len();
    let things = roster.needs().len();
    let tails = copies(alloc, things, 0u32)?;
    let heads = copies(alloc, persons, persons as u32)?;
    Ok(NestTables {
        places: persons as u32 + things as u32 + 1,
        tails,
        heads,
    })
}

// Returns how many may be members of a group.
pub(crate) fn member_count(roster: &Roster, of: Members) -> usize
    ensures { result ≡ member_count roster.now of }
{
    match of {
        Members::Things => roster.needs().len(),
        Members::Persons => roster.takes().len(),
    }
}

// Returns how many there are for which members of a group are counted.
pub(crate) fn owner_count(roster: &Roster, of: Members) -> u32
    ensures value { result ≡ owner_count roster.now of }
    ensures sound { IsSoundRoster roster.now }
{
    match of {
        Members::Things => roster.takes().len() as u32,
        Members::Persons => roster.needs().len() as u32,
    }
}

// Returns the place before those of persons, or of things.
fn first_before(roster: &Roster, of: Members) -> u32
    ensures { result ≡ first_before roster.now of }
{
    match of {
        Members::Things => 0,
        Members::Persons => roster.takes().len() as u32,
    }
}

// Returns the entry of the one with a number, and 0 beyond the end.
pub(crate) fn entry(table: &[u32], number: u32) -> u32
    ensures { result ≡ entry table.now number }
{
    match table.get((number as usize).saturating_sub(1)) {
        Some(place) => *place,
        None => 0,
    }
}

// Returns the place before that of the first member, or `none` if there is no member.
fn before_first(none: u32, before: &[u32], members: &[u32]) -> u32
    ensures { result ≡ before_first none before.now members.now }
{
    match members.first() {
        Some(member) => entry(before, *member),
        None => none,
    }
}

// Returns for each thing, or for each person, the place before.
fn befores(of: Members, nest: &NestTables) -> &[u32]
    ensures { result.now ≡ befores of (nest_in nest.now) }
{
    match of {
        Members::Things => &nest.tails,
        Members::Persons => &nest.heads,
    }
}

// Returns the place before those from which the places of a group are split.
pub(crate) fn old_before(roster: &Roster, nest: &NestTables, group: &Group) -> u32
    ensures { result ≡ old_before roster.now (nest_in nest.now) group.now }
{
    let none = first_before(roster, group.of);
    before_first(none, befores(group.of, nest), &group.members)
}

// Returns whether a number is that of one of so many.
fn is_place(count: usize, number: u32) -> bool
    ensures { result ≡ is_place count number }
{
    1 <= number && number as usize <= count
}

// Returns whether some member isn't there.
fn has_astray(count: usize, members: &[u32]) -> bool
    ensures { result ≡ has_astray count members.now }
{
    for place in 0..members.len() {
        if !is_place(count, members[place]) {
            return true;
        }
    }
    false
}

// Returns whether some member doesn't stand after a place.
fn some_elsewhere(old: u32, before: &[u32], members: &[u32]) -> bool
    ensures { result ≡ some_elsewhere old before.now members.now }
{
    for place in 0..members.len() {
        if entry(before, members[place]) != old {
            return true;
        }
    }
    false
}

// Returns whether no number is within a range.
fn is_empty(range: Range) -> bool
    ensures { result ≡ is_empty range }
{
    range.most < range.least
}

// Returns the first fault of a group, where the groups before it have led to this nest.
pub(crate) fn fault_of(roster: &Roster, nest: &NestTables, group: &Group) -> Option<GroupFaultKind>
    ensures { result ≡ fault_of roster.now (nest_in nest.now) group.now }
{
    if is_empty(group.range) {
        return Some(GroupFaultKind::Empty);
    }
    if has_astray(member_count(roster, group.of), &group.members) {
        return Some(GroupFaultKind::Astray);
    }
    if u64::from(nest.places) + u64::from(owner_count(roster, group.of)) > u64::from(PLACE_LIMIT) {
        return Some(GroupFaultKind::Size);
    }
    let old = old_before(roster, nest, group);
    if some_elsewhere(old, befores(group.of, nest), &group.members) {
        return Some(GroupFaultKind::Crossing);
    }
    None
}

// Lets the members stand after a place.
fn place_all(place: u32, members: &[u32], before: &mut [u32])
    requires { All (IsNode (length before.old)) members.now }
    ensures { before.new ≡ placed place members.now before.old }
{
    for number in 0..members.len() {
        before[members[number] as usize - 1] = place;
    }
}

// Adds the places of a group.
pub(crate) fn include(roster: &Roster, group: &Group, nest: &mut NestTables)
    requires sound { IsSoundNest roster.now (nest_in nest.old) }
    requires members { All (IsNode (member_count roster.now group.now.of)) group.now.members.items }
    requires few { (nest.old.places + owner_count roster.now group.now.of) ≤ PLACE_LIMIT }
    ensures { nest_in nest.new ≡ after roster.now (nest_in nest.old) group.now }
{
    let place = nest.places;
    let more = owner_count(roster, group.of);
    match group.of {
        Members::Things => place_all(place, &group.members, &mut nest.tails),
        Members::Persons => place_all(place, &group.members, &mut nest.heads),
    }
    nest.places = place + more;
}
