//! Which group a group crosses.
ghost use Rattle.std.specs.Prelude.{◌≡◌};
ghost use Rattle.mcf_flows.specs.Blocking.{in_list};
ghost use Rattle.mcf_groups.specs.Crossings.{crossed_by, has_some, is_cut_by, is_same, lacks_some};
ghost use Rattle.mcf_roster.specs.RosterFaults.{first_number};

use crate::groups::{Group, Members};

// Returns whether both are made of things, or both of persons.
fn is_same(one: Members, other: Members) -> bool
    ensures { result ≡ is_same one other }
{
    match (one, other) {
        (Members::Things, Members::Things) | (Members::Persons, Members::Persons) => true,
        _ => false,
    }
}

// Returns whether a number is in a list.
pub(crate) fn is_in(list: &[u32], number: u32) -> bool
    ensures { result ≡ in_list list.now number }
{
    list.iter().any(|one| *one == number)
}

// Returns whether some members are in a list.
fn has_some(list: &[u32], members: &[u32]) -> bool
    ensures { result ≡ has_some list.now members.now }
{
    members.iter().any(|member| is_in(list, *member))
}

// Returns whether some members aren't in a list.
fn lacks_some(list: &[u32], members: &[u32]) -> bool
    ensures { result ≡ lacks_some list.now members.now }
{
    members.iter().any(|member| !is_in(list, *member))
}

// Returns whether another group of the same kind has some members of a group, and not all.
pub(crate) fn is_cut_by(group: &Group, other: &Group) -> bool
    ensures { result ≡ is_cut_by group.now other.now }
{
    let same = is_same(group.of, other.of);
    let some = has_some(&other.members, &group.members);
    let not_all = lacks_some(&other.members, &group.members);
    same && some && not_all
}

// Returns the number of the first of some groups that has some members of a group, and not all.
fn first_cut(group: &Group, groups: &[Group]) -> Option<usize>
    ensures { result ≡ first_number (is_cut_by group.now) 1 groups.now }
{
    for place in 0..groups.len() {
        if is_cut_by(group, &groups[place]) {
            return Some(place + 1);
        }
    }
    None
}

/// Returns the number of the first group of the same kind, before the one with this number, that
/// has some of its members, and not all; `None` if there is none. Groups are counted from 1. Where
/// `least` answers that a group crosses, there is one.
pub fn crossed_by(groups: &[Group], number: usize) -> Option<usize>
    ensures { result ≡ crossed_by groups.now number }
{
    let place = number.saturating_sub(1);
    match groups.get(place) {
        Some(group) => first_cut(group, &groups[..place]),
        None => None,
    }
}
