//! Rosters with groups: their faults, their models, and their least choices, by the engine of the
//! suite.
use mcf_choice::Choice;
use mcf_groups::{
    Group, GroupAnswer, GroupCompetition, GroupFault, GroupFaultKind, Members, crossed_by,
    group_model, least,
};
use mcf_planner::Planner as Engine;
use mcf_roster::{LeastChoice, Pair, Range, Roster};
use mcf_text::{NoMemory, copies};
use std::alloc::Global;
use std::test::Fail;

const ONE: Range = Range { least: 1, most: 1 };

const SOME: Range = Range { least: 0, most: 9 };

// Returns a pair.
fn pair(who: u32, what: u32, cost: i64) -> Pair {
    Pair { who, what, cost }
}

// Returns a roster of so many persons and things, of which each may have as many as there are.
fn made(
    alloc: Global,
    persons: usize,
    things: usize,
    pairs: &[Pair],
) -> Result<Option<Roster>, NoMemory> {
    let takes = copies(alloc, persons, SOME)?;
    let needs = copies(alloc, things, SOME)?;
    let pairs: Vec<Pair> = pairs.iter().copied().collect(alloc)?;
    Ok(Roster::of(takes, needs, pairs).ok())
}

// Returns a group.
fn group(
    alloc: Global,
    of: Members,
    members: &[u32],
    least: u32,
    most: u32,
) -> Result<Group, NoMemory> {
    Ok(Group {
        of,
        members: members.iter().copied().collect(alloc)?,
        range: Range { least, most },
    })
}

// Returns the answer for a roster with groups, if nothing is wrong with the roster.
fn answer_of(
    alloc: Global,
    roster: &Option<Roster>,
    groups: &[Group],
) -> Result<Option<Result<GroupAnswer, GroupFault>>, NoMemory> {
    let Some(roster) = roster else {
        return Ok(None);
    };
    let mut engine = Engine {
        choice: Choice::default(),
    };
    Ok(Some(least(alloc, &mut engine, roster, groups)?))
}

// Returns whether an answer is this choice, at this cost.
fn is_choice(
    answer: &Option<Result<GroupAnswer, GroupFault>>,
    chosen: &[bool],
    value: i128,
) -> bool {
    match answer {
        Some(Ok(GroupAnswer::Least(found))) => same_choice(found, chosen, value),
        _ => false,
    }
}

// Returns whether a choice is the expected one.
fn same_choice(found: &LeastChoice, chosen: &[bool], value: i128) -> bool {
    found.chosen.as_slice() == chosen && found.value == value
}

// Returns whether an answer is that no choice exists, told of so many places and without the hub.
fn is_none(answer: &Option<Result<GroupAnswer, GroupFault>>, places: usize, hub: usize) -> bool {
    match answer {
        Some(Ok(GroupAnswer::NoChoice(found))) => leaves_out(found, places, hub),
        _ => false,
    }
}

// Returns whether a competition is told of so many places, and leaves the hub out.
fn leaves_out(found: &GroupCompetition, places: usize, hub: usize) -> bool {
    found.places.len() == places && found.places.get(hub) == Some(&false)
}

// Returns the fault of groups, if they have one.
fn fault_in(answer: &Option<Result<GroupAnswer, GroupFault>>) -> Option<GroupFault> {
    match answer {
        Some(Err(fault)) => Some(*fault),
        _ => None,
    }
}

#[test]
fn at_most_one_of_a_group(rt: HostRuntime) -> Result<(), Fail> {
    let alloc = rt.alloc();
    let roster = made(alloc, 1, 2, &[pair(1, 1, -5), pair(1, 2, -3)])?;
    let groups = vec![in alloc; group(alloc, Members::Things, &[1, 2], 0, 1)?]?;
    let answer = answer_of(alloc, &roster, &groups)?;
    assert!(rt; is_choice(&answer, &[true, false], -5));
    Ok(())
}

#[test]
fn a_group_within_a_group(rt: HostRuntime) -> Result<(), Fail> {
    let alloc = rt.alloc();
    let pairs = [pair(1, 1, -1), pair(1, 2, -2), pair(1, 3, -4)];
    let roster = made(alloc, 1, 3, &pairs)?;
    let outer = group(alloc, Members::Things, &[1, 2, 3], 0, 2)?;
    let inner = group(alloc, Members::Things, &[2, 3], 1, 1)?;
    let groups = vec![in alloc; outer, inner]?;
    let answer = answer_of(alloc, &roster, &groups)?;
    assert!(rt; is_choice(&answer, &[true, false, true], -5));
    Ok(())
}

#[test]
fn at_least_one_person_with_a_skill(rt: HostRuntime) -> Result<(), Fail> {
    let alloc = rt.alloc();
    let pairs = [pair(1, 1, 2), pair(2, 1, 5), pair(3, 1, 6)];
    let roster = made(alloc, 3, 1, &pairs)?;
    let groups = vec![in alloc; group(alloc, Members::Persons, &[2, 3], 1, 1)?]?;
    let answer = answer_of(alloc, &roster, &groups)?;
    assert!(rt; is_choice(&answer, &[false, true, false], 5));
    Ok(())
}

#[test]
fn more_of_a_group_than_there_is(rt: HostRuntime) -> Result<(), Fail> {
    let alloc = rt.alloc();
    let roster = made(alloc, 2, 1, &[pair(1, 1, 0), pair(2, 1, 0)])?;
    let groups = vec![in alloc; group(alloc, Members::Things, &[1], 2, 2)?]?;
    let answer = answer_of(alloc, &roster, &groups)?;
    assert!(rt; is_none(&answer, 6, 3));
    Ok(())
}

#[test]
fn groups_that_cross(rt: HostRuntime) -> Result<(), Fail> {
    let alloc = rt.alloc();
    let roster = made(alloc, 1, 3, &[pair(1, 1, 0)])?;
    let first = group(alloc, Members::Things, &[1, 2], 0, 1)?;
    let second = group(alloc, Members::Things, &[2, 3], 0, 1)?;
    let groups = vec![in alloc; first, second]?;
    let answer = answer_of(alloc, &roster, &groups)?;
    let crossing = GroupFault {
        group: 2,
        what: GroupFaultKind::Crossing,
    };
    assert!(rt; fault_in(&answer) == Some(crossing));
    assert!(rt; crossed_by(&groups, 2) == Some(1));
    Ok(())
}

#[test]
fn a_member_that_is_not_there(rt: HostRuntime) -> Result<(), Fail> {
    let alloc = rt.alloc();
    let roster = made(alloc, 1, 2, &[pair(1, 1, 0)])?;
    let groups = vec![in alloc; group(alloc, Members::Things, &[1, 3], 0, 1)?]?;
    let answer = answer_of(alloc, &roster, &groups)?;
    let astray = GroupFault {
        group: 1,
        what: GroupFaultKind::Astray,
    };
    assert!(rt; fault_in(&answer) == Some(astray));
    Ok(())
}

// Four places of the roster, and one for each person; five routes of the roster, and one to each
// new place.
#[test]
fn the_model_of_a_roster_with_a_group(rt: HostRuntime) -> Result<(), Fail> {
    let alloc = rt.alloc();
    let pairs = [pair(1, 1, 0), pair(2, 1, 0)];
    let Some(roster) = made(alloc, 2, 1, &pairs)? else {
        assert!(rt; false);
        return Ok(());
    };
    let groups = vec![in alloc; group(alloc, Members::Things, &[1], 1, 1)?]?;
    let Ok(model) = group_model(alloc, &roster, &groups)? else {
        assert!(rt; false);
        return Ok(());
    };
    assert_eq!(rt; (model.place_count(), model.route_count()), (6, 7));
    Ok(())
}
