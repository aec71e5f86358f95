//! The order of groups, those that cross, and what is told of choices and of those that compete.
use mcf_flows::Side;
use mcf_groups::{
    Crossing, Group, GroupBound, GroupCompetition, GroupCount, Members, arranged, broken_of,
    competition_of, counts_of, group_model, order_of,
};
use mcf_roster::{Pair, Range, Roster};
use mcf_text::{NoMemory, copies};
use std::alloc::Global;
use std::test::Fail;

// Returns a group of things.
fn group(alloc: Global, members: &[u32], least: u32, most: u32) -> Result<Group, NoMemory> {
    Ok(Group {
        of: Members::Things,
        members: members.iter().copied().collect(alloc)?,
        range: Range { least, most },
    })
}

// Returns three groups, of which the first crosses the second, and the third lies within it.
fn three(alloc: Global) -> Result<Vec<Group>, NoMemory> {
    let first = group(alloc, &[1, 4], 0, 1)?;
    let second = group(alloc, &[1, 2, 3], 0, 2)?;
    let third = group(alloc, &[2, 3], 0, 1)?;
    Ok(vec![in alloc; first, second, third]?)
}

#[test]
fn greater_groups_come_first(rt: HostRuntime) -> Result<(), Fail> {
    let alloc = rt.alloc();
    let groups = three(alloc)?;
    let order = order_of(alloc, &groups)?;
    assert!(rt; order.as_slice() == [2, 1, 3].as_slice());
    let made = arranged(alloc, &groups)?;
    let crossing = Crossing {
        group: 1,
        crossed: 2,
    };
    assert!(rt; made.kept.as_slice() == [2, 3].as_slice());
    assert!(rt; made.crossings.as_slice() == [crossing].as_slice());
    Ok(())
}

// Returns a roster of two persons and four things, of which each may have as many as there are.
fn roster(alloc: Global) -> Result<Option<Roster>, NoMemory> {
    let some = Range { least: 0, most: 9 };
    let takes = copies(alloc, 2, some)?;
    let needs = copies(alloc, 4, some)?;
    let ends = [(1, 1), (1, 2), (1, 3), (2, 4)];
    let mut pairs = Vec::new(alloc);
    for (who, what) in ends {
        pairs.push(Pair { who, what, cost: 0 })?;
    }
    Ok(Roster::of(takes, needs, pairs).ok())
}

// Returns a count.
fn count(group: usize, owner: usize, count: usize) -> GroupCount {
    GroupCount {
        group,
        owner,
        count,
    }
}

#[test]
fn members_are_counted(rt: HostRuntime) -> Result<(), Fail> {
    let alloc = rt.alloc();
    let groups = three(alloc)?;
    let Some(roster) = roster(alloc)? else {
        assert!(rt; false);
        return Ok(());
    };
    let chosen = [true, true, true, false];
    let counts = counts_of(alloc, &roster, &groups, &chosen)?;
    let expected = [
        count(1, 1, 1),
        count(1, 2, 0),
        count(2, 1, 3),
        count(3, 1, 2),
    ];
    assert!(rt; counts.as_slice() == expected.as_slice());
    let left = [Crossing {
        group: 3,
        crossed: 1,
    }];
    let broken = broken_of(alloc, &roster, &groups, &left, &chosen)?;
    assert!(rt; broken.as_slice() == [count(3, 1, 2)].as_slice());
    Ok(())
}

// Returns a bound of the first group.
fn bound(owner: usize, is_least: bool, amount: u32) -> GroupBound {
    GroupBound {
        group: 1,
        owner,
        is_least,
        amount,
    }
}

// The model has two persons, four things, the hub, and a place for each person, which lies after
// it. The first person is marked and its place isn't; it is the other way round with the second.
#[test]
fn numbers_of_groups_are_told(rt: HostRuntime) -> Result<(), Fail> {
    let alloc = rt.alloc();
    let groups = vec![in alloc; group(alloc, &[1, 2, 4], 1, 2)?]?;
    let Some(roster) = roster(alloc)? else {
        assert!(rt; false);
        return Ok(());
    };
    let Ok(_model) = group_model(alloc, &roster, &groups)? else {
        assert!(rt; false);
        return Ok(());
    };
    let marks = [true, false, false, false, false, false, false, false, true];
    let found = GroupCompetition {
        places: marks.iter().copied().collect(alloc)?,
        side: Side::Send,
    };
    let told = competition_of(alloc, &roster, &groups, &found)?;
    assert!(rt; told.bounds.as_slice() == [bound(1, false, 2), bound(2, true, 1)].as_slice());
    assert!(rt; told.found.amounts.pairs.as_slice() == [false, false, true, true].as_slice());
    Ok(())
}

// The model has two persons, four things, the hub, and a place for each person.
#[test]
fn marked_places_are_told(rt: HostRuntime) -> Result<(), Fail> {
    let alloc = rt.alloc();
    let groups = vec![in alloc; group(alloc, &[1, 2], 0, 1)?]?;
    let Some(roster) = roster(alloc)? else {
        assert!(rt; false);
        return Ok(());
    };
    let Ok(_model) = group_model(alloc, &roster, &groups)? else {
        assert!(rt; false);
        return Ok(());
    };
    let marks = [true, false, false, true, false, false, false, true, false];
    let found = GroupCompetition {
        places: marks.iter().copied().collect(alloc)?,
        side: Side::Send,
    };
    let made = competition_of(alloc, &roster, &groups, &found)?;
    let told = &made.found;
    assert!(rt; told.persons.as_slice() == [true, false].as_slice());
    assert!(rt; told.things.as_slice() == [false, true, false, false].as_slice());
    assert!(rt; told.amounts.persons.as_slice() == [0, 0].as_slice());
    assert!(rt; told.amounts.pairs.as_slice() == [true, false, true, false].as_slice());
    Ok(())
}
