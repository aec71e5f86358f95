//! Rosters: their faults, their models, and their least choices, by the engine of the suite.
use mcf_choice::Choice;
use mcf_flows::{Code, Side};
use mcf_instance::ArrayFault;
use mcf_planner::Planner as Engine;
use mcf_roster::{
    Competition, LeastChoice, Origin, Pair, Range, Roster, RosterAnswer, RosterFault, choice_of,
    least, model_of, origin_of,
};
use mcf_text::{ArcId, NoMemory, NodeId};
use std::alloc::Global;
use std::test::Fail;

const ONE: Range = Range { least: 1, most: 1 };

// Returns a pair.
fn pair(who: u32, what: u32, cost: i64) -> Pair {
    Pair { who, what, cost }
}

// Returns a roster, or its fault.
fn made(
    alloc: Global,
    takes: &[Range],
    needs: &[Range],
    pairs: &[Pair],
) -> Result<Result<Roster, RosterFault>, NoMemory> {
    let takes: Vec<Range> = takes.iter().copied().collect(alloc)?;
    let needs: Vec<Range> = needs.iter().copied().collect(alloc)?;
    let pairs: Vec<Pair> = pairs.iter().copied().collect(alloc)?;
    Ok(Roster::of(takes, needs, pairs))
}

// Returns the answer for a roster, if nothing is wrong with it.
fn answer_of(
    alloc: Global,
    takes: &[Range],
    needs: &[Range],
    pairs: &[Pair],
) -> Result<Option<RosterAnswer>, NoMemory> {
    let Ok(roster) = made(alloc, takes, needs, pairs)? else {
        return Ok(None);
    };
    let mut engine = Engine {
        choice: Choice::default(),
    };
    Ok(Some(least(alloc, &mut engine, &roster)?))
}

// Returns whether an answer is this choice, at this cost.
fn is_choice(answer: &Option<RosterAnswer>, chosen: &[bool], value: i128) -> bool {
    match answer {
        Some(RosterAnswer::Least(found)) => same_choice(found, chosen, value),
        _ => false,
    }
}

// Returns whether a choice is the expected one.
fn same_choice(found: &LeastChoice, chosen: &[bool], value: i128) -> bool {
    found.chosen.as_slice() == chosen && found.value == value
}

// Returns whether an answer is this competition.
fn competes(answer: &Option<RosterAnswer>, persons: &[bool], things: &[bool], side: Side) -> bool {
    match answer {
        Some(RosterAnswer::NoChoice(found)) => same_competition(found, persons, things, side),
        _ => false,
    }
}

// Returns whether a competition is the expected one.
fn same_competition(found: &Competition, persons: &[bool], things: &[bool], side: Side) -> bool {
    found.persons.as_slice() == persons && found.things.as_slice() == things && found.side == side
}

// Returns the fault of a network, if that is the answer.
fn fault_in(answer: &Option<RosterAnswer>) -> Option<ArrayFault> {
    match answer {
        Some(RosterAnswer::Beyond(fault)) => Some(*fault),
        _ => None,
    }
}

// Returns the fault of a roster, if it has one.
fn fault_of(
    alloc: Global,
    takes: &[Range],
    needs: &[Range],
    pairs: &[Pair],
) -> Result<Option<RosterFault>, NoMemory> {
    match made(alloc, takes, needs, pairs)? {
        Ok(_) => Ok(None),
        Err(fault) => Ok(Some(fault)),
    }
}

#[test]
fn the_first_fault_of_a_roster(rt: HostRuntime) -> Result<(), Fail> {
    let alloc = rt.alloc();
    let empty = Range { least: 3, most: 2 };
    let takes = fault_of(alloc, &[ONE, empty], &[empty], &[pair(0, 1, 0)])?;
    assert!(rt; takes == Some(RosterFault::Takes(2)));
    let needs = fault_of(alloc, &[ONE, ONE], &[empty], &[pair(0, 1, 0)])?;
    assert!(rt; needs == Some(RosterFault::Needs(1)));
    Ok(())
}

#[test]
fn pairs_of_persons_and_things_that_are_not_there(rt: HostRuntime) -> Result<(), Fail> {
    let alloc = rt.alloc();
    let who = fault_of(alloc, &[ONE, ONE], &[ONE], &[pair(2, 1, 0), pair(0, 1, 0)])?;
    assert!(rt; who == Some(RosterFault::Ends(2)));
    let what = fault_of(alloc, &[ONE, ONE], &[ONE], &[pair(2, 2, 0), pair(1, 1, 0)])?;
    assert!(rt; what == Some(RosterFault::Ends(1)));
    Ok(())
}

#[test]
fn a_roster_says_what_it_has(rt: HostRuntime) -> Result<(), Fail> {
    let pairs = [pair(1, 1, 5), pair(2, 1, -6)];
    let Ok(roster) = made(rt.alloc(), &[ONE, ONE], &[ONE], &pairs)? else {
        assert!(rt; false);
        return Ok(());
    };
    assert_eq!(rt; (roster.takes().len(), roster.needs().len()), (2, 1));
    assert!(rt; *roster.pairs() == *pairs.as_slice());
    Ok(())
}

// Three places and two routes more than there are pairs: two persons, a thing and the hub.
#[test]
fn the_model_of_a_roster(rt: HostRuntime) -> Result<(), Fail> {
    let Ok(roster) = made(rt.alloc(), &[ONE, ONE], &[ONE], &[pair(2, 1, 5)])? else {
        assert!(rt; false);
        return Ok(());
    };
    let model = model_of(rt.alloc(), &roster)?;
    assert_eq!(rt; (model.place_count(), model.route_count()), (4, 4));
    let supplies = [0i64, 0, 0, 0];
    assert!(rt; *model.supplies() == *supplies.as_slice());
    Ok(())
}

#[test]
fn a_choice_is_read_from_a_plan(rt: HostRuntime) -> Result<(), Fail> {
    let pairs = [pair(1, 1, 5), pair(2, 1, 6)];
    let Ok(roster) = made(rt.alloc(), &[ONE, ONE], &[ONE], &pairs)? else {
        assert!(rt; false);
        return Ok(());
    };
    let chosen = choice_of(rt.alloc(), &roster, &[0, 1, 0, 1, 1])?;
    assert!(rt; chosen.as_slice() == [false, true].as_slice());
    Ok(())
}

// The assignment that the documentation of scipy's linear_sum_assignment solves.
#[test]
fn three_persons_and_three_things(rt: HostRuntime) -> Result<(), Fail> {
    let ones = [ONE; 3];
    let pairs = [
        pair(1, 1, 4),
        pair(1, 2, 1),
        pair(1, 3, 3),
        pair(2, 1, 2),
        pair(2, 2, 0),
        pair(2, 3, 5),
        pair(3, 1, 3),
        pair(3, 2, 2),
        pair(3, 3, 2),
    ];
    let answer = answer_of(rt.alloc(), &ones, &ones, &pairs)?;
    let chosen = [false, true, false, true, false, false, false, false, true];
    let fits = is_choice(&answer, &chosen, 5);
    assert!(rt; fits);
    Ok(())
}

// The first person takes up to two of three things, the second just one.
#[test]
fn persons_take_as_many_things_as_their_ranges_say(rt: HostRuntime) -> Result<(), Fail> {
    let takes = [Range { least: 0, most: 2 }, ONE];
    let pairs = [
        pair(1, 1, 3),
        pair(1, 2, 4),
        pair(2, 2, 1),
        pair(2, 3, 2),
        pair(1, 3, 6),
    ];
    let answer = answer_of(rt.alloc(), &takes, &[ONE; 3], &pairs)?;
    let fits = is_choice(&answer, &[true, true, false, true, false], 9);
    assert!(rt; fits);
    Ok(())
}

// A pair that earns is chosen, though nothing has to be.
#[test]
fn costs_may_be_below_zero(rt: HostRuntime) -> Result<(), Fail> {
    let free = Range { least: 0, most: 2 };
    let pairs = [pair(1, 1, -2), pair(1, 2, 3)];
    let answer = answer_of(rt.alloc(), &[free], &[free, free], &pairs)?;
    let fits = is_choice(&answer, &[true, false], -2);
    assert!(rt; fits);
    Ok(())
}

#[test]
fn nobody_takes_nothing(rt: HostRuntime) -> Result<(), Fail> {
    let answer = answer_of(rt.alloc(), &[], &[], &[])?;
    let fits = is_choice(&answer, &[], 0);
    assert!(rt; fits);
    Ok(())
}

// The first two of three persons must take the first of two things each, which one may take.
#[test]
fn persons_that_must_take_too_much(rt: HostRuntime) -> Result<(), Fail> {
    let free = Range { least: 0, most: 1 };
    let pairs = [pair(1, 1, 0), pair(2, 1, 0), pair(3, 1, 0), pair(3, 2, 0)];
    let answer = answer_of(rt.alloc(), &[ONE, ONE, free], &[free, free], &pairs)?;
    let fits = competes(&answer, &[true, true, false], &[true, false], Side::Send);
    assert!(rt; fits);
    Ok(())
}

// Two of three things must be taken by the first of two persons, who takes one.
#[test]
fn things_that_too_few_can_take(rt: HostRuntime) -> Result<(), Fail> {
    let free = Range { least: 0, most: 1 };
    let pairs = [pair(1, 1, 0), pair(1, 2, 0), pair(1, 3, 0), pair(2, 3, 0)];
    let answer = answer_of(rt.alloc(), &[free, free], &[ONE, ONE, free], &pairs)?;
    let fits = competes(&answer, &[true, false], &[true, true, false], Side::Take);
    assert!(rt; fits);
    Ok(())
}

#[test]
fn a_cost_beyond_the_limits(rt: HostRuntime) -> Result<(), Fail> {
    let pairs = [pair(1, 1, 0), pair(1, 1, i64::MAX)];
    let answer = answer_of(rt.alloc(), &[ONE], &[ONE], &pairs)?;
    let want = ArrayFault::Arc(ArcId::new(2), Code::Cost);
    assert!(rt; fault_in(&answer) == Some(want));
    Ok(())
}

// After the arcs of two pairs, two persons have one each, and then a thing.
#[test]
fn faults_of_the_network_have_origins(rt: HostRuntime) -> Result<(), Fail> {
    let pairs = [pair(1, 1, 5), pair(2, 1, 6)];
    let Ok(roster) = made(rt.alloc(), &[ONE, ONE], &[ONE], &pairs)? else {
        assert!(rt; false);
        return Ok(());
    };
    let arcs = [
        (2, Origin::OfPair(2)),
        (3, Origin::OfPerson(1)),
        (4, Origin::OfPerson(2)),
        (5, Origin::OfThing(1)),
    ];
    for (arc, want) in &arcs {
        let fault = ArrayFault::Arc(ArcId::new(*arc), Code::Cost);
        assert!(rt; origin_of(&roster, fault) == *want);
    }
    let hub = origin_of(&roster, ArrayFault::Supply(NodeId::new(4)));
    assert!(rt; hub == Origin::OfAll);
    Ok(())
}
