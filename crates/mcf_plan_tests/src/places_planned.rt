//! Least plans of planners' problems, by the engine of the suite.
use mcf_choice::Choice;
use mcf_flows::{Code, Side};
use mcf_instance::ArrayFault;
use mcf_model::{RouteRow, Step};
use mcf_places::{
    Bounds, LeastPlannerPlan, Origin, Place, Planner, PlannerAnswer, Policy, ShownModel, least,
    origin_of,
};
use mcf_planner::Planner as Engine;
use mcf_text::{ArcId, NoMemory, NodeId};
use std::alloc::Global;
use std::test::Fail;

// Returns a route of one step, one way.
const PLAIN: RouteRow = RouteRow {
    tail: 1,
    head: 2,
    first_step: 0,
    step_count: 0,
    least: 0,
    last_most: None,
    last_cost: 0,
    both: false,
};

// A factory, a depot and two shops: at most six units pass through the depot, at cost 1 each. One
// route goes from the factory to the second shop, past the depot.
#[derive(Clone, Copy)]
struct PlannedRow {
    wants: [i64; 2],
    own: [Option<i64>; 2],
    policy: Policy,
    carries: [i128; 4],
    stays: i128,
    missing: [i128; 2],
    cost: i128,
}

const ROWS: [PlannedRow; 4] = [
    // as little as possible is missing: nine units can go, six of them through the depot
    PlannedRow {
        wants: [8, 5],
        own: [None, None],
        policy: Policy {
            unused: true,
            short: true,
            penalty: None,
        },
        carries: [6, 6, 0, 3],
        stays: 1,
        missing: [2, 2],
        cost: 51,
    },
    // a missing unit costs 5: less than a unit to the second shop, more than one to the first
    PlannedRow {
        wants: [8, 5],
        own: [None, None],
        policy: Policy {
            unused: true,
            short: true,
            penalty: Some(5),
        },
        carries: [6, 6, 0, 0],
        stays: 4,
        missing: [2, 5],
        cost: 59,
    },
    // nothing may be missing
    PlannedRow {
        wants: [5, 4],
        own: [None, None],
        policy: Policy {
            unused: true,
            short: false,
            penalty: None,
        },
        carries: [6, 5, 1, 3],
        stays: 1,
        missing: [0, 0],
        cost: 54,
    },
    // a missing unit costs 20 at the second shop, and 3 at the first, less than a unit sent there
    PlannedRow {
        wants: [8, 5],
        own: [None, Some(20)],
        policy: Policy {
            unused: true,
            short: true,
            penalty: Some(3),
        },
        carries: [5, 0, 5, 0],
        stays: 5,
        missing: [8, 0],
        cost: 59,
    },
];

// Returns the four routes, of which the last has a limit.
fn routes_of(alloc: Global, limit: i64) -> Result<Vec<RouteRow>, NoMemory> {
    let to_depot = RouteRow {
        last_cost: 2,
        ..PLAIN
    };
    let to_first = RouteRow {
        tail: 2,
        head: 3,
        last_cost: 1,
        ..PLAIN
    };
    let to_second = RouteRow {
        tail: 2,
        head: 4,
        last_cost: 4,
        ..PLAIN
    };
    let past = RouteRow {
        head: 4,
        last_most: Some(limit),
        last_cost: 9,
        ..PLAIN
    };
    Ok(vec![in alloc; to_depot, to_first, to_second, past]?)
}

/// Returns the problem, if nothing is wrong with it.
pub(crate) fn problem_of(
    alloc: Global,
    wants: &[i64; 2],
    own: &[Option<i64>; 2],
    limit: i64,
    policy: Policy,
) -> Result<Option<Planner>, NoMemory> {
    let factory = Place {
        supply: 10,
        through: None,
        penalty: None,
    };
    let depot = Place {
        supply: 0,
        through: Some(Bounds {
            least: 0,
            most: Some(6),
            cost: 1,
        }),
        penalty: None,
    };
    let first = Place {
        supply: -wants[0].clamp(0, 100),
        through: None,
        penalty: own[0],
    };
    let second = Place {
        supply: -wants[1].clamp(0, 100),
        through: None,
        penalty: own[1],
    };
    let places = vec![in alloc; factory, depot, first, second]?;
    let steps: Vec<Step> = Vec::new(alloc);
    let routes = routes_of(alloc, limit)?;
    match Planner::of(alloc, places, steps, routes, policy)? {
        Ok(planner) => Ok(Some(planner)),
        Err(_) => Ok(None),
    }
}

// Returns the answer for a problem.
fn answer_of(
    alloc: Global,
    wants: &[i64; 2],
    own: &[Option<i64>; 2],
    limit: i64,
    policy: Policy,
) -> Result<Option<PlannerAnswer>, NoMemory> {
    let Some(planner) = problem_of(alloc, wants, own, limit, policy)? else {
        return Ok(None);
    };
    let mut engine = Engine {
        choice: Choice::default(),
    };
    Ok(Some(least(alloc, &mut engine, &planner)?))
}

// Returns whether the model's routes of the four routes carry these amounts, and each place of the
// model has a price.
fn is_shown(shown: &ShownModel, carries: &[i128; 4]) -> bool {
    for place in 0..4usize {
        if shown.carries.get(place) != carries.get(place) {
            return false;
        }
    }
    shown.prices.len() == shown.model.place_count()
}

// Returns whether a plan is the expected one.
fn is_plan(found: &LeastPlannerPlan, row: &PlannedRow) -> bool {
    let stays = [row.stays, 0, 0, 0];
    let missing = [0, 0, row.missing[0], row.missing[1]];
    found.plan.carries.as_slice() == row.carries.as_slice()
        && found.plan.stays.as_slice() == stays.as_slice()
        && found.plan.missing.as_slice() == missing.as_slice()
        && found.cost == row.cost
}

// Returns whether the answer of a row is the expected one.
fn is_as_said(alloc: Global, row: &PlannedRow, missing: i128) -> Result<bool, NoMemory> {
    match answer_of(alloc, &row.wants, &row.own, 3, row.policy)? {
        Some(PlannerAnswer::Least(found)) => {
            let planned = is_plan(&found, row);
            let shown = is_shown(&found.shown, &row.carries);
            Ok(planned && shown && found.missing == missing)
        }
        _ => Ok(false),
    }
}

#[test]
fn as_little_as_possible_is_missing(rt: HostRuntime) -> Result<(), Fail> {
    let rows = ROWS;
    let fits = is_as_said(rt.alloc(), &rows[0], 4)?;
    assert!(rt; fits);
    Ok(())
}

#[test]
fn a_penalty_says_what_is_missing(rt: HostRuntime) -> Result<(), Fail> {
    let rows = ROWS;
    let fits = is_as_said(rt.alloc(), &rows[1], 7)?;
    assert!(rt; fits);
    Ok(())
}

#[test]
fn penalties_of_places_say_what_is_missing(rt: HostRuntime) -> Result<(), Fail> {
    let rows = ROWS;
    let fits = is_as_said(rt.alloc(), &rows[3], 8)?;
    assert!(rt; fits);
    Ok(())
}

#[test]
fn nothing_is_missing(rt: HostRuntime) -> Result<(), Fail> {
    let rows = ROWS;
    let fits = is_as_said(rt.alloc(), &rows[2], 0)?;
    assert!(rt; fits);
    Ok(())
}

// The shops want seven units of the depot, through which six pass.
#[test]
fn places_that_take_too_much_are_named(rt: HostRuntime) -> Result<(), Fail> {
    let policy = ROWS[2].policy;
    let Some(PlannerAnswer::NoPlan(found)) = answer_of(
        rt.alloc(),
        &[7, 0],
        &[None, None],
        3,
        policy,
    )?
    else {
        assert!(rt; false);
        return Ok(());
    };
    assert!(rt; found.side == Side::Take);
    let (entries, exits) = ([false, false, true, false], [false, true, true, false]);
    assert!(rt; found.entries.as_slice() == entries.as_slice());
    assert!(rt; found.exits.as_slice() == exits.as_slice());
    Ok(())
}

// Returns the fault of a network, if that is the answer.
fn fault_in(answer: &PlannerAnswer) -> Option<ArrayFault> {
    match answer {
        PlannerAnswer::Beyond(fault) => Some(*fault),
        _ => None,
    }
}

#[test]
fn a_number_beyond_the_limits_is_named(rt: HostRuntime) -> Result<(), Fail> {
    let policy = ROWS[2].policy;
    let Some(answer) = answer_of(rt.alloc(), &[5, 4], &[None, None], i64::MAX, policy)? else {
        assert!(rt; false);
        return Ok(());
    };
    let want = ArrayFault::Arc(ArcId::new(4), Code::Bound);
    assert!(rt; fault_in(&answer) == Some(want));
    Ok(())
}

// After the arcs of the four routes, the depot has one for what passes through it, the factory one
// for what stays there, and one arc has all that is missing.
#[test]
fn faults_of_a_network_have_origins(rt: HostRuntime) -> Result<(), Fail> {
    let Some(planner) = problem_of(rt.alloc(), &[5, 4], &[None, None], 3, ROWS[2].policy)? else {
        assert!(rt; false);
        return Ok(());
    };
    let arcs = [
        (4, Origin::OfRoute(4)),
        (5, Origin::OfPlace(2)),
        (6, Origin::OfPlace(1)),
        (7, Origin::OfAll),
    ];
    for (arc, want) in &arcs {
        let fault = ArrayFault::Arc(ArcId::new(*arc), Code::Bound);
        assert!(rt; origin_of(&planner, fault) == *want);
    }
    let exit = origin_of(&planner, ArrayFault::Supply(NodeId::new(8)));
    assert!(rt; exit == Origin::OfPlace(2));
    Ok(())
}

// After those arcs, each shop has one for what is missing there: at the penalty of all places, or
// at its own.
#[test]
fn penalties_have_origins(rt: HostRuntime) -> Result<(), Fail> {
    let row = ROWS[3];
    let Some(planner) = problem_of(rt.alloc(), &row.wants, &row.own, 3, row.policy)? else {
        assert!(rt; false);
        return Ok(());
    };
    let arcs = [
        (6, Origin::OfPlace(1)),
        (7, Origin::OfAll),
        (8, Origin::OfPenalty(4)),
        (9, Origin::OfAll),
    ];
    for (arc, want) in &arcs {
        let fault = ArrayFault::Arc(ArcId::new(*arc), Code::Cost);
        assert!(rt; origin_of(&planner, fault) == *want);
    }
    Ok(())
}
