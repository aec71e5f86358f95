//! Plans of small models, by the engine of the suite.
use mcf_choice::Choice;
use mcf_flows::{Code, Side};
use mcf_instance::ArrayFault;
use mcf_model::{PlanModel, Planned, RouteRow, Step, arcs_of, reach_of, side_told, turned_if};
use mcf_planner::plan_with;
use mcf_text::{ArcId, NoMemory};
use std::alloc::Global;
use std::test::Fail;

/// A route of one step, one way.
pub(crate) const PLAIN: RouteRow = RouteRow {
    tail: 1,
    head: 2,
    first_step: 0,
    step_count: 0,
    least: 0,
    last_most: None,
    last_cost: 0,
    both: false,
};

// A model of three places and three routes, of which the first has steps before its last; and its
// least plan: the amount that each route carries, and the cost.
#[derive(Clone, Copy)]
struct PlanRow {
    supplies: [i64; 3],
    routes: [RouteRow; 3],
    carries: [i128; 3],
    cost: i128,
}

static STEPS: [Step; 1] = [Step { most: 5, cost: 1 }];

const ROWS: [PlanRow; 3] = [
    // a mill and two towns, with limits
    PlanRow {
        supplies: [30, -18, -12],
        routes: [
            RouteRow {
                tail: 1,
                head: 2,
                last_most: Some(15),
                last_cost: 4,
                ..PLAIN
            },
            RouteRow {
                tail: 1,
                head: 3,
                last_most: Some(20),
                last_cost: 7,
                ..PLAIN
            },
            RouteRow {
                tail: 3,
                head: 2,
                last_most: Some(10),
                last_cost: 2,
                ..PLAIN
            },
        ],
        carries: [15, 15, 3],
        cost: 171,
    },
    // a step, no limits, and a route both ways that costs nothing
    PlanRow {
        supplies: [30, -18, -12],
        routes: [
            RouteRow {
                step_count: 1,
                tail: 1,
                head: 2,
                last_most: None,
                last_cost: 3,
                ..PLAIN
            },
            RouteRow {
                tail: 1,
                head: 3,
                last_most: None,
                last_cost: 2,
                ..PLAIN
            },
            RouteRow {
                both: true,
                tail: 2,
                head: 3,
                last_most: None,
                last_cost: 0,
                ..PLAIN
            },
        ],
        carries: [5, 25, -13],
        cost: 55,
    },
    // a least amount that another route has to carry back
    PlanRow {
        supplies: [0, 0, 0],
        routes: [
            RouteRow {
                least: 4,
                tail: 1,
                head: 2,
                last_most: Some(9),
                last_cost: 5,
                ..PLAIN
            },
            RouteRow {
                tail: 2,
                head: 1,
                last_most: Some(9),
                last_cost: -1,
                ..PLAIN
            },
            RouteRow {
                tail: 1,
                head: 3,
                last_most: Some(0),
                last_cost: 0,
                ..PLAIN
            },
        ],
        carries: [4, 4, 0],
        cost: 16,
    },
];

/// Returns the model of supplies and routes.
pub(crate) fn model_of(
    alloc: Global,
    supplies: &[i64; 3],
    routes: &[RouteRow; 3],
) -> Result<Option<PlanModel>, NoMemory> {
    let made = PlanModel::of(
        vec![in alloc; supplies[0], supplies[1], supplies[2]]?,
        vec![in alloc; STEPS[0]]?,
        vec![in alloc; routes[0], routes[1], routes[2]]?,
    );
    match made {
        Ok(model) => Ok(Some(model)),
        Err(_) => Ok(None),
    }
}

// Returns whether the plan of a row is the expected one.
fn is_as_said(alloc: Global, row: &PlanRow) -> Result<bool, NoMemory> {
    let Some(model) = model_of(alloc, &row.supplies, &row.routes)? else {
        return Ok(false);
    };
    match plan_with(alloc, Choice::default(), &model)? {
        Planned::Plan(plan) => Ok(
            plan.carries.as_slice() == row.carries.as_slice() && plan.cost == row.cost,
        ),
        Planned::NoPlan(_) | Planned::Beyond(_) => Ok(false),
    }
}

// Returns whether the answer is this fault of the network.
fn is_fault(planned: &Planned, want: ArrayFault) -> bool {
    match planned {
        Planned::Beyond(fault) => *fault == want,
        _ => false,
    }
}

#[test]
fn plans_are_least(rt: HostRuntime) -> Result<(), Fail> {
    let rows = ROWS;
    for row in &rows {
        let fits = is_as_said(rt.alloc(), row)?;
        assert!(rt; fits);
    }
    Ok(())
}

#[test]
fn without_a_balance_all_places_are_a_bottleneck(rt: HostRuntime) -> Result<(), Fail> {
    let rows = ROWS;
    let Some(model) = model_of(rt.alloc(), &[30, -18, -13], &rows[1].routes)? else {
        assert!(rt; false);
        return Ok(());
    };
    let Planned::NoPlan(found) = plan_with(rt.alloc(), Choice::default(), &model)? else {
        assert!(rt; false);
        return Ok(());
    };
    assert!(rt; found.side == Side::Take);
    assert_eq!(rt; found.places.len(), 3);
    Ok(())
}

#[test]
fn a_limit_beyond_the_limits_is_named(rt: HostRuntime) -> Result<(), Fail> {
    let routes = [
        RouteRow {
            tail: 1,
            head: 2,
            last_most: Some(15),
            last_cost: 4,
            ..PLAIN
        },
        RouteRow {
            tail: 1,
            head: 3,
            last_most: Some(i64::MAX),
            last_cost: 7,
            ..PLAIN
        },
        RouteRow {
            tail: 3,
            head: 2,
            last_most: Some(10),
            last_cost: 2,
            ..PLAIN
        },
    ];
    let Some(model) = model_of(rt.alloc(), &[30, -18, -12], &routes)? else {
        assert!(rt; false);
        return Ok(());
    };
    let planned = plan_with(rt.alloc(), Choice::default(), &model)?;
    let named = is_fault(&planned, ArrayFault::Arc(ArcId::new(2), Code::Bound));
    assert!(rt; named);
    Ok(())
}

#[test]
fn the_network_of_a_model(rt: HostRuntime) -> Result<(), Fail> {
    let alloc = rt.alloc();
    let rows = ROWS;
    let Some(model) = model_of(alloc, &rows[1].supplies, &rows[1].routes)? else {
        assert!(rt; false);
        return Ok(());
    };
    assert_eq!(rt; reach_of(&model), 61);
    let arcs = arcs_of(alloc, 61, &model)?;
    assert_eq!(rt; arcs.len(), 5);
    Ok(())
}

#[test]
fn other_places_are_on_the_other_side(rt: HostRuntime) -> Result<(), Fail> {
    let tests = (
        turned_if(true, false),
        turned_if(false, true),
        turned_if(true, true),
    );
    assert!(rt; tests.0 && tests.1 && !tests.2);
    let sides = (side_told(true, Side::Send), side_told(true, Side::Take));
    assert!(rt; sides.0 == Side::Take && sides.1 == Side::Send);
    let same = side_told(false, Side::Take);
    assert!(rt; same == Side::Take);
    Ok(())
}
