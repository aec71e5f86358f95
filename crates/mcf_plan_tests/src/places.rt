//! Planners' problems: their faults, and what they say of themselves.
use mcf_model::{ModelFault, RouteFault, RouteRow, Step, all_faults, some_earn};
use mcf_places::{
    Bounds, Place, Planner, PlannerFault, Policy, misses_least, missing_cost, model_of, plan_of,
};
use mcf_text::NoMemory;
use std::alloc::Global;
use std::test::Fail;

const ROUTE: RouteRow = RouteRow {
    tail: 1,
    head: 2,
    first_step: 0,
    step_count: 0,
    least: 0,
    last_most: None,
    last_cost: 3,
    both: false,
};

const POLICY: Policy = Policy {
    unused: true,
    short: true,
    penalty: Some(5),
};

const WIDE: Bounds = Bounds {
    least: 0,
    most: None,
    cost: 1,
};

// The second of two places, a route between them, penalties of both places and of all, and the
// faults of the problem.
#[derive(Clone, Copy)]
struct FaultRow {
    supply: i64,
    through: Option<Bounds>,
    own: [Option<i64>; 2],
    route: RouteRow,
    penalty: Option<i64>,
    faults: &'static [PlannerFault],
}

const GOOD: FaultRow = FaultRow {
    supply: -4,
    through: Some(WIDE),
    own: [None, None],
    route: ROUTE,
    penalty: Some(5),
    faults: &[],
};

const UNLIMITED: PlannerFault = PlannerFault::Routes(ModelFault {
    route: 1,
    what: RouteFault::NoLimit,
});

const NOWHERE: PlannerFault = PlannerFault::Routes(ModelFault {
    route: 1,
    what: RouteFault::Place,
});

const BACK_AND_FORTH: PlannerFault = PlannerFault::Routes(ModelFault {
    route: 1,
    what: RouteFault::BothWays,
});

const ROWS: [FaultRow; 19] = [
    GOOD,
    FaultRow {
        supply: i64::MIN,
        faults: &[PlannerFault::Total],
        ..GOOD
    },
    FaultRow {
        penalty: Some(-1),
        faults: &[PlannerFault::Penalty],
        ..GOOD
    },
    FaultRow {
        own: [None, Some(0)],
        penalty: None,
        ..GOOD
    },
    FaultRow {
        own: [None, Some(-1)],
        faults: &[PlannerFault::BelowPenalty(2)],
        ..GOOD
    },
    FaultRow {
        own: [Some(7), None],
        faults: &[PlannerFault::IdlePenalty(1)],
        ..GOOD
    },
    FaultRow {
        own: [Some(7), None],
        penalty: None,
        faults: &[PlannerFault::IdlePenalty(1), PlannerFault::NoPenalty(2)],
        ..GOOD
    },
    FaultRow {
        supply: 0,
        own: [None, Some(7)],
        penalty: None,
        ..GOOD
    },
    FaultRow {
        own: [Some(-7), Some(-1)],
        penalty: Some(-1),
        faults: &[
            PlannerFault::Penalty,
            PlannerFault::BelowPenalty(1),
            PlannerFault::BelowPenalty(2),
            PlannerFault::IdlePenalty(1),
        ],
        ..GOOD
    },
    FaultRow {
        through: Some(Bounds { cost: -1, ..WIDE }),
        faults: &[UNLIMITED],
        ..GOOD
    },
    FaultRow {
        through: Some(Bounds { cost: -1, ..WIDE }),
        route: RouteRow {
            last_most: Some(i64::MAX),
            ..ROUTE
        },
        faults: &[PlannerFault::NoLimit(2)],
        ..GOOD
    },
    // all amounts together are 10^18 - 1, and one more is the greatest limit
    FaultRow {
        through: Some(Bounds { cost: -1, ..WIDE }),
        route: RouteRow {
            last_most: Some(999_999_999_999_999_991),
            ..ROUTE
        },
        ..GOOD
    },
    // they are 10^18
    FaultRow {
        through: Some(Bounds { cost: -1, ..WIDE }),
        route: RouteRow {
            last_most: Some(999_999_999_999_999_992),
            ..ROUTE
        },
        faults: &[PlannerFault::NoLimit(2)],
        ..GOOD
    },
    FaultRow {
        through: Some(Bounds {
            cost: -1,
            most: Some(9),
            ..WIDE
        }),
        faults: &[UNLIMITED],
        ..GOOD
    },
    FaultRow {
        route: RouteRow {
            both: true,
            ..ROUTE
        },
        ..GOOD
    },
    FaultRow {
        route: RouteRow {
            both: true,
            least: 1,
            ..ROUTE
        },
        faults: &[BACK_AND_FORTH],
        ..GOOD
    },
    FaultRow {
        through: None,
        route: RouteRow {
            both: true,
            ..ROUTE
        },
        ..GOOD
    },
    FaultRow {
        route: RouteRow { head: 3, ..ROUTE },
        faults: &[NOWHERE],
        ..GOOD
    },
    FaultRow {
        supply: i64::MIN,
        penalty: Some(-1),
        through: Some(Bounds { cost: -1, ..WIDE }),
        route: RouteRow {
            head: 3,
            both: true,
            ..ROUTE
        },
        faults: &[
            PlannerFault::Total,
            PlannerFault::Penalty,
            PlannerFault::NoLimit(2),
            NOWHERE,
            UNLIMITED,
        ],
        ..GOOD
    },
];

// The result of making a problem.
type Made = Result<Planner, Vec<PlannerFault>>;

// Returns the problem of a row, or its faults.
fn problem_of(alloc: Global, row: &FaultRow) -> Result<Made, NoMemory> {
    let first = Place {
        supply: 4,
        through: None,
        penalty: row.own[0],
    };
    let second = Place {
        supply: row.supply,
        through: row.through,
        penalty: row.own[1],
    };
    let places = vec![in alloc; first, second]?;
    let steps: Vec<Step> = Vec::new(alloc);
    let routes = vec![in alloc; row.route]?;
    let policy = Policy {
        penalty: row.penalty,
        ..POLICY
    };
    Planner::of(alloc, places, steps, routes, policy)
}

// Returns whether the faults of a row are the expected ones.
fn is_as_said(alloc: Global, row: &FaultRow) -> Result<bool, NoMemory> {
    match problem_of(alloc, row)? {
        Ok(_) => Ok(row.faults.is_empty()),
        Err(faults) => Ok(faults.as_slice() == row.faults),
    }
}

#[test]
fn all_faults_are_named(rt: HostRuntime) -> Result<(), Fail> {
    let rows = ROWS;
    for row in &rows {
        let fits = is_as_said(rt.alloc(), row)?;
        assert!(rt; fits);
    }
    Ok(())
}

#[test]
fn a_problem_says_what_it_has(rt: HostRuntime) -> Result<(), Fail> {
    let row = GOOD;
    let Ok(planner) = problem_of(rt.alloc(), &row)? else {
        assert!(rt; false);
        return Ok(());
    };
    assert_eq!(rt; (planner.places().len(), planner.route_count()), (2, 1));
    assert_eq!(rt; (planner.row_count(), planner.returning().len()), (1, 0));
    let policy = planner.policy();
    assert!(rt; policy.unused && policy.short);
    Ok(())
}

// A place's own penalty, that of all places, what a missing unit costs, and whether as little as
// possible is to be missing.
const PENALTIES: [(Option<i64>, Option<i64>, i64, bool); 4] = [
    (None, None, 0, true),
    (None, Some(5), 5, false),
    (Some(7), Some(5), 7, false),
    (Some(0), None, 0, false),
];

#[test]
fn missing_units_cost_a_penalty(rt: HostRuntime) -> Result<(), Fail> {
    for (own, penalty, cost, is_least) in PENALTIES {
        let row = FaultRow {
            own: [None, own],
            penalty,
            ..GOOD
        };
        let place = Place {
            supply: -4,
            through: None,
            penalty: own,
        };
        assert_eq!(rt; missing_cost(Policy { penalty, ..POLICY }, place), cost);
        match problem_of(rt.alloc(), &row)? {
            Ok(planner) => assert_eq!(rt; misses_least(&planner), is_least),
            Err(_) => assert!(rt; false),
        }
    }
    Ok(())
}

#[test]
fn the_model_of_a_problem(rt: HostRuntime) -> Result<(), Fail> {
    let row = GOOD;
    let Ok(planner) = problem_of(rt.alloc(), &row)? else {
        assert!(rt; false);
        return Ok(());
    };
    let model = model_of(rt.alloc(), &planner, 4)?;
    assert_eq!(rt; (model.place_count(), model.route_count()), (6, 5));
    let supplies = [4i64, 0, 0, 0, 0, -4];
    assert!(rt; *model.supplies() == *supplies.as_slice());
    Ok(())
}

#[test]
fn a_plan_is_read_from_its_model(rt: HostRuntime) -> Result<(), Fail> {
    let row = GOOD;
    let Ok(planner) = problem_of(rt.alloc(), &row)? else {
        assert!(rt; false);
        return Ok(());
    };
    // the route, the bounds of the second place, what stays, what is missing, and the gate
    let plan = plan_of(rt.alloc(), &planner, &[3, 3, 1, 1, 1])?;
    let (carries, stays, missing) = ([3i128], [1i128, 0], [0i128, 1]);
    assert!(rt; plan.carries.as_slice() == carries.as_slice());
    assert!(rt; plan.stays.as_slice() == stays.as_slice());
    assert!(rt; plan.missing.as_slice() == missing.as_slice());
    Ok(())
}

#[test]
fn routes_are_judged_alone(rt: HostRuntime) -> Result<(), Fail> {
    let steps: [Step; 0] = [];
    let rows = [ROUTE];
    assert!(rt; !some_earn(&steps, &rows));
    let found = all_faults(rt.alloc(), 2, &steps, true, &rows)?;
    let want = [ModelFault {
        route: 1,
        what: RouteFault::NoLimit,
    }];
    assert!(rt; found.as_slice() == want.as_slice());
    Ok(())
}
