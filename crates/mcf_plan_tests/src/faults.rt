//! Faults of models.
use mcf_model::{ModelFault, PlanModel, RouteFault, RouteRow, Step};
use mcf_text::NoMemory;
use std::alloc::Global;
use std::test::Fail;

// A route of a model of two places, and its fault, if it has one.
#[derive(Clone, Copy)]
struct FaultRow {
    route: RouteRow,
    steps: [Step; 2],
    fault: Option<RouteFault>,
}

const PLAIN: [Step; 2] = [Step { most: 5, cost: 1 }, Step { most: 5, cost: 2 }];

const GOOD: RouteRow = RouteRow {
    tail: 1,
    head: 2,
    first_step: 0,
    step_count: 2,
    least: 0,
    last_most: Some(7),
    last_cost: 3,
    both: false,
};

const ROWS: [FaultRow; 8] = [
    FaultRow {
        route: GOOD,
        steps: PLAIN,
        fault: None,
    },
    FaultRow {
        route: RouteRow { tail: 0, ..GOOD },
        steps: PLAIN,
        fault: Some(RouteFault::Place),
    },
    FaultRow {
        route: RouteRow { head: 3, ..GOOD },
        steps: PLAIN,
        fault: Some(RouteFault::Place),
    },
    FaultRow {
        route: RouteRow {
            first_step: 1,
            ..GOOD
        },
        steps: PLAIN,
        fault: Some(RouteFault::Steps),
    },
    FaultRow {
        route: GOOD,
        steps: [Step { most: 5, cost: 1 }, Step { most: -1, cost: 2 }],
        fault: Some(RouteFault::Room),
    },
    FaultRow {
        route: RouteRow {
            last_cost: 1,
            ..GOOD
        },
        steps: PLAIN,
        fault: Some(RouteFault::FallingCost),
    },
    FaultRow {
        route: RouteRow {
            least: 1,
            both: true,
            ..GOOD
        },
        steps: PLAIN,
        fault: Some(RouteFault::BothWays),
    },
    FaultRow {
        route: RouteRow {
            step_count: 0,
            last_most: None,
            last_cost: -1,
            ..GOOD
        },
        steps: PLAIN,
        fault: Some(RouteFault::NoLimit),
    },
];

// Returns whether the second route of a model, after a route without fault, has the expected fault.
fn is_as_said(alloc: Global, row: &FaultRow) -> Result<bool, NoMemory> {
    let supplies = vec![in alloc; 4, -4]?;
    let steps = vec![in alloc; row.steps[0], row.steps[1]]?;
    let first = RouteRow {
        step_count: 0,
        ..GOOD
    };
    let routes = vec![in alloc; first, row.route]?;
    let found = match PlanModel::of(supplies, steps, routes) {
        Ok(_) => None,
        Err(fault) => Some(fault),
    };
    let want = match row.fault {
        Some(what) => Some(ModelFault { route: 2, what }),
        None => None,
    };
    Ok(found == want)
}

#[test]
fn the_first_thing_wrong_is_named(rt: HostRuntime) -> Result<(), Fail> {
    let rows = ROWS;
    for row in &rows {
        let fits = is_as_said(rt.alloc(), row)?;
        assert!(rt; fits);
    }
    Ok(())
}

#[test]
fn a_model_says_how_large_it_is(rt: HostRuntime) -> Result<(), Fail> {
    let alloc = rt.alloc();
    let Ok(model) = PlanModel::of(
        vec![in alloc; 4, -4]?,
        vec![in alloc; PLAIN[0], PLAIN[1]]?,
        vec![in alloc; GOOD]?,
    ) else {
        assert!(rt; false);
        return Ok(());
    };
    assert_eq!(rt; (model.place_count(), model.route_count()), (2, 1));
    let supplies = [4i64, -4];
    assert!(rt; *model.supplies() == *supplies.as_slice());
    Ok(())
}
