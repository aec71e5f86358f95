//! Plans of small random models. `python/tests/plans.py` writes the rows, and finds their least
//! costs by trying all plans.
use mcf_choice::Choice;
use mcf_model::{PlanModel, Planned, RouteRow, Step};
use mcf_planner::plan_with;
use mcf_text::NoMemory;
use std::alloc::Global;
use std::test::Fail;

// A model of three places and three routes, with one step each in the table, and the cost of its
// least plan, or `None` if it has no plan.
#[derive(Clone, Copy)]
struct TriedRow {
    supplies: [i64; 3],
    steps: [Step; 3],
    routes: [RouteRow; 3],
    cost: Option<i128>,
}

const ROWS: [TriedRow; 16] = [
    TriedRow {
        supplies: [-4, 4, 0],
        steps: [
            Step { most: 0, cost: -2 },
            Step { most: 1, cost: 3 },
            Step { most: 1, cost: -3 },
        ],
        routes: [
            RouteRow {
                tail: 2,
                head: 3,
                first_step: 0,
                step_count: 1,
                least: 0,
                last_most: Some(3),
                last_cost: 1,
                both: false,
            },
            RouteRow {
                tail: 1,
                head: 2,
                first_step: 1,
                step_count: 1,
                least: 0,
                last_most: Some(4),
                last_cost: 6,
                both: true,
            },
            RouteRow {
                tail: 3,
                head: 3,
                first_step: 2,
                step_count: 1,
                least: 1,
                last_most: Some(3),
                last_cost: 2,
                both: false,
            },
        ],
        cost: Some(18),
    },
    TriedRow {
        supplies: [0, -4, 4],
        steps: [
            Step { most: 0, cost: 3 },
            Step { most: 0, cost: 0 },
            Step { most: 0, cost: 0 },
        ],
        routes: [
            RouteRow {
                tail: 3,
                head: 1,
                first_step: 0,
                step_count: 1,
                least: 1,
                last_most: Some(1),
                last_cost: 5,
                both: false,
            },
            RouteRow {
                tail: 2,
                head: 1,
                first_step: 1,
                step_count: 0,
                least: 0,
                last_most: None,
                last_cost: 2,
                both: false,
            },
            RouteRow {
                tail: 1,
                head: 2,
                first_step: 2,
                step_count: 0,
                least: -1,
                last_most: None,
                last_cost: 2,
                both: false,
            },
        ],
        cost: None,
    },
    TriedRow {
        supplies: [2, 1, -3],
        steps: [
            Step { most: 1, cost: -3 },
            Step { most: 3, cost: 5 },
            Step { most: 2, cost: 2 },
        ],
        routes: [
            RouteRow {
                tail: 3,
                head: 2,
                first_step: 0,
                step_count: 1,
                least: 1,
                last_most: Some(5),
                last_cost: 0,
                both: false,
            },
            RouteRow {
                tail: 2,
                head: 3,
                first_step: 1,
                step_count: 1,
                least: 0,
                last_most: Some(2),
                last_cost: 6,
                both: true,
            },
            RouteRow {
                tail: 1,
                head: 2,
                first_step: 2,
                step_count: 1,
                least: 0,
                last_most: Some(3),
                last_cost: 5,
                both: true,
            },
        ],
        cost: Some(22),
    },
    TriedRow {
        supplies: [1, 0, -1],
        steps: [
            Step { most: 0, cost: 0 },
            Step { most: 0, cost: 0 },
            Step { most: 1, cost: 6 },
        ],
        routes: [
            RouteRow {
                tail: 1,
                head: 2,
                first_step: 0,
                step_count: 1,
                least: 0,
                last_most: None,
                last_cost: 6,
                both: true,
            },
            RouteRow {
                tail: 2,
                head: 3,
                first_step: 1,
                step_count: 0,
                least: 0,
                last_most: None,
                last_cost: 2,
                both: true,
            },
            RouteRow {
                tail: 3,
                head: 1,
                first_step: 2,
                step_count: 1,
                least: 0,
                last_most: None,
                last_cost: 6,
                both: true,
            },
        ],
        cost: Some(6),
    },
    TriedRow {
        supplies: [-4, 2, -4],
        steps: [
            Step { most: 0, cost: 0 },
            Step { most: 0, cost: 0 },
            Step { most: 0, cost: 0 },
        ],
        routes: [
            RouteRow {
                tail: 1,
                head: 3,
                first_step: 0,
                step_count: 0,
                least: 0,
                last_most: Some(3),
                last_cost: 2,
                both: false,
            },
            RouteRow {
                tail: 1,
                head: 2,
                first_step: 1,
                step_count: 0,
                least: 2,
                last_most: None,
                last_cost: 5,
                both: false,
            },
            RouteRow {
                tail: 2,
                head: 1,
                first_step: 2,
                step_count: 0,
                least: 1,
                last_most: Some(3),
                last_cost: 4,
                both: false,
            },
        ],
        cost: None,
    },
    TriedRow {
        supplies: [-4, -4, 8],
        steps: [
            Step { most: 0, cost: 0 },
            Step { most: 1, cost: 3 },
            Step { most: 1, cost: 0 },
        ],
        routes: [
            RouteRow {
                tail: 3,
                head: 1,
                first_step: 0,
                step_count: 0,
                least: 0,
                last_most: None,
                last_cost: 6,
                both: false,
            },
            RouteRow {
                tail: 2,
                head: 3,
                first_step: 1,
                step_count: 1,
                least: 1,
                last_most: Some(4),
                last_cost: 6,
                both: false,
            },
            RouteRow {
                tail: 1,
                head: 2,
                first_step: 2,
                step_count: 1,
                least: 0,
                last_most: None,
                last_cost: 5,
                both: false,
            },
        ],
        cost: Some(77),
    },
    TriedRow {
        supplies: [-2, -3, 5],
        steps: [
            Step { most: 2, cost: 1 },
            Step { most: 0, cost: 0 },
            Step { most: 0, cost: 1 },
        ],
        routes: [
            RouteRow {
                tail: 3,
                head: 1,
                first_step: 0,
                step_count: 1,
                least: 2,
                last_most: None,
                last_cost: 1,
                both: false,
            },
            RouteRow {
                tail: 1,
                head: 2,
                first_step: 1,
                step_count: 0,
                least: -1,
                last_most: None,
                last_cost: 6,
                both: false,
            },
            RouteRow {
                tail: 1,
                head: 3,
                first_step: 2,
                step_count: 1,
                least: 2,
                last_most: None,
                last_cost: 3,
                both: false,
            },
        ],
        cost: Some(31),
    },
    TriedRow {
        supplies: [-2, 3, -1],
        steps: [
            Step { most: 0, cost: 0 },
            Step { most: 2, cost: 3 },
            Step { most: 0, cost: -3 },
        ],
        routes: [
            RouteRow {
                tail: 3,
                head: 2,
                first_step: 0,
                step_count: 0,
                least: 0,
                last_most: Some(5),
                last_cost: 5,
                both: true,
            },
            RouteRow {
                tail: 2,
                head: 3,
                first_step: 1,
                step_count: 1,
                least: 0,
                last_most: Some(4),
                last_cost: 4,
                both: true,
            },
            RouteRow {
                tail: 2,
                head: 1,
                first_step: 2,
                step_count: 1,
                least: 0,
                last_most: Some(5),
                last_cost: 6,
                both: false,
            },
        ],
        cost: Some(15),
    },
    TriedRow {
        supplies: [-2, 4, -2],
        steps: [
            Step { most: 1, cost: 5 },
            Step { most: 0, cost: 0 },
            Step { most: 0, cost: 0 },
        ],
        routes: [
            RouteRow {
                tail: 1,
                head: 2,
                first_step: 0,
                step_count: 1,
                least: 2,
                last_most: Some(0),
                last_cost: 5,
                both: false,
            },
            RouteRow {
                tail: 1,
                head: 2,
                first_step: 1,
                step_count: 0,
                least: 0,
                last_most: Some(1),
                last_cost: 5,
                both: true,
            },
            RouteRow {
                tail: 1,
                head: 3,
                first_step: 2,
                step_count: 0,
                least: 0,
                last_most: Some(1),
                last_cost: 5,
                both: true,
            },
        ],
        cost: None,
    },
    TriedRow {
        supplies: [0, 3, -3],
        steps: [
            Step { most: 0, cost: 2 },
            Step { most: 0, cost: 0 },
            Step { most: 0, cost: 0 },
        ],
        routes: [
            RouteRow {
                tail: 2,
                head: 1,
                first_step: 0,
                step_count: 1,
                least: 2,
                last_most: None,
                last_cost: 5,
                both: false,
            },
            RouteRow {
                tail: 2,
                head: 3,
                first_step: 1,
                step_count: 0,
                least: 0,
                last_most: None,
                last_cost: 3,
                both: true,
            },
            RouteRow {
                tail: 1,
                head: 3,
                first_step: 2,
                step_count: 0,
                least: 0,
                last_most: Some(4),
                last_cost: 4,
                both: true,
            },
        ],
        cost: Some(21),
    },
    TriedRow {
        supplies: [-3, -1, 4],
        steps: [
            Step { most: 1, cost: 1 },
            Step { most: 1, cost: 3 },
            Step { most: 0, cost: 0 },
        ],
        routes: [
            RouteRow {
                tail: 2,
                head: 1,
                first_step: 0,
                step_count: 1,
                least: 0,
                last_most: None,
                last_cost: 3,
                both: true,
            },
            RouteRow {
                tail: 3,
                head: 2,
                first_step: 1,
                step_count: 1,
                least: 0,
                last_most: Some(3),
                last_cost: 4,
                both: false,
            },
            RouteRow {
                tail: 3,
                head: 2,
                first_step: 2,
                step_count: 0,
                least: -1,
                last_most: None,
                last_cost: 1,
                both: false,
            },
        ],
        cost: Some(11),
    },
    TriedRow {
        supplies: [0, -1, 1],
        steps: [
            Step { most: 2, cost: 1 },
            Step { most: 2, cost: 0 },
            Step { most: 0, cost: 0 },
        ],
        routes: [
            RouteRow {
                tail: 3,
                head: 1,
                first_step: 0,
                step_count: 1,
                least: 0,
                last_most: Some(2),
                last_cost: 3,
                both: true,
            },
            RouteRow {
                tail: 3,
                head: 1,
                first_step: 1,
                step_count: 1,
                least: 0,
                last_most: Some(3),
                last_cost: 2,
                both: true,
            },
            RouteRow {
                tail: 2,
                head: 3,
                first_step: 2,
                step_count: 0,
                least: 0,
                last_most: Some(3),
                last_cost: 4,
                both: true,
            },
        ],
        cost: Some(4),
    },
    TriedRow {
        supplies: [-2, -1, 3],
        steps: [
            Step { most: 0, cost: 0 },
            Step { most: 2, cost: 2 },
            Step { most: 0, cost: 0 },
        ],
        routes: [
            RouteRow {
                tail: 1,
                head: 2,
                first_step: 0,
                step_count: 1,
                least: 0,
                last_most: Some(2),
                last_cost: 4,
                both: true,
            },
            RouteRow {
                tail: 3,
                head: 1,
                first_step: 1,
                step_count: 1,
                least: 0,
                last_most: None,
                last_cost: 3,
                both: false,
            },
            RouteRow {
                tail: 1,
                head: 2,
                first_step: 2,
                step_count: 0,
                least: 0,
                last_most: Some(4),
                last_cost: 5,
                both: false,
            },
        ],
        cost: Some(11),
    },
    TriedRow {
        supplies: [-4, -3, 7],
        steps: [
            Step { most: 1, cost: 2 },
            Step { most: 0, cost: 0 },
            Step { most: 3, cost: 0 },
        ],
        routes: [
            RouteRow {
                tail: 2,
                head: 3,
                first_step: 0,
                step_count: 1,
                least: 2,
                last_most: Some(5),
                last_cost: 2,
                both: false,
            },
            RouteRow {
                tail: 3,
                head: 3,
                first_step: 1,
                step_count: 0,
                least: 0,
                last_most: Some(4),
                last_cost: 5,
                both: false,
            },
            RouteRow {
                tail: 2,
                head: 3,
                first_step: 2,
                step_count: 1,
                least: 1,
                last_most: Some(3),
                last_cost: 3,
                both: false,
            },
        ],
        cost: None,
    },
    TriedRow {
        supplies: [2, 2, -4],
        steps: [
            Step { most: 2, cost: 0 },
            Step { most: 0, cost: 0 },
            Step { most: 0, cost: 0 },
        ],
        routes: [
            RouteRow {
                tail: 1,
                head: 2,
                first_step: 0,
                step_count: 1,
                least: 0,
                last_most: None,
                last_cost: 6,
                both: true,
            },
            RouteRow {
                tail: 1,
                head: 2,
                first_step: 1,
                step_count: 0,
                least: -1,
                last_most: None,
                last_cost: 6,
                both: false,
            },
            RouteRow {
                tail: 2,
                head: 3,
                first_step: 2,
                step_count: 0,
                least: -1,
                last_most: None,
                last_cost: 3,
                both: false,
            },
        ],
        cost: Some(12),
    },
    TriedRow {
        supplies: [-3, 1, 3],
        steps: [
            Step { most: 2, cost: 1 },
            Step { most: 1, cost: 5 },
            Step { most: 0, cost: 0 },
        ],
        routes: [
            RouteRow {
                tail: 1,
                head: 2,
                first_step: 0,
                step_count: 1,
                least: 2,
                last_most: None,
                last_cost: 4,
                both: false,
            },
            RouteRow {
                tail: 2,
                head: 3,
                first_step: 1,
                step_count: 1,
                least: 0,
                last_most: None,
                last_cost: 5,
                both: true,
            },
            RouteRow {
                tail: 1,
                head: 3,
                first_step: 2,
                step_count: 0,
                least: 0,
                last_most: None,
                last_cost: 4,
                both: true,
            },
        ],
        cost: None,
    },
];

// Returns the cost of the least plan of a row, `None` if it has no plan, and a cost that no row has
// if its model has a fault.
fn cost_of(alloc: Global, row: &TriedRow) -> Result<Option<i128>, NoMemory> {
    let made = PlanModel::of(
        vec![in alloc; row.supplies[0], row.supplies[1], row.supplies[2]]?,
        vec![in alloc; row.steps[0], row.steps[1], row.steps[2]]?,
        vec![in alloc; row.routes[0], row.routes[1], row.routes[2]]?,
    );
    let Ok(model) = made else {
        return Ok(Some(i128::MIN));
    };
    match plan_with(alloc, Choice::default(), &model)? {
        Planned::Plan(plan) => Ok(Some(plan.cost)),
        Planned::NoPlan(_) | Planned::Beyond(_) => Ok(None),
    }
}

#[test]
fn six_rows_planned(rt: HostRuntime) -> Result<(), Fail> {
    let rows = ROWS;
    for row in &rows[..6] {
        let cost = cost_of(rt.alloc(), row)?;
        assert!(rt; cost == row.cost);
    }
    Ok(())
}

#[test]
fn plans_cost_what_trying_all_finds(rt: HostRuntime) -> Result<(), Fail> {
    let rows = ROWS;
    for row in &rows[6..] {
        let cost = cost_of(rt.alloc(), row)?;
        assert!(rt; cost == row.cost);
    }
    Ok(())
}
