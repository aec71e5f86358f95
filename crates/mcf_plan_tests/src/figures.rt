//! Figures of the routes of least plans.
use crate::plans::{PLAIN, model_of};
use mcf_choice::Choice;
use mcf_figures::{RouteFigures, groups_of, is_exact, route_figures};
use mcf_model::{PlanModel, Planned, RouteRow};
use mcf_planner::plan_with;
use mcf_text::NoMemory;
use std::alloc::Global;
use std::test::Fail;

// A model of three places and three routes, the figures of each route in its least plan, and the
// group of each place.
#[derive(Clone, Copy)]
pub(crate) struct FigureRow {
    pub(crate) supplies: [i64; 3],
    pub(crate) routes: [RouteRow; 3],
    free: [Option<i128>; 3],
    saves: [i128; 3],
    loose: [bool; 3],
    dearer: [Option<i128>; 3],
    groups: [usize; 3],
}

pub(crate) const ROWS: [FigureRow; 4] = [
    // the plan of the manual page
    FigureRow {
        supplies: [30, -18, -12],
        routes: [
            RouteRow {
                tail: 1,
                head: 2,
                last_most: Some(15),
                last_cost: 4,
                ..PLAIN
            },
            RouteRow {
                tail: 1,
                head: 3,
                last_most: Some(20),
                last_cost: 7,
                ..PLAIN
            },
            RouteRow {
                tail: 3,
                head: 2,
                last_most: Some(10),
                last_cost: 2,
                ..PLAIN
            },
        ],
        free: [Some(0), Some(5), Some(7)],
        saves: [5, 0, 0],
        loose: [false, true, true],
        dearer: [None, Some(0), Some(0)],
        groups: [1, 1, 1],
    },
    // a step, and no limits
    FigureRow {
        supplies: [30, -18, -12],
        routes: [
            RouteRow {
                step_count: 1,
                tail: 1,
                head: 2,
                last_most: None,
                last_cost: 3,
                ..PLAIN
            },
            RouteRow {
                tail: 1,
                head: 3,
                last_most: None,
                last_cost: 2,
                ..PLAIN
            },
            RouteRow {
                both: true,
                tail: 2,
                head: 3,
                last_most: None,
                last_cost: 0,
                ..PLAIN
            },
        ],
        free: [None, None, None],
        saves: [0, 0, 0],
        loose: [false, true, true],
        dearer: [Some(1), Some(0), Some(0)],
        groups: [1, 1, 1],
    },
    // a route both ways that is full on the way back
    FigureRow {
        supplies: [10, -10, 0],
        routes: [
            RouteRow {
                tail: 1,
                head: 3,
                last_most: Some(20),
                last_cost: 1,
                ..PLAIN
            },
            RouteRow {
                both: true,
                tail: 2,
                head: 3,
                last_most: Some(4),
                last_cost: 1,
                ..PLAIN
            },
            RouteRow {
                tail: 1,
                head: 2,
                last_most: Some(20),
                last_cost: 9,
                ..PLAIN
            },
        ],
        free: [Some(16), Some(0), Some(14)],
        saves: [0, 7, 0],
        loose: [true, false, true],
        dearer: [Some(0), None, Some(0)],
        groups: [1, 1, 1],
    },
    // a degenerate plan: the first route is full, and no unit is left for it; the prices are the
    // greatest of those that are 0 at most
    FigureRow {
        supplies: [10, -10, 0],
        routes: [
            RouteRow {
                tail: 1,
                head: 2,
                last_most: Some(10),
                last_cost: 1,
                ..PLAIN
            },
            RouteRow {
                tail: 1,
                head: 2,
                last_most: Some(20),
                last_cost: 3,
                ..PLAIN
            },
            RouteRow {
                tail: 2,
                head: 3,
                last_most: Some(5),
                last_cost: 1,
                ..PLAIN
            },
        ],
        free: [Some(0), Some(20), Some(5)],
        saves: [0, 0, 0],
        loose: [false, false, false],
        dearer: [None, Some(2), Some(2)],
        groups: [1, 2, 3],
    },
];

// Returns whether the saving of each route of a model is exact, and there is no other route.
fn are_exact(model: &PlanModel, groups: &[usize], saves: [i128; 3]) -> bool {
    for place in 0..3usize {
        if model.route_count() <= place || !is_exact(model, groups, place, saves[place]) {
            return false;
        }
    }
    model.route_count() == 3
}

// Returns whether the figures of each route of a row are the expected ones, and there are no more.
fn are_as_said(alloc: Global, row: &FigureRow) -> Result<bool, NoMemory> {
    let Some(model) = model_of(alloc, &row.supplies, &row.routes)? else {
        return Ok(false);
    };
    let Planned::Plan(plan) = plan_with(alloc, Choice::default(), &model)? else {
        return Ok(false);
    };
    let (prices, carries) = (plan.prices.as_slice(), plan.carries.as_slice());
    for place in 0..3usize {
        let want = RouteFigures {
            free: row.free[place],
            saves: row.saves[place],
            loose: row.loose[place],
            dearer: row.dearer[place],
        };
        if route_figures(&model, prices, carries, place) != Some(want) {
            return Ok(false);
        }
    }
    let Some(groups) = groups_of(alloc, &model, prices, carries)? else {
        return Ok(false);
    };
    let exact = are_exact(&model, &groups, row.saves);
    let grouped = groups.as_slice() == row.groups.as_slice();
    Ok(exact && grouped && route_figures(&model, prices, carries, 3).is_none())
}

#[test]
fn routes_have_their_figures(rt: HostRuntime) -> Result<(), Fail> {
    let rows = ROWS;
    for row in &rows {
        let fits = are_as_said(rt.alloc(), row)?;
        assert!(rt; fits);
    }
    Ok(())
}
