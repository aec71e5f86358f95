//! Rows of routes that are used both ways at a place with bounds.
use mcf_choice::Choice;
use mcf_flows::Code;
use mcf_instance::ArrayFault;
use mcf_model::{RouteRow, Step};
use mcf_places::{
    Bounds, LeastPlannerPlan, Origin, Place, Planner, PlannerAnswer, Policy, least, origin_of,
};
use mcf_planner::Planner as Engine;
use mcf_text::{ArcId, NoMemory};
use std::alloc::Global;
use std::test::Fail;

const ALL: Policy = Policy {
    unused: false,
    short: false,
    penalty: None,
};

// Returns a road between two places, which is used both ways at cost 1.
fn road(tail: u32, head: u32) -> RouteRow {
    RouteRow {
        tail,
        head,
        first_step: 0,
        step_count: 0,
        least: 0,
        last_most: None,
        last_cost: 1,
        both: true,
    }
}

// Returns a problem: a mill gives four units to a town, and at most three of them pass through the
// depot between both. One row goes from the mill to the town, past the depot, at cost 9.
fn problem(alloc: Global) -> Result<Option<Planner>, NoMemory> {
    let town = Place {
        supply: -4,
        through: None,
        penalty: None,
    };
    let depot = Place {
        supply: 0,
        through: Some(Bounds {
            least: 0,
            most: Some(3),
            cost: 0,
        }),
        penalty: None,
    };
    let mill = Place {
        supply: 4,
        through: None,
        penalty: None,
    };
    let past = RouteRow {
        both: false,
        last_cost: 9,
        ..road(3, 1)
    };
    let places = vec![in alloc; town, depot, mill]?;
    let steps: Vec<Step> = Vec::new(alloc);
    let rows = vec![in alloc; road(1, 2), past, road(2, 3)]?;
    match Planner::of(alloc, places, steps, rows, ALL)? {
        Ok(planner) => Ok(Some(planner)),
        Err(_) => Ok(None),
    }
}

#[test]
fn ways_back_are_routes_of_their_own(rt: HostRuntime) -> Result<(), Fail> {
    let Some(planner) = problem(rt.alloc())? else {
        assert!(rt; false);
        return Ok(());
    };
    assert_eq!(rt; (planner.row_count(), planner.route_count()), (3, 5));
    let returning = [1usize, 3];
    assert!(rt; planner.returning() == returning.as_slice());
    Ok(())
}

// Returns whether the plan is the expected one: one unit past the depot, and three by the ways back
// of both roads.
fn is_plan(found: &LeastPlannerPlan) -> bool {
    let carries = [0i128, 1, 0, 3, 3];
    found.plan.carries.as_slice() == carries.as_slice() && found.cost == 15
}

#[test]
fn bounds_count_what_comes_back(rt: HostRuntime) -> Result<(), Fail> {
    let Some(planner) = problem(rt.alloc())? else {
        assert!(rt; false);
        return Ok(());
    };
    let mut engine = Engine {
        choice: Choice::default(),
    };
    let PlannerAnswer::Least(found) = least(rt.alloc(), &mut engine, &planner)? else {
        assert!(rt; false);
        return Ok(());
    };
    assert!(rt; is_plan(&found));
    Ok(())
}

#[test]
fn ways_back_come_from_their_rows(rt: HostRuntime) -> Result<(), Fail> {
    let Some(planner) = problem(rt.alloc())? else {
        assert!(rt; false);
        return Ok(());
    };
    let arcs = [
        (3, Origin::OfRoute(3)),
        (4, Origin::OfRoute(1)),
        (5, Origin::OfRoute(3)),
        (6, Origin::OfPlace(2)),
    ];
    for (arc, want) in &arcs {
        let fault = ArrayFault::Arc(ArcId::new(*arc), Code::Bound);
        assert!(rt; origin_of(&planner, fault) == *want);
    }
    Ok(())
}
