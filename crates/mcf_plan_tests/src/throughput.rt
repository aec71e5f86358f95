//! Bounds without a limit at a place, where some cost is below 0.
use mcf_choice::Choice;
use mcf_model::{RouteRow, Step};
use mcf_places::{
    Bounds, LeastPlannerPlan, Place, Planner, PlannerAnswer, Policy, least, model_of, place_earns,
};
use mcf_planner::Planner as Engine;
use mcf_text::NoMemory;
use std::alloc::Global;
use std::test::Fail;

const ALL: Policy = Policy {
    unused: false,
    short: false,
    penalty: None,
};

const TO_DEPOT: RouteRow = RouteRow {
    tail: 1,
    head: 2,
    first_step: 0,
    step_count: 0,
    least: 0,
    last_most: Some(3),
    last_cost: 2,
    both: false,
};

// Returns a problem: a mill gives four units to a town, and each unit that passes through the depot
// between both earns 1. Between depot and town, five units may go there, and five back.
fn problem(alloc: Global) -> Result<Option<Planner>, NoMemory> {
    let mill = Place {
        supply: 4,
        through: None,
        penalty: None,
    };
    let depot = Place {
        supply: 0,
        through: Some(Bounds {
            least: 0,
            most: None,
            cost: -1,
        }),
        penalty: None,
    };
    let town = Place {
        supply: -4,
        through: None,
        penalty: None,
    };
    let to_town = RouteRow {
        tail: 2,
        head: 3,
        last_most: Some(5),
        last_cost: 0,
        both: true,
        ..TO_DEPOT
    };
    let past = RouteRow {
        head: 3,
        last_most: Some(9),
        last_cost: 3,
        ..TO_DEPOT
    };
    let places = vec![in alloc; mill, depot, town]?;
    let steps: Vec<Step> = Vec::new(alloc);
    let rows = vec![in alloc; TO_DEPOT, to_town, past]?;
    match Planner::of(alloc, places, steps, rows, ALL)? {
        Ok(planner) => Ok(Some(planner)),
        Err(_) => Ok(None),
    }
}

// Returns whether the plan is the expected one: three units go by the depot, and two more that come
// back from the town.
fn is_plan(found: &LeastPlannerPlan) -> bool {
    let carries = [3i128, 5, 1, 2];
    found.plan.carries.as_slice() == carries.as_slice() && found.cost == 4
}

#[test]
fn as_much_passes_as_routes_bring(rt: HostRuntime) -> Result<(), Fail> {
    let Some(planner) = problem(rt.alloc())? else {
        assert!(rt; false);
        return Ok(());
    };
    let mut engine = Engine {
        choice: Choice::default(),
    };
    let PlannerAnswer::Least(found) = least(rt.alloc(), &mut engine, &planner)? else {
        assert!(rt; false);
        return Ok(());
    };
    assert!(rt; is_plan(&found));
    Ok(())
}

#[test]
fn its_model_has_a_limit(rt: HostRuntime) -> Result<(), Fail> {
    let Some(planner) = problem(rt.alloc())? else {
        assert!(rt; false);
        return Ok(());
    };
    let model = model_of(rt.alloc(), &planner, 0)?;
    assert_eq!(rt; (model.place_count(), model.route_count()), (8, 6));
    Ok(())
}

#[test]
fn passing_earns_below_a_cost_of_zero(rt: HostRuntime) -> Result<(), Fail> {
    let earning = Bounds {
        least: 0,
        most: None,
        cost: -1,
    };
    let idle = Bounds { cost: 0, ..earning };
    assert!(rt; place_earns(Some(earning)));
    assert!(rt; !place_earns(Some(idle)) && !place_earns(None));
    Ok(())
}
