//! Problems over periods.
use mcf_choice::Choice;
use mcf_model::{RouteRow, Step};
use mcf_periods::{DepartureRow, PeriodRows, Store, flat};
use mcf_places::{Place, Planner, PlannerAnswer, PlannerFault, Policy, least};
use mcf_planner::Planner as Engine;
use mcf_text::NoMemory;
use std::alloc::Global;
use std::test::Fail;

// All that is given is sent, and all that is wanted arrives.
const STRICT: Policy = Policy {
    unused: false,
    short: false,
    penalty: None,
};

// A mill and a shop in three periods: the mill gives 6, then 4, and the shop wants 3 in the second
// period and 7 in the third.
const SUPPLIES: [i64; 6] = [6, 0, 4, -3, 0, -7];

// A route from the mill to a place. What is sent arrives one period later.
fn departure(head: u32, period: u32) -> DepartureRow {
    DepartureRow {
        row: RouteRow {
            tail: 1,
            head,
            first_step: 0,
            step_count: 0,
            least: 0,
            last_most: Some(6),
            last_cost: 2,
            both: false,
        },
        period,
        lead: 1,
    }
}

// The problem of both places, in which the routes lead to a place.
fn rows_of(alloc: Global, head: u32) -> Result<PeriodRows, NoMemory> {
    let mut places = Vec::new(alloc);
    for supply in SUPPLIES {
        places.push(Place {
            supply,
            through: None,
            penalty: None,
        })?;
    }
    let steps: Vec<Step> = Vec::new(alloc);
    let store = Store {
        place: 2,
        period: 2,
        most: Some(5),
        cost: 1,
    };
    let stores = vec![in alloc; store]?;
    let departures = vec![in alloc; departure(head, 1), departure(head, 2)]?;
    Ok(PeriodRows {
        count: 2,
        last: 3,
        places,
        steps,
        stores,
        departures,
    })
}

// The problem without periods.
fn made(alloc: Global, head: u32) -> Result<Result<Planner, Vec<PlannerFault>>, NoMemory> {
    let rows = rows_of(alloc, head)?;
    flat(alloc, rows, STRICT)
}

#[test]
fn stock_waits_for_a_later_period(rt: HostRuntime) -> Result<(), Fail> {
    let Ok(planner) = made(rt.alloc(), 2)? else {
        assert!(rt; false);
        return Ok(());
    };
    assert_eq!(rt; (planner.places().len(), planner.row_count()), (6, 3));
    let mut engine = Engine {
        choice: Choice::default(),
    };
    let PlannerAnswer::Least(found) = least(rt.alloc(), &mut engine, &planner)? else {
        assert!(rt; false);
        return Ok(());
    };
    // the shop keeps 3 of the 6 that the mill sends first
    let carries = [3i128, 6, 4];
    assert!(rt; found.plan.carries.as_slice() == carries.as_slice());
    assert_eq!(rt; found.cost, 23);
    Ok(())
}

#[test]
fn departures_to_no_place_are_faults(rt: HostRuntime) -> Result<(), Fail> {
    let Err(faults) = made(rt.alloc(), 3)? else {
        assert!(rt; false);
        return Ok(());
    };
    assert_eq!(rt; faults.len(), 2);
    Ok(())
}
