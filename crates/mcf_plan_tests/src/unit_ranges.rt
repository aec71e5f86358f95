//! For how many units the prices of a least plan hold, found by hand from the ways between places.
use crate::plans::{PLAIN, model_of};
use mcf_choice::Choice;
use mcf_model::{PlanModel, RouteRow, Step};
use mcf_places::{Place, Planner, PlannerAnswer, Policy, least};
use mcf_planner::Planner as Engine;
use mcf_text::NoMemory;
use mcf_unit_ranges::{
    Ends, UnitsRange, planner_room_range, planner_units_range, room_range, units_range,
};
use std::alloc::Global;
use std::test::Fail;

// A depot sends 30, of which a town wants 18 and a mill 12. The route from the depot to the town
// takes 15 and is full; 15 go to the mill, which sends 3 of them on to the town.
const SUPPLIES: [i64; 3] = [30, -18, -12];

const ROUTES: [RouteRow; 3] = [
    RouteRow {
        last_most: Some(15),
        last_cost: 4,
        ..PLAIN
    },
    RouteRow {
        head: 3,
        last_most: Some(20),
        last_cost: 7,
        ..PLAIN
    },
    RouteRow {
        tail: 3,
        last_most: Some(10),
        last_cost: 2,
        ..PLAIN
    },
];

// The same without limits, but for the first route.
const OPEN_ROUTES: [RouteRow; 3] = [
    RouteRow {
        last_most: Some(15),
        last_cost: 4,
        ..PLAIN
    },
    RouteRow {
        head: 3,
        last_cost: 7,
        ..PLAIN
    },
    RouteRow {
        tail: 3,
        last_cost: 2,
        ..PLAIN
    },
];

// The prices of both plans.
const PRICES: [i128; 3] = [9, 0, 2];

// Two places, and how many units more may come in at the first and be taken out at the second at
// the difference of their prices: with limits, and without.
const UNITS: [(u32, u32, Option<i64>, Option<i64>); 7] = [
    // by the mill, where 20 may come and 10 may go on
    (1, 2, Some(5), None),
    (1, 3, Some(5), None),
    (3, 2, Some(7), None),
    // the units replace flow that leaves the mill, or flow that reaches it
    (2, 1, Some(3), Some(3)),
    (2, 3, Some(3), Some(3)),
    (3, 1, Some(15), Some(15)),
    // nothing moves
    (1, 1, None, None),
];

// For how many units more room saves what the prices say: of the full route as long as the mill
// sends something on, and 0 for any number on the others.
const ROOM: [Option<i64>; 3] = [Some(3), None, None];

// Returns the range of units between two places, if they are places.
fn units_between(
    alloc: Global,
    model: &PlanModel,
    from: u32,
    to: u32,
) -> Result<Option<UnitsRange>, NoMemory> {
    let places = model.place_count();
    if from == 0 || to == 0 || places < from as usize || places < to as usize {
        return Ok(None);
    }
    let mut engine = Engine {
        choice: Choice::default(),
    };
    units_range(alloc, &mut engine, model, &PRICES, Ends { from, to })
}

// Returns whether each pair of places has the expected range.
fn have_ranges(alloc: Global, model: &PlanModel, open: bool) -> Result<bool, NoMemory> {
    for place in 0..7usize {
        let (from, to, limited, unlimited) = UNITS[place];
        let most = if open { unlimited } else { limited };
        if units_between(alloc, model, from, to)? != Some(UnitsRange { most }) {
            return Ok(false);
        }
    }
    Ok(true)
}

#[test]
fn units_have_their_ranges(rt: HostRuntime) -> Result<(), Fail> {
    let Some(model) = model_of(rt.alloc(), &SUPPLIES, &ROUTES)? else {
        assert!(rt; false);
        return Ok(());
    };
    assert!(rt; have_ranges(rt.alloc(), &model, false)?);
    let Some(open) = model_of(rt.alloc(), &SUPPLIES, &OPEN_ROUTES)? else {
        assert!(rt; false);
        return Ok(());
    };
    assert!(rt; have_ranges(rt.alloc(), &open, true)?);
    Ok(())
}

// Returns the range of the room of a route, by its number.
fn room_of(
    alloc: Global,
    model: &PlanModel,
    number: usize,
) -> Result<Option<UnitsRange>, NoMemory> {
    if number == 0 || model.route_count() < number {
        return Ok(None);
    }
    let mut engine = Engine {
        choice: Choice::default(),
    };
    room_range(alloc, &mut engine, model, &PRICES, number)
}

#[test]
fn room_has_its_ranges(rt: HostRuntime) -> Result<(), Fail> {
    let Some(model) = model_of(rt.alloc(), &SUPPLIES, &ROUTES)? else {
        assert!(rt; false);
        return Ok(());
    };
    for place in 0..3usize {
        let found = room_of(rt.alloc(), &model, place + 1)?;
        assert!(rt; found == Some(UnitsRange { most: ROOM[place] }));
    }
    Ok(())
}

// Returns a place with a supply, without bounds.
fn place(supply: i64) -> Place {
    Place {
        supply,
        through: None,
        penalty: None,
    }
}

// Returns the same as a planner's problem.
fn problem(alloc: Global) -> Result<Option<Planner>, NoMemory> {
    let policy = Policy {
        unused: false,
        short: false,
        penalty: None,
    };
    let places = vec![in alloc; place(30), place(-18), place(-12)]?;
    let steps: Vec<Step> = Vec::new(alloc);
    let rows = vec![in alloc; ROUTES[0], ROUTES[1], ROUTES[2]]?;
    match Planner::of(alloc, places, steps, rows, policy)? {
        Ok(planner) => Ok(Some(planner)),
        Err(_) => Ok(None),
    }
}

// Returns the range of the room of the first route, and that of units from the depot to the town.
fn planner_ranges(
    alloc: Global,
    planner: &Planner,
) -> Result<Option<(Option<UnitsRange>, Option<UnitsRange>)>, NoMemory> {
    let mut engine = Engine {
        choice: Choice::default(),
    };
    if planner.route_count() < 1 || planner.places().len() < 2 {
        return Ok(None);
    }
    let PlannerAnswer::Least(found) = least(alloc, &mut engine, planner)? else {
        return Ok(None);
    };
    let room = planner_room_range(alloc, &mut engine, planner, &found, 1)?;
    let ends = Ends { from: 1, to: 2 };
    let units = planner_units_range(alloc, &mut engine, planner, &found, ends)?;
    Ok(Some((room, units)))
}

#[test]
fn problems_have_their_ranges(rt: HostRuntime) -> Result<(), Fail> {
    let Some(planner) = problem(rt.alloc())? else {
        assert!(rt; false);
        return Ok(());
    };
    let Some((room, units)) = planner_ranges(rt.alloc(), &planner)? else {
        assert!(rt; false);
        return Ok(());
    };
    assert!(rt; room == Some(UnitsRange { most: Some(3) }));
    assert!(rt; units == Some(UnitsRange { most: Some(5) }));
    Ok(())
}
