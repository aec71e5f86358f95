//! Ranges of the costs of routes of least plans, found by hand from the ways round each route.
use crate::figures::{FigureRow, ROWS};
use crate::places_planned::problem_of;
use crate::plans::model_of;
use mcf_choice::Choice;
use mcf_decimal::Decimal;
use mcf_flow_tables::{Options, Texts};
use mcf_model::Planned;
use mcf_places::{PlannerAnswer, Policy, least};
use mcf_plan_ranges::{CostRange, cost_range};
use mcf_planner::{Planner as Engine, plan_with};
use mcf_planner_ranges::planner_cost_range;
use mcf_range_text::told_text;
use mcf_text::NoMemory;
use mcf_units::Terms;
use std::alloc::Global;
use std::test::Fail;

const NONE: Option<i128> = None;

// How far the cost of each route may fall and rise.
type Ranges = [(Option<i128>, Option<i128>); 3];

// The rows of models are those of the figures.
static RANGES: [Ranges; 4] = [
    // the plan of the manual page: each way round costs 5 more
    [(NONE, Some(5)), (Some(5), NONE), (Some(5), NONE)],
    // the first route is at the end of its step; the third is used both ways at no cost
    [(Some(1), Some(1)), (Some(1), Some(1)), (Some(0), Some(1))],
    // what the second route brings back is all that it may bring
    [(NONE, Some(7)), (Some(1), Some(7)), (Some(7), NONE)],
    // the first route is full, and nothing is left for the others
    [(NONE, Some(2)), (Some(2), NONE), (NONE, NONE)],
];

// Returns the range of the cost of a route of a row, by its number.
fn range_of(alloc: Global, row: &FigureRow, number: usize) -> Result<Option<CostRange>, NoMemory> {
    let Some(model) = model_of(alloc, &row.supplies, &row.routes)? else {
        return Ok(None);
    };
    if number == 0 || model.route_count() < number {
        return Ok(None);
    }
    let Planned::Plan(plan) = plan_with(alloc, Choice::default(), &model)? else {
        return Ok(None);
    };
    cost_range(alloc, &model, &plan.carries, &plan.prices, number)
}

// Returns whether each route of a row has the expected range.
fn has_ranges(alloc: Global, row: &FigureRow, ranges: &Ranges) -> Result<bool, NoMemory> {
    for place in 0..3usize {
        let (down, up) = ranges[place];
        if range_of(alloc, row, place + 1)? != Some(CostRange { down, up }) {
            return Ok(false);
        }
    }
    Ok(true)
}

#[test]
fn routes_have_their_ranges(rt: HostRuntime) -> Result<(), Fail> {
    let rows = ROWS;
    for place in 0..4usize {
        let found = has_ranges(rt.alloc(), &rows[place], &RANGES[place])?;
        assert!(rt; found);
    }
    Ok(())
}

// What two towns want of a factory, over a depot that lets 6 pass or over 3 on a dearer route past
// it; and how far the cost of each of the four routes may fall and rise.
#[derive(Clone, Copy)]
struct PlannerRow {
    wants: [i64; 2],
    short: bool,
    ranges: [(Option<i128>, Option<i128>); 4],
}

const PLANNER_ROWS: [PlannerRow; 2] = [
    // the depot is full: one unit less over it to the second town goes past it, for 2 more
    PlannerRow {
        wants: [5, 3],
        short: false,
        ranges: [
            (NONE, Some(2)),
            (NONE, NONE),
            (NONE, Some(2)),
            (Some(2), NONE),
        ],
    },
    // four are missing at the second town: one of them at the first instead costs 3 more
    PlannerRow {
        wants: [5, 8],
        short: true,
        ranges: [(NONE, NONE), (NONE, Some(3)), (Some(3), NONE), (NONE, NONE)],
    },
];

// Returns whether each route of a problem has the expected range.
fn has_planner_ranges(alloc: Global, row: &PlannerRow) -> Result<bool, NoMemory> {
    let policy = Policy {
        unused: true,
        short: row.short,
        penalty: None,
    };
    let Some(planner) = problem_of(alloc, &row.wants, &[None, None], 3, policy)? else {
        return Ok(false);
    };
    let mut engine = Engine {
        choice: Choice::default(),
    };
    let PlannerAnswer::Least(found) = least(alloc, &mut engine, &planner)? else {
        return Ok(false);
    };
    for place in 0..4usize {
        if planner.route_count() <= place {
            return Ok(false);
        }
        let (down, up) = row.ranges[place];
        let range = planner_cost_range(alloc, &planner, &found, place + 1)?;
        if range != Some(CostRange { down, up }) {
            return Ok(false);
        }
    }
    Ok(true)
}

#[test]
fn routes_of_problems_have_their_ranges(rt: HostRuntime) -> Result<(), Fail> {
    let rows = PLANNER_ROWS;
    for row in &rows {
        let found = has_planner_ranges(rt.alloc(), row)?;
        assert!(rt; found);
    }
    Ok(())
}

const PLACES: &[u8] = b"name,supply\nMill,3\nGraz,-3\n";

// The first route is full, and the rest, one unit, goes over the second.
const ROUTES: &[u8] = b"from,to,most,cost\nMill,Graz,2,1.5\nMill,Graz,,4\n";

const RANGE_ROWS: &[u8] =
    b"\n\"range\",\"2\",\"Mill\",\"Graz\",\"\",\"2.5\"\n\"range\",\"3\",\"Mill\",\"Graz\",\"2.5\",\"\"\n\
\"room range\",\"2\",\"Mill\",\"Graz\",\"1\"\n";

// The first plant is used up, and 3 units stay at the second, which sends 3 to each town. The one
// unit from the first plant to the second town would rather go to the first town, if there were
// room: that saves 5 - 1 and costs 6 - 4. One more unit at the first plant replaces one of the 3
// from the second plant to the second town. And what towns want more comes from the 3 that stay.
const PLANT_PLACES: &[u8] = b"name,supply\nP1,4\nP2,9\nA,-6\nB,-4\n";

const PLANT_ROUTES: &[u8] = b"from,to,most,cost\nP1,A,3,1\nP1,B,,4\nP2,A,,5\nP2,B,,6\n";

const PLANT_UNITS: &[u8] = b"\n\
\"room range\",\"2\",\"P1\",\"A\",\"1\"\n\
\"supply range\",\"2\",\"P1\",\"-2\",\"3\"\n\
\"supply range\",\"4\",\"A\",\"5\",\"3\"\n\
\"supply range\",\"5\",\"B\",\"6\",\"3\"\n";

// A mill gives all in January, and a shop wants some in each of the next months; the route, used
// both ways, takes a month, and is full in February. A unit that left in January instead would
// save 0.5 for being kept at the mill, and cost 2 for being kept at the shop.
const MONTHLY_PLACES: &[u8] = b"name,supply,period,keep most,keep cost\n\
Mill,10,Jan,,0.5\n\
Shop,-3,Feb,5,2\n\
Shop,-7,March,,\n";

const MONTHLY_ROUTES: &[u8] = b"from,to,most,cost,both,lead\nMill,Shop,6,2,yes,1\n";

const MONTHLY_RANGES: &[u8] = b"\n\
\"range\",\"2\",\"Mill\",\"Shop\",\"1.5\",\"\",\"Jan\",\"Feb\"\n\
\"range\",\"2\",\"Shop\",\"Mill\",\"\",\"\",\"Jan\",\"Feb\"\n\
\"range\",\"2\",\"Mill\",\"Shop\",\"\",\"1.5\",\"Feb\",\"March\"\n\
\"range\",\"2\",\"Shop\",\"Mill\",\"\",\"\",\"Feb\",\"March\"\n\
\"keep range\",\"2\",\"Mill\",\"\",\"1.5\",\"Jan\",\"Feb\"\n\
\"keep range\",\"3\",\"Shop\",\"1.5\",\"\",\"Feb\",\"March\"\n\
\"room range\",\"2\",\"Mill\",\"Shop\",\"1\",\"Feb\",\"March\"\n";

// In February the mill ships 4 units through the port, and one directly at a cost of 9. A second
// unit that the shop keeps from January, or a fifth unit through the port, would replace that one.
const PORT_PLACES: &[u8] = b"name,supply,period,most,keep most,keep cost\n\
Mill,10,Jan,,,\n\
Port,,,6,,\n\
Shop,-3,Jan,,1,1\n\
Shop,-6,Feb,,,\n\
Mill,6,Feb,,,\n";

const PORT_ROUTES: &[u8] = b"from,to,period,most,cost\n\
Mill,Port,Jan,,1\n\
Mill,Port,Feb,4,5\n\
Mill,Shop,Feb,,9\n\
Port,Shop,Jan,,1\n\
Port,Shop,Feb,,1\n";

const PORT_UNITS: &[u8] = b"\n\
\"room range\",\"3\",\"Mill\",\"Port\",\"1\",\"Feb\",\"Feb\"\n\
\"keep room range\",\"4\",\"Shop\",\"1\",\"Jan\",\"Feb\"\n\
\"supply range\",\"4\",\"Shop\",\"2\",\"2\",\"Jan\"\n\
\"supply range\",\"5\",\"Shop\",\"9\",\"1\",\"Feb\"\n";

// Only 4 units pass through this port, which keeps one from January to February: one more in
// January would replace one of the two that are sent directly.
const NARROW_PLACES: &[u8] = b"name,supply,period,most,keep most,keep cost\n\
Mill,10,Jan,,,\n\
Port,,,4,2,1\n\
Shop,-3,Jan,,1,1\n\
Shop,-6,Feb,,,\n\
Mill,6,Feb,,,\n";

const NARROW_ROUTES: &[u8] = b"from,to,period,most,cost\n\
Mill,Port,Jan,,1\n\
Mill,Port,Feb,3,5\n\
Mill,Shop,Feb,,9\n\
Port,Shop,Jan,,1\n\
Port,Shop,Feb,,1\n";

const NARROW_UNITS: &[u8] = b"\n\
\"room range\",\"3\",\"Mill\",\"Port\",\"1\",\"Feb\",\"Feb\"\n\
\"pass range\",\"3\",\"Port\",\"1\",\"Jan\"\n\
\"supply range\",\"4\",\"Shop\",\"8\",\"1\",\"Jan\"\n\
\"supply range\",\"5\",\"Shop\",\"9\",\"1\",\"Feb\"\n";

// A port that 4 units pass through, where the rest goes directly.
const PASS_PLACES: &[u8] = b"name,supply,most\nMill,9,\nPort,,4\nShop,-9,\n";

const PASS_ROUTES: &[u8] = b"from,to,most,cost\nMill,Port,,1\nPort,Shop,,1\nMill,Shop,,5\n";

const PASS_UNITS: &[u8] = b"\n\"pass range\",\"3\",\"Port\",\"5\"\n";

// The inn misses one unit and the shop three, each at a penalty of 7. A further unit of the mill or
// of the depot reaches the inn, at 5 or at 3; and a further unit of a demand is missing.
const MISSED_PLACES: &[u8] = b"name,supply\nMill,10\nDepot,4\nShop,-12\nInn,-6\n";

const MISSED_ROUTES: &[u8] =
    b"from,to,most,cost\nMill,Shop,9,2\nMill,Inn,,5\nDepot,Inn,,3\nDepot,Shop,,8\n";

const MISSED_UNITS: &[u8] = b"\n\
\"room range\",\"2\",\"Mill\",\"Shop\",\"1\"\n\
\"supply range\",\"2\",\"Mill\",\"-2\",\"1\"\n\
\"supply range\",\"3\",\"Depot\",\"-4\",\"1\"\n";

// All is sent, and all is met.
const EXACT: Terms = Terms {
    unused: false,
    short: false,
    penalty: None,
};

// Supplies may stay.
const ROOMY: Terms = Terms {
    unused: true,
    short: false,
    penalty: None,
};

// Returns whether the answer to two tables, with ranges, ends with these rows.
fn ends_with(
    alloc: Global,
    places: &[u8],
    routes: &[u8],
    terms: Terms,
    rows: &[u8],
) -> Result<bool, NoMemory> {
    let mut engine = Engine {
        choice: Choice::default(),
    };
    let texts = Texts {
        places,
        routes,
        fill_down: &[],
    };
    let options = Options { mark: None, terms };
    let told = told_text(alloc, &mut engine, texts, options, true)?;
    Ok(told.text.ends_with(rows))
}

#[test]
fn texts_end_with_ranges(rt: HostRuntime) -> Result<(), Fail> {
    let found = ends_with(rt.alloc(), PLACES, ROUTES, EXACT, RANGE_ROWS)?;
    assert!(rt; found);
    Ok(())
}

#[test]
fn texts_over_periods_end_with_ranges(rt: HostRuntime) -> Result<(), Fail> {
    let found = ends_with(
        rt.alloc(),
        MONTHLY_PLACES,
        MONTHLY_ROUTES,
        EXACT,
        MONTHLY_RANGES,
    )?;
    assert!(rt; found);
    Ok(())
}

#[test]
fn texts_tell_for_how_many_units(rt: HostRuntime) -> Result<(), Fail> {
    let found = ends_with(rt.alloc(), PLANT_PLACES, PLANT_ROUTES, ROOMY, PLANT_UNITS)?;
    assert!(rt; found);
    Ok(())
}

#[test]
fn texts_over_periods_tell_for_how_many_units(rt: HostRuntime) -> Result<(), Fail> {
    let alloc = rt.alloc();
    let found = ends_with(alloc, PORT_PLACES, PORT_ROUTES, ROOMY, PORT_UNITS)?;
    assert!(rt; found);
    let found = ends_with(alloc, NARROW_PLACES, NARROW_ROUTES, ROOMY, NARROW_UNITS)?;
    assert!(rt; found);
    Ok(())
}

#[test]
fn texts_tell_for_how_many_more_that_pass(rt: HostRuntime) -> Result<(), Fail> {
    let found = ends_with(rt.alloc(), PASS_PLACES, PASS_ROUTES, EXACT, PASS_UNITS)?;
    assert!(rt; found);
    Ok(())
}

#[test]
fn texts_tell_what_supplies_save_at_penalties(rt: HostRuntime) -> Result<(), Fail> {
    let terms = Terms {
        unused: false,
        short: true,
        penalty: Some(Decimal {
            mantissa: 7,
            places: 0,
        }),
    };
    let found = ends_with(
        rt.alloc(),
        MISSED_PLACES,
        MISSED_ROUTES,
        terms,
        MISSED_UNITS,
    )?;
    assert!(rt; found);
    Ok(())
}
