//! The problem over periods of two tables, in whole units.
use mcf_period_reading::read_periods;
use mcf_period_units::{
    MadeOver, PeriodGreat, PeriodOrigins, PeriodProblem, PlaceOrigin, problem_over,
};
use mcf_reading::read;
use mcf_table::{Records, records_of};
use mcf_text::NoMemory;
use mcf_units::{Scales, Terms};
use std::alloc::Global;
use std::test::Fail;

const PLACES: &[u8] =
    b"name;supply;period;keep most;keep cost;first stock;last stock\nMill;9;W1;;;;\nDepot;0;;20;0.5;3;1\nShop;-4;W2;;;;\n";

const ROUTES: &[u8] = b"from;to;most;cost;period;lead\nMill;Depot;;1;;\nDepot;Shop;;1;W2;0\n";

const LATE: &[u8] = b"from;to;most;cost;period;lead\nMill;Depot;;1;;\nDepot;Shop;;1;W2;1\n";

const TERMS: Terms = Terms {
    unused: true,
    short: false,
    penalty: None,
};

// What is made of the rows of two tables; `None` if they have a fault.
fn made_of(
    alloc: Global,
    places: &Records,
    routes: &Records,
) -> Result<Option<MadeOver>, NoMemory> {
    let Ok(tables) = read(alloc, places, routes, None)? else {
        return Ok(None);
    };
    match read_periods(alloc, places, routes, tables.mark())? {
        Ok(times) => Ok(Some(problem_over(alloc, &tables, &times, TERMS)?)),
        Err(_) => Ok(None),
    }
}

// What is made of two texts; `None` if they have a fault.
fn made(alloc: Global, places: &[u8], routes: &[u8]) -> Result<Option<MadeOver>, NoMemory> {
    let Ok(places) = records_of(alloc, places, b';')? else {
        return Ok(None);
    };
    match records_of(alloc, routes, b';')? {
        Ok(routes) => made_of(alloc, &places, &routes),
        Err(_) => Ok(None),
    }
}

// Whether the places have these supplies.
fn has_supplies(made: &PeriodProblem, wanted: &[i64]) -> bool {
    let places = made.planner.places();
    if places.len() != wanted.len() {
        return false;
    }
    for place in 0..places.len() {
        if places[place].supply != wanted[place] {
            return false;
        }
    }
    true
}

// Where the depot comes from in a period.
fn depot(period: u32) -> PlaceOrigin {
    PlaceOrigin {
        first: 2,
        row: 2,
        period,
    }
}

// Whether the problem is that of the tables.
fn is_said(made: &PeriodProblem) -> bool {
    let scales = Scales {
        amounts: 0,
        costs: 1,
    };
    let wanted = [0, 3, 0, 9, 0, 0, 0, 0, -4, 0, -1, 0];
    let origins = &made.origins;
    if origins.places.len() != 12 || !has_supplies(made, &wanted) {
        return false;
    }
    let has_rows = origins.places[7] == depot(2) && origins.places[6].row == 0;
    let has_stocks = origins.places[1] == depot(0) && origins.places[10] == depot(3);
    let has_counts = origins.stores.len() == 7 && origins.departures.len() == 3;
    made.scales == scales && has_rows && has_stocks && has_counts
}

// Whether places keep anything from the first stock to the first period, and until the last stock,
// and departures are in their periods.
fn has_periods(origins: &PeriodOrigins) -> bool {
    if origins.stores.len() != 7 || origins.departures.len() != 3 {
        return false;
    }
    let firsts = origins.stores[0].period == 0 && origins.stores[1].row == 2;
    let between = origins.stores[3].period == 1 && origins.stores[3].row == 2;
    let lasts = origins.stores[4].period == 2 && origins.stores[4].row == 1;
    let departs = origins.departures[0].period == 1 && origins.departures[2].period == 2;
    firsts && between && lasts && departs
}

#[test]
fn places_stand_in_each_period(rt: HostRuntime) -> Result<(), Fail> {
    let told = made(rt.alloc(), PLACES, ROUTES)?;
    let is = match &told {
        Some(MadeOver::Problem(problem)) => is_said(problem) && has_periods(&problem.origins),
        _ => false,
    };
    assert!(rt; is);
    Ok(())
}

#[test]
fn late_departures_are_told(rt: HostRuntime) -> Result<(), Fail> {
    let told = made(rt.alloc(), PLACES, LATE)?;
    let is = match &told {
        Some(MadeOver::TooGreat(faults)) => faults.as_slice() == [PeriodGreat::Late(2)].as_slice(),
        _ => false,
    };
    assert!(rt; is);
    Ok(())
}
