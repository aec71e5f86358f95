//! The planner's problem of two tables, in whole units.
use crate::texts::said;
use mcf_decimal::Decimal;
use mcf_model::{ModelFault, RouteFault};
use mcf_places::PlannerFault;
use mcf_reading::{ColumnAt, Head, Location, Table};
use mcf_text::NoMemory;
use mcf_units::{GreatFault, Made, Scales, Terms, WholeProblem, problem};
use std::alloc::Global;
use std::test::Fail;

const PLACES: &[u8] =
    b"name;supply;least;most;cost;penalty\nMill;12,5;;;;\nGraz;;1;inf;0,25;\nWien;-12,5;;;;7,0004\n";

const ROUTES: &[u8] = b"from;to;most;cost;most 2;cost 2\nMill;Graz;10;1,5;;2\nGraz;Wien;;3;;\n";

const TERMS: Terms = Terms {
    unused: true,
    short: true,
    penalty: Some(Decimal {
        mantissa: 1001,
        places: 3,
    }),
};

// What is made of two texts; `None` if they aren't read as tables without faults.
fn made(
    alloc: Global,
    places: &[u8],
    routes: &[u8],
    terms: Terms,
) -> Result<Option<Made>, NoMemory> {
    match said(alloc, places, routes, None)? {
        Some(Ok(tables)) => Ok(Some(problem(alloc, &tables, terms)?)),
        _ => Ok(None),
    }
}

// Whether the problem is that of the tables: tenths of amounts, ten thousandths of costs.
fn is_whole(made: &WholeProblem) -> bool {
    let places = made.planner.places();
    if places.len() != 3 || made.planner.route_count() != 2 {
        return false;
    }
    let Some(bounds) = places[1].through else {
        return false;
    };
    let scales = Scales {
        amounts: 1,
        costs: 4,
    };
    let has_supplies = (places[0].supply, places[2].supply) == (125, -125);
    let has_bounds = (bounds.least, bounds.most, bounds.cost) == (10, None, 2500);
    let has_penalty = made.planner.policy().penalty == Some(10010);
    let has_own = places[2].penalty == Some(70004) && places[1].penalty.is_none();
    made.scales == scales && has_supplies && has_bounds && has_penalty && has_own
}

// Whether a problem is made, and it is that of the tables.
fn is_problem(made: &Made) -> bool {
    match made {
        Made::Problem(made) => is_whole(made),
        _ => false,
    }
}

#[test]
fn tables_in_whole_units(rt: HostRuntime) -> Result<(), Fail> {
    let Some(made) = made(rt.alloc(), PLACES, ROUTES, TERMS)? else {
        assert!(rt; false);
        return Ok(());
    };
    assert!(rt; is_problem(&made));
    Ok(())
}

// Whether these numbers are too great.
fn are_great(made: &Made, faults: &[GreatFault]) -> bool {
    match made {
        Made::TooGreat(found) => found.as_slice() == faults,
        _ => false,
    }
}

#[test]
fn great_numbers_are_told(rt: HostRuntime) -> Result<(), Fail> {
    let places = b"name;supply;penalty\nMill;9223372036854775807;\nWien;-0,5;9223372036854775808\n";
    let routes = b"from;to;most;cost\nMill;Wien;;9223372036854775808\n";
    let supply = GreatFault::Cell(Location {
        table: Table::Places,
        row: 1,
        column: ColumnAt::Under(Head::Supply),
    });
    let penalty = GreatFault::Cell(Location {
        table: Table::Places,
        row: 2,
        column: ColumnAt::Under(Head::Penalty),
    });
    let cost = GreatFault::Cell(Location {
        table: Table::Routes,
        row: 1,
        column: ColumnAt::Under(Head::Cost(1)),
    });
    let Some(made) = made(rt.alloc(), places, routes, TERMS)? else {
        assert!(rt; false);
        return Ok(());
    };
    assert!(rt; are_great(&made, &[supply, penalty, cost]));
    Ok(())
}

// Whether these are the faults of the problem.
fn are_faults(made: &Made, faults: &[PlannerFault]) -> bool {
    match made {
        Made::Improper(found) => found.as_slice() == faults,
        _ => false,
    }
}

#[test]
fn faults_of_the_problem_are_told(rt: HostRuntime) -> Result<(), Fail> {
    let places = b"name;supply\nMill;3\nWien;-3\n";
    let routes = b"from;to;most;cost;most 2;cost 2\nMill;Wien;1;2;;1\nWien;Mill;1;1;-1;2\n";
    let falling = PlannerFault::Routes(ModelFault {
        route: 1,
        what: RouteFault::FallingCost,
    });
    let below = PlannerFault::Routes(ModelFault {
        route: 2,
        what: RouteFault::Room,
    });
    let Some(made) = made(rt.alloc(), places, routes, TERMS)? else {
        assert!(rt; false);
        return Ok(());
    };
    assert!(rt; are_faults(&made, &[falling, below]));
    Ok(())
}
