//! What tables say.
use crate::texts::said;
use mcf_decimal::{Decimal, Mark};
use mcf_reading::{BoundsEntry, PlaceEntry, StepEntry, Tables};
use std::test::Fail;

const PLACES: &[u8] =
    b"Supply;NAME;most;least;cost;Penalty\n12,50;Mill;;;;\n-12,5;Wien;inf;1.000;;0,75\n;Graz;7;;0,2;0\n";

const ROUTES: &[u8] =
    b"cost;to;from;most;most 2;cost 2;most 3;cost 3;both;least\n1,5;Wien;Mill;20;;2;;;;2\n-4;Mill;Graz;5;;;;;ja;\n";

// The decimal of this mantissa and so many places.
fn decimal(mantissa: i128, places: u32) -> Decimal {
    Decimal { mantissa, places }
}

// Whether the places are those of the table.
fn has_places(tables: &Tables) -> bool {
    let none = decimal(0, 0);
    let wien = BoundsEntry {
        least: decimal(1000, 0),
        most: None,
        cost: none,
    };
    let graz = BoundsEntry {
        least: none,
        most: Some(decimal(7, 0)),
        cost: decimal(2, 1),
    };
    let places = [
        PlaceEntry {
            supply: decimal(125, 1),
            through: None,
            penalty: None,
        },
        PlaceEntry {
            supply: decimal(-125, 1),
            through: Some(wien),
            penalty: Some(decimal(75, 2)),
        },
        PlaceEntry {
            supply: none,
            through: Some(graz),
            penalty: Some(none),
        },
    ];
    tables.places() == places.as_slice()
}

// Whether the first route is that of the table.
fn has_first(tables: &Tables) -> bool {
    if tables.route_count() != 2 {
        return false;
    }
    let route = tables.route(0);
    let steps = [
        StepEntry {
            most: Some(decimal(20, 0)),
            cost: decimal(15, 1),
        },
        StepEntry {
            most: None,
            cost: decimal(2, 0),
        },
    ];
    let is_between = route.tail == 1 && route.head == 2;
    is_between && route.least == decimal(2, 0) && !route.both && route.steps == steps.as_slice()
}

// Whether the second route is that of the table.
fn has_second(tables: &Tables) -> bool {
    if tables.route_count() != 2 {
        return false;
    }
    let route = tables.route(1);
    let steps = [StepEntry {
        most: Some(decimal(5, 0)),
        cost: decimal(-4, 0),
    }];
    let is_between = route.tail == 3 && route.head == 1;
    is_between && route.least == decimal(0, 0) && route.both && route.steps == steps.as_slice()
}

#[test]
fn tables_have_entries(rt: HostRuntime) -> Result<(), Fail> {
    let said = said(rt.alloc(), PLACES, ROUTES, None)?;
    let is_said = match &said {
        Some(Ok(tables)) => {
            tables.mark() == Some(Mark::Comma)
                && has_places(tables)
                && has_first(tables)
                && has_second(tables)
        }
        _ => false,
    };
    assert!(rt; is_said);
    Ok(())
}
