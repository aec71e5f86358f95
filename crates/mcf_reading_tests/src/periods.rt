//! What tables say about periods.
use mcf_decimal::{Decimal, Mark, NumberFault};
use mcf_names::NameFault;
use mcf_period_reading::{
    KeepEntry, PeriodFault, PeriodHead, PeriodKind, PeriodTables, PlaceTime, RouteTime, Spot,
    faults_of_heads, first_rows, periods_in, read_periods, row_in, tells_periods,
};
use mcf_reading::{Table, has_periods, read, read_heads, read_rows};
use mcf_table::records_of;
use mcf_text::NoMemory;
use std::alloc::Global;
use std::test::Fail;

const PLACES: &[u8] =
    b"name;supply;period;keep most;keep cost;first stock;last stock\nMill;9;W1;;;;\nDepot;0;;20;0.5;3;1\nShop;-4;W2;;;;\n";

const ROUTES: &[u8] = b"from;to;most;cost;period;lead\nMill;Depot;;1;;\nDepot;Shop;;1;W2;1\n";

// Two tables, and the only fault of both: its table, its row, its column, and its kind.
type FaultRow = (
    &'static [u8],
    &'static [u8],
    Table,
    usize,
    PeriodHead,
    PeriodKind,
);

static ROWS: [FaultRow; 11] = [
    (
        b"name;period;period\n",
        b"from\n",
        Table::Places,
        0,
        PeriodHead::Period,
        PeriodKind::TwoColumns,
    ),
    (
        b"name\nA\n",
        b"from;lead\nA;1\n",
        Table::Routes,
        0,
        PeriodHead::Lead,
        PeriodKind::NoPeriods,
    ),
    (
        b"name;period\nA;\n",
        b"from\n",
        Table::Places,
        0,
        PeriodHead::Period,
        PeriodKind::NoneNamed,
    ),
    (
        b"name;period\nA;W\x01\n",
        b"from\n",
        Table::Places,
        1,
        PeriodHead::Period,
        PeriodKind::Name(NameFault::Control),
    ),
    (
        b"name;period\nA;W1\nB;W1\nA;\n",
        b"from\n",
        Table::Places,
        3,
        PeriodHead::Period,
        PeriodKind::Twice,
    ),
    (
        b"name;period\nA;W1\n",
        b"from;period\nA;W2\n",
        Table::Routes,
        1,
        PeriodHead::Period,
        PeriodKind::NoPeriod,
    ),
    (
        b"name;period;keep cost\nA;W1;x\n",
        b"from\n",
        Table::Places,
        1,
        PeriodHead::KeepCost,
        PeriodKind::Number(NumberFault::NoNumber),
    ),
    (
        b"name;period;keep most\nA;W1;-1\n",
        b"from\n",
        Table::Places,
        1,
        PeriodHead::KeepMost,
        PeriodKind::BelowZero,
    ),
    (
        b"name;period\nA;W1\n",
        b"from;lead\nA;1.5\n",
        Table::Routes,
        1,
        PeriodHead::Lead,
        PeriodKind::NoLead,
    ),
    (
        b"name;period;first stock\nA;W1;1\nA;W2;1\n",
        b"from\n",
        Table::Places,
        2,
        PeriodHead::FirstStock,
        PeriodKind::NotFirst,
    ),
    (
        b"name;period;last stock\nA;W1;1\nA;W2;1\n",
        b"from\n",
        Table::Places,
        1,
        PeriodHead::LastStock,
        PeriodKind::NotLast,
    ),
];

// The faults of the heads of two texts, or else those of rows; a semicolon separates cells. None if
// one is no table.
pub(crate) fn faults_of(
    alloc: Global,
    places: &[u8],
    routes: &[u8],
) -> Result<Vec<PeriodFault>, NoMemory> {
    let none = Vec::new(alloc);
    let Ok(places) = records_of(alloc, places, b';')? else {
        return Ok(none);
    };
    let Ok(routes) = records_of(alloc, routes, b';')? else {
        return Ok(none);
    };
    let of_heads = faults_of_heads(alloc, &places, &routes)?;
    if !of_heads.is_empty() {
        return Ok(of_heads);
    }
    match read_periods(alloc, &places, &routes, None)? {
        Ok(_) => Ok(none),
        Err(faults) => Ok(faults),
    }
}

// Whether the tables of a row have its fault, and no other.
fn is_as_said(alloc: Global, row: &FaultRow) -> Result<bool, NoMemory> {
    let (places, routes, table, number, head, kind) = *row;
    let faults = faults_of(alloc, places, routes)?;
    let wanted = [PeriodFault {
        table,
        row: number,
        head,
        kind,
    }];
    Ok(faults.as_slice() == wanted.as_slice())
}

// The decimal of this mantissa and so many places.
fn decimal(mantissa: i128, places: u32) -> Decimal {
    Decimal { mantissa, places }
}

// What a row says that names a period alone; its place stands first in this row.
fn plain(place: usize, period: usize) -> PlaceTime {
    PlaceTime {
        place,
        period,
        keep: None,
        first: decimal(0, 0),
        last: decimal(0, 0),
    }
}

// Whether the tables say what they say.
fn has_rows(tables: &PeriodTables<'_>) -> bool {
    let depot = PlaceTime {
        place: 2,
        period: 0,
        keep: Some(KeepEntry {
            most: Some(decimal(20, 0)),
            cost: decimal(5, 1),
        }),
        first: decimal(3, 0),
        last: decimal(1, 0),
    };
    let places = [plain(1, 1), depot, plain(3, 2)];
    let routes = [
        RouteTime {
            period: 0,
            lead: decimal(0, 0),
        },
        RouteTime {
            period: 2,
            lead: decimal(1, 0),
        },
    ];
    tables.periods.len() == 2
        && tables.places.as_slice() == places.as_slice()
        && tables.routes.as_slice() == routes.as_slice()
}

#[test]
fn rows_hold_in_periods(rt: HostRuntime) -> Result<(), Fail> {
    let (Ok(places), Ok(routes)) = (
        records_of(rt.alloc(), PLACES, b';')?,
        records_of(rt.alloc(), ROUTES, b';')?,
    ) else {
        assert!(rt; false);
        return Ok(());
    };
    let is_said = match read_periods(rt.alloc(), &places, &routes, None)? {
        Ok(tables) => has_rows(&tables),
        Err(_) => false,
    };
    assert!(rt; is_said);
    Ok(())
}

#[test]
fn each_fault_of_periods_is_told(rt: HostRuntime) -> Result<(), Fail> {
    for row in &ROWS {
        let fits = is_as_said(rt.alloc(), row)?;
        assert!(rt; fits);
    }
    Ok(())
}

#[test]
fn rows_are_found_by_place_and_period(rt: HostRuntime) -> Result<(), Fail> {
    let spots = [
        Spot {
            place: 1,
            period: 0,
        },
        Spot {
            place: 2,
            period: 1,
        },
        Spot {
            place: 2,
            period: 2,
        },
    ];
    let rows = first_rows(rt.alloc(), &spots)?;
    assert!(rt; row_in(&rows, 1, 2) == 1);
    assert!(rt; row_in(&rows, 2, 2) == 3);
    assert!(rt; row_in(&rows, 2, 3) == 0);
    Ok(())
}

// A place may have several rows where the table of places has a column of periods, and only there.
#[test]
fn places_have_rows_for_periods(rt: HostRuntime) -> Result<(), Fail> {
    let (Ok(places), Ok(plain), Ok(routes)) = (
        records_of(rt.alloc(), b"name;supply;period\nA;1;W1\nA;-1;W2\n", b';')?,
        records_of(rt.alloc(), b"name;supply\nA;1\nA;-1\n", b';')?,
        records_of(rt.alloc(), b"from;to;most;cost\n", b';')?,
    ) else {
        assert!(rt; false);
        return Ok(());
    };
    let periods = periods_in(rt.alloc(), &places)?;
    let tells_over = tells_periods(rt.alloc(), &places, &routes)?;
    let tells_plain = tells_periods(rt.alloc(), &plain, &routes)?;
    let over = read(rt.alloc(), &places, &routes, None)?;
    let once = read(rt.alloc(), &plain, &routes, None)?;
    assert!(rt; has_periods(&places) && !has_periods(&plain));
    assert!(rt; tells_over && !tells_plain);
    assert!(rt; periods.len() == 2);
    assert!(rt; over.is_ok() && once.is_err());
    Ok(())
}

// The mark before decimals may be shown by columns about periods alone.
#[test]
fn stock_shows_the_mark(rt: HostRuntime) -> Result<(), Fail> {
    let (Ok(places), Ok(routes)) = (
        records_of(
            rt.alloc(),
            b"name;supply;period;keep cost\nA;1;W1;1,5\n",
            b';',
        )?,
        records_of(rt.alloc(), b"from;to;most;cost\nA;A;;2\n", b';')?,
    ) else {
        assert!(rt; false);
        return Ok(());
    };
    let mark = match read_heads(rt.alloc(), &places, &routes, None)? {
        Ok(mark) => mark,
        Err(_) => None,
    };
    let rows = read_rows(rt.alloc(), &places, &routes, mark)?;
    let times = read_periods(rt.alloc(), &places, &routes, mark)?;
    assert!(rt; mark == Some(Mark::Comma));
    assert!(rt; rows.is_ok() && times.is_ok());
    Ok(())
}
