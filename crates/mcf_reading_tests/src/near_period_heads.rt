//! Titles that nearly are heads about periods; `rules.json` of `python/tests` has some of them.
use crate::periods::faults_of;
use crate::texts::said;
use mcf_period_reading::{PeriodFault, PeriodHead, PeriodKind, tells_periods};
use mcf_reading::Table;
use mcf_table::records_of;
use mcf_text::NoMemory;
use std::alloc::Global;
use std::test::Fail;

// The place of a column, from 0, and the head that its title nearly is.
type Told = (usize, PeriodHead);

// The rows of the table of places, and the titles that are nearly heads about periods.
static OF_PLACES: [(&[u8], &[Told]); 8] = [
    (b"name;supply;Periods\n", &[(2, PeriodHead::Period)]),
    (
        b"name;supply;keep mots;keepcost\n",
        &[(2, PeriodHead::KeepMost), (3, PeriodHead::KeepCost)],
    ),
    (
        b"name;First_Stock;last-stock\n",
        &[(1, PeriodHead::FirstStock), (2, PeriodHead::LastStock)],
    ),
    (
        b"name;peroid;periodd\n",
        &[(1, PeriodHead::Period), (2, PeriodHead::Period)],
    ),
    (
        b"name;period;Periods;period 2;keep;stock;leads\nA;W1;;;;;\n",
        &[],
    ),
    (
        b"name;PERIOD;Keep Most;KEEP COST;first stock;last stock\nA;W1;;;;\n",
        &[],
    ),
    (b"name;supply;least;most;cost;penalty\n", &[]),
    (b"nmae;suply;min;moost;csot;penalties\n", &[]),
];

// The rows of the table of routes, and the titles that are nearly heads about periods.
static OF_ROUTES: [(&[u8], &[Told]); 4] = [
    (b"from;to;Period:\n", &[(2, PeriodHead::Period)]),
    (b"from;to;load;read;head;leda\n", &[]),
    (b"from;to;keep mots;fist stock;last stocks\n", &[]),
    (b"from;to;most;cost;least;both;most 2;cost 2;most2\n", &[]),
];

// Whether the faults are just these, of the row of a table's heads.
fn are_told(faults: &[PeriodFault], table: Table, told: &[Told]) -> bool {
    if faults.len() != told.len() {
        return false;
    }
    for k in 0..faults.len() {
        let fault = PeriodFault {
            table,
            row: 0,
            head: told[k].1,
            kind: PeriodKind::NearHead(told[k].0),
        };
        if faults[k] != fault {
            return false;
        }
    }
    true
}

// Whether two texts, whose cells a semicolon separates, say something about periods.
fn tells(alloc: Global, places: &[u8], routes: &[u8]) -> Result<bool, NoMemory> {
    let Ok(places) = records_of(alloc, places, b';')? else {
        return Ok(false);
    };
    let Ok(routes) = records_of(alloc, routes, b';')? else {
        return Ok(false);
    };
    tells_periods(alloc, &places, &routes)
}

#[test]
fn titles_of_places_are_nearly_heads_of_periods(rt: HostRuntime) -> Result<(), Fail> {
    for (places, wanted) in OF_PLACES {
        let faults = faults_of(rt.alloc(), places, b"from;to;most;cost\n")?;
        assert!(rt; are_told(&faults, Table::Places, wanted));
    }
    Ok(())
}

#[test]
fn titles_of_routes_are_nearly_heads_of_periods(rt: HostRuntime) -> Result<(), Fail> {
    for (routes, wanted) in OF_ROUTES {
        let faults = faults_of(rt.alloc(), b"name;supply\n", routes)?;
        assert!(rt; are_told(&faults, Table::Routes, wanted));
    }
    Ok(())
}

// A title that nearly is a head is enough to ask for periods, unless the head is `lead`.
#[test]
fn lone_titles_ask_for_periods(rt: HostRuntime) -> Result<(), Fail> {
    let of_places = tells(rt.alloc(), b"name;keep mots\n", b"from\n")?;
    let of_routes = tells(rt.alloc(), b"name\n", b"from;periods\n")?;
    let lead = tells(rt.alloc(), b"name\n", b"from;lead\n")?;
    let near = tells(rt.alloc(), b"name;host\n", b"from;load;head\n")?;
    assert!(rt; of_places && of_routes && lead);
    assert!(rt; !near);
    Ok(())
}

// No title is nearly a head about periods and nearly another one.
#[test]
fn titles_are_told_once(rt: HostRuntime) -> Result<(), Fail> {
    let places = b"name;supply;Periods;keep mots;keepcost;First_Stock;last-stock\n";
    let are_none = match &said(rt.alloc(), places, b"from;to;most;cost;perod\n", None)? {
        Some(Ok(_)) => true,
        _ => false,
    };
    assert!(rt; are_none);
    Ok(())
}
