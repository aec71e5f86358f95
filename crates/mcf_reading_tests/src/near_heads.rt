//! Titles that nearly are heads; `rules.json` of `python/tests` has the same ones.
use crate::texts::said;
use mcf_reading::{ColumnAt, Fault, FaultKind, Head, Location, Table};
use std::test::Fail;

static PLACES: &[u8] = b"name;supply\nMill;30\nWien;-30\n";

// The place of a column, from 0, and what is wrong with its title.
type Told = (usize, FaultKind);

// The heads of the table of routes, and what is wrong with them.
static OF_ROUTES: [(&[u8], &[Told]); 14] = [
    (
        b"from;to;most;cost;most2;cost2\n",
        &[
            (4, FaultKind::NearHead(Head::Most(2))),
            (5, FaultKind::NearHead(Head::Cost(2))),
        ],
    ),
    (
        b"from;to;most;cost;Most_2;Cost_2\n",
        &[
            (4, FaultKind::NearHead(Head::Most(2))),
            (5, FaultKind::NearHead(Head::Cost(2))),
        ],
    ),
    (
        b"from;to;most;cost;most-2;cost  2\n",
        &[
            (4, FaultKind::NearHead(Head::Most(2))),
            (5, FaultKind::NearHead(Head::Cost(2))),
        ],
    ),
    (
        b"from;to;most;cost;mots 2;ocst 2\n",
        &[
            (4, FaultKind::NearHead(Head::Most(2))),
            (5, FaultKind::NearHead(Head::Cost(2))),
        ],
    ),
    (
        b"from;to;most;cost;max 2;cost02\n",
        &[
            (4, FaultKind::NearHead(Head::Most(2))),
            (5, FaultKind::NearHead(Head::Cost(2))),
        ],
    ),
    (
        b"from;to;most;cost;most 3;cost 3\n",
        &[
            (4, FaultKind::Without(Head::Most(2))),
            (5, FaultKind::Without(Head::Most(2))),
        ],
    ),
    (
        b"from;to;most;cost;cost 2\n",
        &[(4, FaultKind::Without(Head::Most(2)))],
    ),
    (
        b"from;to;most;cost;most 2;cost 2;Cost 3\n",
        &[(6, FaultKind::Without(Head::Most(3)))],
    ),
    (
        b"from;to;Min;most;cost\n",
        &[(2, FaultKind::NearHead(Head::Least))],
    ),
    (
        b"from;to;leats;most;cost;bothe\n",
        &[
            (2, FaultKind::NearHead(Head::Least)),
            (5, FaultKind::NearHead(Head::Both)),
        ],
    ),
    (
        b"from;to;most;cost;least;least 2;to.\n",
        &[
            (5, FaultKind::NearHead(Head::Least)),
            (6, FaultKind::NearHead(Head::To)),
        ],
    ),
    (b"from;to;most;cost;moost;costs;form;tu;0;\n", &[]),
    (b"from;to;most;cost;bot 2;note;supply;name\n", &[]),
    (b"FROM;To;mosT;COST;Both;MOST 2;cOST 2\n", &[]),
];

// The heads of the table of places, and what is wrong with them.
static OF_PLACES: [(&[u8], &[Told]); 3] = [
    (
        b"name;supply;max;Cots\n",
        &[
            (2, FaultKind::NearHead(Head::Most(1))),
            (3, FaultKind::NearHead(Head::Cost(1))),
        ],
    ),
    (
        b"name;supply;most 2\n",
        &[(2, FaultKind::NearHead(Head::Most(1)))],
    ),
    (b"name;supply;from;x;y;host;most;cost\n", &[]),
];

// Whether the faults are just these, of the row of a table's heads.
fn are_told(faults: &[Fault], table: Table, told: &[Told]) -> bool {
    if faults.len() != told.len() {
        return false;
    }
    for k in 0..faults.len() {
        let at = Location {
            table,
            row: 0,
            column: ColumnAt::Placed(told[k].0),
        };
        let kind = told[k].1;
        if faults[k] != (Fault { at, kind }) {
            return false;
        }
    }
    true
}

#[test]
fn titles_of_routes_are_nearly_heads(rt: HostRuntime) -> Result<(), Fail> {
    for (routes, wanted) in OF_ROUTES {
        let are = match &said(rt.alloc(), PLACES, routes, None)? {
            Some(Err(faults)) => are_told(faults.list(), Table::Routes, wanted),
            Some(Ok(_)) => wanted.is_empty(),
            None => false,
        };
        assert!(rt; are);
    }
    Ok(())
}

#[test]
fn titles_of_places_are_nearly_heads(rt: HostRuntime) -> Result<(), Fail> {
    for (places, wanted) in OF_PLACES {
        let are = match &said(rt.alloc(), places, b"from;to;most;cost\n", None)? {
            Some(Err(faults)) => are_told(faults.list(), Table::Places, wanted),
            Some(Ok(_)) => wanted.is_empty(),
            None => false,
        };
        assert!(rt; are);
    }
    Ok(())
}

// A needed head is told as missing, and the title that nearly is it as well.
#[test]
fn needed_heads_are_told_twice(rt: HostRuntime) -> Result<(), Fail> {
    let missing = Fault {
        at: Location {
            table: Table::Routes,
            row: 0,
            column: ColumnAt::Under(Head::Cost(1)),
        },
        kind: FaultKind::NoColumn,
    };
    let near = Fault {
        at: Location {
            table: Table::Routes,
            row: 0,
            column: ColumnAt::Placed(3),
        },
        kind: FaultKind::NearHead(Head::Cost(1)),
    };
    let are = match &said(rt.alloc(), PLACES, b"from;to;most;costs\n", None)? {
        Some(Err(faults)) => faults.list() == [missing, near].as_slice(),
        _ => false,
    };
    assert!(rt; are);
    Ok(())
}
