//! Faults of tables: `python/mcf_plan` tells the same ones.
use crate::texts::said;
use mcf_decimal::NumberFault;
use mcf_names::NameFault;
use mcf_reading::{ColumnAt, Fault, FaultKind, Head, Location, Table};
use std::test::Fail;

// Two tables, and the only fault of both: its table, its row, its column, and its kind.
type FaultRow = (
    &'static [u8],
    &'static [u8],
    Table,
    usize,
    ColumnAt,
    FaultKind,
);

static ROWS: [FaultRow; 19] = [
    (
        b"name\nA\n",
        b"from;to;most;cost\n",
        Table::Places,
        0,
        ColumnAt::Under(Head::Supply),
        FaultKind::NoColumn,
    ),
    (
        b"name;supply\nA;1\n",
        b"from;to;most;cost;most 2;cost 2;COST 2\n",
        Table::Routes,
        0,
        ColumnAt::Under(Head::Cost(2)),
        FaultKind::TwoColumns,
    ),
    (
        b"name;supply\nA;12,50\nB;1\n",
        b"from;to;most;cost\nA;B;1.5;1\n",
        Table::Routes,
        1,
        ColumnAt::Under(Head::Most(1)),
        FaultKind::BothMarks,
    ),
    (
        b"name;keep cost;supply;last stock\nA;12,50;1;\nB;;1;2.5\n",
        b"from;to;most;cost\n",
        Table::Places,
        2,
        ColumnAt::Placed(3),
        FaultKind::BothMarks,
    ),
    (
        b"name;supply\nA;12,50\n",
        b"from;to;most;cost;lead\nA;A;1;1;1.5\n",
        Table::Routes,
        1,
        ColumnAt::Placed(4),
        FaultKind::BothMarks,
    ),
    (
        b"name;supply\nA;1\nB;2;3\n",
        b"from;to;most;cost\n",
        Table::Places,
        2,
        ColumnAt::Placed(2),
        FaultKind::Beyond,
    ),
    (
        b"name;supply\n;1\n",
        b"from;to;most;cost\n",
        Table::Places,
        1,
        ColumnAt::Under(Head::Name),
        FaultKind::Name(NameFault::Empty),
    ),
    (
        b"name;supply\nA\x01;1\n",
        b"from;to;most;cost\n",
        Table::Places,
        1,
        ColumnAt::Under(Head::Name),
        FaultKind::Name(NameFault::Control),
    ),
    (
        b"name;supply\nA;1\nB;1\nA;1\n",
        b"from;to;most;cost\n",
        Table::Places,
        3,
        ColumnAt::Under(Head::Name),
        FaultKind::Twice,
    ),
    (
        b"name;supply\nA;1\nB;1\n",
        b"from;to;most;cost\nA;B;1;1\nA;b;1;1\n",
        Table::Routes,
        2,
        ColumnAt::Under(Head::To),
        FaultKind::NoPlace,
    ),
    (
        b"name;supply\nA;1\nB;1\n",
        b"from;to;most;cost\nA;B;1;\n",
        Table::Routes,
        1,
        ColumnAt::Under(Head::Cost(1)),
        FaultKind::Number(NumberFault::Empty),
    ),
    (
        b"name;supply\nA;1.000\n",
        b"from;to;most;cost\n",
        Table::Places,
        1,
        ColumnAt::Under(Head::Supply),
        FaultKind::Number(NumberFault::Either),
    ),
    (
        b"name;supply;least;most;cost\nA;1;;ten;\n",
        b"from;to;most;cost\n",
        Table::Places,
        1,
        ColumnAt::Under(Head::Most(1)),
        FaultKind::Number(NumberFault::NoNumber),
    ),
    (
        b"name;supply;penalty\nA;1;\nB;-1;inf\n",
        b"from;to;most;cost\n",
        Table::Places,
        2,
        ColumnAt::Under(Head::Penalty),
        FaultKind::Number(NumberFault::NoNumber),
    ),
    (
        b"name;supply;penalty\nA;1,5;\nB;-1;2.5\n",
        b"from;to;most;cost\n",
        Table::Places,
        2,
        ColumnAt::Under(Head::Penalty),
        FaultKind::BothMarks,
    ),
    (
        b"name;supply\nA;1\nB;1\n",
        b"from;to;least;most;cost\nA;B;1e3;;1\n",
        Table::Routes,
        1,
        ColumnAt::Under(Head::Least),
        FaultKind::Number(NumberFault::Exponent),
    ),
    (
        b"name;supply\nA;1\nB;1\n",
        b"from;to;most;cost;most 2;cost 2\nA;B;inf;1;5;2\n",
        Table::Routes,
        1,
        ColumnAt::Under(Head::Most(2)),
        FaultKind::AfterNoLimit,
    ),
    (
        b"name;supply\nA;1\nB;1\n",
        b"from;to;most;cost;most 2;cost 2;most 3;cost 3\nA;B;1;1;;;2;3\n",
        Table::Routes,
        1,
        ColumnAt::Under(Head::Cost(2)),
        FaultKind::Number(NumberFault::Empty),
    ),
    (
        b"name;supply\nA;1\nB;1\n",
        b"from;to;most;cost;both\nA;B;1;1;YES\nA;B;1;1;Nein\nA;B;1;1;perhaps\n",
        Table::Routes,
        3,
        ColumnAt::Under(Head::Both),
        FaultKind::NotYesNo,
    ),
];

#[test]
fn tables_have_faults(rt: HostRuntime) -> Result<(), Fail> {
    for (places, routes, table, row, column, kind) in ROWS {
        let at = Location { table, row, column };
        let said = said(rt.alloc(), places, routes, None)?;
        let is_fault = match &said {
            Some(Err(faults)) => faults.list() == [Fault { at, kind }].as_slice(),
            _ => false,
        };
        assert!(rt; is_fault);
    }
    Ok(())
}
