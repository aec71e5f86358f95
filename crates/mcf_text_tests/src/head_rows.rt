//! Heads below other lines of a table; the rows are worked by hand.
use mcf_table::{Column, Records, records_of};
use mcf_text::NoMemory;
use std::alloc::Global;
use std::test::Fail;

// Eleven rows; heads stand in the third and in the last.
static TEXT: &[u8] = b"Plan\n\n2026,name\nSupply,x,NAME\nA\nB\nC\nD\nE\nF\nG\nname,y,supply\n";

// The row from which heads are looked for, the heads, and their row.
type Found = (usize, &'static [&'static [u8]], usize);

static FOUND: [Found; 9] = [
    (0, &[b"name", b"supply"], 2),
    (2, &[b"supply", b"name"], 2),
    (3, &[b"name", b"supply"], 10),
    (0, &[b"name"], 1),
    (0, &[b"y"], 0),
    (1, &[b"y"], 10),
    (5, &[b"cost"], 5),
    (4, &[], 4),
    (30, &[b"name"], 30),
];

// Whether the heads are found in these rows.
fn are_found(records: &Records, rows: &[Found]) -> bool {
    for (from, wanted, row) in rows {
        if records.head_row(*from, wanted) != *row {
            return false;
        }
    }
    true
}

// The columns with a head after so many rows, and how many rows are left; none if no row is read.
fn left(alloc: Global, count: usize, head: &[u8]) -> Result<Option<(Column, usize)>, NoMemory> {
    Ok(match records_of(alloc, TEXT, b',')? {
        Ok(records) => {
            let left = records.drop_front(count);
            Some((left.column_of(head), left.len()))
        }
        Err(_) => None,
    })
}

#[test]
fn heads_stand_in_rows(rt: HostRuntime) -> Result<(), Fail> {
    let are_there = match &records_of(rt.alloc(), TEXT, b',')? {
        Ok(records) => are_found(records, &FOUND),
        Err(_) => false,
    };
    assert!(rt; are_there);
    Ok(())
}

#[test]
fn rows_in_front_are_dropped(rt: HostRuntime) -> Result<(), Fail> {
    let heads = left(rt.alloc(), 2, b"name")?;
    assert!(rt; heads == Some((Column::At(2), 9)));
    let nothing = left(rt.alloc(), 12, b"name")?;
    assert!(rt; nothing == Some((Column::Missing, 0)));
    Ok(())
}

#[test]
fn rows_are_pushed_and_cut(rt: HostRuntime) -> Result<(), Fail> {
    let mut records = Records::new(rt.alloc());
    records.push_row(1, &[b"name", b"most"])?;
    records.push_row(3, &[b"Port"])?;
    assert!(rt; records.len() == 2);
    assert!(rt;
        records.line(1) == 3
            && records.cell_count(1) == 1
            && records.cell(1, 0) == b"Port".as_slice()
    );
    let front = records.keep_front(1);
    assert!(rt; front.len() == 1 && front.head(1) == b"most".as_slice());
    assert!(rt; front.column_of(b"most").only_place() == Some(1));
    assert!(rt; front.column_of(b"most").is_there() && !front.column_of(b"cost").is_there());
    Ok(())
}
