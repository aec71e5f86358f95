//! Tables in other forms than those that are read.
use mcf_forms::{
    Filling, filled_columns, filled_down, first_column, routes_of, wishes_of, without_total,
};
use mcf_table::{Records, records_of};
use mcf_text::NoMemory;
use std::alloc::Global;
use std::test::Fail;

// A row: its line, and its cells.
type Row = (usize, &'static [&'static [u8]]);

const PLACES: &[u8] = b"supply;Name\n2;A\n-1;B\n-1;C\n";

const MATRIX: &[u8] = b"to;A;B;C;Dorf\nA;0;1,5;-;x\n\nB;2;0;3,25;\nC\n";

const LIST: &[Row] = &[
    (1, &[b"from", b"to", b"most", b"cost"]),
    (2, &[b"A", b"B", b"", b"1,5"]),
    (4, &[b"B", b"A", b"", b"2"]),
    (4, &[b"B", b"C", b"", b"3,25"]),
];

// Tables whose last row is one of totals.
static TOTALS: [&[u8]; 7] = [
    b"name;supply\nA;1\nB;2\nTotal;3\n",
    b"name;supply\nA;1,5\nB;2,25\n;3,75\n",
    b"from;to;most;cost\nA;B;1.000;0.5\nB;A;;1\nSUMME;;1.000;1.50\n",
    b"who;what;cost\nA;X;-1\nB;Y;1\nC;;7\n;insgesamt;7\n",
    b"from;to;cost\nA;B;1.5\nB;A;2.500\ngesamt;gesamt;4\n",
    b"name;supply\nA;1\nB;2\nGrand Total;3\n",
    b"name;supply\nA;1\nB;2\nGesamtergebnis;3\n",
];

// Tables whose last row isn't.
static NO_TOTALS: [&[u8]; 8] = [
    b"name;supply\nA;1\nTotal;1\n",
    b"name;supply\nA;1\nB;2\nTotal;4\n",
    b"name;supply\nA;1\nB;2\nC;3\n",
    b"name;supply\nA;1\nB;2\nTotal;\n",
    b"name;supply\nA;1\nB;x\nTotal;1\n",
    b"place;supply\nA;1\nB;2\nTotal;3\n",
    b"name;supply\nA;9000000000000000000\nB;9000000000000000000\n;18000000000000000000\n",
    b"",
];

// Whether a row of the table is this one.
fn is_row(records: &Records, row: usize, wanted: Row) -> bool {
    if records.len() <= row {
        return false;
    }
    let (line, cells) = wanted;
    if records.line(row) != line || records.cell_count(row) != cells.len() {
        return false;
    }
    for place in 0..cells.len() {
        if records.cell(row, place) != cells[place] {
            return false;
        }
    }
    true
}

// Whether the table has just these rows.
fn has_rows(records: &Records, rows: &[Row]) -> bool {
    for row in 0..rows.len() {
        if !is_row(records, row, rows[row]) {
            return false;
        }
    }
    records.len() == rows.len()
}

// The rows of a text, whose cells a semicolon separates; none if it is no table.
fn rows_of(alloc: Global, text: &[u8]) -> Result<Records, NoMemory> {
    match records_of(alloc, text, b';')? {
        Ok(records) => Ok(records),
        Err(_) => Ok(Records::new(alloc)),
    }
}

// The line of the last row, and that of the row of totals, if one is left out.
fn lines(alloc: Global, text: &[u8]) -> Result<(usize, Option<usize>), NoMemory> {
    let records = rows_of(alloc, text)?;
    let count = records.len();
    let last = if count == 0 {
        0
    } else {
        records.line(count - 1)
    };
    let made = without_total(alloc, records)?;
    let left = count - made.rows.len().min(count);
    if left == usize::from(made.line.is_some()) {
        Ok((last, made.line))
    } else {
        Ok((0, None))
    }
}

#[test]
fn leaves_totals_out(rt: HostRuntime) -> Result<(), Fail> {
    for text in TOTALS {
        let (last, line) = lines(rt.alloc(), text)?;
        assert_eq!(rt; line, Some(last));
    }
    for text in NO_TOTALS {
        let (_, line) = lines(rt.alloc(), text)?;
        assert_eq!(rt; line, None);
    }
    Ok(())
}

#[test]
fn lists_a_matrix(rt: HostRuntime) -> Result<(), Fail> {
    let alloc = rt.alloc();
    let places = rows_of(alloc, PLACES)?;
    let matrix = rows_of(alloc, MATRIX)?;
    let list = routes_of(alloc, &places, &matrix)?.ok_or("no matrix")?;
    assert!(rt; has_rows(&list, LIST));
    let again = routes_of(alloc, &places, &list)?;
    assert!(rt; again.is_none());
    let few = rows_of(alloc, b"to;A;X;Y\nA;1;2;3\n")?;
    let none = routes_of(alloc, &places, &few)?;
    assert!(rt; none.is_none());
    Ok(())
}

#[test]
fn fills_a_column_down(rt: HostRuntime) -> Result<(), Fail> {
    let alloc = rt.alloc();
    let table = rows_of(alloc, b"from;To;cost\n;W\nA;X;1\n;Y;2\n;;3\nB;\nZ\n")?;
    assert_eq!(rt; first_column(&table, b"who"), None);
    let place = first_column(&table, b"to").ok_or("no column")?;
    let made = filled_down(alloc, &table, place)?;
    let rows: [Row; 7] = [
        (1, &[b"from", b"To", b"cost"]),
        (2, &[b"", b"W"]),
        (3, &[b"A", b"X", b"1"]),
        (4, &[b"", b"Y", b"2"]),
        (5, &[b"", b"Y", b"3"]),
        (6, &[b"B", b"Y"]),
        (7, &[b"Z", b"Y"]),
    ];
    assert!(rt; has_rows(&made.rows, rows.as_slice()));
    assert_eq!(rt; made.count, 3);
    Ok(())
}

#[test]
fn fills_columns_down(rt: HostRuntime) -> Result<(), Fail> {
    let alloc = rt.alloc();
    let table = rows_of(alloc, b"from;to;to\nA;X;1\n;;2\n;Y;3\n")?;
    let made = filled_columns(alloc, table, b"TO\nvia\nfrom")?;
    let rows: [Row; 4] = [
        (1, &[b"from", b"to", b"to"]),
        (2, &[b"A", b"X", b"1"]),
        (3, &[b"A", b"X", b"2"]),
        (4, &[b"A", b"Y", b"3"]),
    ];
    assert!(rt; has_rows(&made.rows, rows.as_slice()));
    let columns = [
        Filling { place: 1, count: 1 },
        Filling { place: 0, count: 2 },
    ];
    assert!(rt; made.columns.as_slice() == columns.as_slice());
    Ok(())
}

// A sheet of wishes below a title.
const WISHES: &[u8] = b"Sport\nwho;class;1. Wunsch;Wahl 2;third;Needs\nAnn;5b;Yoga;Chess;-\n\n\
    Bea;;;;-;2..3\nCem;5a;Chess;;Yoga;4\n";

const PAIRS: &[Row] = &[
    (2, &[b"who", b"what", b"cost", b"class", b"Needs"]),
    (3, &[b"Ann", b"Yoga", b"1", b"5b", b"2..3"]),
    (3, &[b"Ann", b"Chess", b"2", b"5b", b"2..3"]),
    (5, &[b"Bea", b"Yoga", b"", b"", b"2..3"]),
    (6, &[b"Cem", b"Chess", b"1", b"5a", b"4"]),
    (6, &[b"Cem", b"Yoga", b"3", b"5a", b"4"]),
];

// Tables that are no sheets of wishes.
static NO_WISHES: [&[u8]; 7] = [
    b"who;1;2\nAnn;3;1\nBea;Yoga;2\n",
    b"who;2;1\nAnn;Yoga;Chess\n",
    b"who;1\nAnn;Yoga\n",
    b"who;1;2;cost\nAnn;Yoga;Chess;1\n",
    b"name;1;2\nAnn;Yoga;Chess\n",
    b"who;1;2\nAnn;;x\n",
    b"",
];

#[test]
fn lists_a_sheet_of_wishes(rt: HostRuntime) -> Result<(), Fail> {
    let alloc = rt.alloc();
    let sheet = rows_of(alloc, WISHES)?;
    let list = wishes_of(alloc, &sheet)?.ok_or("no wishes")?;
    assert!(rt; has_rows(&list.rows, PAIRS));
    assert_eq!(rt; list.count, 4);
    assert!(rt; list.needs.as_slice() == b"2..3".as_slice());
    for text in NO_WISHES {
        let rows = rows_of(alloc, text)?;
        let none = wishes_of(alloc, &rows)?;
        assert!(rt; none.is_none());
    }
    Ok(())
}

// Heads of the first, the second and the third wish.
static RANKS: [&[u8]; 5] = [
    b"who;1;2;3\nA;Y\n",
    b"who;1st;2nd choice;3rd\nA;Y\n",
    b"who;Erstwunsch;zweite Wahl;dritter Wunsch\nA;Y\n",
    b"who;First;WISH 2;wahl3.\nA;Y\n",
    b"Erste Wahl;who;2;dritt\nY;A\n",
];

#[test]
fn heads_say_ranks(rt: HostRuntime) -> Result<(), Fail> {
    for text in RANKS {
        let rows = rows_of(rt.alloc(), text)?;
        let list = wishes_of(rt.alloc(), &rows)?.ok_or("no wishes")?;
        assert_eq!(rt; list.rows.cell_count(0), 3);
    }
    Ok(())
}
