//! Texts of tables: `python/mcf_plan/tables.py`, which reads them by Python's module csv, gives the
//! same rows, lines and faults.
use mcf_table::{
    CellPlace, Column, FieldFault, Records, TextFault, named_separator, put_row, records_of,
    separator_of, texts_are_unambiguous, written_tables_read_back,
};
use mcf_text::NoMemory;
use std::alloc::Global;
use std::test::Fail;

// A row: its line, and its cells.
type Row = (usize, &'static [&'static [u8]]);

// Texts, what separates their fields, and their rows.
static TEXTS: [(&[u8], u8, &[Row]); 11] = [
    (
        b"name,supply\nMill A,20\n\nMill B,10\n",
        b',',
        &[
            (1, &[b"name", b"supply"]),
            (2, &[b"Mill A", b"20"]),
            (4, &[b"Mill B", b"10"]),
        ],
    ),
    (
        b"a;b\r\n\"x;y\"; 1 \r\n\"say \"\"hi\"\"\";\r\n",
        b';',
        &[
            (1, &[b"a", b"b"]),
            (2, &[b"x;y", b"1"]),
            (3, &[b"say \"hi\"", b""]),
        ],
    ),
    (
        b"  \"two\nlines\",z\nx,y",
        b',',
        &[(1, &[b"two\nlines", b"z"]), (3, &[b"x", b"y"])],
    ),
    (
        b"a\tb\rc\t\r\t\r\"d\"\te",
        b'\t',
        &[(1, &[b"a", b"b"]), (2, &[b"c", b""]), (4, &[b"d", b"e"])],
    ),
    (b"\xEF\xBB\xBF\"a\",b\n", b',', &[(1, &[b"a", b"b"])]),
    (
        b"\xC2\xA0a\xE3\x80\x80,\xE2\x80\x83b \xE2\x80\xAF,\xEF\xBB\xBFc",
        b',',
        &[(1, &[b"a", b"b", b"c"])],
    ),
    (
        b"a\"b,c\"\"d\n x \"y\",\"\"\n",
        b',',
        &[(1, &[b"a\"b", b"c\"\"d"]), (2, &[b"x \"y\"", b""])],
    ),
    (
        b"\"line\r\nend\",1\r\n,,\r\n2,,\r\n",
        b',',
        &[(1, &[b"line\nend", b"1"]), (4, &[b"2", b"", b""])],
    ),
    (b"", b',', &[]),
    (b"\n \n;\n", b';', &[]),
    (
        b"\"a\"\"\",\"\"\"\"\n\"b,c\"",
        b',',
        &[(1, &[b"a\"", b"\""]), (2, &[b"b,c"])],
    ),
];

// Texts, what separates their fields, and their faults with the lines.
static FAULTS: [(&[u8], u8, usize, FieldFault); 5] = [
    (b"  \"two\nlines\" \n", b',', 1, FieldFault::AfterQuote),
    (b"a,b\nc,\"open\nd,e\n", b',', 2, FieldFault::Unclosed),
    (b"a\n\"b\" ,c\n", b',', 2, FieldFault::AfterQuote),
    (b"a\r\n\r\n\"x\r\ny\"z\r\n", b',', 3, FieldFault::AfterQuote),
    (b"\"a\"b\"", b',', 1, FieldFault::AfterQuote),
];

// Texts, what separates their fields, heads, and the columns with these.
static COLUMNS: [(&[u8], u8, &[u8], Column); 9] = [
    (b"Name,SUPPLY,name \nA,1,x\n", b',', b"name", Column::Twice),
    (
        b"Name,SUPPLY,name \nA,1,x\n",
        b',',
        b"supply",
        Column::At(1),
    ),
    (
        b"Name,SUPPLY,name \nA,1,x\n",
        b',',
        b"cost",
        Column::Missing,
    ),
    (b"Name,SUPPLY,name \nA,1,x\n", b',', b"a", Column::Missing),
    (b"from;to;cost;;Cost\n", b';', b"from", Column::At(0)),
    (b"from;to;cost;;Cost\n", b';', b"to", Column::At(1)),
    (b"from;to;cost;;Cost\n", b';', b"cost", Column::Twice),
    (b"from;to;cost;;Cost\n", b';', b"", Column::At(3)),
    (b"", b',', b"name", Column::Missing),
];

// A cell's line, and its place in its row.
type Spot = (usize, usize);

// Texts, what separates their fields, and the filled cells beyond the last head.
static BEYOND: [(&[u8], u8, &[Spot]); 5] = [
    (
        b"from;to;cost;;Cost\na;b;1;2;3;4\n\nc;d;;;;;;5;6\n;;;;;\n",
        b';',
        &[(2, 5), (4, 7), (4, 8)],
    ),
    (b"a\n,x\n1, ,y\n,,\"\"\n", b',', &[(2, 1), (3, 2)]),
    (b"a,\n1,2,3\n\"p\nq\",,\n,,,z\n", b',', &[(2, 2), (5, 3)]),
    (b"Name,SUPPLY,name \nA,1,x\n", b',', &[]),
    (b"", b',', &[]),
];

// Heads that texts may have.
static HEADS: [&[u8]; 3] = [b"from", b"to", b"cost"];

// Texts, and what separates their fields if these heads are wanted.
static SEPARATORS: [(&[u8], u8); 17] = [
    (b"from;to;cost,x,y,z\n", b';'),
    (b"\r\n \r\nfrom\tTo\tcost\r\na,b,c,d\r\n", b'\t'),
    (b"a;b,c\n", b','),
    (b"a;b;c,d\n", b';'),
    (b"", b','),
    (b"\n \n", b','),
    (b"\xEF\xBB\xBF\"from\" ; \"\"To\"\";x,from,y,z,u\n", b';'),
    (b"from,to;cost;x\n", b';'),
    (b"cost;cost;cost,to\n", b';'),
    (b"x\ty;z\rfrom,to,cost\n", b','),
    (b"Routes, week 48, all of them\n\nfrom;to;cost\n", b';'),
    (b"from;\"to,\nand where\";cost,x,y\nA;B;1\n", b';'),
    (b"a,b\n\n2\n3\n4\n5\n6\n7\n8\n9\nfrom;to\n", b';'),
    (b"a,b\n\n2\n3\n4\n5\n6\n7\n8\n9\n10\nfrom;to\n", b','),
    (b"from;x\ncost,y,z\nto;y;z;u\n", b','),
    (b"\xC5\xBF;\xEF\xAC\x81,x\n", b','),
    (b"from", b','),
];

// Texts, and the separators that they name; the tools also take a quote at one end alone, and a
// separator beyond ASCII.
static NAMED: [(&[u8], Option<u8>); 18] = [
    (b"sep=;\na;b\n", Some(b';')),
    (b"\"sep=,\"\r\na,b", Some(b',')),
    (b"\n \nSEP=\t\nx", Some(b'\t')),
    (b"\xEF\xBB\xBFSep=| \t\xC2\xA0", Some(b'|')),
    (b"\"sEp=;\"  ", Some(b';')),
    (b"sep==\na=b", Some(b'=')),
    (b"sep= \n", None),
    (b"sep=", None),
    (b"sep=\"", None),
    (b"sep=;;", None),
    (b" sep=;", None),
    (b"set=;", None),
    (b"sep=\xC3\xA4", None),
    (b"", None),
    (b"a;b\nsep=;", None),
    (b"\"sep=;", None),
    (b"sep=;\"", None),
    (b"\"sep=\"\"", None),
];

// The rows of a text, whose fields a semicolon, a tab or a comma separates.
fn read(alloc: Global, text: &[u8], separator: u8) -> Result<Result<Records, TextFault>, NoMemory> {
    match separator {
        b';' => records_of(alloc, text, b';'),
        b'\t' => records_of(alloc, text, b'\t'),
        _ => records_of(alloc, text, b','),
    }
}

// Whether the row has these cells, and an empty one after them.
fn has_cells(records: &Records, row: usize, wanted: &[&[u8]]) -> bool {
    if row >= records.len() || records.cell_count(row) != wanted.len() {
        return false;
    }
    for place in 0..wanted.len() {
        if records.cell(row, place) != wanted[place] {
            return false;
        }
    }
    records.cell(row, wanted.len()).is_empty()
}

// Whether these are the rows.
fn has_rows(records: &Records, wanted: &[Row]) -> bool {
    if records.len() != wanted.len() {
        return false;
    }
    for row in 0..records.len() {
        let (line, cells) = wanted[row];
        if records.line(row) != line || !has_cells(records, row, cells) {
            return false;
        }
    }
    true
}

#[test]
fn texts_have_rows(rt: HostRuntime) -> Result<(), Fail> {
    for (text, separator, wanted) in TEXTS {
        let read = read(rt.alloc(), text, separator)?;
        let is_read = match &read {
            Ok(records) => has_rows(records, wanted),
            Err(_) => false,
        };
        assert!(rt; is_read);
    }
    Ok(())
}

#[test]
fn texts_have_faults(rt: HostRuntime) -> Result<(), Fail> {
    for (text, separator, line, kind) in FAULTS {
        let read = read(rt.alloc(), text, separator)?;
        let is_fault = match &read {
            Ok(_) => false,
            Err(fault) => *fault == TextFault { line, kind },
        };
        assert!(rt; is_fault);
    }
    Ok(())
}

// Whether these are the cells, by their lines.
fn are_at(records: &Records, cells: &[CellPlace], wanted: &[Spot]) -> bool {
    if cells.len() != wanted.len() {
        return false;
    }
    for i in 0..cells.len() {
        let CellPlace { row, place } = cells[i];
        if row >= records.len() || (records.line(row), place) != wanted[i] {
            return false;
        }
    }
    true
}

#[test]
fn tables_have_columns(rt: HostRuntime) -> Result<(), Fail> {
    for (text, separator, head, wanted) in COLUMNS {
        let read = read(rt.alloc(), text, separator)?;
        let is_column = match &read {
            Ok(records) => records.column_of(head) == wanted,
            Err(_) => false,
        };
        assert!(rt; is_column);
    }
    Ok(())
}

#[test]
fn tables_have_cells_beyond(rt: HostRuntime) -> Result<(), Fail> {
    for (text, separator, wanted) in BEYOND {
        let read = read(rt.alloc(), text, separator)?;
        let are_beyond = match &read {
            Ok(records) => are_at(records, &records.beyond(rt.alloc())?, wanted),
            Err(_) => false,
        };
        assert!(rt; are_beyond);
    }
    Ok(())
}

#[test]
fn heads_show_separators(rt: HostRuntime) -> Result<(), Fail> {
    for (text, wanted) in SEPARATORS {
        assert!(rt; separator_of(text, &HEADS) == wanted);
    }
    Ok(())
}

#[test]
fn texts_name_separators(rt: HostRuntime) -> Result<(), Fail> {
    for (text, wanted) in NAMED {
        assert!(rt; named_separator(text) == wanted);
    }
    Ok(())
}

#[test]
fn laws_of_texts_hold(_rt: HostRuntime) -> Result<(), Fail> {
    texts_are_unambiguous();
    written_tables_read_back();
    Ok(())
}

#[test]
fn a_row_is_written_between_quotes(rt: HostRuntime) -> Result<(), Fail> {
    let mut out = Vec::new(rt.alloc());
    put_row(&mut out, b';', &[b"Mill \"A\"", b"", b"1;2"])?;
    put_row(&mut out, b';', &[])?;
    assert!(rt; out.as_slice() == b"\"Mill \"\"A\"\"\";\"\";\"1;2\"\n\n".as_slice());
    Ok(())
}
