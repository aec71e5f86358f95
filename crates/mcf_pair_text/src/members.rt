//! Persons and things as rows of a table: all of them, or those that compete.
ghost use Rattle.std.specs.Prelude.{◌≡◌, ◌++◌, OnOk, false, length, map, slice_index_or};
ghost use Rattle.std.specs.List.{flat_map, range_with_len};
ghost use Rattle.mcf_answer_rows.specs.Lines.{row_line, rows_text};
ghost use Rattle.mcf_pair_text.specs.MemberRows.{member_lists, member_persons, member_row, member_rows, member_things, members, named, named_lists, named_row};
ghost use Rattle.mcf_pair_text.specs.PairPlaces.{sheet_in};

use crate::pages::{Page, line_in, name_at, names_under, person_column, thing_column};
use mcf_answer_rows::{number_cell, put_line};
use mcf_names::Names;
use mcf_roster::Competition;
use mcf_roster_reading::RosterTable;
use mcf_table::Records;
use mcf_text::NoMemory;
use std::alloc::Global;

// A test of a list; no beyond its end.
pub(crate) fn test_at(tests: &[bool], place: usize) -> bool
    ensures { result ≡ slice_index_or tests.now place false }
{
    match tests.get(place) {
        Some(test) => *test,
        None => false,
    }
}

// A number of a list; 0 beyond its end.
fn amount_at(amounts: &[u32], place: usize) -> u32
    ensures { result ≡ slice_index_or amounts.now place 0 }
{
    match amounts.get(place) {
        Some(amount) => *amount,
        None => 0,
    }
}

// The word for one of a side, and the rows of the table.
#[derive(Clone, Copy)]
struct Kind<'p> {
    word: &'p [u8],
    records: &'p Records,
}

// The word for one of a side, and the rows of a page.
fn kind_in<'p>(page: Page<'p>, word: &'p [u8]) -> Kind<'p>
    ensures word { result.word.now ≡ word.now }
    ensures records { result.records.now ≡ page.entry.records.now }
{
    Kind {
        word,
        records: page.records,
    }
}

// Appends one of a side.
fn put_named(
    alloc: Global,
    out: &mut Vec<u8>,
    kind: Kind<'_>,
    under: &Names<'_>,
    name: &[u8],
) -> Result<(), NoMemory>
    ensures { OnOk result (out.new.items ≡ out.old.items
        ++ row_line (named_row kind.entry.word.now kind.entry.records.now under.now name.now)) }
{
    let line = line_in(alloc, kind.records, under, name)?;
    put_line(out, &[kind.word, &line, name])
}

// Appends all of a side.
fn put_all_named(
    alloc: Global,
    out: &mut Vec<u8>,
    kind: Kind<'_>,
    under: &Names<'_>,
    names: &Names<'_>,
) -> Result<(), NoMemory>
    ensures { OnOk result (out.new.items ≡ out.old.items
        ++ rows_text (map (named_row kind.entry.word.now kind.entry.records.now under.now) names.now)) }
{
    for place in 0..names.len() {
        put_named(alloc, out, kind, under, name_at(names, place))?;
    }
    Ok(())
}

// Appends all of a side, which a column names.
fn put_side(
    alloc: Global,
    out: &mut Vec<u8>,
    kind: Kind<'_>,
    column: Option<usize>,
    names: &Names<'_>,
) -> Result<(), NoMemory>
    ensures { OnOk result (out.new.items ≡ out.old.items
        ++ rows_text (named kind.entry.word.now kind.entry.records.now column names.now)) }
{
    let under = names_under(alloc, kind.records, column)?;
    put_all_named(alloc, out, kind, &under, names)
}

// Appends all persons and all things.
pub(crate) fn put_named_lists(
    alloc: Global,
    out: &mut Vec<u8>,
    page: Page<'_>,
    table: &RosterTable<'_>,
) -> Result<(), NoMemory>
    ensures { OnOk result (out.new.items ≡ out.old.items ++ rows_text (named_lists (sheet_in page.entry) table.now)) }
{
    let persons = table.persons();
    put_side(
        alloc,
        out,
        kind_in(page, b"person"),
        person_column(page),
        persons,
    )?;
    put_side(
        alloc,
        out,
        kind_in(page, b"thing"),
        thing_column(page),
        table.things(),
    )
}

// Those of a side, which of them compete, and by which numbers.
#[derive(Clone, Copy)]
struct Members<'m, 't> {
    names: &'m Names<'t>,
    tests: &'m [bool],
    amounts: &'m [u32],
}

// Appends one of those that compete.
fn put_member(
    alloc: Global,
    out: &mut Vec<u8>,
    kind: Kind<'_>,
    under: &Names<'_>,
    name: &[u8],
    amount: u32,
) -> Result<(), NoMemory>
    ensures { OnOk result (out.new.items ≡ out.old.items
        ++ row_line (member_row kind.entry.word.now kind.entry.records.now under.now name.now amount)) }
{
    let line = line_in(alloc, kind.records, under, name)?;
    let amount = number_cell(alloc, amount as usize)?;
    put_line(out, &[kind.word, &line, name, &amount])
}

// Appends those that compete.
fn put_members(
    alloc: Global,
    out: &mut Vec<u8>,
    kind: Kind<'_>,
    under: &Names<'_>,
    side: Members<'_, '_>,
) -> Result<(), NoMemory>
    ensures { OnOk result (out.new.items ≡ out.old.items
        ++ rows_text (flat_map (member_rows kind.entry.word.now kind.entry.records.now under.now
        side.entry.names.now side.entry.tests.now side.entry.amounts.now) (range_with_len 0 (length side.entry.tests.now)))) }
{
    for place in 0..side.tests.len() {
        if !test_at(side.tests, place) {
            continue;
        }
        let amount = amount_at(side.amounts, place);
        put_member(alloc, out, kind, under, name_at(side.names, place), amount)?;
    }
    Ok(())
}

// Appends those of a side that compete, which a column names.
fn put_competing(
    alloc: Global,
    out: &mut Vec<u8>,
    kind: Kind<'_>,
    column: Option<usize>,
    side: Members<'_, '_>,
) -> Result<(), NoMemory>
    ensures { OnOk result (out.new.items ≡ out.old.items
        ++ rows_text (members kind.entry.word.now kind.entry.records.now column
        side.entry.names.now side.entry.tests.now side.entry.amounts.now)) }
{
    let under = names_under(alloc, kind.records, column)?;
    put_members(alloc, out, kind, &under, side)
}

// Appends the persons that compete.
fn put_competing_persons(
    alloc: Global,
    out: &mut Vec<u8>,
    page: Page<'_>,
    table: &RosterTable<'_>,
    found: &Competition,
) -> Result<(), NoMemory>
    ensures { OnOk result (out.new.items ≡ out.old.items
        ++ rows_text (member_persons (sheet_in page.entry) table.now found.now)) }
{
    let persons = Members {
        names: table.persons(),
        tests: &found.persons,
        amounts: &found.amounts.persons,
    };
    let kind = kind_in(page, b"person");
    put_competing(alloc, out, kind, person_column(page), persons)
}

// Appends the things that compete.
fn put_competing_things(
    alloc: Global,
    out: &mut Vec<u8>,
    page: Page<'_>,
    table: &RosterTable<'_>,
    found: &Competition,
) -> Result<(), NoMemory>
    ensures { OnOk result (out.new.items ≡ out.old.items
        ++ rows_text (member_things (sheet_in page.entry) table.now found.now)) }
{
    let things = Members {
        names: table.things(),
        tests: &found.things,
        amounts: &found.amounts.things,
    };
    let kind = kind_in(page, b"thing");
    put_competing(alloc, out, kind, thing_column(page), things)
}

// Appends the persons and the things that compete.
pub(crate) fn put_member_lists(
    alloc: Global,
    out: &mut Vec<u8>,
    page: Page<'_>,
    table: &RosterTable<'_>,
    found: &Competition,
) -> Result<(), NoMemory>
    ensures { OnOk result (out.new.items ≡ out.old.items
        ++ rows_text (member_lists (sheet_in page.entry) table.now found.now)) }
{
    put_competing_persons(alloc, out, page, table, found)?;
    put_competing_things(alloc, out, page, table, found)
}
