//! Faults of a table of persons and things as rows of a table.
ghost use Rattle.std.specs.Prelude.{◌≡◌, ◌++◌, OnOk, map, option_map};
ghost use Rattle.mcf_answer_rows.specs.Lines.{row_line, rows_text};
ghost use Rattle.mcf_pair_text.specs.PairFaultRows.{beyond_row, cell_fault_row, cell_row, costs_row, great_row, improper_origin, improper_row, located_row, origin_or_all, origin_row, pair_fault_row, person_fault_row, text_row, thing_fault_row};
ghost use Rattle.mcf_pair_text.specs.PairPlaces.{sheet_in};

use crate::pages::{Page, cell_in, column_text, name_line, numbered, person_column, thing_column};
use crate::words::{beyond_word, costs_word, fault_word, head_word, improper_word};
use mcf_answer_rows::{Wrong, field_word, line_cell, number_cell, put_fault, too_great};
use mcf_instance::ArrayFault;
use mcf_roster::{Origin, RosterFault};
use mcf_roster_reading::{Fault, Location, PairEntry, RosterTable};
use mcf_table::{CellPlace, TextFault};
use mcf_text::NoMemory;
use std::alloc::Global;

// Appends a fault that is about no cell.
fn put_costs(out: &mut Vec<u8>, line: &[u8], column: &[u8], what: &[u8]) -> Result<(), NoMemory>
    ensures { OnOk result (out.new.items ≡ out.old.items ++ row_line (costs_row line.now column.now what.now)) }
{
    put_fault(out, costs_word(), line, Wrong { column, what }, b"")
}

// Appends why the text is no table.
pub(crate) fn put_text_fault(
    alloc: Global,
    out: &mut Vec<u8>,
    fault: TextFault,
) -> Result<(), NoMemory>
    ensures { OnOk result (out.new.items ≡ out.old.items ++ row_line (text_row fault)) }
{
    let line = number_cell(alloc, fault.line)?;
    put_costs(out, &line, b"", field_word(fault.kind))
}

// Appends what is wrong with a cell.
fn put_cell(
    alloc: Global,
    out: &mut Vec<u8>,
    page: Page<'_>,
    at: CellPlace,
    what: &[u8],
) -> Result<(), NoMemory>
    ensures { OnOk result (out.new.items ≡ out.old.items ++ row_line (cell_row (sheet_in page.entry) at what.now)) }
{
    let column = column_text(alloc, page, at)?;
    let line = line_cell(alloc, page.records, at.row)?;
    let cell = cell_in(page.records, at);
    let wrong = Wrong {
        column: &column,
        what,
    };
    put_fault(out, costs_word(), &line, wrong, cell)
}

// Appends what is wrong at a location.
fn put_located(
    alloc: Global,
    out: &mut Vec<u8>,
    page: Page<'_>,
    at: Location,
    what: &[u8],
) -> Result<(), NoMemory>
    ensures { OnOk result (out.new.items ≡ out.old.items ++ row_line (located_row (sheet_in page.entry) at what.now)) }
{
    match at {
        Location::Heads => {
            let line = line_cell(alloc, page.records, 0)?;
            put_costs(out, &line, b"", what)
        }
        Location::Under(head) => {
            let line = line_cell(alloc, page.records, 0)?;
            put_costs(out, &line, head_word(head), what)
        }
        Location::Cell(at) => put_cell(alloc, out, page, at, what),
    }
}

// Appends a fault of a head or a cell.
fn put_cell_fault(
    alloc: Global,
    out: &mut Vec<u8>,
    page: Page<'_>,
    fault: Fault,
) -> Result<(), NoMemory>
    ensures { OnOk result (out.new.items ≡ out.old.items ++ row_line (cell_fault_row (sheet_in page.entry) fault)) }
{
    put_located(alloc, out, page, fault.at, fault_word(fault.kind))
}

// Appends faults of heads and cells.
pub(crate) fn put_cell_faults(
    alloc: Global,
    out: &mut Vec<u8>,
    page: Page<'_>,
    faults: &[Fault],
) -> Result<(), NoMemory>
    ensures { OnOk result (out.new.items ≡ out.old.items ++ rows_text (map (cell_fault_row (sheet_in page.entry)) faults.now)) }
{
    for place in 0..faults.len() {
        put_cell_fault(alloc, out, page, faults[place])?;
    }
    Ok(())
}

// Appends costs that are too great.
pub(crate) fn put_greats(
    alloc: Global,
    out: &mut Vec<u8>,
    page: Page<'_>,
    cells: &[CellPlace],
) -> Result<(), NoMemory>
    ensures { OnOk result (out.new.items ≡ out.old.items ++ rows_text (map (great_row (sheet_in page.entry)) cells.now)) }
{
    for place in 0..cells.len() {
        put_cell(alloc, out, page, cells[place], too_great())?;
    }
    Ok(())
}

// Appends what is wrong with a pair, if there is such a one.
fn put_pair_fault(
    alloc: Global,
    out: &mut Vec<u8>,
    page: Page<'_>,
    pair: Option<&PairEntry>,
    what: &[u8],
) -> Result<(), NoMemory>
    ensures { OnOk result (out.new.items ≡ out.old.items
        ++ row_line (pair_fault_row (sheet_in page.entry) (option_map (λ p. p.now) pair.entry) what.now)) }
{
    match pair {
        None => put_costs(out, b"", b"", what),
        Some(pair) => put_cell(alloc, out, page, pair.at, what),
    }
}

// Appends what is wrong with how many things a person takes.
fn put_person_fault(
    alloc: Global,
    out: &mut Vec<u8>,
    page: Page<'_>,
    table: &RosterTable<'_>,
    person: usize,
    what: &[u8],
) -> Result<(), NoMemory>
    ensures { OnOk result (out.new.items ≡ out.old.items
        ++ row_line (person_fault_row (sheet_in page.entry) table.now person what.now)) }
{
    let name = numbered(table.persons(), person);
    let line = name_line(alloc, page.records, person_column(page), name)?;
    put_costs(out, &line, b"takes", what)
}

// Appends what is wrong with how many persons a thing needs.
fn put_thing_fault(
    alloc: Global,
    out: &mut Vec<u8>,
    page: Page<'_>,
    table: &RosterTable<'_>,
    thing: usize,
    what: &[u8],
) -> Result<(), NoMemory>
    ensures { OnOk result (out.new.items ≡ out.old.items
        ++ row_line (thing_fault_row (sheet_in page.entry) table.now thing what.now)) }
{
    let name = numbered(table.things(), thing);
    let line = name_line(alloc, page.records, thing_column(page), name)?;
    put_costs(out, &line, b"needs", what)
}

// Appends what is wrong with what a number comes from.
fn put_origin(
    alloc: Global,
    out: &mut Vec<u8>,
    page: Page<'_>,
    table: &RosterTable<'_>,
    origin: Origin,
    what: &[u8],
) -> Result<(), NoMemory>
    ensures { OnOk result (out.new.items ≡ out.old.items
        ++ row_line (origin_row (sheet_in page.entry) table.now origin what.now)) }
{
    match origin {
        Origin::OfPair(pair) => {
            let found = table.pairs().get(pair.saturating_sub(1));
            put_pair_fault(alloc, out, page, found, what)
        }
        Origin::OfPerson(person) => put_person_fault(alloc, out, page, table, person, what),
        Origin::OfThing(thing) => put_thing_fault(alloc, out, page, table, thing, what),
        Origin::OfAll => put_costs(out, b"", b"", what),
    }
}

// What a fault of the roster comes from.
fn improper_origin(fault: RosterFault) -> Origin
    ensures { result ≡ improper_origin fault }
{
    match fault {
        RosterFault::Size => Origin::OfAll,
        RosterFault::Takes(person) => Origin::OfPerson(person),
        RosterFault::Needs(thing) => Origin::OfThing(thing),
        RosterFault::Ends(pair) => Origin::OfPair(pair),
    }
}

// Appends a fault of the roster.
pub(crate) fn put_improper(
    alloc: Global,
    out: &mut Vec<u8>,
    page: Page<'_>,
    table: &RosterTable<'_>,
    fault: RosterFault,
) -> Result<(), NoMemory>
    ensures { OnOk result (out.new.items ≡ out.old.items ++ row_line (improper_row (sheet_in page.entry) table.now fault)) }
{
    let origin = improper_origin(fault);
    put_origin(alloc, out, page, table, origin, improper_word(fault))
}

// What a number beyond the limits comes from.
fn origin_or_all(origin: Option<Origin>) -> Origin
    ensures { result ≡ origin_or_all origin }
{
    match origin {
        None => Origin::OfAll,
        Some(origin) => origin,
    }
}

// Appends a number beyond the limits, and where it comes from.
pub(crate) fn put_beyond(
    alloc: Global,
    out: &mut Vec<u8>,
    page: Page<'_>,
    table: &RosterTable<'_>,
    origin: Option<Origin>,
    fault: &ArrayFault,
) -> Result<(), NoMemory>
    ensures { OnOk result (out.new.items ≡ out.old.items
        ++ row_line (beyond_row (sheet_in page.entry) table.now origin fault.now)) }
{
    let origin = origin_or_all(origin);
    put_origin(alloc, out, page, table, origin, beyond_word(fault))
}
