//! Faults of a table of groups as rows of a table.
ghost use Rattle.std.specs.Prelude.{◌≡◌, ◌++◌, OnOk, map};
ghost use Rattle.mcf_answer_rows.specs.Lines.{row_line, rows_text};
ghost use Rattle.mcf_pair_text.specs.GroupFaultRows.{broken_rows, cell_row, crossing_fault_row, fault_word, group_fault_word, group_row, group_sheet, groups_word, heading_row, improper_row, located_row, named_fault_row, near_word};
ghost use Rattle.mcf_pair_text.specs.PairPlaces.{sheet_in};
ghost use Rattle.mcf_pair_text.specs.GroupRows.{book_in};

use crate::groups::{Tables, group_line, group_name};
use crate::pages::{Page, cell_in, column_text};
use mcf_answer_rows::{Wrong, field_word, line_cell, name_word, number_cell, put_fault};
use mcf_group_reading::{Fault, FaultKind, Head, Location, head_word};
use mcf_groups::{Crossing, GroupFault, GroupFaultKind};
use mcf_table::{CellPlace, Records, TextFault};
use mcf_text::NoMemory;
use std::alloc::Global;

// The word of the table of groups.
pub(crate) fn groups_word() -> &'static [u8]
    ensures { result.now ≡ groups_word }
{
    b"groups"
}

// What is wrong with a title that is nearly this head.
fn near_word(head: Head) -> &'static [u8]
    ensures { result.now ≡ near_word head }
{
    match head {
        Head::Group => b"nearly group",
        Head::Who => b"nearly who",
        Head::What => b"nearly what",
        Head::Least => b"nearly least",
        Head::Most => b"nearly most",
    }
}

// What is wrong with a cell, a column or the table.
fn fault_word(kind: FaultKind) -> &'static [u8]
    ensures { result.now ≡ fault_word kind }
{
    match kind {
        FaultKind::NoColumn => b"no such column",
        FaultKind::TwoColumns => b"two such columns",
        FaultKind::NoMembers => b"no column who or what",
        FaultKind::NearHead(head) => near_word(head),
        FaultKind::NoGroup => b"no group",
        FaultKind::Beyond => b"beyond the last head",
        FaultKind::Name(fault) => name_word(fault),
        FaultKind::Neither => b"no person or thing",
        FaultKind::Both => b"a person and a thing",
        FaultKind::Unknown => b"not in the costs",
        FaultKind::Mixed => b"persons and things",
        FaultKind::Twice => b"named twice",
        FaultKind::NoNumber => b"no whole number",
        FaultKind::TwoNumbers => b"two different numbers",
        FaultKind::Above => b"least above most",
    }
}

// What is wrong with a group.
fn group_fault_word(kind: GroupFaultKind) -> &'static [u8]
    ensures { result.now ≡ group_fault_word kind }
{
    match kind {
        GroupFaultKind::Empty => b"least above most",
        GroupFaultKind::Astray => b"not in the costs",
        GroupFaultKind::Size => b"too many places",
        GroupFaultKind::Crossing => b"crosses another group",
    }
}

// Appends why a text is no table, if it is none.
pub(crate) fn put_broken(
    alloc: Global,
    out: &mut Vec<u8>,
    table: &[u8],
    fault: Option<TextFault>,
) -> Result<(), NoMemory>
    ensures { OnOk result (out.new.items ≡ out.old.items ++ rows_text (broken_rows table.now fault)) }
{
    match fault {
        Some(fault) => {
            let line = number_cell(alloc, fault.line)?;
            let wrong = Wrong {
                column: b"",
                what: field_word(fault.kind),
            };
            put_fault(out, table, &line, wrong, b"")
        }
        None => Ok(()),
    }
}

// The table of groups, which is a list.
fn list_of(records: &Records) -> Page<'_>
    ensures { sheet_in result ≡ group_sheet records.now }
{
    Page {
        records,
        listed: true,
    }
}

// Appends what is wrong with a cell.
fn put_cell(
    alloc: Global,
    out: &mut Vec<u8>,
    records: &Records,
    at: CellPlace,
    what: &[u8],
) -> Result<(), NoMemory>
    ensures { OnOk result (out.new.items ≡ out.old.items ++ row_line (cell_row records.now at what.now)) }
{
    let column = column_text(alloc, list_of(records), at)?;
    let line = line_cell(alloc, records, at.row)?;
    let wrong = Wrong {
        column: &column,
        what,
    };
    put_fault(out, groups_word(), &line, wrong, cell_in(records, at))
}

// Appends what is wrong in the row of the heads.
fn put_heading(
    alloc: Global,
    out: &mut Vec<u8>,
    records: &Records,
    column: &[u8],
    what: &[u8],
) -> Result<(), NoMemory>
    ensures { OnOk result (out.new.items ≡ out.old.items ++ row_line (heading_row records.now column.now what.now)) }
{
    let line = line_cell(alloc, records, 0)?;
    put_fault(out, groups_word(), &line, Wrong { column, what }, b"")
}

// Appends what is wrong at a location.
fn put_located(
    alloc: Global,
    out: &mut Vec<u8>,
    records: &Records,
    at: Location,
    what: &[u8],
) -> Result<(), NoMemory>
    ensures { OnOk result (out.new.items ≡ out.old.items ++ row_line (located_row records.now at what.now)) }
{
    match at {
        Location::Heads => put_heading(alloc, out, records, b"", what),
        Location::Under(head) => put_heading(alloc, out, records, head_word(head), what),
        Location::Cell(at) => put_cell(alloc, out, records, at, what),
    }
}

// Appends a fault of a head or a cell.
fn put_group_fault(
    alloc: Global,
    out: &mut Vec<u8>,
    records: &Records,
    fault: Fault,
) -> Result<(), NoMemory>
    ensures { OnOk result (out.new.items ≡ out.old.items ++ row_line (group_row records.now fault)) }
{
    put_located(alloc, out, records, fault.at, fault_word(fault.kind))
}

// Appends faults of heads and cells.
pub(crate) fn put_group_faults(
    alloc: Global,
    out: &mut Vec<u8>,
    records: &Records,
    faults: &[Fault],
) -> Result<(), NoMemory>
    ensures { OnOk result (out.new.items ≡ out.old.items ++ rows_text (map (group_row records.now) faults.now)) }
{
    for place in 0..faults.len() {
        put_group_fault(alloc, out, records, faults[place])?;
    }
    Ok(())
}

// Appends what is wrong with a group, where it is named first.
fn put_named_fault(
    alloc: Global,
    out: &mut Vec<u8>,
    tables: Tables<'_>,
    number: usize,
    what: &[u8],
) -> Result<(), NoMemory>
    ensures { OnOk result (out.new.items ≡ out.old.items ++ row_line (named_fault_row (book_in tables.entry) number what.now)) }
{
    let line = group_line(alloc, tables, number)?;
    let wrong = Wrong {
        column: b"group",
        what,
    };
    put_fault(out, groups_word(), &line, wrong, group_name(tables, number))
}

// Appends the fault of a group.
pub(crate) fn put_improper_group(
    alloc: Global,
    out: &mut Vec<u8>,
    tables: Tables<'_>,
    fault: GroupFault,
) -> Result<(), NoMemory>
    ensures { OnOk result (out.new.items ≡ out.old.items ++ row_line (improper_row (book_in tables.entry) fault)) }
{
    let what = group_fault_word(fault.what);
    put_named_fault(alloc, out, tables, fault.group, what)
}

// Appends the faults of groups that cross others.
pub(crate) fn put_crossing_faults(
    alloc: Global,
    out: &mut Vec<u8>,
    tables: Tables<'_>,
    crossings: &[Crossing],
) -> Result<(), NoMemory>
    ensures { OnOk result (out.new.items ≡ out.old.items ++ rows_text (map (crossing_fault_row (book_in tables.entry)) crossings.now)) }
{
    for place in 0..crossings.len() {
        let number = crossings[place].group;
        put_named_fault(alloc, out, tables, number, b"crosses another group")?;
    }
    Ok(())
}
