//! A table of persons and things, and where its parts stand.
ghost use Rattle.std.specs.Prelude.{◌≡◌, IfOk, drop, map};
ghost use Rattle.mcf_names.specs.Names.{name_at};
ghost use Rattle.mcf_roster_reading.specs.Cells.{cell_in};
ghost use Rattle.mcf_pair_text.specs.PairPlaces.{cell_of, column_text, head_over, line_in, name_line, names_under, numbered, pair_column, person_column, place_or_first, row_of, sheet_in, sheet_of, thing_column};

use mcf_answer_rows::{cell_at, line_cell, next_cell, place_of};
use mcf_names::Names;
use mcf_roster_reading::is_list;
use mcf_table::{CellPlace, Records};
use mcf_text::NoMemory;
use std::alloc::Global;

// The rows of a table, and whether it is a list.
#[derive(Clone, Copy)]
pub(crate) struct Page<'t> {
    pub(crate) records: &'t Records,
    pub(crate) listed: bool,
}

// The table of these rows.
pub(crate) fn page_of(records: &Records) -> Page<'_>
    ensures { sheet_in result ≡ sheet_of records.now }
{
    Page {
        records,
        listed: is_list(records),
    }
}

// The place of the column with a head; the first column if it isn't just one.
fn place_or_first(records: &Records, head: &[u8]) -> usize
    ensures { result ≡ place_or_first head.now records.now }
{
    place_of(records, head).unwrap_or(0)
}

// The column that names persons.
pub(crate) fn person_column(page: Page<'_>) -> Option<usize>
    ensures { result ≡ person_column (sheet_in page.entry) }
{
    if page.listed {
        Some(place_or_first(page.records, b"who"))
    } else {
        Some(0)
    }
}

// The column that names things, in a list.
pub(crate) fn thing_column(page: Page<'_>) -> Option<usize>
    ensures { result ≡ thing_column (sheet_in page.entry) }
{
    if page.listed {
        Some(place_or_first(page.records, b"what"))
    } else {
        None
    }
}

// The cell at a place.
pub(crate) fn cell_in(records: &Records, at: CellPlace) -> &[u8]
    ensures { result.now ≡ cell_in records.now at }
{
    cell_at(records, at.row, Some(at.place))
}

// The head of the column of a cell.
fn head_over(records: &Records, at: CellPlace) -> &[u8]
    ensures { result.now ≡ head_over records.now at }
{
    cell_at(records, 0, Some(at.place))
}

// A copy of a text.
fn copied(alloc: Global, text: &[u8]) -> Result<Vec<u8>, NoMemory>
    ensures { IfOk result (λ made. made.items ≡ text.now) }
{
    let mut made = Vec::new(alloc);
    made.extend_from_slice(text)?;
    Ok(made)
}

// The column of a cell: its head, or its number.
pub(crate) fn column_text(alloc: Global, page: Page<'_>, at: CellPlace) -> Result<Vec<u8>, NoMemory>
    ensures { IfOk result (λ made. made.items ≡ column_text (sheet_in page.entry) at) }
{
    let head = head_over(page.records, at);
    if page.listed && !head.is_empty() {
        copied(alloc, head)
    } else {
        next_cell(alloc, at.place)
    }
}

// The number of a matrix's column; nothing in a list.
pub(crate) fn pair_column(alloc: Global, page: Page<'_>, at: CellPlace) -> Result<Vec<u8>, NoMemory>
    ensures { IfOk result (λ made. made.items ≡ pair_column (sheet_in page.entry) at) }
{
    if page.listed {
        Ok(Vec::new(alloc))
    } else {
        next_cell(alloc, at.place)
    }
}

// The cells of a column below the heads.
fn cells_under<'t>(
    alloc: Global,
    records: &'t Records,
    place: usize,
) -> Result<Vec<&'t [u8]>, NoMemory>
    ensures { IfOk result (λ made. map (λ cell. cell.now) made.items ≡ map (cell_of place) (drop 1 records.now)) }
{
    let mut made = Vec::new(alloc);
    for row in 1..records.len() {
        made.push(records.cell(row, place))?;
    }
    Ok(made)
}

// The cells of a column below the heads, as names; none without that column.
pub(crate) fn names_under<'t>(
    alloc: Global,
    records: &'t Records,
    column: Option<usize>,
) -> Result<Names<'t>, NoMemory>
    ensures { IfOk result (λ made. made ≡ names_under records.now column) }
{
    let cells = match column {
        Some(place) => cells_under(alloc, records, place)?,
        None => Vec::new(alloc),
    };
    Names::of(alloc, cells)
}

// The row in which a name stands first.
fn row_of(names: &Names<'_>, name: &[u8]) -> usize
    ensures { result ≡ row_of names.now name.now }
{
    names.number_of(name).unwrap_or(0)
}

// The line of the row in which a name stands first, if these are the names of the rows.
pub(crate) fn line_in(
    alloc: Global,
    records: &Records,
    names: &Names<'_>,
    name: &[u8],
) -> Result<Vec<u8>, NoMemory>
    ensures { IfOk result (λ made. made.items ≡ line_in records.now names.now name.now) }
{
    line_cell(alloc, records, row_of(names, name))
}

// The line on which a name stands first in a column.
#[tactic(auto, unfolding(crate::specs::PairPlaces::name_line))]
pub(crate) fn name_line(
    alloc: Global,
    records: &Records,
    column: Option<usize>,
    name: &[u8],
) -> Result<Vec<u8>, NoMemory>
    ensures { IfOk result (λ made. made.items ≡ name_line records.now column name.now) }
{
    let names = names_under(alloc, records, column)?;
    line_in(alloc, records, &names, name)
}

// The name at this place, from 0; empty beyond the last.
pub(crate) fn name_at<'t>(names: &Names<'t>, place: usize) -> &'t [u8]
    ensures { result.now ≡ name_at names.now place }
{
    if place < names.len() {
        names.name(place + 1)
    } else {
        &[]
    }
}

// The name of the person or the thing with this number.
pub(crate) fn numbered<'t>(names: &Names<'t>, number: usize) -> &'t [u8]
    ensures { result.now ≡ numbered names.now number }
{
    name_at(names, number.saturating_sub(1))
}
