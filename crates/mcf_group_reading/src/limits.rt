//! How many members of a group anyone has, as all rows together say.
ghost use Rattle.std.specs.Prelude.{◌≡◌, ◌++◌, IfOk, OnOk, filter};
ghost use Rattle.mcf_roster_reading.specs.Sayings.{numeral};
ghost use Rattle.mcf_group_reading.specs.GroupRows.{sheet_in};
ghost use Rattle.mcf_group_reading.specs.Bounds.{bounds_in, empty_faults, is_above, is_empty};
ghost use Rattle.mcf_group_reading.specs.Limits.{first_said, number_at, number_fault, number_faults, number_kind, row_at, said_in, said_of, says_number};

use crate::cells::{at_place, cell_under, is_filled};
use crate::kinds::{Fault, FaultKind, Location, if_kind, push_told};
use crate::rows::{Page, first_row, name_in, name_place, names_in};
use mcf_names::Names;
use mcf_text::{NoMemory, leading_digits};
use std::alloc::Global;
use std::marker::Model;

// A column, the rows that say a number there, and the groups that they name.
#[derive(Drop)]
pub(crate) struct SaidNumbers<'t> {
    column: Option<usize>,
    rows: Vec<usize>,
    names: Names<'t>,
}

impl<'t> Model for SaidNumbers<'t> {
    ghost use Rattle.mcf_group_reading.specs.Limits.{Said};

    ghost Value = { Said };

    ghost view = { λ said. record { column = said.column; rows = said.rows.items; names = said.names } };
}

// The number that a cell says, if it says one.
fn numeral(cell: &[u8]) -> Option<u64>
    ensures { result ≡ numeral cell.now }
{
    let lead = leading_digits(cell);
    if lead.count == cell.len() && 0 < lead.count {
        Some(lead.value)
    } else {
        None
    }
}

// The number that a row says.
fn number_at(page: Page<'_>, column: Option<usize>, row: usize) -> Option<u64>
    ensures { result ≡ number_at (sheet_in page.entry) column row }
{
    numeral(cell_under(page.records, column, row))
}

// The rows that say a number.
fn saying_rows(
    alloc: Global,
    page: Page<'_>,
    column: Option<usize>,
    rows: &[usize],
) -> Result<Vec<usize>, NoMemory>
    ensures { IfOk result (λ made. made.items ≡ filter (says_number (sheet_in page.entry) column) rows.now) }
{
    let mut made = Vec::new(alloc);
    for row in rows {
        if number_at(page, column, *row).is_some() {
            made.push(*row)?;
        }
    }
    Ok(made)
}

// What a column says.
pub(crate) fn said_of<'t>(
    alloc: Global,
    page: Page<'t>,
    column: Option<usize>,
    rows: &[usize],
) -> Result<SaidNumbers<'t>, NoMemory>
    ensures { IfOk result (λ made. made ≡ said_of (sheet_in page.entry) column rows.now) }
{
    let kept = saying_rows(alloc, page, column, rows)?;
    let names = names_in(alloc, page, &kept)?;
    Ok(SaidNumbers {
        column,
        rows: kept,
        names,
    })
}

// The row with a number, from 1.
fn row_at(rows: &[usize], number: Option<usize>) -> Option<usize>
    ensures { result ≡ row_at rows.now number }
{
    match number {
        Some(number) => rows.get(number.saturating_sub(1)).copied(),
        None => None,
    }
}

// The number that a row says, if there is such a row.
fn said_in(page: Page<'_>, column: Option<usize>, row: Option<usize>) -> Option<u64>
    ensures { result ≡ said_in (sheet_in page.entry) column row }
{
    match row {
        Some(row) => number_at(page, column, row),
        None => None,
    }
}

// The number that is said first of a group, if any is.
pub(crate) fn first_said(page: Page<'_>, said: &SaidNumbers<'_>, name: &[u8]) -> Option<u64>
    ensures { result ≡ first_said (sheet_in page.entry) said.now name.now }
{
    let number = said.names.number_of(name);
    let row = row_at(&said.rows, number);
    said_in(page, said.column, row)
}

// What is wrong with a cell, if that is said first of the same group.
fn number_kind(cell: &[u8], first: Option<u64>) -> Option<FaultKind>
    ensures { result ≡ number_kind cell.now first }
{
    if !is_filled(cell) {
        return None;
    }
    match (numeral(cell), first) {
        (None, _) => Some(FaultKind::NoNumber),
        (Some(said), Some(first)) if said == first => None,
        _ => Some(FaultKind::TwoNumbers),
    }
}

// Appends the fault of a row's cell.
fn push_number_fault(
    page: Page<'_>,
    said: &SaidNumbers<'_>,
    row: usize,
    faults: &mut Vec<Fault>,
) -> Result<(), NoMemory>
    ensures { OnOk result (faults.new.items ≡ faults.old.items ++ number_fault (sheet_in page.entry) said.now row) }
{
    let column = said.column;
    let first = first_said(page, said, name_in(page, row));
    let kind = number_kind(cell_under(page.records, column, row), first);
    let at = at_place(column.unwrap_or(0), row);
    push_told(faults, Location::Cell(at), kind)
}

// Appends the faults of all rows in a column.
pub(crate) fn push_numbers(
    page: Page<'_>,
    said: &SaidNumbers<'_>,
    rows: &[usize],
    faults: &mut Vec<Fault>,
) -> Result<(), NoMemory>
    ensures { OnOk result (faults.new.items ≡ faults.old.items ++ number_faults (sheet_in page.entry) said.now rows.now) }
{
    for row in rows {
        push_number_fault(page, said, *row, faults)?;
    }
    Ok(())
}

// What the columns `least` and `most` say.
#[derive(Clone, Copy)]
pub(crate) struct Limits<'l, 't> {
    pub(crate) least: &'l SaidNumbers<'t>,
    pub(crate) most: &'l SaidNumbers<'t>,
}

// Whether the least number is above the greatest.
fn is_above(least: Option<u64>, most: Option<u64>) -> bool
    ensures { result ≡ is_above least most }
{
    match (least, most) {
        (Some(least), Some(most)) => most < least,
        _ => false,
    }
}

// Whether the row is the first of its group, whose least number is above its greatest.
fn is_empty(page: Page<'_>, names: &Names<'_>, limits: Limits<'_, '_>, row: usize) -> bool
    ensures { result ≡ is_empty (sheet_in page.entry) names.now (bounds_in limits.entry) row }
{
    let name = name_in(page, row);
    let least = first_said(page, limits.least, name);
    let most = first_said(page, limits.most, name);
    let above = is_above(least, most);
    first_row(names, name) == row && above
}

// Appends the faults of the groups whose least number is above their greatest.
pub(crate) fn push_empty(
    page: Page<'_>,
    names: &Names<'_>,
    limits: Limits<'_, '_>,
    rows: &[usize],
    faults: &mut Vec<Fault>,
) -> Result<(), NoMemory>
    ensures { OnOk result (faults.new.items ≡ faults.old.items
        ++ empty_faults (sheet_in page.entry) names.now (bounds_in limits.entry) rows.now) }
{
    for row in rows {
        let kind = if_kind(is_empty(page, names, limits, *row), FaultKind::Above);
        push_told(faults, Location::Cell(name_place(page, *row)), kind)?;
    }
    Ok(())
}
