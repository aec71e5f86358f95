//! The mark before decimals that both tables show.
ghost use Rattle.std.specs.Prelude.{◌≡◌, ◌<◌, IfOk, length};
ghost use Rattle.mcf_decimal.specs.Settled.{is_the};
ghost use Rattle.mcf_reading.specs.Private.Found.{none_shown, other_at, settled_by, with_cells, with_mark};
ghost use Rattle.mcf_reading.specs.ShownMarks.{number_cells, place_number_columns, route_number_columns, row_numbers, settled_mark, table_numbers};

use crate::cells::{cell_at, row_count};
use crate::columns::{NumberColumn, number_columns, push_period_columns};
use crate::heads::route_number_heads;
use crate::kinds::{Fault, FaultKind};
use crate::locations::{Head, Location, Table};
use mcf_decimal::{Mark, mark_in};
use mcf_table::Records;
use mcf_text::NoMemory;
use std::alloc::Global;

// The marks that cells show.
#[derive(Clone, Copy)]
pub(crate) struct Shown {
    // The first mark, if one is shown.
    pub(crate) mark: Option<Mark>,
    // The first cell that shows the other mark.
    pub(crate) other: Option<Location>,
}

// The mark that is named, or else the one that the cells of both tables show; `None` if they show
// none, and a fault if they show both.
pub(crate) fn settled_mark(
    alloc: Global,
    places: &Records,
    routes: &Records,
    named: Option<Mark>,
) -> Result<Result<Option<Mark>, Fault>, NoMemory>
    ensures { IfOk result (λ settled. settled ≡ settled_mark named (number_cells places.now routes.now)) }
{
    if named.is_some() {
        return Ok(Ok(named));
    }
    let shown = shown_marks(alloc, places, routes)?;
    Ok(settled_by(shown.mark, shown.other))
}

// The columns of numbers in the table of places, those about periods last.
fn place_number_columns(alloc: Global, places: &Records) -> Result<Vec<NumberColumn>, NoMemory>
    ensures { IfOk result (λ made. made.items ≡ place_number_columns places.now) }
{
    let heads = [
        Head::Supply,
        Head::Least,
        Head::Most(1),
        Head::Cost(1),
        Head::Penalty,
    ];
    let texts: [&[u8]; 4] = [b"keep most", b"keep cost", b"first stock", b"last stock"];
    let mut columns = number_columns(alloc, places, &heads)?;
    push_period_columns(&mut columns, places, &texts)?;
    Ok(columns)
}

// The columns of numbers in the table of routes, those about periods last.
fn route_number_columns(alloc: Global, routes: &Records) -> Result<Vec<NumberColumn>, NoMemory>
    ensures { IfOk result (λ made. made.items ≡ route_number_columns routes.now) }
{
    let heads = route_number_heads(alloc, routes)?;
    let texts: [&[u8]; 1] = [b"lead"];
    let mut columns = number_columns(alloc, routes, &heads)?;
    push_period_columns(&mut columns, routes, &texts)?;
    Ok(columns)
}

// The marks that the cells of both tables show.
fn shown_marks(alloc: Global, places: &Records, routes: &Records) -> Result<Shown, NoMemory>
    ensures { IfOk result (λ shown. shown ≡ with_cells none_shown (number_cells places.now routes.now)) }
{
    let place_columns = place_number_columns(alloc, places)?;
    let route_columns = route_number_columns(alloc, routes)?;
    let none = Shown {
        mark: None,
        other: None,
    };
    let shown = with_table(none, Table::Places, places, &place_columns);
    Ok(with_table(shown, Table::Routes, routes, &route_columns))
}

// The marks of the cells before, and of a table's cells in columns of numbers.
fn with_table(shown: Shown, table: Table, records: &Records, columns: &[NumberColumn]) -> Shown
    ensures { result ≡ with_cells shown (table_numbers table records.now columns.now) }
{
    let mut shown = shown;
    for place in 0..row_count(records) {
        shown = with_row(shown, table, records, columns, place + 1);
    }
    shown
}

// The marks of the cells before, and of a row's cells in columns of numbers.
fn with_row(
    shown: Shown,
    table: Table,
    records: &Records,
    columns: &[NumberColumn],
    row: usize,
) -> Shown
    requires { row < length records.now }
    ensures { result ≡ with_cells shown (row_numbers table records.now columns.now row) }
{
    let mut shown = shown;
    for column in columns {
        let cell = cell_at(records, row, column.place);
        let at = Location {
            table,
            row,
            column: column.column,
        };
        shown = with_mark(shown, at, mark_in(cell));
    }
    shown
}

// The marks of the cells before, and of one that shows this mark.
fn with_mark(shown: Shown, at: Location, mark: Option<Mark>) -> Shown
    ensures { result ≡ with_mark shown.mark shown.other at mark }
{
    match (shown.mark, shown.other) {
        (None, _) => Shown { mark, other: None },
        (Some(_), Some(_)) => shown,
        (Some(first), None) => Shown {
            mark: Some(first),
            other: other_at(first, at, mark),
        },
    }
}

// The location of a cell that shows the other mark than the first.
fn other_at(first: Mark, at: Location, mark: Option<Mark>) -> Option<Location>
    ensures { result ≡ other_at first at mark }
{
    if is_the(first.other(), mark) {
        Some(at)
    } else {
        None
    }
}

// Whether it is this mark.
fn is_the(mark: Mark, shown: Option<Mark>) -> bool
    ensures { result ≡ is_the mark shown }
{
    match (mark, shown) {
        (Mark::Point, Some(Mark::Point)) => true,
        (Mark::Comma, Some(Mark::Comma)) => true,
        _ => false,
    }
}

// The mark that is settled.
fn settled_by(mark: Option<Mark>, other: Option<Location>) -> Result<Option<Mark>, Fault>
    ensures { result ≡ settled_by mark other }
{
    match (mark, other) {
        (Some(_), Some(at)) => Err(Fault {
            at,
            kind: FaultKind::BothMarks,
        }),
        _ => Ok(mark),
    }
}
