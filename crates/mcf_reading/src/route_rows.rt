//! The rows of the table of routes.
ghost use Rattle.std.specs.Prelude.{◌≡◌, ◌<◌, ◌+◌, ◌++◌, ◌∷◌, [], All, IfOk, OnOk, length, map};
ghost use Rattle.mcf_table.specs.Heads.{cells_of};
ghost use Rattle.mcf_reading.specs.Private.Found.{IsWithin, route_in, route_row};
ghost use Rattle.mcf_reading.specs.RouteRows.{all_route_faults, end_faults, no_place_kind, place_or_none, plain_faults, read_end, read_route, route_entries, route_entry, route_faults, route_with};
ghost use Rattle.mcf_reading.specs.Steps.{row_step_faults, row_steps};

use crate::cells::{
    amount, cell_at, is_filled, is_yes, number_kind, read_amount, row_count, way_kind,
};
use crate::columns::{RouteColumns, StepColumns};
use crate::kinds::{Fault, FaultKind};
use crate::locations::{Head, Table};
use crate::place_rows::name_kind;
use crate::steps::{StepEntry, push_steps};
use crate::told::{push_told, under};
use mcf_decimal::{Decimal, Mark, NumberFault};
use mcf_names::Names;
use mcf_table::Records;
use mcf_text::NoMemory;
use std::alloc::Global;

// What was read of an end of a route.
#[derive(Clone, Copy)]
pub(crate) struct EndRead {
    // Why its cell isn't a name.
    pub(crate) name: Option<FaultKind>,
    // Whether no place has the name.
    pub(crate) missing: Option<FaultKind>,
    // The number of the place, from 1, or 0 for no place.
    pub(crate) place: usize,
}

// What was read of a route beside its steps.
#[derive(Clone, Copy)]
pub(crate) struct RouteRead {
    pub(crate) tail: EndRead,
    pub(crate) head: EndRead,
    pub(crate) least: Result<Decimal, NumberFault>,
    pub(crate) both: bool,
    // Whether the cell of `both` is neither yes nor no.
    pub(crate) way: Option<FaultKind>,
}

// A route. Its steps are adjacent in a table that all routes share.
#[derive(Clone, Copy)]
pub(crate) struct RouteRow {
    // The number of the place at which it begins, from 1, or 0 for no place.
    pub(crate) tail: usize,
    // The number of the place at which it ends.
    pub(crate) head: usize,
    // The least that it carries.
    pub(crate) least: Decimal,
    // The place of its first step in the table.
    pub(crate) first: usize,
    // How many steps it has.
    pub(crate) count: usize,
    // Whether it is used both ways.
    pub(crate) both: bool,
}

// Routes, and the table of their steps.
#[derive(Drop)]
pub(crate) struct Routes {
    pub(crate) steps: Vec<StepEntry>,
    pub(crate) rows: Vec<RouteRow>,
}

// How the rows of the table of routes are read.
#[derive(Clone, Copy)]
pub(crate) struct RouteFormat<'f> {
    pub(crate) mark: Option<Mark>,
    pub(crate) columns: RouteColumns,
    pub(crate) steps: &'f [StepColumns],
}

// The number of the place, or 0.
fn place_or_none(found: Option<usize>) -> usize
    ensures { result ≡ place_or_none found }
{
    found.unwrap_or(0)
}

// Whether no place has the name, which isn't empty.
fn no_place_kind(found: Option<usize>, cell: &[u8]) -> Option<FaultKind>
    ensures { result ≡ no_place_kind found cell.now }
{
    if is_filled(cell) && found.is_none() {
        Some(FaultKind::NoPlace)
    } else {
        None
    }
}

// An end: the first place of this name.
#[tactic(auto, unfolding(crate::specs::RouteRows::read_end))]
fn read_end(names: &Names<'_>, cell: &[u8]) -> EndRead
    ensures { result ≡ read_end names.now cell.now }
{
    let found = names.number_of(cell);
    EndRead {
        name: name_kind(cell),
        missing: no_place_kind(found, cell),
        place: place_or_none(found),
    }
}

// What a row says beside its steps.
#[tactic(auto, unfolding(crate::specs::RouteRows::read_route))]
fn read_route(
    mark: Option<Mark>,
    columns: RouteColumns,
    names: &Names<'_>,
    records: &Records,
    row: usize,
) -> RouteRead
    requires { row < length records.now }
    ensures { result ≡ read_route mark columns names.now (cells_of records.now row) }
{
    let tail = read_end(names, cell_at(records, row, columns.tail));
    let head = read_end(names, cell_at(records, row, columns.head));
    let least = read_amount(mark, cell_at(records, row, columns.least));
    let cell = cell_at(records, row, columns.both);
    let both = is_yes(cell);
    let way = way_kind(cell);
    RouteRead {
        tail,
        head,
        least,
        both,
        way,
    }
}

// Appends the faults of an end.
fn push_end_faults(
    faults: &mut Vec<Fault>,
    row: usize,
    head: Head,
    read: EndRead,
) -> Result<(), NoMemory>
    ensures { OnOk result (faults.new.items ≡ faults.old.items ++ end_faults row head read) }
{
    let at = under(Table::Routes, row, head);
    push_told(faults, at, read.name)?;
    push_told(faults, at, read.missing)
}

// Appends the faults of a row beside those of its steps.
#[tactic(auto, unfolding(crate::specs::RouteRows::plain_faults))]
fn push_plain_faults(faults: &mut Vec<Fault>, row: usize, read: RouteRead) -> Result<(), NoMemory>
    ensures { OnOk result (faults.new.items ≡ faults.old.items ++ plain_faults row read) }
{
    let least = under(Table::Routes, row, Head::Least);
    let both = under(Table::Routes, row, Head::Both);
    push_end_faults(faults, row, Head::From, read.tail)?;
    push_end_faults(faults, row, Head::To, read.head)?;
    push_told(faults, least, number_kind(read.least.err()))?;
    push_told(faults, both, read.way)
}

// The route with so many steps, from this one on.
fn route_row(read: RouteRead, first: usize, count: usize) -> RouteRow
    ensures { result ≡ route_row read first count }
{
    RouteRow {
        tail: read.tail.place,
        head: read.head.place,
        least: amount(read.least),
        first,
        count,
        both: read.both,
    }
}

// Appends the steps of a row and its route, and the faults of its steps.
fn push_route(
    routes: &mut Routes,
    format: RouteFormat<'_>,
    records: &Records,
    row: usize,
    read: RouteRead,
    faults: &mut Vec<Fault>,
) -> Result<(), NoMemory>
    requires row { row < length records.now }
    requires within { All (IsWithin routes.old.steps.items) routes.old.rows.items }
    ensures within { OnOk result (All (IsWithin routes.new.steps.items) routes.new.rows.items) }
    ensures routes { OnOk result (map (route_in routes.new.steps.items) routes.new.rows.items
        ≡ map (route_in routes.old.steps.items) routes.old.rows.items ++ route_with read (row_steps format.entry.mark format.entry.steps.now (cells_of records.now row)) ∷ []) }
    ensures faults { OnOk result (faults.new.items ≡ faults.old.items ++ row_step_faults format.entry.mark row format.entry.steps.now (cells_of records.now row)) }
{
    let first = routes.steps.len();
    push_steps(
        format.mark,
        records,
        row,
        format.steps,
        &mut routes.steps,
        faults,
    )?;
    let count = routes.steps.len() - first;
    routes.rows.push(route_row(read, first, count))?;
    Ok(())
}

// Reads a row, and appends its route and its faults.
#[tactic(auto, unfolding(crate::specs::RouteRows::route_faults, crate::specs::RouteRows::route_entry))]
fn read_row(
    routes: &mut Routes,
    format: RouteFormat<'_>,
    names: &Names<'_>,
    records: &Records,
    row: usize,
    faults: &mut Vec<Fault>,
) -> Result<(), NoMemory>
    requires row { row < length records.now }
    requires within { All (IsWithin routes.old.steps.items) routes.old.rows.items }
    ensures within { OnOk result (All (IsWithin routes.new.steps.items) routes.new.rows.items) }
    ensures routes { OnOk result (map (route_in routes.new.steps.items) routes.new.rows.items
        ≡ map (route_in routes.old.steps.items) routes.old.rows.items ++ route_entry format.entry.mark format.entry.columns format.entry.steps.now names.now (cells_of records.now row) ∷ []) }
    ensures faults { OnOk result (faults.new.items ≡ faults.old.items ++ route_faults format.entry.mark format.entry.columns format.entry.steps.now names.now row (cells_of records.now row)) }
{
    let read = read_route(format.mark, format.columns, names, records, row);
    push_plain_faults(faults, row, read)?;
    push_route(routes, format, records, row, read, faults)
}

// Reads all rows, and appends their faults.
pub(crate) fn read_routes(
    alloc: Global,
    format: RouteFormat<'_>,
    names: &Names<'_>,
    records: &Records,
    faults: &mut Vec<Fault>,
) -> Result<Routes, NoMemory>
    ensures within { IfOk result (λ made. All (IsWithin made.steps.items) made.rows.items) }
    ensures routes { IfOk result (λ made. map (route_in made.steps.items) made.rows.items ≡ route_entries format.entry.mark format.entry.columns format.entry.steps.now names.now records.now) }
    ensures faults { OnOk result (faults.new.items ≡ faults.old.items ++ all_route_faults format.entry.mark format.entry.columns format.entry.steps.now names.now records.now) }
{
    let mut routes = Routes {
        steps: Vec::new(alloc),
        rows: Vec::new(alloc),
    };
    for place in 0..row_count(records) {
        read_row(&mut routes, format, names, records, place + 1, faults)?;
    }
    Ok(routes)
}
