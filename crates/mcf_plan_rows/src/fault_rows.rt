//! Faults of tables as rows of a table.
ghost use Rattle.std.specs.Prelude.{◌≡◌, ◌++◌, IfOk, OnOk, map};
ghost use Rattle.mcf_answer_rows.specs.Lines.{row_line, rows_text};
ghost use Rattle.mcf_plan_rows.specs.FaultRows.{beyond_row, cell_fault_row, column_place, column_text, fault_text, great_row, located_row, meant_text, option_row, origin_line, planner_line, planner_row, tables_in, text_rows};

use crate::words::{
    beyond_column, beyond_word, fault_word, origin_table, penalty_word, planner_column,
    planner_table, planner_word, table_word,
};
use mcf_answer_rows::{
    Wrong, cell_at, field_word, line_cell, next_cell, number_cell, place_of, put_fault, too_great,
};
use mcf_instance::ArrayFault;
use mcf_places::{Origin, PlannerFault};
use mcf_reading::{ColumnAt, Fault, FaultKind, Location, Table, head_text};
use mcf_table::{Records, TextFault};
use mcf_text::NoMemory;
use mcf_units::GreatFault;
use std::alloc::Global;

/// The two tables.
#[derive(Clone, Copy)]
pub struct Two<'t> {
    /// The rows of the table of places, from that of the heads on.
    pub places: &'t Records,
    /// The rows of the table of routes.
    pub routes: &'t Records,
}

impl<'t> Two<'t> {
    ghost use Rattle.std.specs.Prelude.{◌≡◌};
    ghost use Rattle.mcf_plan_rows.specs.FaultRows.{table_in, tables_in};

    /// One of them.
    pub fn table(self, table: Table) -> &'t Records
        ensures { result.now ≡ table_in (tables_in self.entry) table }
    {
        match table {
            Table::Places => self.places,
            Table::Routes => self.routes,
        }
    }
}

/// Appends why a text is no table, if it is none.
///
/// # Errors
///
/// `NoMemory` if an allocation is refused.
pub fn put_text_fault(
    alloc: Global,
    out: &mut Vec<u8>,
    table: Table,
    fault: Option<TextFault>,
) -> Result<(), NoMemory>
    ensures { OnOk result (out.new.items ≡ out.old.items ++ rows_text (text_rows table fault)) }
{
    if let Some(fault) = fault {
        let line = number_cell(alloc, fault.line)?;
        let wrong = Wrong {
            column: b"",
            what: field_word(fault.kind),
        };
        put_fault(out, table_word(table), &line, wrong, b"")?;
    }
    Ok(())
}

// A column: its head, or its place, from 1.
fn column_text(alloc: Global, column: ColumnAt) -> Result<Vec<u8>, NoMemory>
    ensures { IfOk result (λ made. made.items ≡ column_text column) }
{
    match column {
        ColumnAt::Under(head) => head_text(alloc, head),
        ColumnAt::Placed(place) => next_cell(alloc, place),
    }
}

// The place of a column with this text; none, if its head doesn't stand in just one column.
fn column_place(records: &Records, column: ColumnAt, text: &[u8]) -> Option<usize>
    requires { text.now ≡ column_text column }
    ensures { result ≡ column_place records.now column }
{
    match column {
        ColumnAt::Under(_) => place_of(records, text),
        ColumnAt::Placed(place) => Some(place),
    }
}

// Appends what is wrong at a location.
fn put_located(
    alloc: Global,
    out: &mut Vec<u8>,
    records: &Records,
    at: Location,
    what: &[u8],
) -> Result<(), NoMemory>
    ensures { OnOk result (out.new.items ≡ out.old.items ++ row_line (located_row records.now at what.now)) }
{
    let column = column_text(alloc, at.column)?;
    let place = column_place(records, at.column, &column);
    let line = line_cell(alloc, records, at.row)?;
    let cell = cell_at(records, at.row, place);
    let wrong = Wrong {
        column: &column,
        what,
    };
    put_fault(out, table_word(at.table), &line, wrong, cell)
}

// The head that is meant, if a fault is about one.
fn meant_text(alloc: Global, kind: FaultKind) -> Result<Vec<u8>, NoMemory>
    ensures { IfOk result (λ made. made.items ≡ meant_text kind) }
{
    match kind {
        FaultKind::NearHead(head) => head_text(alloc, head),
        FaultKind::Without(head) => head_text(alloc, head),
        _ => Ok(Vec::new(alloc)),
    }
}

// What is wrong with a cell.
fn fault_text(alloc: Global, kind: FaultKind) -> Result<Vec<u8>, NoMemory>
    ensures { IfOk result (λ made. made.items ≡ fault_text kind) }
{
    let meant = meant_text(alloc, kind)?;
    let mut made = Vec::new(alloc);
    made.extend_from_slice(fault_word(kind))?;
    made.extend_from_slice(&meant)?;
    Ok(made)
}

// Appends a fault of a head or a cell.
fn put_cell_fault(
    alloc: Global,
    out: &mut Vec<u8>,
    two: Two<'_>,
    fault: Fault,
) -> Result<(), NoMemory>
    ensures { OnOk result (out.new.items ≡ out.old.items
        ++ row_line (cell_fault_row (tables_in two.entry) fault)) }
{
    let records = two.table(fault.at.table);
    let what = fault_text(alloc, fault.kind)?;
    put_located(alloc, out, records, fault.at, &what)
}

/// Appends faults of heads and cells.
///
/// # Errors
///
/// `NoMemory` if an allocation is refused.
pub fn put_cell_faults(
    alloc: Global,
    out: &mut Vec<u8>,
    two: Two<'_>,
    faults: &[Fault],
) -> Result<(), NoMemory>
    ensures { OnOk result (out.new.items ≡ out.old.items
        ++ rows_text (map (cell_fault_row (tables_in two.entry)) faults.now)) }
{
    for place in 0..faults.len() {
        put_cell_fault(alloc, out, two, faults[place])?;
    }
    Ok(())
}

// Appends an option with a fault.
fn put_option(out: &mut Vec<u8>, option: &[u8], what: &[u8]) -> Result<(), NoMemory>
    ensures { OnOk result (out.new.items ≡ out.old.items ++ row_line (option_row option.now what.now)) }
{
    let wrong = Wrong {
        column: option,
        what,
    };
    put_fault(out, b"options", b"", wrong, b"")
}

/// Appends a number that is too great, or that there are too many.
///
/// # Errors
///
/// `NoMemory` if an allocation is refused.
pub fn put_great(
    alloc: Global,
    out: &mut Vec<u8>,
    two: Two<'_>,
    fault: GreatFault,
) -> Result<(), NoMemory>
    ensures { OnOk result (out.new.items ≡ out.old.items
        ++ row_line (great_row (tables_in two.entry) fault)) }
{
    match fault {
        GreatFault::Steps => {
            let wrong = Wrong {
                column: b"most",
                what: b"too many steps",
            };
            put_fault(out, b"routes", b"", wrong, b"")
        }
        GreatFault::Penalty => put_option(out, penalty_word(), too_great()),
        GreatFault::Cell(at) => {
            let records = two.table(at.table);
            put_located(alloc, out, records, at, too_great())
        }
    }
}

/// Appends numbers that are too great.
///
/// # Errors
///
/// `NoMemory` if an allocation is refused.
pub fn put_greats(
    alloc: Global,
    out: &mut Vec<u8>,
    two: Two<'_>,
    faults: &[GreatFault],
) -> Result<(), NoMemory>
    ensures { OnOk result (out.new.items ≡ out.old.items
        ++ rows_text (map (great_row (tables_in two.entry)) faults.now)) }
{
    for place in 0..faults.len() {
        put_great(alloc, out, two, faults[place])?;
    }
    Ok(())
}

// The line that a fault of the problem is about, if it is about one row.
fn planner_line(alloc: Global, two: Two<'_>, fault: &PlannerFault) -> Result<Vec<u8>, NoMemory>
    ensures { IfOk result (λ made. made.items ≡ planner_line (tables_in two.entry) fault.now) }
{
    match fault {
        PlannerFault::BelowPenalty(place) => line_cell(alloc, two.places, *place),
        PlannerFault::IdlePenalty(place) => line_cell(alloc, two.places, *place),
        PlannerFault::NoPenalty(place) => line_cell(alloc, two.places, *place),
        PlannerFault::NoLimit(place) => line_cell(alloc, two.places, *place),
        PlannerFault::Routes(found) => line_cell(alloc, two.routes, found.route),
        _ => Ok(Vec::new(alloc)),
    }
}

// Appends a fault of the problem.
fn put_planner_fault(
    alloc: Global,
    out: &mut Vec<u8>,
    two: Two<'_>,
    fault: &PlannerFault,
) -> Result<(), NoMemory>
    ensures { OnOk result (out.new.items ≡ out.old.items ++ row_line (planner_row (tables_in two.entry) fault.now)) }
{
    let line = planner_line(alloc, two, fault)?;
    let wrong = Wrong {
        column: planner_column(fault),
        what: planner_word(fault),
    };
    put_fault(out, planner_table(fault), &line, wrong, b"")
}

/// Appends faults of the problem.
///
/// # Errors
///
/// `NoMemory` if an allocation is refused.
pub fn put_planner_faults(
    alloc: Global,
    out: &mut Vec<u8>,
    two: Two<'_>,
    faults: &[PlannerFault],
) -> Result<(), NoMemory>
    ensures { OnOk result (out.new.items ≡ out.old.items
        ++ rows_text (map (planner_row (tables_in two.entry)) faults.now)) }
{
    for place in 0..faults.len() {
        put_planner_fault(alloc, out, two, &faults[place])?;
    }
    Ok(())
}

// The line that a number beyond the limits comes from, if it is one.
fn origin_line(alloc: Global, two: Two<'_>, origin: Option<Origin>) -> Result<Vec<u8>, NoMemory>
    ensures { IfOk result (λ made. made.items ≡ origin_line (tables_in two.entry) origin) }
{
    match origin {
        Some(Origin::OfPlace(place)) => line_cell(alloc, two.places, place),
        Some(Origin::OfPenalty(place)) => line_cell(alloc, two.places, place),
        Some(Origin::OfRoute(route)) => line_cell(alloc, two.routes, route),
        _ => Ok(Vec::new(alloc)),
    }
}

/// Appends a number beyond the limits, and where it comes from.
///
/// # Errors
///
/// `NoMemory` if an allocation is refused.
pub fn put_beyond(
    alloc: Global,
    out: &mut Vec<u8>,
    two: Two<'_>,
    origin: Option<Origin>,
    fault: &ArrayFault,
) -> Result<(), NoMemory>
    ensures { OnOk result (out.new.items ≡ out.old.items ++ row_line (beyond_row (tables_in two.entry) origin fault.now)) }
{
    let line = origin_line(alloc, two, origin)?;
    let wrong = Wrong {
        column: beyond_column(origin, fault),
        what: beyond_word(fault),
    };
    put_fault(out, origin_table(origin), &line, wrong, b"")
}
