//! Faults of tables over periods as rows of a table.
ghost use Rattle.std.specs.Prelude.{◌≡◌, ◌++◌, ◌∷◌, [], IfOk, OnOk, map};
ghost use Rattle.mcf_answer_rows.specs.FaultWords.{fault_row};
ghost use Rattle.mcf_answer_rows.specs.Lines.{row_line, rows_text};
ghost use Rattle.mcf_period_units.specs.declared.faults.PeriodGreat.TheVariants as great;
ghost use Rattle.mcf_plan_rows.specs.FaultRows.{table_word, tables_in};
ghost use Rattle.mcf_reading.specs.declared.locations.Table.TheVariants.{Places};
ghost use Rattle.mcf_period_text.specs.PeriodFaultRows.{amount_column, beyond_place, is_store, many_places, of_departure, of_none, of_place, of_route, of_store, period_beyond_row, period_cell_row, period_column, period_fault_row, period_great_row, period_place, period_planner_row, placed_row, planner_place, stock_column};
ghost use Rattle.mcf_period_text.specs.Private.PlacedFaults.{placed_in};
ghost use Rattle.mcf_period_text.specs.TimedTables.{timed_in};

use crate::timed::{Timed, departure_origin, period_name, place_origin, store_origin, told_row};
use crate::words::{head_text, many_places, period_word, store_column, store_number};
use mcf_answer_rows::{
    Wrong, cell_at, cell_under, line_cell, next_cell, place_of, put_fault, put_line, too_great,
};
use mcf_instance::ArrayFault;
use mcf_period_reading::{PeriodFault, PeriodHead, PeriodKind};
use mcf_period_units::{PeriodCell, PeriodGreat};
use mcf_places::{Origin, PlannerFault};
use mcf_plan_rows::{
    Two, beyond_column, beyond_word, planner_column, planner_table, planner_word, put_great,
    table_word,
};
use mcf_reading::Table;
use mcf_table::Records;
use mcf_text::NoMemory;
use std::alloc::Global;

// The column of a fault: its head, or, of a title that nearly is the head, its place, from 1.
fn period_column(alloc: Global, head: PeriodHead, kind: PeriodKind) -> Result<Vec<u8>, NoMemory>
    ensures { IfOk result (λ made. made.items ≡ period_column head kind) }
{
    if let PeriodKind::NearHead(place) = kind {
        return next_cell(alloc, place);
    }
    let mut made = Vec::new(alloc);
    made.extend_from_slice(head_text(head))?;
    Ok(made)
}

// Its place, from 0; none, if the head doesn't stand in just one column.
fn period_place(records: &Records, head: PeriodHead, kind: PeriodKind) -> Option<usize>
    ensures { result ≡ period_place records.now head kind }
{
    match kind {
        PeriodKind::NearHead(place) => Some(place),
        _ => place_of(records, head_text(head)),
    }
}

// Appends a fault of what a table says of periods.
fn put_period_fault(
    alloc: Global,
    out: &mut Vec<u8>,
    two: Two<'_>,
    fault: PeriodFault,
) -> Result<(), NoMemory>
    ensures { OnOk result (out.new.items ≡ out.old.items
        ++ row_line (period_fault_row (tables_in two.entry) fault)) }
{
    let records = two.table(fault.table);
    let line = line_cell(alloc, records, fault.row)?;
    let column = period_column(alloc, fault.head, fault.kind)?;
    let place = period_place(records, fault.head, fault.kind);
    let cell = cell_at(records, fault.row, place);
    let wrong = Wrong {
        column: &column,
        what: period_word(fault.head, fault.kind),
    };
    put_fault(out, table_word(fault.table), &line, wrong, cell)
}

/// Appends faults of what tables say of periods.
///
/// # Errors
///
/// `NoMemory` if an allocation is refused.
pub fn put_period_faults(
    alloc: Global,
    out: &mut Vec<u8>,
    two: Two<'_>,
    faults: &[PeriodFault],
) -> Result<(), NoMemory>
    ensures { OnOk result (out.new.items ≡ out.old.items
        ++ rows_text (map (period_fault_row (tables_in two.entry)) faults.now)) }
{
    for place in 0..faults.len() {
        put_period_fault(alloc, out, two, faults[place])?;
    }
    Ok(())
}

// Appends a number that is too great in a cell about periods in the table of places.
fn put_cell(alloc: Global, out: &mut Vec<u8>, two: Two<'_>, at: PeriodCell) -> Result<(), NoMemory>
    ensures { OnOk result (out.new.items ≡ out.old.items ++ row_line (period_cell_row (tables_in two.entry) at)) }
{
    let line = line_cell(alloc, two.places, at.row)?;
    let column = head_text(at.head);
    let cell = cell_under(two.places, column, at.row);
    let wrong = Wrong {
        column,
        what: too_great(),
    };
    put_fault(out, table_word(Table::Places), &line, wrong, cell)
}

// Appends a row of routes that is too late.
fn put_late(alloc: Global, out: &mut Vec<u8>, two: Two<'_>, row: usize) -> Result<(), NoMemory>
    ensures { OnOk result (out.new.items ≡ out.old.items ++ row_line (period_great_row (tables_in two.entry) (great.Late row))) }
{
    let line = line_cell(alloc, two.routes, row)?;
    let column = head_text(PeriodHead::Lead);
    let cell = cell_under(two.routes, column, row);
    let wrong = Wrong {
        column,
        what: b"arrives after the last period",
    };
    put_fault(out, table_word(Table::Routes), &line, wrong, cell)
}

// Appends that there are too many places.
fn put_too_many(out: &mut Vec<u8>) -> Result<(), NoMemory>
    ensures { OnOk result (out.new.items ≡ out.old.items
        ++ row_line (fault_row (table_word Places) [] [] many_places [])) }
{
    let wrong = Wrong {
        column: b"",
        what: many_places(),
    };
    put_fault(out, table_word(Table::Places), b"", wrong, b"")
}

// Appends a number that is too great, or that there are too many, or a row that is too late.
fn put_period_great(
    alloc: Global,
    out: &mut Vec<u8>,
    two: Two<'_>,
    fault: PeriodGreat,
) -> Result<(), NoMemory>
    ensures { OnOk result (out.new.items ≡ out.old.items ++ row_line (period_great_row (tables_in two.entry) fault)) }
{
    match fault {
        PeriodGreat::Places => put_too_many(out),
        PeriodGreat::Number(fault) => put_great(alloc, out, two, fault),
        PeriodGreat::Cell(at) => put_cell(alloc, out, two, at),
        PeriodGreat::Late(row) => put_late(alloc, out, two, row),
    }
}

/// Appends numbers that are too great, and rows of routes that are too late.
///
/// # Errors
///
/// `NoMemory` if an allocation is refused.
pub fn put_period_greats(
    alloc: Global,
    out: &mut Vec<u8>,
    two: Two<'_>,
    faults: &[PeriodGreat],
) -> Result<(), NoMemory>
    ensures { OnOk result (out.new.items ≡ out.old.items
        ++ rows_text (map (period_great_row (tables_in two.entry)) faults.now)) }
{
    for place in 0..faults.len() {
        put_period_great(alloc, out, two, faults[place])?;
    }
    Ok(())
}

// Where a fault stands: the table, the line, the column, and the name of the period.
#[derive(Drop)]
struct Placed<'t> {
    table: &'t [u8],
    line: Vec<u8>,
    column: &'t [u8],
    period: &'t [u8],
}

// The column of an amount between two periods: that of the first stock, if it is there before the
// named ones, that of the last stock, if it is left after them, or else this one.
fn stock_column<'t>(timed: Timed<'_, 't>, begins: usize, ends: usize, column: &'t [u8]) -> &'t [u8]
    ensures { result.now ≡ stock_column (timed_in timed.entry).periods begins ends column.now }
{
    if begins == 0 {
        head_text(PeriodHead::FirstStock)
    } else if timed.periods.len() < ends {
        head_text(PeriodHead::LastStock)
    } else {
        column
    }
}

// A place in a period, by its number.
fn of_place<'t>(
    alloc: Global,
    timed: Timed<'_, 't>,
    number: usize,
    column: &'t [u8],
) -> Result<Placed<'t>, NoMemory>
    ensures { IfOk result (λ made. placed_in made ≡ of_place (timed_in timed.entry) number column.now) }
{
    let origin = place_origin(timed, number.saturating_sub(1));
    let line = line_cell(alloc, timed.two.places, told_row(origin))?;
    Ok(Placed {
        table: table_word(Table::Places),
        line,
        column,
        period: period_name(timed, origin.period as usize),
    })
}

// Whether the route with this number is that of a store.
fn is_store(timed: Timed<'_, '_>, number: usize) -> bool
    ensures { result ≡ is_store (timed_in timed.entry) number }
{
    number.saturating_sub(1) < timed.origins.stores.len()
}

// A store, by the number of its route.
fn of_store<'t>(
    alloc: Global,
    timed: Timed<'_, 't>,
    number: usize,
    column: &'t [u8],
) -> Result<Placed<'t>, NoMemory>
    ensures { IfOk result (λ made. placed_in made ≡ of_store (timed_in timed.entry) number column.now) }
{
    let origin = store_origin(timed, number.saturating_sub(1));
    let line = line_cell(alloc, timed.two.places, origin.row as usize)?;
    let period = origin.period as usize;
    Ok(Placed {
        table: table_word(Table::Places),
        line,
        column: stock_column(timed, period, period + 1, column),
        period: period_name(timed, period),
    })
}

// A departure, by the number of its route.
fn of_departure<'t>(
    alloc: Global,
    timed: Timed<'_, 't>,
    number: usize,
    column: &'t [u8],
) -> Result<Placed<'t>, NoMemory>
    ensures { IfOk result (λ made. placed_in made ≡ of_departure (timed_in timed.entry) number column.now) }
{
    let place = number
        .saturating_sub(1)
        .saturating_sub(timed.origins.stores.len());
    let origin = departure_origin(timed, place);
    let line = line_cell(alloc, timed.two.routes, origin.row as usize)?;
    Ok(Placed {
        table: table_word(Table::Routes),
        line,
        column,
        period: period_name(timed, origin.period as usize),
    })
}

// A store or a departure, by the number of its route: the column of a store, or of a departure.
fn of_route<'t>(
    alloc: Global,
    timed: Timed<'_, 't>,
    number: usize,
    kept: &'t [u8],
    sent: &'t [u8],
) -> Result<Placed<'t>, NoMemory>
    ensures { IfOk result (λ made. placed_in made ≡ of_route (timed_in timed.entry) number kept.now sent.now) }
{
    if is_store(timed, number) {
        of_store(alloc, timed, number, kept)
    } else {
        of_departure(alloc, timed, number, sent)
    }
}

// No row.
fn of_none<'t>(alloc: Global, table: &'t [u8], column: &'t [u8]) -> Placed<'t>
    ensures { placed_in result ≡ of_none table.now column.now }
{
    Placed {
        table,
        line: Vec::new(alloc),
        column,
        period: b"",
    }
}

// Appends a fault at its place, with the period.
fn put_placed<'x>(out: &mut Vec<u8>, at: &'x Placed<'x>, what: &'x [u8]) -> Result<(), NoMemory>
    ensures { OnOk result (out.new.items ≡ out.old.items ++ row_line (placed_row (placed_in at.now) what.now)) }
{
    put_line(
        out,
        &[
            b"fault", at.table, &at.line, at.column, what, b"", at.period,
        ],
    )
}

// Where a fault of the problem stands.
fn planner_place<'t>(
    alloc: Global,
    timed: Timed<'_, 't>,
    fault: &PlannerFault,
) -> Result<Placed<'t>, NoMemory>
    ensures { IfOk result (λ made. placed_in made ≡ planner_place (timed_in timed.entry) fault.now) }
{
    let column = planner_column(fault);
    match fault {
        PlannerFault::BelowPenalty(place) => of_place(alloc, timed, *place, column),
        PlannerFault::IdlePenalty(place) => of_place(alloc, timed, *place, column),
        PlannerFault::NoPenalty(place) => of_place(alloc, timed, *place, column),
        PlannerFault::NoLimit(place) => of_place(alloc, timed, *place, column),
        PlannerFault::Routes(found) => {
            of_route(alloc, timed, found.route, store_column(found.what), column)
        }
        _ => Ok(of_none(alloc, planner_table(fault), column)),
    }
}

// Appends a fault of the problem.
fn put_planner_fault(
    alloc: Global,
    out: &mut Vec<u8>,
    timed: Timed<'_, '_>,
    fault: &PlannerFault,
) -> Result<(), NoMemory>
    ensures { OnOk result (out.new.items ≡ out.old.items ++ row_line (period_planner_row (timed_in timed.entry) fault.now)) }
{
    let at = planner_place(alloc, timed, fault)?;
    put_placed(out, &at, planner_word(fault))
}

/// Appends faults of the problem without periods, each at the row that the place or the route with
/// the fault comes from, with the period.
///
/// # Errors
///
/// `NoMemory` if an allocation is refused.
pub fn put_period_planner_faults(
    alloc: Global,
    out: &mut Vec<u8>,
    timed: Timed<'_, '_>,
    faults: &[PlannerFault],
) -> Result<(), NoMemory>
    ensures { OnOk result (out.new.items ≡ out.old.items
        ++ rows_text (map (period_planner_row (timed_in timed.entry)) faults.now)) }
{
    for place in 0..faults.len() {
        put_planner_fault(alloc, out, timed, &faults[place])?;
    }
    Ok(())
}

// The column of the amount of a place in a period: that of its supply, or of its stock.
fn amount_column<'t>(timed: Timed<'_, 't>, number: usize, column: &'t [u8]) -> &'t [u8]
    ensures { result.now ≡ amount_column (timed_in timed.entry) number column.now }
{
    let period = place_origin(timed, number.saturating_sub(1)).period as usize;
    stock_column(timed, period, period, column)
}

// Where a number beyond the limits comes from.
fn beyond_place<'t>(
    alloc: Global,
    timed: Timed<'_, 't>,
    origin: Option<Origin>,
    fault: &ArrayFault,
) -> Result<Placed<'t>, NoMemory>
    ensures { IfOk result (λ made. placed_in made ≡ beyond_place (timed_in timed.entry) origin fault.now) }
{
    let column = beyond_column(origin, fault);
    match origin {
        Some(Origin::OfPlace(place)) => {
            let amount = amount_column(timed, place, column);
            of_place(alloc, timed, place, amount)
        }
        Some(Origin::OfPenalty(place)) => of_place(alloc, timed, place, column),
        Some(Origin::OfRoute(route)) => {
            of_route(alloc, timed, route, store_number(fault), column)
        }
        _ => Ok(of_none(alloc, b"", column)),
    }
}

/// Appends a number beyond the limits, and the row and the period that it comes from.
///
/// # Errors
///
/// `NoMemory` if an allocation is refused.
pub fn put_period_beyond(
    alloc: Global,
    out: &mut Vec<u8>,
    timed: Timed<'_, '_>,
    origin: Option<Origin>,
    fault: &ArrayFault,
) -> Result<(), NoMemory>
    ensures { OnOk result (out.new.items ≡ out.old.items ++ row_line (period_beyond_row (timed_in timed.entry) origin fault.now)) }
{
    let at = beyond_place(alloc, timed, origin, fault)?;
    put_placed(out, &at, beyond_word(fault))
}
