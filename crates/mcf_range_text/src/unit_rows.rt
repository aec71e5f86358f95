//! The units for which prices hold, as rows of a table.
ghost use Rattle.std.specs.Prelude.{◌≡◌, ◌++◌, IfOk, None, OnOk, slice_index_or, suc};
ghost use Rattle.mcf_answer_rows.specs.Lines.{rows_text};
ghost use Rattle.mcf_plan_rows.specs.Cells.{amount_text, text_if};
ghost use Rattle.mcf_plan_rows.specs.FaultRows.{tables_in};
ghost use Rattle.mcf_range_text.specs.PassRangeTexts.{pass_range_row, pass_range_rows};
ghost use Rattle.mcf_range_text.specs.PeriodRangeTexts.{row_if_told};
ghost use Rattle.mcf_range_text.specs.RoomRangeTexts.{room_range_row, room_range_rows};
ghost use Rattle.mcf_range_text.specs.SupplyRangeTexts.{supply_range_row, supply_range_rows};
ghost use Rattle.mcf_range_text.specs.UnitRangeTexts.{least_unit_rows, problem_unit_rows, solved_unit_rows, table_unit_rows, unit_rows};

use crate::period_unit_rows::put_period_units;
use crate::supplies::SupplyRange;
use crate::units::UnitRanges;
use mcf_answer_rows::{cell_under, decimal_cell, line_cell, put_line};
use mcf_flow_tables::{FlowAnswer, ProblemAnswer, SolvedProblem, TableAnswer};
use mcf_places::PlannerAnswer;
use mcf_plan_rows::{Two, amount_cell};
use mcf_table::Records;
use mcf_text::NoMemory;
use mcf_unit_ranges::UnitsRange;
use mcf_units::Scales;
use std::alloc::Global;

// Returns a number of units as a cell, which is empty without a limit.
pub(crate) fn units_cell(
    alloc: Global,
    scales: Scales,
    most: Option<i64>,
) -> Result<Vec<u8>, NoMemory>
    ensures { IfOk result (λ made. made.items ≡ text_if (amount_text scales) most) }
{
    match most {
        Some(most) => amount_cell(alloc, scales, i128::from(most)),
        None => Ok(Vec::new(alloc)),
    }
}

// Appends the range of the room on the route of a row, if it is told.
fn put_room(
    alloc: Global,
    out: &mut Vec<u8>,
    routes: &Records,
    scales: Scales,
    row: usize,
    told: Option<UnitsRange>,
) -> Result<(), NoMemory>
    ensures { OnOk result (out.new.items ≡ out.old.items ++ rows_text (row_if_told (room_range_row scales routes.now row) told)) }
{
    let Some(range) = told else {
        return Ok(());
    };
    let line = line_cell(alloc, routes, row)?;
    let tail = cell_under(routes, b"from", row);
    let head = cell_under(routes, b"to", row);
    let most = units_cell(alloc, scales, range.most)?;
    put_line(out, &[b"room range", &line, tail, head, &most])
}

// Appends the ranges of the room on the routes of all rows.
fn put_rooms(
    alloc: Global,
    out: &mut Vec<u8>,
    routes: &Records,
    scales: Scales,
    ranges: &[Option<UnitsRange>],
) -> Result<(), NoMemory>
    ensures { OnOk result (out.new.items ≡ out.old.items ++ rows_text (room_range_rows scales routes.now ranges.now)) }
{
    for place in 0..ranges.len() {
        put_room(alloc, out, routes, scales, place + 1, ranges[place])?;
    }
    Ok(())
}

// Appends the range of a place, if it is told.
fn put_pass(
    alloc: Global,
    out: &mut Vec<u8>,
    places: &Records,
    scales: Scales,
    row: usize,
    told: Option<UnitsRange>,
) -> Result<(), NoMemory>
    ensures { OnOk result (out.new.items ≡ out.old.items ++ rows_text (row_if_told (pass_range_row scales places.now row) told)) }
{
    let Some(range) = told else {
        return Ok(());
    };
    let line = line_cell(alloc, places, row)?;
    let name = cell_under(places, b"name", row);
    let most = units_cell(alloc, scales, range.most)?;
    put_line(out, &[b"pass range", &line, name, &most])
}

// Appends the ranges of all places.
fn put_passes(
    alloc: Global,
    out: &mut Vec<u8>,
    places: &Records,
    scales: Scales,
    ranges: &[Option<UnitsRange>],
) -> Result<(), NoMemory>
    ensures { OnOk result (out.new.items ≡ out.old.items ++ rows_text (pass_range_rows scales places.now ranges.now)) }
{
    for place in 0..ranges.len() {
        put_pass(alloc, out, places, scales, place + 1, ranges[place])?;
    }
    Ok(())
}

// Appends the range of the supply, or of the demand, of a place, if it is told.
fn put_supply(
    alloc: Global,
    out: &mut Vec<u8>,
    places: &Records,
    scales: Scales,
    row: usize,
    told: Option<SupplyRange>,
) -> Result<(), NoMemory>
    ensures { OnOk result (out.new.items ≡ out.old.items ++ rows_text (row_if_told (supply_range_row scales places.now row) told)) }
{
    let Some(range) = told else {
        return Ok(());
    };
    let line = line_cell(alloc, places, row)?;
    let name = cell_under(places, b"name", row);
    let cost = decimal_cell(alloc, range.cost, scales.costs)?;
    let most = units_cell(alloc, scales, range.most)?;
    put_line(out, &[b"supply range", &line, name, &cost, &most])
}

// Appends the ranges of the supplies and demands of all places.
fn put_supplies(
    alloc: Global,
    out: &mut Vec<u8>,
    places: &Records,
    scales: Scales,
    ranges: &[Option<SupplyRange>],
) -> Result<(), NoMemory>
    ensures { OnOk result (out.new.items ≡ out.old.items ++ rows_text (supply_range_rows scales places.now ranges.now)) }
{
    for place in 0..ranges.len() {
        put_supply(alloc, out, places, scales, place + 1, ranges[place])?;
    }
    Ok(())
}

// Appends the ranges of a least plan.
fn put_least_units(
    alloc: Global,
    out: &mut Vec<u8>,
    two: Two<'_>,
    scales: Scales,
    ranges: &UnitRanges,
) -> Result<(), NoMemory>
    ensures { OnOk result (out.new.items ≡ out.old.items ++ rows_text (least_unit_rows (tables_in two.entry) scales ranges.now)) }
{
    put_rooms(alloc, out, two.routes, scales, &ranges.rooms)?;
    put_passes(alloc, out, two.places, scales, &ranges.passes)?;
    put_supplies(alloc, out, two.places, scales, &ranges.supplies)
}

// Appends the ranges of a problem that was solved.
fn put_solved_units(
    alloc: Global,
    out: &mut Vec<u8>,
    two: Two<'_>,
    solved: &SolvedProblem,
    ranges: &UnitRanges,
) -> Result<(), NoMemory>
    ensures { OnOk result (out.new.items ≡ out.old.items ++ rows_text (solved_unit_rows (tables_in two.entry) solved.now.scales solved.now.answer ranges.now)) }
{
    match &solved.answer {
        PlannerAnswer::Least(_) => put_least_units(alloc, out, two, solved.scales, ranges),
        _ => Ok(()),
    }
}

// Appends the ranges of the answer to what tables say.
fn put_problem_units(
    alloc: Global,
    out: &mut Vec<u8>,
    two: Two<'_>,
    answer: &ProblemAnswer,
    ranges: &UnitRanges,
) -> Result<(), NoMemory>
    ensures { OnOk result (out.new.items ≡ out.old.items ++ rows_text (problem_unit_rows (tables_in two.entry) answer.now ranges.now)) }
{
    match answer {
        ProblemAnswer::Solved(solved) => put_solved_units(alloc, out, two, solved, ranges),
        _ => Ok(()),
    }
}

// Appends the ranges of the answer to the rows of two tables.
fn put_table_units<'x>(
    alloc: Global,
    out: &mut Vec<u8>,
    two: Two<'x>,
    answer: &'x TableAnswer,
    ranges: &UnitRanges,
) -> Result<(), NoMemory>
    ensures { OnOk result (out.new.items ≡ out.old.items ++ rows_text (table_unit_rows (tables_in two.entry) answer.now ranges.now)) }
{
    match answer {
        TableAnswer::Problem(answer) => put_problem_units(alloc, out, two, answer, ranges),
        TableAnswer::Periods(answer) => put_period_units(alloc, out, two, answer, ranges),
        TableAnswer::Faults(_) => Ok(()),
    }
}

/// Appends the ranges of the units of an answer.
///
/// # Errors
///
/// `NoMemory` if an allocation is refused.
pub(crate) fn put_units(
    alloc: Global,
    out: &mut Vec<u8>,
    answer: &FlowAnswer,
    ranges: &UnitRanges,
) -> Result<(), NoMemory>
    ensures { OnOk result (out.new.items ≡ out.old.items ++ rows_text (unit_rows answer.now ranges.now)) }
{
    match answer {
        FlowAnswer::Tables(said) => {
            let two = Two {
                places: &said.places,
                routes: &said.routes,
            };
            put_table_units(alloc, out, two, &said.answer, ranges)
        }
        _ => Ok(()),
    }
}
