//! Ranges as rows of a table.
ghost use Rattle.std.specs.Prelude.{◌≡◌, ◌∷◌, ◌++◌, [], IfOk, OnOk};
ghost use Rattle.mcf_answer_rows.specs.Lines.{row_line, rows_text};
ghost use Rattle.mcf_plan_rows.specs.Cells.{rate_text, text_if};
ghost use Rattle.mcf_plan_rows.specs.FaultRows.{tables_in};
ghost use Rattle.mcf_range_text.specs.RangeTexts.{problem_range_rows, range_row, range_rows, table_range_rows, told_rows};

use crate::period_rows::put_period_ranges;
use mcf_answer_rows::{cell_under, decimal_cell, line_cell, put_line};
use mcf_flow_tables::{FlowAnswer, ProblemAnswer, TableAnswer};
use mcf_plan_rows::Two;
use mcf_planner_ranges::CostRange;
use mcf_table::Records;
use mcf_text::NoMemory;
use mcf_units::Scales;
use std::alloc::Global;

// Returns an end of a range as a cell, which is empty without a limit.
pub(crate) fn end_cell(
    alloc: Global,
    scales: Scales,
    end: Option<i128>,
) -> Result<Vec<u8>, NoMemory>
    ensures { IfOk result (λ made. made.items ≡ text_if (rate_text scales) end) }
{
    match end {
        Some(change) => decimal_cell(alloc, change, scales.costs),
        None => Ok(Vec::new(alloc)),
    }
}

// Appends the range of the route of a row.
fn put_range(
    alloc: Global,
    out: &mut Vec<u8>,
    routes: &Records,
    scales: Scales,
    range: CostRange,
    row: usize,
) -> Result<(), NoMemory>
    ensures { OnOk result (out.new.items ≡ out.old.items ++ row_line (range_row scales routes.now row range)) }
{
    let line = line_cell(alloc, routes, row)?;
    let tail = cell_under(routes, b"from", row);
    let head = cell_under(routes, b"to", row);
    let down = end_cell(alloc, scales, range.down)?;
    let up = end_cell(alloc, scales, range.up)?;
    put_line(out, &[b"range", &line, tail, head, &down, &up])
}

// Appends the range of the route of a row, if it is told.
fn put_told(
    alloc: Global,
    out: &mut Vec<u8>,
    routes: &Records,
    scales: Scales,
    told: Option<CostRange>,
    row: usize,
) -> Result<(), NoMemory>
    ensures { OnOk result (out.new.items ≡ out.old.items ++ rows_text (told_rows scales routes.now row (told ∷ []))) }
{
    match told {
        Some(range) => put_range(alloc, out, routes, scales, range, row),
        None => Ok(()),
    }
}

// Appends the ranges that are told of rows.
fn put_all(
    alloc: Global,
    out: &mut Vec<u8>,
    routes: &Records,
    scales: Scales,
    ranges: &[Option<CostRange>],
) -> Result<(), NoMemory>
    ensures { OnOk result (out.new.items ≡ out.old.items ++ rows_text (told_rows scales routes.now 1 ranges.now)) }
{
    for place in 0..ranges.len() {
        put_told(alloc, out, routes, scales, ranges[place], place + 1)?;
    }
    Ok(())
}

// Appends the ranges of the answer to what tables say.
fn put_problem_ranges(
    alloc: Global,
    out: &mut Vec<u8>,
    routes: &Records,
    answer: &ProblemAnswer,
    ranges: &[Option<CostRange>],
) -> Result<(), NoMemory>
    ensures { OnOk result (out.new.items ≡ out.old.items ++ rows_text (problem_range_rows routes.now answer.now ranges.now)) }
{
    match answer {
        ProblemAnswer::Solved(solved) => put_all(alloc, out, routes, solved.scales, ranges),
        _ => Ok(()),
    }
}

// Appends the ranges of the answer to the rows of two tables.
fn put_table_ranges(
    alloc: Global,
    out: &mut Vec<u8>,
    two: Two<'_>,
    answer: &TableAnswer,
    ranges: &[Option<CostRange>],
) -> Result<(), NoMemory>
    ensures { OnOk result (out.new.items ≡ out.old.items ++ rows_text (table_range_rows (tables_in two.entry) answer.now ranges.now)) }
{
    match answer {
        TableAnswer::Faults(_) => Ok(()),
        TableAnswer::Problem(answer) => put_problem_ranges(alloc, out, two.routes, answer, ranges),
        TableAnswer::Periods(answer) => put_period_ranges(alloc, out, two, answer, ranges),
    }
}

/// Appends the ranges of an answer.
///
/// # Errors
///
/// `NoMemory` if an allocation is refused.
pub(crate) fn put_ranges(
    alloc: Global,
    out: &mut Vec<u8>,
    answer: &FlowAnswer,
    ranges: &[Option<CostRange>],
) -> Result<(), NoMemory>
    ensures { OnOk result (out.new.items ≡ out.old.items ++ rows_text (range_rows answer.now ranges.now)) }
{
    match answer {
        FlowAnswer::Tables(said) => {
            let two = Two {
                places: &said.places,
                routes: &said.routes,
            };
            put_table_ranges(alloc, out, two, &said.answer, ranges)
        }
        _ => Ok(()),
    }
}
