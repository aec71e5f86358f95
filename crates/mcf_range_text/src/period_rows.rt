//! Ranges over periods as rows of a table.
ghost use Rattle.std.specs.Prelude.{◌≡◌, ◌++◌, IfOk, None, OnOk, drop, slice_index_or};
ghost use Rattle.mcf_answer_rows.specs.Lines.{rows_text};
ghost use Rattle.mcf_period_reading.specs.PlaceTimes.{periods_in};
ghost use Rattle.mcf_period_text.specs.PeriodAnswerRows.{timed_of};
ghost use Rattle.mcf_period_text.specs.TimedTables.{timed_in};
ghost use Rattle.mcf_plan_rows.specs.Cells.{rate_text, text_if};
ghost use Rattle.mcf_plan_rows.specs.FaultRows.{tables_in};
ghost use Rattle.mcf_range_text.specs.PeriodRangeTexts.{departure_range_row, departure_range_rows, keep_range_row, keep_range_rows, period_range_rows, row_if_told};

use crate::rows::end_cell;
use mcf_answer_rows::{line_cell, put_line};
use mcf_flow_tables::{PeriodAnswer, SolvedPeriods};
use mcf_names::Names;
use mcf_period_reading::periods_in;
use mcf_period_text::{
    Timed, arrives_at, departure_origin, leaves_from, period_name, place_name, store_origin,
};
use mcf_period_units::{DepartureOrigin, StoreOrigin};
use mcf_plan_rows::Two;
use mcf_planner_ranges::CostRange;
use mcf_text::NoMemory;
use mcf_units::Scales;
use std::alloc::Global;

// Returns the range at a place, if it is told.
pub(crate) fn range_at<R: Copy>(ranges: &[Option<R>], place: usize) -> Option<R>
    ensures { result ≡ slice_index_or ranges.now place None }
{
    match ranges.get(place) {
        Some(told) => *told,
        None => None,
    }
}

// Returns the ranges after so many.
pub(crate) fn ranges_after<R>(ranges: &[Option<R>], count: usize) -> &[Option<R>]
    ensures { result.now ≡ drop count ranges.now }
{
    if count < ranges.len() {
        &ranges[count..]
    } else {
        &[]
    }
}

// The cells of a range: by how much a cost may fall, and by how much it may rise.
#[derive(Drop)]
struct EndCells {
    down: Vec<u8>,
    up: Vec<u8>,
}

// Returns the ends of a range as cells.
fn end_cells(alloc: Global, scales: Scales, range: CostRange) -> Result<EndCells, NoMemory>
    ensures down { IfOk result (λ made. made.down.items ≡ text_if (rate_text scales) range.down) }
    ensures up { IfOk result (λ made. made.up.items ≡ text_if (rate_text scales) range.up) }
{
    let down = end_cell(alloc, scales, range.down)?;
    let up = end_cell(alloc, scales, range.up)?;
    Ok(EndCells { down, up })
}

// Appends the range of a departure, if it is told.
fn put_departure_range(
    alloc: Global,
    out: &mut Vec<u8>,
    timed: Timed<'_, '_>,
    scales: Scales,
    departure: DepartureOrigin,
    told: Option<CostRange>,
) -> Result<(), NoMemory>
    ensures { OnOk result (out.new.items ≡ out.old.items
        ++ rows_text (row_if_told (departure_range_row (timed_in timed.entry) scales departure) told)) }
{
    let Some(range) = told else {
        return Ok(());
    };
    let line = line_cell(alloc, timed.two.routes, departure.row as usize)?;
    let ends = end_cells(alloc, scales, range)?;
    let tail = leaves_from(timed, departure);
    let head = arrives_at(timed, departure);
    let leaves = period_name(timed, departure.period as usize);
    let arrives = period_name(timed, departure.arrival as usize);
    put_line(
        out,
        &[
            b"range", &line, tail, head, &ends.down, &ends.up, leaves, arrives,
        ],
    )
}

// Appends the ranges of all departures, if the ranges are those of stores and then theirs.
fn put_departure_ranges(
    alloc: Global,
    out: &mut Vec<u8>,
    timed: Timed<'_, '_>,
    scales: Scales,
    ranges: &[Option<CostRange>],
) -> Result<(), NoMemory>
    ensures { OnOk result (out.new.items ≡ out.old.items
        ++ rows_text (departure_range_rows (timed_in timed.entry) scales ranges.now)) }
{
    let own = ranges_after(ranges, timed.origins.stores.len());
    for place in 0..timed.origins.departures.len() {
        let departure = departure_origin(timed, place);
        put_departure_range(alloc, out, timed, scales, departure, range_at(own, place))?;
    }
    Ok(())
}

// Appends the range of a store, if it is told.
fn put_keep_range(
    alloc: Global,
    out: &mut Vec<u8>,
    timed: Timed<'_, '_>,
    scales: Scales,
    store: StoreOrigin,
    told: Option<CostRange>,
) -> Result<(), NoMemory>
    ensures { OnOk result (out.new.items ≡ out.old.items
        ++ rows_text (row_if_told (keep_range_row (timed_in timed.entry) scales store) told)) }
{
    let Some(range) = told else {
        return Ok(());
    };
    let line = line_cell(alloc, timed.two.places, store.row as usize)?;
    let ends = end_cells(alloc, scales, range)?;
    let name = place_name(timed, store.row as usize);
    let after = period_name(timed, store.period as usize);
    let next = period_name(timed, store.period as usize + 1);
    put_line(
        out,
        &[
            b"keep range",
            &line,
            name,
            &ends.down,
            &ends.up,
            after,
            next,
        ],
    )
}

// Appends the ranges of all stores, which are the first ones.
fn put_keep_ranges(
    alloc: Global,
    out: &mut Vec<u8>,
    timed: Timed<'_, '_>,
    scales: Scales,
    ranges: &[Option<CostRange>],
) -> Result<(), NoMemory>
    ensures { OnOk result (out.new.items ≡ out.old.items
        ++ rows_text (keep_range_rows (timed_in timed.entry) scales ranges.now)) }
{
    for place in 0..timed.origins.stores.len() {
        let store = store_origin(timed, place);
        put_keep_range(alloc, out, timed, scales, store, range_at(ranges, place))?;
    }
    Ok(())
}

// Appends the ranges of departures, and then those of stores.
fn put_all_over(
    alloc: Global,
    out: &mut Vec<u8>,
    timed: Timed<'_, '_>,
    scales: Scales,
    ranges: &[Option<CostRange>],
) -> Result<(), NoMemory>
    ensures { OnOk result (out.new.items ≡ out.old.items
        ++ rows_text (departure_range_rows (timed_in timed.entry) scales ranges.now ++ keep_range_rows (timed_in timed.entry) scales ranges.now)) }
{
    put_departure_ranges(alloc, out, timed, scales, ranges)?;
    put_keep_ranges(alloc, out, timed, scales, ranges)
}

// Appends the ranges of a problem over these periods.
fn put_ranges_over<'x>(
    alloc: Global,
    out: &mut Vec<u8>,
    two: Two<'x>,
    periods: &Names<'x>,
    solved: &'x SolvedPeriods,
    ranges: &[Option<CostRange>],
) -> Result<(), NoMemory>
    requires { periods.now ≡ periods_in two.places.now }
    ensures { OnOk result (out.new.items ≡ out.old.items
        ++ rows_text (departure_range_rows (timed_of (tables_in two.entry) solved.now.origins) solved.now.scales ranges.now
        ++ keep_range_rows (timed_of (tables_in two.entry) solved.now.origins) solved.now.scales ranges.now)) }
{
    let timed = Timed {
        two,
        periods,
        origins: &solved.origins,
    };
    put_all_over(alloc, out, timed, solved.scales, ranges)
}

// Appends the ranges of a problem over periods.
fn put_solved_ranges<'x>(
    alloc: Global,
    out: &mut Vec<u8>,
    two: Two<'x>,
    solved: &'x SolvedPeriods,
    ranges: &[Option<CostRange>],
) -> Result<(), NoMemory>
    ensures { OnOk result (out.new.items ≡ out.old.items
        ++ rows_text (departure_range_rows (timed_of (tables_in two.entry) solved.now.origins) solved.now.scales ranges.now
        ++ keep_range_rows (timed_of (tables_in two.entry) solved.now.origins) solved.now.scales ranges.now)) }
{
    let periods = periods_in(alloc, two.places)?;
    put_ranges_over(alloc, out, two, &periods, solved, ranges)
}

/// Appends the ranges of the answer to two tables over periods: those of the departures, and then
/// those of the stores.
///
/// # Errors
///
/// `NoMemory` if an allocation is refused.
pub(crate) fn put_period_ranges<'x>(
    alloc: Global,
    out: &mut Vec<u8>,
    two: Two<'x>,
    answer: &'x PeriodAnswer,
    ranges: &[Option<CostRange>],
) -> Result<(), NoMemory>
    ensures { OnOk result (out.new.items ≡ out.old.items ++ rows_text (period_range_rows (tables_in two.entry) answer.now ranges.now)) }
{
    match answer {
        PeriodAnswer::Solved(solved) => put_solved_ranges(alloc, out, two, solved, ranges),
        _ => Ok(()),
    }
}
