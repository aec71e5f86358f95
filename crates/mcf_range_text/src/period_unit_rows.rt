//! The units for which prices hold over periods, as rows of a table.
ghost use Rattle.std.specs.Prelude.{◌≡◌, ◌++◌, IfOk, OnOk};
ghost use Rattle.mcf_answer_rows.specs.Lines.{rows_text};
ghost use Rattle.mcf_period_reading.specs.PlaceTimes.{periods_in};
ghost use Rattle.mcf_period_text.specs.PeriodAnswerRows.{timed_of};
ghost use Rattle.mcf_period_text.specs.TimedTables.{timed_in};
ghost use Rattle.mcf_plan_rows.specs.FaultRows.{tables_in};
ghost use Rattle.mcf_range_text.specs.PeriodRangeTexts.{row_if_told};
ghost use Rattle.mcf_range_text.specs.PeriodUnitTexts.{departure_room_row, departure_room_rows, keep_room_row, keep_room_rows, period_pass_row, period_pass_rows, period_supply_row, period_supply_rows, period_unit_rows, solved_period_unit_rows, timed_unit_rows};

use crate::period_rows::{range_at, ranges_after};
use crate::supplies::SupplyRange;
use crate::unit_rows::units_cell;
use crate::units::UnitRanges;
use mcf_answer_rows::{decimal_cell, line_cell, put_line};
use mcf_flow_tables::{PeriodAnswer, SolvedPeriods};
use mcf_names::Names;
use mcf_period_reading::periods_in;
use mcf_period_text::{
    Timed, arrives_at, departure_origin, leaves_from, period_name, place_name, place_origin,
    store_origin, told_row,
};
use mcf_period_units::{DepartureOrigin, PlaceOrigin, StoreOrigin};
use mcf_places::PlannerAnswer;
use mcf_plan_rows::Two;
use mcf_text::NoMemory;
use mcf_unit_ranges::UnitsRange;
use mcf_units::Scales;
use std::alloc::Global;

// Appends the range of the room on a departure, if it is told.
fn put_departure_room(
    alloc: Global,
    out: &mut Vec<u8>,
    timed: Timed<'_, '_>,
    scales: Scales,
    departure: DepartureOrigin,
    told: Option<UnitsRange>,
) -> Result<(), NoMemory>
    ensures { OnOk result (out.new.items ≡ out.old.items
        ++ rows_text (row_if_told (departure_room_row (timed_in timed.entry) scales departure) told)) }
{
    let Some(range) = told else {
        return Ok(());
    };
    let line = line_cell(alloc, timed.two.routes, departure.row as usize)?;
    let most = units_cell(alloc, scales, range.most)?;
    let tail = leaves_from(timed, departure);
    let head = arrives_at(timed, departure);
    let leaves = period_name(timed, departure.period as usize);
    let arrives = period_name(timed, departure.arrival as usize);
    put_line(
        out,
        &[b"room range", &line, tail, head, &most, leaves, arrives],
    )
}

// Appends the ranges of the room on all departures, if the ranges are those of stores and then
// theirs.
fn put_departure_rooms(
    alloc: Global,
    out: &mut Vec<u8>,
    timed: Timed<'_, '_>,
    scales: Scales,
    ranges: &[Option<UnitsRange>],
) -> Result<(), NoMemory>
    ensures { OnOk result (out.new.items ≡ out.old.items
        ++ rows_text (departure_room_rows (timed_in timed.entry) scales ranges.now)) }
{
    let own = ranges_after(ranges, timed.origins.stores.len());
    for place in 0..timed.origins.departures.len() {
        let departure = departure_origin(timed, place);
        put_departure_room(alloc, out, timed, scales, departure, range_at(own, place))?;
    }
    Ok(())
}

// Appends the range of how much more a place may keep, if it is told.
fn put_keep_room(
    alloc: Global,
    out: &mut Vec<u8>,
    timed: Timed<'_, '_>,
    scales: Scales,
    store: StoreOrigin,
    told: Option<UnitsRange>,
) -> Result<(), NoMemory>
    ensures { OnOk result (out.new.items ≡ out.old.items
        ++ rows_text (row_if_told (keep_room_row (timed_in timed.entry) scales store) told)) }
{
    let Some(range) = told else {
        return Ok(());
    };
    let line = line_cell(alloc, timed.two.places, store.row as usize)?;
    let most = units_cell(alloc, scales, range.most)?;
    let name = place_name(timed, store.row as usize);
    let after = period_name(timed, store.period as usize);
    let next = period_name(timed, store.period as usize + 1);
    put_line(out, &[b"keep room range", &line, name, &most, after, next])
}

// Appends the ranges of all stores, which are the first ones.
fn put_keep_rooms(
    alloc: Global,
    out: &mut Vec<u8>,
    timed: Timed<'_, '_>,
    scales: Scales,
    ranges: &[Option<UnitsRange>],
) -> Result<(), NoMemory>
    ensures { OnOk result (out.new.items ≡ out.old.items
        ++ rows_text (keep_room_rows (timed_in timed.entry) scales ranges.now)) }
{
    for place in 0..timed.origins.stores.len() {
        let store = store_origin(timed, place);
        put_keep_room(alloc, out, timed, scales, store, range_at(ranges, place))?;
    }
    Ok(())
}

// Appends the range of what passes through a place in a period, if it is told.
fn put_pass(
    alloc: Global,
    out: &mut Vec<u8>,
    timed: Timed<'_, '_>,
    scales: Scales,
    origin: PlaceOrigin,
    told: Option<UnitsRange>,
) -> Result<(), NoMemory>
    ensures { OnOk result (out.new.items ≡ out.old.items
        ++ rows_text (row_if_told (period_pass_row (timed_in timed.entry) scales origin) told)) }
{
    let Some(range) = told else {
        return Ok(());
    };
    let row = told_row(origin);
    let line = line_cell(alloc, timed.two.places, row)?;
    let most = units_cell(alloc, scales, range.most)?;
    let name = place_name(timed, row);
    let period = period_name(timed, origin.period as usize);
    put_line(out, &[b"pass range", &line, name, &most, period])
}

// Appends the ranges of what passes through all places in all periods.
fn put_passes(
    alloc: Global,
    out: &mut Vec<u8>,
    timed: Timed<'_, '_>,
    scales: Scales,
    ranges: &[Option<UnitsRange>],
) -> Result<(), NoMemory>
    ensures { OnOk result (out.new.items ≡ out.old.items
        ++ rows_text (period_pass_rows (timed_in timed.entry) scales ranges.now)) }
{
    for place in 0..timed.origins.places.len() {
        let origin = place_origin(timed, place);
        put_pass(alloc, out, timed, scales, origin, range_at(ranges, place))?;
    }
    Ok(())
}

// Appends the range of the supply, or of the demand, of a place in a period, if it is told.
fn put_supply(
    alloc: Global,
    out: &mut Vec<u8>,
    timed: Timed<'_, '_>,
    scales: Scales,
    origin: PlaceOrigin,
    told: Option<SupplyRange>,
) -> Result<(), NoMemory>
    ensures { OnOk result (out.new.items ≡ out.old.items
        ++ rows_text (row_if_told (period_supply_row (timed_in timed.entry) scales origin) told)) }
{
    let Some(range) = told else {
        return Ok(());
    };
    let row = told_row(origin);
    let line = line_cell(alloc, timed.two.places, row)?;
    let cost = decimal_cell(alloc, range.cost, scales.costs)?;
    let most = units_cell(alloc, scales, range.most)?;
    let name = place_name(timed, row);
    let period = period_name(timed, origin.period as usize);
    put_line(out, &[b"supply range", &line, name, &cost, &most, period])
}

// Appends the ranges of the supplies and demands of all places in all periods.
fn put_supplies(
    alloc: Global,
    out: &mut Vec<u8>,
    timed: Timed<'_, '_>,
    scales: Scales,
    ranges: &[Option<SupplyRange>],
) -> Result<(), NoMemory>
    ensures { OnOk result (out.new.items ≡ out.old.items
        ++ rows_text (period_supply_rows (timed_in timed.entry) scales ranges.now)) }
{
    for place in 0..timed.origins.places.len() {
        let origin = place_origin(timed, place);
        put_supply(alloc, out, timed, scales, origin, range_at(ranges, place))?;
    }
    Ok(())
}

// Appends the ranges of a least plan over periods.
fn put_timed_units(
    alloc: Global,
    out: &mut Vec<u8>,
    timed: Timed<'_, '_>,
    scales: Scales,
    ranges: &UnitRanges,
) -> Result<(), NoMemory>
    ensures { OnOk result (out.new.items ≡ out.old.items
        ++ rows_text (timed_unit_rows (timed_in timed.entry) scales ranges.now)) }
{
    put_departure_rooms(alloc, out, timed, scales, &ranges.rooms)?;
    put_keep_rooms(alloc, out, timed, scales, &ranges.rooms)?;
    put_passes(alloc, out, timed, scales, &ranges.passes)?;
    put_supplies(alloc, out, timed, scales, &ranges.supplies)
}

// Appends the ranges of a least plan over these periods.
fn put_units_over<'x>(
    alloc: Global,
    out: &mut Vec<u8>,
    two: Two<'x>,
    periods: &Names<'x>,
    solved: &'x SolvedPeriods,
    ranges: &UnitRanges,
) -> Result<(), NoMemory>
    requires { periods.now ≡ periods_in two.places.now }
    ensures { OnOk result (out.new.items ≡ out.old.items
        ++ rows_text (timed_unit_rows (timed_of (tables_in two.entry) solved.now.origins) solved.now.scales ranges.now)) }
{
    let timed = Timed {
        two,
        periods,
        origins: &solved.origins,
    };
    put_timed_units(alloc, out, timed, solved.scales, ranges)
}

// Appends the ranges of a least plan over periods, whose names stand in the table of places.
fn put_least_units<'x>(
    alloc: Global,
    out: &mut Vec<u8>,
    two: Two<'x>,
    solved: &'x SolvedPeriods,
    ranges: &UnitRanges,
) -> Result<(), NoMemory>
    ensures { OnOk result (out.new.items ≡ out.old.items
        ++ rows_text (timed_unit_rows (timed_of (tables_in two.entry) solved.now.origins) solved.now.scales ranges.now)) }
{
    let periods = periods_in(alloc, two.places)?;
    put_units_over(alloc, out, two, &periods, solved, ranges)
}

// Appends the ranges of a problem over periods that was solved.
fn put_solved_units<'x>(
    alloc: Global,
    out: &mut Vec<u8>,
    two: Two<'x>,
    solved: &'x SolvedPeriods,
    ranges: &UnitRanges,
) -> Result<(), NoMemory>
    ensures { OnOk result (out.new.items ≡ out.old.items
        ++ rows_text (solved_period_unit_rows (tables_in two.entry) solved.now ranges.now)) }
{
    match &solved.answer {
        PlannerAnswer::Least(_) => put_least_units(alloc, out, two, solved, ranges),
        _ => Ok(()),
    }
}

/// Appends the ranges of the units of the answer to two tables over periods: those of the room on
/// departures, those of what places may keep, those of what may pass through places, and those of
/// supplies and demands.
///
/// # Errors
///
/// `NoMemory` if an allocation is refused.
pub(crate) fn put_period_units<'x>(
    alloc: Global,
    out: &mut Vec<u8>,
    two: Two<'x>,
    answer: &'x PeriodAnswer,
    ranges: &UnitRanges,
) -> Result<(), NoMemory>
    ensures { OnOk result (out.new.items ≡ out.old.items ++ rows_text (period_unit_rows (tables_in two.entry) answer.now ranges.now)) }
{
    match answer {
        PeriodAnswer::Solved(solved) => put_solved_units(alloc, out, two, solved, ranges),
        _ => Ok(()),
    }
}
