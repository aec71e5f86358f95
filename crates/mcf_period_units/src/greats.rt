//! What is too great, or too late, over periods.
ghost use Rattle.std.specs.Prelude.{◌≡◌, ◌++◌, IfOk, OnOk, length, map};
ghost use Rattle.std.specs.List.{flat_map, range_with_len};
ghost use Rattle.mcf_period_units.specs.declared.faults.PeriodGreat.TheVariants.{Number};
ghost use Rattle.mcf_period_units.specs.Numbering.{place_count};
ghost use Rattle.mcf_period_units.specs.Spans.{span_of};
ghost use Rattle.mcf_period_units.specs.PeriodEntries.{PeriodEntries as AllEntries, entries_over};
ghost use Rattle.mcf_period_units.specs.PeriodGreats.{first_departure, great_keep, great_row, great_rows, great_time, greats, is_large, is_late, late_fault, lead_of, unless_limit, unless_so};

use crate::faults::{PeriodCell, PeriodGreat};
use crate::spans::{Span, period_count, span_in};
use crate::unit_rows::{route_time_at, time_at};
use mcf_decimal::Decimal;
use mcf_period_reading::{KeepEntry, PeriodHead, PeriodTables, PlaceTime, RouteTime};
use mcf_places::PLACE_LIMIT;
use mcf_reading::Tables;
use mcf_text::NoMemory;
use mcf_units::{GreatFault, Scales, Terms, great_faults, is_whole};
use std::alloc::Global;

// Appends a fault, unless the test holds.
fn push_unless(found: &mut Vec<PeriodGreat>, test: bool, fault: PeriodGreat) -> Result<(), NoMemory>
    ensures { OnOk result (found.new.items ≡ found.old.items ++ unless_so test fault) }
{
    if !test {
        found.push(fault)?;
    }
    Ok(())
}

// Appends a fault, unless the limit is a whole number of units.
fn push_limit(
    found: &mut Vec<PeriodGreat>,
    scale: u32,
    most: Option<Decimal>,
    fault: PeriodGreat,
) -> Result<(), NoMemory>
    ensures { OnOk result (found.new.items ≡ found.old.items ++ unless_limit scale most fault) }
{
    match most {
        Some(number) => push_unless(found, is_whole(scale, number), fault),
        None => Ok(()),
    }
}

// The cell of a row of places.
fn cell(row: usize, head: PeriodHead) -> PeriodCell
    ensures row { result.row ≡ row }
    ensures head { result.head ≡ head }
{
    PeriodCell { row, head }
}

// Appends the numbers of what a place may keep that are too great.
fn push_keep(
    found: &mut Vec<PeriodGreat>,
    scales: Scales,
    row: usize,
    keep: Option<KeepEntry>,
) -> Result<(), NoMemory>
    ensures { OnOk result (found.new.items ≡ found.old.items ++ great_keep scales row keep) }
{
    let Some(keep) = keep else {
        return Ok(());
    };
    let most = PeriodGreat::Cell(cell(row, PeriodHead::KeepMost));
    let cost = PeriodGreat::Cell(cell(row, PeriodHead::KeepCost));
    push_limit(found, scales.amounts, keep.most, most)?;
    push_unless(found, is_whole(scales.costs, keep.cost), cost)
}

// Appends the numbers that a row of places says about periods that are too great.
fn push_time(
    found: &mut Vec<PeriodGreat>,
    scales: Scales,
    row: usize,
    time: PlaceTime,
) -> Result<(), NoMemory>
    ensures { OnOk result (found.new.items ≡ found.old.items ++ great_time scales row time) }
{
    let first = PeriodGreat::Cell(cell(row, PeriodHead::FirstStock));
    let last = PeriodGreat::Cell(cell(row, PeriodHead::LastStock));
    push_keep(found, scales, row, time.keep)?;
    push_unless(found, is_whole(scales.amounts, time.first), first)?;
    push_unless(found, is_whole(scales.amounts, time.last), last)
}

// Appends what is too great in all rows of places.
fn push_rows(
    found: &mut Vec<PeriodGreat>,
    scales: Scales,
    times: &[PlaceTime],
) -> Result<(), NoMemory>
    ensures { OnOk result (found.new.items ≡ found.old.items ++ flat_map (great_row scales times.now) (range_with_len 1 (length times.now))) }
{
    for place in 0..times.len() {
        push_time(found, scales, place + 1, time_at(times, place + 1))?;
    }
    Ok(())
}

// A lead, which is a whole number of 32 bits.
pub(crate) fn lead_of(number: Decimal) -> u32
    ensures { result ≡ lead_of number }
{
    u32::try_from(number.mantissa.unsigned_abs()).unwrap_or(0)
}

// The first period in which a row of routes departs.
pub(crate) fn first_departure(time: RouteTime) -> usize
    ensures { result ≡ first_departure time }
{
    if time.period == 0 { 1 } else { time.period }
}

// Whether what leaves in the first period in which a row departs arrives after the last period.
fn is_late(last: usize, time: RouteTime) -> bool
    ensures { result ≡ is_late last time }
{
    (last as u128) < first_departure(time) as u128 + u128::from(lead_of(time.lead))
}

// Appends the fault of a row of routes, if there are so many periods and it is too late.
fn push_if_late(
    found: &mut Vec<PeriodGreat>,
    last: usize,
    times: &[RouteTime],
    row: usize,
) -> Result<(), NoMemory>
    ensures { OnOk result (found.new.items ≡ found.old.items ++ late_fault last times.now row) }
{
    if is_late(last, route_time_at(times, row)) {
        found.push(PeriodGreat::Late(row))?;
    }
    Ok(())
}

// Appends the rows of routes that are too late.
fn push_late(
    found: &mut Vec<PeriodGreat>,
    tables: &Tables,
    times: &PeriodTables<'_>,
) -> Result<(), NoMemory>
    ensures { OnOk result (found.new.items ≡ found.old.items ++ flat_map (late_fault (length times.now.periods) times.now.routes.items) (range_with_len 1 (length tables.now.routes))) }
{
    let last = times.periods.len();
    for place in 0..tables.route_count() {
        push_if_late(found, last, &times.routes, place + 1)?;
    }
    Ok(())
}

// Appends numbers that are too great without periods.
fn push_numbers(found: &mut Vec<PeriodGreat>, numbers: &[GreatFault]) -> Result<(), NoMemory>
    ensures { OnOk result (found.new.items ≡ found.old.items ++ map Number numbers.now) }
{
    for place in 0..numbers.len() {
        found.push(PeriodGreat::Number(numbers[place]))?;
    }
    Ok(())
}

// Whether there are too many places, periods, or places in all periods.
fn is_large(count: usize, span: Span) -> bool
    ensures { (E : AllEntries) → place_count E.places ≡ count → span_of E ≡ span → result ≡ is_large E }
{
    count > PLACE_LIMIT
        || (span.last > PLACE_LIMIT || count.saturating_mul(period_count(span)) > PLACE_LIMIT)
}

// What is too great of rows.
fn great_rows(
    alloc: Global,
    scales: Scales,
    tables: &Tables,
    times: &PeriodTables<'_>,
    terms: Terms,
) -> Result<Vec<PeriodGreat>, NoMemory>
    ensures { IfOk result (λ found. found.items ≡ great_rows scales (entries_over tables.now times.now) terms) }
{
    let numbers = great_faults(alloc, scales, tables, terms)?;
    let mut found = Vec::new(alloc);
    push_numbers(&mut found, &numbers)?;
    push_rows(&mut found, scales, &times.places)?;
    push_late(&mut found, tables, times)?;
    Ok(found)
}

// That there are too many places, or else what is too great of rows. There are so many places.
pub(crate) fn greats(
    alloc: Global,
    scales: Scales,
    tables: &Tables,
    times: &PeriodTables<'_>,
    terms: Terms,
    count: usize,
) -> Result<Vec<PeriodGreat>, NoMemory>
    requires { count ≡ place_count times.now.places.items }
    ensures { IfOk result (λ found. found.items ≡ greats scales (entries_over tables.now times.now) terms) }
{
    let span = span_in(&times.places, times.periods.len());
    if is_large(count, span) {
        return Ok(vec![in alloc; PeriodGreat::Places]?);
    }
    great_rows(alloc, scales, tables, times, terms)
}
