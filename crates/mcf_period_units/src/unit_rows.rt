//! The rows of places in whole units.
ghost use Rattle.std.specs.Prelude.{◌≡◌, IfOk, option_map};
ghost use Rattle.std.specs.List.{list_any};
ghost use Rattle.mcf_reading.specs.Cells.{zero_decimal};
ghost use Rattle.mcf_period_units.specs.PeriodEntries.{entries_over, entry_at, route_time_at, time_at};
ghost use Rattle.mcf_period_units.specs.UnitRows.{earning, far_more, first_place, is_of_stock, keep_earns, keep_in, keep_over, last_place, leaves, named_place, penalty_unless, place_over, row_at, row_earns, stock_keep, stock_place, unit_row, unit_rows};

use mcf_decimal::Decimal;
use mcf_model::{RouteRow, Step, some_earn};
use mcf_period_reading::{KeepEntry, PeriodTables, PlaceTime, RouteTime};
use mcf_places::{Place, place_earns};
use mcf_reading::{PlaceEntry, Tables};
use mcf_text::NoMemory;
use mcf_units::{Scales, place_in, whole, whole_limit};
use std::alloc::Global;

// By how many units the limit of a stock exceeds it: more than all demands that people plan for,
// and so few that such limits of all places together are within the limits of an instance.
const MARGIN: i128 = 1_000_000_000_000;

// What a place may keep from a period to the next, in units.
#[derive(Clone, Copy)]
pub(crate) struct UnitKeep {
    // At most so many units, or `None` for no limit.
    pub(crate) most: Option<i64>,
    // The cost of each.
    pub(crate) cost: i64,
}

// A row of places in units.
#[derive(Clone, Copy)]
pub(crate) struct UnitRow {
    // The place without its stock.
    pub(crate) place: Place,
    // What it may keep, or `None` for nothing.
    pub(crate) keep: Option<UnitKeep>,
    // What is there before the first period.
    pub(crate) first: i64,
    // What must be left after the last period.
    pub(crate) last: i64,
}

// The decimal 0.
fn zero_decimal() -> Decimal
    ensures { result ≡ zero_decimal }
{
    Decimal {
        mantissa: 0,
        places: 0,
    }
}

// What a row of places says about periods; rows count from 1.
pub(crate) fn time_at(times: &[PlaceTime], row: usize) -> PlaceTime
    ensures { result ≡ time_at times.now row }
{
    match times.get(row.saturating_sub(1)) {
        Some(time) => *time,
        None => PlaceTime {
            place: 0,
            period: 0,
            keep: None,
            first: zero_decimal(),
            last: zero_decimal(),
        },
    }
}

// What a row of places says without periods.
fn entry_at(entries: &[PlaceEntry], row: usize) -> PlaceEntry
    ensures { result ≡ entry_at entries.now row }
{
    match entries.get(row.saturating_sub(1)) {
        Some(entry) => *entry,
        None => PlaceEntry {
            supply: zero_decimal(),
            through: None,
            penalty: None,
        },
    }
}

// What a row of routes says about periods.
pub(crate) fn route_time_at(times: &[RouteTime], row: usize) -> RouteTime
    ensures { result ≡ route_time_at times.now row }
{
    match times.get(row.saturating_sub(1)) {
        Some(time) => *time,
        None => RouteTime {
            period: 0,
            lead: zero_decimal(),
        },
    }
}

// What a place may keep, in units.
fn keep_in(scales: Scales, keep: KeepEntry) -> UnitKeep
    ensures { result ≡ keep_in scales keep }
{
    UnitKeep {
        most: whole_limit(scales.amounts, keep.most),
        cost: whole(scales.costs, keep.cost),
    }
}

// The same, if it may keep something.
fn keep_of(scales: Scales, keep: Option<KeepEntry>) -> Option<UnitKeep>
    ensures { result ≡ option_map (keep_in scales) keep }
{
    match keep {
        Some(keep) => Some(keep_in(scales, keep)),
        None => None,
    }
}

// A row in units.
fn unit_row(scales: Scales, entry: PlaceEntry, time: PlaceTime) -> UnitRow
    ensures { result ≡ unit_row scales entry time }
{
    UnitRow {
        place: place_in(scales, entry),
        keep: keep_of(scales, time.keep),
        first: whole(scales.amounts, time.first),
        last: whole(scales.amounts, time.last),
    }
}

// All rows in units.
pub(crate) fn unit_rows(
    alloc: Global,
    scales: Scales,
    tables: &Tables,
    times: &PeriodTables<'_>,
) -> Result<Vec<UnitRow>, NoMemory>
    ensures { IfOk result (λ made. made.items ≡ unit_rows scales (entries_over tables.now times.now)) }
{
    let entries = tables.places();
    let mut made = Vec::new(alloc);
    for place in 0..times.places.len() {
        let entry = entry_at(entries, place + 1);
        let time = time_at(&times.places, place + 1);
        made.push(unit_row(scales, entry, time))?;
    }
    Ok(made)
}

// The row with this number; one that says nothing if there is none.
pub(crate) fn row_at(rows: &[UnitRow], row: usize) -> UnitRow
    ensures { result ≡ row_at rows.now row }
{
    let none = UnitRow {
        place: Place {
            supply: 0,
            through: None,
            penalty: None,
        },
        keep: None,
        first: 0,
        last: 0,
    };
    if row == 0 {
        return none;
    }
    match rows.get(row - 1) {
        Some(found) => *found,
        None => none,
    }
}

// A place that gives or wants so much, whatever passes through it.
fn stock_place(supply: i64, penalty: Option<i64>) -> Place
    ensures { result ≡ stock_place supply penalty }
{
    Place {
        supply,
        through: None,
        penalty,
    }
}

// Whether a row names a last stock.
fn leaves(row: UnitRow) -> bool
    ensures { result ≡ leaves row }
{
    row.last > 0
}

// A penalty, unless the test holds.
fn penalty_unless(test: bool, penalty: Option<i64>) -> Option<i64>
    ensures { result ≡ penalty_unless test penalty }
{
    if test { None } else { penalty }
}

// The place of a row before the first named period.
fn first_place(row: UnitRow) -> Place
    ensures { result ≡ first_place row }
{
    stock_place(row.first, None)
}

// Its place after the last named period.
fn last_place(row: UnitRow) -> Place
    ensures { result ≡ last_place row }
{
    let supply = i64::try_from(-i128::from(row.last)).unwrap_or(0);
    stock_place(supply, penalty_unless(!leaves(row), row.place.penalty))
}

// Whether its penalty in a named period, which may be the last one, is that of the last stock
// alone.
fn is_of_stock(ends: bool, row: UnitRow) -> bool
    ensures { result ≡ is_of_stock ends row }
{
    ends && (leaves(row) && row.place.supply > 0)
}

// Its place in a named period, which may be the last one.
fn named_place(ends: bool, row: UnitRow) -> Place
    ensures { result ≡ named_place ends row }
{
    Place {
        supply: row.place.supply,
        through: row.place.through,
        penalty: penalty_unless(is_of_stock(ends, row), row.place.penalty),
    }
}

// The place of a row in a period, by its number among the named ones, of which there are so many.
pub(crate) fn place_over(last: usize, row: UnitRow, number: usize) -> Place
    ensures { result ≡ place_over last row number }
{
    if number == 0 {
        first_place(row)
    } else if last < number {
        last_place(row)
    } else {
        named_place(number == last, row)
    }
}

// Whether a unit that a place keeps costs less than 0.
fn keep_earns(keep: Option<UnitKeep>) -> bool
    ensures { result ≡ keep_earns keep }
{
    match keep {
        Some(keep) => keep.cost < 0,
        None => false,
    }
}

// Whether one that passes through the place of a row, or that it keeps, does.
fn row_earns(row: UnitRow) -> bool
    ensures { result ≡ row_earns row }
{
    place_earns(row.place.through) || keep_earns(row.keep)
}

// Whether some cost of these rows of places is below 0.
fn units_earn(units: &[UnitRow]) -> bool
    ensures { result ≡ list_any row_earns units.now }
{
    units.iter().any(|row| row_earns(*row))
}

// Whether some cost of these rows of places, or of these rows of routes, is below 0.
pub(crate) fn earning(units: &[UnitRow], steps: &[Step], rows: &[RouteRow]) -> bool
    ensures { result ≡ earning units.now steps.now rows.now }
{
    units_earn(units) || some_earn(steps, rows)
}

// Far more, if that fits 64 bits.
fn far_more(number: i64) -> i64
    ensures { result ≡ far_more number }
{
    i64::try_from(i128::from(number) + MARGIN).unwrap_or(number)
}

// What may be kept of a stock.
fn stock_keep(limited: bool, stock: i64) -> UnitKeep
    ensures { result ≡ stock_keep limited stock }
{
    UnitKeep {
        most: if limited { Some(far_more(stock)) } else { None },
        cost: 0,
    }
}

// What the place of a row may keep after a period, by its number among the named ones, of which
// there are so many.
pub(crate) fn keep_over(limited: bool, last: usize, row: UnitRow, number: usize) -> Option<UnitKeep>
    ensures { result ≡ keep_over limited last row number }
{
    if number == 0 {
        Some(stock_keep(limited, row.first))
    } else if number < last {
        row.keep
    } else {
        Some(stock_keep(limited, row.last))
    }
}
