//! What rows of places say about periods.
ghost use Rattle.std.specs.Prelude.{◌≡◌, ◌<◌, ◌++◌, IfOk, OnOk, length, map};
ghost use Rattle.mcf_names.specs.Names.{number_of};
ghost use Rattle.mcf_reading.specs.RouteRows.{place_or_none};
ghost use Rattle.mcf_table.specs.Heads.{cells_of};
ghost use Rattle.mcf_period_reading.specs.PlaceTimes.{all_place_faults, filled, first_faults, is_taken, keep_faults, keep_of, last_faults, period_cells, period_faults, period_kind, period_number, periods_in, place_faults, place_time, place_times, spot_of, spots, time_columns};

use crate::cells::{
    amount, cell_at, is_filled, limit, limit_kind, number_kind, read_amount, read_limit, row_count,
    stock_kind,
};
use crate::heads::{PeriodHead, place_under};
use crate::kinds::{PeriodFault, PeriodKind, if_kind, push_told};
use crate::spots::{Spot, spot_at};
use crate::taken::taken_rows;
use mcf_decimal::{Decimal, Mark};
use mcf_names::{Names, name_fault};
use mcf_reading::Table;
use mcf_table::Records;
use mcf_text::NoMemory;
use std::alloc::Global;

/// What a place may keep from a period to the next, in the amounts of its table.
#[derive(Clone, Copy, Debug, PartialEq, Eq)]
pub struct KeepEntry {
    /// At most this amount may be kept, or `None` for no limit.
    pub most: Option<Decimal>,
    /// The cost of each unit that is kept.
    pub cost: Decimal,
}

/// What a row of places says about periods, in the amounts of its table.
#[derive(Clone, Copy, Debug, PartialEq, Eq)]
pub struct PlaceTime {
    /// The row that names the place first. Rows count from 1, below the heads.
    pub place: usize,
    /// The number of the period in which the row holds, from 1, or 0 for each period.
    pub period: usize,
    /// What the place may keep, or `None` for nothing.
    pub keep: Option<KeepEntry>,
    /// What is there before the first period.
    pub first: Decimal,
    /// What must be left after the last period.
    pub last: Decimal,
}

// The places of the columns, from 0; `None` for a column that the table lacks.
#[derive(Clone, Copy)]
pub(crate) struct TimeColumns {
    pub(crate) name: Option<usize>,
    pub(crate) period: Option<usize>,
    pub(crate) keep_most: Option<usize>,
    pub(crate) keep_cost: Option<usize>,
    pub(crate) first_stock: Option<usize>,
    pub(crate) last_stock: Option<usize>,
}

// How rows are read: the mark, the columns, and the count of periods.
#[derive(Clone, Copy)]
pub(crate) struct PlaceFormat {
    pub(crate) mark: Option<Mark>,
    pub(crate) columns: TimeColumns,
    pub(crate) count: usize,
}

// The columns.
pub(crate) fn time_columns(records: &Records) -> TimeColumns
    ensures { result ≡ time_columns records.now }
{
    TimeColumns {
        name: records.column_of(b"name").only_place(),
        period: place_under(records, PeriodHead::Period),
        keep_most: place_under(records, PeriodHead::KeepMost),
        keep_cost: place_under(records, PeriodHead::KeepCost),
        first_stock: place_under(records, PeriodHead::FirstStock),
        last_stock: place_under(records, PeriodHead::LastStock),
    }
}

// Appends a cell, unless it is empty.
fn push_filled<'t>(made: &mut Vec<&'t [u8]>, cell: &'t [u8]) -> Result<(), NoMemory>
    ensures { OnOk result (map (λ name. name.now) made.new.items ≡ map (λ name. name.now) made.old.items ++ filled cell.now) }
{
    if is_filled(cell) {
        made.push(cell)?;
    }
    Ok(())
}

// The cells of periods that aren't empty.
fn period_cells<'t>(
    alloc: Global,
    column: Option<usize>,
    records: &'t Records,
) -> Result<Vec<&'t [u8]>, NoMemory>
    ensures { IfOk result (λ made. map (λ name. name.now) made.items ≡ period_cells column records.now) }
{
    let mut made = Vec::new(alloc);
    for place in 0..row_count(records) {
        push_filled(&mut made, cell_at(records, place + 1, column))?;
    }
    Ok(made)
}

/// The periods that the table of places names, in the order in which they come first.
///
/// # Errors
///
/// `NoMemory` if an allocation is refused.
pub fn periods_in<'t>(alloc: Global, records: &'t Records) -> Result<Names<'t>, NoMemory>
    ensures { IfOk result (λ made. made ≡ periods_in records.now) }
{
    let column = place_under(records, PeriodHead::Period);
    let cells = period_cells(alloc, column, records)?;
    let all = Names::of(alloc, cells)?;
    all.distinct(alloc)
}

// The number of a name, or 0.
fn number_or_none(names: &Names<'_>, name: &[u8]) -> usize
    ensures { result ≡ place_or_none (number_of name.now names.now) }
{
    names.number_of(name).unwrap_or(0)
}

// The number of a period; 0 for each period.
pub(crate) fn period_number(periods: &Names<'_>, cell: &[u8]) -> usize
    ensures { result ≡ period_number periods.now cell.now }
{
    if is_filled(cell) {
        number_or_none(periods, cell)
    } else {
        0
    }
}

// The place and the period of a row.
fn spot_of(names: &Names<'_>, periods: &Names<'_>, name: &[u8], period: &[u8]) -> Spot
    ensures { result ≡ spot_of names.now periods.now name.now period.now }
{
    Spot {
        place: number_or_none(names, name),
        period: period_number(periods, period),
    }
}

// The place and the period of each row.
pub(crate) fn spots(
    alloc: Global,
    columns: TimeColumns,
    names: &Names<'_>,
    periods: &Names<'_>,
    records: &Records,
) -> Result<Vec<Spot>, NoMemory>
    ensures { IfOk result (λ made. made.items ≡ spots columns names.now periods.now records.now) }
{
    let mut made = Vec::new(alloc);
    for place in 0..row_count(records) {
        let name = cell_at(records, place + 1, columns.name);
        let period = cell_at(records, place + 1, columns.period);
        made.push(spot_of(names, periods, name, period))?;
    }
    Ok(made)
}

// Why a cell isn't a name, unless it is empty.
pub(crate) fn period_kind(cell: &[u8]) -> Option<PeriodKind>
    ensures { result ≡ period_kind cell.now }
{
    if !is_filled(cell) {
        return None;
    }
    match name_fault(cell) {
        Some(fault) => Some(PeriodKind::Name(fault)),
        None => None,
    }
}

// Appends the faults of a row's period.
fn push_period_faults(
    faults: &mut Vec<PeriodFault>,
    row: usize,
    name: &[u8],
    period: &[u8],
    taken: bool,
) -> Result<(), NoMemory>
    ensures { OnOk result (faults.new.items ≡ faults.old.items ++ period_faults row name.now period.now taken) }
{
    let twice = if_kind(is_filled(name) && taken, PeriodKind::Twice);
    push_told(
        faults,
        Table::Places,
        row,
        PeriodHead::Period,
        period_kind(period),
    )?;
    push_told(faults, Table::Places, row, PeriodHead::Period, twice)
}

// Appends the faults of what a place may keep.
fn push_keep_faults(
    faults: &mut Vec<PeriodFault>,
    mark: Option<Mark>,
    row: usize,
    most: &[u8],
    cost: &[u8],
) -> Result<(), NoMemory>
    ensures { OnOk result (faults.new.items ≡ faults.old.items ++ keep_faults mark row most.now cost.now) }
{
    let most_kind = limit_kind(read_limit(mark, most));
    let cost_kind = number_kind(read_amount(mark, cost));
    push_told(faults, Table::Places, row, PeriodHead::KeepMost, most_kind)?;
    push_told(faults, Table::Places, row, PeriodHead::KeepCost, cost_kind)
}

// Appends the faults of the stock before the first period.
fn push_first_faults(
    faults: &mut Vec<PeriodFault>,
    mark: Option<Mark>,
    row: usize,
    period: usize,
    cell: &[u8],
) -> Result<(), NoMemory>
    ensures { OnOk result (faults.new.items ≡ faults.old.items ++ first_faults mark row period cell.now) }
{
    let kind = stock_kind(read_amount(mark, cell));
    let late = if_kind(is_filled(cell) && 1 < period, PeriodKind::NotFirst);
    push_told(faults, Table::Places, row, PeriodHead::FirstStock, kind)?;
    push_told(faults, Table::Places, row, PeriodHead::FirstStock, late)
}

// Appends the faults of the stock after the last period.
fn push_last_faults(
    faults: &mut Vec<PeriodFault>,
    format: PlaceFormat,
    row: usize,
    period: usize,
    cell: &[u8],
) -> Result<(), NoMemory>
    ensures { OnOk result (faults.new.items ≡ faults.old.items ++ last_faults format.mark format.count row period cell.now) }
{
    let kind = stock_kind(read_amount(format.mark, cell));
    let is_early = 0 < period && period < format.count;
    let early = if_kind(is_filled(cell) && is_early, PeriodKind::NotLast);
    push_told(faults, Table::Places, row, PeriodHead::LastStock, kind)?;
    push_told(faults, Table::Places, row, PeriodHead::LastStock, early)
}

// What a place may keep.
fn keep_of(mark: Option<Mark>, most: &[u8], cost: &[u8]) -> Option<KeepEntry>
    ensures { result ≡ keep_of mark most.now cost.now }
{
    if is_filled(most) || is_filled(cost) {
        Some(KeepEntry {
            most: limit(read_limit(mark, most)),
            cost: amount(read_amount(mark, cost)),
        })
    } else {
        None
    }
}

// Appends the faults of a row.
fn push_faults(
    faults: &mut Vec<PeriodFault>,
    format: PlaceFormat,
    all: &[Spot],
    taken: bool,
    records: &Records,
    row: usize,
) -> Result<(), NoMemory>
    requires taken { taken ≡ is_taken all.now row }
    requires within { row < length records.now }
    ensures { OnOk result (faults.new.items ≡ faults.old.items ++ place_faults format all.now row (cells_of records.now row)) }
{
    let columns = format.columns;
    let name = cell_at(records, row, columns.name);
    let period = cell_at(records, row, columns.period);
    let number = spot_at(all, row).period;
    push_period_faults(faults, row, name, period, taken)?;
    let most = cell_at(records, row, columns.keep_most);
    let cost = cell_at(records, row, columns.keep_cost);
    push_keep_faults(faults, format.mark, row, most, cost)?;
    let first = cell_at(records, row, columns.first_stock);
    push_first_faults(faults, format.mark, row, number, first)?;
    let last = cell_at(records, row, columns.last_stock);
    push_last_faults(faults, format, row, number, last)
}

// What a row says.
fn place_time(format: PlaceFormat, all: &[Spot], records: &Records, row: usize) -> PlaceTime
    requires { row < length records.now }
    ensures { result ≡ place_time format all.now row (cells_of records.now row) }
{
    let columns = format.columns;
    let most = cell_at(records, row, columns.keep_most);
    let cost = cell_at(records, row, columns.keep_cost);
    let first = cell_at(records, row, columns.first_stock);
    let last = cell_at(records, row, columns.last_stock);
    let spot = spot_at(all, row);
    PlaceTime {
        place: spot.place,
        period: spot.period,
        keep: keep_of(format.mark, most, cost),
        first: amount(read_amount(format.mark, first)),
        last: amount(read_amount(format.mark, last)),
    }
}

// Reads all rows, and appends their faults.
pub(crate) fn read_places(
    alloc: Global,
    format: PlaceFormat,
    all: &[Spot],
    records: &Records,
    faults: &mut Vec<PeriodFault>,
) -> Result<Vec<PlaceTime>, NoMemory>
    ensures times { IfOk result (λ made. made.items ≡ place_times format all.now records.now) }
    ensures faults { OnOk result (faults.new.items ≡ faults.old.items ++ all_place_faults format all.now records.now) }
{
    let taken = taken_rows(alloc, all, row_count(records))?;
    let mut made = Vec::new(alloc);
    for place in 0..row_count(records) {
        push_faults(faults, format, all, taken[place], records, place + 1)?;
        made.push(place_time(format, all, records, place + 1))?;
    }
    Ok(made)
}
