//! What rows of routes say about periods.
ghost use Rattle.std.specs.Prelude.{◌≡◌, ◌<◌, ◌++◌, IfOk, OnOk, length};
ghost use Rattle.mcf_table.specs.Heads.{cells_of};
ghost use Rattle.mcf_period_reading.specs.RouteTimes.{all_route_faults, is_lead, is_unknown, lead_kind, route_faults, route_format, route_time, route_times};

use crate::cells::{amount, cell_at, is_filled, read_amount, row_count};
use crate::heads::{PeriodHead, place_under};
use crate::kinds::{PeriodFault, PeriodKind, if_kind, push_told};
use crate::place_times::{period_kind, period_number};
use mcf_decimal::{Decimal, Mark, NumberFault};
use mcf_names::Names;
use mcf_reading::Table;
use mcf_table::Records;
use mcf_text::NoMemory;
use std::alloc::Global;

/// What a row of routes says about periods.
#[derive(Clone, Copy, Debug, PartialEq, Eq)]
pub struct RouteTime {
    /// The number of the period in which the row holds, from 1, or 0 for each period.
    pub period: usize,
    /// After so many periods what is sent arrives: a whole number, from 0 on.
    pub lead: Decimal,
}

// How rows are read: the mark, and the places of the columns, from 0; `None` for a column that the
// table lacks.
#[derive(Clone, Copy)]
pub(crate) struct RouteFormat {
    pub(crate) mark: Option<Mark>,
    pub(crate) period: Option<usize>,
    pub(crate) lead: Option<usize>,
}

// How the rows of a table are read.
pub(crate) fn route_format(mark: Option<Mark>, records: &Records) -> RouteFormat
    ensures { result ≡ route_format mark records.now }
{
    RouteFormat {
        mark,
        period: place_under(records, PeriodHead::Period),
        lead: place_under(records, PeriodHead::Lead),
    }
}

// Whether no row of places holds in the period.
fn is_unknown(periods: &Names<'_>, cell: &[u8]) -> bool
    ensures { result ≡ is_unknown periods.now cell.now }
{
    let found = periods.number_of(cell);
    is_filled(cell) && found.is_none()
}

// Whether the number is a whole one from 0 on, of 32 bits.
fn is_lead(number: Decimal) -> bool
    ensures { result ≡ is_lead number }
{
    let is_below = number.mantissa < 0;
    let fits = number.mantissa < 4_294_967_296;
    number.places == 0 && (!is_below && fits)
}

// Why a cell isn't a lead.
fn lead_kind(read: Result<Decimal, NumberFault>) -> Option<PeriodKind>
    ensures { result ≡ lead_kind read }
{
    match read {
        Ok(number) => if_kind(!is_lead(number), PeriodKind::NoLead),
        Err(fault) => Some(PeriodKind::Number(fault)),
    }
}

// Appends the faults of a row.
fn push_faults(
    faults: &mut Vec<PeriodFault>,
    format: RouteFormat,
    periods: &Names<'_>,
    records: &Records,
    row: usize,
) -> Result<(), NoMemory>
    requires { row < length records.now }
    ensures { OnOk result (faults.new.items ≡ faults.old.items ++ route_faults format periods.now row (cells_of records.now row)) }
{
    let period = cell_at(records, row, format.period);
    let lead = cell_at(records, row, format.lead);
    let unknown = if_kind(is_unknown(periods, period), PeriodKind::NoPeriod);
    let late = lead_kind(read_amount(format.mark, lead));
    push_told(
        faults,
        Table::Routes,
        row,
        PeriodHead::Period,
        period_kind(period),
    )?;
    push_told(faults, Table::Routes, row, PeriodHead::Period, unknown)?;
    push_told(faults, Table::Routes, row, PeriodHead::Lead, late)
}

// What a row says.
fn route_time(format: RouteFormat, periods: &Names<'_>, records: &Records, row: usize) -> RouteTime
    requires { row < length records.now }
    ensures { result ≡ route_time format periods.now (cells_of records.now row) }
{
    let period = cell_at(records, row, format.period);
    let lead = cell_at(records, row, format.lead);
    RouteTime {
        period: period_number(periods, period),
        lead: amount(read_amount(format.mark, lead)),
    }
}

// Reads all rows, and appends their faults.
pub(crate) fn read_routes(
    alloc: Global,
    format: RouteFormat,
    periods: &Names<'_>,
    records: &Records,
    faults: &mut Vec<PeriodFault>,
) -> Result<Vec<RouteTime>, NoMemory>
    ensures times { IfOk result (λ made. made.items ≡ route_times format periods.now records.now) }
    ensures faults { OnOk result (faults.new.items ≡ faults.old.items ++ all_route_faults format periods.now records.now) }
{
    let mut made = Vec::new(alloc);
    for place in 0..row_count(records) {
        push_faults(faults, format, periods, records, place + 1)?;
        made.push(route_time(format, periods, records, place + 1))?;
    }
    Ok(made)
}
