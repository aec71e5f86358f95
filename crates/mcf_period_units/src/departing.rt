//! The departures of rows of routes, and where they come from.
ghost use Rattle.std.specs.Prelude.{◌≡◌, ◌+◌, ◌≤◌, ◌^◌, ◌++◌, ◌∷◌, [], OnOk, IfOk};
ghost use Rattle.std.specs.List.{flat_map, range_with_len};
ghost use Rattle.mcf_period_units.specs.DeparturesOver.{departure_count, end_number, one_way_row, origins_in, route_origins, route_row_at, row_departures, rows_departures, rows_in_period, rows_origins, way_origin, way_row};

use crate::greats::{first_departure, lead_of};
use crate::numbering::number_at;
use crate::origins::DepartureOrigin;
use crate::spans::{Span, one_if};
use crate::unit_rows::route_time_at;
use mcf_model::RouteRow;
use mcf_period_reading::RouteTime;
use mcf_periods::DepartureRow;
use mcf_text::NoMemory;
use mcf_units::place_number;
use std::alloc::Global;

// Departures, and where they come from.
#[derive(Drop)]
pub(crate) struct Departures {
    pub(crate) rows: Vec<DepartureRow>,
    pub(crate) origins: Vec<DepartureOrigin>,
}

// The number of the place that a row names first, in 32 bits.
fn end_number(numbers: &[usize], row: u32) -> u32
    ensures { result ≡ end_number numbers.now row }
{
    place_number(number_at(numbers, row as usize))
}

// The row between places by number, or its way back, one way.
fn one_way_row(numbers: &[usize], back: bool, row: RouteRow) -> RouteRow
    ensures { result ≡ one_way_row numbers.now back row }
{
    let tail = if back { row.head } else { row.tail };
    let head = if back { row.tail } else { row.head };
    RouteRow {
        tail: end_number(numbers, tail),
        head: end_number(numbers, head),
        both: false,
        ..row
    }
}

// In how many periods a row departs, of so many.
fn departure_count(last: usize, time: RouteTime) -> usize
    ensures { result ≡ departure_count last time }
{
    if time.period == 0 {
        last.saturating_sub(lead_of(time.lead) as usize)
    } else {
        1
    }
}

// A row of routes with its number, after how many periods what is sent arrives, and the periods of
// the problem.
#[derive(Clone, Copy)]
struct Line {
    row: RouteRow,
    number: usize,
    lead: u32,
    span: Span,
}

// Appends the departure of a row in a period, or that of its way back, and where it comes from.
fn push_way(
    made: &mut Departures,
    numbers: &[usize],
    line: Line,
    period: usize,
    back: bool,
) -> Result<(), NoMemory>
    ensures rows { OnOk result (made.new.rows.items ≡ made.old.rows.items ++ way_row numbers.now line.span line.row line.lead period back ∷ []) }
    ensures origins { OnOk result (made.new.origins.items ≡ made.old.origins.items ++ way_origin line.number line.lead period back ∷ []) }
{
    let arrival = period.saturating_add(line.lead as usize);
    let shifted = one_if(line.span.before).saturating_add(period);
    made.rows.push(DepartureRow {
        row: one_way_row(numbers, back, line.row),
        period: place_number(shifted),
        lead: line.lead,
    })?;
    made.origins.push(DepartureOrigin {
        row: place_number(line.number),
        back,
        period: place_number(period),
        arrival: place_number(arrival),
    })?;
    Ok(())
}

// Appends the departures of a row in a period, and where they come from.
fn push_period(
    made: &mut Departures,
    numbers: &[usize],
    line: Line,
    period: usize,
) -> Result<(), NoMemory>
    ensures rows { OnOk result (made.new.rows.items ≡ made.old.rows.items ++ rows_in_period numbers.now line.span line.row line.lead period) }
    ensures origins { OnOk result (made.new.origins.items ≡ made.old.origins.items ++ origins_in line.number line.row.both line.lead period) }
{
    push_way(made, numbers, line, period, false)?;
    if line.row.both {
        push_way(made, numbers, line, period, true)?;
    }
    Ok(())
}

// Appends the departures of a row in so many periods from the first, and where they come from.
fn push_periods(
    made: &mut Departures,
    numbers: &[usize],
    line: Line,
    first: usize,
    count: usize,
) -> Result<(), NoMemory>
    requires { (first + count) ≤ 2 ^ 64 }
    ensures rows { OnOk result (made.new.rows.items ≡ made.old.rows.items ++ flat_map (rows_in_period numbers.now line.span line.row line.lead) (range_with_len first count)) }
    ensures origins { OnOk result (made.new.origins.items ≡ made.old.origins.items ++ flat_map (origins_in line.number line.row.both line.lead) (range_with_len first count)) }
{
    for place in 0..count {
        push_period(made, numbers, line, first + place)?;
    }
    Ok(())
}

// Appends the departures of a row in all named periods, and where they come from.
fn push_row(
    made: &mut Departures,
    numbers: &[usize],
    row: RouteRow,
    number: usize,
    span: Span,
    time: RouteTime,
) -> Result<(), NoMemory>
    ensures rows { OnOk result (made.new.rows.items ≡ made.old.rows.items ++ row_departures numbers.now span row time) }
    ensures origins { OnOk result (made.new.origins.items ≡ made.old.origins.items ++ route_origins number row.both span.last time) }
{
    let lead = lead_of(time.lead);
    let line = Line {
        row,
        number,
        lead,
        span,
    };
    let first = first_departure(time);
    let count = departure_count(span.last, time);
    push_periods(made, numbers, line, first, count)
}

// The departures of these rows in all named periods, and where they come from.
pub(crate) fn all_departures(
    alloc: Global,
    numbers: &[usize],
    rows: &[RouteRow],
    times: &[RouteTime],
    span: Span,
) -> Result<Departures, NoMemory>
    ensures rows { IfOk result (λ made. made.rows.items ≡ rows_departures numbers.now span rows.now times.now) }
    ensures origins { IfOk result (λ made. made.origins.items ≡ rows_origins span.last rows.now times.now) }
{
    let mut made = Departures {
        rows: Vec::new(alloc),
        origins: Vec::new(alloc),
    };
    for place in 0..rows.len() {
        let row = route_row_at(rows, place + 1);
        let time = route_time_at(times, place + 1);
        push_row(&mut made, numbers, row, place + 1, span, time)?;
    }
    Ok(made)
}

// The row with this number, from 1; one that carries nothing if there is none.
fn route_row_at(rows: &[RouteRow], row: usize) -> RouteRow
    ensures { result ≡ route_row_at rows.now row }
{
    match rows.get(row.saturating_sub(1)) {
        Some(found) => *found,
        None => RouteRow {
            tail: 0,
            head: 0,
            first_step: 0,
            step_count: 0,
            least: 0,
            last_most: Some(0),
            last_cost: 0,
            both: false,
        },
    }
}
