//! What both tables say about periods.
ghost use Rattle.std.specs.Prelude.{◌≡◌, IfOk};
ghost use Rattle.mcf_period_reading.specs.PeriodReading.{IsReadOf, empty_kind, place_format, spots_in};
ghost use Rattle.mcf_period_reading.specs.PlaceTimes.{periods_in};

use crate::cells::cells_under;
use crate::heads::PeriodHead;
use crate::kinds::{PeriodFault, PeriodKind, if_kind, push_told};
use crate::place_times::{PlaceFormat, PlaceTime, periods_in, read_places, spots, time_columns};
use crate::route_times::{RouteTime, read_routes, route_format};
use crate::spots::Spot;
use mcf_decimal::Mark;
use mcf_names::Names;
use mcf_reading::{Table, has_periods};
use mcf_table::Records;
use mcf_text::NoMemory;
use std::alloc::Global;

/// What two tables say about periods.
#[derive(Drop)]
pub struct PeriodTables<'t> {
    /// The periods, in the order in which the table of places names them first; none if it has no
    /// column of periods.
    pub periods: Names<'t>,
    /// What each row of places says.
    pub places: Vec<PlaceTime>,
    /// What each row of routes says.
    pub routes: Vec<RouteTime>,
}

// How the rows of places are read, if these are the periods.
fn place_format(mark: Option<Mark>, places: &Records, periods: &Names<'_>) -> PlaceFormat
    requires { periods.now ≡ periods_in places.now }
    ensures { result ≡ place_format mark places.now }
{
    PlaceFormat {
        mark,
        columns: time_columns(places),
        count: periods.len(),
    }
}

// The place and the period of each row of places, if these are the periods.
fn spots_in(alloc: Global, places: &Records, periods: &Names<'_>) -> Result<Vec<Spot>, NoMemory>
    requires { periods.now ≡ periods_in places.now }
    ensures { IfOk result (λ made. made.items ≡ spots_in places.now) }
{
    let columns = time_columns(places);
    let names = Names::of(alloc, cells_under(alloc, places, columns.name)?)?;
    spots(alloc, columns, &names, periods, places)
}

// Whether there is a column of periods that names none, if these are the periods.
fn empty_kind(places: &Records, periods: &Names<'_>) -> Option<PeriodKind>
    requires { periods.now ≡ periods_in places.now }
    ensures { result ≡ empty_kind places.now }
{
    let none = periods.len() == 0;
    if_kind(has_periods(places) && none, PeriodKind::NoneNamed)
}

/// Reads what the rows of the table of places and of the table of routes say about periods, in the
/// columns `period`, `keep most`, `keep cost`, `first stock` and `last stock` of places, and
/// `period` and `lead` of routes. The first row of each table has its heads; `faults_of_heads` has
/// their faults. A row without a period holds in each period. A place keeps nothing if both cells
/// of what it may keep are empty.
///
/// # Errors
///
/// All faults of rows, first of places and then of routes. `NoMemory` if an allocation is refused.
pub fn read_periods<'t>(
    alloc: Global,
    places: &'t Records,
    routes: &Records,
    mark: Option<Mark>,
) -> Result<Result<PeriodTables<'t>, Vec<PeriodFault>>, NoMemory>
    ensures { IfOk result (IsReadOf mark places.now routes.now) }
{
    let periods = periods_in(alloc, places)?;
    let all = spots_in(alloc, places, &periods)?;
    let format = place_format(mark, places, &periods);
    let mut faults = Vec::new(alloc);
    let none = empty_kind(places, &periods);
    push_told(&mut faults, Table::Places, 0, PeriodHead::Period, none)?;
    let times = read_places(alloc, format, &all, places, &mut faults)?;
    let leads = read_routes(
        alloc,
        route_format(mark, routes),
        &periods,
        routes,
        &mut faults,
    )?;
    if !faults.is_empty() {
        return Ok(Err(faults));
    }
    Ok(Ok(PeriodTables {
        periods,
        places: times,
        routes: leads,
    }))
}
