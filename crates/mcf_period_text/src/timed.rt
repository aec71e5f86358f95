//! Tables over periods, and where the places, the stores and the departures of their problem come
//! from.
ghost use Rattle.std.specs.Prelude.{◌≡◌};
ghost use Rattle.mcf_period_text.specs.TimedTables.{arrives_at, departure_origin, leaves_from, period_name, place_name, place_origin, store_origin, timed_in, told_row};

use mcf_answer_rows::cell_under;
use mcf_names::Names;
use mcf_period_units::{DepartureOrigin, PeriodOrigins, PlaceOrigin, StoreOrigin};
use mcf_plan_rows::Two;

/// Two tables, the names of their periods, and the rows that the places, the stores and the
/// departures of their problem come from.
#[derive(Clone, Copy)]
pub struct Timed<'p, 't> {
    /// The tables.
    pub two: Two<'t>,
    /// The names of the periods, in order.
    pub periods: &'p Names<'t>,
    /// Where the places, the stores and the departures come from.
    pub origins: &'t PeriodOrigins,
}

/// Returns the name of a period, by its number from 1; of period 0, before them, it is
/// `first stock`, and of one after them `last stock`.
pub fn period_name<'t>(timed: Timed<'_, 't>, number: usize) -> &'t [u8]
    ensures { result.now ≡ period_name (timed_in timed.entry).periods number }
{
    if number == 0 {
        b"first stock"
    } else if number <= timed.periods.len() {
        timed.periods.name(number)
    } else {
        b"last stock"
    }
}

/// Returns where a place in a period comes from, by its index from 0 in the list of places.
pub fn place_origin(timed: Timed<'_, '_>, place: usize) -> PlaceOrigin
    ensures { result ≡ place_origin (timed_in timed.entry) place }
{
    match timed.origins.places.get(place) {
        Some(origin) => *origin,
        None => PlaceOrigin {
            first: 0,
            row: 0,
            period: 0,
        },
    }
}

/// Returns where a store comes from, by its index from 0 in the list of stores.
pub fn store_origin(timed: Timed<'_, '_>, place: usize) -> StoreOrigin
    ensures { result ≡ store_origin (timed_in timed.entry) place }
{
    match timed.origins.stores.get(place) {
        Some(origin) => *origin,
        None => StoreOrigin { row: 0, period: 0 },
    }
}

/// Returns where a departure comes from, by its index from 0 in the list of departures.
pub fn departure_origin(timed: Timed<'_, '_>, place: usize) -> DepartureOrigin
    ensures { result ≡ departure_origin (timed_in timed.entry) place }
{
    match timed.origins.departures.get(place) {
        Some(origin) => *origin,
        None => DepartureOrigin {
            row: 0,
            back: false,
            period: 0,
            arrival: 0,
        },
    }
}

/// Returns the row of a place in a period: the one that holds then, or else the one that names the
/// place first.
pub fn told_row(origin: PlaceOrigin) -> usize
    ensures { result ≡ told_row origin }
{
    if origin.row == 0 {
        origin.first as usize
    } else {
        origin.row as usize
    }
}

/// Returns the name of the place of a row of places.
pub fn place_name<'t>(timed: Timed<'_, 't>, row: usize) -> &'t [u8]
    ensures { result.now ≡ place_name (timed_in timed.entry) row }
{
    cell_under(timed.two.places, b"name", row)
}

/// Returns the name of the place where a departure leaves.
pub fn leaves_from<'t>(timed: Timed<'_, 't>, departure: DepartureOrigin) -> &'t [u8]
    ensures { result.now ≡ leaves_from (timed_in timed.entry) departure }
{
    let row = departure.row as usize;
    if departure.back {
        cell_under(timed.two.routes, b"to", row)
    } else {
        cell_under(timed.two.routes, b"from", row)
    }
}

/// Returns the name of the place where a departure arrives.
pub fn arrives_at<'t>(timed: Timed<'_, 't>, departure: DepartureOrigin) -> &'t [u8]
    ensures { result.now ≡ arrives_at (timed_in timed.entry) departure }
{
    let route = departure.row as usize;
    if departure.back {
        cell_under(timed.two.routes, b"from", route)
    } else {
        cell_under(timed.two.routes, b"to", route)
    }
}
