//! The parts of a problem over periods, as rows.
use mcf_model::{RouteRow, Step};
use mcf_places::Place;

/// What a place may keep from a period to the next. Places and periods count from 1.
#[derive(Clone, Copy, Debug)]
pub struct Store {
    /// The place.
    pub place: u32,
    /// The period after which it keeps.
    pub period: u32,
    /// At most this number of units may be kept, or `None` for no limit.
    pub most: Option<i64>,
    /// The cost of each unit that is kept.
    pub cost: i64,
}

/// A route in a period of departure, used one way.
#[derive(Clone, Copy, Debug)]
pub struct DepartureRow {
    /// The route. Its ends are numbers of places, from 1; it is used one way, whatever it says.
    pub row: RouteRow,
    /// The period of departure, from 1.
    pub period: u32,
    /// After so many periods what is sent arrives.
    pub lead: u32,
}

/// A problem over periods, without its policy.
#[derive(Drop)]
pub struct PeriodRows {
    /// The number of places.
    pub count: u32,
    /// The last period.
    pub last: u32,
    /// The places as they are in the first period, then as they are in the second, and so on.
    pub places: Vec<Place>,
    /// The table of steps of all routes.
    pub steps: Vec<Step>,
    /// What places may keep.
    pub stores: Vec<Store>,
    /// The departures.
    pub departures: Vec<DepartureRow>,
}
