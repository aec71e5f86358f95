//! The rows that the places and routes of a problem over periods come from. Rows count from 1,
//! below the heads. Named periods count from 1; 0 is the period before them, which has first stock,
//! and one more than the last is the period after them, which has last stock.

/// Where a place in a period comes from.
#[derive(Clone, Copy, Debug, PartialEq, Eq)]
pub struct PlaceOrigin {
    /// The row of places that names the place first.
    pub first: u32,
    /// The row of places that holds for it in this period, or 0 if none does. In the period before
    /// the named ones it is the row of the first of them, and in the one after them, of the last.
    pub row: u32,
    /// The period.
    pub period: u32,
}

/// Where a store comes from: what a place keeps from a period to the next.
#[derive(Clone, Copy, Debug, PartialEq, Eq)]
pub struct StoreOrigin {
    /// The row of places that holds in the period, or names the place first if none does.
    pub row: u32,
    /// The period after which it is kept.
    pub period: u32,
}

/// Where a departure comes from.
#[derive(Clone, Copy, Debug, PartialEq, Eq)]
pub struct DepartureOrigin {
    /// The row of routes.
    pub row: u32,
    /// Whether it goes back: from the place in the column `to` to the one in `from`.
    pub back: bool,
    /// The period of departure.
    pub period: u32,
    /// The period of arrival.
    pub arrival: u32,
}

/// Where the places, the stores and the departures of a problem over periods come from, in the
/// order in which `mcf_periods` lists them. The routes of the problem without periods are those of
/// the stores, and then those of the departures.
#[derive(Drop)]
pub struct PeriodOrigins {
    /// Where each place in each period comes from: first the places in the first period.
    pub places: Vec<PlaceOrigin>,
    /// Where each store comes from.
    pub stores: Vec<StoreOrigin>,
    /// Where each departure comes from.
    pub departures: Vec<DepartureOrigin>,
}
