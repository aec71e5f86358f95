//! Places, with bounds on what passes through them.

/// Bounds on what passes through a place.
#[derive(Clone, Copy, Debug)]
pub struct Bounds {
    /// At least this number of units has to pass through.
    pub least: i64,
    /// At most this number of units may pass through, or `None` for no limit.
    pub most: Option<i64>,
    /// The cost of each unit that passes through.
    pub cost: i64,
}

/// A place.
#[derive(Clone, Copy, Debug)]
pub struct Place {
    /// What the place gives if this is above 0, or wants if it is below 0.
    pub supply: i64,
    /// The bounds on what arrives, with what the place gives; `None` for no bounds.
    pub through: Option<Bounds>,
    /// The cost of each unit that is missing here, or `None` if it is that of all places.
    pub penalty: Option<i64>,
}

/// Whether plans may leave supplies where they are, and demands unmet.
#[derive(Clone, Copy, Debug)]
pub struct Policy {
    /// Whether supplies may stay, at no cost.
    pub unused: bool,
    /// Whether demands may be missing.
    pub short: bool,
    /// The cost of each unit that is missing at a place that has no penalty of its own. If there is
    /// none, and no place has one, as little as possible may be missing.
    pub penalty: Option<i64>,
}
