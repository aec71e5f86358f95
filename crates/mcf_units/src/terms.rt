//! What plans may leave.
use mcf_decimal::Decimal;

/// Whether plans may leave supplies where they are, and demands unmet.
#[derive(Clone, Copy, Debug)]
pub struct Terms {
    /// Whether supplies may stay, at no cost.
    pub unused: bool,
    /// Whether demands may be missing.
    pub short: bool,
    /// The cost of each missing unit of the tables, or `None` if as little as possible may be
    /// missing.
    pub penalty: Option<Decimal>,
}
