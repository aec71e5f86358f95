//! The results of a search for a transport plan, which a judge has to check.

use mcf_matrix::Shipment;
use mcf_matrix_search::Cut;

/// A transport plan that may be least, or a cut that may show that there is no plan.
#[derive(Drop)]
pub enum DoubleFoundPlan {
    Plan(DoublePlan),
    Cut(Cut),
}

/// A transport plan that may be least, with prices of rows and columns that may show it, in units
/// of 2^unit * 2^-1074. If `is_rounded`, they may show it for the entries rounded down to such
/// units.
#[derive(Drop)]
pub struct DoublePlan {
    pub shipments: Vec<Shipment>,
    pub row_prices: Vec<i128>,
    pub column_prices: Vec<i128>,
    pub unit: u32,
    pub is_rounded: bool,
}
