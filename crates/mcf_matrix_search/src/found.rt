//! The results of searches, which a judge has to check.

use mcf_flows::Side;
use mcf_matrix::Shipment;

/// An assignment that may be least, or a cover that may show that there is no assignment.
#[derive(Drop)]
pub enum Found {
    Assignment(Assignment),
    Cover(Cover),
}

/// An assignment: each row's column, or a number that is no column's for a free row, with prices of
/// rows and columns that may show it to be least.
#[derive(Drop)]
pub struct Assignment {
    pub column_of: Vec<u32>,
    pub row_prices: Vec<i64>,
    pub column_prices: Vec<i64>,
}

/// Marks of rows and columns, fewer than the matrix has rows or columns, such that each allowed
/// pair may have a marked row or a marked column.
#[derive(Drop)]
pub struct Cover {
    pub rows: Vec<bool>,
    pub columns: Vec<bool>,
}

/// A transport plan that may be least, or a cut that may show that no plan exists.
#[derive(Drop)]
pub enum FoundPlan {
    Plan(Plan),
    Cut(Cut),
}

/// A transport plan that may be least, with prices that may show it.
#[derive(Drop)]
pub struct Plan {
    pub shipments: Vec<Shipment>,
    pub row_prices: Vec<i64>,
    pub column_prices: Vec<i64>,
}

/// Rows and columns that may have more to send than they can, or more to take.
#[derive(Drop)]
pub struct Cut {
    pub rows: Vec<bool>,
    pub columns: Vec<bool>,
    pub side: Side,
}
