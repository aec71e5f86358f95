//! The results of a search, which a judge has to check.

use mcf_matrix_search::Cover;

/// An assignment that may be least, or a cover that may show that there is no assignment.
#[derive(Drop)]
pub enum DoubleFound {
    Assignment(DoubleAssignment),
    Cover(Cover),
}

/// An assignment that may be least: the column of each row, or a number that is no column's for a
/// row without one, with prices of rows and columns that may show it, in units of 2^unit * 2^-1074.
/// If `is_rounded`, they may show it for the entries rounded down to such units.
#[derive(Drop)]
pub struct DoubleAssignment {
    pub column_of: Vec<u32>,
    pub row_prices: Vec<i128>,
    pub column_prices: Vec<i128>,
    pub unit: u32,
    pub is_rounded: bool,
}
