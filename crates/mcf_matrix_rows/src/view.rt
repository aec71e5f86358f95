//! Views of cost matrices, for searches.

use mcf_columns::{at, tail};

/// A cost matrix: row i begins at place i * stride of `costs`. If `zeros` isn't empty, it is one
/// more row, after the last. A forbidden pair is read as a cost.
#[derive(Clone, Copy)]
pub struct View<'a> {
    pub costs: &'a [i64],
    pub rows: u32,
    pub columns: u32,
    pub stride: usize,
    pub zeros: &'a [i64],
}

impl<'a> View<'a> {
    /// Returns the entries of a row and all that follow it in the list.
    #[inline(always)]
    pub fn row(&self, row: u32) -> &'a [i64] {
        if row >= self.rows {
            return self.zeros;
        }
        tail(self.costs, (row as usize).wrapping_mul(self.stride))
    }

    /// Returns the cost of a pair, or 0 if there is no such pair.
    #[inline(always)]
    pub fn cost(&self, row: u32, column: u32) -> i64 {
        at(self.row(row), column, 0)
    }

    /// Returns the number of rows, with the row of zeros.
    pub fn senders(&self) -> u32 {
        self.rows.wrapping_add(u32::from(!self.zeros.is_empty()))
    }

    /// Returns whether there are as many columns as rows.
    pub fn is_square(&self) -> bool {
        self.rows == self.columns
    }
}
