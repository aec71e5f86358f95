//! Matrices of whole-number costs, over a list that belongs to the caller.
ghost use Rattle.std.specs.Prelude.{◌≡◌, ◌+◌, ◌*◌, ◌<◌, ◌≤◌, ◌↔◌, ℕ, pos, IfErr, IfOk, IsTrue, MatchOption, length, slice_index_or, slice_range};
ghost use Rattle.mcf_matrix.specs.Costs.{AreSmallCosts};
ghost use Rattle.mcf_matrix.specs.Tables.{IsFaultOf, IsFirstBeyond, IsMatrix, IsShaped, IsSmallEntry, whole_costs};

use mcf_flows::COST_LIMIT;
use std::marker::Model;

/// The entry of a forbidden pair. It is above every cost.
pub const FORBIDDEN: i64 = i64::MAX;

/// A fault of a matrix.
#[derive(Clone, Copy, Debug, PartialEq, Eq)]
pub enum MatrixFault {
    /// Rows overlap, or the last one ends beyond the list.
    Shape,
    /// The row and column of the first cost, row after row, whose absolute value exceeds 10^15.
    Beyond { row: usize, column: usize },
}

/// A matrix of whole-number costs, borrowed from the caller. The cost of row i and column j is at
/// place i * stride + j of the list; rows and columns count from 0. The entry `FORBIDDEN` forbids a
/// pair; all other entries lie from -10^15 to 10^15.
///
/// Clauses see the list, the numbers of rows and columns, and the stride.
#[derive(Drop)]
pub struct Matrix<'a> {
    costs: &'a [i64],
    rows: usize,
    columns: usize,
    stride: usize,
}

impl<'a> Model for Matrix<'a> {
    ghost use Rattle.mcf_matrix.specs.Tables.{IsMatrix, Table};

    ghost Value = { Table };

    ghost view = { λ m. record { entries = m.costs.now; rows = m.rows; columns = m.columns; stride = m.stride } };

    ghost invariant = { λ m. IsMatrix (record { entries = m.costs.now; rows = m.rows; columns = m.columns; stride = m.stride }) };
}

impl<'a> Matrix<'a> {
    /// Makes a matrix of a list of costs. It reads each entry once.
    ///
    /// # Errors
    /// The first fault: the shape, or the first cost beyond the limit.
    pub fn of(
        costs: &'a [i64],
        rows: usize,
        columns: usize,
        stride: usize,
    ) -> Result<Matrix<'a>, MatrixFault>
        ensures value { IfOk result (λ m. m ≡ record { entries = costs.now; rows = rows; columns = columns; stride = stride }) }
        ensures matrix { IfOk result (λ m. IsMatrix m) }
        ensures fault { IfErr result (IsFaultOf (record { entries = costs.now; rows = rows; columns = columns; stride = stride })) }
    {
        if !is_shaped(costs.len(), rows, columns, stride) {
            return Err(MatrixFault::Shape);
        }
        match first_beyond(costs, rows, columns, stride) {
            Some((row, column)) => Err(MatrixFault::Beyond { row, column }),
            None => Ok(Matrix {
                costs,
                rows,
                columns,
                stride,
            }),
        }
    }

    /// Returns the number of rows.
    #[inline(always)]
    pub fn rows(&self) -> usize
        ensures value { result ≡ self.now.rows }
        ensures matrix { IsMatrix self.now }
    {
        self.rows
    }

    /// Returns the number of columns.
    #[inline(always)]
    pub fn columns(&self) -> usize
        ensures value { result ≡ self.now.columns }
        ensures matrix { IsMatrix self.now }
    {
        self.columns
    }

    /// Returns the stride: the distance in the list from the first entry of a row to that of the
    /// next.
    #[inline(always)]
    pub fn stride(&self) -> usize
        ensures { result ≡ self.now.stride }
    {
        self.stride
    }

    /// Returns the list that holds the entries.
    #[inline(always)]
    pub fn entries(&self) -> &'a [i64]
        ensures { result.now ≡ self.now.entries }
    {
        self.costs
    }

    /// Returns the entries of a row, one for each column.
    #[inline(always)]
    pub fn row(&self, row: usize) -> &'a [i64]
        requires { row < self.now.rows }
        ensures value { result.now ≡ slice_range self.now.entries (row * self.now.stride) (row * self.now.stride + self.now.columns) }
        ensures matrix { IsMatrix self.now }
    {
        let start = row * self.stride;
        &self.costs[start..start + self.columns]
    }

    /// Returns the cost of a pair, or `None` if it is forbidden.
    #[inline(always)]
    pub fn cost(&self, row: usize, column: usize) -> Option<i64>
        requires row { row < self.now.rows }
        requires column { column < self.now.columns }
        ensures value { result ≡ (whole_costs self.now).cost row column }
        ensures matrix { IsMatrix self.now }
    {
        let cost = self.costs[row * self.stride + column];
        if cost < FORBIDDEN { Some(cost) } else { None }
    }
}

/// Returns whether the rows of a matrix with these numbers of rows and columns and this stride
/// don't overlap, and all end within a list of `entries` entries.
pub fn is_shaped(entries: usize, rows: usize, columns: usize, stride: usize) -> bool
    ensures { IsTrue result ↔ ((columns ≤ stride) × ((i : ℕ) → i < rows → i * stride + columns ≤ entries)) }
{
    if stride < columns {
        return false;
    }
    if rows == 0 {
        return true;
    }
    match (rows - 1).checked_mul(stride) {
        Some(last) => columns <= entries && last <= entries - columns,
        None => false,
    }
}

// Returns whether an entry is a cost within the limit, or forbids its pair.
#[inline(always)]
fn is_small(cost: i64) -> bool
    ensures { IsTrue result ↔ IsSmallEntry cost }
{
    let limit = COST_LIMIT as i64;
    cost == FORBIDDEN || (-limit <= cost && cost <= limit)
}

// Returns whether all entries of a row are costs within the limit, or forbid their pairs.
fn are_small(row: &[i64]) -> bool
    ensures { IsTrue result ↔ ((j : ℕ) → j < length row.now → IsSmallEntry (slice_index_or row.now j (pos 0))) }
{
    let mut small = true;
    for cost in row {
        small &= is_small(*cost);
    }
    small
}

// Returns the column of a row's first cost beyond the limit.
fn first_beyond_in(row: &[i64]) -> Option<usize>
    ensures { MatchOption result ((j : ℕ) → j < length row.now → IsSmallEntry (slice_index_or row.now j (pos 0)))
        (λ k. (k < length row.now) × (¬ IsSmallEntry (slice_index_or row.now k (pos 0))) × ((j : ℕ) → j < k → IsSmallEntry (slice_index_or row.now j (pos 0)))) }
{
    if are_small(row) {
        return None;
    }
    for (column, cost) in row.iter().enumerate() {
        if !is_small(*cost) {
            return Some(column);
        }
    }
    None
}

// Returns the row and column of the first cost beyond the limit, row after row.
fn first_beyond(costs: &[i64], rows: usize, columns: usize, stride: usize) -> Option<(usize, usize)>
    requires { IsShaped (record { entries = costs.now; rows = rows; columns = columns; stride = stride }) }
    ensures { MatchOption result (AreSmallCosts (whole_costs (record { entries = costs.now; rows = rows; columns = columns; stride = stride })))
        (λ p. IsFirstBeyond (whole_costs (record { entries = costs.now; rows = rows; columns = columns; stride = stride })) p.0 p.1) }
{
    // Without columns there may be more rows than anyone can count.
    if columns == 0 {
        return None;
    }
    for row in 0..rows {
        let start = row * stride;
        if let Some(column) = first_beyond_in(&costs[start..start + columns]) {
            return Some((row, column));
        }
    }
    None
}
