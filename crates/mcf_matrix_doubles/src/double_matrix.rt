//! Matrices of doubles, which the caller lends as their bits.
ghost use Rattle.std.specs.Prelude.{◌≡◌, ◌+◌, ◌*◌, ◌<◌, ◌≤◌, ◌↔◌, ℕ, IfErr, IfOk, IsTrue, MatchOption, length, slice_index, slice_range};
ghost use Rattle.mcf_matrix_doubles.specs.DoubleTables.{AreEntries, IsDoubleMatrix, IsFaultOf, IsFirstRefused, IsShaped, bits_at};
ghost use Rattle.mcf_matrix_doubles.specs.Doubles.{IsEntry};

use crate::double::is_entry;
use mcf_matrix::is_shaped;
use std::marker::Model;

/// What is wrong with a matrix.
#[derive(Clone, Copy, Debug, PartialEq, Eq)]
pub enum DoubleFault {
    /// Rows overlap, or the last one doesn't end within the list.
    Shape,
    /// The first entry, row after row, that is a NaN or -infinity.
    NoNumber { row: usize, column: usize },
}

/// A matrix of doubles, whose bits stand in a list of the caller's: those of row i and column j at
/// the place i * stride + j. Rows and columns count from 0. Finite doubles are read exactly, -0.0
/// as 0, and +infinity forbids a pair.
///
/// A clause sees the list with its shape.
#[derive(Drop)]
pub struct DoubleMatrix<'a> {
    bits: &'a [u64],
    rows: usize,
    columns: usize,
    stride: usize,
}

impl<'a> Model for DoubleMatrix<'a> {
    ghost use Rattle.mcf_matrix_doubles.specs.DoubleTables.{DoubleTable, IsDoubleMatrix};

    ghost Value = { DoubleTable };

    ghost view = { λ m. record { entries = m.bits.now; rows = m.rows; columns = m.columns; stride = m.stride } };

    ghost invariant = { λ m. IsDoubleMatrix (record { entries = m.bits.now; rows = m.rows; columns = m.columns; stride = m.stride }) };
}

impl<'a> DoubleMatrix<'a> {
    /// The matrix of these bits.
    ///
    /// # Errors The first fault: the shape, or the first entry that is a NaN or -infinity. It reads
    /// each entry once.
    pub fn of(
        bits: &'a [u64],
        rows: usize,
        columns: usize,
        stride: usize,
    ) -> Result<DoubleMatrix<'a>, DoubleFault>
        ensures value { IfOk result (λ m. m ≡ record { entries = bits.now; rows = rows; columns = columns; stride = stride }) }
        ensures matrix { IfOk result (λ m. IsDoubleMatrix m) }
        ensures fault { IfErr result (IsFaultOf (record { entries = bits.now; rows = rows; columns = columns; stride = stride })) }
    {
        if !is_shaped(bits.len(), rows, columns, stride) {
            return Err(DoubleFault::Shape);
        }
        match first_refused(bits, rows, columns, stride) {
            Some((row, column)) => Err(DoubleFault::NoNumber { row, column }),
            None => Ok(DoubleMatrix {
                bits,
                rows,
                columns,
                stride,
            }),
        }
    }

    /// How many rows there are.
    #[inline(always)]
    pub fn rows(&self) -> usize
        ensures value { result ≡ self.now.rows }
        ensures matrix { IsDoubleMatrix self.now }
    {
        self.rows
    }

    /// How many columns there are.
    #[inline(always)]
    pub fn columns(&self) -> usize
        ensures value { result ≡ self.now.columns }
        ensures matrix { IsDoubleMatrix self.now }
    {
        self.columns
    }

    /// The bits of a row, one entry for each column.
    #[inline(always)]
    pub fn row(&self, row: usize) -> &'a [u64]
        requires { row < self.now.rows }
        ensures value { result.now ≡ slice_range self.now.entries (row * self.now.stride) (row * self.now.stride + self.now.columns) }
        ensures matrix { IsDoubleMatrix self.now }
    {
        let start = row * self.stride;
        &self.bits[start..start + self.columns]
    }

    /// The bits for a pair.
    #[inline(always)]
    pub fn entry(&self, row: usize, column: usize) -> u64
        requires row { row < self.now.rows }
        requires column { column < self.now.columns }
        ensures value { result ≡ bits_at self.now row column }
        ensures entry { IsEntry result }
        ensures matrix { IsDoubleMatrix self.now }
    {
        self.bits[row * self.stride + column]
    }
}

// Whether all entries of a row are finite doubles or +infinity.
fn are_entries(row: &[u64]) -> bool
    ensures { IsTrue result ↔ ((j : ℕ) → j < length row.now → IsEntry (slice_index row.now j)) }
{
    let mut good = true;
    for bits in row {
        good &= is_entry(*bits);
    }
    good
}

// The first entry of a row that is neither.
fn first_refused_in(row: &[u64]) -> Option<usize>
    ensures { MatchOption result ((j : ℕ) → j < length row.now → IsEntry (slice_index row.now j))
        (λ k. (k < length row.now) × (¬ IsEntry (slice_index row.now k)) × ((j : ℕ) → j < k → IsEntry (slice_index row.now j))) }
{
    if are_entries(row) {
        return None;
    }
    for (column, bits) in row.iter().enumerate() {
        if !is_entry(*bits) {
            return Some(column);
        }
    }
    None
}

// The place of the first entry that is neither, row after row.
fn first_refused(bits: &[u64], rows: usize, columns: usize, stride: usize) -> Option<(usize, usize)>
    requires { IsShaped (record { entries = bits.now; rows = rows; columns = columns; stride = stride }) }
    ensures { MatchOption result (AreEntries (record { entries = bits.now; rows = rows; columns = columns; stride = stride }))
        (λ p. IsFirstRefused (record { entries = bits.now; rows = rows; columns = columns; stride = stride }) p.0 p.1) }
{
    // Without columns there may be more rows than anyone can count.
    if columns == 0 {
        return None;
    }
    for row in 0..rows {
        let start = row * stride;
        if let Some(column) = first_refused_in(&bits[start..start + columns]) {
            return Some((row, column));
        }
    }
    None
}
