//! Conversion of entries to whole numbers of units.

use mcf_matrix::FORBIDDEN;
use mcf_matrix_doubles::{DoubleMatrix, INFINITY, Scaled};
use mcf_text::{NoMemory, copies};
use std::alloc::Global;

// One more than the bits of a double without its sign.
const SIGN: u64 = 1 << 63;

// The weight of the last bit of a double's exponent.
const EXPONENTS: u64 = 1 << 52;

// The exponents below it, plus 53, are those of doubles.
const DOUBLES: u32 = 2046;

// Half of the range of 63 bits.
const HALF: u64 = 1 << 62;

/// The multiples of a power of 2 to which entries are rounded: to the nearest ones, or down.
#[derive(Clone, Copy)]
pub(crate) struct Grid {
    // the power's exponent
    exponent: u32,
    // 1.5 * 2^52 times the power, or 0 if that is no double: the sum of it and a double of a size
    // below 2^51 times the power is rounded to a multiple, which the last bits of the sum count
    origin: f64,
    is_nearest: bool,
}

impl Grid {
    /// Returns the multiples of a power of 2, to which entries are rounded: to the nearest ones, if
    /// sums of doubles do so.
    pub(crate) fn nearest(exponent: u32) -> Grid {
        let bits = u64::from(exponent)
            .wrapping_add(1)
            .wrapping_mul(EXPONENTS)
            .wrapping_add(EXPONENTS / 2);
        Grid {
            exponent,
            origin: finite(if exponent < DOUBLES { bits } else { 0 }),
            is_nearest: exponent < DOUBLES,
        }
    }

    /// Returns the multiples of a power of 2, to which entries are rounded down.
    pub(crate) fn down(exponent: u32) -> Grid {
        Grid {
            exponent,
            origin: 0.0,
            is_nearest: false,
        }
    }

    // Returns an entry as a multiple, rounded, if 64 bits fit it.
    #[inline(always)]
    fn cut(self, bits: u64) -> i64 {
        let cost = if self.is_nearest {
            self.rounded(bits)
        } else {
            shifted(bits, self.exponent)
        };
        if bits == INFINITY { FORBIDDEN } else { cost }
    }

    // Returns an entry of a size below 2^51 times the power as the nearest multiple.
    #[inline(always)]
    fn rounded(self, bits: u64) -> i64 {
        let sum = bits_of(finite(bits) + self.origin);
        let count = sum.wrapping_sub(bits_of(self.origin));
        (count.wrapping_add(HALF) % SIGN) as i64 - HALF as i64
    }
}

// Returns the double of some bits, or 0 if it isn't finite.
#[inline(always)]
fn finite(bits: u64) -> f64 {
    let size = bits % SIGN;
    if size < INFINITY {
        f64::from_bits(bits)
    } else {
        0.0
    }
}

// Returns the bits of a double, or 0 for a NaN.
#[inline(always)]
fn bits_of(value: f64) -> u64 {
    if value.is_nan() { 0 } else { value.to_bits() }
}

// Returns an entry in units of 2^grid, rounded down, if 64 bits fit it.
fn shifted(bits: u64, grid: u32) -> i64 {
    let Scaled { mantissa, shift } = Scaled::of(bits);
    if grid <= shift {
        mantissa << (shift - grid).min(63)
    } else {
        mantissa >> (grid - shift).min(63)
    }
}

/// Returns a finite entry in units of 2^unit, rounded down, if 128 bits fit it.
#[inline(always)]
pub(crate) fn exact(bits: u64, unit: u32) -> i128 {
    let Scaled { mantissa, shift } = Scaled::of(bits);
    let mantissa = i128::from(mantissa);
    if unit <= shift {
        mantissa << (shift - unit).min(127)
    } else {
        mantissa >> (unit - shift).min(127)
    }
}

/// Returns the entries of a matrix as multiples, row after row, or column after column if
/// `is_turned`.
pub(crate) fn cut_costs(
    alloc: Global,
    matrix: &DoubleMatrix<'_>,
    grid: Grid,
    is_turned: bool,
) -> Result<Vec<i64>, NoMemory> {
    let (rows, columns) = (matrix.rows(), matrix.columns());
    let mut costs = copies(alloc, rows.saturating_mul(columns), FORBIDDEN)?;
    'rows: for row in 0..rows {
        if is_turned {
            turn_row(matrix.row(row), grid, row, rows, costs.as_mut_slice());
        } else {
            let start = row.wrapping_mul(columns).min(costs.len());
            cut_row(matrix.row(row), grid, &mut costs.as_mut_slice()[start..]);
        }
    }
    Ok(costs)
}

// Cuts the entries of a row.
fn cut_row(row: &[u64], grid: Grid, costs: &mut [i64]) {
    let count = row.len().min(costs.len());
    'columns: for column in 0..count {
        costs[column] = grid.cut(row[column]);
    }
}

// Cuts the entries of a row, and writes them as a column of so many rows.
fn turn_row(entries: &[u64], grid: Grid, row: usize, rows: usize, costs: &mut [i64]) {
    'columns: for column in 0..entries.len() {
        let place = column.wrapping_mul(rows).wrapping_add(row);
        if place < costs.len() {
            costs[place] = grid.cut(entries[column]);
        }
    }
}
