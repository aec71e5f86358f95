//! The stages of a search for transport plans: whole costs of ever finer units.

use crate::cutting::exact;
use crate::found_plan::DoublePlan;
use crate::window::Window;
use mcf_columns::{at, narrow, put};
use mcf_matrix::{Matrix, Shipment};
use mcf_matrix_doubles::{DoubleMatrix, INFINITY};
use mcf_matrix_search::Plan;
use mcf_text::{NoMemory, copies};
use std::alloc::Global;

// The bits of whole costs: 2^49 is below 10^15, the limit of a cost.
const COST_BITS: u32 = 49;

// The bits of whole costs times the rows and columns, such that the cost that stands for a
// forbidden pair is above a path's.
const PATH_BITS: u32 = 56;

/// Whole costs of one unit, from which a plan is improved: first the entries, and then their
/// reduced costs, rounded down.
#[derive(Drop)]
pub(crate) struct Stage<'a> {
    matrix: &'a DoubleMatrix<'a>,
    // the whole costs, in units of 2^grid
    costs: Vec<i64>,
    grid: u32,
    // the exact prices so far, in units of 2^low
    row_prices: Vec<i128>,
    column_prices: Vec<i128>,
    low: u32,
    is_rounded: bool,
}

// Returns the number of bits of a number.
fn bits_of(number: u64) -> u32 {
    64u32.saturating_sub(number.leading_zeros())
}

/// Returns the exponent of the power of 2 to whose multiples entries are rounded down at first.
pub(crate) fn first_grid(window: Window, rows: usize, columns: usize) -> u32 {
    let lines = u64::from(narrow(rows)) + u64::from(narrow(columns));
    let bits = PATH_BITS.saturating_sub(bits_of(lines)).min(COST_BITS);
    window.low.max(window.top.saturating_sub(bits))
}

impl<'a> Stage<'a> {
    /// Starts with the entries in units of 2^grid.
    pub(crate) fn start(
        alloc: Global,
        matrix: &'a DoubleMatrix<'a>,
        window: Window,
        grid: u32,
        costs: Vec<i64>,
    ) -> Result<Stage<'a>, NoMemory> {
        Ok(Stage {
            matrix,
            costs,
            grid,
            row_prices: copies(alloc, matrix.rows(), 0i128)?,
            column_prices: copies(alloc, matrix.columns(), 0i128)?,
            low: window.low,
            is_rounded: window.is_cut,
        })
    }

    /// Returns whether the whole costs are exact.
    pub(crate) fn is_last(&self) -> bool {
        self.grid <= self.low
    }

    /// Returns the whole costs as a matrix.
    pub(crate) fn whole(&self) -> Option<Matrix<'_>> {
        let columns = self.matrix.columns();
        Matrix::of(&self.costs, self.matrix.rows(), columns, columns).ok()
    }

    /// Adds the prices of a plan of this stage to the exact ones.
    pub(crate) fn add_prices(&mut self, plan: &Plan) {
        let factor = 1i128 << self.grid.saturating_sub(self.low).min(126);
        add_multiples(self.row_prices.as_mut_slice(), &plan.row_prices, factor);
        add_multiples(
            self.column_prices.as_mut_slice(),
            &plan.column_prices,
            factor,
        );
    }

    /// Replaces the whole costs by the exact reduced costs, in finer units, rounded down. A pair
    /// that is so far from 0 that no shortest path uses it, or forbidden, gets a cost that is as
    /// far.
    pub(crate) fn next(&mut self, plan: &Plan) {
        let (rows, columns) = (narrow(self.matrix.rows()), narrow(self.matrix.columns()));
        let lines = u64::from(rows) + u64::from(columns) + 4;
        let reach = i64::from(rows) + i64::from(columns) + 3;
        let room = COST_BITS.saturating_sub(bits_of(lines));
        let step = self.grid.saturating_sub(self.low).min(room).min(62);
        let next = Next {
            low: self.low,
            places: self
                .grid
                .saturating_sub(self.low)
                .saturating_sub(step)
                .min(127),
            reach,
            far: reach << step,
        };
        let matrix = self.matrix;
        let width = matrix.columns();
        for row in 0..matrix.rows() {
            let start = row.wrapping_mul(width).min(self.costs.len());
            let line = Line {
                entries: matrix.row(row),
                price: at(&plan.row_prices, narrow(row), 0),
                exact_price: at(&self.row_prices, narrow(row), 0),
                prices: &plan.column_prices,
                exact_prices: &self.column_prices,
            };
            next.write_row(line, &mut self.costs.as_mut_slice()[start..]);
        }
        self.grid = self.grid.saturating_sub(step);
    }

    /// Returns the plan with the exact prices.
    pub(crate) fn end(self, plan: Plan) -> DoublePlan {
        let Stage {
            row_prices,
            column_prices,
            low,
            is_rounded,
            ..
        } = self;
        let Plan { mut shipments, .. } = plan;
        let used = keep_used(shipments.as_mut_slice());
        shipments.truncate(used);
        DoublePlan {
            shipments,
            row_prices,
            column_prices,
            unit: low,
            is_rounded,
        }
    }
}

// Adds multiples of prices to exact ones.
fn add_multiples(exact_prices: &mut [i128], prices: &[i64], factor: i128) {
    let count = exact_prices.len().min(prices.len());
    'places: for i in 0..count {
        let more = i128::from(prices[i]).wrapping_mul(factor);
        exact_prices[i] = exact_prices[i].wrapping_add(more);
    }
}

// Moves the shipments of amounts above 0 to the front, and returns how many there are.
fn keep_used(shipments: &mut [Shipment]) -> usize {
    let mut used = 0u32;
    'shipments: for i in 0..shipments.len() {
        let shipment = shipments[i];
        if shipment.amount > 0 {
            put(shipments, used, shipment);
            used = used.wrapping_add(1);
        }
    }
    used as usize
}

// The units of the next stage.
#[derive(Clone, Copy)]
struct Next {
    low: u32,
    // how many places finer the exact units are
    places: u32,
    // the reduced cost, in units of the last stage, from which on a pair is far
    reach: i64,
    // the cost of such a pair
    far: i64,
}

// A row of the matrix, with its prices and those of the columns.
#[derive(Clone, Copy)]
struct Line<'a> {
    entries: &'a [u64],
    price: i64,
    exact_price: i128,
    prices: &'a [i64],
    exact_prices: &'a [i128],
}

impl Next {
    // Writes the costs of a row.
    fn write_row(self, line: Line<'_>, costs: &mut [i64]) {
        let count = line.entries.len().min(costs.len()).min(line.prices.len());
        'columns: for column in 0..count {
            let reduced = costs[column]
                .wrapping_sub(line.price)
                .wrapping_sub(line.prices[column]);
            costs[column] = if reduced < self.reach {
                self.near(line, column)
            } else {
                self.far
            };
        }
    }

    // Returns the cost of a pair that is near 0.
    #[inline(never)]
    fn near(self, line: Line<'_>, column: usize) -> i64 {
        let (entries, prices) = (line.entries, line.exact_prices);
        if column >= entries.len() || column >= prices.len() || entries[column] == INFINITY {
            return self.far;
        }
        let reduced = exact(entries[column], self.low)
            .wrapping_sub(line.exact_price)
            .wrapping_sub(prices[column]);
        clamped(reduced >> self.places.min(127), self.far)
    }
}

// Returns a number, or 0 if it is below 0, or the greatest if it is above that.
fn clamped(number: i128, most: i64) -> i64 {
    if number < 0 {
        return 0;
    }
    if number >= i128::from(most) {
        return most;
    }
    number as i64
}
