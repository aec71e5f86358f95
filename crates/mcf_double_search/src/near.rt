//! Exact reduced costs, and the pairs whose reduced cost is near 0.

use crate::cutting::exact;
use crate::lines::Lines;
use crate::window::Window;
use mcf_columns::{at, narrow, put};
use mcf_matrix::FORBIDDEN;
use mcf_matrix_search::Assignment;
use mcf_text::{NoMemory, copies};
use std::alloc::Global;

/// A matrix with exact prices, and for each row the columns near it: those of reduced cost near 0.
/// A row of zeros, after the last, stands for the columns that stay free.
#[derive(Drop)]
pub(crate) struct Near<'a> {
    lines: Lines<'a>,
    pub(crate) rows: u32,
    unit: u32,
    // the prices of rows, and then that of the row of zeros
    pub(crate) row_prices: Vec<i128>,
    pub(crate) column_prices: Vec<i128>,
    // where the near columns of each row begin in `columns`, and where the last ones end
    starts: Vec<u32>,
    columns: Vec<u32>,
    // the reduced cost below which a pair is near
    reach: i128,
}

// Returns prices in finer units, with so many zeros after them.
fn finer(alloc: Global, prices: &[i64], more: usize, factor: i128) -> Result<Vec<i128>, NoMemory> {
    let mut made = copies(alloc, prices.len().saturating_add(more), 0i128)?;
    let count = prices.len().min(made.len());
    'places: for i in 0..count {
        made[i] = i128::from(prices[i]).wrapping_mul(factor);
    }
    Ok(made)
}

/// Returns the prices of rows and columns in finer units, with a price for the row of zeros.
pub(crate) fn finer_prices(
    alloc: Global,
    found: &Assignment,
    places: u32,
) -> Result<(Vec<i128>, Vec<i128>), NoMemory> {
    let factor = 1i128 << places.min(126);
    let rows = finer(alloc, &found.row_prices, 1, factor)?;
    let columns = finer(alloc, &found.column_prices, 0, factor)?;
    Ok((rows, columns))
}

impl<'a> Near<'a> {
    /// Starts from the prices of the whole costs. Entries are rounded to multiples of 2^grid, and
    /// then each row's price is changed until its least exact reduced cost is 0: that of a matched
    /// pair is at most 2^grid. So exact prices differ by at most as many times that as there are
    /// rows, and each pair that may be matched is near.
    pub(crate) fn start(
        alloc: Global,
        lines: Lines<'a>,
        window: Window,
        found: &Assignment,
        costs: &[i64],
    ) -> Result<Near<'a>, NoMemory> {
        let places = window.grid().wrapping_sub(window.low);
        let (row_prices, column_prices) = finer_prices(alloc, found, places)?;
        let rows = narrow(lines.rows());
        let reach = (i128::from(rows) + 2).wrapping_mul(1i128 << places.min(90));
        let mut near = Near {
            lines,
            rows,
            unit: window.low,
            row_prices,
            column_prices,
            starts: copies(alloc, lines.rows().saturating_add(2), 0)?,
            columns: Vec::new(alloc),
            reach,
        };
        near.list_rows(costs, found)?;
        near.list_zeros()?;
        Ok(near)
    }

    /// Returns the reduced cost of an allowed pair.
    #[inline(always)]
    pub(crate) fn reduced(&self, row: u32, column: u32) -> i128 {
        let price = at(&self.row_prices, row, 0);
        let column_price = at(&self.column_prices, column, 0);
        self.cost(row, column)
            .wrapping_sub(price)
            .wrapping_sub(column_price)
    }

    // Returns the cost of an allowed pair, or 0 in the row of zeros.
    #[inline(always)]
    fn cost(&self, row: u32, column: u32) -> i128 {
        if row < self.rows {
            return exact(self.lines.entry(row as usize, column as usize), self.unit);
        }
        0
    }

    // Lists the near columns of each row, and changes its price until its least reduced cost is 0.
    fn list_rows(&mut self, costs: &[i64], found: &Assignment) -> Result<(), NoMemory> {
        let width = self.column_prices.len();
        let prices = found.column_prices.as_slice();
        for row in 0..self.rows {
            let start = (row as usize).wrapping_mul(width).min(costs.len());
            let price = at(&found.row_prices, row, 0);
            self.list_row(&costs[start..], price, prices)?;
            let end = narrow(self.columns.len());
            put(&mut self.starts, row.wrapping_add(1), end);
            let least = self.least_of(row);
            self.raise_row(row, least);
        }
        Ok(())
    }

    // Lists the near columns of a row, by whole costs: these are less than 1 from the exact ones.
    fn list_row(&mut self, costs: &[i64], price: i64, prices: &[i64]) -> Result<(), NoMemory> {
        let count = prices.len().min(costs.len());
        let reach = i64::from(self.rows).wrapping_add(3).wrapping_add(price);
        for column in 0..count {
            let cost = costs[column];
            if cost < reach.wrapping_add(prices[column]) && cost != FORBIDDEN {
                self.columns.push(narrow(column))?;
            }
        }
        Ok(())
    }

    // Returns the least reduced cost of a row, or 0 if no column is near it.
    fn least_of(&self, row: u32) -> i128 {
        let mut least = i128::MAX;
        'places: for place in 0..self.count(row) {
            least = least.min(self.reduced(row, self.column(row, place)));
        }
        if least == i128::MAX { 0 } else { least }
    }

    // Lists the near columns of the row of zeros, if there are more columns than rows.
    fn list_zeros(&mut self) -> Result<(), NoMemory> {
        let columns = if self.lines.rows() < self.lines.columns() {
            narrow(self.column_prices.len())
        } else {
            0
        };
        for column in 0..columns {
            if self.reduced(self.rows, column) < self.reach {
                self.columns.push(column)?;
            }
        }
        let end = narrow(self.columns.len());
        put(&mut self.starts, self.rows.wrapping_add(1), end);
        Ok(())
    }

    /// Returns the number of near columns of a row.
    pub(crate) fn count(&self, row: u32) -> u32 {
        let end = at(&self.starts, row.wrapping_add(1), 0);
        end.saturating_sub(at(&self.starts, row, 0))
    }

    /// Returns a near column of a row, by its place.
    #[inline(always)]
    pub(crate) fn column(&self, row: u32, place: u32) -> u32 {
        let start = at(&self.starts, row, 0);
        at(&self.columns, start.wrapping_add(place), u32::MAX)
    }

    /// Raises the price of a row; a change below 0 lowers it.
    pub(crate) fn raise_row(&mut self, row: u32, change: i128) {
        let price = at(&self.row_prices, row, 0).wrapping_add(change);
        put(&mut self.row_prices, row, price);
    }

    /// Lowers the price of a column.
    pub(crate) fn lower_column(&mut self, column: u32, change: i128) {
        let price = at(&self.column_prices, column, 0).wrapping_sub(change);
        put(&mut self.column_prices, column, price);
    }

    /// Moves the price of the row of zeros to all columns, so that columns that stay free have the
    /// price 0.
    pub(crate) fn settle_zeros(&mut self) {
        let change = at(&self.row_prices, self.rows, 0);
        'rows: for row in 0..self.rows {
            self.raise_row(row, 0i128.wrapping_sub(change));
        }
        'columns: for column in 0..narrow(self.column_prices.len()) {
            self.lower_column(column, 0i128.wrapping_sub(change));
        }
    }
}
