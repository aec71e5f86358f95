//! Matchings of rows with columns, with prices of columns.

use crate::scans::{NOTHING, Two};
use mcf_columns::{NOWHERE, Pile, at, narrow, put};
use mcf_text::{NoMemory, copies};
use std::alloc::Global;

/// The column of each row and the row of each column, or `NOWHERE`, and the prices of columns.
#[derive(Drop)]
pub struct Pairing {
    pub column_of: Vec<u32>,
    pub row_of: Vec<u32>,
    pub prices: Vec<i64>,
}

impl Pairing {
    /// Makes a pairing without pairs, at prices of 0.
    pub fn start(alloc: Global, rows: u32, columns: u32) -> Result<Pairing, NoMemory> {
        Ok(Pairing {
            column_of: copies(alloc, rows as usize, NOWHERE)?,
            row_of: copies(alloc, columns as usize, NOWHERE)?,
            prices: copies(alloc, columns as usize, 0)?,
        })
    }

    /// Returns the column of a row, or `NOWHERE`.
    #[inline(always)]
    pub fn column(&self, row: u32) -> u32 {
        at(&self.column_of, row, NOWHERE)
    }

    /// Returns the row of a column, or `NOWHERE`.
    #[inline(always)]
    pub fn row(&self, column: u32) -> u32 {
        at(&self.row_of, column, NOWHERE)
    }

    /// Returns the price of a column.
    #[inline(always)]
    pub fn price(&self, column: u32) -> i64 {
        at(&self.prices, column, 0)
    }

    /// Adds `change` to the price of a column.
    #[inline(always)]
    pub fn raise(&mut self, column: u32, change: i64) {
        let price = self.price(column).wrapping_add(change);
        put(&mut self.prices, column, price);
    }

    /// Pairs a row and a column. Returns the column that the row had before, or `NOWHERE`.
    #[inline(always)]
    pub fn pair(&mut self, row: u32, column: u32) -> u32 {
        let before = self.column(row);
        put(&mut self.column_of, row, column);
        put(&mut self.row_of, column, row);
        before
    }

    /// Lowers the price of a row's best column until the second best is as good, if there is a
    /// second.
    #[inline(always)]
    pub fn lower_to_second(&mut self, two: Two) {
        if two.second < NOTHING {
            self.raise(two.column, two.least.wrapping_sub(two.second));
        }
    }

    /// Pairs a row and a column, and parts the column from the row that had it. Returns that row,
    /// or `NOWHERE`.
    #[inline(always)]
    pub fn displace(&mut self, row: u32, column: u32) -> u32 {
        let loser = self.row(column);
        put(&mut self.column_of, loser, NOWHERE);
        self.pair(row, column);
        loser
    }

    /// Fills a pile with the rows that have no column.
    pub fn pile_free(&self, free: &mut Pile) {
        free.clear();
        'rows: for row in 0..narrow(self.column_of.len()) {
            if self.column(row) == NOWHERE {
                free.add(row);
            }
        }
    }
}
