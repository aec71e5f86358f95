//! An initial transport plan: each row in turn sends to its cheapest open column.

use mcf_columns::{Pile, at, copy, put};
use mcf_matrix_rows::{View, lower_prices, row_least};
use mcf_text::{NoMemory, copies};
use std::alloc::Global;

/// Subtracted from the price of a closed column, so that no row finds it cheapest.
const CLOSED: i64 = 1 << 61;

/// An amount that a row sends to a column, both counted from 0.
#[derive(Clone, Copy, Default)]
pub struct Cell {
    pub row: u32,
    pub column: u32,
    pub amount: i64,
}

/// A plan that is made cell by cell. Each cell but the last closes a row or a column, so the cells
/// are the arcs of a spanning tree.
#[derive(Drop)]
pub(crate) struct FirstPlan<'a> {
    view: View<'a>,
    // the amounts that rows have left to send, and columns to receive
    supplies: Vec<i64>,
    demands: Vec<i64>,
    // the least entry of each column; far below that for a closed column
    prices: Vec<i64>,
    // the rows of this turn, and those of the next
    turn: Pile,
    next: Pile,
    cells: Vec<Cell>,
    count: u32,
    open_rows: u32,
    open_columns: u32,
}

impl<'a> FirstPlan<'a> {
    /// Makes a plan without cells.
    pub(crate) fn start(alloc: Global, view: View<'a>) -> Result<FirstPlan<'a>, NoMemory> {
        let (rows, columns) = (view.senders() as usize, view.columns as usize);
        Ok(FirstPlan {
            view,
            supplies: copies(alloc, rows, 0)?,
            demands: copies(alloc, columns, 0)?,
            prices: copies(alloc, columns, i64::MAX)?,
            turn: Pile::start(alloc, rows)?,
            next: Pile::start(alloc, rows)?,
            cells: copies(alloc, rows + columns, Cell::default())?,
            count: 0,
            open_rows: view.senders(),
            open_columns: view.columns,
        })
    }

    /// Writes the supplies of rows and the demands of columns.
    pub(crate) fn write(&mut self, supplies: &[i64], demands: &[i64]) {
        copy(supplies, self.supplies.as_mut_slice());
        copy(demands, self.demands.as_mut_slice());
    }

    /// Returns the cells made so far.
    pub(crate) fn made(&self) -> &[Cell] {
        let count = self.cells.len().min(self.count as usize);
        &self.cells[..count]
    }

    /// Makes the plan. `numbers` is scratch memory, one entry for each column.
    pub(crate) fn make(&mut self, numbers: &mut [i64]) {
        'rows: for row in 0..self.view.senders() {
            let entries = self.view.row(row);
            lower_prices(0, entries, self.prices.as_mut_slice(), numbers);
            self.next.add(row);
        }
        'turns: for _ in 0..self.view.columns {
            if !self.take_turn() {
                return;
            }
        }
    }

    // Makes a cell for each row of a turn. Returns whether any rows are left.
    fn take_turn(&mut self) -> bool {
        std::mem::swap(&mut self.turn, &mut self.next);
        self.next.clear();
        'rows: for place in 0..self.turn.len() {
            let row = self.turn.get(place);
            if !self.add_cell(row) {
                return false;
            }
        }
        self.next.len() > 0
    }

    // Lets a row send what it can to its cheapest open column, and closes the row or the column.
    // Returns false at the last cell.
    fn add_cell(&mut self, row: u32) -> bool {
        let (_, column) = row_least(self.view.row(row), &self.prices);
        let supply = at(&self.supplies, row, 0);
        let demand = at(&self.demands, column, 0);
        let amount = supply.min(demand);
        put(
            &mut self.cells,
            self.count,
            Cell {
                row,
                column,
                amount,
            },
        );
        self.count = self.count.wrapping_add(1);
        put(&mut self.supplies, row, supply.wrapping_sub(amount));
        put(&mut self.demands, column, demand.wrapping_sub(amount));
        if self.open_rows <= 1 && self.open_columns <= 1 {
            return false;
        }
        if amount == supply && self.open_rows > 1 {
            self.open_rows = self.open_rows.wrapping_sub(1);
        } else {
            self.close(column);
            self.next.add(row);
        }
        true
    }

    // Closes a column.
    fn close(&mut self, column: u32) {
        let price = at(&self.prices, column, 0);
        put(&mut self.prices, column, price.wrapping_sub(CLOSED));
        self.open_columns = self.open_columns.saturating_sub(1);
    }
}
