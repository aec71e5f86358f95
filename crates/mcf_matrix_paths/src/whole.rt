//! A search that scans whole rows.

use crate::augmenting::{Augmenter, assign_rows, lower_settled};
use crate::bidding::{Bid, Bidder};
use crate::reduction::reduce_columns;
use crate::tuning::{BUDGET_ROWS, HARD_ROWS, SETTLED_PER_ROW};
use mcf_columns::{NOWHERE, Pile, at, copy, narrow, put};
use mcf_matrix_rows::{BLOCK, Pairing, RowOffer, Two, UNREACHED, View, offer_all, two_least};
use mcf_text::{NoMemory, copies};
use std::alloc::Global;

// Subtracted from the price of a settled column, so that no distance offered to it is below the one
// it has, even if distances are negative.
const FAR: i64 = 1 << 62;

/// Shortest augmenting paths after column and row reduction (Jonker and Volgenant 1987), in scans
/// of whole rows without a branch: a settled column stays in the scan, at a price far below.
#[derive(Drop)]
struct WholeRows<'a> {
    view: View<'a>,
    pairing: Pairing,
    // the prices of columns; those of settled columns are far below
    offered: Vec<i64>,
    distances: Vec<i64>,
    // the row from which each column is reached
    sources: Vec<i64>,
    // the least distance of each block of columns
    leasts: Vec<i64>,
    // the settled columns, and the distance of each
    settled: Pile,
    reached: Vec<i64>,
    // how many columns the search may still settle
    budget: u64,
}

/// The free column at which a path ends, and its distance.
#[derive(Clone, Copy)]
struct End {
    column: u32,
    distance: i64,
}

/// Searches for a matching of all rows, with prices of columns that may show it to be least. The
/// view has no more rows than columns. Returns `None` if the search exceeds its budget.
pub(crate) fn search(alloc: Global, view: View<'_>) -> Result<Option<Pairing>, NoMemory> {
    let mut free = Pile::start(alloc, view.rows as usize)?;
    let mut left = Pile::start(alloc, view.rows as usize)?;
    let mut counts = copies(alloc, view.rows as usize, 0)?;
    let mut search = WholeRows::start(alloc, view)?;
    if search.run(&mut free, &mut left, counts.as_mut_slice()) {
        return Ok(Some(search.pairing));
    }
    Ok(None)
}

impl<'a> WholeRows<'a> {
    // Makes the search before its first step.
    fn start(alloc: Global, view: View<'a>) -> Result<WholeRows<'a>, NoMemory> {
        let columns = view.columns as usize;
        let budget = if view.rows < BUDGET_ROWS {
            u64::MAX
        } else {
            u64::from(view.rows) * SETTLED_PER_ROW
        };
        Ok(WholeRows {
            view,
            pairing: Pairing::start(alloc, view.rows, view.columns)?,
            offered: copies(alloc, columns, 0)?,
            distances: copies(alloc, columns, 0)?,
            sources: copies(alloc, columns, 0)?,
            leasts: copies(alloc, columns / BLOCK + 1, 0)?,
            settled: Pile::start(alloc, columns)?,
            reached: copies(alloc, columns, 0)?,
            budget,
        })
    }

    // Runs the search. Returns whether all rows have a column.
    fn run(&mut self, free: &mut Pile, left: &mut Pile, counts: &mut [u32]) -> bool {
        let rows = self.view.rows;
        if self.view.is_square() {
            reduce_columns(
                self.view,
                &mut self.pairing,
                self.sources.as_mut_slice(),
                counts,
            );
            self.transfer_all(counts);
        }
        self.pairing.pile_free(free);
        if self.view.is_square() && is_hard(rows, free.len()) {
            return false;
        }
        assign_rows(self, free, left, rows)
    }

    // Lowers the price of each column that is the only one with its least entry in its row, until
    // the row's second best column is as good (reduction transfer).
    fn transfer_all(&mut self, counts: &[u32]) {
        'rows: for row in 0..self.view.rows {
            if at(counts, row, 0) == 1 {
                let two = two_least(self.view.row(row), self.pairing.prices.as_slice());
                if two.column == self.pairing.column(row) {
                    self.pairing.lower_to_second(two);
                }
            }
        }
    }

    // Returns a free column that is as good for a row as its best two, or else the second of these.
    fn tied(&self, row: u32, two: Two) -> u32 {
        if self.pairing.row(two.second_column) == NOWHERE {
            return two.second_column;
        }
        let entries = self.view.row(row);
        'columns: for column in two.second_column..self.view.columns {
            if self.pairing.row(column) == NOWHERE
                && at(entries, column, UNREACHED).wrapping_sub(self.pairing.price(column))
                    == two.least
            {
                return column;
            }
        }
        two.second_column
    }

    // Begins a search, in which no column is reached or settled.
    fn begin(&mut self) {
        self.settled.clear();
        self.distances.as_mut_slice().fill(UNREACHED);
        copy(self.pairing.prices.as_slice(), self.offered.as_mut_slice());
    }

    // Settles columns until the nearest one is free, and returns that one. Returns `None` if the
    // budget is spent or no free column can be reached.
    fn find_end(&mut self, free: u32) -> Option<End> {
        let mut row = free;
        let mut height = 0;
        'columns: for _ in 0..self.view.columns {
            let distance = self.offer(row, height);
            if distance >= UNREACHED || self.budget == 0 {
                return None;
            }
            let column = self.nearest(distance);
            row = self.pairing.row(column);
            if row == NOWHERE {
                return Some(End { column, distance });
            }
            self.settle(column, distance);
            let reduced = self
                .view
                .cost(row, column)
                .wrapping_sub(self.pairing.price(column));
            height = reduced.wrapping_sub(distance);
        }
        None
    }

    // Offers each column the distance `reduced cost - height` from a row. Returns the least
    // distance of all columns.
    fn offer(&mut self, row: u32, height: i64) -> i64 {
        let offer = RowOffer {
            row: i64::from(row),
            height,
        };
        offer_all(
            offer,
            self.view.row(row),
            self.offered.as_slice(),
            self.distances.as_mut_slice(),
            self.sources.as_mut_slice(),
            self.leasts.as_mut_slice(),
        )
    }

    // Returns a column at a distance: a free one if possible.
    fn nearest(&self, distance: i64) -> u32 {
        let mut column = NOWHERE;
        'blocks: for block in 0..self.leasts.len() {
            if self.leasts[block] == distance {
                let here = self.nearest_in(block, distance);
                if self.pairing.row(here) == NOWHERE {
                    return here;
                }
                column = column.min(here);
            }
        }
        column
    }

    // Returns a column of a block at a distance: a free one if possible, else the first.
    fn nearest_in(&self, block: usize, distance: i64) -> u32 {
        let start = narrow(block).wrapping_mul(16);
        let end = start.wrapping_add(16).min(self.view.columns);
        let mut column = NOWHERE;
        'columns: for here in start..end {
            if at(&self.distances, here, UNREACHED) == distance {
                if self.pairing.row(here) == NOWHERE {
                    return here;
                }
                column = column.min(here);
            }
        }
        column
    }

    // Settles a column at its distance.
    fn settle(&mut self, column: u32, distance: i64) {
        self.settled.add(column);
        self.budget = self.budget.saturating_sub(1);
        put(&mut self.reached, column, distance);
        put(&mut self.distances, column, UNREACHED);
        let price = at(&self.offered, column, 0);
        put(&mut self.offered, column, price.wrapping_sub(FAR));
    }

    // Augments the matching along the path from a free row to a column.
    fn turn(&mut self, free: u32, end: u32) {
        let mut column = end;
        'rows: for _ in 0..self.view.rows {
            let source = at(&self.sources, column, 0);
            let row = u32::try_from(source).unwrap_or(NOWHERE);
            column = self.pairing.pair(row, column);
            if row == free {
                return;
            }
        }
    }
}

impl<'a> Bidder for WholeRows<'a> {
    fn bid(&mut self, row: u32) -> Bid {
        let two = two_least(self.view.row(row), self.pairing.prices.as_slice());
        let has_lowered = two.least < two.second;
        let mut column = two.column;
        if has_lowered {
            self.pairing.lower_to_second(two);
        } else if self.pairing.row(column) != NOWHERE {
            column = self.tied(row, two);
        }
        Bid {
            loser: self.pairing.displace(row, column),
            has_lowered,
        }
    }
}

impl<'a> Augmenter for WholeRows<'a> {
    fn augment(&mut self, free: u32) -> bool {
        self.begin();
        let Some(end) = self.find_end(free) else {
            return false;
        };
        lower_settled(
            &mut self.pairing,
            &self.settled,
            &self.reached,
            end.distance,
        );
        self.turn(free, end.column);
        true
    }
}

/// Returns whether column reduction left so many rows free that augmenting paths will be long.
pub(crate) fn is_hard(rows: u32, free: u32) -> bool {
    rows >= HARD_ROWS && u64::from(free) * 10 > u64::from(rows) * 9
}
