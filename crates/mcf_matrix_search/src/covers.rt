//! Covers: rows and columns such that each allowed pair has one of them. The smallest cover is as
//! large as the largest matching of allowed pairs (König, 1931).

use crate::found::Cover;
use mcf_columns::{NOWHERE, Pile, at, put};
use mcf_matrix_rows::{Pairing, View};
use mcf_text::{NoMemory, copies};
use std::alloc::Global;

// The search for a cover gives up after so many augmenting paths. None is needed if 64 bits hold
// the cost that stands for forbidden pairs: then the matching is already as large as it can be.
const COVER_PATHS: u32 = 64;

/// A search for alternating paths from the free rows, through pairs that cost less than a limit.
#[derive(Drop)]
struct Paths<'a> {
    view: View<'a>,
    limit: i64,
    pairing: Pairing,
    rows: Vec<bool>,
    columns: Vec<bool>,
    // the row from which each column was reached
    sources: Vec<u32>,
    waiting: Pile,
}

/// Searches for a cover of the pairs that cost less than `limit`, which has fewer rows and columns
/// than the view has rows. The search starts from a matching of all rows. Returns `None` if it can
/// match all rows by such pairs, or if it exceeds its budget.
pub(crate) fn find_cover(
    alloc: Global,
    view: View<'_>,
    limit: i64,
    pairing: Pairing,
) -> Result<Option<Cover>, NoMemory> {
    let mut paths = Paths {
        view,
        limit,
        pairing,
        rows: copies(alloc, view.rows as usize, true)?,
        columns: copies(alloc, view.columns as usize, false)?,
        sources: copies(alloc, view.columns as usize, NOWHERE)?,
        waiting: Pile::start(alloc, view.rows as usize)?,
    };
    paths.drop_limited();
    if paths.run() {
        let Paths { rows, columns, .. } = paths;
        return Ok(Some(Cover { rows, columns }));
    }
    Ok(None)
}

impl<'a> Paths<'a> {
    // Removes the pairs that cost at least the limit from the matching.
    fn drop_limited(&mut self) {
        'rows: for row in 0..self.view.rows {
            let column = self.pairing.column(row);
            if self.view.cost(row, column) >= self.limit {
                put(&mut self.pairing.column_of, row, NOWHERE);
                put(&mut self.pairing.row_of, column, NOWHERE);
            }
        }
    }

    // Augments the matching until no augmenting path is left. Returns whether the rows that weren't
    // reached and the columns that were are then a cover of fewer lines than there are rows.
    fn run(&mut self) -> bool {
        'paths: for _ in 0..COVER_PATHS {
            if !self.begin() {
                return false;
            }
            let Some(end) = self.spread() else {
                return true;
            };
            self.turn(end);
        }
        false
    }

    // Begins a search at the free rows. Returns whether there are any. `rows` marks the rows that
    // aren't reached.
    fn begin(&mut self) -> bool {
        self.columns.as_mut_slice().fill(false);
        self.waiting.clear();
        'rows: for row in 0..self.view.rows {
            let is_free = self.pairing.column(row) == NOWHERE;
            put(&mut self.rows, row, !is_free);
            if is_free {
                self.waiting.add(row);
            }
        }
        self.waiting.len() > 0
    }

    // Reaches rows and columns until it reaches a free column, and returns that, or `None` if it
    // reaches none.
    fn spread(&mut self) -> Option<u32> {
        'rows: for _ in 0..self.view.rows {
            let Some(row) = self.waiting.pop() else {
                break;
            };
            let end = self.reach_columns(row);
            if end.is_some() {
                return end;
            }
        }
        None
    }

    // Reaches the columns of a row and the rows of these columns. Returns the first free column.
    fn reach_columns(&mut self, row: u32) -> Option<u32> {
        let entries = self.view.row(row);
        'columns: for column in 0..self.view.columns {
            if at(entries, column, self.limit) < self.limit && !at(&self.columns, column, true) {
                put(&mut self.columns, column, true);
                put(&mut self.sources, column, row);
                let next = self.pairing.row(column);
                if next == NOWHERE {
                    return Some(column);
                }
                put(&mut self.rows, next, false);
                self.waiting.add(next);
            }
        }
        None
    }

    // Augments the matching along the path to a free column.
    fn turn(&mut self, end: u32) {
        let mut column = end;
        'rows: for _ in 0..self.view.rows {
            if column == NOWHERE {
                break;
            }
            let row = at(&self.sources, column, NOWHERE);
            column = self.pairing.pair(row, column);
        }
    }
}
