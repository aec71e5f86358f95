//! Refines a least assignment of the cut matrix to one of the exact matrix: it searches a shortest
//! augmenting path, among the pairs of reduced cost near 0, from each row whose pair has a reduced
//! cost above 0.

use crate::found::DoubleAssignment;
use crate::lines::Lines;
use crate::near::Near;
use crate::window::Window;
use mcf_columns::{NOWHERE, Pile, at, narrow, put};
use mcf_matrix_search::Assignment;
use mcf_text::{NoMemory, copies};
use std::alloc::Global;
use std::cmp::Reverse;
use std::collections::BinaryHeap;

// The distance of a column that isn't reached.
const UNREACHED: i128 = i128::MAX;

// A column, and how far it is from the row at which a path begins.
#[derive(Clone, Copy)]
struct Reached {
    distance: i128,
    column: u32,
}

// The searches for shortest paths (Dijkstra 1959).
#[derive(Drop)]
struct Refining<'a> {
    near: Near<'a>,
    column_of: Vec<u32>,
    // the row of each column: the row of zeros for columns that stay free
    row_of: Vec<u32>,
    distances: Vec<i128>,
    // the row before each reached column on its path
    sources: Vec<u32>,
    is_settled: Vec<bool>,
    reached: Pile,
    // the distances and columns to settle, nearest first
    queue: BinaryHeap<Reverse<(i128, u32)>>,
    // the column before the row of zeros on its path
    zeros: Option<Reached>,
}

/// Refines an assignment of whole costs to one of the exact costs. Returns `None` if a row can't be
/// matched.
///
/// # Errors
/// `NoMemory` if an allocation is refused.
pub(crate) fn refine<'a>(
    alloc: Global,
    lines: Lines<'a>,
    window: Window,
    found: Assignment,
    costs: &[i64],
) -> Result<Option<DoubleAssignment>, NoMemory> {
    let near = Near::start(alloc, lines, window, &found, costs)?;
    let columns = lines.columns();
    let zeros = near.rows;
    let mut refining = Refining {
        near,
        column_of: found.column_of,
        row_of: copies(alloc, columns, zeros)?,
        distances: copies(alloc, columns, UNREACHED)?,
        sources: copies(alloc, columns, NOWHERE)?,
        is_settled: copies(alloc, columns, false)?,
        reached: Pile::start(alloc, columns)?,
        queue: BinaryHeap::new(alloc),
        zeros: None,
    };
    refining.keep_tight();
    if !refining.run()? {
        return Ok(None);
    }
    refining.near.settle_zeros();
    let Refining {
        mut near,
        column_of,
        ..
    } = refining;
    near.row_prices.truncate(column_of.len());
    Ok(Some(DoubleAssignment {
        column_of,
        row_prices: near.row_prices,
        column_prices: near.column_prices,
        unit: window.low,
        is_rounded: window.is_cut,
    }))
}

impl<'a> Refining<'a> {
    // Unmatches the pairs whose reduced cost isn't 0.
    fn keep_tight(&mut self) {
        'rows: for row in 0..self.near.rows {
            let column = at(&self.column_of, row, NOWHERE);
            if self.near.reduced(row, column) == 0 {
                put(&mut self.row_of, column, row);
            } else {
                put(&mut self.row_of, column, NOWHERE);
                put(&mut self.column_of, row, NOWHERE);
            }
        }
    }

    // Matches each free row. Returns whether it could.
    fn run(&mut self) -> Result<bool, NoMemory> {
        for row in 0..self.near.rows {
            if at(&self.column_of, row, NOWHERE) == NOWHERE {
                let Some(end) = self.find_end(row)? else {
                    return Ok(false);
                };
                self.near.raise_row(row, end.distance);
                self.price_settled(end.distance);
                self.augment(row, end.column);
            }
        }
        Ok(true)
    }

    // Begins a new search.
    fn begin(&mut self) {
        'columns: for place in 0..self.reached.len() {
            let column = self.reached.get(place);
            put(&mut self.distances, column, UNREACHED);
            put(&mut self.is_settled, column, false);
        }
        self.reached.clear();
        self.queue.clear();
        self.zeros = None;
    }

    // Settles columns, nearest first, and returns the first one without a row.
    fn find_end(&mut self, free: u32) -> Result<Option<Reached>, NoMemory> {
        self.begin();
        self.offer(free, 0)?;
        for _ in 0..self.near.column_prices.len() {
            let Some(nearest) = self.nearest() else {
                return Ok(None);
            };
            let row = at(&self.row_of, nearest.column, NOWHERE);
            if row == NOWHERE {
                return Ok(Some(nearest));
            }
            put(&mut self.is_settled, nearest.column, true);
            if self.is_new(row, nearest) {
                self.offer(row, nearest.distance)?;
            }
        }
        Ok(None)
    }

    // Returns whether a row is reached for the first time: the row of zeros has many columns.
    fn is_new(&mut self, row: u32, nearest: Reached) -> bool {
        if row < self.near.rows {
            return true;
        }
        let is_new = self.zeros.is_none();
        if is_new {
            self.zeros = Some(nearest);
        }
        is_new
    }

    // Reaches the near columns of a row at a distance, except those that are matched with it.
    fn offer(&mut self, row: u32, distance: i128) -> Result<(), NoMemory> {
        for place in 0..self.near.count(row) {
            let column = self.near.column(row, place);
            if at(&self.row_of, column, row) == row {
                continue;
            }
            let reduced = self.near.reduced(row, column);
            let found = Reached {
                distance: distance.wrapping_add(reduced),
                column,
            };
            if found.distance < at(&self.distances, column, 0) {
                self.reach(row, found)?;
            }
        }
        Ok(())
    }

    // Reaches a column from a row, unless it is settled.
    fn reach(&mut self, row: u32, found: Reached) -> Result<(), NoMemory> {
        let Reached { distance, column } = found;
        if at(&self.is_settled, column, true) {
            return Ok(());
        }
        if at(&self.distances, column, 0) == UNREACHED {
            self.reached.add(column);
        }
        put(&mut self.distances, column, distance);
        put(&mut self.sources, column, row);
        self.queue.push(Reverse((distance, column)))?;
        Ok(())
    }

    // Returns the nearest reached column that isn't settled.
    fn nearest(&mut self) -> Option<Reached> {
        for _ in 0..u64::MAX {
            let Reverse((distance, column)) = self.queue.pop()?;
            let is_current = distance == at(&self.distances, column, 0);
            if is_current && !at(&self.is_settled, column, true) {
                return Some(Reached { distance, column });
            }
        }
        None
    }

    // Lowers the prices of settled columns and raises those of their rows, each by how much nearer
    // it is than the end of the path.
    fn price_settled(&mut self, distance: i128) {
        'columns: for place in 0..self.reached.len() {
            let column = self.reached.get(place);
            let row = at(&self.row_of, column, NOWHERE);
            if row < self.near.rows && at(&self.is_settled, column, false) {
                let nearer = distance.wrapping_sub(at(&self.distances, column, 0));
                self.near.lower_column(column, nearer);
                self.near.raise_row(row, nearer);
            }
        }
        if let Some(zeros) = self.zeros {
            self.price_zeros(distance.wrapping_sub(zeros.distance));
        }
    }

    // Raises the price of the row of zeros, and lowers those of the columns that are matched with
    // it.
    fn price_zeros(&mut self, nearer: i128) {
        let zeros = self.near.rows;
        self.near.raise_row(zeros, nearer);
        'columns: for place in 0..self.near.count(zeros) {
            let column = self.near.column(zeros, place);
            if at(&self.row_of, column, NOWHERE) == zeros {
                self.near.lower_column(column, nearer);
            }
        }
    }

    // Augments along the path that ends at a column.
    fn augment(&mut self, free: u32, end: u32) {
        let mut column = end;
        'rows: for _ in 0..self.near.column_prices.len() {
            let row = at(&self.sources, column, NOWHERE);
            put(&mut self.row_of, column, row);
            if row >= self.near.rows {
                let Some(zeros) = self.zeros else {
                    return;
                };
                column = zeros.column;
                continue;
            }
            let before = at(&self.column_of, row, NOWHERE);
            put(&mut self.column_of, row, column);
            if row == free {
                return;
            }
            column = before;
        }
    }
}
