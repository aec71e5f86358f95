//! A search over lists of the least entries of rows, which scans a whole row only if an entry that
//! isn't listed may be on a shortest path.

use crate::augmenting::{Augmenter, assign_rows, lower_settled};
use crate::bidding::{Bid, Bidder};
use crate::heap::{Entry, Heap, Task};
use crate::lists::{Listed, Lists};
use crate::reduction::reduce_columns;
use crate::tuning::{FEW_FREE, LIST_LENGTH, LIST_READINGS, PATH_ENTRIES, SETTLED_ENTRIES};
use crate::whole::is_hard;
use mcf_columns::{NOWHERE, Pile, at, put};
use mcf_matrix_rows::{BLOCK, NOTHING, Pairing, Two, View, two_least};
use mcf_text::{NoMemory, copies};
use std::alloc::Global;

/// Shortest augmenting paths after column and row reduction (Jonker and Volgenant 1987), over
/// lists. A row whose list isn't complete is in the heap, with the bound of its other entries as
/// its key; the search scans the whole row if it reaches that key.
#[derive(Drop)]
struct Lazy<'a> {
    view: View<'a>,
    pairing: Pairing,
    lists: Lists,
    marks: Marks,
    heap: Heap,
    // columns at the least distance, which needn't go through the heap
    stack: Pile,
    settled: Pile,
    // for each row what the search subtracts from its reduced costs to get distances
    heights: Vec<i64>,
    // about how many entries the search may still read
    budget: u64,
}

/// The tentative distances of columns in a search.
#[derive(Drop)]
struct Marks {
    distances: Vec<i64>,
    // the row from which each column is reached
    sources: Vec<u32>,
    // the number of the search in which each column was last reached, and last settled
    reached: Vec<u32>,
    settled: Vec<u32>,
    search: u32,
    // a lower bound of the distances that are yet to be settled
    floor: i64,
    // the nearest free column, and its distance
    end: u32,
    nearest: i64,
}

/// Searches for a matching of all rows, with prices of columns that may show it to be least. The
/// view has no more rows than columns. Returns `None` if the search exceeds its budget.
pub(crate) fn search(alloc: Global, view: View<'_>) -> Result<Option<Pairing>, NoMemory> {
    let mut free = Pile::start(alloc, view.rows as usize)?;
    let mut left = Pile::start(alloc, view.rows as usize)?;
    let mut counts = copies(alloc, view.rows as usize, 0)?;
    let mut numbers = copies(alloc, view.columns as usize, 0)?;
    let mut search = Lazy::start(alloc, view)?;
    search.reduce(numbers.as_mut_slice(), counts.as_mut_slice());
    if search.run(&mut free, &mut left) {
        return Ok(Some(search.pairing));
    }
    Ok(None)
}

impl Marks {
    // Makes the marks of no search.
    fn start(alloc: Global, columns: usize) -> Result<Marks, NoMemory> {
        Ok(Marks {
            distances: copies(alloc, columns, 0)?,
            sources: copies(alloc, columns, NOWHERE)?,
            reached: copies(alloc, columns, 0)?,
            settled: copies(alloc, columns, 0)?,
            search: 0,
            floor: 0,
            end: NOWHERE,
            nearest: NOTHING,
        })
    }

    // Begins the next search.
    fn begin(&mut self) {
        self.search = self.search.wrapping_add(1);
        self.floor = NOTHING.wrapping_neg();
        self.end = NOWHERE;
        self.nearest = NOTHING;
    }

    // Returns whether a free column is as near as any column that isn't settled.
    #[inline(always)]
    fn is_done(&self) -> bool {
        self.nearest <= self.floor
    }

    // Reaches a column from a row, if that shortens its distance. Returns whether it did so and the
    // column isn't free.
    #[inline(always)]
    fn reach(&mut self, column: u32, distance: i64, row: u32, is_free: bool) -> bool {
        if distance >= self.nearest || at(&self.settled, column, self.search) == self.search {
            return false;
        }
        if at(&self.reached, column, 0) == self.search
            && distance >= at(&self.distances, column, 0)
        {
            return false;
        }
        put(&mut self.reached, column, self.search);
        put(&mut self.distances, column, distance);
        put(&mut self.sources, column, row);
        if is_free {
            self.nearest = distance;
            self.end = column;
        }
        !is_free
    }

    // Settles a column. Returns whether it wasn't settled before.
    #[inline(always)]
    fn settle(&mut self, column: u32) -> bool {
        let is_new = at(&self.settled, column, self.search) != self.search;
        put(&mut self.settled, column, self.search);
        is_new
    }
}

impl<'a> Lazy<'a> {
    // Makes the search before its first step.
    fn start(alloc: Global, view: View<'a>) -> Result<Lazy<'a>, NoMemory> {
        let columns = view.columns as usize;
        let room = columns.saturating_mul(4).saturating_add(view.rows as usize);
        Ok(Lazy {
            view,
            pairing: Pairing::start(alloc, view.rows, view.columns)?,
            lists: Lists::start(alloc, view.rows, view.columns)?,
            marks: Marks::start(alloc, columns)?,
            heap: Heap::start(alloc, room)?,
            stack: Pile::start(alloc, columns)?,
            settled: Pile::start(alloc, columns)?,
            heights: copies(alloc, view.rows as usize, 0)?,
            budget: u64::from(view.rows)
                .saturating_mul(u64::from(view.columns))
                .saturating_mul(LIST_READINGS),
        })
    }

    // Reduces columns, if the matrix is square.
    fn reduce(&mut self, numbers: &mut [i64], counts: &mut [u32]) {
        if self.view.is_square() {
            reduce_columns(self.view, &mut self.pairing, numbers, counts);
        }
    }

    // Runs the search. Returns whether all rows have a column.
    fn run(&mut self, free: &mut Pile, left: &mut Pile) -> bool {
        let rows = self.view.rows;
        self.pairing.pile_free(free);
        if self.view.is_square() {
            if is_hard(rows, free.len()) {
                return false;
            }
            self.transfer_all(free.len() >= rows / FEW_FREE);
        }
        assign_rows(self, free, left, rows)
    }

    // Lowers the price of each row's column until the row's second best column is as good
    // (reduction transfer). It makes lists for that, or scans whole rows.
    fn transfer_all(&mut self, makes_lists: bool) {
        'rows: for row in 0..self.view.rows {
            let column = self.pairing.column(row);
            if column != NOWHERE {
                let two = self.two_least(row, makes_lists);
                if two.column == column {
                    self.pairing.lower_to_second(two);
                }
            }
        }
    }

    // Returns the two least reduced costs of a row, from its list or from the whole row.
    #[inline(always)]
    fn two_least(&mut self, row: u32, makes_lists: bool) -> Two {
        if makes_lists {
            return self.lists.two_least(self.view, &self.pairing, row);
        }
        two_least(self.view.row(row), &self.pairing.prices)
    }

    // Takes a number of entries off the budget. Returns whether the budget had so many.
    fn pay(&mut self, entries: u64) -> bool {
        let allows = self.budget >= entries;
        self.budget = self.budget.saturating_sub(entries);
        allows
    }

    // Settles columns and scans rows until a free column is nearest. Returns false if the budget is
    // spent.
    fn find_end(&mut self) -> bool {
        'steps: for _ in 0..u64::MAX {
            if self.marks.is_done() {
                return true;
            }
            if let Some(column) = self.stack.pop() {
                if !self.settle(column) {
                    return false;
                }
                continue;
            }
            if self.heap.least() >= self.marks.nearest {
                return true;
            }
            let Some(entry) = self.heap.pop() else {
                return true;
            };
            if !self.take(entry) {
                return false;
            }
        }
        false
    }

    // Does the task of an entry of the heap. Returns false if the budget is spent.
    #[inline(always)]
    fn take(&mut self, entry: Entry) -> bool {
        match entry.task {
            Task::Row(row) => {
                self.marks.floor = self.marks.floor.max(entry.key);
                self.offer_whole(row)
            }
            Task::Column(column) => {
                if entry.key != at(&self.marks.distances, column, NOTHING) {
                    return true;
                }
                self.marks.floor = self.marks.floor.max(entry.key);
                self.settle(column)
            }
        }
    }

    // Settles a column, and offers distances from its row. Returns false if the budget is spent.
    #[inline(always)]
    fn settle(&mut self, column: u32) -> bool {
        if !self.marks.settle(column) {
            return true;
        }
        self.settled.add(column);
        let row = self.pairing.row(column);
        let distance = at(&self.marks.distances, column, 0);
        let reduced = self
            .view
            .cost(row, column)
            .wrapping_sub(self.pairing.price(column));
        self.offer_listed(row, reduced.wrapping_sub(distance));
        self.pay(SETTLED_ENTRIES.wrapping_mul(LIST_LENGTH as u64))
    }

    // Offers distances from a row to the columns of its list, and adds the row to the heap with the
    // bound of its other entries.
    #[inline(always)]
    fn offer_listed(&mut self, row: u32, height: i64) {
        put(&mut self.heights, row, height);
        if self.lists.length(row) == 0 {
            self.lists.build(self.view, &self.pairing, row);
        }
        'entries: for place in 0..self.lists.length(row) {
            let Listed { cost, column } = self.lists.get(row, place);
            let reduced = cost.wrapping_sub(self.pairing.price(column));
            self.offer(row, column, reduced.wrapping_sub(height));
        }
        let rest = self.lists.rest(row);
        let key = rest.wrapping_sub(height);
        if rest < NOTHING && key < self.marks.nearest {
            self.heap.add(Entry {
                key: key.max(self.marks.floor),
                task: Task::Row(row),
            });
        }
    }

    // Offers a column a distance from a row.
    #[inline(always)]
    fn offer(&mut self, row: u32, column: u32, distance: i64) {
        let is_free = self.pairing.row(column) == NOWHERE;
        if !self.marks.reach(column, distance, row, is_free) {
            return;
        }
        if distance <= self.marks.floor {
            self.stack.add(column);
        } else {
            self.heap.add(Entry {
                key: distance,
                task: Task::Column(column),
            });
        }
    }

    // Offers distances from a row to all columns, and makes a new list of the row. Returns false if
    // the budget is spent.
    fn offer_whole(&mut self, row: u32) -> bool {
        let height = at(&self.heights, row, 0);
        let blocks = self.lists.scan(self.view, &self.pairing, row);
        'blocks: for block in 0..blocks {
            let least = self.lists.block_least(block);
            if least < self.marks.nearest.wrapping_add(height) {
                let start = block.wrapping_mul(BLOCK as u32);
                self.offer_range(row, height, start, start.wrapping_add(BLOCK as u32));
                if self.marks.is_done() {
                    return true;
                }
            }
        }
        self.offer_range(
            row,
            height,
            blocks.wrapping_mul(BLOCK as u32),
            self.view.columns,
        );
        self.lists.build(self.view, &self.pairing, row);
        self.pay(u64::from(self.view.columns))
    }

    // Offers distances from a row to the columns `from..end`, none below the floor.
    fn offer_range(&mut self, row: u32, height: i64, from: u32, end: u32) {
        let entries = self.view.row(row);
        'columns: for column in from..end {
            let reduced = at(entries, column, NOTHING).wrapping_sub(self.pairing.price(column));
            let distance = reduced.wrapping_sub(height).max(self.marks.floor);
            self.offer(row, column, distance);
        }
    }

    // Augments the matching along the path from a free row to its end.
    fn turn(&mut self, free: u32) {
        let mut column = self.marks.end;
        'rows: for _ in 0..self.view.rows {
            let row = at(&self.marks.sources, column, NOWHERE);
            column = self.pairing.pair(row, column);
            if row == free {
                return;
            }
        }
    }
}

impl<'a> Bidder for Lazy<'a> {
    fn bid(&mut self, row: u32) -> Bid {
        let two = self.lists.two_least(self.view, &self.pairing, row);
        let has_lowered = two.least < two.second;
        let mut column = two.column;
        if has_lowered {
            self.pairing.lower_to_second(two);
        } else if self.pairing.row(column) != NOWHERE && two.second_column != NOWHERE {
            column = two.second_column;
        }
        Bid {
            loser: self.pairing.displace(row, column),
            has_lowered,
        }
    }
}

impl<'a> Augmenter for Lazy<'a> {
    fn augment(&mut self, free: u32) -> bool {
        self.heap.clear();
        self.stack.clear();
        self.settled.clear();
        self.marks.begin();
        self.offer_listed(free, 0);
        if !self.find_end() || self.heap.has_overflowed || self.marks.end == NOWHERE {
            return false;
        }
        lower_settled(
            &mut self.pairing,
            &self.settled,
            &self.marks.distances,
            self.marks.nearest,
        );
        self.turn(free);
        self.pay(PATH_ENTRIES)
    }
}
