//! Scans of whole rows, four entries at a time.
ghost use Rattle.std.specs.Prelude.{◌≡◌, ◌≤◌, length};

use mcf_columns::{narrow, put};
use std::simd::prelude::*;

/// Stands for a missing number: it is above all numbers that a scan compares.
pub const NOTHING: i64 = 1 << 62;

/// The distance of a column that isn't reached, above all others.
pub const UNREACHED: i64 = 1 << 60;

/// The number of columns in a block.
pub const BLOCK: usize = 16;

// Returns four reduced costs: the first four entries of a row minus the prices of their columns.
#[inline(always)]
fn four(row: &[i64], prices: &[i64]) -> i64x4
    requires row { 4 ≤ length row.now }
    requires prices { 4 ≤ length prices.now }
{
    i64x4::from_slice(row) - i64x4::from_slice(prices)
}

// Returns four numbers, each the least of four of the first 16 reduced costs.
#[inline(always)]
fn block_lanes(row: &[i64], prices: &[i64]) -> i64x4
    requires row { 16 ≤ length row.now }
    requires prices { 16 ≤ length prices.now }
{
    let front = four(row, prices).simd_min(four(&row[4..], &prices[4..]));
    let back = four(&row[8..], &prices[8..]).simd_min(four(&row[12..], &prices[12..]));
    front.simd_min(back)
}

/// Returns the least of the first 16 reduced costs.
#[inline(always)]
fn block_least(row: &[i64], prices: &[i64]) -> i64
    requires row { 16 ≤ length row.now }
    requires prices { 16 ≤ length prices.now }
{
    block_lanes(row, prices).reduce_min()
}

/// The least and the second least reduced cost of a row, with their columns.
#[derive(Clone, Copy)]
pub struct Two {
    pub least: i64,
    pub column: u32,
    pub second: i64,
    pub second_column: u32,
}

impl Two {
    /// Returns the value for a row without entries.
    pub fn none() -> Two {
        Two {
            least: NOTHING,
            column: u32::MAX,
            second: NOTHING,
            second_column: u32::MAX,
        }
    }

    /// Takes one more reduced cost, of a column, into account.
    #[inline(always)]
    pub fn take(&mut self, reduced: i64, column: u32) {
        if reduced >= self.second {
            return;
        }
        if reduced < self.least {
            self.second = self.least;
            self.second_column = self.column;
            self.least = reduced;
            self.column = column;
        } else {
            self.second = reduced;
            self.second_column = column;
        }
    }

    // Takes the reduced costs of the columns `from..end` into account.
    #[inline(always)]
    fn take_range(&mut self, row: &[i64], prices: &[i64], from: usize, end: usize)
        requires row { end ≤ length row.now }
        requires prices { end ≤ length prices.now }
    {
        'columns: for j in from..end {
            self.take(row[j].wrapping_sub(prices[j]), narrow(j));
        }
    }
}

/// Returns the two least reduced costs of a row.
#[inline(always)]
pub fn two_least(row: &[i64], prices: &[i64]) -> Two {
    let count = row.len().min(prices.len());
    let whole = count / BLOCK * BLOCK;
    let mut two = Two::none();
    'blocks: for block in 0..count / BLOCK {
        let start = block * BLOCK;
        if block_least(&row[start..], &prices[start..]) < two.second {
            two.take_range(row, prices, start, start + BLOCK);
        }
    }
    two.take_range(row, prices, whole, count);
    two
}

/// Returns the least reduced cost of a row, and the first column that has it. A row without entries
/// has `NOTHING` and `u32::MAX`.
#[inline(always)]
pub fn row_least(row: &[i64], prices: &[i64]) -> (i64, u32) {
    let count = row.len().min(prices.len());
    let whole = count / BLOCK * BLOCK;
    let mut least = NOTHING;
    let mut start = whole;
    'blocks: for block in 0..count / BLOCK {
        let here = block_least(&row[block * BLOCK..], &prices[block * BLOCK..]);
        if here < least {
            least = here;
            start = block * BLOCK;
        }
    }
    let (rest, place) = first_least(row, prices, whole, count);
    if rest < least {
        return (rest, place);
    }
    first_least(row, prices, start, start.saturating_add(BLOCK).min(count))
}

// Returns the least reduced cost of the columns `from..end`, and the first column that has it.
#[inline(always)]
fn first_least(row: &[i64], prices: &[i64], from: usize, end: usize) -> (i64, u32)
    requires row { end ≤ length row.now }
    requires prices { end ≤ length prices.now }
{
    let mut least = NOTHING;
    let mut place = u32::MAX;
    'columns: for j in from..end {
        let reduced = row[j].wrapping_sub(prices[j]);
        if reduced < least {
            least = reduced;
            place = narrow(j);
        }
    }
    (least, place)
}

/// Writes the least reduced cost of each whole block of columns, and returns the number of blocks
/// written.
#[inline(always)]
pub fn write_block_leasts(row: &[i64], prices: &[i64], leasts: &mut [i64]) -> usize {
    let count = (row.len().min(prices.len()) / BLOCK).min(leasts.len());
    'blocks: for block in 0..count {
        leasts[block] = block_least(&row[block * BLOCK..], &prices[block * BLOCK..]);
    }
    count
}

/// A row that offers distances to columns: its reduced costs minus `height`.
#[derive(Clone, Copy)]
pub struct RowOffer {
    pub row: i64,
    pub height: i64,
}

// Lets each of the first four columns take an offered distance that is less than its own. Returns
// their distances.
#[inline(always)]
fn offer_four(
    offer: RowOffer,
    row: &[i64],
    prices: &[i64],
    distances: &mut [i64],
    sources: &mut [i64],
) -> i64x4
    requires row { 4 ≤ length row.now }
    requires prices { 4 ≤ length prices.now }
    requires distances { 4 ≤ length distances.old }
    requires sources { 4 ≤ length sources.old }
    ensures distances { length distances.new ≡ length distances.old }
    ensures sources { length sources.new ≡ length sources.old }
{
    let offered = four(row, prices) - i64x4::splat(offer.height);
    let had = i64x4::from_slice(distances);
    let is_less = offered.simd_lt(had);
    let least = is_less.select(offered, had);
    least.copy_to_slice(distances);
    let source = is_less.select(i64x4::splat(offer.row), i64x4::from_slice(sources));
    source.copy_to_slice(sources);
    least
}

// Lets the first 16 columns take an offer. Returns the least of their distances.
#[inline(always)]
fn offer_block(
    offer: RowOffer,
    row: &[i64],
    prices: &[i64],
    distances: &mut [i64],
    sources: &mut [i64],
) -> i64
    requires row { 16 ≤ length row.now }
    requires prices { 16 ≤ length prices.now }
    requires distances { 16 ≤ length distances.old }
    requires sources { 16 ≤ length sources.old }
    ensures distances { length distances.new ≡ length distances.old }
    ensures sources { length sources.new ≡ length sources.old }
{
    let a = offer_four(offer, row, prices, distances, sources);
    let b = offer_four(
        offer,
        &row[4..],
        &prices[4..],
        &mut distances[4..],
        &mut sources[4..],
    );
    let c = offer_four(
        offer,
        &row[8..],
        &prices[8..],
        &mut distances[8..],
        &mut sources[8..],
    );
    let d = offer_four(
        offer,
        &row[12..],
        &prices[12..],
        &mut distances[12..],
        &mut sources[12..],
    );
    a.simd_min(b).simd_min(c.simd_min(d)).reduce_min()
}

// Lets a column take an offered distance that is less than its own. Returns its distance.
#[inline(always)]
fn offer_one(offer: RowOffer, reduced: i64, distance: &mut i64, source: &mut i64) -> i64 {
    let offered = reduced.wrapping_sub(offer.height);
    if offered < *distance {
        *distance = offered;
        *source = offer.row;
    }
    *distance
}

// Lets all columns, fewer than 16, take an offer. Returns the least of their distances.
#[inline(always)]
fn offer_rest(
    offer: RowOffer,
    row: &[i64],
    prices: &[i64],
    distances: &mut [i64],
    sources: &mut [i64],
) -> i64
    ensures distances { length distances.new ≡ length distances.old }
    ensures sources { length sources.new ≡ length sources.old }
{
    let count = row
        .len()
        .min(prices.len())
        .min(distances.len())
        .min(sources.len());
    let mut least = UNREACHED;
    'columns: for j in 0..count {
        let reduced = row[j].wrapping_sub(prices[j]);
        let here = offer_one(offer, reduced, &mut distances[j], &mut sources[j]);
        least = least.min(here);
    }
    least
}

/// Lets all columns take an offer: a distance that is less than a column's own replaces it, with
/// the row as its source. Writes the least distance of each block, and returns the least of all.
pub fn offer_all(
    offer: RowOffer,
    row: &[i64],
    prices: &[i64],
    distances: &mut [i64],
    sources: &mut [i64],
    leasts: &mut [i64],
) -> i64 {
    let count = row
        .len()
        .min(prices.len())
        .min(distances.len())
        .min(sources.len());
    let blocks = (count / BLOCK).min(leasts.len());
    let mut least = UNREACHED;
    'blocks: for block in 0..blocks {
        let start = block * BLOCK;
        let here = offer_block(
            offer,
            &row[start..],
            &prices[start..],
            &mut distances[start..],
            &mut sources[start..],
        );
        leasts[block] = here;
        least = least.min(here);
    }
    let start = blocks * BLOCK;
    let rest = offer_rest(
        offer,
        &row[start..],
        &prices[start..],
        &mut distances[start..],
        &mut sources[start..],
    );
    put(leasts, narrow(blocks), rest);
    least.min(rest)
}

// Lowers the price of each of the first four columns to the entry of a row, if that is less.
#[inline(always)]
fn lower_four(number: i64, row: &[i64], prices: &mut [i64], rows: &mut [i64])
    requires row { 4 ≤ length row.now }
    requires prices { 4 ≤ length prices.old }
    requires rows { 4 ≤ length rows.old }
    ensures prices { length prices.new ≡ length prices.old }
    ensures rows { length rows.new ≡ length rows.old }
{
    let entries = i64x4::from_slice(row);
    let had = i64x4::from_slice(prices);
    let is_less = entries.simd_lt(had);
    is_less.select(entries, had).copy_to_slice(prices);
    let taken = is_less.select(i64x4::splat(number), i64x4::from_slice(rows));
    taken.copy_to_slice(rows);
}

/// Lowers the price of each column to the entry of a row, if that is less, and writes the row's
/// number for the column then.
pub fn lower_prices(number: i64, row: &[i64], prices: &mut [i64], rows: &mut [i64]) {
    let count = row.len().min(prices.len()).min(rows.len());
    let whole = count / 4 * 4;
    'fours: for four in 0..count / 4 {
        let start = four * 4;
        lower_four(
            number,
            &row[start..],
            &mut prices[start..],
            &mut rows[start..],
        );
    }
    'columns: for j in whole..count {
        if row[j] < prices[j] {
            prices[j] = row[j];
            rows[j] = number;
        }
    }
}

/// Returns the greatest of the first `columns` entries of a row, or `i64::MIN` if there are none.
pub fn row_greatest(row: &[i64], columns: usize) -> i64 {
    let count = row.len().min(columns);
    let mut greatest = i64::MIN;
    'columns: for j in 0..count {
        let entry = row[j];
        greatest = if entry > greatest { entry } else { greatest };
    }
    greatest
}
