//! Whether prices show a matching, for whatever the costs are stored in.
ghost use Rattle.std.specs.Prelude.{◌≡◌, ◌<◌, ◌≤◌, ◌↔◌, ℕ, ℤ, List, false, IfOk, IsTrue, OnErr, count_by, length, min, nat_lt, slice_index};
ghost use Rattle.mcf_matrix.specs.Costs.{Costs, IsAllowed};
ghost use Rattle.mcf_matrix.specs.Judging.{HasLengths, IsGoodPair, IsPricedPlace};
ghost use Rattle.mcf_matrix.specs.Matchings.{IsLeastMatching, matching_cost, pair_count};
ghost use Rattle.mcf_matrix.specs.MatrixPrices.{AreNoneBelow, IsShownMatching, price_total};
ghost use Rattle.mcf_matrix.specs.PlaceSums.{at_place, is_marked};
ghost use Rattle.mcf_matrix.specs.Private.Pairing.{AreGoodPairs, IsMarking};

use mcf_text::{NoMemory, copies};
use std::alloc::Global;

/// A matrix with prices of its rows and columns, as the judges of assignments and plans read it.
pub trait Priced {
    // What each pair costs.
    ghost costs: { Self → Costs };

    // The prices, one for each row.
    ghost row_prices: { Self → List ℤ };

    // The prices, one for each column.
    ghost column_prices: { Self → List ℤ };

    // What is known of the prices before they are read.
    ghost IsReady: { Self → Type 0 };

    /// How many rows there are.
    fn row_count(&self) -> usize
        ensures { result ≡ (costs self.now).rows };

    /// How many columns there are.
    fn column_count(&self) -> usize
        ensures { result ≡ (costs self.now).columns };

    /// Whether the pair is allowed.
    fn is_allowed_pair(&self, row: usize, column: usize) -> bool
        requires row { row < (costs self.now).rows }
        requires column { column < (costs self.now).columns }
        ensures { IsTrue result ↔ IsAllowed (costs self.now) row column };

    /// Whether the pair is allowed, and its reduced cost is 0.
    fn is_good_pair(&self, row: usize, column: usize) -> bool
        requires ready { IsReady self.now }
        requires row { row < (costs self.now).rows }
        requires column { column < (costs self.now).columns }
        ensures { IsTrue result ↔ IsGoodPair (costs self.now) (row_prices self.now) (column_prices self.now) row column };

    /// Whether the price of a row isn't above 0, and is 0 if the row isn't matched.
    fn is_row_priced(&self, row: usize, is_matched: bool) -> bool
        requires ready { IsReady self.now }
        requires row { row < (costs self.now).rows }
        ensures { IsTrue result ↔ IsPricedPlace (at_place (row_prices self.now) row) is_matched };

    /// Whether the price of a column isn't above 0, and is 0 if the column isn't matched.
    fn is_column_priced(&self, column: usize, is_matched: bool) -> bool
        requires ready { IsReady self.now }
        requires column { column < (costs self.now).columns }
        ensures { IsTrue result ↔ IsPricedPlace (at_place (column_prices self.now) column) is_matched };

    /// Whether no allowed pair has a reduced cost below 0.
    fn has_none_below(&self) -> bool
        requires ready { IsReady self.now }
        ensures { IsTrue result ↔ AreNoneBelow (costs self.now) (row_prices self.now) (column_prices self.now) };
}

/// Whether the prices show that the matching is least (Kuhn 1955; Munkres 1957; Ahuja, Magnanti and
/// Orlin, Network Flows, section 12.4). The list has the column of each row; a number that is no
/// column's stands for none.
///
/// # Errors
/// `NoMemory` if there is no memory for a byte for each column.
pub fn shows<P: Priced>(alloc: Global, priced: &P, columns_of: &[u32]) -> Result<bool, NoMemory>
    requires ready { P.IsReady priced.now }
    requires lengths { HasLengths (P.costs priced.now).rows (P.costs priced.now).columns (length columns_of.now) (length (P.row_prices priced.now)) (length (P.column_prices priced.now)) }
    ensures exact { IfOk result (λ holds. IsTrue holds ↔ IsShownMatching (P.costs priced.now) columns_of.now (P.row_prices priced.now) (P.column_prices priced.now)) }
    ensures least { IfOk result (λ holds. IsTrue holds → IsLeastMatching (P.costs priced.now) columns_of.now) }
    ensures cost { IfOk result (λ holds. IsTrue holds → matching_cost (P.costs priced.now) columns_of.now ≡ price_total (P.costs priced.now) (P.row_prices priced.now) (P.column_prices priced.now)) }
    ensures wants { OnErr result (1 ≤ (P.costs priced.now).columns) }
{
    let mut seen = copies(alloc, priced.column_count(), false)?;
    let holds = is_shown(priced, columns_of, &mut seen);
    Ok(holds)
}

// Whether the prices show the matching, where the lists have their lengths and nothing is marked
// yet.
fn is_shown<P: Priced>(priced: &P, columns_of: &[u32], seen: &mut [bool]) -> bool
    requires ready { P.IsReady priced.now }
    requires lengths { HasLengths (P.costs priced.now).rows (P.costs priced.now).columns (length columns_of.now) (length (P.row_prices priced.now)) (length (P.column_prices priced.now)) }
    requires columns { length seen.old ≡ (P.costs priced.now).columns }
    requires none_seen { (j : ℕ) → j < (P.costs priced.now).columns → is_marked seen.old j ≡ false }
    ensures { IsTrue result ↔ IsShownMatching (P.costs priced.now) columns_of.now (P.row_prices priced.now) (P.column_prices priced.now) }
{
    if !pairs_hold(priced, columns_of, seen) {
        return false;
    }
    if !is_full(priced, columns_of) {
        return false;
    }
    if !columns_are_priced(priced, seen) {
        return false;
    }
    if !rows_are_priced(priced, columns_of) {
        return false;
    }
    priced.has_none_below()
}

// Marks the column of each row, and says whether the pairs are allowed, their reduced costs 0 and
// their columns distinct.
fn pairs_hold<P: Priced>(priced: &P, columns_of: &[u32], seen: &mut [bool]) -> bool
    requires ready { P.IsReady priced.now }
    requires rows { length columns_of.now ≡ (P.costs priced.now).rows }
    requires columns { length seen.old ≡ (P.costs priced.now).columns }
    requires none_seen { (j : ℕ) → j < (P.costs priced.now).columns → is_marked seen.old j ≡ false }
    ensures exact { IsTrue result ↔ AreGoodPairs (P.costs priced.now) columns_of.now (P.row_prices priced.now) (P.column_prices priced.now) }
    ensures marks { IsTrue result → IsMarking (P.costs priced.now) columns_of.now (P.costs priced.now).rows seen.new }
{
    for (row, column) in columns_of.iter().enumerate() {
        let column = *column as usize;
        if column < priced.column_count() {
            let is_good = priced.is_good_pair(row, column);
            if !is_good {
                return false;
            }
            if seen[column] {
                return false;
            }
            seen[column] = true;
        }
    }
    true
}

// How many of the numbers are those of a column.
fn count_pairs(columns_of: &[u32], columns: usize) -> usize
    ensures { result ≡ count_by (λ j. nat_lt j columns) columns_of.now }
{
    columns_of
        .iter()
        .filter(|column| (**column as usize) < columns)
        .count()
}

// Whether as many rows have a column as the smaller side has.
fn is_full<P: Priced>(priced: &P, columns_of: &[u32]) -> bool
    ensures { IsTrue result ↔ (pair_count (P.costs priced.now) columns_of.now ≡ min (P.costs priced.now).rows (P.costs priced.now).columns) }
{
    count_pairs(columns_of, priced.column_count()) == priced.row_count().min(priced.column_count())
}

// Where there are more columns than rows, whether no column's price is above 0 and those of free
// columns are 0.
fn columns_are_priced<P: Priced>(priced: &P, seen: &[bool]) -> bool
    requires ready { P.IsReady priced.now }
    requires seen { length seen.now ≡ (P.costs priced.now).columns }
    ensures { IsTrue result ↔ ((P.costs priced.now).rows < (P.costs priced.now).columns → (j : ℕ) → j < (P.costs priced.now).columns →
        IsPricedPlace (at_place (P.column_prices priced.now) j) (is_marked seen.now j)) }
{
    if priced.column_count() <= priced.row_count() {
        return true;
    }
    for (column, is_matched) in seen.iter().enumerate() {
        if !priced.is_column_priced(column, *is_matched) {
            return false;
        }
    }
    true
}

// Where there are more rows than columns, whether no row's price is above 0 and those of free rows
// are 0.
fn rows_are_priced<P: Priced>(priced: &P, columns_of: &[u32]) -> bool
    requires ready { P.IsReady priced.now }
    requires rows { length columns_of.now ≡ (P.costs priced.now).rows }
    ensures { IsTrue result ↔ ((P.costs priced.now).columns < (P.costs priced.now).rows → (i : ℕ) → i < (P.costs priced.now).rows →
        IsPricedPlace (at_place (P.row_prices priced.now) i) (nat_lt (slice_index columns_of.now i) (P.costs priced.now).columns)) }
{
    if priced.row_count() <= priced.column_count() {
        return true;
    }
    for (row, column) in columns_of.iter().enumerate() {
        let is_matched = (*column as usize) < priced.column_count();
        if !priced.is_row_priced(row, is_matched) {
            return false;
        }
    }
    true
}
