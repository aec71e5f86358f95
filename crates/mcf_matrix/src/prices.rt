//! The test of a whole matrix for reduced costs below 0.
ghost use Rattle.std.specs.Prelude.{◌≡◌, ◌<◌, ◌≤◌, ◌↔◌, ◌^◌, ℕ, pos, ◌≤ℤ◌, ◌-ℤ◌, IfSome, IsTrue, length, neg_ℤ, slice_index_or};
ghost use Rattle.std.specs.List.{All};
ghost use Rattle.mcf_flows.specs.WellFormed.{IsUpTo};
ghost use Rattle.mcf_matrix.specs.MatrixPrices.{AreNoneBelow};
ghost use Rattle.mcf_matrix.specs.PlaceSums.{at_place};
ghost use Rattle.mcf_matrix.specs.Private.Narrow.{IsNarrow, RowHolds};
ghost use Rattle.mcf_matrix.specs.Tables.{cost_of, whole_costs};

use crate::matrix::{FORBIDDEN, Matrix};

// The greatest absolute value of a price such that the sum of two fits 64 bits.
const NARROW: i64 = (1 << 62) - 1;

// Returns whether the absolute values of all prices are so small that the sum of two fits 64 bits.
fn are_narrow(prices: &[i64]) -> bool
    ensures { IsTrue result → (j : ℕ) → j < length prices.now → IsNarrow (at_place prices.now j) }
{
    let mut narrow = true;
    for price in prices {
        narrow &= -NARROW <= *price && *price <= NARROW;
    }
    narrow
}

// Returns whether the pair is forbidden or its cost is at least the sum of two prices, which fits
// 64 bits.
#[inline(always)]
fn covers_narrow(cost: i64, row_price: i64, column_price: i64) -> bool
    requires row_price { IsNarrow row_price }
    requires column_price { IsNarrow column_price }
    ensures { IsTrue result ↔ IfSome (cost_of cost) (λ c. pos 0 ≤ℤ (c -ℤ row_price -ℤ column_price)) }
{
    row_price + column_price <= cost
}

// Returns whether no reduced cost of a row is below 0, if sums of two prices fit 64 bits.
fn narrow_row_holds(row: &[i64], price: i64, prices: &[i64]) -> bool
    requires lengths { length prices.now ≡ length row.now }
    requires price { IsNarrow price }
    requires prices { (j : ℕ) → j < length prices.now → IsNarrow (at_place prices.now j) }
    ensures { IsTrue result ↔ RowHolds row.now price prices.now }
{
    let mut holds = true;
    for column in 0..row.len() {
        holds &= covers_narrow(row[column], price, prices[column]);
    }
    holds
}

// Returns a reduced cost: the cost minus both prices.
#[inline(always)]
fn reduced(cost: i64, row_price: i64, column_price: i64) -> i128
    ensures { result ≡ cost -ℤ row_price -ℤ column_price }
{
    i128::from(cost) - i128::from(row_price) - i128::from(column_price)
}

/// Returns whether the reduced cost is 0.
pub(crate) fn is_tight(cost: i64, row_price: i64, column_price: i64) -> bool
    ensures { IsTrue result ↔ (cost -ℤ row_price -ℤ column_price ≡ pos 0) }
{
    let left = reduced(cost, row_price, column_price);
    0 <= left && left <= 0
}

// Returns whether the pair is forbidden or its cost is at least the sum of two prices.
#[inline(always)]
fn covers_wide(cost: i64, row_price: i64, column_price: i64) -> bool
    ensures { IsTrue result ↔ IfSome (cost_of cost) (λ c. pos 0 ≤ℤ (c -ℤ row_price -ℤ column_price)) }
{
    cost == FORBIDDEN || 0 <= reduced(cost, row_price, column_price)
}

// Returns whether no reduced cost of a row is below 0.
fn wide_row_holds(row: &[i64], price: i64, prices: &[i64]) -> bool
    requires { length prices.now ≡ length row.now }
    ensures { IsTrue result ↔ RowHolds row.now price prices.now }
{
    let mut holds = true;
    for column in 0..row.len() {
        holds &= covers_wide(row[column], price, prices[column]);
    }
    holds
}

// Returns whether no reduced cost of a row is below 0. It computes in 64 bits if `narrow` says that
// the prices of columns allow it, and the row's price does.
fn row_holds(row: &[i64], price: i64, prices: &[i64], narrow: bool) -> bool
    requires lengths { length prices.now ≡ length row.now }
    requires narrow { IsTrue narrow → (j : ℕ) → j < length prices.now → IsNarrow (at_place prices.now j) }
    ensures { IsTrue result ↔ RowHolds row.now price prices.now }
{
    if narrow && -NARROW <= price && price <= NARROW {
        narrow_row_holds(row, price, prices)
    } else {
        wide_row_holds(row, price, prices)
    }
}

/// Returns whether no allowed pair has a reduced cost below 0. There must be a price for each row
/// and each column.
pub(crate) fn none_below(matrix: &Matrix, row_prices: &[i64], column_prices: &[i64]) -> bool
    requires rows { length row_prices.now ≡ matrix.now.rows }
    requires columns { length column_prices.now ≡ matrix.now.columns }
    ensures { IsTrue result ↔ AreNoneBelow (whole_costs matrix.now) row_prices.now column_prices.now }
{
    let narrow = are_narrow(column_prices);
    for (row, price) in row_prices.iter().enumerate() {
        if !row_holds(matrix.row(row), *price, column_prices, narrow) {
            return false;
        }
    }
    true
}
