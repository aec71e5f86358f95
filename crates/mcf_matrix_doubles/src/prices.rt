//! Whether no reduced cost of a matrix of doubles is below 0.
ghost use Rattle.std.specs.Prelude.{◌≡◌, ◌-◌, ◌<◌, ◌≤◌, ◌^◌, ◌≤ℤ◌, ◌↔◌, ℕ, IsTrue, length};
ghost use Rattle.mcf_flows.specs.WellFormed.{IsUpTo};
ghost use Rattle.mcf_matrix.specs.MatrixPrices.{AreNoneBelow};
ghost use Rattle.mcf_matrix.specs.PlaceSums.{at_place};
ghost use Rattle.mcf_matrix_doubles.specs.DoublePrices.{AreSmallPrices, IsCovering, RowHolds, in_units};
ghost use Rattle.mcf_matrix_doubles.specs.DoubleTables.{double_costs};

use crate::double::{INFINITY, Scaled};
use crate::double_matrix::DoubleMatrix;
use crate::threshold::{SIGN, threshold};

// How far from 0 a price may lie.
const PRICES: i128 = (1 << 125) - 1;

/// Whether each price is less than 2^125 from 0, so that a sum of two can be compared.
pub fn are_small_prices(prices: &[i128]) -> bool
    ensures { IsTrue result ↔ AreSmallPrices prices.now }
{
    for price in prices {
        if *price < -PRICES {
            return false;
        }
        if PRICES < *price {
            return false;
        }
    }
    true
}

/// Whether no allowed pair has a reduced cost below 0, exactly. Prices are one for each row and one
/// for each column, in units of 2^unit, of which each is 2^-1074. It reads each entry once.
///
/// Most entries aren't below 0, and are at least the row's price plus the greatest of the columns:
/// it sees that by their bits. It compares the others in 128 bits.
pub fn none_below(
    matrix: &DoubleMatrix,
    row_prices: &[i128],
    column_prices: &[i128],
    unit: u32,
) -> bool
    requires rows { length row_prices.now ≡ matrix.now.rows }
    requires columns { length column_prices.now ≡ matrix.now.columns }
    requires row_prices { AreSmallPrices row_prices.now }
    requires column_prices { AreSmallPrices column_prices.now }
    ensures { IsTrue result ↔ AreNoneBelow (double_costs matrix.now) (in_units unit row_prices.now) (in_units unit column_prices.now) }
{
    let greatest = greatest_of(column_prices);
    for (row, price) in row_prices.iter().enumerate() {
        let least = threshold(*price + greatest, unit);
        if !row_holds(matrix.row(row), *price, column_prices, unit, least) {
            return false;
        }
    }
    true
}

// The greatest price, or the least that a price may be if there is none.
fn greatest_of(prices: &[i128]) -> i128
    requires { AreSmallPrices prices.now }
    ensures small { IsUpTo (2 ^ 125 - 1) result }
    ensures greatest { (j : ℕ) → j < length prices.now → at_place prices.now j ≤ℤ result }
{
    let mut greatest = -PRICES;
    for price in prices {
        if greatest < *price {
            greatest = *price;
        }
    }
    greatest
}

// Whether no reduced cost of a row is below 0. Doubles from the bits `least` on, up to those with a
// sign, are at least the sum of the row's price and each of the others.
fn row_holds(row: &[u64], price: i128, prices: &[i128], unit: u32, least: u64) -> bool
    requires lengths { length prices.now ≡ length row.now }
    requires price { IsUpTo (2 ^ 125 - 1) price }
    requires prices { AreSmallPrices prices.now }
    requires least { (j bits : ℕ) → j < length prices.now → least ≤ bits → bits < 2 ^ 63 → IsCovering bits price (at_place prices.now j) unit }
    ensures { IsTrue result ↔ RowHolds row.now price prices.now unit }
{
    let mut holds = true;
    for column in 0..row.len() {
        holds &= covers(row[column], price, prices[column], unit, least);
    }
    holds
}

// Whether the entry, if it allows its pair, is at least the sum of two prices. Doubles from the
// bits `least` on, up to those with a sign, are.
#[inline(always)]
fn covers(bits: u64, row_price: i128, column_price: i128, unit: u32, least: u64) -> bool
    requires row_price { IsUpTo (2 ^ 125 - 1) row_price }
    requires column_price { IsUpTo (2 ^ 125 - 1) column_price }
    requires least { (other : ℕ) → least ≤ other → other < 2 ^ 63 → IsCovering other row_price column_price unit }
    ensures { IsTrue result ↔ IsCovering bits row_price column_price unit }
{
    if least <= bits && bits < SIGN {
        return true;
    }
    covers_exactly(bits, row_price, column_price, unit)
}

// Whether the entry, if it allows its pair, is at least the sum of two prices.
#[inline(never)]
fn covers_exactly(bits: u64, row_price: i128, column_price: i128, unit: u32) -> bool
    requires row_price { IsUpTo (2 ^ 125 - 1) row_price }
    requires column_price { IsUpTo (2 ^ 125 - 1) column_price }
    ensures { IsTrue result ↔ IsCovering bits row_price column_price unit }
{
    if bits == INFINITY {
        return true;
    }
    Scaled::of(bits).is_at_least(row_price + column_price, unit)
}
