//! The judge of assignments of doubles.
ghost use Rattle.std.specs.Prelude.{◌≡◌, ◌≤◌, ◌^◌, ◌-◌, ◌↔◌, ◌-ℤ◌, ◌*ℤ◌, ◌≤ℤ◌, pos, false, IfOk, IsSomeAnd, IsTrue, OnErr, length, min};
ghost use Rattle.mcf_flows.specs.WellFormed.{IsUpTo};
ghost use Rattle.mcf_matrix.specs.Judging.{HasLengths, IsPricedPlace};
ghost use Rattle.mcf_matrix.specs.Matchings.{IsLeastMatching, matching_cost};
ghost use Rattle.mcf_matrix.specs.MatrixPrices.{IsShownMatching, price_total};
ghost use Rattle.mcf_matrix.specs.PlaceSums.{at_place};
ghost use Rattle.mcf_matrix_doubles.specs.DoublePrices.{AreReadyPrices, AreSmallPrices, in_units};
ghost use Rattle.mcf_matrix_doubles.specs.DoubleTables.{double_costs};
ghost use Rattle.mcf_matrix_doubles.specs.Doubles.{double_cost};
ghost use Rattle.mcf_matrix_doubles.specs.Rounding.{IsNearlyLeastMatching, cost_read, costs_read, most_lost};

use crate::double::{INFINITY, Scaled};
use crate::double_matrix::DoubleMatrix;
use crate::prices::{are_small_prices, none_below};
use mcf_matrix::{Priced, shows};
use mcf_text::NoMemory;
use std::alloc::Global;

/// Prices of the rows and columns of a matrix of doubles: whole numbers in units of 2^unit, of
/// which each is 2^-1074. If `is_rounded`, they are prices for the entries rounded down to such
/// units, and otherwise for the entries themselves.
#[derive(Clone, Copy)]
pub struct DoublePrices<'a> {
    pub rows: &'a [i128],
    pub columns: &'a [i128],
    pub unit: u32,
    pub is_rounded: bool,
}

/// A matrix of doubles with prices.
#[derive(Drop)]
pub(crate) struct PricedDoubles<'a> {
    pub(crate) matrix: &'a DoubleMatrix<'a>,
    pub(crate) row_prices: &'a [i128],
    pub(crate) column_prices: &'a [i128],
    pub(crate) unit: u32,
    pub(crate) is_rounded: bool,
}

impl<'a> Priced for PricedDoubles<'a> {
    ghost costs = { λ p. costs_read p.unit p.is_rounded (double_costs p.matrix.now) };

    ghost row_prices = { λ p. in_units p.unit p.row_prices.now };

    ghost column_prices = { λ p. in_units p.unit p.column_prices.now };

    ghost IsReady = { λ p. AreReadyPrices p.matrix.now.rows p.matrix.now.columns p.row_prices.now p.column_prices.now };

    #[inline(always)]
    fn row_count(&self) -> usize {
        self.matrix.rows()
    }

    #[inline(always)]
    fn column_count(&self) -> usize {
        self.matrix.columns()
    }

    #[inline(always)]
    fn is_allowed_pair(&self, row: usize, column: usize) -> bool {
        self.matrix.entry(row, column) != INFINITY
    }

    #[inline(always)]
    fn is_good_pair(&self, row: usize, column: usize) -> bool {
        let bits = self.matrix.entry(row, column);
        let (row_price, column_price) = (self.row_prices[row], self.column_prices[column]);
        is_good_entry(bits, row_price, column_price, self.unit, self.is_rounded)
    }

    #[inline(always)]
    fn is_row_priced(&self, row: usize, is_matched: bool) -> bool {
        is_priced(self.row_prices[row], is_matched)
    }

    #[inline(always)]
    fn is_column_priced(&self, column: usize, is_matched: bool) -> bool {
        is_priced(self.column_prices[column], is_matched)
    }

    fn has_none_below(&self) -> bool {
        none_below(self.matrix, self.row_prices, self.column_prices, self.unit)
    }
}

/// Whether the prices show that the matching is least, exactly (Kuhn 1955; Munkres 1957; Ahuja,
/// Magnanti and Orlin, Network Flows, section 12.4): each finite double is the number that its bits
/// stand for, and +infinity forbids its pair.
///
/// The list has the column of each row; a number that is no column's stands for none. The prices
/// are one for each row and one for each column, each less than 2^125 units from 0. Lists of other
/// lengths and greater prices are refused. It reads each entry of the matrix once.
///
/// If the entries are rounded down to units, the matching is least for these multiples. Then no
/// matching costs less by as much as one unit a pair.
///
/// # Errors
/// `NoMemory` if there is no memory for a byte for each column.
pub fn judge_assignment(
    alloc: Global,
    matrix: &DoubleMatrix,
    columns_of: &[u32],
    prices: &DoublePrices,
) -> Result<bool, NoMemory>
    ensures exact { IfOk result (λ holds. IsTrue holds ↔ (AreSmallPrices prices.now.rows.now × AreSmallPrices prices.now.columns.now
        × IsShownMatching (costs_read prices.now.unit prices.now.is_rounded (double_costs matrix.now)) columns_of.now (in_units prices.now.unit prices.now.rows.now) (in_units prices.now.unit prices.now.columns.now))) }
    ensures least { IfOk result (λ holds. IsTrue holds → IsLeastMatching (costs_read prices.now.unit prices.now.is_rounded (double_costs matrix.now)) columns_of.now) }
    ensures near { IfOk result (λ holds. IsTrue holds → IsNearlyLeastMatching (double_costs matrix.now) columns_of.now
        (most_lost prices.now.unit prices.now.is_rounded (pos (min matrix.now.rows matrix.now.columns)))) }
    ensures cost { IfOk result (λ holds. IsTrue holds → matching_cost (costs_read prices.now.unit prices.now.is_rounded (double_costs matrix.now)) columns_of.now
        ≡ price_total (double_costs matrix.now) (in_units prices.now.unit prices.now.rows.now) (in_units prices.now.unit prices.now.columns.now)) }
    ensures wants { OnErr result (1 ≤ matrix.now.columns) }
{
    let DoublePrices {
        rows,
        columns,
        unit,
        is_rounded,
    } = *prices;
    if !has_lengths(matrix, columns_of.len(), rows.len(), columns.len()) {
        return Ok(false);
    }
    if !are_small_prices(rows) {
        return Ok(false);
    }
    if !are_small_prices(columns) {
        return Ok(false);
    }
    let priced = PricedDoubles {
        matrix,
        row_prices: rows,
        column_prices: columns,
        unit,
        is_rounded,
    };
    shows(alloc, &priced, columns_of)
}

// Whether there is an entry for each row, a price for each row and a price for each column.
fn has_lengths(matrix: &DoubleMatrix, rows: usize, row_prices: usize, column_prices: usize) -> bool
    ensures { IsTrue result ↔ HasLengths matrix.now.rows matrix.now.columns rows row_prices column_prices }
{
    rows == matrix.rows() && row_prices == matrix.rows() && column_prices == matrix.columns()
}

// Whether the entry allows its pair, and is the sum of two prices: exactly, or rounded down to
// units.
fn is_good_entry(
    bits: u64,
    row_price: i128,
    column_price: i128,
    unit: u32,
    is_rounded: bool,
) -> bool
    requires row_price { IsUpTo (2 ^ 125 - 1) row_price }
    requires column_price { IsUpTo (2 ^ 125 - 1) column_price }
    ensures { IsTrue result ↔ IsSomeAnd (cost_read unit is_rounded (double_cost bits)) (λ c. c -ℤ row_price *ℤ pos (2 ^ unit) -ℤ column_price *ℤ pos (2 ^ unit) ≡ pos 0) }
{
    if bits == INFINITY {
        return false;
    }
    let sum = row_price + column_price;
    let entry = Scaled::of(bits);
    if is_rounded {
        return entry.is_rounded(sum, unit);
    }
    entry.is_exactly(sum, unit)
}

// Whether the price isn't above 0, and is 0 where the place is free.
fn is_priced(price: i128, is_matched: bool) -> bool
    ensures { IsTrue result ↔ IsPricedPlace price is_matched }
{
    price <= 0 && (is_matched || price == 0)
}
