//! Whole costs with whole prices, as the judges of assignments and plans read them.
ghost use Rattle.std.specs.Prelude.{◌≡◌, ◌≤◌, ◌↔◌, ◌≤ℤ◌, ◌-ℤ◌, pos, false, IsSomeAnd, IsTrue, length};
ghost use Rattle.mcf_matrix.specs.Judging.{IsPricedPlace};
ghost use Rattle.mcf_matrix.specs.Tables.{whole_costs};

use crate::matrix::Matrix;
use crate::prices::{is_tight, none_below};
use crate::showing::Priced;

/// A matrix of whole costs with whole prices.
#[derive(Drop)]
pub(crate) struct WholePrices<'a> {
    pub(crate) matrix: &'a Matrix<'a>,
    pub(crate) row_prices: &'a [i64],
    pub(crate) column_prices: &'a [i64],
}

impl<'a> Priced for WholePrices<'a> {
    ghost costs = { λ p. whole_costs p.matrix.now };

    ghost row_prices = { λ p. p.row_prices.now };

    ghost column_prices = { λ p. p.column_prices.now };

    ghost IsReady = { λ p. (length p.row_prices.now ≡ p.matrix.now.rows) × (length p.column_prices.now ≡ p.matrix.now.columns) };

    #[inline(always)]
    fn row_count(&self) -> usize {
        self.matrix.rows()
    }

    #[inline(always)]
    fn column_count(&self) -> usize {
        self.matrix.columns()
    }

    #[inline(always)]
    fn is_allowed_pair(&self, row: usize, column: usize) -> bool {
        self.matrix.cost(row, column).is_some()
    }

    #[inline(always)]
    fn is_good_pair(&self, row: usize, column: usize) -> bool {
        let cost = self.matrix.cost(row, column);
        is_good_pair(cost, self.row_prices[row], self.column_prices[column])
    }

    #[inline(always)]
    fn is_row_priced(&self, row: usize, is_matched: bool) -> bool {
        is_priced(self.row_prices[row], is_matched)
    }

    #[inline(always)]
    fn is_column_priced(&self, column: usize, is_matched: bool) -> bool {
        is_priced(self.column_prices[column], is_matched)
    }

    fn has_none_below(&self) -> bool {
        none_below(self.matrix, self.row_prices, self.column_prices)
    }
}

// Whether the pair is allowed, and its reduced cost is 0.
fn is_good_pair(cost: Option<i64>, row_price: i64, column_price: i64) -> bool
    ensures { IsTrue result ↔ IsSomeAnd cost (λ c. c -ℤ row_price -ℤ column_price ≡ pos 0) }
{
    match cost {
        Some(cost) => is_tight(cost, row_price, column_price),
        None => false,
    }
}

// Whether the price isn't above 0, and is 0 where the place is free.
fn is_priced(price: i64, is_matched: bool) -> bool
    ensures { IsTrue result ↔ IsPricedPlace price is_matched }
{
    price <= 0 && (is_matched || price == 0)
}
