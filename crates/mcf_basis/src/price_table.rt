//! A price for each node: in 64 bits if every price of every basis of the net fits, as it is or
//! nearer to 0 by a gap; otherwise in 128.

ghost use Rattle.std.specs.Prelude.{◌≡◌, ℕ, ◌+◌, ◌-◌, ◌^◌, ◌<◌, ◌≤◌, List, drop, length, map, get_or, pos, neg_ℤ, ◌≤ℤ◌};
ghost use Rattle.mcf_flows.specs.WellFormed.{IsUpTo};
ghost use Rattle.mcf_basis.specs.Private.Columns.{gap_of, limit_of, priced_in, prices_in};
ghost use Rattle.mcf_basis.specs.Private.Gaps.{IsShown, change_by, price_by};
ghost use Rattle.mcf_basis.specs.Private.Layouts.{change_limit, narrow_limit};
ghost use Rattle.mcf_basis.specs.Private.Offered.{CanCompareIn, CanReduce, IsLeastOffer, reduced_by};
ghost use Rattle.mcf_basis.specs.Private.Turned.{AreRaised, CanReprice};
ghost use Rattle.mcf_basis.specs.Structures.{price_limit, reduced_limit};

use crate::least_offer::least_offer;
use crate::offer::ArcOffer;
use crate::reprice::reprice;
use mcf_numbers::{Column, Number};
use mcf_text::NodeId;
use std::marker::Model;

/// What a stored price has in place of the artificial cost, if there is a gap.
pub(crate) const STAND_IN: i128 = 2_000_000_000_000_000_000;

/// The prices, and the number of writes.
///
/// A loop over them tests once in which size they are stored, and then runs over numbers of one
/// size.
#[derive(Drop)]
pub struct PriceTable {
    column: PriceColumn,
}

// The same prices, in one of two sizes. In 64 bits each is nearer to 0 by a gap, which is 0 unless
// they need one.
#[derive(Drop)]
enum PriceColumn {
    Narrow(Column<Number<i64>>, u128),
    Wide(Column<Number<i128>>),
}

impl Model for PriceTable {
    ghost use Rattle.mcf_basis.specs.Private.Layouts.{Prices};

    ghost Value = { Prices };

    ghost use Rattle.std.specs.Prelude.{◌≤◌};
    ghost use Rattle.mcf_basis.specs.Private.Columns.{gap_of, limit_of, priced_in, prices_in};
    ghost use Rattle.mcf_basis.specs.Structures.{price_limit};

    ghost view = { λ t. record { prices = prices_in t.column; priced = priced_in t.column; limit = limit_of t.column; gap = gap_of t.column } };

    ghost invariant = { λ t. gap_of t.column ≤ price_limit };
}

impl PriceTable {
    /// A table of prices in 64 bits, each nearer to 0 by this gap; none counts as written.
    pub fn narrow(prices: Vec<Number<i64>>, gap: u128) -> PriceTable
        requires { gap ≤ price_limit }
        ensures { result ≡ record { prices = map (price_by gap) prices.items; priced = 0; limit = narrow_limit + gap; gap = gap } }
    {
        PriceTable {
            column: PriceColumn::Narrow(Column::new(prices), gap),
        }
    }

    /// A table of prices that may need 128 bits.
    pub fn wide(prices: Vec<Number<i128>>) -> PriceTable
        ensures { result ≡ record { prices = prices.items; priced = 0; limit = price_limit; gap = 0 } }
    {
        PriceTable {
            column: PriceColumn::Wide(Column::new(prices)),
        }
    }

    /// The price of a node.
    pub fn get(&self, v: usize) -> i128
        requires { v < length self.now.prices }
        ensures { result ≡ get_or self.now.prices v (pos 0) }
    {
        match &self.column {
            PriceColumn::Narrow(prices, gap) => price_by(prices.entries()[v], *gap),
            PriceColumn::Wide(prices) => prices.entries()[v].wide(),
        }
    }

    /// The reduced cost of an offer.
    #[inline(always)]
    pub fn reduced(&self, offer: ArcOffer) -> i128
        requires { CanReduce self.now.prices offer }
        ensures value { result ≡ reduced_by self.now.prices offer }
        ensures small { IsUpTo reduced_limit result }
    {
        i128::from(offer.cost) - self.get(offer.from as usize) + self.get(offer.to as usize)
    }

    /// Of the offers from place `begin` up to but not including `end`, the first one of least
    /// reduced cost, if that is below 0.
    pub fn least_offer(&self, offers: &[ArcOffer], begin: usize, end: usize) -> Option<usize>
        requires compare { CanCompareIn self.now offers.now }
        requires order { begin ≤ end }
        requires high { end ≤ length offers.now }
        ensures { IsLeastOffer self.now.prices offers.now begin end result }
    {
        match &self.column {
            PriceColumn::Narrow(prices, _) => least_offer(offers, prices.entries(), begin, end),
            PriceColumn::Wide(prices) => least_offer(offers, prices.entries(), begin, end),
        }
    }

    /// Writes the prices of the nodes without the root.
    pub fn write_nodes(&self, prices: &mut [i128])
        requires { length self.now.prices ≡ length prices.old + 1 }
        ensures { prices.new ≡ drop 1 self.now.prices }
    {
        for i in 0..prices.len() {
            prices[i] = self.get(i + 1);
        }
    }

    /// Adds a change to the prices of listed nodes, each listed once.
    pub fn reprice(&mut self, part: &[NodeId], change: i128)
        requires { CanReprice part.now change self.old }
        ensures prices { AreRaised part.now change self.old.prices self.new.prices }
        ensures priced { self.new.priced ≡ self.old.priced + length part.now }
        ensures limit { self.new.limit ≡ self.old.limit }
        ensures gap { self.new.gap ≡ self.old.gap }
    {
        reprice_column(&mut self.column, part, change);
    }
}

// Adds a change to the prices of listed nodes.
fn reprice_column(column: &mut PriceColumn, part: &[NodeId], change: i128)
    requires change { CanReprice part.now change (record { prices = prices_in column.old; priced = priced_in column.old; limit = limit_of column.old; gap = gap_of column.old }) }
    requires gap { gap_of column.old ≤ price_limit }
    ensures prices { AreRaised part.now change (prices_in column.old) (prices_in column.new) }
    ensures limit { limit_of column.new ≡ limit_of column.old }
    ensures gap { gap_of column.new ≡ gap_of column.old }
    ensures counted { priced_in column.new ≡ priced_in column.old + length part.now }
{
    match column {
        PriceColumn::Narrow(prices, gap) => {
            let change = stored_change(change, *gap) as i64;
            reprice(prices, part, Number::of(change));
        }
        PriceColumn::Wide(prices) => reprice(prices, part, Number::of_wide(change)),
    }
}

// The price that is stored with this gap.
fn price_by(stored: Number<i64>, gap: u128) -> i128
    requires { gap ≤ price_limit }
    ensures { result ≡ price_by gap stored }
{
    let stored = stored.wide();
    if 0 < stored {
        stored + gap as i128
    } else if stored < 0 {
        stored - gap as i128
    } else {
        stored
    }
}

// The change of stored prices by which prices change so: where a price comes from one side of 0 to
// the other, it crosses the gap twice.
fn stored_change(change: i128, gap: u128) -> i128
    requires change { IsShown gap (change_limit narrow_limit) change }
    requires gap { gap ≤ price_limit }
    ensures value { change ≡ change_by gap result }
    ensures small { IsUpTo (change_limit narrow_limit) result }
{
    if STAND_IN < change {
        change - 2 * gap as i128
    } else if change < -STAND_IN {
        change + 2 * gap as i128
    } else {
        change
    }
}
