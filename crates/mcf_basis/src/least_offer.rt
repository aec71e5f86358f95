//! The most violated of some offers: the loop in which the simplex scans arcs.
ghost use Rattle.std.specs.Prelude.{◌≡◌, ◌<◌, ◌≤◌, if◌then◌else◌, length};
ghost use Rattle.std.specs.Ordering.{int_cmp, is_lt};
ghost use Rattle.mcf_basis.specs.Private.Layouts.{limit_in};
ghost use Rattle.mcf_basis.specs.Private.Offered.{CanCompare, IsLeastOffer, reduced_of};

use crate::offer::ArcOffer;
use mcf_numbers::{Number, Width};

// The least reduced cost so far, and the first place that has it; 0, if none was below 0.
#[derive(Drop)]
struct Best<W: Width> {
    place: usize,
    reduced: Number<W>,
}

/// Of the offers from place `begin` up to but not including `end`, the first one of least reduced
/// cost, if that is below 0.
pub(crate) fn least_offer<W: Width>(
    offers: &[ArcOffer],
    prices: &[Number<W>],
    begin: usize,
    end: usize,
) -> Option<usize>
    requires compare { CanCompare prices.now (limit_in W.room) offers.now }
    requires order { begin ≤ end }
    requires high { end ≤ length offers.now }
    ensures { IsLeastOffer prices.now offers.now begin end result }
{
    let mut best = Best {
        place: begin,
        reduced: Number::of(0),
    };
    // two offers a turn: the kit's compiler doesn't unroll loops
    'pairs: for pair in 0..(end - begin) / 2 {
        let i = begin + 2 * pair;
        best = best.or_less(reduced_at(offers, prices, i), i);
        best = best.or_less(reduced_at(offers, prices, i + 1), i + 1);
    }
    if (end - begin) % 2 == 1 {
        best = best.or_less(reduced_at(offers, prices, end - 1), end - 1);
    }
    if best.reduced < Number::of(0) {
        Some(best.place)
    } else {
        None
    }
}

// The reduced cost of the offer at a place.
#[inline(always)]
fn reduced_at<W: Width>(offers: &[ArcOffer], prices: &[Number<W>], i: usize) -> Number<W>
    requires compare { CanCompare prices.now (limit_in W.room) offers.now }
    requires place { i < length offers.now }
    ensures { result ≡ reduced_of prices.now offers.now i }
{
    let offer = offers[i];
    Number::of(offer.cost)
        .minus(prices[offer.from as usize])
        .plus(prices[offer.to as usize])
}

impl<W: Width> Best<W> {
    // This one, or the next one if its reduced cost is less.
    #[inline(always)]
    fn or_less(self, reduced: Number<W>, place: usize) -> Best<W>
        ensures reduced { result.reduced ≡ if is_lt (int_cmp reduced self.reduced) then reduced else self.reduced }
        ensures place { result.place ≡ if is_lt (int_cmp reduced self.reduced) then place else self.place }
    {
        if reduced < self.reduced {
            Best { place, reduced }
        } else {
            self
        }
    }
}
