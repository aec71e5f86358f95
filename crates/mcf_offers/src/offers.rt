//! The queued offers of a search.
ghost use Rattle.std.specs.Prelude.{◌≡◌, ◌<◌, ◌≤◌, ◌≤ℤ◌, ◌∷◌, [], IfNone, IfOk, IfSome, IsSome, OnErr, length};
ghost use Rattle.std.specs.Bool.{MatchBool};
ghost use Rattle.std.proofs.Common.{refl, rules};
ghost use Rattle.std.specs.Cmp.{partial_order_from_own_ties};
ghost use Rattle.std.specs.Cmp.Rules.{comparing};
ghost use Rattle.std.specs.List.{All};
ghost use Rattle.std.specs.List.Sorted.{IsPermutation};
ghost use Rattle.std.specs.Ordering.{as_partial_cmp, flip_args, int_cmp, int_eq, on};

use mcf_numbers::{Number, Width};
use mcf_text::NoMemory;
use std::alloc::Global;
use std::cmp::Ordering;
use std::collections::BinaryHeap;
use std::marker::Model;

/// A distance that an arc offers its column (a tentative distance). Of two offers the nearer one is
/// the greater.
#[derive(Drop)]
pub struct Offer<W: Width> {
    pub dist: Number<W>,
    pub column: u32,
    pub arc: u32,
}

impl<W: Width> Model for Offer<W> {
    ghost use Rattle.mcf_offers.specs.Offers.{Offer};

    ghost Value = { Offer };

    ghost view = { λ o. record { dist = o.dist; column = o.column; arc = o.arc } };
}

impl<W: Width> PartialEq for Offer<W> {
    ghost eq = { on (λ o. o.dist) int_eq };

    ghost laws = { Prim.search (comparing, rules) };

    fn eq(&self, other: &Offer<W>) -> bool {
        self.dist == other.dist
    }
}

impl<W: Width> Eq for Offer<W> {
    ghost laws = { Prim.search (comparing, rules) };
}

impl<W: Width> PartialOrd for Offer<W> {
    ghost partial_cmp = { as_partial_cmp (flip_args (on (λ o. o.dist) int_cmp)) };

    ghost laws = { partial_order_from_own_ties (Prim.search (comparing, rules)) (Prim.search (comparing, rules)) };

    fn partial_cmp(&self, other: &Offer<W>) -> Option<Ordering> {
        Some(self.cmp(other))
    }
}

impl<W: Width> Ord for Offer<W> {
    ghost cmp = { flip_args (on (λ o. o.dist) int_cmp) };

    ghost total = { Prim.search (comparing, rules) };

    ghost matches_partial_cmp = { Prim.search (comparing, rules) };

    ghost matches_eq = { Prim.search (comparing, rules) };

    fn cmp(&self, other: &Offer<W>) -> Ordering {
        other.dist.cmp(&self.dist)
    }
}

/// The queued offers of a search: the nearest comes first.
///
/// The nearest are on a stack, the others in a heap: an offer that is no farther than the last one
/// on the stack goes onto it. After an update of the prices many arcs of a row have reduced cost 0,
/// and what they offer is as near as the row itself: such an offer needn't go through the heap.
///
/// `new` allocates everything. Clauses see the offers in no order, and for how many there is space.
#[derive(Drop)]
pub struct Offers<W: Width> {
    near: Vec<Offer<W>>,
    heap: BinaryHeap<Offer<W>>,
}

impl<W: Width> Model for Offers<W> {
    ghost use Rattle.mcf_offers.specs.Offers.{Queue};
    ghost use Rattle.mcf_offers.specs.Private.Stacking.{IsStack};

    ghost Value = { Queue };

    ghost use Rattle.std.specs.Prelude.{◌++◌};
    ghost use Rattle.std.specs.BinaryHeap.{IsHeap, heap_capacity, heap_items};
    ghost use Rattle.std.specs.Ordering.{flip_args, int_cmp, on};

    ghost view = { λ q. record { items = q.near.items ++ heap_items q.heap; room = heap_capacity q.heap } };

    ghost invariant = { λ q. IsStack q.near.items × IsHeap (flip_args (on (λ o. o.dist) int_cmp)) (heap_items q.heap) };
}

impl<W: Width> Offers<W> {
    /// Space for this many offers, none of which is queued, and for some of them on the stack.
    ///
    /// # Errors
    ///
    /// `NoMemory` if an allocation is refused; space for none needs none.
    pub fn new(alloc: Global, near: usize, room: usize) -> Result<Offers<W>, NoMemory>
        ensures none { IfOk result (λ q. q.items ≡ []) }
        ensures room { IfOk result (λ q. room ≤ q.room) }
        ensures wants { OnErr result (1 ≤ room) }
    {
        let near = Vec::with_capacity(alloc, near.min(room))?;
        let mut heap = BinaryHeap::new(alloc);
        heap.reserve(room)?;
        Ok(Offers { near, heap })
    }

    /// Queues an offer.
    #[inline(always)]
    pub fn put(&mut self, offer: Offer<W>)
        requires { length self.old.items < self.old.room }
        ensures items { IsPermutation (offer ∷ self.old.items) self.new.items }
        ensures room { self.old.room ≤ self.new.room }
    {
        if comes_before(&offer, self.near.last()) && self.near.len() < self.near.capacity() {
            self.near.push_reserved(offer);
        } else {
            let _ = self.heap.push(offer);
        }
    }

    /// Takes the offer that comes first, if any is queued.
    pub fn take(&mut self) -> Option<Offer<W>>
        ensures items { IfSome result (λ o. IsPermutation self.old.items (o ∷ self.new.items)) }
        ensures least { IfSome result (λ o. All (λ p. o.dist ≤ℤ p.dist) self.new.items) }
        ensures none { IfNone result (self.new.items ≡ []) }
        ensures same { IfNone result (self.old.items ≡ []) }
        ensures room { self.old.room ≤ self.new.room }
    {
        let Some(top) = self.near.last() else {
            return self.heap.pop();
        };
        if comes_before(top, self.heap.peek()) {
            self.near.pop()
        } else {
            self.heap.pop()
        }
    }

    /// Empties the queue.
    pub fn clear(&mut self)
        ensures none { self.new.items ≡ [] }
        ensures room { self.old.room ≤ self.new.room }
    {
        self.near.clear();
        self.heap.clear();
    }
}

// Whether an offer is no farther than another, if there is one.
#[inline(always)]
fn comes_before<W: Width>(offer: &Offer<W>, other: Option<&Offer<W>>) -> bool
    ensures { MatchBool result (IfSome other.entry (λ o. offer.now.dist ≤ℤ o.now.dist)) (IsSome other.entry × IfSome other.entry (λ o. o.now.dist ≤ℤ offer.now.dist)) }
{
    match other {
        Some(other) => offer.dist <= other.dist,
        None => true,
    }
}
