//! The search for the greatest prices that show a state.
ghost use Rattle.std.specs.Prelude.{◌≡◌, ◌+◌, ◌≤◌, ◌+ℤ◌, ◌-ℤ◌, ◌*ℤ◌, ◌≤ℤ◌, ◌∷◌, pos, ℕ, List, [], false, true, IfNone, IfSome};
ghost use Rattle.std.specs.List.{All};
ghost use Rattle.mcf_flows.specs.Limits.{node_limit};
ghost use Rattle.mcf_flows.specs.Network.{IsArcNumber, node_count};
ghost use Rattle.mcf_flows.specs.WellFormed.{IsUpTo};
ghost use Rattle.mcf_network.specs.declared.rid.Rid.{Rid};
ghost use Rattle.mcf_network.specs.NodeSets.{member_count};
ghost use Rattle.mcf_network.specs.Residual.{tail};
ghost use Rattle.mcf_network.specs.States.{amount_at};
ghost use Rattle.mcf_engine.specs.Heaps.{NoneWaits};
ghost use Rattle.mcf_engine.specs.NearPrices.{near_limit};
ghost use Rattle.mcf_engine.specs.Respecting.{cost_limit, reverse};
ghost use Rattle.mcf_engine.specs.Private.Raisings.{ArePassed, CostsAtLeast, IsLastSettled, IsOffer, IsPassedFrom, IsPopped, IsRaising, IsRelaxed, IsScanned, IsSettledNext};
ghost use Rattle.mcf_engine.specs.Private.Raisings.{RespectsLabel, label, label_limit, label_reach, step};
ghost use Rattle.mcf_engine.specs.Private.Shortlists.{HasChain, IsChain, IsFilled};

use crate::heap::Heap;
use crate::near_state::NearState;
use crate::pricer::{label_of, passing_cost, price_of};
use crate::shortlist::{ChainEntry, Shortlist, entry_before};
use mcf_network::{Leaving, Rid, State};
use mcf_text::{ArcId, NodeId};

// A key that a residual arc offers its tail.
#[derive(Drop)]
struct KeyOffer {
    tail: NodeId,
    key: i128,
}

impl<'s, 'n> NearState<'s, 'n> {
    /// Settles the nodes (labels them permanently), one after another in the order of their keys.
    pub(crate) fn settle_all(&self, heap: &mut Heap, short: &Shortlist)
        requires list { IsFilled self.now short.now }
        requires ready { IsRaising self.now heap.old [] }
        ensures search { IsRaising self.now heap.new [] }
        ensures over { NoneWaits heap.new }
    {
        'nodes: while let Some(w) = heap.pop() {
            self.settle_ties(heap, short, w);
        }
    }

    // Scans the node that was settled last, and each that is settled immediately after it.
    fn settle_ties(&self, heap: &mut Heap, short: &Shortlist, w: NodeId)
        requires list { IsFilled self.now short.now }
        requires popped { IsPopped self.now heap.old w }
        ensures search { IsRaising self.now heap.new [] }
        ensures fewer { member_count heap.new.waiting ≤ member_count heap.old.waiting }
    {
        let mut last = w;
        'ties: while let Some(u) = self.scan(heap, short, last) {
            last = u;
        }
    }

    // Relaxes the residual arcs that enter the node that was settled last: those of its list, if
    // that is complete at its label, otherwise those of its star. Returns the node that was settled
    // immediately, if any.
    fn scan(&self, heap: &mut Heap, short: &Shortlist, w: NodeId) -> Option<NodeId>
        requires list { IsFilled self.now short.now }
        requires popped { IsPopped self.now heap.old w }
        ensures some { IfSome result (IsSettledNext self.now heap.old heap.new) }
        ensures none { IfNone result (IsScanned self.now heap.old heap.new) }
    {
        let base = label_of(heap, self.prices, w);
        let passed = passing_cost(base, self.scale);
        if short.is_complete(w, passed) {
            let last = short.last_of(w);
            return self.scan_chain(heap, short.entries.as_slice(), w, base, last);
        }
        self.scan_star(heap, w, base, passed)
    }

    // Relaxes the reverses of the entries of a chain whose last entry is before a place. They enter
    // the node that was settled last, and `base` is its label.
    fn scan_chain(
        &self,
        heap: &mut Heap,
        entries: &[ChainEntry],
        w: NodeId,
        base: i128,
        start: u32,
    ) -> Option<NodeId>
        requires base { base ≡ label self.now.prices.now heap.old w }
        requires last { IsLastSettled (node_count self.now.state.now.net) heap.old w }
        requires chains { IsChain self.now.state.now.net entries.now w start }
        requires search { (rest : List Rid) → HasChain self.now.state.now.net entries.now w start rest → IsRaising self.now heap.old rest }
        ensures some { IfSome result (IsSettledNext self.now heap.old heap.new) }
        ensures none { IfNone result (IsScanned self.now heap.old heap.new) }
    {
        let mut cursor = start;
        'entries: while cursor > 0 {
            let entry = entry_before(entries, cursor);
            let (arc, back) = (ArcId::new(entry.arc), entry.back);
            let out = Rid { arc, back };
            if entry.next == 0 {
                return self.relax_last(heap, base, out);
            }
            self.relax(heap, base, out);
            cursor = entry.next;
        }
        None
    }

    // Relaxes the residual arcs that enter the node that was settled last and cost less than
    // `passed`. `base` is its label.
    fn scan_star(&self, heap: &mut Heap, w: NodeId, base: i128, passed: i128) -> Option<NodeId>
        requires base { base ≡ label self.now.prices.now heap.old w }
        requires passed { IsPassedFrom self.now.scale base passed }
        requires popped { IsPopped self.now heap.old w }
        ensures some { IfSome result (IsSettledNext self.now heap.old heap.new) }
        ensures none { IfNone result (IsScanned self.now heap.old heap.new) }
    {
        let mut leaving = self.state.net().leaving(w);
        let Some(mut last) = next_offer(&mut leaving, self.state, passed) else {
            return None;
        };
        'entering: while let Some(out) = next_offer(&mut leaving, self.state, passed) {
            self.relax(heap, base, last);
            last = out;
        }
        self.relax_last(heap, base, last)
    }

    // Lowers the key of the tail of the reverse of a residual arc, if that offers less. The head
    // was settled last, and `base` is its label.
    #[inline(always)]
    fn relax(&self, heap: &mut Heap, base: i128, out: Rid)
        requires arc { IsArcNumber self.now.state.now.net out.arc }
        requires last { IsLastSettled (node_count self.now.state.now.net) heap.old (tail self.now.state.now.net out) }
        requires base { base ≡ label self.now.prices.now heap.old (tail self.now.state.now.net out) }
        requires search { (rest : List Rid) × IsRaising self.now heap.old (out ∷ rest) }
        ensures { IsRelaxed self.now heap.old heap.new out }
    {
        if let Some(offer) = self.offer_of(heap, base, out) {
            heap.offer(offer.tail, offer.key);
        }
    }

    // Relaxes the reverse of the last remaining residual arc, as `relax` does. If it offers its
    // tail no more than the key of its head, which was settled last, the tail is settled
    // immediately, wherever it is in the heap, since no queued key is less.
    fn relax_last(&self, heap: &mut Heap, base: i128, out: Rid) -> Option<NodeId>
        requires arc { IsArcNumber self.now.state.now.net out.arc }
        requires last { IsLastSettled (node_count self.now.state.now.net) heap.old (tail self.now.state.now.net out) }
        requires base { base ≡ label self.now.prices.now heap.old (tail self.now.state.now.net out) }
        requires search { IsRaising self.now heap.old (out ∷ []) }
        ensures some { IfSome result (IsSettledNext self.now heap.old heap.new) }
        ensures none { IfNone result (IsScanned self.now heap.old heap.new) }
    {
        let (arc, back) = (out.arc, out.back);
        let Some(offer) = self.offer_of(heap, base, Rid { arc, back }) else {
            return None;
        };
        let (head, _) = self.state.net().route(Rid { arc, back });
        if offer.key <= heap.key(head) {
            heap.settle(offer.tail, offer.key);
            return Some(offer.tail);
        }
        heap.offer(offer.tail, offer.key);
        None
    }

    // The key that the reverse of a residual arc offers its tail, if the tail is queued with no
    // smaller key and the arc has room. The head was settled last, and `base` is its label.
    #[inline(always)]
    fn offer_of(&self, heap: &Heap, base: i128, out: Rid) -> Option<KeyOffer>
        requires arc { IsArcNumber self.now.state.now.net out.arc }
        requires last { IsLastSettled (node_count self.now.state.now.net) heap.now (tail self.now.state.now.net out) }
        requires base { base ≡ label self.now.prices.now heap.now (tail self.now.state.now.net out) }
        requires search { (rest : List Rid) × IsRaising self.now heap.now (out ∷ rest) }
        ensures some { IfSome result (λ found. IsOffer self.now heap.now out found.tail found.key) }
        ensures none { IfNone result (RespectsLabel self.now heap.now (reverse out)) }
    {
        let (arc, back) = (out.arc, !out.back);
        let (tail, _) = self.state.net().route(Rid { arc, back });
        if !heap.waits(tail) {
            return None;
        }
        let length = self.step(Rid { arc, back });
        let key = offered(base, length, price_of(self.prices, tail));
        if heap.key(tail) < key {
            return None;
        }
        if self.state.room(Rid { arc, back }) <= 0 {
            return None;
        }
        Some(KeyOffer { tail, key })
    }

    // What a residual arc adds to the label of its head.
    fn step(&self, r: Rid) -> i128
        requires { IsArcNumber self.now.state.now.net r.arc }
        ensures value { result ≡ step self.now r }
        ensures small { IsUpTo label_reach result }
    {
        scaled(self.state.net().unit_cost(r), self.scale) + i128::from(self.slack)
    }
}

// The key that a residual arc of this length offers its tail, which has this price, if its head has
// the label `base`.
fn offered(base: i128, length: i128, price: i128) -> i128
    requires base { IsUpTo label_reach base }
    requires length { IsUpTo label_reach length }
    requires price { IsUpTo near_limit price }
    ensures { result ≡ base +ℤ length -ℤ price }
{
    base + length - price
}

// A cost times the scale.
fn scaled(cost: i128, scale: u32) -> i128
    requires cost { IsUpTo cost_limit cost }
    requires scale { scale ≤ node_limit + 1 }
    ensures value { result ≡ cost *ℤ pos scale }
    ensures small { IsUpTo label_limit result }
{
    cost * i128::from(scale)
}

// The next residual arc whose reverse may have room and cost less than `passed`. Those before it
// are skipped: they offer no label below 0, and no label is above 0, so they lower none.
fn next_offer(leaving: &mut Leaving<'_>, state: &State<'_>, passed: i128) -> Option<Rid>
    requires { All (λ r. IsArcNumber state.now.net r.arc) leaving.old }
    ensures some { IfSome result (λ out. ArePassed state.now passed leaving.old (out ∷ leaving.new)) }
    ensures none { IfNone result (ArePassed state.now passed leaving.old []) }
{
    'arcs: while let Some(out) = leaving.next() {
        let (arc, back) = (out.arc, out.back);
        if may_offer(state, passed, arc, !back) {
            return Some(Rid { arc, back });
        }
    }
    None
}

// Whether a residual arc may have room and cost less than `passed`. Backward its cost isn't read:
// if its arc carries nothing, it has no room, and most carry nothing.
#[inline(always)]
fn may_offer(state: &State<'_>, passed: i128, arc: ArcId, back: bool) -> bool
    requires { IsArcNumber state.now.net arc }
    ensures { result ≡ false → CostsAtLeast state.now passed (record { arc = arc; back = back }) }
{
    if back {
        return !carries_nothing(state, arc);
    }
    state.net().unit_cost(Rid { arc, back }) < passed
}

// Whether an arc carries nothing.
#[inline(always)]
fn carries_nothing(state: &State<'_>, arc: ArcId) -> bool
    requires { IsArcNumber state.now.net arc }
    ensures { result ≡ true → amount_at state.now arc ≤ℤ pos 0 }
{
    state.amount(arc) <= 0
}
