//! The greatest prices that show a state, from prices that nearly show it.
ghost use Rattle.std.specs.Prelude.{◌≡◌, ◌+◌, ◌*◌, ◌^◌, ◌<◌, ◌≤◌, ◌≤ℤ◌, ℕ, IfOk, OnErr};
ghost use Rattle.std.specs.Prelude.{length, neg_ℤ, pos};
ghost use Rattle.std.specs.List.{All};
ghost use Rattle.mcf_flows.specs.Limits.{node_limit};
ghost use Rattle.mcf_flows.specs.Network.{IsNode, at_node, node_count};
ghost use Rattle.mcf_flows.specs.WellFormed.{IsUpTo};
ghost use Rattle.mcf_engine.specs.NearPrices.{AreNearPrices, OptimalPricesAreNear, ShownPricesAreNear, near_limit};
ghost use Rattle.mcf_engine.specs.Outcomes.{AreStatePrices};
ghost use Rattle.mcf_engine.specs.Private.Raisings.{AreRounded, IsPassedFrom, IsRoundedDown};
ghost use Rattle.mcf_engine.specs.Private.Raisings.{label, label_reach, quotient_reach};

use crate::heap::Heap;
use crate::near_state::NearState;
use crate::shortlist::Shortlist;
use mcf_network::{Net, State};
use mcf_text::{NoMemory, NodeId};
use std::alloc::Global;
use std::marker::Model;

/// Finds the greatest prices that show a state, from prices that nearly show it, by one search for
/// shortest walks (Dijkstra's algorithm with a heap; Ahuja, Magnanti and Orlin, Network Flows,
/// sections 4.5 and 4.7), which runs against the arcs and from all nodes at once. In a dense net
/// few arcs can lower a key: one pass over all arcs in their order lists them beforehand.
///
/// It is made for the nodes of a net, and allocates only then. Clauses see for how many nodes it
/// has space.
#[derive(Drop)]
pub struct Pricer {
    heap: Heap,
    short: Shortlist,
}

impl Model for Pricer {
    ghost use Rattle.std.specs.Prelude.{◌≡◌, ℕ, length};

    ghost Value = { ℕ };

    ghost view = { λ p. length p.heap.waiting };
}

impl Pricer {
    /// Space for the prices of the nodes of a net.
    ///
    /// # Errors
    ///
    /// `NoMemory` if an allocation is refused; a net without nodes needs none.
    pub fn start(alloc: Global, net: &Net) -> Result<Pricer, NoMemory>
        ensures room { IfOk result (λ p. p ≡ node_count net.now) }
        ensures wants { OnErr result (1 ≤ node_count net.now) }
    {
        Ok(Pricer {
            short: Shortlist::start(alloc, net)?,
            heap: Heap::new(alloc, net)?,
        })
    }

    /// Replaces prices that nearly show the flow of a state by the greatest prices not above 0 that
    /// show it.
    ///
    /// With all costs multiplied by `scale`, no residual arc with room may have a reduced cost
    /// below minus `slack`. So prices that show the flow come with scale 1 and slack 0, and those
    /// of a flow that is 1-optimal at costs times the number of nodes plus one come with that scale
    /// and slack 1. It takes time linear in the arcs, and logarithmic in the nodes for each node
    /// and each lowered key; it allocates nothing.
    pub fn raise(&mut self, state: &State<'_>, scale: u32, slack: u32, prices: &mut [i128])
        requires room { self.old ≡ node_count state.now.net }
        requires near { AreNearPrices state.now scale slack prices.old }
        ensures prices { AreStatePrices state.now.net state.now prices.new }
        ensures room { self.new ≡ self.old }
    {
        self.heap.wait_all(prices);
        let near = NearState {
            state,
            scale,
            slack,
            prices,
        };
        self.short.fill(&near);
        near.settle_all(&mut self.heap, &self.short);
        round_all(&self.heap, scale, prices);
    }
}

/// Prices that show the flow of a state nearly show it, with scale 1 and slack 0.
///
/// The function does nothing at run time; its contract is the law.
pub fn shown_prices_are_near()
    ensures { ShownPricesAreNear }
{}

/// Prices by which the flow of a state is 1-optimal, at costs times the number of nodes plus one,
/// nearly show it, with that scale and slack 1 (Bertsekas; Ahuja, Magnanti and Orlin, Network
/// Flows, section 10.3).
///
/// The function does nothing at run time; its contract is the law.
pub fn optimal_prices_are_near()
    ensures { OptimalPricesAreNear }
{}

/// The price of a node.
pub(crate) fn price_of(prices: &[i128], v: NodeId) -> i128
    requires { IsNode (length prices.now) v }
    ensures { result ≡ at_node prices.now v }
{
    prices[v.place()]
}

/// The label of a node.
pub(crate) fn label_of(heap: &Heap, prices: &[i128], v: NodeId) -> i128
    requires price { IsNode (length prices.now) v }
    requires key { IsNode (length heap.now.keys) v }
    requires small { IsUpTo near_limit (at_node prices.now v) }
    requires low { neg_ℤ (pos label_reach) ≤ℤ label prices.now heap.now v }
    requires high { label prices.now heap.now v ≤ℤ pos 0 }
    ensures { result ≡ label prices.now heap.now v }
{
    price_of(prices, v) + heap.key(v)
}

/// A residual arc of at least this cost offers its tail no label below 0, if its head has the label
/// `base`. The slack is left out, since it only raises the offer.
pub(crate) fn passing_cost(base: i128, scale: u32) -> i128
    requires scale { 1 ≤ scale }
    requires low { neg_ℤ (pos label_reach) ≤ℤ base }
    requires high { base ≤ℤ pos 0 }
    ensures { IsPassedFrom scale base result }
{
    let depth = base.unsigned_abs();
    quotient_above(depth, u128::from(scale)) as i128
}

// Replaces each price by the label of its node, divided by the scale and rounded down.
fn round_all(heap: &Heap, scale: u32, prices: &mut [i128])
    requires scale { 1 ≤ scale }
    requires keys { length heap.now.keys ≡ length prices.old }
    requires few { length prices.old ≤ node_limit }
    requires small { All (IsUpTo near_limit) prices.old }
    requires low { (v : ℕ) → IsNode (length prices.old) v → neg_ℤ (pos label_reach) ≤ℤ label prices.old heap.now v }
    requires high { (v : ℕ) → IsNode (length prices.old) v → label prices.old heap.now v ≤ℤ pos 0 }
    ensures { AreRounded scale prices.old heap.now prices.new }
{
    'nodes: for i in 0..prices.len() {
        let v = NodeId::at(i as u32);
        let label = label_of(heap, prices, v);
        prices[i] = rounded_down(label, scale);
    }
}

// The quotient of a label by the scale, rounded down.
fn rounded_down(label: i128, scale: u32) -> i128
    requires scale { 1 ≤ scale }
    requires low { neg_ℤ (pos label_reach) ≤ℤ label }
    requires high { label ≤ℤ pos 0 }
    ensures { IsRoundedDown scale label result }
{
    let depth = label.unsigned_abs();
    opposite(quotient_above(depth, u128::from(scale)))
}

// The quotient of a depth by the scale, rounded up. The scale is often 1, and a division is slow.
fn quotient_above(depth: u128, scale: u128) -> u128
    requires scale { 1 ≤ scale }
    requires scale_small { scale < 2 ^ 32 }
    requires depth { depth ≤ label_reach }
    ensures enough { depth ≤ result * scale }
    ensures least { result * scale < depth + scale }
    ensures small { result ≤ quotient_reach }
{
    if scale == 1 {
        return depth;
    }
    (depth + (scale - 1)) / scale
}

// The negative of a depth.
fn opposite(depth: u128) -> i128
    requires { depth ≤ quotient_reach }
    ensures { result ≡ neg_ℤ (pos depth) }
{
    -(depth as i128)
}
