//! Bases.
ghost use Rattle.std.specs.Prelude.{◌≡◌, ◌+◌, ◌*◌, ◌^◌, ◌≤◌, ◌<ℤ◌, IsTrue, length, neg_ℤ, pos, ◌↔◌};
ghost use Rattle.mcf_flows.specs.Network.{IsArcNumber, IsNode, node_count};
ghost use Rattle.mcf_flows.specs.WellFormed.{IsUpTo};
ghost use Rattle.mcf_basis.specs.Bases.{IsBasis};
ghost use Rattle.mcf_basis.specs.Pivots.{IsEligible};
ghost use Rattle.mcf_basis.specs.Structures.{price_at, reduced_at, price_limit, reduced_limit};
ghost use Rattle.mcf_basis.specs.Violations.{IsFrom, IsPickOf, violation};

use crate::offer::ArcOffer;
use crate::price_table::PriceTable;
use crate::residuals::Residuals;
use mcf_network::Net;
use mcf_numbers::Count;
use mcf_text::{ArcId, NodeId};
use mcf_tree::Tree;
use std::marker::Model;

/// A basis of a net: a spanning tree over a root and the nodes, with an artificial arc for each
/// node, an amount for each arc and a price for each node.
///
/// Each amount is within its bounds, and no node has a surplus; an arc outside the tree carries
/// nothing or all that it can, and the arcs of the tree have reduced cost 0. From each node one
/// more unit can go along the tree to the root: the tree is strongly feasible (Cunningham; Ahuja,
/// Magnanti and Orlin, Network Flows, sections 11.2 and 11.6).
#[derive(Drop)]
pub struct Basis<'n> {
    pub(crate) net: &'n Net,
    pub(crate) tree: Tree,
    pub(crate) offers: Vec<ArcOffer>,
    pub(crate) residuals: Vec<Residuals>,
    pub(crate) artificial: Vec<i128>,
    pub(crate) table: PriceTable,
    pub(crate) pivots: Count,
    // The number of tree arcs in the last cycle.
    pub(crate) climbed: u32,
}

impl<'n> Model for Basis<'n> {
    ghost use Rattle.mcf_basis.specs.Structures.{TreeStructure};
    ghost use Rattle.mcf_basis.specs.Private.Layouts.{IsLaidOut, basis_in};

    ghost Value = { TreeStructure };

    ghost view = { λ b. basis_in (record {
      net = b.net.now;
      tree = b.tree;
      offers = b.offers.items;
      residuals = b.residuals.items;
      artificial = b.artificial.items;
      table = b.table;
      pivots = b.pivots.number;
    }) };

    ghost invariant = { λ b. IsLaidOut (record {
      net = b.net.now;
      tree = b.tree;
      offers = b.offers.items;
      residuals = b.residuals.items;
      artificial = b.artificial.items;
      table = b.table;
      pivots = b.pivots.number;
    }) };
}

impl<'n> Basis<'n> {
    /// The net.
    pub fn net(&self) -> &'n Net
        ensures value { result.now ≡ self.now.net }
        ensures basis { IsBasis self.now }
    {
        self.net
    }

    /// The number of nodes that the last exchange of arcs moved: 0 before the first. A pivot whose
    /// entering arc leaves again exchanges none.
    pub fn moved_count(&self) -> usize
        ensures value { result ≡ length self.now.tree.moved }
        ensures basis { IsBasis self.now }
    {
        self.tree.moved().len()
    }

    /// The number of tree arcs in the cycle of the last pivot: a hint for whoever watches a run; no
    /// clause states it.
    pub fn climbed(&self) -> u32
        ensures { IsBasis self.now }
    {
        self.climbed
    }

    /// The price of a node, at most 3 * 10^36 from 0; that of the root is 0.
    pub fn price(&self, v: NodeId) -> i128
        requires { IsNode (node_count self.now.net) v }
        ensures value { result ≡ price_at self.now v }
        ensures small { IsUpTo price_limit result }
        ensures basis { IsBasis self.now }
    {
        self.table.get(v.get() as usize)
    }

    /// The reduced cost of an arc, at most 7 * 10^36 from 0: its cost, less the price of the node
    /// that it leaves, plus that of the node that it enters.
    pub fn reduced(&self, k: ArcId) -> i128
        requires { IsArcNumber self.now.net k }
        ensures value { result ≡ reduced_at self.now k }
        ensures small { IsUpTo reduced_limit result }
        ensures basis { IsBasis self.now }
    {
        let (src, dst) = self.net.ends(k);
        self.net.cost(k) - self.price(src) + self.price(dst)
    }

    // The reduced cost of the residual arc that an arc offers.
    fn offered(&self, k: ArcId) -> i128
        requires { IsArcNumber self.now.net k }
        ensures eligible { (result <ℤ pos 0) ↔ IsEligible self.now k }
        ensures violation { result <ℤ pos 0 → result ≡ neg_ℤ (pos (violation self.now k)) }
        ensures small { IsUpTo reduced_limit result }
        ensures basis { IsBasis self.now }
    {
        self.table.reduced(self.offers[k.place()])
    }

    /// Whether an arc can enter: it is outside the tree, has capacity, and the cost falls if it
    /// carries more (if it is empty) or less (if it is full). Artificial arcs never enter.
    pub fn eligible(&self, k: ArcId) -> bool
        requires { IsArcNumber self.now.net k }
        ensures value { IsTrue result ↔ IsEligible self.now k }
        ensures basis { IsBasis self.now }
    {
        self.offered(k) < 0
    }

    /// By how much an eligible arc violates the optimality conditions: the absolute value of its
    /// reduced cost. It reads what a scan of the arc has just read.
    pub fn violation(&self, k: ArcId) -> u128
        requires { IsEligible self.now k }
        ensures value { result ≡ violation self.now k }
        ensures basis { IsBasis self.now }
    {
        self.offered(k).unsigned_abs()
    }

    /// Of the arcs from number `first` up to but not including `end`, the eligible one of greatest
    /// violation (absolute value of the reduced cost); among several, the one with the least
    /// number.
    pub fn most_violated(&self, first: u32, end: u32) -> Option<ArcId>
        requires low { 1 ≤ first }
        requires order { first ≤ end }
        requires high { end ≤ length self.now.net.arcs + 1 }
        ensures value { IsPickOf self.now (IsFrom first end) result }
        ensures basis { IsBasis self.now }
    {
        let begin = first as usize - 1;
        let place = self
            .table
            .least_offer(&self.offers, begin, end as usize - 1)?;
        Some(ArcId::at(place as u32))
    }
}
