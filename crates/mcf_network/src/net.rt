//! Networks without lower bounds.
ghost use Rattle.std.specs.Prelude.{◌≡◌, ◌≤◌, length};
ghost use Rattle.mcf_flows.specs.Network.{IsArcNumber, IsNode, at_node, node_count};
ghost use Rattle.mcf_flows.specs.Limits.{limits};
ghost use Rattle.mcf_network.specs.Nets.{IsNet, greatest_cost};
ghost use Rattle.mcf_network.specs.Residual.{arc_at, head, tail, unit_cost};
ghost use Rattle.mcf_network.specs.Stars.{ListsLeaving};

use crate::leaving::Leaving;
use crate::links::Links;
use crate::rid::{PackedRid, Rid};
use crate::widths::width_at;
use mcf_flows::Problem;
use mcf_text::{ArcId, NodeId};
use std::marker::Model;

/// A network in which the flow of each arc lies between 0 and its width (capacity), and a loop has
/// width 0.
///
/// Nodes and arcs are numbered from 1. Clauses see the network: its problem, its arcs in order,
/// with lower bound 0 and the width as capacity, and the supplies of its nodes in order.
#[derive(Drop)]
pub struct Net {
    pub(crate) problem: Problem,
    pub(crate) links: Links,
    pub(crate) widths: Vec<i64>,
    pub(crate) supplies: Vec<i128>,
    // The number of unused entries in `outs` after those of each node.
    pub(crate) gap: u32,
    pub(crate) firsts: Vec<u32>,
    pub(crate) outs: Vec<PackedRid>,
}

impl Model for Net {
    ghost use Rattle.std.specs.Prelude.{◌≤◌, length};
    ghost use Rattle.mcf_flows.specs.Network.{Network};

    ghost Value = { Network };

    ghost use Rattle.mcf_network.specs.Nets.{IsNet};
    ghost use Rattle.mcf_network.specs.Private.StoredLinks.{links_in};
    ghost use Rattle.mcf_network.specs.Stored.{IsStored, stored_net};

    ghost view = { λ n. stored_net n.problem (links_in n.links) n.widths.items n.supplies.items };

    ghost invariant = { λ n. IsNet (stored_net n.problem (links_in n.links) n.widths.items n.supplies.items)
        × (1 ≤ length n.supplies.items → IsStored (stored_net n.problem (links_in n.links) n.widths.items n.supplies.items) n.gap n.firsts.items n.outs.items) };
}

impl Net {
    /// The problem of the instance that this is the net of.
    pub fn problem(&self) -> Problem
        ensures value { result ≡ self.now.problem }
        ensures of_net { IsNet self.now }
    {
        self.problem
    }

    /// The number of nodes, at most 1,000,000.
    pub fn node_count(&self) -> u32
        ensures value { result ≡ node_count self.now }
        ensures of_net { IsNet self.now }
    {
        self.supplies.len() as u32
    }

    /// The number of arcs, at most 10,000,000.
    pub fn arc_count(&self) -> u32
        ensures value { result ≡ length self.now.arcs }
        ensures of_net { IsNet self.now }
    {
        self.links.as_slice().len() as u32
    }

    /// The two ends of an arc: the node that it leaves, and the one that it enters.
    pub fn ends(&self, k: ArcId) -> (NodeId, NodeId)
        requires { IsArcNumber self.now k }
        ensures src { result.0 ≡ (arc_at self.now k).src }
        ensures dst { result.1 ≡ (arc_at self.now k).dst }
        ensures src_is_node { IsNode (node_count self.now) result.0 }
        ensures dst_is_node { IsNode (node_count self.now) result.1 }
    {
        let link = self.links.get(k.place());
        (NodeId::new(link.src), NodeId::new(link.dst))
    }

    /// The width (capacity) of an arc, from 0 to 2 * 10^18: the most that it can carry.
    pub fn width(&self, k: ArcId) -> i128
        requires { IsArcNumber self.now k }
        ensures value { result ≡ (arc_at self.now k).cap }
        ensures of_net { IsNet self.now }
    {
        i128::from(width_at(&self.widths, k.place()))
    }

    /// The cost per unit on an arc, at most 10^15 from 0.
    pub fn cost(&self, k: ArcId) -> i128
        requires { IsArcNumber self.now k }
        ensures value { result ≡ (arc_at self.now k).cost }
        ensures of_net { IsNet self.now }
    {
        i128::from(self.links.get(k.place()).cost)
    }

    /// The greatest absolute value of the cost of an arc, 0 without arcs.
    pub fn greatest_cost(&self) -> u128
        ensures value { result ≡ greatest_cost self.now.arcs }
        ensures small { result ≤ limits.cost }
        ensures of_net { IsNet self.now }
    {
        let mut greatest = 0;
        'arcs: for number in 0..self.arc_count() {
            greatest = self.cost(ArcId::at(number)).unsigned_abs().max(greatest);
        }
        greatest
    }

    /// The supply of a node, at most 10^26 from 0: what it sends, less what it takes.
    pub fn supply(&self, v: NodeId) -> i128
        requires { IsNode (node_count self.now) v }
        ensures value { result ≡ at_node self.now.supplies v }
        ensures of_net { IsNet self.now }
    {
        self.supplies[v.place()]
    }

    /// The node that a residual arc leaves, and the one that it enters.
    pub fn route(&self, r: Rid) -> (NodeId, NodeId)
        requires { IsArcNumber self.now r.arc }
        ensures tail { result.0 ≡ tail self.now r }
        ensures head { result.1 ≡ head self.now r }
        ensures tail_is_node { IsNode (node_count self.now) result.0 }
        ensures head_is_node { IsNode (node_count self.now) result.1 }
    {
        let (src, dst) = self.ends(r.arc);
        if r.back { (dst, src) } else { (src, dst) }
    }

    /// The cost per unit along a residual arc: the arc's cost forward, its opposite backward.
    pub fn unit_cost(&self, r: Rid) -> i128
        requires { IsArcNumber self.now r.arc }
        ensures value { result ≡ unit_cost self.now r }
        ensures of_net { IsNet self.now }
    {
        let cost = i128::from(self.links.get(r.arc.place()).cost);
        if r.back { -cost } else { cost }
    }

    /// The residual arcs that leave a node, each once.
    pub fn leaving(&self, v: NodeId) -> Leaving<'_>
        requires { IsNode (node_count self.now) v }
        ensures { ListsLeaving self.now v result }
    {
        let i = v.get() as usize;
        let start = self.firsts[i - 1] as usize;
        let end = (self.firsts[i] - self.gap) as usize;
        Leaving {
            rest: &self.outs[start..end],
        }
    }
}
