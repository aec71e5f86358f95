//! Instances within the limits.
ghost use Rattle.std.specs.Prelude.{◌≡◌, ◌-◌, IfSome, length, map, slice_get, Some};
ghost use Rattle.mcf_flows.specs.Network.{Network, IsArcNumber, IsNode, at_node, node_count};
ghost use Rattle.mcf_flows.specs.Limits.{limits};
ghost use Rattle.mcf_flows.specs.Packed.{unit_arc, unpacked};
ghost use Rattle.mcf_flows.specs.WellFormed.{IsWellFormed};

use crate::arc::{Arc, Link};
use crate::arc_table::ArcTable;
use crate::problem::Problem;
use mcf_text::{ArcId, NodeId};
use std::marker::Model;
use std::rc::Rc;

/// A minimum-cost flow problem or an assignment problem, within the limits: supplies and bounds at
/// most 10^18 from 0, costs at most 10^15 from 0, and at most 10^36 in total over the arcs, each
/// counted as the absolute value of its cost times the greater absolute value of its bounds.
///
/// Nodes and arcs are numbered from 1. Clauses see the network: its problem, its arcs in order and
/// the supplies of its nodes in order.
#[derive(Drop)]
pub struct Instance {
    problem: Problem,
    arcs: ArcTable,
    supplies: Vec<i64>,
}

impl Model for Instance {
    ghost use Rattle.std.specs.Prelude.{map};
    ghost use Rattle.mcf_flows.specs.Limits.{limits};
    ghost use Rattle.mcf_flows.specs.Network.{Network};
    ghost use Rattle.mcf_flows.specs.Packed.{unpacked};
    ghost use Rattle.mcf_flows.specs.WellFormed.{IsWellFormed};

    ghost Value = { Network };

    ghost view = { λ i. record { problem = i.problem; arcs = map unpacked i.arcs; supplies = i.supplies.items } };

    ghost invariant = { λ i. IsWellFormed limits (record { problem = i.problem; arcs = map unpacked i.arcs; supplies = i.supplies.items }) };
}

impl Instance {
    /// The instance of a problem, with arcs in order and supplies of its nodes in order, all within
    /// the limits.
    ///
    /// If the arcs can be shared, it tries to allocate a reference count, and does without if that
    /// is refused.
    pub fn of(problem: Problem, arcs: ArcTable, supplies: Vec<i64>) -> Instance
        requires { IsWellFormed limits (record { problem = problem; arcs = map unpacked arcs; supplies = supplies.items }) }
        ensures { result ≡ record { problem = problem; arcs = map unpacked arcs; supplies = supplies.items } }
    {
        Instance {
            problem,
            arcs: arcs.shared(),
            supplies,
        }
    }

    /// The problem that the instance states.
    pub fn problem(&self) -> Problem
        ensures value { result ≡ self.now.problem }
        ensures well_formed { IsWellFormed limits self.now }
    {
        self.problem
    }

    /// The number of nodes, at most 1,000,000.
    pub fn node_count(&self) -> u32
        ensures value { result ≡ node_count self.now }
        ensures well_formed { IsWellFormed limits self.now }
    {
        self.supplies.len() as u32
    }

    /// The number of arcs, at most 10,000,000.
    pub fn arc_count(&self) -> u32
        ensures value { result ≡ length self.now.arcs }
        ensures well_formed { IsWellFormed limits self.now }
    {
        self.arcs.len() as u32
    }

    /// The arc with this number.
    pub fn arc(&self, k: ArcId) -> Arc
        requires { IsArcNumber self.now k }
        ensures value { slice_get self.now.arcs (k - 1) ≡ Some result }
        ensures well_formed { IsWellFormed limits self.now }
    {
        self.arcs.get(k.get() as usize - 1).unpack()
    }

    /// The supply of the node with this number: what it sends, less what it takes.
    pub fn supply(&self, v: NodeId) -> i128
        requires { IsNode (node_count self.now) v }
        ensures value { result ≡ at_node self.now.supplies v }
        ensures well_formed { IsWellFormed limits self.now }
    {
        i128::from(self.supplies[v.get() as usize - 1])
    }

    /// The arcs in order as they are stored, to be shared instead of copied, if all have lower
    /// bound 0 and capacity 1. `None` says nothing about the arcs: if memory is short, they aren't
    /// shared.
    pub fn shared_links(&self) -> Option<Rc<Vec<Link>>>
        ensures some { IfSome result (λ links. self.now.arcs ≡ map unit_arc links.value.items) }
        ensures well_formed { IsWellFormed limits self.now }
    {
        self.arcs.shared_links()
    }

    /// The stored arcs, in order.
    pub(crate) fn packed_arcs(&self) -> &ArcTable
        ensures value { map unpacked result.now ≡ self.now.arcs }
        ensures well_formed { IsWellFormed limits self.now }
    {
        &self.arcs
    }

    /// The stored supplies, in the order of their nodes.
    pub(crate) fn packed_supplies(&self) -> &[i64]
        ensures value { result.now ≡ self.now.supplies }
        ensures well_formed { IsWellFormed limits self.now }
    {
        &self.supplies
    }
}
