//! Sets of nodes.
ghost use Rattle.std.specs.Prelude.{◌≡◌, ◌≤◌, IfOk, OnErr, length};
ghost use Rattle.mcf_flows.specs.Blocking.{in_table};
ghost use Rattle.mcf_flows.specs.Limits.{node_limit};
ghost use Rattle.mcf_flows.specs.Network.{IsNode, node_count};
ghost use Rattle.mcf_network.specs.NodeSets.{member_count, no_nodes, with_node};

use crate::net::Net;
use mcf_text::{NoMemory, NodeId, copies};
use std::alloc::Global;
use std::marker::Model;

/// A set of nodes of a net. Clauses see its table: for each node whether it is in the set.
#[derive(Drop)]
pub struct NodeSet {
    marks: Vec<bool>,
    count: u32,
}

impl Model for NodeSet {
    ghost use Rattle.std.specs.Prelude.{◌≡◌, ◌≤◌, Bool, List, length};
    ghost use Rattle.mcf_flows.specs.Limits.{node_limit};
    ghost use Rattle.mcf_network.specs.NodeSets.{member_count};

    ghost Value = { List Bool };

    ghost view = { λ s. s.marks.items };

    ghost invariant = { λ s. (length s.marks.items ≤ node_limit) × (s.count ≡ member_count s.marks.items) };
}

impl NodeSet {
    /// The empty set, for the nodes of a net.
    ///
    /// # Errors
    ///
    /// `NoMemory` if an allocation is refused; a net without nodes needs none.
    pub fn new(alloc: Global, net: &Net) -> Result<NodeSet, NoMemory>
        ensures value { IfOk result (λ set. set ≡ no_nodes (node_count net.now)) }
        ensures wants { OnErr result (1 ≤ node_count net.now) }
    {
        let marks = copies(alloc, net.node_count() as usize, false)?;
        Ok(NodeSet { marks, count: 0 })
    }

    /// The number of nodes in the set, at most 1,000,000.
    pub fn len(&self) -> u32
        ensures value { result ≡ member_count self.now }
        ensures small { length self.now ≤ node_limit }
    {
        self.count
    }

    /// Whether a node is in the set.
    pub fn contains(&self, v: NodeId) -> bool
        requires { IsNode (length self.now) v }
        ensures { result ≡ in_table self.now v }
    {
        self.marks[v.place()]
    }

    /// Puts a node into the set.
    pub fn insert(&mut self, v: NodeId)
        requires { IsNode (length self.old) v }
        ensures { self.new ≡ with_node self.old v }
    {
        let k = v.place();
        if !self.marks[k] {
            self.marks[k] = true;
            self.count += 1;
        }
    }

    /// Removes all nodes from the set.
    pub fn clear(&mut self)
        ensures { self.new ≡ no_nodes (length self.old) }
    {
        self.marks.fill(false);
        self.count = 0;
    }
}
