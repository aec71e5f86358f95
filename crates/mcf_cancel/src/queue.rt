//! The nodes queued for the next round of a search.
ghost use Rattle.std.specs.Prelude.{◌≡◌, ◌≤◌, ℕ, IfOk, IsTrue, OnOk, OnErr, [], length, ◌↔◌};
ghost use Rattle.std.specs.List.{Contains};
ghost use Rattle.mcf_flows.specs.Network.{IsNode, node_count};
ghost use Rattle.mcf_cancel.specs.Private.Queues.{IsQueue, no_queue, queued};

use mcf_network::{Net, NodeSet};
use mcf_text::{NoMemory, NodeId};
use std::alloc::Global;
use std::marker::Model;

/// Queued nodes of a net, each once.
#[derive(Drop)]
pub(crate) struct NodeQueue {
    marks: NodeSet,
    nodes: Vec<NodeId>,
}

impl Model for NodeQueue {
    ghost use Rattle.mcf_cancel.specs.Private.Queues.{IsQueue, Waiting};

    ghost Value = { Waiting };

    ghost view = { λ q. record { table = q.marks; nodes = q.nodes.items } };

    ghost invariant = { λ q. IsQueue (record { table = q.marks; nodes = q.nodes.items }) };
}

impl NodeQueue {
    /// The queue without any node of a net.
    pub(crate) fn new(alloc: Global, net: &Net) -> Result<NodeQueue, NoMemory>
        ensures value { IfOk result (λ q. q ≡ no_queue (node_count net.now)) }
        ensures valid { IfOk result IsQueue }
        ensures wants { OnErr result (1 ≤ node_count net.now) }
    {
        let nodes = net.node_count() as usize;
        Ok(NodeQueue {
            marks: NodeSet::new(alloc, net)?,
            nodes: Vec::with_capacity(alloc, nodes)?,
        })
    }

    /// The queue with each node of a net.
    pub(crate) fn all(alloc: Global, net: &Net) -> Result<NodeQueue, NoMemory>
        ensures table { IfOk result (λ q. length q.table ≡ node_count net.now) }
        ensures each { IfOk result (λ q. (v : ℕ) → IsNode (node_count net.now) v → Contains q.nodes v) }
        ensures valid { IfOk result IsQueue }
        ensures wants { OnErr result (1 ≤ node_count net.now) }
    {
        let mut all = NodeQueue::new(alloc, net)?;
        for number in 0..net.node_count() {
            all.insert(NodeId::at(number))?;
        }
        Ok(all)
    }

    /// Queues a node, if it isn't queued yet.
    pub(crate) fn insert(&mut self, v: NodeId) -> Result<(), NoMemory>
        requires { IsNode (length self.old.table) v }
        ensures ok { OnOk result (self.new ≡ queued self.old v) }
        ensures err { OnErr result (self.new ≡ self.old) }
        ensures valid { IsQueue self.new }
    {
        if !self.marks.contains(v) {
            self.nodes.push(v)?;
            self.marks.insert(v);
        }
        Ok(())
    }

    /// Removes all nodes from the queue.
    pub(crate) fn clear(&mut self)
        ensures value { self.new ≡ no_queue (length self.old.table) }
        ensures valid { IsQueue self.new }
    {
        self.marks.clear();
        self.nodes.clear();
    }

    /// Whether the queue is empty.
    pub(crate) fn is_empty(&self) -> bool
        ensures value { IsTrue result ↔ (self.now.nodes ≡ []) }
        ensures valid { IsQueue self.now }
    {
        self.nodes.is_empty()
    }

    /// The queued nodes.
    pub(crate) fn nodes(&self) -> &[NodeId]
        ensures value { result.now ≡ self.now.nodes }
        ensures valid { IsQueue self.now }
    {
        self.nodes.as_slice()
    }
}
