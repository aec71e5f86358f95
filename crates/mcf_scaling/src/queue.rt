//! A queue of active nodes, first in, first out.
ghost use Rattle.std.specs.Prelude.{◌≡◌, ◌∷◌, ◌≤◌, ◌<ℤ◌, [], ℕ, List, IfNone, IfOk, IfSome, OnErr, length, pos};
ghost use Rattle.mcf_flows.specs.Network.{IsNode, node_count};
ghost use Rattle.std.specs.List.{Contains};
ghost use Rattle.mcf_network.specs.States.{surplus_at};
ghost use Rattle.mcf_scaling.specs.Private.Queues.{HoldsActive, IsQueue, IsPopped, IsQueueOf, queued, no_queue};

use mcf_network::{Net, State};
use mcf_text::{NoMemory, NodeId, copies};
use std::alloc::Global;
use std::collections::VecDeque;
use std::marker::Model;

/// Queued nodes of a net, each once, with space for all nodes.
#[derive(Drop)]
pub(crate) struct ActiveQueue {
    marks: Vec<bool>,
    nodes: VecDeque<NodeId>,
}

impl Model for ActiveQueue {
    ghost use Rattle.std.specs.Prelude.{◌≤◌, length};
    ghost use Rattle.std.specs.VecDeque.{deque_capacity};
    ghost use Rattle.mcf_scaling.specs.Private.Queues.{IsQueue, Waiting};

    ghost Value = { Waiting };

    ghost view = { λ q. record { table = q.marks.items; nodes = q.nodes.items } };

    ghost invariant = { λ q. IsQueue (record { table = q.marks.items; nodes = q.nodes.items }) × (length q.marks.items ≤ deque_capacity q.nodes) };
}

impl ActiveQueue {
    /// The queue without any node of a net.
    pub(crate) fn new(alloc: Global, net: &Net) -> Result<ActiveQueue, NoMemory>
        ensures value { IfOk result (λ q. q ≡ no_queue (node_count net.now)) }
        ensures wants { OnErr result (1 ≤ node_count net.now) }
    {
        let nodes = net.node_count() as usize;
        Ok(ActiveQueue {
            marks: copies(alloc, nodes, false)?,
            nodes: VecDeque::with_capacity(alloc, nodes)?,
        })
    }

    /// Queues a node, unless it is queued already.
    pub(crate) fn insert(&mut self, v: NodeId)
        requires { IsNode (length self.old.table) v }
        ensures value { self.new ≡ queued self.old v }
        ensures valid { IsQueue self.new }
    {
        let i = v.place();
        if !self.marks[i] {
            self.nodes.push_back_reserved(v);
            self.marks[i] = true;
        }
    }

    /// The first node in the queue, if any.
    pub(crate) fn front(&self) -> Option<NodeId>
        ensures some { IfSome result (λ v. (rest : List ℕ) × (self.now.nodes ≡ v ∷ rest)) }
        ensures none { IfNone result (self.now.nodes ≡ []) }
        ensures valid { IsQueue self.now }
    {
        let first = self.nodes.front()?;
        Some(*first)
    }

    /// Removes and returns the first node, if any.
    pub(crate) fn pop(&mut self) -> Option<NodeId>
        ensures some { IfSome result (IsPopped self.old self.new) }
        ensures none { IfNone result (self.new ≡ self.old) }
        ensures empty { IfNone result (self.old.nodes ≡ []) }
        ensures valid { IsQueue self.new }
    {
        let first = self.nodes.pop_front()?;
        self.marks[first.place()] = false;
        Some(first)
    }
}

/// Queues a node, if it has a surplus.
pub(crate) fn enqueue(state: &State<'_>, queue: &mut ActiveQueue, v: NodeId)
    requires node { IsNode (node_count state.now.net) v }
    requires size { length queue.old.table ≡ node_count state.now.net }
    requires valid { IsQueue queue.old }
    ensures kept { (u : ℕ) → Contains queue.old.nodes u → Contains queue.new.nodes u }
    ensures here { pos 0 <ℤ surplus_at state.now v → Contains queue.new.nodes v }
    ensures size { length queue.new.table ≡ length queue.old.table }
    ensures valid { IsQueue queue.new }
{
    if state.surplus(v) > 0 {
        queue.insert(v);
    }
}

/// Queues each node with a surplus.
pub(crate) fn enqueue_all(state: &State<'_>, queue: &mut ActiveQueue)
    requires size { length queue.old.table ≡ node_count state.now.net }
    requires valid { IsQueue queue.old }
    ensures { HoldsActive state.now queue.new }
{
    'nodes: for number in 0..state.net().node_count() {
        enqueue(state, queue, NodeId::at(number));
    }
}

/// Removes nodes without a surplus from the front, until the first one has a surplus.
pub(crate) fn tidy(state: &State<'_>, queue: &mut ActiveQueue)
    requires { HoldsActive state.now queue.old }
    ensures { IsQueueOf state.now queue.new }
{
    'fronts: while let Some(v) = queue.front() {
        if state.surplus(v) > 0 {
            break;
        }
        queue.pop();
    }
}
