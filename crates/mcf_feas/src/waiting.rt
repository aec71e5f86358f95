//! A queue of active nodes, first in, first out.
ghost use Rattle.std.specs.Prelude.{IfSome};
ghost use Rattle.mcf_flows.specs.Network.{IsNode, node_count};

use mcf_network::State;
use mcf_text::NodeId;
use std::collections::VecDeque;

/// Queues a node, if there is a free place: it allocates nothing.
pub(crate) fn wait(queue: &mut VecDeque<NodeId>, node: NodeId) {
    if queue.len() < queue.capacity() {
        queue.push_back_reserved(node);
    }
}

/// Takes the node of the net that was queued first.
pub(crate) fn next_waiting(state: &State<'_>, queue: &mut VecDeque<NodeId>) -> Option<NodeId>
    ensures { IfSome result (IsNode (node_count state.now.net)) }
{
    let node = queue.pop_front()?;
    if node.get() == 0 || node.get() > state.net().node_count() {
        return None;
    }
    Some(node)
}
