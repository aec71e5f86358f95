//! Levels: the distance of each node from the nodes that take, along residual arcs with room.
ghost use Rattle.std.specs.Prelude.{◌≡◌, length};
ghost use Rattle.mcf_flows.specs.Network.{IsArcNumber, IsNode, node_count};

use crate::waiting::{next_waiting, wait};
use mcf_network::{Rid, State};
use mcf_text::{ArcId, NodeId};
use std::collections::VecDeque;

/// Sets the level of each node to the least number of residual arcs with room on a path to a node
/// that takes, by a breadth-first search backward from those nodes, or above every level if there
/// is no such path.
pub(crate) fn set_levels(state: &State<'_>, levels: &mut [u32], queue: &mut VecDeque<NodeId>)
    requires { length levels.old ≡ node_count state.now.net }
{
    start_levels(state, levels, queue);
    search_back(state, levels, queue);
}

// Sets the level of each node that takes to 0, and queues it; sets the others above every level.
fn start_levels(state: &State<'_>, levels: &mut [u32], queue: &mut VecDeque<NodeId>)
    requires { length levels.old ≡ node_count state.now.net }
{
    queue.clear();
    let far = state.net().node_count();
    'nodes: for number in 0..far {
        let node = NodeId::at(number);
        let takes = state.surplus(node) < 0;
        levels[number as usize] = if takes { 0 } else { far };
        if takes {
            wait(queue, node);
        }
    }
}

// Sets the levels of the nodes behind the queued ones.
fn search_back(state: &State<'_>, levels: &mut [u32], queue: &mut VecDeque<NodeId>)
    requires { length levels.old ≡ node_count state.now.net }
{
    'nodes: for _ in 0..state.net().node_count() {
        let Some(node) = next_waiting(state, queue) else {
            return;
        };
        level_tails(state, levels, queue, node);
    }
}

// Sets the level of each node without one, from which a residual arc with room leads to a node, to
// one above that node's, and queues it.
fn level_tails(state: &State<'_>, levels: &mut [u32], queue: &mut VecDeque<NodeId>, node: NodeId)
    requires levels { length levels.old ≡ node_count state.now.net }
    requires node { IsNode (node_count state.now.net) node }
{
    let net = state.net();
    let far = net.node_count();
    let level = levels[node.place()].saturating_add(1);
    'tails: for along in net.leaving(node) {
        let Rid { arc, back } = along;
        if is_unused(state, arc, back) {
            continue;
        }
        let (_, from) = net.route(Rid { arc, back });
        let place = from.place();
        if levels[place] < far {
            continue;
        }
        if state.room(Rid { arc, back: !back }) <= 0 {
            continue;
        }
        levels[place] = level;
        wait(queue, from);
    }
}

// Whether a residual arc is a backward one whose arc carries nothing, so that it has no room.
fn is_unused(state: &State<'_>, arc: ArcId, back: bool) -> bool
    requires { IsArcNumber state.now.net arc }
{
    if back {
        return false;
    }
    state.amount(arc) == 0
}
