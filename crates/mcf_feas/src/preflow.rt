//! Pushes of surplus from node to node, down the levels.
ghost use Rattle.std.specs.Prelude.{◌≡◌, ◌≤ℤ◌, ◌<ℤ◌, length, pos};
ghost use Rattle.mcf_flows.specs.Network.{IsArcNumber, IsNode, node_count};
ghost use Rattle.mcf_network.specs.Residual.{tail};
ghost use Rattle.mcf_network.specs.States.{room_of, surplus_at};
ghost use Rattle.mcf_feas.specs.Private.Pushing.{IsPushedOn};

use crate::levels::set_levels;
use crate::waiting::{next_waiting, wait};
use mcf_network::{Rid, State};
use mcf_text::{ArcId, NodeId};
use std::collections::VecDeque;

/// Sets the levels of the nodes, and then visits active nodes, first in, first out, until none is
/// left, or as many were visited as there are nodes.
pub(crate) fn round(state: &mut State<'_>, levels: &mut [u32], queue: &mut VecDeque<NodeId>)
    requires { length levels.old ≡ node_count state.old.net }
    ensures { IsPushedOn state.old state.new }
{
    set_levels(state, levels, queue);
    start(state, queue);
    visit_all(state, levels, queue);
}

// Queues each node with a surplus, and no other.
fn start(state: &State<'_>, queue: &mut VecDeque<NodeId>) {
    queue.clear();
    'nodes: for number in 0..state.net().node_count() {
        let node = NodeId::at(number);
        if state.surplus(node) > 0 {
            wait(queue, node);
        }
    }
}

// Visits active nodes until none is left, or as many were visited as there are nodes.
fn visit_all(state: &mut State<'_>, levels: &mut [u32], queue: &mut VecDeque<NodeId>)
    requires { length levels.old ≡ node_count state.old.net }
    ensures { IsPushedOn state.old state.new }
{
    'visits: for _ in 0..state.net().node_count() {
        let Some(node) = next_waiting(state, queue) else {
            return;
        };
        visit(state, levels, queue, node);
    }
}

// Pushes the surplus of a node to lower ones. If they can't take all of it, relabels the node to
// one level above the lowest node to which it can push, and queues it, unless that is above every
// level.
fn visit(state: &mut State<'_>, levels: &mut [u32], queue: &mut VecDeque<NodeId>, node: NodeId)
    requires levels { length levels.old ≡ node_count state.old.net }
    requires node { IsNode (node_count state.old.net) node }
    ensures { IsPushedOn state.old state.new }
{
    let far = state.net().node_count();
    let Some(least) = push_down(state, levels, queue, node) else {
        return;
    };
    let level = least.saturating_add(1);
    levels[node.place()] = level;
    if level < far {
        wait(queue, node);
    }
}

// Pushes the surplus of a node along its residual arcs to lower nodes. If some is left, returns the
// least level of the nodes at the ends of arcs that still have room.
fn push_down(
    state: &mut State<'_>,
    levels: &mut [u32],
    queue: &mut VecDeque<NodeId>,
    from: NodeId,
) -> Option<u32>
    requires levels { length levels.old ≡ node_count state.old.net }
    requires node { IsNode (node_count state.old.net) from }
    ensures { IsPushedOn state.old state.new }
{
    let net = state.net();
    let level = levels[from.place()];
    let mut least = net.node_count();
    'arcs: for along in net.leaving(from) {
        let Rid { arc, back } = along;
        let other = open_level(state, levels, arc, back);
        if other >= level {
            least = least.min(other);
            continue;
        }
        if push_share(state, levels, queue, arc, back) {
            return None;
        }
        least = least.min(open_level(state, levels, arc, back));
    }
    Some(least)
}

// The level of the node that a residual arc enters, or the number of nodes if the arc has no room.
fn open_level(state: &State<'_>, levels: &[u32], arc: ArcId, back: bool) -> u32
    requires levels { length levels.now ≡ node_count state.now.net }
    requires arc { IsArcNumber state.now.net arc }
{
    if state.room(Rid { arc, back }) <= 0 {
        return state.net().node_count();
    }
    let (_, to) = state.net().route(Rid { arc, back });
    levels[to.place()]
}

// Pushes a share of the surplus of a node along a residual arc that leaves it, and returns whether
// that was all.
fn push_share(
    state: &mut State<'_>,
    levels: &mut [u32],
    queue: &mut VecDeque<NodeId>,
    arc: ArcId,
    back: bool,
) -> bool
    requires levels { length levels.old ≡ node_count state.old.net }
    requires arc { IsArcNumber state.old.net arc }
    ensures { IsPushedOn state.old state.new }
{
    let (from, to) = state.net().route(Rid { arc, back });
    if state.surplus(from) <= 0 {
        return true;
    }
    let before = state.surplus(to);
    let amount = share(state, arc, back);
    state.push(Rid { arc, back }, amount);
    receive(state, levels, queue, to, before);
    state.surplus(from) <= 0
}

// The amount to push along a residual arc from a node with a surplus: its surplus, or as much of it
// as the arc has room for, and no more than the node at the other end takes, if that takes
// anything.
fn share(state: &State<'_>, arc: ArcId, back: bool) -> i128
    requires arc { IsArcNumber state.now.net arc }
    requires some { pos 0 <ℤ surplus_at state.now (tail state.now.net (record { arc = arc; back = back })) }
    ensures low { pos 0 ≤ℤ result }
    ensures held { result ≤ℤ surplus_at state.now (tail state.now.net (record { arc = arc; back = back })) }
    ensures room { result ≤ℤ room_of state.now (record { arc = arc; back = back }) }
{
    let (from, to) = state.net().route(Rid { arc, back });
    let most = state.surplus(from).min(state.room(Rid { arc, back }));
    let surplus = state.surplus(to);
    if surplus < 0 {
        most.min(-surplus)
    } else {
        most
    }
}

// After a push to a node: it becomes active, if it had no surplus before and has one now, and is
// relabelled, if it took something before and takes nothing now.
fn receive(
    state: &State<'_>,
    levels: &mut [u32],
    queue: &mut VecDeque<NodeId>,
    node: NodeId,
    before: i128,
)
    requires levels { length levels.old ≡ node_count state.now.net }
    requires node { IsNode (node_count state.now.net) node }
{
    if before > 0 {
        return;
    }
    if before < 0 && state.surplus(node) >= 0 {
        relabel(state, levels, node);
    }
    wake(state, queue, node);
}

// Relabels a node: sets its level to one above the lowest node to which a residual arc with room
// leads from it.
fn relabel(state: &State<'_>, levels: &mut [u32], node: NodeId)
    requires levels { length levels.old ≡ node_count state.now.net }
    requires node { IsNode (node_count state.now.net) node }
{
    let net = state.net();
    let mut least = net.node_count();
    'arcs: for along in net.leaving(node) {
        let Rid { arc, back } = along;
        least = least.min(open_level(state, levels, arc, back));
    }
    levels[node.place()] = least.saturating_add(1);
}

// Queues a node, if it has a surplus.
fn wake(state: &State<'_>, queue: &mut VecDeque<NodeId>, node: NodeId)
    requires { IsNode (node_count state.now.net) node }
{
    if state.surplus(node) > 0 {
        wait(queue, node);
    }
}
