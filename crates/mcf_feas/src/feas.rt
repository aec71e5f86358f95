//! A feasible state of a net, or a node set that blocks.
ghost use Rattle.std.specs.Bool.{MatchBool};
ghost use Rattle.std.specs.Prelude.{◌≡◌, ◌≤◌, ◌≤ℤ◌, ℕ, IfOk, OnErr, length, vec_capacity, pos};
ghost use Rattle.mcf_flows.specs.Blocking.{in_table};
ghost use Rattle.mcf_flows.specs.Network.{IsNode, node_count};
ghost use Rattle.mcf_network.specs.States.{IsPseudoflow, surplus_at};
ghost use Rattle.mcf_network.specs.Stuck.{IsStuck};
ghost use Rattle.mcf_network.specs.Chosen.{supply_total};
ghost use Rattle.mcf_feas.specs.Feasible.{IsFeas};

use crate::path_search::PathSearch;
use crate::preflow::round;
use mcf_flows::Side;
use mcf_network::{Net, NodeSet, State, unbalanced};
use mcf_text::{NoMemory, NodeId, copies};
use std::alloc::Global;
use std::collections::VecDeque;

/// A state of a net without surplus, or a node set that blocks every flow, with its side.
#[derive(Drop)]
pub enum Feas<'n> {
    /// A state without surplus: a feasible flow.
    Flow(State<'n>),
    /// A node set that must send, or take, more than it can.
    Blocked(NodeSet, Side),
}

/// A feasible flow of a net, or a node set that shows that there is none.
///
/// If the supplies don't sum to 0, the set is all nodes, and the side is `Take` exactly if their
/// sum is below 0. If they sum to 0, the set blocks by `Send`.
///
/// It pushes surplus down the levels of the nodes, first in, first out (Goldberg and Tarjan; Ahuja,
/// Magnanti and Orlin, Network Flows, section 7.7), in rounds. When a round begins, the level of a
/// node is its distance from the nodes that take. After each round a breadth-first search from the
/// nodes with a surplus shows that none is left, or that none can leave the nodes it reached, or
/// finds an augmenting path (chapter 6). The time of a round is mostly linear in the nodes and
/// arcs, and so is the memory.
///
/// # Errors
///
/// `NoMemory` if an allocation is refused; a net without nodes needs none.
pub fn feasible<'n>(alloc: Global, net: &'n Net) -> Result<Feas<'n>, NoMemory>
    ensures answer { IfOk result (IsFeas net.now) }
    ensures wants { OnErr result (1 ≤ node_count net.now) }
{
    match unbalanced(alloc, net)? {
        Some((set, side)) => Ok(Feas::Blocked(set, side)),
        None => push_balanced(alloc, net),
    }
}

// Decides whether a net whose supplies sum to 0 has a feasible flow, with what shows it.
fn push_balanced<'n>(alloc: Global, net: &'n Net) -> Result<Feas<'n>, NoMemory>
    requires { supply_total net.now ≡ pos 0 }
    ensures answer { IfOk result (IsFeas net.now) }
    ensures wants { OnErr result (1 ≤ node_count net.now) }
{
    let mut state = State::zero(alloc, net)?;
    let (mut levels, mut queue) = tables(alloc, net)?;
    let mut search = PathSearch::new(alloc, net)?;
    let settled = push_in_rounds(&mut state, levels.as_mut_slice(), &mut queue, &mut search)?;
    if settled {
        return Ok(Feas::Flow(state));
    }
    Ok(Feas::Blocked(search.into_reached(), Side::Send))
}

// The tables of the pushes, which every round reuses: the level of each node, and the queue of
// active nodes.
fn tables(alloc: Global, net: &Net) -> Result<(Vec<u32>, VecDeque<NodeId>), NoMemory>
    ensures levels { IfOk result (λ made. length made.0.items ≡ node_count net.now) }
    ensures wants { OnErr result (1 ≤ node_count net.now) }
{
    let nodes = net.node_count() as usize;
    let levels = copies(alloc, nodes, 0)?;
    let queue = VecDeque::with_capacity(alloc, nodes)?;
    Ok((levels, queue))
}

// Pushes surplus in rounds, each followed by a search and a push along the path that it finds,
// until a search finds no path. Returns whether no node has a surplus then.
fn push_in_rounds(
    state: &mut State<'_>,
    levels: &mut [u32],
    queue: &mut VecDeque<NodeId>,
    search: &mut PathSearch,
) -> Result<bool, NoMemory>
    requires flow { IsPseudoflow state.old }
    requires levels { length levels.old ≡ node_count state.old.net }
    requires nodes { length search.old.reached ≡ node_count state.old.net }
    requires room { node_count state.old.net ≤ vec_capacity search.old.visits }
    ensures net { IfOk result (λ _. state.new.net ≡ state.old.net) }
    ensures flow { IfOk result (λ _. IsPseudoflow state.new) }
    ensures nodes { IfOk result (λ _. length search.new.reached ≡ node_count state.old.net) }
    ensures settled { IfOk result (λ settled. MatchBool settled
        ((v : ℕ) → IsNode (node_count state.new.net) v → surplus_at state.new v ≤ℤ pos 0)
        (IsStuck state.new (in_table search.new.reached))) }
    ensures wants { OnErr result (1 ≤ node_count state.old.net) }
{
    round(state, levels, queue);
    'searches: while search.start(state) {
        if !search.run(state) {
            return Ok(false);
        }
        search.augment(state)?;
        round(state, levels, queue);
    }
    Ok(true)
}
