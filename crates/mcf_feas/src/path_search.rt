//! Breadth-first search from the nodes with a surplus, and augmenting paths.
ghost use Rattle.std.specs.Prelude.{◌≡◌, ℕ, ◌∷◌, ◌++◌, [], ◌<◌, ◌≤◌, true, IfOk};
ghost use Rattle.std.specs.Prelude.{IfNone, IfSome, OnErr, OnOk, length, vec_capacity, pos, ◌+◌, ◌≤ℤ◌, ◌-◌};
ghost use Rattle.std.specs.Bool.{MatchBool};
ghost use Rattle.mcf_flows.specs.Blocking.{in_table};
ghost use Rattle.mcf_flows.specs.Network.{IsArcNumber, IsNode, node_count};
ghost use Rattle.mcf_network.specs.States.{IsPseudoflow, room_of, surplus_at};
ghost use Rattle.mcf_network.specs.NodeSets.{with_node};
ghost use Rattle.mcf_network.specs.Stuck.{IsStuck};
ghost use Rattle.mcf_feas.specs.Private.Searching.{IsAugmented, IsFound, IsPath, IsScanned, LeadsTo, node_at};

use mcf_network::{Net, NodeSet, Rid, State, push_along};
use mcf_text::{ArcId, NoMemory, NodeId};
use std::alloc::Global;

/// How a search reached a node: the place of its predecessor, and the residual arc from there.
#[derive(Clone, Copy)]
struct Predecessor {
    place: u32,
    along: Rid,
}

/// A node that a search reached, with its predecessor; a node with a surplus has none.
#[derive(Clone, Copy)]
struct Visit {
    node: NodeId,
    predecessor: Option<Predecessor>,
}

/// The tables of a search, which every search of a net reuses.
#[derive(Drop)]
pub(crate) struct PathSearch {
    reached: NodeSet,
    visits: Vec<Visit>,
    path: Vec<Rid>,
}

impl PathSearch {
    /// The tables for a net.
    pub(crate) fn new(alloc: Global, net: &Net) -> Result<PathSearch, NoMemory>
        ensures nodes { IfOk result (λ search. length search.reached ≡ node_count net.now) }
        ensures room { IfOk result (λ search. node_count net.now ≤ vec_capacity search.visits) }
        ensures wants { OnErr result (1 ≤ node_count net.now) }
    {
        let nodes = net.node_count() as usize;
        Ok(PathSearch {
            reached: NodeSet::new(alloc, net)?,
            visits: Vec::with_capacity(alloc, nodes)?,
            path: Vec::with_capacity(alloc, nodes)?,
        })
    }

    /// The nodes that the last search reached.
    pub(crate) fn into_reached(self) -> NodeSet
        ensures { result ≡ self.reached }
    {
        self.reached
    }

    // Visits a node.
    fn visit(&mut self, node: NodeId, predecessor: Option<Predecessor>)
        requires node { IsNode (length self.old.reached) node }
        requires room { length self.old.visits.items < vec_capacity self.old.visits }
        ensures reached { self.new.reached ≡ with_node self.old.reached node }
        ensures visits { self.new.visits.items
            ≡ self.old.visits.items ++ record { node = node; predecessor = predecessor } ∷ [] }
        ensures room { vec_capacity self.new.visits ≡ vec_capacity self.old.visits }
    {
        self.visits.push_reserved(Visit { node, predecessor });
        self.reached.insert(node);
    }

    /// Begins a search: visits the nodes with a surplus, and returns whether there is one.
    pub(crate) fn start(&mut self, state: &State<'_>) -> bool
        requires nodes { length self.old.reached ≡ node_count state.now.net }
        requires room { node_count state.now.net ≤ vec_capacity self.old.visits }
        ensures scanned { IsScanned state.now self.new.reached self.new.visits.items 0 }
        ensures room { node_count state.now.net ≤ vec_capacity self.new.visits }
        ensures sources { MatchBool result
            (0 < length self.new.visits.items)
            ((v : ℕ) → IsNode (node_count state.now.net) v → surplus_at state.now v ≤ℤ pos 0) }
    {
        self.reached.clear();
        self.visits.clear();
        for number in 0..state.net().node_count() {
            let node = NodeId::at(number);
            if state.surplus(node) > 0 {
                self.visit(node, None);
            }
        }
        !self.visits.is_empty()
    }

    /// Visits the nodes that can be reached, until one takes, and returns whether one does.
    pub(crate) fn run(&mut self, state: &State<'_>) -> bool
        requires flow { IsPseudoflow state.now }
        requires room { node_count state.now.net ≤ vec_capacity self.old.visits }
        requires scanned { IsScanned state.now self.old.reached self.old.visits.items 0 }
        requires some { 0 < length self.old.visits.items }
        ensures nodes { length self.new.reached ≡ node_count state.now.net }
        ensures room { node_count state.now.net ≤ vec_capacity self.new.visits }
        ensures found { MatchBool result
            (IsFound state.now self.new.visits.items)
            (IsStuck state.now (in_table self.new.reached)) }
    {
        let mut scanned = 0;
        while scanned < self.visits.len() {
            if self.scan(state, scanned) {
                return true;
            }
            scanned += 1;
        }
        false
    }

    // Visits the nodes to which residual arcs with room lead from the node at a place, until one of
    // them takes, and returns whether one does.
    fn scan(&mut self, state: &State<'_>, place: usize) -> bool
        requires room { node_count state.now.net ≤ vec_capacity self.old.visits }
        requires scanned { IsScanned state.now self.old.reached self.old.visits.items place }
        requires place { place < length self.old.visits.items }
        ensures nodes { length self.new.reached ≡ node_count state.now.net }
        ensures room { node_count state.now.net ≤ vec_capacity self.new.visits }
        ensures found { MatchBool result
            (IsFound state.now self.new.visits.items)
            (IsScanned state.now self.new.reached self.new.visits.items (place + 1)) }
    {
        let net = state.net();
        let from = self.visits[place].node;
        for along in net.leaving(from) {
            let Rid { arc, back } = along;
            let Some(to) = open_end(state, arc, back) else {
                continue;
            };
            if self.reached.contains(to) {
                continue;
            }
            self.visit(to, Some(predecessor_along(place as u32, arc, back)));
            if state.surplus(to) < 0 {
                return true;
            }
        }
        false
    }

    /// Pushes as much as possible along the path to the last visited node.
    pub(crate) fn augment(&mut self, state: &mut State<'_>) -> Result<(), NoMemory>
        requires flow { IsPseudoflow state.old }
        requires found { IsFound state.old self.old.visits.items }
        ensures nodes { length self.new.reached ≡ length self.old.reached }
        ensures room { vec_capacity self.new.visits ≡ vec_capacity self.old.visits }
        ensures augmented { OnOk result (IsAugmented state.old state.new) }
        ensures wants { OnErr result (1 ≤ node_count state.old.net) }
    {
        let amount = trace(state, &self.visits, &mut self.path)?;
        push_along(state, &self.path, amount);
        Ok(())
    }
}

// The predecessor at a place, along a residual arc.
fn predecessor_along(place: u32, arc: ArcId, back: bool) -> Predecessor
    ensures { result ≡ record { place = place; along = record { arc = arc; back = back } } }
{
    Predecessor {
        place,
        along: Rid { arc, back },
    }
}

// The node that a residual arc enters, if the arc has room.
fn open_end(state: &State<'_>, arc: ArcId, back: bool) -> Option<NodeId>
    requires { IsArcNumber state.now.net arc }
    ensures open { IfSome result (LeadsTo state.now (record { arc = arc; back = back })) }
    ensures closed { IfNone result (room_of state.now (record { arc = arc; back = back }) ≤ℤ pos 0) }
{
    if state.room(Rid { arc, back }) <= 0 {
        return None;
    }
    let (_, to) = state.net().route(Rid { arc, back });
    Some(to)
}

// Writes the path to the last visited node, and returns how much can be pushed along it.
fn trace(state: &State<'_>, visits: &[Visit], path: &mut Vec<Rid>) -> Result<i128, NoMemory>
    requires { IsFound state.now visits.now }
    ensures path { IfOk result
        (IsPath state.now path.new.items (node_at visits.now (length visits.now - 1))) }
    ensures wants { OnErr result (1 ≤ node_count state.now.net) }
{
    path.clear();
    let mut place = visits.len() - 1;
    let mut amount = -state.surplus(visits[place].node);
    while let Some(predecessor) = visits[place].predecessor {
        amount = amount.min(state.room(predecessor.along));
        path.push(predecessor.along)?;
        place = predecessor.place as usize;
    }
    path.reverse();
    Ok(amount.min(state.surplus(visits[place].node)))
}
