//! Partial matchings, extended row by row.
ghost use Rattle.std.specs.Prelude.{◌≡◌, ◌≤◌, ◌↔◌, [], IfOk, IsTrue, OnErr, length, pos, replicate};
ghost use Rattle.std.specs.List.{All};
ghost use Rattle.mcf_flows.specs.declared.problem.Problem.TheVariants.{Asn};
ghost use Rattle.mcf_flows.specs.Network.{IsNode, node_count};
ghost use Rattle.mcf_flows.specs.WellFormed.{IsUpTo};
ghost use Rattle.mcf_network.specs.NodeSets.{no_nodes};
ghost use Rattle.mcf_matching.specs.Extending.{IsExtension, IsMatched, IsShownMatching};
ghost use Rattle.mcf_matching.specs.Matchings.{IsMatchedRow, IsRow, price_limit};

use crate::extended::Extended;
use crate::partial::Partial;
use crate::prices::is_narrow;
use mcf_network::{Net, NodeSet, State};
use mcf_numbers::Count;
use mcf_text::{NoMemory, NodeId};
use std::alloc::Global;
use std::marker::Model;

/// A partial matching of the net of an assignment, with prices that show that no other matching of
/// the same rows costs less.
///
/// Rows are the nodes of supply 1, columns those of supply -1. Clauses see the amounts, the prices,
/// the nodes that the last search settled, the table of the set reached by the last search that
/// found no path, and the number of searches.
#[derive(Drop)]
pub struct Matching<'n> {
    core: Core<'n>,
}

// The matching in numbers that hold every sum of its searches: of 64 bits, where all prices may be
// updated, or of 128.
#[derive(Drop)]
enum Core<'n> {
    Narrow(Partial<'n, i64>),
    Wide(Partial<'n, i128>),
}

impl<'n> Model for Matching<'n> {
    ghost use Rattle.mcf_matching.specs.Extending.{Assigned};

    ghost Value = { Assigned };

    ghost use Rattle.mcf_matching.specs.Private.Cores.{assigned_in};

    ghost view = { λ m. assigned_in m.core };
}

impl<'n> Matching<'n> {
    /// The matching without pairs. Nothing is settled, and the set reached is empty.
    ///
    /// All memory for its searches is allocated here.
    ///
    /// # Errors
    ///
    /// `NoMemory` if an allocation is refused; a net without nodes needs none.
    pub fn start(alloc: Global, net: &'n Net) -> Result<Matching<'n>, NoMemory>
        requires { net.now.problem ≡ Asn }
        ensures value { IfOk result (λ m. m.flow ≡ record { net = net.now; amounts = replicate (length net.now.arcs) (pos 0) }) }
        ensures shown { IfOk result IsShownMatching }
        ensures settled { IfOk result (λ m. m.settled ≡ []) }
        ensures reached { IfOk result (λ m. m.reached ≡ no_nodes (node_count net.now)) }
        ensures searches { IfOk result (λ m. m.searches ≡ 0) }
        ensures wants { OnErr result (1 ≤ node_count net.now) }
    {
        let greatest = net.greatest_cost();
        let core = if is_narrow(net, greatest) {
            Core::Narrow(Partial::start(alloc, net, greatest)?)
        } else {
            Core::Wide(Partial::start(alloc, net, greatest)?)
        };
        Ok(Matching { core })
    }

    /// Matches one more row, or finds a set that must send more than it can.
    ///
    /// It searches for a shortest augmenting path from the row by reduced costs (Dijkstra; Ahuja,
    /// Magnanti and Orlin, Network Flows, sections 9.7 and 12.4), and ends at the first unmatched
    /// column. Costs may have either sign. Before a search, all prices are updated if the searches
    /// since the last update settled so many pairs that this pays (Goldberg and Kennedy, An
    /// efficient cost scaling algorithm for the assignment problem, 1995).
    pub fn extend(&mut self, row: NodeId) -> Extended
        requires row { IsRow self.old.flow row }
        requires free { ¬ IsMatchedRow self.old.flow row }
        ensures extended { IsExtension self.old row result self.new }
        ensures shown { IsShownMatching self.new }
    {
        match &mut self.core {
            Core::Narrow(partial) => partial.extend(row),
            Core::Wide(partial) => partial.grow(row),
        }
    }

    /// Whether an arc of amount 1 ends at a node.
    pub fn matched(&self, v: NodeId) -> bool
        requires { IsNode (node_count self.now.flow.net) v }
        ensures value { IsTrue result ↔ IsMatched self.now.flow v }
        ensures shown { IsShownMatching self.now }
    {
        match &self.core {
            Core::Narrow(partial) => partial.matched(v),
            Core::Wide(partial) => partial.matched(v),
        }
    }

    /// The nodes that the last search settled, each once, the row first; none before the first
    /// search.
    pub fn settled(&self) -> &[NodeId]
        ensures value { result.now ≡ self.now.settled }
        ensures shown { IsShownMatching self.now }
    {
        match &self.core {
            Core::Narrow(partial) => partial.settled(),
            Core::Wide(partial) => partial.settled(),
        }
    }

    /// The set reached by the last search that found no path; empty before there is one.
    pub fn reached(&self) -> &NodeSet
        ensures value { result.now ≡ self.now.reached }
        ensures one_per_node { length result.now ≡ node_count self.now.flow.net }
        ensures shown { IsShownMatching self.now }
    {
        match &self.core {
            Core::Narrow(partial) => partial.reached(),
            Core::Wide(partial) => partial.reached(),
        }
    }

    /// The state, the prices, and the number of searches.
    pub fn into_parts(self) -> (State<'n>, Vec<i128>, Count)
        ensures state { result.0 ≡ self.entry.flow }
        ensures prices { result.1.items ≡ self.entry.prices }
        ensures small { All (IsUpTo price_limit) self.entry.prices }
        ensures shown { IsShownMatching self.entry }
        ensures searches { result.2.number ≡ self.entry.searches }
    {
        match self.core {
            Core::Narrow(partial) => partial.into_parts(),
            Core::Wide(partial) => partial.into_parts(),
        }
    }

    /// The set reached by the last search that found no path, and the number of searches; empty
    /// before there is one.
    pub fn into_reached(self) -> (NodeSet, Count)
        ensures reached { result.0 ≡ self.entry.reached }
        ensures one_per_node { length result.0 ≡ node_count self.entry.flow.net }
        ensures searches { result.1.number ≡ self.entry.searches }
    {
        match self.core {
            Core::Narrow(partial) => partial.into_reached(),
            Core::Wide(partial) => partial.into_reached(),
        }
    }
}
