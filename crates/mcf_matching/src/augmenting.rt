//! A whole search, and the matching extended by its result.
ghost use Rattle.std.specs.Prelude.{◌≡◌, ◌+◌, ◌<◌, ◌≤◌, ◌∷◌, ◌++◌, ◌↔◌, ℕ, [], Some, false, true, IfOk, OnErr, length};
ghost use Rattle.std.specs.List.{All, Contains};
ghost use Rattle.mcf_flows.specs.Blocking.{in_table};
ghost use Rattle.mcf_flows.specs.Network.{IsNode, node_count};
ghost use Rattle.mcf_matching.specs.Private.Forests.{AreMates, IsChangedWithin};
ghost use Rattle.mcf_matching.specs.Private.Keeping.{AreNearZero, IsEnded, IsIdle};
ghost use Rattle.mcf_matching.specs.Matchings.{AreMatchingPrices, IsMatchedRow, IsPartialMatching, IsRow, column_of};
ghost use Rattle.mcf_matching.specs.Private.Reaches.{HasWidth};
ghost use Rattle.mcf_matching.specs.Private.Scenes.{IsScene};
ghost use Rattle.mcf_matching.specs.Private.Searches.{AreRaised, search_of};
ghost use Rattle.mcf_matching.specs.Private.Turning.{IsExtended};

use crate::regime::NEAR_OFFERS;
use crate::scene::{Mate, Scene};
use crate::search::{Tables, Target};
use mcf_network::{Net, NodeSet, State};
use mcf_numbers::{Count, Number, Width};
use mcf_offers::Offers;
use mcf_text::{ArcId, NoMemory, NodeId, copies};
use std::alloc::Global;

impl<W: Width> Tables<W> {
    /// The tables for a net, with all the space that its searches need.
    pub(crate) fn new(alloc: Global, net: &Net) -> Result<Tables<W>, NoMemory>
        ensures idle { IfOk result (IsIdle net.now) }
        ensures order { IfOk result (λ tables. tables.order.items ≡ []) }
        ensures searches { IfOk result (λ tables. tables.searches.number ≡ 0) }
        ensures wants { OnErr result (1 ≤ node_count net.now) }
    {
        let nodes = net.node_count() as usize;
        Ok(Tables {
            offers: Offers::new(alloc, NEAR_OFFERS, net.arc_count() as usize * 2)?,
            dists: copies(alloc, nodes, Number::of(0))?,
            marks: copies(alloc, nodes, false)?,
            predecessors: copies(alloc, nodes, 0)?,
            best: None,
            order: Vec::with_capacity(alloc, nodes)?,
            searches: Count::zero(),
            pairs: 0,
        })
    }

    /// Searches for a shortest augmenting path from an unmatched row, and returns its last arc, if
    /// there is a path.
    pub(crate) fn search(&mut self, scene: &Scene<'_, '_, W>, source: NodeId) -> Option<Target<W>>
        requires scene { IsScene W.room scene.now.state.now scene.now.rows.now scene.now.prices.now scene.now.mates.now }
        requires idle { IsIdle scene.now.state.now.net self.old }
        requires row { IsRow scene.now.state.now source }
        requires free { ¬ IsMatchedRow scene.now.state.now source }
        ensures idle { IsIdle scene.now.state.now.net self.new }
        ensures ended { IsEnded scene.now.state.now scene.now.prices.now (search_of self.new) source self.new.order.items }
        ensures best { result ≡ self.new.best }
        ensures counted { self.new.searches.number ≡ self.old.searches.number + 1 }
    {
        self.begin(scene.state, source);
        self.run(scene, source);
        self.pairs = self.pairs.saturating_add(self.order.len() as u64 / 2);
        self.best
    }

    /// Matches the row of a search that found a path, given the path's last arc and length: prices
    /// rise, the search augments along the path, and the column at its end is settled too.
    pub(crate) fn augment(
        &mut self,
        state: &mut State<'_>,
        prices: &mut [Number<W>],
        mates: &mut [Mate],
        arc: ArcId,
        dist: Number<W>,
    )
        requires matching { IsPartialMatching state.old }
        requires prices { AreMatchingPrices state.old prices.old }
        requires mates { AreMates state.old mates.old }
        requires best { self.old.best ≡ Some (record { arc = arc; dist = dist }) }
        requires ended { (source : ℕ) × IsEnded state.old prices.old (search_of self.old) source self.old.order.items }
        requires small { AreNearZero state.old prices.old }
        requires width { HasWidth W.room state.old.net }
        requires idle { IsIdle state.old.net self.old }
        ensures raised { AreRaised state.old (search_of self.old) dist prices.old prices.new }
        ensures extended { (source : ℕ) → IsEnded state.old prices.old (search_of self.old) source self.old.order.items
            → IsExtended state.old state.new prices.new source (column_of state.old arc) }
        ensures mates { AreMates state.new mates.new }
        ensures changed { IsChangedWithin state.old state.new (search_of self.old) (column_of state.old arc) }
        ensures order { self.new.order.items ≡ self.old.order.items ++ column_of state.old arc ∷ [] }
        ensures idle { IsIdle state.old.net self.new }
        ensures tables { search_of self.new ≡ search_of self.old }
    {
        let (_, column) = state.net().ends(arc);
        self.raise(prices, dist);
        self.turn(state, mates, arc);
        self.order.push_reserved(column);
    }
}

/// Removes the marks of listed nodes: all marks, if each marked node is listed.
pub(crate) fn unmark(marks: &mut [bool], nodes: &[NodeId])
    requires each { All (IsNode (length marks.old)) nodes.now }
    requires listed { (v : ℕ) → IsNode (length marks.old) v → in_table marks.old v ≡ true → Contains nodes.now v }
    ensures { (v : ℕ) → in_table marks.new v ≡ false }
{
    'nodes: for v in nodes {
        marks[v.place()] = false;
    }
}

/// Puts listed nodes into a set, instead of those that it had.
pub(crate) fn fill(set: &mut NodeSet, nodes: &[NodeId])
    requires { All (IsNode (length set.old)) nodes.now }
    ensures count { length set.new ≡ length set.old }
    ensures members { (v : ℕ) → IsNode (length set.old) v → (in_table set.new v ≡ true) ↔ Contains nodes.now v }
{
    set.clear();
    'nodes: for v in nodes {
        set.insert(*v);
    }
}
