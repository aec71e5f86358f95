//! Distances in a residual network without one arc (Dijkstra; Ahuja, Magnanti and Orlin, Network
//! Flows, sections 4.5 and 4.7): lengths are reduced costs, none of which is below 0.
ghost use Rattle.std.specs.Prelude.{◌≡◌, ◌≢◌, ◌≤◌, ◌∷◌, ℕ, List, [], IfNone, IfOk, IfSome};
ghost use Rattle.mcf_flows.specs.Network.{IsArcNumber, IsNode, at_node, node_count};
ghost use Rattle.mcf_flows.specs.WellFormed.{IsUpTo};
ghost use Rattle.mcf_network.specs.declared.rid.Rid.{Rid};
ghost use Rattle.mcf_network.specs.NodeSets.{no_nodes};
ghost use Rattle.mcf_network.specs.Removal.{net_of};
ghost use Rattle.mcf_network.specs.Residual.{tail};
ghost use Rattle.mcf_network.specs.Stars.{ListsLeaving};
ghost use Rattle.mcf_engine.specs.Heaps.{no_keys};
ghost use Rattle.mcf_ranges.specs.Private.Distances.{IsDistance, IsOpen, length_of};
ghost use Rattle.mcf_ranges.specs.Private.Searches.{IsLast, IsSearch, IsStep, distance_limit, length_limit};

use crate::search::Search;
use mcf_engine::Heap;
use mcf_network::{NodeSet, Rid};
use mcf_text::{NoMemory, NodeId};
use std::alloc::Global;

impl<'a> Search<'a> {
    /// Returns the length of a shortest walk, or `None` if there is no walk.
    ///
    /// # Errors
    ///
    /// `NoMemory` if an allocation is refused.
    pub(crate) fn distance(&self, alloc: Global) -> Result<Option<i128>, NoMemory>
        ensures value { IfOk result (IsDistance self.now.network self.now.flow self.now.prices self.now.k self.now.u self.now.w) }
        ensures small { IfOk result (λ found. IfSome found (IsUpTo distance_limit)) }
    {
        let net = self.shown.net();
        if self.from.get() == self.to.get() {
            return Ok(Some(0));
        }
        let mut heap = Heap::new(alloc, net)?;
        let mut settled = NodeSet::new(alloc, net)?;
        Ok(self.run(&mut heap, &mut settled))
    }

    // Settles nodes, nearest first, until the last one is reached.
    fn run(&self, heap: &mut Heap, settled: &mut NodeSet) -> Option<i128>
        requires ends { self.now.u ≢ self.now.w }
        requires heap { heap.old ≡ no_keys (node_count self.now.network) }
        requires settled { settled.old ≡ no_nodes (node_count self.now.network) }
        ensures value { IsDistance self.now.network self.now.flow self.now.prices self.now.k self.now.u self.now.w result }
        ensures small { IfSome result (IsUpTo distance_limit) }
    {
        // Called only for its clause: prices show the flow.
        let _net = self.shown.net();
        settled.insert(self.from);
        self.scan(heap, settled, self.from);
        'nodes: while let Some(v) = heap.pop() {
            if v.get() == self.to.get() {
                return Some(heap.key(v));
            }
            settled.insert(v);
            self.scan(heap, settled, v);
        }
        None
    }

    // Relaxes the residual arcs that leave the node that was settled last.
    fn scan(&self, heap: &mut Heap, settled: &NodeSet, v: NodeId)
        requires last { IsLast self.now heap.old settled.now v }
        requires search { (rest : List Rid) → ListsLeaving (net_of self.now.network) v rest → IsSearch self.now heap.old settled.now rest }
        ensures { IsSearch self.now heap.new settled.now [] }
    {
        let mut leaving = self.shown.net().leaving(v);
        let base = heap.key(v);
        'arcs: while let Some(r) = leaving.next() {
            self.relax(heap, settled, base, r);
        }
    }

    // Offers the head of a residual arc the key of its tail, which was settled last, and the arc's
    // length, if the arc has room and the head isn't settled.
    fn relax(&self, heap: &mut Heap, settled: &NodeSet, base: i128, r: Rid)
        requires arc { IsArcNumber self.now.network r.arc }
        requires last { IsLast self.now heap.old settled.now (tail self.now.network r) }
        requires base { base ≡ at_node heap.old.keys (tail self.now.network r) }
        requires search { (rest : List Rid) × IsSearch self.now heap.old settled.now (r ∷ rest) }
        ensures { IsStep self.now heap.old heap.new settled.now r }
    {
        let (arc, back) = (r.arc, r.back);
        let (_, head) = self.shown.net().route(Rid { arc, back });
        if settled.contains(head) {
            return;
        }
        if let Some(length) = self.length(Rid { arc, back }) {
            heap.offer(head, base + length);
        }
    }

    // Returns the length of a residual arc, its reduced cost, if it has room and isn't one of the
    // arc that is left out.
    fn length(&self, r: Rid) -> Option<i128>
        requires { IsArcNumber self.now.network r.arc }
        ensures some { IfSome result (λ z. IsOpen self.now.network self.now.flow self.now.k r × (z ≡ length_of self.now.network self.now.prices r)) }
        ensures none { IfNone result (¬ IsOpen self.now.network self.now.flow self.now.k r) }
        ensures small { IfSome result (IsUpTo length_limit) }
    {
        if r.arc.get() == self.without.get() {
            return None;
        }
        if !self.shown.has_room(r) {
            return None;
        }
        let reduced = self.shown.reduced_cost(r.arc);
        Some(if r.back { -reduced } else { reduced })
    }
}
