//! A search for prices, and for cycles of the residual arcs that set them.
ghost use Rattle.std.specs.Prelude.{◌≡◌, ◌<◌, ◌≤◌, ◌*◌, ◌≤ℤ◌, ◌<ℤ◌, ℕ, [], None, Some, Option, true, false, IfNone, IfOk, IfSome, OnErr, OnOk, drop};
ghost use Rattle.std.specs.Prelude.{length, neg_ℤ, pos, replicate};
ghost use Rattle.std.specs.Bool.{OnFalse, OnTrue};
ghost use Rattle.std.specs.List.{All, HoldsAt};
ghost use Rattle.mcf_flows.specs.Blocking.{in_table};
ghost use Rattle.mcf_flows.specs.Network.{IsArcNumber, IsNode, at_node, node_count};
ghost use Rattle.mcf_network.specs.NodeSets.{member_count};
ghost use Rattle.mcf_network.specs.Residual.{head, tail};
ghost use Rattle.mcf_network.specs.Walks.{HasRoom, IsWalk};
ghost use Rattle.mcf_cancel.specs.Private.Labels.{IsLabelling, IsRelaxing, arc_depth, link_at, lowered, node_depth};
ghost use Rattle.mcf_engine.specs.Respecting.{AreAtLeast, cost_limit};
ghost use Rattle.mcf_cancel.specs.Private.Labels.{offer, round_depth, round_fall};
ghost use Rattle.mcf_engine.specs.NegativeCycles.{IsNegativeCycle};
ghost use Rattle.mcf_cancel.specs.Private.Queues.{IsQueue};
ghost use Rattle.mcf_cancel.specs.Private.Rounds.{IsHandled, IsProgress};
ghost use Rattle.mcf_cancel.specs.Private.Trails.{IsDone, IsSettled, IsStep, IsTrail, HasTail};

use crate::queue::NodeQueue;
use mcf_network::{NodeSet, Rid, State};
use mcf_text::{NoMemory, NodeId, copies};
use std::alloc::Global;
use std::marker::Model;

/// A price for each node of a state, and the residual arc that set it.
#[derive(Drop)]
pub(crate) struct PriceSearch<'s, 'n> {
    state: &'s State<'n>,
    prices: Vec<i128>,
    links: Vec<Option<Rid>>,
}

impl<'s, 'n> Model for PriceSearch<'s, 'n> {
    ghost use Rattle.mcf_cancel.specs.Private.Labels.{IsLabelling, Labels};

    ghost Value = { Labels };

    ghost view = { λ a. record { flow = a.state.now; prices = a.prices.items; links = a.links.items } };

    ghost invariant = { λ a. IsLabelling (record { flow = a.state.now; prices = a.prices.items; links = a.links.items }) };
}

impl<'s, 'n> PriceSearch<'s, 'n> {
    /// All prices are 0, and there are no links.
    pub(crate) fn start(
        alloc: Global,
        state: &'s State<'n>,
    ) -> Result<PriceSearch<'s, 'n>, NoMemory>
        ensures flow { IfOk result (λ l. l.flow ≡ state.now) }
        ensures prices { IfOk result (λ l. l.prices ≡ replicate (node_count state.now.net) (pos 0)) }
        ensures valid { IfOk result IsLabelling }
        ensures wants { OnErr result (1 ≤ node_count state.now.net) }
    {
        let nodes = state.net().node_count() as usize;
        let prices = copies(alloc, nodes, 0)?;
        let links = copies(alloc, nodes, None)?;
        Ok(PriceSearch {
            state,
            prices,
            links,
        })
    }

    // The price that a residual arc offers to its tail.
    fn offer(&self, r: Rid) -> i128
        requires arc { IsArcNumber self.now.flow.net r.arc }
        requires floor { AreAtLeast arc_depth self.now.prices }
        ensures { result ≡ offer self.now r }
    {
        let (arc, back) = (r.arc, r.back);
        let net = self.state.net();
        let (_, to) = net.route(Rid { arc, back });
        net.unit_cost(Rid { arc, back }) + self.prices[to.place()]
    }

    // Gives the tail the lower price that the residual arc offers.
    fn lower(&mut self, r: Rid, price: i128)
        requires room { HasRoom self.old.flow r }
        requires price { price ≡ offer self.old r }
        requires less { price <ℤ at_node self.old.prices (tail self.old.flow.net r) }
        ensures value { self.new ≡ lowered self.old r }
        ensures valid { IsLabelling self.new }
    {
        let (arc, back) = (r.arc, r.back);
        let (from, _) = self.state.net().route(Rid { arc, back });
        self.prices[from.place()] = price;
        self.links[from.place()] = Some(Rid { arc, back });
    }

    // Relaxes a residual arc, and returns whether the price of its tail fell.
    fn relax(&mut self, r: Rid) -> bool
        requires arc { IsArcNumber self.old.flow.net r.arc }
        requires floor { AreAtLeast arc_depth self.old.prices }
        ensures relaxed { IsRelaxing self.old self.new r result }
        ensures valid { IsLabelling self.new }
    {
        let (arc, back) = (r.arc, r.back);
        if self.state.room(Rid { arc, back }) <= 0 {
            return false;
        }
        let price = self.offer(Rid { arc, back });
        let (from, _) = self.state.net().route(Rid { arc, back });
        if self.prices[from.place()] <= price {
            return false;
        }
        self.lower(Rid { arc, back }, price);
        true
    }

    // Relaxes the residual arcs that enter a node, and queues the nodes whose price fell.
    fn relax_entering(&mut self, w: NodeId, fallen: &mut NodeQueue) -> Result<(), NoMemory>
        requires node { IsNode (node_count self.old.flow.net) w }
        requires floor { AreAtLeast node_depth self.old.prices }
        requires table { length fallen.old.table ≡ node_count self.old.flow.net }
        requires queue { IsQueue fallen.old }
        ensures progress { OnOk result (IsProgress self.old self.new fallen.old fallen.new cost_limit) }
        ensures here { OnOk result ((r : Rid) → HasRoom self.old.flow r → head self.old.flow.net r ≡ w → IsHandled self.new fallen.new r) }
        ensures still { OnOk result (fallen.new.nodes ≡ [] → self.new.prices ≡ self.old.prices) }
        ensures wants { OnErr result (1 ≤ node_count self.old.flow.net) }
    {
        let net = self.state.net();
        'entering: for leaving in net.leaving(w) {
            let arc = leaving.arc;
            let back = !leaving.back;
            if self.relax(Rid { arc, back }) {
                let (from, _) = net.route(Rid { arc, back });
                fallen.insert(from)?;
            }
        }
        Ok(())
    }

    /// Relaxes the residual arcs that enter each queued node, and puts the nodes whose price fell
    /// into the other queue.
    pub(crate) fn round(
        &mut self,
        waiting: &NodeQueue,
        fallen: &mut NodeQueue,
    ) -> Result<(), NoMemory>
        requires valid { IsLabelling self.old }
        requires floor { AreAtLeast round_depth self.old.prices }
        requires waiting_table { length waiting.now.table ≡ node_count self.old.flow.net }
        requires table { length fallen.old.table ≡ node_count self.old.flow.net }
        requires queue { IsQueue fallen.old }
        requires handled { (r : Rid) → HasRoom self.old.flow r → IsHandled self.old waiting.now r }
        ensures progress { OnOk result (IsProgress self.old self.new fallen.old fallen.new round_fall) }
        ensures handled { OnOk result ((r : Rid) → HasRoom self.old.flow r → IsHandled self.new fallen.new r) }
        ensures still { OnOk result (fallen.new.nodes ≡ [] → self.new.prices ≡ self.old.prices) }
        ensures wants { OnErr result (1 ≤ node_count self.old.flow.net) }
    {
        'nodes: for w in waiting.nodes() {
            self.relax_entering(*w, fallen)?;
        }
        Ok(())
    }

    // The residual arc that set the price of a node, if any.
    fn link(&self, v: NodeId) -> Option<Rid>
        requires { IsNode (node_count self.now.flow.net) v }
        ensures value { result ≡ link_at self.now v }
        ensures step { IfSome result (λ r. IsStep self.now r × (tail self.now.flow.net r ≡ v)) }
        ensures root { IfNone result (at_node self.now.prices v ≡ pos 0) }
    {
        self.links[v.place()]
    }

    // Follows the links from a node to one that was seen, or to one without a link.
    fn follow(
        &self,
        seen: &mut NodeSet,
        done: &NodeSet,
        from: NodeId,
        path: &mut Vec<Rid>,
    ) -> Result<NodeId, NoMemory>
        requires from { IsNode (node_count self.now.flow.net) from }
        requires fresh { path.old.items ≡ [] }
        requires trail { IsTrail self.now path.old.items seen.old done.now }
        ensures end { IfOk result (IsNode (node_count self.now.flow.net)) }
        ensures trail { OnOk result (IsTrail self.now path.new.items seen.new done.now) }
        ensures walk { IfOk result (λ u. IsWalk self.now.flow.net from path.new.items u) }
        ensures seen { IfOk result (λ u. in_table seen.new u ≡ true) }
    {
        let mut at = from;
        'links: while !seen.contains(at) {
            seen.insert(at);
            match self.link(at) {
                Some(r) => {
                    let (arc, back) = (r.arc, r.back);
                    path.push(Rid { arc, back })?;
                    let (_, to) = self.state.net().route(Rid { arc, back });
                    at = to;
                }
                None => break,
            }
        }
        Ok(at)
    }

    // The last part of a path, from the residual arc that leaves a node.
    fn close(&self, alloc: Global, path: &[Rid], u: NodeId) -> Result<Vec<Rid>, NoMemory>
        requires steps { All (IsStep self.now) path.now }
        requires leaves { HasTail self.now.flow.net path.now u }
        ensures { IfOk result (λ rest. (k : ℕ) × (k < length path.now)
            × HoldsAt (λ r. tail self.now.flow.net r ≡ u) path.now k × (rest.items ≡ drop k path.now)) }
    {
        'path: for (k, r) in path.iter().enumerate() {
            let (from, _) = self.state.net().route(*r);
            if from.get() == u.get() {
                return Ok(path[k..].iter().copied().collect(alloc)?);
            }
        }
        unreachable!()
    }

    // Marks the nodes that a path leaves as done, from its end.
    fn finish(&self, done: &mut NodeSet, mut path: Vec<Rid>, end: NodeId)
        requires steps { All (IsStep self.now) path.items }
        requires end { IsNode (node_count self.now.flow.net) end }
        requires walk { (u : ℕ) × IsWalk self.now.flow.net u path.items end }
        requires done { IsDone self.now done.old }
        requires floor { neg_ℤ (pos (cost_limit * member_count done.old)) ≤ℤ at_node self.now.prices end }
        ensures done { IsDone self.now done.new }
        ensures kept { (v : ℕ) → in_table done.old v ≡ true → in_table done.new v ≡ true }
        ensures path { (v : ℕ) → HasTail self.now.flow.net path.items v → in_table done.new v ≡ true }
    {
        'path: while let Some(r) = path.pop() {
            let (from, _) = self.state.net().route(r);
            done.insert(from);
        }
    }

    // Whether a walk that reached a node closed a cycle there.
    fn is_closed(&self, done: &NodeSet, end: NodeId) -> bool
        requires end { IsNode (node_count self.now.flow.net) end }
        requires count { length done.now ≡ node_count self.now.flow.net }
        ensures closed { OnTrue result (IsSettled self.now done.now end → ⊥) }
        ensures open { OnFalse result (IsSettled self.now done.now end) }
    {
        !done.contains(end) && self.link(end).is_some()
    }

    /// A cycle of links, or none, and then no price is far below 0.
    pub(crate) fn cycle(&self, alloc: Global) -> Result<Option<Vec<Rid>>, NoMemory>
        ensures some { IfOk result (λ o. IfSome o (λ walk. IsNegativeCycle self.now.flow walk.items)) }
        ensures none { IfOk result (λ o. IfNone o (AreAtLeast (cost_limit * node_count self.now.flow.net) self.now.prices)) }
        ensures wants { OnErr result (1 ≤ node_count self.now.flow.net) }
    {
        let net = self.state.net();
        let mut seen = NodeSet::new(alloc, net)?;
        let mut done = NodeSet::new(alloc, net)?;
        'nodes: for number in 0..net.node_count() {
            let mut path = Vec::new(alloc);
            let from = NodeId::at(number);
            let end = self.follow(&mut seen, &done, from, &mut path)?;
            if self.is_closed(&done, end) {
                let walk = self.close(alloc, path.as_slice(), end)?;
                return Ok(Some(walk));
            }
            self.finish(&mut done, path, end);
        }
        Ok(None)
    }

    /// The prices.
    pub(crate) fn into_prices(self) -> Vec<i128>
        ensures { result.items ≡ self.entry.prices }
    {
        let PriceSearch {
            state: _,
            prices,
            links: _,
        } = self;
        prices
    }
}
