//! The search: shortest paths to deficits, and the greatest prices.
ghost use Rattle.std.specs.Prelude.{◌≡◌};

use crate::heap::{Entry, Heap, NOTHING};
use crate::star::{LIMIT, Star, rid_of, send};
use crate::tuning::{MORE_PLACES, PLACES};
use mcf_columns::{NOWHERE, Pile, at, narrow, put};
use mcf_network::{Net, Rid, State};
use mcf_text::{NoMemory, NodeId, copies};
use std::alloc::Global;

/// The tables of a search: for each node, counted from 0, its label, which is the length of the
/// shortest path from it that was found, or `NOTHING`; the code of the first residual arc of that
/// path, or `NOWHERE`; and when it was settled.
#[derive(Drop)]
pub(crate) struct Search {
    pub(crate) star: Star,
    labels: Vec<i64>,
    pub(crate) exits: Vec<u32>,
    pub(crate) ranks: Vec<u32>,
    labelled: Pile,
    heap: Heap,
    // The nearest node with a surplus so far, and its label.
    source: u32,
    bound: i64,
    settled: u32,
    // How many more residual arcs may be read.
    budget: u64,
    // Whether the heap had a place for each entry, and no price is beyond the limit.
    fits: bool,
}

impl Search {
    /// Space for a net, with these prices.
    pub(crate) fn start(
        alloc: Global,
        net: &Net,
        prices: &[i64],
        budget: u64,
    ) -> Result<Search, NoMemory> {
        let nodes = net.node_count() as usize;
        Ok(Search {
            star: Star::start(alloc, net, prices)?,
            labels: copies(alloc, nodes, NOTHING)?,
            exits: copies(alloc, nodes, NOWHERE)?,
            ranks: copies(alloc, nodes, 0)?,
            labelled: Pile::start(alloc, nodes)?,
            heap: Heap::start(alloc, nodes * PLACES + MORE_PLACES)?,
            source: NOWHERE,
            bound: NOTHING,
            settled: 0,
            budget,
            fits: true,
        })
    }

    /// Changes the old flow so that the prices show it, and lists its residual arcs.
    pub(crate) fn lay_out(&mut self, state: &mut State<'_>, amounts: &[i64])
        ensures { state.new.net ≡ state.old.net }
    {
        self.star.lay_out(state, amounts, self.ranks.as_mut_slice());
    }

    /// Meets the deficit of a node along shortest paths from surpluses, and returns whether that
    /// succeeded.
    pub(crate) fn meet(&mut self, state: &mut State<'_>, sink: u32) -> bool
        ensures { state.new.net ≡ state.old.net }
    {
        'paths: for _ in 0..u64::MAX {
            if surplus_of(state, sink) >= 0 {
                return true;
            }
            self.label(sink, 0, NOWHERE);
            if !self.settle_all(state) || self.source == NOWHERE {
                return false;
            }
            self.lower();
            self.augment(state, sink);
            self.forget();
        }
        false
    }

    // Settles nodes in the order of their labels, up to the nearest node with a surplus, and
    // returns whether that succeeded.
    fn settle_all(&mut self, state: &State<'_>) -> bool {
        'nodes: for _ in 0..u64::MAX {
            let Some(entry) = self.heap.pop() else {
                break;
            };
            if entry.key >= self.bound {
                break;
            }
            if entry.key == at(&self.labels, entry.node, NOTHING) {
                self.scan(state, entry);
            }
            if self.budget == 0 {
                return false;
            }
        }
        self.fits
    }

    // Gives a node a label, and queues it.
    #[inline(always)]
    fn label(&mut self, node: u32, key: i64, exit: u32) {
        if at(&self.labels, node, NOTHING) == NOTHING {
            self.labelled.add(node);
        }
        put(&mut self.labels, node, key);
        put(&mut self.exits, node, exit);
        let has_place = self.heap.add(Entry { key, node });
        self.fits = self.fits && has_place;
    }

    // Settles a node: labels the tails of the residual arcs that enter it.
    fn scan(&mut self, state: &State<'_>, entry: Entry) {
        let (key, node) = (entry.key, entry.node);
        put(&mut self.ranks, node, self.settled);
        self.settled = self.settled.wrapping_add(1);
        let (first, end) = (self.star.first(node), self.star.end(node));
        self.budget = self
            .budget
            .saturating_sub(u64::from(end.wrapping_sub(first)));
        'places: for place in first..end {
            let Some(step) = self.star.entering(state.net(), node, place) else {
                continue;
            };
            let key = key.saturating_add(step.reduced.max(0));
            if key >= self.bound || key >= at(&self.labels, step.node, NOTHING) {
                continue;
            }
            self.label(step.node, key, step.code);
            if surplus_of(state, step.node) > 0 {
                self.bound = key;
                self.source = step.node;
            }
        }
    }

    // Lowers the price of each node with a label below that of the source by the difference.
    fn lower(&mut self) {
        'nodes: for place in 0..self.labelled.len() {
            let node = self.labelled.get(place);
            let fall = self.bound.saturating_sub(at(&self.labels, node, NOTHING));
            if fall > 0 {
                let price = self.star.price(node).saturating_sub(fall);
                put(&mut self.star.prices, node, price);
                self.fits = self.fits && price >= LIMIT.wrapping_neg();
            }
        }
    }

    // Sends along the path from the source what that has, the sink lacks and the path can carry.
    fn augment(&mut self, state: &mut State<'_>, sink: u32)
        ensures { state.new.net ≡ state.old.net }
    {
        let lack = 0i128.saturating_sub(surplus_of(state, sink));
        let mut amount = surplus_of(state, self.source).min(lack);
        let mut node = self.source;
        'path: for _ in 0..self.labelled.len() {
            let Some(r) = rid_of(state.net(), at(&self.exits, node, NOWHERE)) else {
                break;
            };
            let (arc, back) = (r.arc, r.back);
            amount = amount.min(state.room(Rid { arc, back }));
            let (_, head) = state.net().route(r);
            node = head.get().wrapping_sub(1);
        }
        self.push_path(state, amount);
    }

    // Pushes an amount along the path from the source.
    fn push_path(&mut self, state: &mut State<'_>, amount: i128)
        ensures { state.new.net ≡ state.old.net }
    {
        let mut node = self.source;
        'path: for _ in 0..self.labelled.len() {
            let code = at(&self.exits, node, NOWHERE);
            let Some(r) = rid_of(state.net(), code) else {
                break;
            };
            let (arc, back) = (r.arc, r.back);
            send(state, Rid { arc, back }, amount);
            self.star.mark(state, code);
            let (_, head) = state.net().route(r);
            node = head.get().wrapping_sub(1);
        }
    }

    // Removes all labels.
    fn forget(&mut self) {
        'nodes: for place in 0..self.labelled.len() {
            put(&mut self.labels, self.labelled.get(place), NOTHING);
        }
        self.labelled.clear();
        self.heap.clear();
        self.bound = NOTHING;
        self.source = NOWHERE;
        self.settled = 0;
    }

    /// Raises the prices of a state without surplus to the greatest that show it, and returns
    /// whether that succeeded.
    pub(crate) fn raise(&mut self, state: &State<'_>) -> bool {
        self.label_highest();
        self.bound = 1;
        if !self.settle_all(state) {
            return false;
        }
        self.bound = NOTHING;
        self.heap.clear();
        self.label_others(state.net());
        if !self.settle_all(state) {
            return false;
        }
        self.raise_all();
        true
    }

    // Labels the nodes of price 0.
    fn label_highest(&mut self) {
        'nodes: for node in 0..narrow(self.star.prices.len()) {
            if self.star.price(node) >= 0 {
                self.label(node, 0, NOWHERE);
            }
        }
    }

    // Labels the nodes that aren't settled.
    fn label_others(&mut self, net: &Net) {
        'nodes: for node in 0..net.node_count() {
            if at(&self.labels, node, 0) == NOTHING {
                self.label_other(net, node);
            }
        }
    }

    // Labels a node by its price and by the residual arcs from it to settled nodes.
    fn label_other(&mut self, net: &Net, node: u32) {
        let mut key = 0i64.saturating_sub(self.star.price(node));
        let mut exit = NOWHERE;
        'places: for place in self.star.first(node)..self.star.end(node) {
            let Some(step) = self.star.leaving(net, node, place) else {
                continue;
            };
            if step.reduced < key && at(&self.labels, step.node, NOTHING) == 0 {
                key = step.reduced;
                exit = step.code;
            }
        }
        self.label(node, key, exit);
    }

    // Adds to each price its label.
    fn raise_all(&mut self) {
        'nodes: for node in 0..narrow(self.labels.len()) {
            let price = self
                .star
                .price(node)
                .saturating_add(at(&self.labels, node, 0));
            put(&mut self.star.prices, node, price);
        }
    }
}

/// The surplus of a node, counted from 0, or 0 if there is no such node.
#[inline(always)]
pub(crate) fn surplus_of(state: &State<'_>, node: u32) -> i128 {
    if node >= state.net().node_count() {
        return 0;
    }
    state.surplus(NodeId::at(node))
}
