//! A partial matching in numbers of one width.
ghost use Rattle.std.specs.Prelude.{◌≡◌, ◌≤◌, ◌↔◌, [], IfOk, IsTrue, OnErr, length, pos, replicate};
ghost use Rattle.std.specs.List.{All};
ghost use Rattle.mcf_flows.specs.declared.problem.Problem.TheVariants.{Asn};
ghost use Rattle.mcf_flows.specs.Network.{IsNode, node_count};
ghost use Rattle.mcf_flows.specs.WellFormed.{IsUpTo};
ghost use Rattle.mcf_network.specs.NodeSets.{no_nodes};
ghost use Rattle.mcf_network.specs.Nets.{greatest_cost};
ghost use Rattle.mcf_matching.specs.Extending.{IsExtension, IsMatched, IsShownMatching};
ghost use Rattle.mcf_matching.specs.Matchings.{IsMatchedRow, IsRow, price_limit};
ghost use Rattle.mcf_matching.specs.Private.Reaches.{HasWidth};
ghost use Rattle.mcf_matching.specs.Private.Updating.{IsRepriced};

use crate::augmenting::fill;
use crate::extended::Extended;
use crate::prices::{first_prices, price_reach, widen};
use crate::regime::{NODES_PER_PAIR, is_sparse};
use crate::rows::Rows;
use crate::scene::{Mate, Scene};
use crate::search::Tables;
use crate::update::Update;
use mcf_network::{Net, NodeSet, State};
use mcf_numbers::{Count, Number, Width};
use mcf_text::{ArcId, NoMemory, NodeId, copies};
use std::alloc::Global;
use std::marker::Model;
use std::mem::swap;

/// A partial matching whose prices and distances are numbers of one width. Clauses see the same as
/// of a `Matching`.
#[derive(Drop)]
pub(crate) struct Partial<'n, W: Width> {
    state: State<'n>,
    rows: Rows,
    prices: Vec<Number<W>>,
    wide: Vec<i128>,
    mates: Vec<Mate>,
    tables: Tables<W>,
    reached: NodeSet,
    update: Update,
}

impl<'n, W: Width> Model for Partial<'n, W> {
    ghost use Rattle.mcf_matching.specs.Extending.{Assigned};

    ghost Value = { Assigned };

    ghost use Rattle.mcf_matching.specs.Private.Keeping.{IsKept};

    ghost view = { λ a. record { flow = a.state; prices = a.prices.items; settled = a.tables.order.items; reached = a.reached; searches = a.tables.searches.number } };

    ghost use Rattle.std.specs.Prelude.{◌≡◌, length};
    ghost use Rattle.mcf_flows.specs.Network.{node_count};
    ghost use Rattle.mcf_matching.specs.Private.Reaches.{HasWidth};
    ghost use Rattle.mcf_matching.specs.Private.RowLists.{AreRows};

    ghost invariant = { λ a. IsKept a.state a.prices.items a.mates.items a.tables a.reached × AreRows a.state.net a.rows × HasWidth W.room a.state.net
        × (length a.wide.items ≡ node_count a.state.net) };
}

impl<'n, W: Width> Partial<'n, W> {
    /// The matching without pairs. All memory for its searches is allocated here.
    pub(crate) fn start(
        alloc: Global,
        net: &'n Net,
        greatest: u128,
    ) -> Result<Partial<'n, W>, NoMemory>
        requires assignment { net.now.problem ≡ Asn }
        requires greatest { greatest ≡ greatest_cost net.now.arcs }
        requires width { HasWidth W.room net.now }
        ensures value { IfOk result (λ m. m.flow ≡ record { net = net.now; amounts = replicate (length net.now.arcs) (pos 0) }) }
        ensures shown { IfOk result IsShownMatching }
        ensures settled { IfOk result (λ m. m.settled ≡ []) }
        ensures reached { IfOk result (λ m. m.reached ≡ no_nodes (node_count net.now)) }
        ensures searches { IfOk result (λ m. m.searches ≡ 0) }
        ensures wants { OnErr result (1 ≤ node_count net.now) }
    {
        let nodes = net.node_count() as usize;
        let state = State::zero(alloc, net)?;
        let rows = Rows::new(alloc, net)?;
        let prices = first_prices(alloc, net, greatest)?;
        let mates = copies(alloc, nodes, Mate { arc: 0, node: 0 })?;
        Ok(Partial {
            state,
            rows,
            prices,
            wide: copies(alloc, nodes, 0)?,
            mates,
            tables: Tables::new(alloc, net)?,
            reached: NodeSet::new(alloc, net)?,
            update: Update::new(alloc, net)?,
        })
    }

    /// Searches from a row, and augments along the path that was found.
    pub(crate) fn grow(&mut self, row: NodeId) -> Extended
        requires row { IsRow self.old.flow row }
        requires free { ¬ IsMatchedRow self.old.flow row }
        ensures extended { IsExtension self.old row result self.new }
        ensures shown { IsShownMatching self.new }
    {
        let scene = Scene {
            state: &self.state,
            rows: &self.rows,
            prices: self.prices.as_slice(),
            mates: self.mates.as_slice(),
        };
        match self.tables.search(&scene, row) {
            Some(target) => {
                let prices = self.prices.as_mut_slice();
                let mates = self.mates.as_mut_slice();
                let arc = ArcId::new(target.arc);
                let state = &mut self.state;
                self.tables.augment(state, prices, mates, arc, target.dist);
                Extended::Matched
            }
            None => {
                fill(&mut self.reached, self.tables.order.as_slice());
                Extended::Blocked
            }
        }
    }

    /// Whether an arc of amount 1 ends at a node.
    pub(crate) fn matched(&self, v: NodeId) -> bool
        requires { IsNode (node_count self.now.flow.net) v }
        ensures value { IsTrue result ↔ IsMatched self.now.flow v }
        ensures shown { IsShownMatching self.now }
    {
        self.mates[v.place()].arc > 0
    }

    /// The nodes that the last search settled, each once, the row first; none before the first
    /// search.
    pub(crate) fn settled(&self) -> &[NodeId]
        ensures value { result.now ≡ self.now.settled }
        ensures shown { IsShownMatching self.now }
    {
        self.tables.order.as_slice()
    }

    /// The set reached by the last search that found no path; empty before there is one.
    pub(crate) fn reached(&self) -> &NodeSet
        ensures value { result.now ≡ self.now.reached }
        ensures one_per_node { length result.now ≡ node_count self.now.flow.net }
        ensures shown { IsShownMatching self.now }
    {
        &self.reached
    }

    /// The state, the prices, and the number of searches.
    pub(crate) fn into_parts(self) -> (State<'n>, Vec<i128>, Count)
        ensures state { result.0 ≡ self.entry.flow }
        ensures prices { result.1.items ≡ self.entry.prices }
        ensures small { All (IsUpTo price_limit) self.entry.prices }
        ensures shown { IsShownMatching self.entry }
        ensures searches { result.2.number ≡ self.entry.searches }
    {
        let Partial {
            state,
            prices,
            mut wide,
            tables,
            ..
        } = self;
        widen(wide.as_mut_slice(), prices.as_slice());
        let Tables { searches, .. } = tables;
        (state, wide, searches)
    }

    /// The set reached by the last search that found no path, and the number of searches.
    pub(crate) fn into_reached(self) -> (NodeSet, Count)
        ensures reached { result.0 ≡ self.entry.reached }
        ensures one_per_node { length result.0 ≡ node_count self.entry.flow.net }
        ensures searches { result.1.number ≡ self.entry.searches }
    {
        let Partial {
            tables,
            reached,
            ..
        } = self;
        let Tables { searches, .. } = tables;
        (reached, searches)
    }
}

impl<'n> Partial<'n, i64> {
    /// Updates all prices, if that pays now, searches from a row, and augments along the path that
    /// was found.
    pub(crate) fn extend(&mut self, row: NodeId) -> Extended
        requires row { IsRow self.old.flow row }
        requires free { ¬ IsMatchedRow self.old.flow row }
        ensures extended { IsExtension self.old row result self.new }
        ensures shown { IsShownMatching self.new }
    {
        self.refresh(row);
        self.grow(row)
    }

    // Updates all prices, if that pays now. Nothing else changes, and the new prices show the
    // matching.
    fn refresh(&mut self, row: NodeId)
        requires row { IsRow self.old.flow row }
        requires free { ¬ IsMatchedRow self.old.flow row }
        ensures repriced { IsRepriced self.old self.new }
        ensures shown { IsShownMatching self.new }
    {
        if !self.is_due() {
            return;
        }
        self.tables.pairs = 0;
        let reach = price_reach(self.state.net(), self.prices[row.place()]);
        let scene = Scene {
            state: &self.state,
            rows: &self.rows,
            prices: self.prices.as_slice(),
            mates: self.mates.as_slice(),
        };
        if self.update.run(&scene, reach) {
            swap(&mut self.prices, &mut self.update.prices);
        }
    }

    // Whether an update of all prices pays now.
    fn is_due(&self) -> bool {
        let net = self.state.net();
        is_sparse(net) && self.tables.pairs > u64::from(net.node_count()) / NODES_PER_PAIR
    }
}
