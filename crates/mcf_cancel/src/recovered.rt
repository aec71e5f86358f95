//! Prices or a negative cycle, recovered from a state.
ghost use Rattle.std.specs.Prelude.{◌≤◌, IfNone, IfOk, IfSome, OnErr};
ghost use Rattle.mcf_flows.specs.Flow.{AreGreatestPrices};
ghost use Rattle.mcf_flows.specs.Network.{node_count};
ghost use Rattle.mcf_engine.specs.NegativeCycles.{IsNegativeCycle};
ghost use Rattle.mcf_engine.specs.SmallPrices.{AreSmallPrices};
ghost use Rattle.mcf_cancel.specs.Private.Rounds.{IsReady};
ghost use Rattle.mcf_cancel.specs.Recovering.{HasSmallPrices, IsRecovered};

use crate::price_search::PriceSearch;
use crate::queue::NodeQueue;
use mcf_network::{Rid, State};
use mcf_text::NoMemory;
use std::alloc::Global;
use std::mem;

/// What shows whether the flow of a state is least.
#[derive(Debug, Drop)]
pub enum Recovered {
    /// The greatest prices not above 0 that show the flow, one for each node, in order.
    Prices(Vec<i128>),
    /// Residual arcs with room, each of which begins where the previous one ends, and the first
    /// where the last ends. No two of them leave the same node, and their costs sum to less than 0.
    Cycle(Vec<Rid>),
}

/// The greatest prices not above 0 that show the flow of a state, or a negative cycle.
///
/// It lowers the prices of nodes, from 0, along residual arcs with room, in rounds: the nodes whose
/// price fell in one round relax the residual arcs that enter them in the next (Bellman, Ford and
/// Moore; Ahuja, Magnanti and Orlin, Network Flows, sections 5.4 and 5.5). After each round it
/// looks for a cycle of the arcs that set the prices. So there are at most as many rounds as nodes,
/// each in time linear in the nodes and arcs, and with n nodes no returned price is further below 0
/// than n - 1 times the greatest absolute value of a cost.
///
/// # Errors
///
/// `NoMemory` if an allocation is refused; a net without nodes needs none.
pub fn recover(alloc: Global, state: &State<'_>) -> Result<Recovered, NoMemory>
    ensures recovered { IfOk result (IsRecovered state.now) }
    ensures small { IfOk result (HasSmallPrices state.now.net) }
    ensures wants { OnErr result (1 ≤ node_count state.now.net) }
{
    let net = state.net();
    let mut search = PriceSearch::start(alloc, state)?;
    let mut waiting = NodeQueue::all(alloc, net)?;
    let mut fallen = NodeQueue::new(alloc, net)?;
    match lower_all(alloc, state, &mut search, &mut waiting, &mut fallen)? {
        Some(walk) => Ok(Recovered::Cycle(walk)),
        None => Ok(Recovered::Prices(search.into_prices())),
    }
}

// Lowers the prices, round by round, until they show the flow of the state, or finds a negative
// cycle.
fn lower_all(
    alloc: Global,
    state: &State<'_>,
    search: &mut PriceSearch<'_, '_>,
    waiting: &mut NodeQueue,
    fallen: &mut NodeQueue,
) -> Result<Option<Vec<Rid>>, NoMemory>
    requires { IsReady state.now search.old waiting.old fallen.old }
    ensures some { IfOk result (λ o. IfSome o (λ walk. IsNegativeCycle state.now walk.items)) }
    ensures none { IfOk result (λ o. IfNone o (AreGreatestPrices state.now.net search.new.prices state.now.amounts × AreSmallPrices state.now.net search.new.prices)) }
    ensures wants { OnErr result (1 ≤ node_count state.now.net) }
{
    'rounds: loop {
        search.round(waiting, fallen)?;
        if fallen.is_empty() {
            return Ok(None);
        }
        if let Some(walk) = search.cycle(alloc)? {
            return Ok(Some(walk));
        }
        mem::swap(waiting, fallen);
        fallen.clear();
    }
}
