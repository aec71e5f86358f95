//! The judge of prices: whether they are the greatest.
ghost use Rattle.std.specs.Prelude.{◌≡◌, ◌+ℤ◌, ◌<◌, ◌≤ℤ◌, IfSome, length, pos, slice_index_or, true};
ghost use Rattle.std.specs.List.{All};
ghost use Rattle.mcf_flows.specs.Network.{IsArcNumber, IsNode, at_node, node_count};
ghost use Rattle.mcf_flows.specs.WellFormed.{IsUpTo};
ghost use Rattle.mcf_network.specs.Residual.{head, tail, unit_cost};
ghost use Rattle.mcf_again.specs.Private.Exits.{HasExit, IsExit, rank_of};
ghost use Rattle.mcf_engine.specs.NearPrices.{AreNearPrices, near_limit};
ghost use Rattle.mcf_engine.specs.Outcomes.{AreStatePrices};

use crate::star::rid_of;
use mcf_columns::{NOWHERE, at};
use mcf_network::{Net, Rid, State};
use mcf_text::NodeId;

/// Returns whether prices that show the flow of a state are the greatest: from each node of a price
/// below 0, the residual arc with the node's code in `exits` has room and a reduced cost of 0, and
/// leads to a node of lower rank.
pub(crate) fn are_greatest(state: &State<'_>, prices: &[i128], exits: &[u32], ranks: &[u32]) -> bool
    requires near { AreNearPrices state.now 1 0 prices.now }
    ensures { result ≡ true → AreStatePrices state.now.net state.now prices.now }
{
    if ranks.len() != prices.len() {
        return false;
    }
    'nodes: for number in 0..state.net().node_count() {
        let code = at(exits, number, NOWHERE);
        if !has_exit(state, prices, ranks, NodeId::at(number), code) {
            return false;
        }
    }
    true
}

// Whether a node has price 0, or the residual arc with a code is an exit of it.
fn has_exit(state: &State<'_>, prices: &[i128], ranks: &[u32], v: NodeId, code: u32) -> bool
    requires node { IsNode (node_count state.now.net) v }
    requires count { length prices.now ≡ node_count state.now.net }
    requires ranks { length ranks.now ≡ length prices.now }
    requires small { All (IsUpTo near_limit) prices.now }
    ensures { result ≡ true → HasExit state.now prices.now ranks.now v }
{
    let price = price_of(prices, v);
    if price >= 0 {
        return price <= 0;
    }
    let Some(r) = rid_of(state.net(), code) else {
        return false;
    };
    is_exit(state, prices, ranks, v, r)
}

// Whether a residual arc is an exit of a node.
fn is_exit(state: &State<'_>, prices: &[i128], ranks: &[u32], v: NodeId, r: Rid) -> bool
    requires arc { IsArcNumber state.now.net r.arc }
    requires node { IsNode (node_count state.now.net) v }
    requires count { length prices.now ≡ node_count state.now.net }
    requires ranks { length ranks.now ≡ length prices.now }
    requires small { All (IsUpTo near_limit) prices.now }
    ensures { result ≡ true → IsExit state.now prices.now ranks.now v r }
{
    let (arc, back) = (r.arc, r.back);
    let (tail, head) = state.net().route(Rid { arc, back });
    if tail != v || rank_of(ranks, v) <= rank_of(ranks, head) {
        return false;
    }
    if price_of(prices, v) < offer_of(state.net(), prices, Rid { arc, back }) {
        return false;
    }
    state.room(r) > 0
}

// The price that a residual arc offers its tail.
fn offer_of(net: &Net, prices: &[i128], r: Rid) -> i128
    requires arc { IsArcNumber net.now r.arc }
    requires count { length prices.now ≡ node_count net.now }
    requires small { All (IsUpTo near_limit) prices.now }
    ensures { result ≡ unit_cost net.now r +ℤ at_node prices.now (head net.now r) }
{
    let (arc, back) = (r.arc, r.back);
    let (_, head) = net.route(Rid { arc, back });
    cost_of(net, r) + price_of(prices, head)
}

// The cost of a residual arc.
fn cost_of(net: &Net, r: Rid) -> i128
    requires { IsArcNumber net.now r.arc }
    ensures value { result ≡ unit_cost net.now r }
    ensures small { IsUpTo near_limit result }
{
    net.unit_cost(r)
}

// The rank of a node.
fn rank_of(ranks: &[u32], v: NodeId) -> u32
    requires { IsNode (length ranks.now) v }
    ensures { result ≡ rank_of ranks.now v }
{
    ranks[v.place()]
}

// The price of a node.
fn price_of(prices: &[i128], v: NodeId) -> i128
    requires node { IsNode (length prices.now) v }
    requires small { All (IsUpTo near_limit) prices.now }
    ensures value { result ≡ at_node prices.now v }
    ensures small { IsUpTo near_limit result }
{
    prices[v.place()]
}
