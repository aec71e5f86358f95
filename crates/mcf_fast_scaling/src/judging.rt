//! The judge of the search's result: whether it is a flow without surplus that its prices show.
ghost use Rattle.std.specs.Prelude.{◌≡◌, ◌+ℤ◌, ◌-ℤ◌, ◌<ℤ◌, ◌≤ℤ◌, length, pos, true};
ghost use Rattle.std.specs.List.{All};
ghost use Rattle.mcf_flows.specs.Flow.{IsComplementary, Shows, reduced_cost};
ghost use Rattle.mcf_flows.specs.Network.{IsArcNumber, IsNode, at_node, node_count};
ghost use Rattle.mcf_flows.specs.WellFormed.{IsUpTo};
ghost use Rattle.mcf_network.specs.Residual.{arc_at};
ghost use Rattle.mcf_network.specs.States.{HasNoSurplus, IsPseudoflow, amount_at, surplus_at};
ghost use Rattle.mcf_engine.specs.NearPrices.{AreNearPrices, near_limit};
ghost use Rattle.mcf_engine.specs.Outcomes.{IsLeastState};

use crate::star::Star;
use mcf_columns::{count_up, narrow};
use mcf_network::{Net, Rid, State};
use mcf_text::{ArcId, NodeId};

/// Writes the result of a search into a state, and returns whether it is a least flow that the
/// prices show. `nexts` is a table of the nodes.
pub(crate) fn judge(
    star: &Star,
    nexts: &mut [u32],
    state: &mut State<'_>,
    prices: &mut [i128],
) -> bool
    requires count { length prices.old ≡ node_count state.old.net }
    requires small { All (IsUpTo near_limit) prices.old }
    ensures net { state.new.net ≡ state.old.net }
    ensures count { length prices.new ≡ length prices.old }
    ensures least { result ≡ true → IsLeastState state.old.net state.new }
    ensures near { result ≡ true → AreNearPrices state.new 1 0 prices.new }
{
    carry_all(star, nexts, state);
    write_prices(star, prices);
    is_shown(state, prices)
}

/// Returns whether a state has no surplus, and prices show its flow, so that it is least: no
/// residual arc with room has a reduced cost below 0 (Ahuja, Magnanti and Orlin, Network Flows,
/// section 9.3).
pub fn is_shown(state: &State<'_>, prices: &[i128]) -> bool
    requires count { length prices.now ≡ node_count state.now.net }
    requires small { All (IsUpTo near_limit) prices.now }
    ensures least { result ≡ true → IsLeastState state.now.net state.now }
    ensures near { result ≡ true → AreNearPrices state.now 1 0 prices.now }
{
    has_no_surplus(state) && shows(state, prices)
}

// Sets the amount of each arc to that of the search, whose forward arcs of each node lie in the
// order of the net.
fn carry_all(star: &Star, nexts: &mut [u32], state: &mut State<'_>)
    ensures net { state.new.net ≡ state.old.net }
    ensures flow { IsPseudoflow state.new }
{
    let net = state.net();
    star.write_firsts(nexts, 0);
    'arcs: for number in 0..net.arc_count() {
        let arc = ArcId::at(number);
        let (src, dst) = net.ends(arc);
        if src != dst {
            leave(state, arc, star.room(count_up(nexts, src.get() - 1)));
        }
    }
}

// Lets an arc carry more until it has this much residual capacity, as far as possible.
fn leave(state: &mut State<'_>, arc: ArcId, left: i64)
    requires arc { IsArcNumber state.old.net arc }
    ensures net { state.new.net ≡ state.old.net }
    ensures flow { IsPseudoflow state.new }
{
    let forward = Rid { arc, back: false };
    let room = state.room(forward);
    let amount = room.saturating_sub(i128::from(left)).max(0).min(room);
    state.push(Rid { arc, back: false }, amount);
}

// Writes the price of each node: the negative of the search's price.
fn write_prices(star: &Star, prices: &mut [i128])
    requires small { All (IsUpTo near_limit) prices.old }
    ensures count { length prices.new ≡ length prices.old }
    ensures small { All (IsUpTo near_limit) prices.new }
{
    'nodes: for i in 0..prices.len() {
        prices[i] = -i128::from(star.price(narrow(i)));
    }
}

// Whether no node has a surplus or a deficit.
fn has_no_surplus(state: &State<'_>) -> bool
    ensures none { result ≡ true → HasNoSurplus state.now }
    ensures valid { IsPseudoflow state.now }
{
    'nodes: for number in 0..state.net().node_count() {
        if !is_met(state, NodeId::at(number)) {
            return false;
        }
    }
    true
}

// Whether a node has no surplus and no deficit.
fn is_met(state: &State<'_>, v: NodeId) -> bool
    requires { IsNode (node_count state.now.net) v }
    ensures { result ≡ true → surplus_at state.now v ≡ pos 0 }
{
    let surplus = state.surplus(v);
    surplus <= 0 && surplus >= 0
}

// Whether prices show the flow of a state.
fn shows(state: &State<'_>, prices: &[i128]) -> bool
    requires count { length prices.now ≡ node_count state.now.net }
    requires small { All (IsUpTo near_limit) prices.now }
    ensures { result ≡ true → Shows state.now.net.arcs prices.now state.now.amounts }
{
    'arcs: for number in 0..state.net().arc_count() {
        if !shows_at(state, prices, ArcId::at(number)) {
            return false;
        }
    }
    true
}

// Whether they show what an arc carries.
fn shows_at(state: &State<'_>, prices: &[i128], k: ArcId) -> bool
    requires arc { IsArcNumber state.now.net k }
    requires count { length prices.now ≡ node_count state.now.net }
    requires small { All (IsUpTo near_limit) prices.now }
    ensures { result ≡ true → IsComplementary prices.now (arc_at state.now.net k) (amount_at state.now k) }
{
    let net = state.net();
    let reduced = reduced_of(net, prices, k);
    is_complementary(reduced, state.amount(k), net.width(k))
}

// Whether an amount is that of an arc of this reduced cost.
fn is_complementary(reduced: i128, amount: i128, width: i128) -> bool
    requires low { pos 0 ≤ℤ amount }
    requires high { amount ≤ℤ width }
    ensures above { result ≡ true → pos 0 <ℤ reduced → amount ≡ pos 0 }
    ensures below { result ≡ true → reduced <ℤ pos 0 → amount ≡ width }
{
    if reduced > 0 {
        return amount <= 0;
    }
    if reduced < 0 {
        return amount >= width;
    }
    true
}

// The reduced cost of an arc.
fn reduced_of(net: &Net, prices: &[i128], k: ArcId) -> i128
    requires arc { IsArcNumber net.now k }
    requires count { length prices.now ≡ node_count net.now }
    requires small { All (IsUpTo near_limit) prices.now }
    ensures { result ≡ reduced_cost prices.now (arc_at net.now k) }
{
    let (src, dst) = net.ends(k);
    net.cost(k) - price_of(prices, src) + price_of(prices, dst)
}

// The price of a node.
fn price_of(prices: &[i128], v: NodeId) -> i128
    requires node { IsNode (length prices.now) v }
    requires small { All (IsUpTo near_limit) prices.now }
    ensures value { result ≡ at_node prices.now v }
    ensures small { IsUpTo near_limit result }
{
    prices[v.place()]
}
