//! A judge of prices that were made for all nodes at once: whether they show a matching.
ghost use Rattle.std.specs.Prelude.{◌≡◌, ◌-◌, ◌^◌, ◌≤ℤ◌, ◌+ℤ◌, ℕ, length, pos, true};
ghost use Rattle.std.specs.List.{All};
ghost use Rattle.mcf_flows.specs.Network.{IsArcNumber, IsNode, at_node, node_count};
ghost use Rattle.mcf_flows.specs.WellFormed.{IsUpTo};
ghost use Rattle.mcf_matching.specs.declared.rows.RowArc.{RowArc};
ghost use Rattle.mcf_matching.specs.Matchings.{row_of};
ghost use Rattle.mcf_matching.specs.Private.Reaches.{price_reach};
ghost use Rattle.mcf_matching.specs.Private.Scenes.{IsScene};
ghost use Rattle.mcf_matching.specs.Private.Updating.{AreUpdated, DoesArcFit, DoesNodeFit, IsReadable};

use crate::rows::{RowArc, row_arc};
use crate::scene::Scene;
use mcf_numbers::Number;
use mcf_text::{ArcId, NodeId};

/// Whether new prices are near 0 and show the matching of a scene, none is less than before, and
/// those of free nodes are unchanged. The answer is no if a row has arcs that aren't kept.
pub(crate) fn are_shown(
    scene: &Scene<'_, '_, i64>,
    prices: &[Number<i64>],
    reach: Number<i64>,
) -> bool
    requires scene { IsScene (2 ^ 63 - 1) scene.now.state.now scene.now.rows.now scene.now.prices.now scene.now.mates.now }
    requires reach { reach ≡ pos (price_reach scene.now.state.now.net) }
    ensures { result ≡ true → AreUpdated scene.now.state.now scene.now.prices.now prices.now }
{
    if prices.len() != scene.mates.len() || !do_nodes_fit(scene, prices, reach) {
        return false;
    }
    do_rows_fit(scene, prices)
}

// Whether each node's new price passes.
fn do_nodes_fit(scene: &Scene<'_, '_, i64>, prices: &[Number<i64>], reach: Number<i64>) -> bool
    requires scene { IsScene (2 ^ 63 - 1) scene.now.state.now scene.now.rows.now scene.now.prices.now scene.now.mates.now }
    requires count { length prices.now ≡ node_count scene.now.state.now.net }
    requires reach { reach ≡ pos (price_reach scene.now.state.now.net) }
    ensures { result ≡ true → (v : ℕ) → IsNode (node_count scene.now.state.now.net) v
        → DoesNodeFit scene.now.state.now scene.now.prices.now v (at_node prices.now v) }
{
    'nodes: for number in 0..scene.state.net().node_count() {
        if !does_node_fit(scene, NodeId::at(number), prices[number as usize], reach) {
            return false;
        }
    }
    true
}

// Whether a node's new price passes: it is near 0 and no less than before, and that of a free node
// is unchanged.
#[inline(always)]
fn does_node_fit(
    scene: &Scene<'_, '_, i64>,
    v: NodeId,
    price: Number<i64>,
    reach: Number<i64>,
) -> bool
    requires scene { IsScene (2 ^ 63 - 1) scene.now.state.now scene.now.rows.now scene.now.prices.now scene.now.mates.now }
    requires node { IsNode (node_count scene.now.state.now.net) v }
    requires reach { reach ≡ pos (price_reach scene.now.state.now.net) }
    ensures { result ≡ true → DoesNodeFit scene.now.state.now scene.now.prices.now v price }
{
    let i = v.place();
    let old = scene.prices[i];
    if price < Number::of(0).minus(reach) || reach < price || price < old {
        return false;
    }
    price == old || scene.mates[i].arc > 0
}

// Whether new prices pass for the arcs of each row.
fn do_rows_fit(scene: &Scene<'_, '_, i64>, prices: &[Number<i64>]) -> bool
    requires scene { IsScene (2 ^ 63 - 1) scene.now.state.now scene.now.rows.now scene.now.prices.now scene.now.mates.now }
    requires count { length prices.now ≡ node_count scene.now.state.now.net }
    requires near { (v : ℕ) → IsNode (node_count scene.now.state.now.net) v → IsUpTo (price_reach scene.now.state.now.net) (at_node prices.now v) }
    ensures { result ≡ true → (k : ℕ) → IsArcNumber scene.now.state.now.net k → DoesArcFit scene.now.state.now prices.now k }
{
    'nodes: for number in 0..scene.state.net().node_count() {
        if !does_row_fit(scene, prices, NodeId::at(number)) {
            return false;
        }
    }
    true
}

// Whether new prices pass for the arcs that leave a node: no reduced cost is below 0, and it is 0
// for the arc with which the node is matched.
#[inline(always)]
fn does_row_fit(scene: &Scene<'_, '_, i64>, prices: &[Number<i64>], v: NodeId) -> bool
    requires scene { IsScene (2 ^ 63 - 1) scene.now.state.now scene.now.rows.now scene.now.prices.now scene.now.mates.now }
    requires count { length prices.now ≡ node_count scene.now.state.now.net }
    requires near { (u : ℕ) → IsNode (node_count scene.now.state.now.net) u → IsUpTo (price_reach scene.now.state.now.net) (at_node prices.now u) }
    requires node { IsNode (node_count scene.now.state.now.net) v }
    ensures { result ≡ true → (k : ℕ) → IsArcNumber scene.now.state.now.net k → row_of scene.now.state.now k ≡ v → DoesArcFit scene.now.state.now prices.now k }
{
    let span = scene.rows.span(v);
    if span.others.is_some() {
        return false;
    }
    if span.start == span.end {
        return true;
    }
    let price = prices[v.place()];
    if least_offer(scene.rows.between(span.start, span.end), prices) < price {
        return false;
    }
    let mate = scene.mates[v.place()].arc;
    if mate == 0 {
        return true;
    }
    let pair = row_arc(scene.state.net(), ArcId::new(mate));
    offer(pair, prices) <= price
}

// The least offer of some arcs.
fn least_offer(arcs: &[RowArc], prices: &[Number<i64>]) -> Number<i64>
    requires { All (IsReadable prices.now) arcs.now }
    ensures { All (λ (a : RowArc). result ≤ℤ (a.cost +ℤ at_node prices.now a.column)) arcs.now }
{
    let mut least = Number::of(i64::MAX);
    'arcs: for a in arcs {
        least = least.min(offer(*a, prices));
    }
    least
}

// What an arc offers its row: its cost plus the price of its column.
#[inline(always)]
fn offer(a: RowArc, prices: &[Number<i64>]) -> Number<i64>
    requires { IsReadable prices.now a }
    ensures { result ≡ a.cost +ℤ at_node prices.now a.column }
{
    Number::of(a.cost).plus(prices[a.column as usize - 1])
}
