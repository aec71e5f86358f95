//! The residual arcs of a node that are still to be scanned: those from its current arc on.
ghost use Rattle.std.specs.Prelude.{◌≡◌, ◌≤◌, ◌⊎◌, [], IfNone, IfOk, IfSome, OnErr};
ghost use Rattle.std.specs.List.{All, Contains};
ghost use Rattle.mcf_flows.specs.Network.{IsNode, node_count};
ghost use Rattle.mcf_network.specs.declared.rid.Rid.{Rid};
ghost use Rattle.mcf_network.specs.Stars.{Leaves};
ghost use Rattle.mcf_scaling.specs.Private.CurrentArcs.{AreFirsts, rest_from};
ghost use Rattle.mcf_scaling.specs.Private.Stars.{AreCapacityMarks, IsStarOf, span_of};
ghost use Rattle.mcf_scaling.specs.Optimality.{AreSmallPrices, IsAdmissible};

use crate::pricing::{is_admissible, price_of};
use crate::star::{ForwardStar, residual_of};
use mcf_network::{Net, Rid, State};
use mcf_text::{NoMemory, NodeId};
use std::alloc::Global;

/// The first residual arc with room and negative reduced cost, from the current arc on. Those
/// before it aren't scanned again.
pub(crate) fn next_admissible(
    state: &State<'_>,
    prices: &[i128],
    star: &ForwardStar,
    has_capacity: &[bool],
    v: NodeId,
    current: &mut usize,
) -> Option<Rid>
    requires star { IsStarOf state.now.net star.now }
    requires marks { AreCapacityMarks state.now star.now has_capacity.now }
    requires prices { AreSmallPrices (node_count state.now.net) prices.now }
    requires node { IsNode (node_count state.now.net) v }
    requires within { current.old ≤ (span_of star.now v).end }
    requires leaves { All (Leaves state.now.net v) (rest_from star.now v current.old) }
    ensures within { current.new ≤ (span_of star.now v).end }
    ensures leaves { All (Leaves state.now.net v) (rest_from star.now v current.new) }
    ensures passed { (r : Rid) → Contains (rest_from star.now v current.old) r
        → (¬ IsAdmissible state.now prices.now r) ⊎ Contains (rest_from star.now v current.new) r }
    ensures some { IfSome result (λ r. IsAdmissible state.now prices.now r × Leaves state.now.net v r) }
    ensures none { IfNone result (rest_from star.now v current.new ≡ []) }
{
    let end = star.span(v).end;
    let price = price_of(prices, v);
    let mut i = *current;
    'looking: while i < end {
        let residual = star.at(i);
        if is_admissible(state, prices, has_capacity[i], price, residual) {
            *current = i;
            return Some(residual_of(residual.link));
        }
        i += 1;
    }
    *current = i;
    None
}

/// The position of the first residual arc of each node.
pub(crate) fn all_firsts(
    alloc: Global,
    net: &Net,
    star: &ForwardStar,
) -> Result<Vec<usize>, NoMemory>
    requires { IsStarOf net.now star.now }
    ensures value { IfOk result (λ made. AreFirsts star.now made.items (node_count net.now)) }
    ensures wants { OnErr result (1 ≤ node_count net.now) }
{
    let mut firsts = Vec::new(alloc);
    'nodes: for number in 0..net.node_count() {
        let span = star.span(NodeId::at(number));
        firsts.push(span.first)?;
    }
    Ok(firsts)
}
