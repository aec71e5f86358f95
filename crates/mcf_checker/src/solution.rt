//! The verdict on a flow answer.
ghost use Rattle.std.specs.Prelude.{◌≡◌, ◌<◌, ◌≤◌, ◌&&◌, ◌||◌, IfOk, None, OnErr, Some, length, max, nat_lt, not, pos, slice_get, slice_index_or};
ghost use Rattle.std.specs.List.{All};
ghost use Rattle.std.specs.Ordering.{int_eq};
ghost use Rattle.mcf_answer.specs.Ranges.{IsAmount};
ghost use Rattle.mcf_checker.specs.Judging.{arc_agrees, bad_arc, bad_node, bad_price, can_carry, flow_verdict, is_loose, least_up_to, solution_verdict};
ghost use Rattle.mcf_checker.specs.Private.StatedFlows.{IsInOrder, flow_stated};
ghost use Rattle.mcf_flows.specs.Flow.{IsWithinBounds, cost, reduced_cost, AreNets};
ghost use Rattle.mcf_flows.specs.Limits.{limits};
ghost use Rattle.mcf_flows.specs.Network.{IsNode, at_node, node_count};
ghost use Rattle.mcf_flows.specs.WellFormed.{HasEnds, IsArcWithinLimits, IsWellFormed};

use crate::price::Price;
use crate::stated::{Stated, flow_at};
use crate::verdict::Verdict;
use mcf_answer::{FlowAnswer, Sent};
use mcf_instance::{Arc, Instance};
use mcf_text::{ArcId, NoMemory, NodeId, copies};
use std::alloc::Global;

/// The arc at a place, counted from 0.
pub(crate) fn arc_at(instance: &Instance, place: u32) -> Arc
    requires { place < length instance.now.arcs }
    ensures value { slice_get instance.now.arcs place ≡ Some result }
    ensures well_formed { IsWellFormed limits instance.now }
{
    prove!(place < instance.arc_count());
    instance.arc(ArcId::at(place))
}

// The supply of the node at a place, counted from 0.
fn supply_at(instance: &Instance, place: usize) -> i128
    requires { place < node_count instance.now }
    ensures value { result ≡ slice_index_or instance.now.supplies place (pos 0) }
    ensures well_formed { IsWellFormed limits instance.now }
{
    prove!(place < instance.node_count() as usize);
    instance.supply(NodeId::at(place as u32))
}

/// Whether the arc can carry this flow.
pub(crate) fn can_carry(arc: &Arc, flow: i128) -> bool
    ensures { result ≡ can_carry (Some arc.now) flow }
{
    arc.low <= flow && flow <= arc.cap
}

// Whether the line belongs to the arc: the same ends, and a flow within the bounds.
fn agrees(arc: &Arc, line: &Sent) -> bool
    ensures { result ≡ arc_agrees (Some arc.now) (Some line.now) }
{
    line.src == arc.src && line.dst == arc.dst && arc.low <= line.flow && line.flow <= arc.cap
}

// Whether there is an arc at the place, and the line belongs to it.
fn agrees_at(instance: &Instance, place: usize, line: &Sent) -> bool
    ensures { result ≡ arc_agrees (slice_get instance.now.arcs place) (Some line.now) }
{
    place < instance.arc_count() as usize && agrees(&arc_at(instance, place as u32), line)
}

// The least number of an arc and a flow line of which one is missing, or which disagree.
fn first_bad_arc(instance: &Instance, sent: &[Sent]) -> Option<u64>
    ensures { result ≡ bad_arc instance.now sent.now }
{
    for (place, line) in sent.iter().enumerate() {
        if !agrees_at(instance, place, line) {
            return Some(place as u64 + 1);
        }
    }
    if sent.len() < instance.arc_count() as usize {
        return Some(sent.len() as u64 + 1);
    }
    None
}

// The outflow of each node less its inflow, in the order of the nodes.
fn nets_of(alloc: Global, instance: &Instance, stated: Stated<'_>) -> Result<Vec<i128>, NoMemory>
    requires bounds { IsWithinBounds instance.now.arcs (flow_stated instance.now.arcs stated) }
    requires order { IsInOrder stated }
    ensures value { IfOk result
        (λ nets. AreNets (node_count instance.now) instance.now.arcs (flow_stated instance.now.arcs stated.entry) nets.items) }
    ensures wants { OnErr result (1 ≤ node_count instance.now) }
{
    let mut nets = copies(alloc, instance.node_count() as usize, 0)?;
    let count = instance.arc_count();
    let mut next = 0;
    for place in 0..count {
        let arc = arc_at(instance, place);
        let flow = flow_at(stated, &arc, place, &mut next);
        nets[arc.src.place()] += flow;
        nets[arc.dst.place()] -= flow;
    }
    Ok(nets)
}

// Whether the node at the place has a price, and its net outflow is its supply.
fn is_met_at(instance: &Instance, place: usize, net: i128, prices: usize) -> bool
    requires { place < node_count instance.now }
    ensures { result ≡ (nat_lt place prices
        && int_eq net (slice_index_or instance.now.supplies place (pos 0))) }
{
    place < prices && net == supply_at(instance, place)
}

// The least number of a node and a price of which one is missing, or of a node whose net outflow
// isn't its supply.
fn first_unmet(instance: &Instance, nets: &[i128], prices: usize) -> Option<u32>
    requires { length nets.now ≡ node_count instance.now }
    ensures { result ≡ least_up_to (max (node_count instance.now) prices)
        (λ v. nat_lt (node_count instance.now) v || nat_lt prices v
        || not (int_eq (at_node nets.now v) (at_node instance.now.supplies v))) }
{
    let nodes = instance.node_count();
    for (place, net) in nets.iter().enumerate() {
        if !is_met_at(instance, place, *net, prices) {
            return Some(place as u32 + 1);
        }
    }
    if (nodes as usize) < prices {
        return Some(nodes + 1);
    }
    None
}

// The least number of a node and a price line of which one is missing, or of a node whose net
// outflow isn't its supply.
fn first_bad_node<P: Price>(
    alloc: Global,
    instance: &Instance,
    prices: &[P],
    stated: Stated<'_>,
) -> Result<Option<u32>, NoMemory>
    requires bounds { IsWithinBounds instance.now.arcs (flow_stated instance.now.arcs stated) }
    requires order { IsInOrder stated }
    ensures value { IfOk result (λ v. v ≡ bad_node instance.now (P.values prices.now) (flow_stated instance.now.arcs stated.entry)) }
    ensures wants { OnErr result (1 ≤ node_count instance.now) }
{
    let nets = nets_of(alloc, instance, stated)?;
    Ok(first_unmet(instance, &nets, prices.len()))
}

// The price of a node.
fn price_of<P: Price>(prices: &[P], node: NodeId) -> i128
    requires node { IsNode (length prices.now) node }
    requires prices { All P.IsInRange prices.now }
    ensures value { result ≡ at_node (P.values prices.now) node }
    ensures small { IsAmount result }
{
    prices[node.place()].widened()
}

// The reduced cost of the arc: its cost, less the price of its first end, plus that of its second.
fn reduced_cost_of<P: Price>(arc: &Arc, prices: &[P]) -> i128
    requires ends { HasEnds (length prices.now) arc.now }
    requires limits { IsArcWithinLimits limits arc.now }
    requires prices { All P.IsInRange prices.now }
    ensures { result ≡ reduced_cost (P.values prices.now) arc.now }
{
    arc.cost - price_of(prices, arc.src) + price_of(prices, arc.dst)
}

// Whether the prices don't show the flow of the arc (complementary slackness fails).
fn is_loose<P: Price>(arc: &Arc, prices: &[P], flow: i128) -> bool
    requires ends { HasEnds (length prices.now) arc.now }
    requires limits { IsArcWithinLimits limits arc.now }
    requires prices { All P.IsInRange prices.now }
    ensures { result ≡ is_loose (P.values prices.now) (arc.now, flow) }
{
    let reduced = reduced_cost_of(arc, prices);
    (0 < reduced && arc.low < flow) || (reduced < 0 && flow < arc.cap)
}

// The first arc whose flow the prices don't show.
fn first_bad_price<P: Price>(instance: &Instance, prices: &[P], stated: Stated<'_>) -> Option<u32>
    requires bounds { IsWithinBounds instance.now.arcs (flow_stated instance.now.arcs stated) }
    requires order { IsInOrder stated }
    requires one_price_each { length prices.now ≡ node_count instance.now }
    requires prices { All P.IsInRange prices.now }
    ensures { result ≡ bad_price instance.now (P.values prices.now) (flow_stated instance.now.arcs stated.entry) }
{
    let count = instance.arc_count();
    let mut next = 0;
    for place in 0..count {
        let arc = arc_at(instance, place);
        let flow = flow_at(stated, &arc, place, &mut next);
        if is_loose(&arc, prices, flow) {
            return Some(place + 1);
        }
    }
    None
}

// The cost of the flow.
fn cost_of(instance: &Instance, stated: Stated<'_>) -> i128
    requires bounds { IsWithinBounds instance.now.arcs (flow_stated instance.now.arcs stated) }
    requires order { IsInOrder stated }
    ensures { result ≡ cost instance.now.arcs (flow_stated instance.now.arcs stated.entry) }
{
    let count = instance.arc_count();
    let mut next = 0;
    let mut total = 0;
    for place in 0..count {
        let arc = arc_at(instance, place);
        let flow = flow_at(stated, &arc, place, &mut next);
        total += arc.cost * flow;
    }
    total
}

// Whether the stated cost is the cost of the flow.
fn has_cost(instance: &Instance, stated: Stated<'_>, total: i128) -> bool
    requires bounds { IsWithinBounds instance.now.arcs (flow_stated instance.now.arcs stated) }
    requires order { IsInOrder stated }
    ensures { result ≡ int_eq total (cost instance.now.arcs (flow_stated instance.now.arcs stated.entry)) }
{
    total == cost_of(instance, stated)
}

/// The verdict on a flow within the bounds of an instance, with its stated cost and prices.
///
/// # Errors
///
/// `NoMemory` if the allocation for the nodes' balances is refused; an instance without nodes needs
/// none.
pub(crate) fn flow_verdict<P: Price>(
    alloc: Global,
    instance: &Instance,
    total: i128,
    prices: &[P],
    stated: Stated<'_>,
) -> Result<Verdict, NoMemory>
    requires bounds { IsWithinBounds instance.now.arcs (flow_stated instance.now.arcs stated) }
    requires order { IsInOrder stated }
    requires prices { All P.IsInRange prices.now }
    ensures value { IfOk result (λ v. v ≡ flow_verdict instance.now total (P.values prices.now) (flow_stated instance.now.arcs stated.entry)) }
    ensures wants { OnErr result (1 ≤ node_count instance.now) }
{
    if let Some(node) = first_bad_node(alloc, instance, prices, stated)? {
        return Ok(Verdict::BadNode(node));
    }
    if let Some(arc) = first_bad_price(instance, prices, stated) {
        return Ok(Verdict::BadPrice(arc));
    }
    if has_cost(instance, stated, total) {
        Ok(Verdict::Flow(total))
    } else {
        Ok(Verdict::BadCost)
    }
}

/// The verdict on a flow answer for an instance.
///
/// # Errors
///
/// `NoMemory` if the allocation for the nodes' balances is refused; an instance without nodes needs
/// none.
pub(crate) fn solution_verdict(
    alloc: Global,
    instance: &Instance,
    answer: &FlowAnswer,
) -> Result<Verdict, NoMemory>
    ensures value { IfOk result (λ v. v ≡ solution_verdict instance.now answer.now) }
    ensures wants { OnErr result (1 ≤ node_count instance.now) }
{
    let sent = answer.sent.as_slice();
    let prices = answer.prices.as_slice();
    if let Some(arc) = first_bad_arc(instance, sent) {
        return Ok(Verdict::BadArc(arc));
    }
    flow_verdict(alloc, instance, answer.cost, prices, Stated::Each(sent))
}
