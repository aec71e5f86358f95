//! The initial basis of the simplex.
ghost use Rattle.std.specs.Prelude.{◌≡◌, ℕ, Some, ◌∷◌, IfOk, if◌then◌else◌, int_le, int_lt, length, map, max, min, neg_ℤ, pos, unsigned_abs};
ghost use Rattle.std.specs.List.{range_with_len};
ghost use Rattle.mcf_flows.specs.Network.{IsArcNumber, IsNode, at_node, node_count};
ghost use Rattle.mcf_flows.specs.WellFormed.{IsUpTo, weight};
ghost use Rattle.mcf_network.specs.Nets.{IsNet};
ghost use Rattle.mcf_network.specs.Residual.{arc_at};
ghost use Rattle.mcf_basis.specs.Artificial.{artificial_cost, is_sender};
ghost use Rattle.mcf_basis.specs.Private.Layouts.{FitsWith, IsStarTable, artificial_residuals, forward_offer, no_offer, no_residuals, prices_of_star};
ghost use Rattle.mcf_basis.specs.Ranks.{price_reach};
ghost use Rattle.mcf_basis.specs.Starts.{IsStart};

use crate::basis::Basis;
use crate::offer::ArcOffer;
use crate::price_table::{PriceTable, STAND_IN};
use crate::residuals::{Residuals, artificial_residuals};
use mcf_network::Net;
use mcf_numbers::{Count, Number, Width};
use mcf_text::{ArcId, NoMemory, NodeId};
use mcf_tree::Tree;
use std::alloc::Global;

// The greatest absolute value of a price for which 64 bits hold a reduced cost, too.
const NARROW_LIMIT: u128 = 3_000_000_000_000_000_000;

// How far from the artificial cost, or from its opposite, a price may lie for which there is a gap.
const PATH_LIMIT: u128 = 200_000_000_000_000_000;

impl<'n> Basis<'n> {
    /// The initial basis of the simplex: each node is a child of the root by its artificial arc,
    /// which carries what the node sends or takes, and no arc of the net carries anything (Ahuja,
    /// Magnanti and Orlin, Network Flows, section 11.5).
    ///
    /// Of all calls of a basis, only this one allocates.
    ///
    /// # Errors
    ///
    /// `NoMemory` if an allocation is refused.
    pub fn start(alloc: Global, net: &'n Net) -> Result<Basis<'n>, NoMemory>
        ensures { IfOk result (IsStart net.now) }
    {
        let offers = star_offers(alloc, net)?;
        let (residuals, artificial) = star_columns(alloc, net)?;
        let table = star_table(alloc, net, artificial_cost(net))?;
        let tree = Tree::star(alloc, net.node_count(), net.arc_count())?;
        Ok(Basis {
            net,
            tree,
            offers,
            residuals,
            artificial,
            table,
            pivots: Count::zero(),
            climbed: 0,
        })
    }
}

// The offers if no arc carries anything: all arcs of width above 0 point forward.
fn star_offers(alloc: Global, net: &Net) -> Result<Vec<ArcOffer>, NoMemory>
    ensures { IfOk result (λ made. made.items
        ≡ map (λ k. if int_lt (pos 0) (arc_at net.now k).cap then forward_offer net.now k else no_offer) (range_with_len 1 (length net.now.arcs))) }
{
    let count = net.arc_count();
    let mut made = Vec::with_capacity(alloc, count as usize)?;
    for i in 0..count {
        made.push_reserved(star_offer(net, ArcId::at(i)));
    }
    Ok(made)
}

// The offer of an arc that carries nothing.
fn star_offer(net: &Net, k: ArcId) -> ArcOffer
    requires { IsArcNumber net.now k }
    ensures { result ≡ (if int_lt (pos 0) (arc_at net.now k).cap then forward_offer net.now k else no_offer) }
{
    if 0 < net.width(k) {
        let (src, dst) = net.ends(k);
        ArcOffer {
            from: src.get(),
            to: dst.get(),
            cost: net.cost(k) as i64,
        }
    } else {
        ArcOffer {
            from: 0,
            to: 0,
            cost: 0,
        }
    }
}

// The residual capacities and the amounts of the artificial arcs, which carry what each node sends
// or takes, after entries for the root.
fn star_columns(alloc: Global, net: &Net) -> Result<(Vec<Residuals>, Vec<i128>), NoMemory>
    ensures residuals { IfOk result (λ made. made.0.items ≡ no_residuals
        ∷ map (λ v. artificial_residuals (is_sender net.now v) (unsigned_abs (at_node net.now.supplies v))) (range_with_len 1 (node_count net.now))) }
    ensures amounts { IfOk result (λ made. made.1.items ≡ pos 0 ∷ map (λ v. pos (unsigned_abs (at_node net.now.supplies v))) (range_with_len 1 (node_count net.now))) }
{
    let count = net.node_count();
    let mut residuals = Vec::with_capacity(alloc, count as usize + 1)?;
    let mut amounts = Vec::with_capacity(alloc, count as usize + 1)?;
    residuals.push_reserved(Residuals { up: 0, down: 0 });
    amounts.push_reserved(0);
    for i in 0..count {
        let supply = net.supply(NodeId::at(i));
        residuals.push_reserved(artificial_residuals(0 <= supply, supply.unsigned_abs()));
        amounts.push_reserved(star_amount(net, NodeId::at(i)));
    }
    Ok((residuals, amounts))
}

// The absolute value of a node's supply.
fn star_amount(net: &Net, v: NodeId) -> i128
    requires { IsNode (node_count net.now) v }
    ensures { result ≡ pos (unsigned_abs (at_node net.now.supplies v)) }
{
    net.supply(v).unsigned_abs() as i128
}

// The prices of the tree of artificial arcs, which have this cost: in 64 bits if each price of each
// basis of the net fits.
fn star_table(alloc: Global, net: &Net, cost: i128) -> Result<PriceTable, NoMemory>
    requires { cost ≡ pos (artificial_cost net.now) }
    ensures { IfOk result (IsStarTable net.now) }
{
    match price_gap(net, cost) {
        Some(gap) => {
            let cost = (cost - gap as i128) as i64;
            let prices = star_prices(alloc, net, Number::of(cost))?;
            Ok(PriceTable::narrow(prices, gap))
        }
        None => {
            let prices = star_prices(alloc, net, Number::of_wide(cost))?;
            Ok(PriceTable::wide(prices))
        }
    }
}

// By how much prices in 64 bits are nearer to 0, if they fit: not at all if each price of each
// basis fits as it is; otherwise by what the artificial cost has more than its stand-in.
fn price_gap(net: &Net, cost: i128) -> Option<u128>
    requires { cost ≡ pos (artificial_cost net.now) }
    ensures value { (gap : ℕ) → result ≡ Some gap → FitsWith net.now gap }
    ensures net { IsNet net.now }
{
    let reach = price_reach(net, cost);
    if reach <= NARROW_LIMIT {
        Some(0)
    } else if reach - cost.unsigned_abs() <= PATH_LIMIT {
        Some((cost - STAND_IN) as u128)
    } else {
        None
    }
}

// The prices of that tree if its arcs have this cost.
fn star_prices<W: Width>(
    alloc: Global,
    net: &Net,
    cost: Number<W>,
) -> Result<Vec<Number<W>>, NoMemory>
    requires { IsUpTo W.room cost }
    ensures { IfOk result (λ made. made.items ≡ prices_of_star net.now cost) }
{
    let count = net.node_count();
    let mut made = Vec::with_capacity(alloc, count as usize + 1)?;
    made.push_reserved(Number::of(0));
    for i in 0..count {
        let price = star_price(net.supply(NodeId::at(i)), cost);
        made.push_reserved(price);
    }
    Ok(made)
}

// The price of a node with this supply.
fn star_price<W: Width>(supply: i128, cost: Number<W>) -> Number<W>
    requires { IsUpTo W.room cost }
    ensures { result ≡ (if int_le (pos 0) supply then cost else neg_ℤ cost) }
{
    if 0 <= supply {
        cost
    } else {
        Number::of(0).minus(cost)
    }
}

// The greatest absolute value of a price of a basis of the net, if its artificial arcs have this
// cost.
fn price_reach(net: &Net, cost: i128) -> u128
    requires { cost ≡ pos (artificial_cost net.now) }
    ensures value { result ≡ price_reach net.now }
    ensures net { IsNet net.now }
{
    cost.unsigned_abs() + u128::from(net.node_count()) * net.greatest_cost()
}

// The cost of an artificial arc: one more than all arcs of the net together can cost or earn.
fn artificial_cost(net: &Net) -> i128
    ensures value { result ≡ pos (artificial_cost net.now) }
{
    let mut total = 1;
    for i in 0..net.arc_count() {
        total += weight(net, ArcId::at(i));
    }
    total as i128
}

// The most that an arc can cost or earn.
fn weight(net: &Net, k: ArcId) -> u128
    requires { IsArcNumber net.now k }
    ensures value { result ≡ weight (arc_at net.now k) }
    ensures net { IsNet net.now }
{
    net.cost(k).unsigned_abs() * net.width(k).unsigned_abs()
}
