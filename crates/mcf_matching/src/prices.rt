//! The prices of the nodes, and bounds on their absolute values.
ghost use Rattle.std.specs.Prelude.{◌≡◌, ◌-◌, ◌^◌, ◌≤◌, IfOk, OnErr, length, pos, true};
ghost use Rattle.mcf_flows.specs.Network.{node_count};
ghost use Rattle.mcf_network.specs.Nets.{IsNet, greatest_cost};
ghost use Rattle.mcf_matching.specs.Private.Keeping.{AreFirstPrices};
ghost use Rattle.mcf_matching.specs.Private.Reaches.{HasWidth, first_price, path_cost, price_reach};

use mcf_network::Net;
use mcf_numbers::{Number, Width};
use mcf_text::{NoMemory, NodeId, copies};
use std::alloc::Global;

/// Whether 64 bits hold every sum of a search.
pub(crate) fn is_narrow(net: &Net, greatest: u128) -> bool
    requires { greatest ≡ greatest_cost net.now.arcs }
    ensures { result ≡ true → HasWidth (2 ^ 63 - 1) net.now }
{
    64 * path_cost(net, greatest) <= i64::MAX as u128
}

// The greatest cost of a path, by the greatest cost of an arc.
fn path_cost(net: &Net, greatest: u128) -> u128
    requires { greatest ≡ greatest_cost net.now.arcs }
    ensures value { result ≡ path_cost net.now }
    ensures small { result ≤ 10 ^ 21 }
{
    u128::from(net.node_count()) * greatest
}

/// A bound on the prices of a matching, by the price with which each row begins.
pub(crate) fn price_reach(net: &Net, first: Number<i64>) -> Number<i64>
    requires width { HasWidth (2 ^ 63 - 1) net.now }
    requires first { first ≡ first_price net.now }
    ensures { result ≡ pos (price_reach net.now) }
{
    let reach = 8 * path_cost(net, first.wide().unsigned_abs());
    Number::of(reach as i64)
}

/// The prices before the first search: those of columns are 0, and those of rows so low that no arc
/// has a negative reduced cost.
pub(crate) fn first_prices<W: Width>(
    alloc: Global,
    net: &Net,
    greatest: u128,
) -> Result<Vec<Number<W>>, NoMemory>
    requires { greatest ≡ greatest_cost net.now.arcs }
    ensures prices { IfOk result (λ prices. AreFirstPrices net.now prices.items (node_count net.now)) }
    ensures wants { OnErr result (1 ≤ node_count net.now) }
{
    let nodes = net.node_count();
    let mut prices = copies(alloc, nodes as usize, Number::of(0))?;
    let first = Number::of(-(greatest as i64));
    'nodes: for number in 0..nodes {
        if net.supply(NodeId::at(number)) > 0 {
            prices[number as usize] = first;
        }
    }
    Ok(prices)
}

/// Writes each price in 128 bits.
pub(crate) fn widen<W: Width>(wide: &mut [i128], prices: &[Number<W>])
    requires { length wide.old ≡ length prices.now }
    ensures { wide.new ≡ prices.now }
{
    'nodes: for i in 0..prices.len() {
        wide[i] = prices[i].wide();
    }
}
