//! The supplies of a net, and the set of its nodes.
ghost use Rattle.std.specs.Prelude.{◌≡◌, ◌≢◌, ◌≤◌, ℕ, true, pos, IfNone, IfOk, IfSome, OnErr, length};
ghost use Rattle.mcf_flows.specs.Blocking.{in_table};
ghost use Rattle.mcf_flows.specs.Network.{IsNode, node_count};
ghost use Rattle.mcf_network.specs.Nets.{IsNet};
ghost use Rattle.mcf_network.specs.Chosen.{IsChosenBlock, supply_total};

use crate::net::Net;
use crate::node_set::NodeSet;
use mcf_flows::Side;
use mcf_text::{NoMemory, NodeId};
use std::alloc::Global;

/// If the supplies don't sum to 0, the set of all nodes, with the side by which it blocks.
///
/// The side is `Take` exactly if their sum is below 0.
///
/// # Errors
///
/// `NoMemory` if an allocation is refused; a net without nodes needs none, nor does one whose
/// supplies sum to 0.
pub fn unbalanced(alloc: Global, net: &Net) -> Result<Option<(NodeSet, Side)>, NoMemory>
    ensures block { IfOk result (λ found. IfSome found (λ block. IsChosenBlock net.now block.0 block.1)) }
    ensures uneven { IfOk result (λ found. IfSome found (λ _. supply_total net.now ≢ pos 0)) }
    ensures even { IfOk result (λ found. IfNone found (supply_total net.now ≡ pos 0)) }
    ensures wants { OnErr result (1 ≤ node_count net.now) }
{
    let total = supply_total(net);
    if total == 0 {
        return Ok(None);
    }
    let set = all_nodes(alloc, net)?;
    let side = if total < 0 { Side::Take } else { Side::Send };
    Ok(Some((set, side)))
}

// The sum of the supplies of all nodes.
fn supply_total(net: &Net) -> i128
    ensures value { result ≡ supply_total net.now }
    ensures of_net { IsNet net.now }
{
    let mut total = 0;
    for number in 0..net.node_count() {
        total += net.supply(NodeId::at(number));
    }
    total
}

// The set of all nodes.
fn all_nodes(alloc: Global, net: &Net) -> Result<NodeSet, NoMemory>
    ensures one_per_node { IfOk result (λ set. length set ≡ node_count net.now) }
    ensures all { IfOk result (λ set. (v : ℕ) → IsNode (node_count net.now) v → in_table set v ≡ true) }
    ensures wants { OnErr result (1 ≤ node_count net.now) }
{
    let mut set = NodeSet::new(alloc, net)?;
    for number in 0..net.node_count() {
        set.insert(NodeId::at(number));
    }
    Ok(set)
}
