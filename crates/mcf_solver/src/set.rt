//! The answer for a node set that blocks.
ghost use Rattle.std.specs.Prelude.{◌≡◌, ◌≤◌, ℕ, IfOk, OnErr, length};
ghost use Rattle.std.specs.List.{All};
ghost use Rattle.std.specs.List.Sorted.{IsStrictlyIncreasing};
ghost use Rattle.mcf_network.specs.Chosen.{IsChosenBlock};
ghost use Rattle.mcf_flows.specs.Blocking.{in_list, in_table};
ghost use Rattle.mcf_flows.specs.Network.{IsNode, node_count};
ghost use Rattle.mcf_network.specs.Removal.{net_of};
ghost use Rattle.mcf_solver.specs.Answering.{IsNoFlowProof};

use mcf_answer::{BlockedAnswer, NodeList};
use mcf_instance::{Instance, Side, blocked_has_no_flow};
use mcf_network::{Net, NodeSet, nets_block_alike};
use mcf_text::{NoMemory, NodeId};
use std::alloc::Global;

/// The answer for a node set that blocks the net of an instance by a side.
///
/// # Errors
///
/// `NoMemory` if an allocation is refused; an instance without nodes needs none.
pub(crate) fn set_answer(
    alloc: Global,
    instance: &Instance,
    net: &Net,
    set: &NodeSet,
    side: Side,
) -> Result<BlockedAnswer, NoMemory>
    requires of_instance { net.now ≡ net_of instance.now }
    requires blocks { IsChosenBlock net.now set.now side }
    ensures proof { IfOk result (IsNoFlowProof instance.now) }
    ensures wants { OnErr result (1 ≤ node_count instance.now) }
{
    nets_block_alike();
    blocked_has_no_flow();
    let nodes = members(alloc, instance.node_count(), set)?;
    Ok(BlockedAnswer {
        side,
        nodes: NodeList::new(nodes),
    })
}

// The nodes of a set, ascending.
fn members(alloc: Global, nodes: u32, set: &NodeSet) -> Result<Vec<NodeId>, NoMemory>
    requires { length set.now ≡ nodes }
    ensures are_nodes { IfOk result (λ list. All (IsNode nodes) list.items) }
    ensures ascending { IfOk result (λ list. IsStrictlyIncreasing list.items) }
    ensures few { IfOk result (λ list. length list.items ≤ nodes) }
    ensures same { IfOk result (λ list. (v : ℕ) → IsNode nodes v → in_list list.items v ≡ in_table set.now v) }
    ensures wants { OnErr result (1 ≤ nodes) }
{
    let mut list = Vec::with_capacity(alloc, set.len() as usize)?;
    for i in 0..nodes {
        let v = NodeId::new(i + 1);
        if set.contains(v) {
            list.push(v)?;
        }
    }
    Ok(list)
}
