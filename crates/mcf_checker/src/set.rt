//! The verdict on a blocked answer.
ghost use Rattle.std.specs.Prelude.{◌≡◌, ◌≤◌, IfOk, OnErr, nat_le};
ghost use Rattle.std.specs.List.{list_all};
ghost use Rattle.mcf_checker.specs.Judging.{set_verdict};
ghost use Rattle.mcf_flows.specs.Network.{node_count};

use crate::verdict::Verdict;
use mcf_answer::BlockedAnswer;
use mcf_instance::{Instance, blocks, table_of};
use mcf_text::{NoMemory, NodeId};
use std::alloc::Global;

// Whether each node's number is at most the count.
fn are_nodes(count: u32, nodes: &[NodeId]) -> bool
    ensures { result ≡ list_all (λ v. nat_le v count) nodes.now }
{
    nodes.iter().all(|node| node.get() <= count)
}

/// The verdict on a blocked answer for an instance.
///
/// # Errors
///
/// `NoMemory` if the allocation for the table of the set is refused; an instance without nodes
/// needs none.
pub(crate) fn set_verdict(
    alloc: Global,
    instance: &Instance,
    answer: &BlockedAnswer,
) -> Result<Verdict, NoMemory>
    ensures value { IfOk result (λ v. v ≡ set_verdict instance.now answer.now) }
    ensures wants { OnErr result (1 ≤ node_count instance.now) }
{
    let nodes = answer.nodes.as_slice();
    let count = instance.node_count();
    if !are_nodes(count, nodes) {
        return Ok(Verdict::BadSet);
    }
    let table = table_of(alloc, count, nodes)?;
    if blocks(instance, &table, answer.side) {
        Ok(Verdict::Blocked(nodes.len() as u32))
    } else {
        Ok(Verdict::BadSet)
    }
}
