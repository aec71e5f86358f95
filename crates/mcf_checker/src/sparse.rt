//! The verdict on a flow answer of the sparse form.
ghost use Rattle.std.specs.Prelude.{◌≡◌, ◌≤◌, IfOk, OnErr};
ghost use Rattle.std.specs.List.{All};
ghost use Rattle.mcf_checker.specs.Judging.{bad_moved, moved_agrees, sparse_verdict};
ghost use Rattle.mcf_flows.specs.Limits.{limits};
ghost use Rattle.mcf_flows.specs.Network.{node_count};
ghost use Rattle.mcf_flows.specs.WellFormed.{IsWellFormed};

use crate::solution::{can_carry, flow_verdict};
use crate::stated::Stated;
use crate::verdict::Verdict;
use mcf_answer::SparseAnswer;
use mcf_flows::NODE_LIMIT;
use mcf_instance::Instance;
use mcf_text::{ArcId, NoMemory};
use std::alloc::Global;

// Whether there is an arc with this number, and it can carry this flow.
fn is_carried(instance: &Instance, arc: ArcId, flow: i128) -> bool
    requires { 1 ≤ arc }
    ensures { result ≡ moved_agrees instance.now.arcs (arc, flow) }
{
    arc.get() <= instance.arc_count() && can_carry(&instance.arc(arc), flow)
}

// The first arc of a line that isn't in the instance, or can't carry the stated flow.
fn first_bad_moved(instance: &Instance, moved: &[(ArcId, i128)]) -> Option<u32>
    requires { All (λ m. 1 ≤ m.0) moved.now }
    ensures least { result ≡ bad_moved instance.now moved.now }
    ensures well_formed { IsWellFormed limits instance.now }
{
    prove!(instance.node_count() <= NODE_LIMIT);
    for (place, line) in moved.iter().enumerate() {
        if !is_carried(instance, line.0, line.1) {
            return Some(line.0.get());
        }
    }
    None
}

/// The verdict on a flow answer of the sparse form for an instance.
///
/// # Errors
///
/// `NoMemory` if the allocation for the nodes' balances is refused; an instance without nodes needs
/// none.
pub(crate) fn sparse_verdict(
    alloc: Global,
    instance: &Instance,
    answer: &SparseAnswer,
) -> Result<Verdict, NoMemory>
    ensures value { IfOk result (λ v. v ≡ sparse_verdict instance.now answer.now) }
    ensures wants { OnErr result (1 ≤ node_count instance.now) }
{
    let moved = answer.moved.as_slice();
    let prices = answer.prices.as_slice();
    if let Some(arc) = first_bad_moved(instance, moved) {
        return Ok(Verdict::BadArc(u64::from(arc)));
    }
    flow_verdict(alloc, instance, answer.cost, prices, Stated::Moved(moved))
}
