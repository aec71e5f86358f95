//! Restoration of lower bounds.
ghost use Rattle.std.specs.Prelude.{◌≡◌, ◌+ℤ◌, ◌≤◌, ◌≤ℤ◌, ◌↔◌, ◌-◌, ℤ, List, IfOk, OnErr, Some, length, pos, slice_get};
ghost use Rattle.mcf_flows.specs.Flow.{IsFeasible, Shows, cost};
ghost use Rattle.mcf_flows.specs.Limits.{limits};
ghost use Rattle.mcf_flows.specs.Network.{IsArcNumber};
ghost use Rattle.mcf_flows.specs.WellFormed.{IsArcWithinLimits};
ghost use Rattle.mcf_network.specs.Nets.{width_limit};
ghost use Rattle.mcf_network.specs.Removal.{net_of};
ghost use Rattle.mcf_network.specs.Restoring.{fixed_cost, restored, restored_flow};
ghost use Rattle.mcf_network.specs.States.{HasNoSurplus};

use crate::state::State;
use mcf_flows::{Arc, Instance};
use mcf_text::{ArcId, NoMemory};
use std::alloc::Global;

/// The flow of an instance that a state of its net without surplus stands for: each arc that is no
/// loop carries its lower bound and the amount; a loop of negative cost carries its capacity, every
/// other loop its lower bound.
///
/// It is feasible, prices show it exactly if they show the state, and it costs as much as the
/// state, plus a constant that is the same for all states.
///
/// # Errors
///
/// `NoMemory` if an allocation is refused; an instance without arcs needs none.
pub fn restore(alloc: Global, instance: &Instance, state: &State<'_>) -> Result<Vec<i128>, NoMemory>
    requires of_net { state.now.net ≡ net_of instance.now }
    requires no_surplus { HasNoSurplus state.now }
    ensures value { IfOk result (λ flow. flow.items ≡ restored instance.now.arcs state.now.amounts) }
    ensures feasible { IfOk result (λ flow. IsFeasible instance.now flow.items) }
    ensures shown { IfOk result (λ flow. (prices : List ℤ) → Shows instance.now.arcs prices flow.items ↔ Shows state.now.net.arcs prices state.now.amounts) }
    ensures cost { IfOk result (λ flow. cost instance.now.arcs flow.items ≡ cost state.now.net.arcs state.now.amounts +ℤ fixed_cost instance.now.arcs) }
    ensures wants { OnErr result (1 ≤ length instance.now.arcs) }
{
    let mut flow = Vec::with_capacity(alloc, instance.arc_count() as usize)?;
    for i in 0..state.net.arc_count() {
        flow.push(restored_amount(instance, state, ArcId::at(i)))?;
    }
    Ok(flow)
}

/// The flow of one arc there: the entry of this arc in the list that `restore` gives.
pub fn restored_amount(instance: &Instance, state: &State<'_>, k: ArcId) -> i128
    requires of_net { state.now.net ≡ net_of instance.now }
    requires arc { IsArcNumber instance.now k }
    ensures value { slice_get (restored instance.now.arcs state.now.amounts) (k - 1) ≡ Some result }
{
    let amount = state.amount(k);
    restored_flow(instance.arc(k), amount)
}

// The flow of an arc, if the arc of the net carries this amount.
fn restored_flow(a: Arc, amount: i128) -> i128
    requires arc { IsArcWithinLimits limits a }
    requires low { pos 0 ≤ℤ amount }
    requires high { amount ≤ℤ pos width_limit }
    ensures { result ≡ restored_flow a amount }
{
    if a.src.get() != a.dst.get() {
        a.low + amount
    } else if a.cost < 0 {
        a.cap
    } else {
        a.low
    }
}
