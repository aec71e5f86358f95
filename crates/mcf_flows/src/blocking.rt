//! Whether a node set blocks every flow.
ghost use Rattle.std.specs.Prelude.{◌≡◌, ◌≤◌, ◌+ℤ◌, ◌↔◌, ℕ, ℤ, IfOk, IsTrue, List, OnErr, length, map};
ghost use Rattle.std.specs.List.{All};
ghost use Rattle.mcf_flows.specs.Blocking.{Blocks, cap_entering, cap_leaving, enters, in_list, in_table, leaves, low_entering, low_leaving, supply_in};
ghost use Rattle.mcf_flows.specs.Flow.{IsFeasible};
ghost use Rattle.mcf_flows.specs.Limits.{arc_limit, limits, node_limit};
ghost use Rattle.mcf_flows.specs.Network.{IsNode, node_count, when};
ghost use Rattle.mcf_flows.specs.Packed.{unpacked};
ghost use Rattle.mcf_flows.specs.WellFormed.{HasEnds, IsArcWithinLimits, IsUpTo, IsWellFormed};
ghost use Rattle.mcf_flows.specs.Private.Sums.{sum_limit};

use crate::arc::PackedArc;
use crate::arc_table::ArcTable;
use crate::instances::Instance;
use crate::problem::Side;
use mcf_text::{NoMemory, NodeId, copies};
use std::alloc::Global;

/// The sums of the lower and of the upper bounds over the arcs that enter a set, and over those
/// that leave it.
#[derive(Clone, Copy)]
struct Border {
    low_in: i128,
    cap_in: i128,
    low_out: i128,
    cap_out: i128,
}

/// The table of a node set: the entry at place `v - 1` says whether the node `v` is a member.
///
/// # Errors
///
/// `NoMemory` if the allocation is refused; without nodes none is needed.
pub fn table_of(alloc: Global, nodes: u32, members: &[NodeId]) -> Result<Vec<bool>, NoMemory>
    requires { All (IsNode nodes) members.now }
    ensures one_per_node { IfOk result (λ table. length table.items ≡ nodes) }
    ensures marks { IfOk result (λ table. (v : ℕ) → IsNode nodes v → in_table table.items v ≡ in_list members.now v) }
    ensures wants { OnErr result (1 ≤ nodes) }
{
    let mut table = copies(alloc, nodes as usize, false)?;
    for member in members {
        table[member.get() as usize - 1] = true;
    }
    Ok(table)
}

/// The total, plus the amount if it counts.
fn add_when(total: i128, counts: bool, amount: i64) -> i128
    requires total { IsUpTo sum_limit total }
    requires amount { IsUpTo limits.bound amount }
    ensures { result ≡ total +ℤ when counts amount }
{
    if counts {
        total + i128::from(amount)
    } else {
        total
    }
}

/// Whether the arc goes from a node outside the set to one inside.
fn enters_set(arc: &PackedArc, table: &[bool]) -> bool
    requires { HasEnds (length table.now) (unpacked arc.now) }
    ensures { result ≡ enters (in_table table.now) (unpacked arc.now) }
{
    table[arc.dst as usize - 1] && !table[arc.src as usize - 1]
}

/// Whether the arc goes from a node inside the set to one outside.
fn leaves_set(arc: &PackedArc, table: &[bool]) -> bool
    requires { HasEnds (length table.now) (unpacked arc.now) }
    ensures { result ≡ leaves (in_table table.now) (unpacked arc.now) }
{
    table[arc.src as usize - 1] && !table[arc.dst as usize - 1]
}

/// The sum of the supplies in the set.
fn supply_within(supplies: &[i64], table: &[bool]) -> i128
    requires count { length supplies.now ≤ node_limit }
    requires small { All (IsUpTo limits.supply) supplies.now }
    requires one_per_node { length table.now ≡ length supplies.now }
    ensures sum { result ≡ supply_in supplies.now (in_table table.now) }
    ensures small { IsUpTo sum_limit result }
{
    let mut total = 0;
    for (place, supply) in supplies.iter().enumerate() {
        total = add_when(total, table[place], *supply);
    }
    total
}

/// The sums over the arcs that cross the border of the set.
fn border_of(arcs: &ArcTable, table: &[bool]) -> Border
    requires count { length arcs.now ≤ arc_limit }
    requires small { All (IsArcWithinLimits limits) (map unpacked arcs.now) }
    requires ends { All (HasEnds (length table.now)) (map unpacked arcs.now) }
    ensures low_in { result.low_in ≡ low_entering (map unpacked arcs.now) (in_table table.now) }
    ensures cap_in { result.cap_in ≡ cap_entering (map unpacked arcs.now) (in_table table.now) }
    ensures low_out { result.low_out ≡ low_leaving (map unpacked arcs.now) (in_table table.now) }
    ensures cap_out { result.cap_out ≡ cap_leaving (map unpacked arcs.now) (in_table table.now) }
    ensures low_in_small { IsUpTo sum_limit result.low_in }
    ensures low_out_small { IsUpTo sum_limit result.low_out }
{
    let mut low_in = 0;
    let mut cap_in = 0;
    let mut low_out = 0;
    let mut cap_out = 0;
    for place in 0..arcs.len() {
        let arc = arcs.get(place);
        let entering = enters_set(&arc, table);
        let leaving = leaves_set(&arc, table);
        low_in = add_when(low_in, entering, arc.low);
        cap_in = add_when(cap_in, entering, arc.cap);
        low_out = add_when(low_out, leaving, arc.low);
        cap_out = add_when(cap_out, leaving, arc.cap);
    }
    Border {
        low_in,
        cap_in,
        low_out,
        cap_out,
    }
}

/// Whether the set must send more than it can.
fn blocks_by_send(instance: &Instance, table: &[bool]) -> bool
    requires { length table.now ≡ node_count instance.now }
    ensures exact { IsTrue result ↔ Blocks instance.now (in_table table.now) Side.Send }
    ensures well_formed { IsWellFormed limits instance.now }
{
    let supply = supply_within(instance.packed_supplies(), table);
    let border = border_of(instance.packed_arcs(), table);
    border.cap_out < supply + border.low_in
}

/// Whether the set must take more than it can.
fn blocks_by_take(instance: &Instance, table: &[bool]) -> bool
    requires { length table.now ≡ node_count instance.now }
    ensures exact { IsTrue result ↔ Blocks instance.now (in_table table.now) Side.Take }
    ensures well_formed { IsWellFormed limits instance.now }
{
    let supply = supply_within(instance.packed_supplies(), table);
    let border = border_of(instance.packed_arcs(), table);
    border.cap_in < border.low_out - supply
}

/// Whether the cut at the marked set is violated: the set must send more than it can, or take more
/// than it can, so that no flow is feasible (Hoffman's condition; Ahuja, Magnanti and Orlin,
/// Network Flows, chapter 6).
///
/// The table has an entry for each node, in order. The time is about linear in the nodes and arcs.
pub fn blocks(instance: &Instance, table: &[bool], side: Side) -> bool
    requires { length table.now ≡ node_count instance.now }
    ensures exact { IsTrue result ↔ Blocks instance.now (in_table table.now) side }
    ensures none { IsTrue result → (flow : List ℤ) → ¬ IsFeasible instance.now flow }
{
    match side {
        Side::Send => blocks_by_send(instance, table),
        Side::Take => blocks_by_take(instance, table),
    }
}
