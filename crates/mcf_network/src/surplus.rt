//! The surplus (excess) of the nodes.
ghost use Rattle.std.specs.Prelude.{◌≡◌, ◌+ℤ◌, ◌-ℤ◌, ◌*◌, ◌==◌, ℕ, length};
ghost use Rattle.mcf_flows.specs.Network.{IsNode, at_node, when};
ghost use Rattle.mcf_flows.specs.WellFormed.{IsUpTo};
ghost use Rattle.mcf_network.specs.Private.Surpluses.{surplus_reach};

use mcf_text::NodeId;

/// Moves `x` of the surplus of one node to another. If `x` is 0, nothing is read.
pub(crate) fn move_surplus(surpluses: &mut Vec<i128>, from: NodeId, to: NodeId, x: i128)
    requires from { IsNode (length surpluses.old.items) from }
    requires to { IsNode (length surpluses.old.items) to }
    requires x { IsUpTo surplus_reach x }
    requires each { (v : ℕ) → IsNode (length surpluses.old.items) v → IsUpTo surplus_reach (at_node surpluses.old.items v) }
    ensures length { length surpluses.new.items ≡ length surpluses.old.items }
    ensures each { (v : ℕ) → IsNode (length surpluses.old.items) v →
        at_node surpluses.new.items v ≡ at_node surpluses.old.items v -ℤ when (from == v) x +ℤ when (to == v) x }
{
    if x == 0 {
        return;
    }
    add_surplus(surpluses, from, -x);
    add_surplus(surpluses, to, x);
}

// Adds `x` to the surplus of a node.
fn add_surplus(surpluses: &mut Vec<i128>, u: NodeId, x: i128)
    requires node { IsNode (length surpluses.old.items) u }
    requires x { IsUpTo surplus_reach x }
    requires surplus { IsUpTo (2 * surplus_reach) (at_node surpluses.old.items u) }
    ensures length { length surpluses.new.items ≡ length surpluses.old.items }
    ensures each { (v : ℕ) → IsNode (length surpluses.old.items) v → at_node surpluses.new.items v ≡ at_node surpluses.old.items v +ℤ when (u == v) x }
{
    let more = surpluses[u.place()] + x;
    surpluses[u.place()] = more;
}
