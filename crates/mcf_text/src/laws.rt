//! A law of the numbers of nodes and of arcs.
ghost use Rattle.std.specs.Prelude.{◌≡◌, ℕ};
ghost use Rattle.std.specs.Ordering.{nat_cmp};

use crate::arc::ArcId;
use crate::node::NodeId;

/// Nodes are ordered by their numbers, and so are arcs.
pub fn ids_are_ordered_by_number()
    ensures nodes { (v w : ℕ) → ⟦<NodeId as Ord>⟧.cmp v w ≡ nat_cmp v w }
    ensures arcs { (k l : ℕ) → ⟦<ArcId as Ord>⟧.cmp k l ≡ nat_cmp k l }
{}
