//! What a search reads and doesn't change, and the row whose arcs it relaxes.
ghost use Rattle.std.specs.Prelude.{◌≡◌, ◌+ℤ◌, length};
ghost use Rattle.mcf_flows.specs.Network.{IsNode, at_node};
ghost use Rattle.mcf_flows.specs.WellFormed.{IsUpTo};

use crate::rows::{RowArc, Rows};
use mcf_network::State;
use mcf_numbers::{Number, Width};
use mcf_text::NodeId;
use std::marker::Model;

/// The arc with which a node is matched, and the node at its other end. Both are 0 if the node is
/// unmatched.
#[derive(Clone, Copy)]
pub(crate) struct Mate {
    pub(crate) arc: u32,
    pub(crate) node: u32,
}

/// A matching with the arcs of its rows, prices that show it, and the mate of each node.
#[derive(Drop)]
pub(crate) struct Scene<'a, 'n, W: Width> {
    pub(crate) state: &'a State<'n>,
    pub(crate) rows: &'a Rows,
    pub(crate) prices: &'a [Number<W>],
    pub(crate) mates: &'a [Mate],
}

/// A settled row whose arcs are relaxed, and its distance less its price: what its arcs offer,
/// without their costs and the prices of their columns.
#[derive(Drop)]
pub(crate) struct Row<W: Width> {
    pub(crate) id: NodeId,
    pub(crate) base: Number<W>,
}

impl<W: Width> Model for Row<W> {
    ghost use Rattle.mcf_matching.specs.Private.Labels.{Row};

    ghost Value = { Row };

    ghost view = { λ r. record { id = r.id; base = r.base } };
}

impl<W: Width> Row<W> {
    /// The distance that an arc of the row offers its column.
    #[inline(always)]
    pub(crate) fn offered(&self, prices: &[Number<W>], a: RowArc) -> Number<W>
        requires column { IsNode (length prices.now) a.column }
        requires cost { IsUpTo W.room (self.now.base +ℤ a.cost) }
        requires price { IsUpTo W.room (self.now.base +ℤ a.cost +ℤ at_node prices.now a.column) }
        ensures { result ≡ self.now.base +ℤ a.cost +ℤ at_node prices.now a.column }
    {
        let dist = self.base.plus(Number::of(a.cost));
        dist.plus(prices[a.column as usize - 1])
    }
}
