//! A search for a distance.
use crate::shown::Shown;
use mcf_text::{ArcId, NodeId};
use std::marker::Model;

/// A search for the distance between two nodes in the residual network of a flow without one arc.
#[derive(Drop)]
pub(crate) struct Search<'a> {
    pub(crate) shown: &'a Shown<'a>,
    pub(crate) without: ArcId,
    pub(crate) from: NodeId,
    pub(crate) to: NodeId,
}

impl<'a> Model for Search<'a> {
    ghost use Rattle.mcf_ranges.specs.Private.Searches.{Task};
    ghost use Rattle.mcf_ranges.specs.Private.Shown.{HasEndNodes};

    ghost Value = { Task };

    ghost view = { λ s. record { network = s.shown.now.network; flow = s.shown.now.flow; prices = s.shown.now.prices; k = s.without; u = s.from; w = s.to } };

    ghost invariant = { λ s. HasEndNodes (record { network = s.shown.now.network; flow = s.shown.now.flow; prices = s.shown.now.prices; k = s.without; u = s.from; w = s.to }) };
}
