//! The forward star: the residual arcs that leave each node, contiguous, as a scan reads them, and
//! the position of each.
ghost use Rattle.std.specs.Prelude.{◌≡◌, ◌-◌, ◌*◌, ◌^◌, ◌<◌, ◌≤◌, [], IfOk, OnErr, length};
ghost use Rattle.std.specs.List.{All};
ghost use Rattle.mcf_flows.specs.Limits.{arc_limit};
ghost use Rattle.mcf_flows.specs.Network.{IsArcNumber, IsNode, node_count};
ghost use Rattle.mcf_scaling.specs.Private.Stars.{ArePositions, ArePositionsUpTo, IsResidualArc, IsStarOf, IsStarUpTo, out_at, residual_of, position_of, span_of};

use mcf_network::{Net, Rid};
use mcf_text::{ArcId, NoMemory, NodeId, copies};
use std::alloc::Global;
use std::marker::Model;

/// What a scan reads of a residual arc, in 16 bytes.
#[derive(Clone, Copy)]
pub(crate) struct ResidualArc {
    // The cost per unit along it.
    pub(crate) cost: i64,
    // The node that it enters.
    pub(crate) head: u32,
    // Its number: an arc has an even one forward, and the next one backward.
    pub(crate) link: u32,
}

/// The positions of the residual arcs that leave a node: the first, and the end after the last.
#[derive(Clone, Copy)]
pub(crate) struct Span {
    pub(crate) first: usize,
    pub(crate) end: usize,
}

/// The forward star of a net: its residual arcs, one node after another, with what doesn't change
/// of each.
#[derive(Drop)]
pub(crate) struct ForwardStar {
    spans: Vec<Span>,
    outs: Vec<ResidualArc>,
    // For each number of a residual arc its position in `outs`.
    positions: Vec<u32>,
}

impl Model for ForwardStar {
    ghost use Rattle.mcf_scaling.specs.Private.Stars.{Star};

    ghost Value = { Star };

    ghost view = { λ p. record { spans = p.spans.items; outs = p.outs.items; positions = p.positions.items } };
}

impl ForwardStar {
    /// The forward star of a net.
    pub(crate) fn new(alloc: Global, net: &Net) -> Result<ForwardStar, NoMemory>
        ensures value { IfOk result (IsStarOf net.now) }
        ensures positions { IfOk result (ArePositions net.now) }
        ensures wants { OnErr result (1 ≤ node_count net.now) }
    {
        let mut spans = Vec::with_capacity(alloc, net.node_count() as usize)?;
        let mut outs = Vec::with_capacity(alloc, 2 * net.arc_count() as usize)?;
        'nodes: for number in 0..net.node_count() {
            put_leaving(net, &mut spans, &mut outs, NodeId::at(number))?;
        }
        let mut positions = copies(alloc, 2 * net.arc_count() as usize, 0)?;
        write_positions(&outs, &mut positions);
        Ok(ForwardStar {
            spans,
            outs,
            positions,
        })
    }

    /// The number of residual arcs.
    pub(crate) fn count(&self) -> usize
        ensures { result ≡ length self.now.outs }
    {
        self.outs.len()
    }

    /// The positions of the residual arcs that leave a node.
    pub(crate) fn span(&self, v: NodeId) -> Span
        requires { IsNode (length self.now.spans) v }
        ensures { result ≡ span_of self.now v }
    {
        self.spans[v.place()]
    }

    /// The residual arc at a position.
    pub(crate) fn at(&self, position: usize) -> ResidualArc
        requires { position < length self.now.outs }
        ensures { result ≡ out_at self.now position }
    {
        self.outs[position]
    }

    /// The position of the residual arc with this number.
    pub(crate) fn position(&self, link: usize) -> usize
        requires { link < length self.now.positions }
        ensures { result ≡ position_of self.now.positions link }
    {
        self.positions[link] as usize
    }
}

// Writes the position of each residual arc.
fn write_positions(outs: &[ResidualArc], positions: &mut Vec<u32>)
    requires few { length outs.now ≤ 2 ^ 32 }
    requires each { All (λ p. p.link < length positions.old.items) outs.now }
    ensures count { length positions.new.items ≡ length positions.old.items }
    ensures positions { ArePositionsUpTo (record { spans = []; outs = outs.now; positions = positions.new.items }) (length outs.now) }
{
    'positions: for i in 0..outs.len() {
        let link = outs[i].link as usize;
        positions[link] = i as u32;
    }
}

/// The residual arc with this number.
pub(crate) fn residual_of(link: u32) -> Rid
    ensures { result ≡ residual_of link }
{
    Rid {
        arc: ArcId::at(link / 2),
        back: link % 2 == 1,
    }
}

// What a scan reads of a residual arc.
fn residual_arc(net: &Net, r: Rid) -> ResidualArc
    requires { IsArcNumber net.now r.arc }
    ensures residual { IsResidualArc net.now result }
    ensures value { residual_of result.link ≡ r }
{
    let (arc, back) = (r.arc, r.back);
    let (_, to) = net.route(Rid { arc, back });
    let cost = net.unit_cost(Rid { arc, back });
    ResidualArc {
        cost: cost as i64,
        head: to.get(),
        link: link_of(arc, back),
    }
}

// The number of a residual arc.
fn link_of(arc: ArcId, back: bool) -> u32
    requires low { 1 ≤ arc }
    requires high { arc ≤ arc_limit }
    ensures { residual_of result ≡ record { arc = arc; back = back } }
{
    let forward = 2 * (arc.get() - 1);
    if back { forward + 1 } else { forward }
}

// Appends the residual arcs that leave a node, and the span of their positions.
fn put_leaving(
    net: &Net,
    spans: &mut Vec<Span>,
    outs: &mut Vec<ResidualArc>,
    v: NodeId,
) -> Result<(), NoMemory>
    requires node { IsNode (node_count net.now) v }
    requires star { IsStarUpTo net.now (record { spans = spans.old.items; outs = outs.old.items; positions = [] }) (v - 1) }
    ensures { IfOk result (λ _. IsStarUpTo net.now (record { spans = spans.new.items; outs = outs.new.items; positions = [] }) v) }
{
    let first = outs.len();
    'leaving: for leaving in net.leaving(v) {
        outs.push(residual_arc(net, leaving))?;
    }
    let end = outs.len();
    spans.push(Span { first, end })?;
    Ok(())
}
