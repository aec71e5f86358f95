//! Problems in arrays.
ghost use Rattle.std.specs.Prelude.{◌≡◌, length};
ghost use Rattle.mcf_flows.specs.Network.{node_count};
ghost use Rattle.mcf_c.specs.Problems.{assignment_network};

use mcf_instance::{RawArc, RawPair};

/// A flow problem in arrays: the supplies by node and the arcs, in order.
#[repr(C)]
#[derive(Clone, Copy)]
pub struct McfFlowProblem<'a> {
    pub supplies: &'a [i64],
    pub arcs: &'a [RawArc],
}

/// An assignment problem in arrays: the numbers of rows and columns, and the pairs that may be
/// assigned.
#[repr(C)]
#[derive(Clone, Copy)]
pub struct McfAssignment<'a> {
    pub rows: u32,
    pub columns: u32,
    pub pairs: &'a [RawPair],
}

/// The number of nodes of an assignment problem.
pub(crate) fn node_count(problem: &McfAssignment<'_>) -> usize
    ensures { result ≡ node_count (assignment_network problem.now) }
{
    problem.rows as usize + problem.columns as usize
}
