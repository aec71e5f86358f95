//! The kinds of answers, and the two forms of a flow.
use crate::lists::{MovedList, NodeList, PriceList, SentList};
use mcf_flows::{Refusal, Side};
use mcf_text::NodeId;
use std::marker::Model;

/// The flow of an arc, with the ends of the arc.
#[derive(Clone, Copy, Debug, PartialEq, Eq)]
pub struct Sent {
    /// The node that the arc leaves.
    pub src: NodeId,
    /// The node that it enters.
    pub dst: NodeId,
    /// The number of units that it carries.
    pub flow: i128,
}

/// A flow with its cost, and prices that show that no flow costs less (a dual certificate).
///
/// The cost, each flow and each price lie within 10^37 of 0, each end is a node from 1 to
/// 1,000,000, and there are at most 1,000,000 prices.
#[derive(Debug, Drop)]
pub struct FlowAnswer {
    /// The total cost.
    pub cost: i128,
    /// The flow of each arc, in the order of the arcs.
    pub sent: SentList,
    /// The price of each node, from node 1 on, in cost per unit.
    pub prices: PriceList,
}

impl Model for FlowAnswer {
    ghost use Rattle.mcf_answer.specs.Solution.{IsSolution, Solution};

    ghost Value = { Solution };

    ghost view = { λ a. record { cost = a.cost; sent = a.sent; prices = a.prices } };

    ghost invariant = { λ a. IsSolution (record { cost = a.cost; sent = a.sent; prices = a.prices }) };
}

/// A flow with its cost and prices, like [`FlowAnswer`], that names only some arcs, by their
/// numbers: every other arc carries its lower bound.
///
/// The cost, each flow and each price lie within 10^37 of 0, the numbers of the arcs are strictly
/// ascending from 1 to 10,000,000, and there are at most 1,000,000 prices.
#[derive(Debug, Drop)]
pub struct SparseAnswer {
    /// The total cost.
    pub cost: i128,
    /// The named arcs, each with its flow.
    pub moved: MovedList,
    /// The price of each node, from node 1 on, in cost per unit.
    pub prices: PriceList,
}

impl Model for SparseAnswer {
    ghost use Rattle.mcf_answer.specs.SparseSolution.{IsSparseSolution, SparseSolution};

    ghost Value = { SparseSolution };

    ghost view = { λ a. record { cost = a.cost; moved = a.moved; prices = a.prices } };

    ghost invariant = { λ a. IsSparseSolution (record { cost = a.cost; moved = a.moved; prices = a.prices }) };
}

/// A node set that blocks every flow, with its side (an infeasibility certificate).
///
/// The nodes are strictly ascending numbers from 1 to 1,000,000, at least one and at most
/// 1,000,000.
#[derive(Debug, Drop)]
pub struct BlockedAnswer {
    /// Whether the nodes must send or must take more than they can.
    pub side: Side,
    /// The nodes of the set.
    pub nodes: NodeList,
}

impl Model for BlockedAnswer {
    ghost use Rattle.mcf_answer.specs.BlockingSet.{BlockingSet, IsBlockingSet};

    ghost Value = { BlockingSet };

    ghost view = { λ a. record { side = a.side; nodes = a.nodes } };

    ghost invariant = { λ a. IsBlockingSet (record { side = a.side; nodes = a.nodes }) };
}

/// The answer to an instance text.
#[derive(Debug, Drop)]
pub enum Answer {
    /// A least-cost flow, in the full form.
    Flow(FlowAnswer),
    /// A least-cost flow, in the sparse form.
    Sparse(SparseAnswer),
    /// No flow meets all bounds and supplies.
    Blocked(BlockedAnswer),
    /// The text is no instance.
    Refused(Refusal),
}
