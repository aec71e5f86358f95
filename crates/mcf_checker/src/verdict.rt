//! The verdicts.
use mcf_instance::Refusal;

/// The verdict on an answer text: the first of these that applies, in this order. `Refused`, `Flow`
/// and `Blocked` accept.
#[derive(Clone, Copy, Debug, PartialEq, Eq)]
pub enum Verdict {
    /// The answer text isn't an answer: the first line that doesn't fit.
    BadShape(u128),
    /// A refusal of an instance without a fault, or another answer to an instance that has one.
    BadKind,
    /// The refusal doesn't name the first fault.
    BadRefusal,
    /// Accepted: the refusal names the first fault.
    Refused(Refusal),
    /// The least number of an arc and a flow line of which one is missing, or whose ends differ, or
    /// whose flow is outside the bounds; in the sparse form, the least number of a line without
    /// such an arc, or with a flow outside its bounds.
    BadArc(u64),
    /// The least number of a node and a price line of which one is missing, or of a node whose net
    /// outflow isn't its supply.
    BadNode(u32),
    /// The first arc whose flow the prices don't show.
    BadPrice(u32),
    /// The stated cost isn't the cost of the flow.
    BadCost,
    /// Accepted: a feasible flow of this cost, which the prices show, so that no feasible flow
    /// costs less.
    Flow(i128),
    /// A node isn't in the instance, or the set doesn't block by the named side.
    BadSet,
    /// Accepted: a set of this many nodes that must send or take more than it can, so that no flow
    /// is feasible.
    Blocked(u32),
}
