//! What the caller chooses.

use crate::block_size::BlockSize;

/// The engine that solves.
#[derive(Clone, Copy, Debug, PartialEq, Eq)]
pub enum EngineChoice {
    /// The default of a problem: shortest augmenting paths for an assignment, the network simplex
    /// for a flow problem.
    Auto,
    /// Cycle cancelling: a slow and short baseline.
    Cancel,
    /// The network simplex.
    Simplex,
    /// Cost scaling.
    Scaling,
    /// The network simplex, watched, and for bad cases a fast search whose answer is judged: for
    /// every flow problem.
    Fast,
    /// Shortest augmenting paths, for an assignment; for a flow problem it means `Auto`.
    Sap,
}

/// The rule by which the network simplex picks the entering arc.
#[derive(Clone, Copy, Debug, PartialEq, Eq)]
pub enum PricingChoice {
    /// The eligible arc of least number.
    First,
    /// The eligible arc of greatest violation.
    Best,
    /// The eligible arc of greatest violation in the first block that has one, the blocks in turn.
    Block,
    /// The same with blocks that grow with the net, taken in turn from four segments of the arcs.
    Wide,
}

/// The form in which a flow is written. Blocked and refused answers have one form.
#[derive(Clone, Copy, Debug, PartialEq, Eq)]
pub enum Form {
    /// The full form: each arc with its ends and its flow.
    One,
    /// The sparse form: only the arcs that don't carry their lower bound, each with its number and
    /// its flow.
    Two,
}

/// How to solve and answer an instance. Only the network simplex uses the pricing rule and the size
/// of its blocks.
#[derive(Clone, Copy, Debug, PartialEq, Eq)]
pub struct Choice {
    pub engine: EngineChoice,
    pub pricing: PricingChoice,
    /// The number of arcs in a block of `Block`.
    pub block: BlockSize,
    pub form: Form,
}

impl Default for Choice {
    ghost use Rattle.std.specs.Prelude.{◌≡◌};
    ghost use Rattle.mcf_choice.specs.Choices.{standard_choice};

    ghost is_default = { λ choice. choice ≡ standard_choice };

    /// `Auto`, `Block` with blocks of 256 arcs, and the full form.
    fn default() -> Choice {
        Choice {
            engine: EngineChoice::Auto,
            pricing: PricingChoice::Block,
            block: BlockSize::standard(),
            form: Form::One,
        }
    }
}
