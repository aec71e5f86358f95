//! Laws of the answers of `feasible`.
ghost use Rattle.mcf_feas.specs.Exactness.{AnswersAreExact, BlockedHasNoState};

/// If a node set blocks, every state of the net has a surplus.
///
/// The function does nothing at run time; its contract is the law.
pub fn blocked_has_no_state()
    ensures { BlockedHasNoState }
{}

/// `feasible` answers with a flow exactly if the net has a feasible flow.
///
/// The function does nothing at run time; its contract is the law.
pub fn answers_are_exact()
    ensures { AnswersAreExact }
{}
