//! Laws of runs, each the contract of a function that does nothing at run time.
ghost use Rattle.mcf_simplex.specs.Laws.{RunsAreTreeSolutions};

use crate::pricing::Pricing;

/// The amounts of a state that was made by a run are a tree solution, whatever the rule: the arcs
/// at neither bound hold no cycle.
pub fn runs_are_tree_solutions<P: Pricing>()
    ensures { RunsAreTreeSolutions P.Picks }
{}
