//! Laws of cost scaling.
ghost use Rattle.mcf_scaling.specs.Laws.{NearlyLeastHaveNoCycle, PhasesEnd, PricesRiseLittle, RunsKeepBounds};

/// In a phase that began at a state without surplus that was 2e-optimal, the price of an active
/// node has risen by at most 3ne.
///
/// The function does nothing at run time; its contract is the law (Ahuja, Magnanti and Orlin,
/// Network Flows, section 10.3, with levels of prices instead of paths).
pub fn prices_rise_little()
    ensures { PricesRiseLittle }
{}

/// A 1-optimal state has no negative cycle, since all costs are multiplied by the number of nodes
/// plus 1.
///
/// The function does nothing at run time; its contract is the law (Bertsekas; Ahuja, Magnanti and
/// Orlin, Network Flows, section 10.3).
pub fn nearly_least_have_no_cycle()
    ensures { NearlyLeastHaveNoCycle }
{}

/// Steps keep the invariants of a refinement, relabel no node more than 3n times in a phase, and
/// halve e once for each phase.
///
/// The function does nothing at run time; its contract is the law.
pub fn runs_keep_bounds()
    ensures { RunsKeepBounds }
{}

/// A phase ends, in any order of its steps: each push and each relabel lowers a measure.
///
/// The function does nothing at run time; its contract is the law.
pub fn phases_end()
    ensures { PhasesEnd }
{}
