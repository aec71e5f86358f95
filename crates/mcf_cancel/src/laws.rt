//! A law of least states.
ghost use Rattle.mcf_cancel.specs.Laws.{LeastStatesHaveNoCycle};

/// A least state has no negative cycle: a push along one would make it cheaper.
///
/// The function does nothing at run time; its contract is the law (the easy half of the negative
/// cycle optimality conditions; Ahuja, Magnanti and Orlin, Network Flows, section 9.3).
pub fn least_states_have_no_cycle()
    ensures { LeastStatesHaveNoCycle }
{}
