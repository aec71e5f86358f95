//! The two laws behind the certificates.
ghost use Rattle.mcf_flows.specs.Laws.{BlockedHasNoFlow, ShownFlowsAreLeast};

/// A feasible flow that some prices show (for which they satisfy complementary slackness) is least:
/// no feasible flow costs less.
///
/// The function does nothing at run time; its contract is the law (weak duality; Ahuja, Magnanti
/// and Orlin, Network Flows, chapter 9).
pub fn shown_flows_are_least()
    ensures { ShownFlowsAreLeast }
{}

/// If a node set blocks, by either side, no flow is feasible.
///
/// The function does nothing at run time; its contract is the law (the easy half of Hoffman's
/// condition; Ahuja, Magnanti and Orlin, Network Flows, chapter 6).
pub fn blocked_has_no_flow()
    ensures { BlockedHasNoFlow }
{}
