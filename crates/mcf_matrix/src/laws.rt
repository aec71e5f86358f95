//! The laws behind the judges. Each is the contract of a function with an empty body.
ghost use Rattle.mcf_matrix.specs.Laws.{CoveredHasNoMatching, CutHasNoPlan, ShownMatchingsAreLeast, ShownMatchingsCostThePrices, ShownPlansAreLeast, ShownPlansCostThePrices};

/// If some prices show a matching to be least, no matching costs less.
///
/// The function does nothing; its contract is the law (weak duality; Kuhn 1955; Ahuja, Magnanti and
/// Orlin, Network Flows, section 12.4).
pub fn shown_matchings_are_least()
    ensures { ShownMatchingsAreLeast }
{}

/// If some prices show a matching to be least, it costs the sum of all prices.
///
/// The function does nothing; its contract is the law (Ahuja, Magnanti and Orlin, Network Flows,
/// section 12.4).
pub fn shown_matchings_cost_the_prices()
    ensures { ShownMatchingsCostThePrices }
{}

/// If a set of rows and columns covers all allowed pairs and is smaller than both sides, there is
/// no matching.
///
/// The function does nothing; its contract is the law (the easy half of the theorem of König, 1931,
/// and of Hall, 1935).
pub fn covered_has_no_matching()
    ensures { CoveredHasNoMatching }
{}

/// If some prices show a transport plan to be least, no plan costs less.
///
/// The function does nothing; its contract is the law (weak duality; Ahuja, Magnanti and Orlin,
/// Network Flows, section 9.4).
pub fn shown_plans_are_least()
    ensures { ShownPlansAreLeast }
{}

/// If some prices show a transport plan to be least, it costs the sum of price times supply over
/// the rows and price times demand over the columns.
///
/// The function does nothing; its contract is the law (Ahuja, Magnanti and Orlin, Network Flows,
/// section 9.4).
pub fn shown_plans_cost_the_prices()
    ensures { ShownPlansCostThePrices }
{}

/// If a set of rows and columns is a cut, there is no transport plan.
///
/// The function does nothing; its contract is the law (the easy half of Hoffman's condition; Ahuja,
/// Magnanti and Orlin, Network Flows, section 6.7).
pub fn cut_has_no_plan()
    ensures { CutHasNoPlan }
{}
