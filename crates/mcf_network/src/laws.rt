//! Laws of states and of nets, each the contract of a function that does nothing at run time.
ghost use Rattle.mcf_network.specs.Laws.{FeasibleFlowsAreStates, GreatestPricesCarryOver, NetFlowsCostNoMore, NetsBlockAlike, RestoredLeastFlowsAreLeast};
ghost use Rattle.mcf_network.specs.Laws.{RestoredTreeSolutionsAreTreeSolutions, StuckSetsBlock};

/// The states of a net without surplus are its feasible flows.
pub fn feasible_flows_are_states()
    ensures { FeasibleFlowsAreStates }
{}

/// A set that no surplus can leave blocks every flow: it must send more than it can.
pub fn stuck_sets_block()
    ensures { StuckSetsBlock }
{}

/// For each feasible flow of a network, some state of its net without surplus costs no more, except
/// for a constant that is the same for all flows.
pub fn net_flows_cost_no_more()
    ensures { NetFlowsCostNoMore }
{}

/// A node set blocks the net exactly if it blocks the network.
pub fn nets_block_alike()
    ensures { NetsBlockAlike }
{}

/// The flow that a least flow of the net stands for is least.
pub fn restored_least_flows_are_least()
    ensures { RestoredLeastFlowsAreLeast }
{}

/// A flow of the net and the flow that it stands for have the same greatest prices not above 0.
pub fn greatest_prices_carry_over()
    ensures { GreatestPricesCarryOver }
{}

/// The flow that a tree solution of the net stands for is a tree solution: an arc of the net at a
/// bound stands for an arc at a bound, and every loop is at one.
pub fn restored_tree_solutions_are_tree_solutions()
    ensures { RestoredTreeSolutionsAreTreeSolutions }
{}
