//! Laws about models and their networks. Each is the contract of a function with an empty body.
ghost use Rattle.mcf_model.specs.Laws.{BottlenecksHaveNoPlan, FinerPlansUndercutNone, ShownFlowsCostTheSame};
ghost use Rattle.mcf_model.specs.Laws.{BlockedModelsHaveNoPlan, BlockingSetsAreBottlenecks, FlowsArePlans, PlansAreFlows, ShownFlowsGiveLeastPlans};
ghost use Rattle.mcf_model.specs.Prices.{ShownFlowsShowPlans};

/// Each plan of a model is a feasible flow of its network, at the same cost.
pub fn plans_are_flows()
    ensures { PlansAreFlows }
{}

/// Each feasible flow of the network gives a plan of no greater cost.
pub fn flows_are_plans()
    ensures { FlowsArePlans }
{}

/// The plan of a flow that some prices show to be least is a least plan, even if routes have no
/// limit.
pub fn shown_flows_give_least_plans()
    ensures { ShownFlowsGiveLeastPlans }
{}

/// If a node set blocks the network, the model has no plan, even if routes have no limit.
pub fn blocked_models_have_no_plan()
    ensures { BlockedModelsHaveNoPlan }
{}

/// A node set that blocks the network is a set of places that must send, or take, more than they
/// can.
pub fn blocking_sets_are_bottlenecks()
    ensures { BlockingSetsAreBottlenecks }
{}

/// The plan of a flow that some prices show to be least costs as much as the flow.
pub fn shown_flows_cost_the_same()
    ensures { ShownFlowsCostTheSame }
{}

/// No plan in finer units costs less than the plan of a flow that some prices show to be least.
pub fn finer_plans_undercut_none()
    ensures { FinerPlansUndercutNone }
{}

/// If some places are a bottleneck, the model has no plan.
pub fn bottlenecks_have_no_plan()
    ensures { BottlenecksHaveNoPlan }
{}

/// Prices that show a flow show its plan, even if routes have no limit: each route carries an
/// amount of least reduced cost.
pub fn shown_flows_show_plans()
    ensures { ShownFlowsShowPlans }
{}
