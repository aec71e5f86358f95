//! The ranges of the costs of a problem's routes.
ghost use Rattle.std.specs.Prelude.{IfNone, IfOk, IfSome, OnErr, length};
ghost use Rattle.mcf_flows.specs.Network.{IsNode};
ghost use Rattle.mcf_places.specs.Answers.{IsShownIn};
ghost use Rattle.mcf_places.specs.LimitedPlanners.{limited};
ghost use Rattle.mcf_places.specs.Planning.{plan_in};
ghost use Rattle.mcf_plan_ranges.specs.PlanRanges.{AreWithinLimits};
ghost use Rattle.mcf_planner_ranges.specs.PlannerRanges.{IsPlannerRange};

use crate::laws::{limits_change_no_range, model_ranges_are_the_planners};
use mcf_places::{LeastPlannerPlan, Planner};
use mcf_plan_ranges::{CostRange, cost_range};
use mcf_text::NoMemory;
use std::alloc::Global;

/// Returns by how much the cost of each unit on a route of a planner's problem, by its number, may
/// fall and may rise, such that its least plan stays least, if all other costs stay as they are. A
/// change is the same for each step of the route. On a route both ways it is the same in both
/// directions, and no cost may fall below 0. But where a row of routes is two routes of the
/// problem, one for each way, each has a range of its own, in which only its way changes.
///
/// It is `None` if a number of the plan's model is beyond the limits of `cost_range`.
///
/// # Errors
///
/// `NoMemory` if an allocation is refused; numbers beyond the limits need none.
pub fn planner_cost_range(
    alloc: Global,
    planner: &Planner,
    least: &LeastPlannerPlan,
    number: usize,
) -> Result<Option<CostRange>, NoMemory>
    requires shown { IsShownIn (limited planner.now) least.now }
    requires route { IsNode (length planner.now.routes) number }
    ensures exact { IfOk result (λ told. IfSome told (IsPlannerRange planner.now (plan_in least.now.plan) number)) }
    ensures none { IfOk result (λ told. IfNone told (¬ AreWithinLimits least.now.shown.model least.now.shown.prices.items least.now.shown.carries.items)) }
    ensures wants { OnErr result (AreWithinLimits least.now.shown.model least.now.shown.prices.items least.now.shown.carries.items) }
{
    // Called only for its clause: the problem has no fault.
    let _places = planner.places();
    model_ranges_are_the_planners();
    limits_change_no_range();
    let shown = &least.shown;
    cost_range(alloc, &shown.model, &shown.carries, &shown.prices, number)
}
