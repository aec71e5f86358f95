//! Laws about ranges of planners' problems. Each is the contract of a function that only cites
//! other laws.
ghost use Rattle.mcf_planner_ranges.specs.PlannerRanges.{LimitsChangeNoRange, ModelRangesAreThePlanners};

use mcf_places::{
    least_model_plans_are_least, limits_change_no_plan, planners_are_models, plans_miss_no_more,
    sound_planners_have_sound_models,
};

/// A range of the cost of a route of a problem's model is one of the problem: exactly the changes
/// in it keep the plan that is read from the model's plan least.
pub fn model_ranges_are_the_planners()
    ensures { ModelRangesAreThePlanners }
{
    planners_are_models();
    sound_planners_have_sound_models();
    least_model_plans_are_least();
    plans_miss_no_more();
}

/// A range of the problem in which bounds have the limits that they need is one of the problem.
pub fn limits_change_no_range()
    ensures { LimitsChangeNoRange }
{
    limits_change_no_plan();
}
