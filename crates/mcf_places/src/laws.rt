//! Laws about planners' problems. Each is the contract of a function with an empty body.
ghost use Rattle.mcf_places.specs.PlannerBottlenecks.{PlannerBottlenecksHaveNoPlan};
ghost use Rattle.mcf_places.specs.LimitedPlanners.{LimitsChangeNoPlan, PlansFillNoLimit};
ghost use Rattle.mcf_places.specs.PlannerLaws.{LeastModelPlansAreLeast, PlannersAreModels, PlansMissNoMore, SoundPlannersHaveSoundModels};

use mcf_model::bottlenecks_have_no_plan;

/// Each plan of a planner's problem in which no more than a given amount is missing is a plan of
/// its model, at the same cost, and each plan of the model is such a plan.
pub fn planners_are_models()
    ensures { PlannersAreModels }
{}

/// A least plan of the model in which no more than a given amount is missing is a least plan of the
/// problem: if no plan misses more, or, where demands may be missing and no penalty is named, for
/// all places or for one, if no plan misses less.
pub fn least_model_plans_are_least()
    ensures { LeastModelPlansAreLeast }
{}

/// The limits that bounds get where they need one and have none change no plan, in finer units
/// either.
pub fn limits_change_no_plan()
    ensures { LimitsChangeNoPlan }
{}

/// No plan fills the limits that bounds get where they need one and have none.
pub fn plans_fill_no_limit()
    ensures { PlansFillNoLimit }
{}

/// No plan misses more than all that places want, and none misses anything if no demand may be
/// missing.
pub fn plans_miss_no_more()
    ensures { PlansMissNoMore }
{}

/// The model of a sound problem is sound.
pub fn sound_planners_have_sound_models()
    ensures { SoundPlannersHaveSoundModels }
{}

/// If some places are a bottleneck, the problem has no plan.
pub fn planner_bottlenecks_have_no_plan()
    ensures { PlannerBottlenecksHaveNoPlan }
{
    bottlenecks_have_no_plan();
}
