//! Laws about the figures of planners' plans. Each is the contract of a function that only cites
//! other laws.
ghost use Rattle.mcf_plan_figures.specs.OwnFigures.{LimitsChangeNoFigure};
ghost use Rattle.mcf_plan_figures.specs.PlannerFigureLaws.{ExactRouteSavingsAreReached, ExactThroughSavingsAreReached, JoinedRouteDearerIsReached, JoinedThroughDearerIsReached, JoinedUnitsCostThat, RouteDearerIsABound, RouteSavingsAreBounds, ThroughDearerIsABound, ThroughSavingsAreBounds, UnitsCostNoLess};
ghost use Rattle.mcf_plan_figures.specs.Told.{ToldFiguresAreThePlanners};

use mcf_figures::{
    dearer_is_a_bound, exact_savings_are_reached, joined_dearer_is_reached,
    joined_prices_are_reached, prices_are_bounds, savings_are_bounds,
};
use mcf_places::{
    limits_change_no_plan, planners_are_models, plans_fill_no_limit,
    sound_planners_have_sound_models,
};

/// With one more unit of room on a route, no plan costs less than a least plan by more than the
/// saving of that route.
pub fn route_savings_are_bounds()
    ensures { RouteSavingsAreBounds }
{
    planners_are_models();
    sound_planners_have_sound_models();
    savings_are_bounds();
}

/// If the saving of a route is exact, some plan with one more unit of room on it costs less by just
/// the saving.
pub fn exact_route_savings_are_reached()
    ensures { ExactRouteSavingsAreReached }
{
    planners_are_models();
    sound_planners_have_sound_models();
    exact_savings_are_reached();
}

/// If one more unit may pass through a place, no plan costs less than a least plan by more than the
/// saving of that place.
pub fn through_savings_are_bounds()
    ensures { ThroughSavingsAreBounds }
{
    planners_are_models();
    sound_planners_have_sound_models();
    savings_are_bounds();
}

/// If the saving of a place is exact, some plan in which one more unit may pass through it costs
/// less by just the saving.
pub fn exact_through_savings_are_reached()
    ensures { ExactThroughSavingsAreReached }
{
    planners_are_models();
    sound_planners_have_sound_models();
    exact_savings_are_reached();
}

/// If one more unit comes in at one place and is taken out at another, each plan costs more than a
/// least plan by at least the difference of their prices.
pub fn units_cost_no_less()
    ensures { UnitsCostNoLess }
{
    planners_are_models();
    sound_planners_have_sound_models();
    prices_are_bounds();
}

/// If loose routes join two places, some plan in which one more unit comes in at one of them and is
/// taken out at the other costs more by just the difference of their prices.
pub fn joined_units_cost_that()
    ensures { JoinedUnitsCostThat }
{
    planners_are_models();
    sound_planners_have_sound_models();
    joined_prices_are_reached();
}

/// In each plan in which a route carries more than in a least plan, each unit more costs at least
/// what is told of the route.
pub fn route_dearer_is_a_bound()
    ensures { RouteDearerIsABound }
{
    planners_are_models();
    sound_planners_have_sound_models();
    dearer_is_a_bound();
}

/// If loose routes lead around a route, some plan in which it carries one unit more costs more by
/// just what is told of it.
pub fn joined_route_dearer_is_reached()
    ensures { JoinedRouteDearerIsReached }
{
    planners_are_models();
    sound_planners_have_sound_models();
    joined_dearer_is_reached();
}

/// In each plan in which more passes through a place with bounds than in a least plan, each unit
/// more costs at least what is told of the place.
pub fn through_dearer_is_a_bound()
    ensures { ThroughDearerIsABound }
{
    planners_are_models();
    sound_planners_have_sound_models();
    dearer_is_a_bound();
}

/// If loose routes lead around a place with bounds, some plan in which one unit more passes through
/// it costs more by just what is told of it.
pub fn joined_through_dearer_is_reached()
    ensures { JoinedThroughDearerIsReached }
{
    planners_are_models();
    sound_planners_have_sound_models();
    joined_dearer_is_reached();
}

/// What `plan_figures` tells of a model of a problem are the figures of the problem that the other
/// laws speak of, and as much passes through a place as it tells.
pub fn told_figures_are_the_planners()
    ensures { ToldFiguresAreThePlanners }
{
    planners_are_models();
}

/// The prices of a least plan show it in the model of the problem itself, too, where bounds without
/// a limit have none; and all that `plan_figures` tells by the model that the plan was found in is
/// told by that model.
pub fn limits_change_no_figure()
    ensures { LimitsChangeNoFigure }
{
    planners_are_models();
    limits_change_no_plan();
    plans_fill_no_limit();
}
