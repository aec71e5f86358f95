//! Laws about units more. Each is the contract of a function that at most cites other laws.
ghost use Rattle.mcf_unit_ranges.specs.PlannerUnits.{RouteSavingsAreTheModels, UnitsAreTheModels};
ghost use Rattle.mcf_unit_ranges.specs.UnitRanges.{RoomIsUnits, UnitsCostNoLess};

use mcf_places::{planners_are_models, sound_planners_have_sound_models};

/// With any number of units more from one place to another, no plan costs less than the prices of a
/// least plan say, in finer units either.
pub fn units_cost_no_less()
    ensures { UnitsCostNoLess }
{}

/// Where one more unit of room on a route saves something by the prices, it saves that for just as
/// many units as units from the route's head to its tail cost what the prices say, in the direction
/// in which the price drops.
pub fn room_is_units()
    ensures { RoomIsUnits }
{}

/// What more room on a route saves holds in a planner's problem for just the units for which it
/// holds in its model.
pub fn route_savings_are_the_models()
    ensures { RouteSavingsAreTheModels }
{
    planners_are_models();
}

/// What units from one place to another cost holds in a planner's problem for just the units for
/// which it holds in its model, between the entry of the one and the exit of the other.
pub fn units_are_the_models()
    ensures { UnitsAreTheModels }
{
    planners_are_models();
    sound_planners_have_sound_models();
}
