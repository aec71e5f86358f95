//! Laws about rosters. Each is the contract of a function with an empty body.
ghost use Rattle.mcf_roster.specs.ToldSums.{CompetitionsAddToMore};
ghost use Rattle.mcf_roster.specs.RosterLaws.{CompetitionsHaveNoChoice, LeastPlansAreLeastChoices, RostersAreModels};

use mcf_model::bottlenecks_have_no_plan;

/// Each choice of a roster is a plan of its model, at the same cost, and each plan of the model is
/// such a choice.
pub fn rosters_are_models()
    ensures { RostersAreModels }
{}

/// A least plan of the model is a least choice.
pub fn least_plans_are_least_choices()
    ensures { LeastPlansAreLeastChoices }
{}

/// If some persons and things compete, the roster has no choice.
pub fn competitions_have_no_choice()
    ensures { CompetitionsHaveNoChoice }
{
    bottlenecks_have_no_plan();
}

/// Where persons must take more than there is, the numbers that are told of them add up to more
/// than those of the things and the number of the pairs that count one more; and so it is for
/// things that must give more.
pub fn competitions_add_to_more()
    ensures { CompetitionsAddToMore }
{}
