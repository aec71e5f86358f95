//! Laws. Each is the contract of a function with an empty body.
ghost use Rattle.mcf_groups.specs.BoundSums.{GroupsAddToMore};
ghost use Rattle.mcf_groups.specs.Counts.{CountsAreOfChoices};
ghost use Rattle.mcf_groups.specs.Crossings.{CrossingsAreCut};
ghost use Rattle.mcf_groups.specs.GroupLaws.{GroupsAreModels, LeastPlansAreLeastGroupChoices};
ghost use Rattle.mcf_groups.specs.Orders.{OrdersHaveAll, OrdersKeepChoices};
ghost use Rattle.mcf_groups.specs.SplitLaws.{SplitsKeepPlans};

/// The plans of a model after places are split are just its plans before in which each new place
/// passes on an amount within its range, at the same cost.
pub fn splits_keep_plans()
    ensures { SplitsKeepPlans }
{}

/// If the groups of a roster have no fault, each choice that keeps to them is a plan of their
/// model, at the same cost, and each plan of the model is such a choice.
pub fn groups_are_models()
    ensures { GroupsAreModels }
{}

/// A least plan of the model is a least choice that keeps to all groups.
pub fn least_plans_are_least_group_choices()
    ensures { LeastPlansAreLeastGroupChoices }
{}

/// Where a group crosses, there is an earlier group of the same kind that has some of its members,
/// and not all.
pub fn crossings_are_cut()
    ensures { CrossingsAreCut }
{}

/// The order of groups has each of them once.
pub fn orders_have_all()
    ensures { OrdersHaveAll }
{}

/// A least choice that keeps to groups in one order is a least one that keeps to them in another.
pub fn orders_keep_choices()
    ensures { OrdersKeepChoices }
{}

/// The numbers that are told with groups are those that their ranges are about.
pub fn counts_are_of_choices()
    ensures { CountsAreOfChoices }
{}

/// Where there is no choice, the leasts that are told add up to more than the mosts and the number
/// of pairs that count one more.
pub fn groups_add_to_more()
    ensures { GroupsAddToMore }
{}
