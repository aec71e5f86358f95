#![tactic(auto)]

//! By how much the cost of a unit on a route of a planner's problem may change while its plan stays
//! least.
//!
//! It builds on `mcf_plan_ranges`, which has the ranges of models, and on `mcf_places`, whose least
//! plans come with the model that they were found in. `specs/PlannerRanges` has the definition and
//! the laws.

mod laws;
mod ranging;

pub use laws::{limits_change_no_range, model_ranges_are_the_planners};
pub use mcf_plan_ranges::CostRange;
pub use ranging::planner_cost_range;
