#![tactic(auto)]

//! Planners' problems: places with bounds on what passes through them, supplies that may stay, and
//! demands that may be missing.
//!
//! It builds on `mcf_model`: each such problem is a model of that crate, and `least` uses any
//! solver that it takes. The definitions are in `specs/`: `Planners` has problems and plans,
//! `Models` their models, `PlannerLaws` the laws between both, `Ways` the routes of rows that are
//! used both ways, `PlannerFaults` the faults of a problem, `PlannerBottlenecks` the reasons why it
//! has no plan, `Crossings` what leads away from these places,
//! `FinerPlanners` problems in finer units, `LimitedPlanners` the problem in which
//! bounds have the limits that they need, `Throughput` those limits, `Shortage` the problem in
//! which only what is missing costs something, `Answers` the answers, and `Origins` where a number
//! beyond the limits comes from.

mod answering;
mod crossings;
mod faults;
mod laws;
mod limits;
mod making;
mod origins;
mod places;
mod problem;
mod reading;
mod rows;
mod shortage;
mod supplies;
mod told;
mod ways;

pub use answering::{LeastPlannerPlan, PlannerAnswer, ShownModel, least, misses_least};
pub use crossings::Crossing;
pub use faults::{
    PLACE_LIMIT, PlannerFault, SUM_LIMIT, Totals, given, missing_cost, place_earns, wanted,
};
pub use laws::{
    least_model_plans_are_least, limits_change_no_plan, planner_bottlenecks_have_no_plan,
    planners_are_models, plans_fill_no_limit, plans_miss_no_more, sound_planners_have_sound_models,
};
pub use limits::THROUGHPUT_LIMIT;
pub use making::model_of;
pub use origins::{Origin, origin_of};
pub use places::{Bounds, Place, Policy};
pub use problem::Planner;
pub use reading::{PlannerPlan, plan_of};
pub use told::PlannerBottleneck;
