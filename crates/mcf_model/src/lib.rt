#![tactic(auto)]

//! Planners' models and their least plans: places that send or take goods, and routes between them
//! whose unit cost rises in steps.
//!
//! It builds on `mcf_flows` and `mcf_instance`, and on no engine: `plan` uses any type that
//! implements `Solves`. The definitions are in `specs/`: `Model` has models and plans,
//! `Bottlenecks` reasons why a model has no plan, `Faults` the faults of a model, `Arcs` its
//! network, `Laws` the laws between both, and `Planning` the answers.

mod arcs;
mod carried;
mod complements;
mod faults;
mod laws;
mod plan_model;
mod planning;
mod reach;
mod rooms;
mod rows;

pub use arcs::arcs_of;
pub use carried::plan_of;
pub use complements::{side_told, turned_if};
pub use faults::{ModelFault, RouteFault, all_faults, some_earn};
pub use laws::{
    blocked_models_have_no_plan, blocking_sets_are_bottlenecks, bottlenecks_have_no_plan,
    finer_plans_undercut_none, flows_are_plans, plans_are_flows, shown_flows_cost_the_same,
    shown_flows_give_least_plans, shown_flows_show_plans,
};
pub use plan_model::{PlanModel, RouteParts};
pub use planning::{Bottleneck, LeastPlan, Planned, ShownFlow, Solved, Solves, plan};
pub use reach::reach_of;
pub use rooms::room;
pub use rows::{RouteRow, Step, own_steps};
