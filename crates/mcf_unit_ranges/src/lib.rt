#![tactic(auto)]

//! For how many units the prices of a least plan tell what one more costs (right-hand-side
//! ranging).
//!
//! It builds on `mcf_model`, whose least plans come with prices that show them, and on
//! `mcf_figures`. In `specs/`, `Changes` has models with units more from one place to another,
//! `UnitRanges` what holds for how many units, `Spans` the amounts of least reduced cost of a
//! route, `SpanModels` models whose plans are made of them, `Told` of which models a range is told,
//! and `PlannerUnits` the same of planners' problems. No definition names a network.

mod laws;
mod limits;
mod models;
mod planners;
mod ranging;
mod rooms;
mod rows;
mod saving;
mod spans;

pub use laws::{
    room_is_units, route_savings_are_the_models, units_are_the_models, units_cost_no_less,
};
pub use limits::UNITS_LIMIT;
pub use planners::{planner_room_range, planner_units_range};
pub use ranging::{UnitsRange, units_range};
pub use rows::Ends;
pub use saving::room_range;
