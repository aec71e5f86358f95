#![tactic(auto)]

//! By how much the cost of a unit on a route may change while a plan stays least.
//!
//! It builds on `mcf_model`, and on the ranges of arcs of `mcf_ranges`. In `specs/`, `Changes` has
//! models with another cost of a route, and `PlanRanges` the ranges; `Private/` has the residual
//! network of a plan, and the two sides of which a range is made.

mod limits;
mod ranging;
mod residual;
mod sides;
mod units;

pub use mcf_ranges::CostRange;
pub use ranging::cost_range;
