#![tactic(auto)]

//! The planner's problem of two tables: their decimals as whole numbers of one unit for amounts,
//! and one for costs, or all numbers that are too great, or all faults of the problem.
//!
//! It builds on `mcf_reading` and `mcf_places`. The definitions are in `specs/`: `Scales` says
//! which units are taken, `Wholes` what the tables are in them, `GreatNumbers` which numbers are
//! too great, and `Answers` what is made.

mod great;
mod making;
mod rows;
mod scales;
mod terms;
mod wholes;

pub use great::{GreatFault, STEP_LIMIT, great_faults};
pub use making::{Made, WholeProblem, problem};
pub use rows::{RouteTables, routes_in};
pub use scales::{Scales, scales_of};
pub use terms::Terms;
pub use wholes::{is_whole, place_in, place_number, policy_in, whole, whole_limit};
