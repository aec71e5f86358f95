#![tactic(auto)]

//! Plans, bottlenecks and faults of tables over periods as rows of a table.
//!
//! It builds on `mcf_plan_rows`, which has the rows without periods, and on `mcf_period_units`,
//! which says where the places, the stores and the departures of a problem over periods come from.
//! Plans and bottlenecks are those of the problem without periods that `mcf_periods` makes of it,
//! whose routes are the stores and then the departures. The definitions are in `specs/`:
//! `TimedTables` has the names of periods and places, `PeriodPlanRows` the rows of plans,
//! `PeriodBottleneckRows` those of bottlenecks, `PeriodFaultRows` those of faults, and
//! `PeriodAnswerRows` those of an answer.

mod answers;
mod bottlenecks;
mod faults;
mod plans;
mod timed;
mod words;

pub use answers::{period_mark, put_period_answer};
pub use bottlenecks::put_period_bottleneck;
pub use faults::{
    put_period_beyond, put_period_faults, put_period_greats, put_period_planner_faults,
};
pub use plans::put_period_plan;
pub use timed::{
    Timed, arrives_at, departure_origin, leaves_from, period_name, place_name, place_origin,
    store_origin, told_row,
};
