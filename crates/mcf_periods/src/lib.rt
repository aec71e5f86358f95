#![tactic(auto)]

//! Planners' problems over periods: places give and want in each period, what is sent arrives some
//! periods later, and places keep stock from a period to the next.
//!
//! It builds on `mcf_places`: each such problem is a problem of that crate, with a place for each
//! place in each period (a time-expanded network), and `least` of that crate finds its plans. The
//! definitions are in `specs/`: `Periods` has problems and plans over periods, `Flat` the problem
//! without periods that stands for one, `PeriodLaws` the laws between both, and
//! `PeriodAnswers` the answers.

mod flattening;
mod laws;
mod rows;

pub use flattening::flat;
pub use laws::{
    flat_answers_are_period_answers, least_flat_plans_are_least, period_plans_are_flat,
    proper_periods_are_timely,
};
pub use rows::{DepartureRow, PeriodRows, Store};
