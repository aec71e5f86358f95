#![tactic(auto)]

//! The problem over periods of two tables: their decimals as whole numbers of one unit for amounts,
//! and one for costs, a place for each place in each period, what places keep, and the departures
//! of each row of routes; or what is too great, or too late; or all faults of the problem.
//!
//! It builds on `mcf_units`, `mcf_period_reading` and `mcf_periods`. The definitions are in
//! `specs/`: `PeriodScales` says which units are taken, `UnitRows` what a row of places is in them,
//! `Spans` which periods there are, `Numbering` which number a place has, `PlacesOver` and
//! `DeparturesOver` what the problem is made of, `PeriodGreats` what is too great, and `Made` what
//! is made.

mod departing;
mod faults;
mod greats;
mod making;
mod numbering;
mod origins;
mod places_over;
mod scales;
mod spans;
mod stores_over;
mod unit_rows;

pub use faults::{PeriodCell, PeriodGreat};
pub use making::{ImproperPeriods, MadeOver, PeriodProblem, problem_over};
pub use origins::{DepartureOrigin, PeriodOrigins, PlaceOrigin, StoreOrigin};
