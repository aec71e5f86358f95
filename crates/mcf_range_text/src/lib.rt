#![tactic(auto)]

//! The answer to two tables with ranges, as the text of a table: the ranges of the costs of routes,
//! or over periods those of departures and of what places keep; and for how many units the prices
//! hold.
//!
//! It builds on `mcf_plan_text`, which has the text of an answer, on `mcf_planner_ranges`, which
//! has the ranges, and on `mcf_unit_ranges`, which has the numbers of units. The definitions are in
//! `specs/`: `RangeTexts` says what the text is, `PeriodRangeTexts` which rows it has over periods,
//! `PeriodRanges` what ranges over periods are, `UnitRangeTexts` which rows tell for how many units
//! the prices hold, `RoomRangeTexts` for how many units of room on a route they do,
//! `PassRangeTexts` for how many that may pass through a place, and `SupplyRangeTexts` for how many
//! units of a supply or of a demand; and `PeriodUnitTexts` has the rows of all these over periods.

mod laws;
mod passes;
mod period_rows;
mod period_unit_rows;
mod ranges;
mod rooms;
mod rows;
mod supplies;
mod telling;
mod unit_rows;
mod units;

pub use laws::{flat_ranges_are_period_ranges, told_ranges_are_period_ranges};
pub use telling::told_text;
