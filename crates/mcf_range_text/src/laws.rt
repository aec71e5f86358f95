//! Laws about ranges over periods. Each is the contract of a function that only cites other laws.
ghost use Rattle.mcf_range_text.specs.PeriodRanges.{FlatRangesArePeriodRanges, ToldRangesArePeriodRanges};

use mcf_periods::{least_flat_plans_are_least, period_plans_are_flat};

/// A range of the cost of a route of the problem without periods is one of the store, or of the
/// departure, that the route stands for: exactly the changes in it keep the plan over periods
/// least.
pub fn flat_ranges_are_period_ranges()
    ensures { FlatRangesArePeriodRanges }
{
    period_plans_are_flat();
    least_flat_plans_are_least();
}

/// The ranges that are told of tables over periods are those of their problem over periods, with a
/// place for each of its stores and each of its departures: each change of the cost of what one
/// store keeps, or one departure carries, keeps the plan over periods least exactly if it is in the
/// range that is told of it.
pub fn told_ranges_are_period_ranges()
    ensures { ToldRangesArePeriodRanges }
{
    flat_ranges_are_period_ranges();
}
