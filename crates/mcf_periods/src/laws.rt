//! Laws about problems over periods. Each is the contract of a function with an empty body.
ghost use Rattle.mcf_periods.specs.PeriodAnswers.{FlatAnswersArePeriodAnswers};
ghost use Rattle.mcf_periods.specs.PeriodLaws.{LeastFlatPlansAreLeast, PeriodPlansAreFlat, ProperPeriodsAreTimely};

/// Each plan over periods is a plan of the problem without periods, at the same cost, and each plan
/// of that problem is such a plan, if each place is listed in each period and nothing arrives or
/// is kept after the last period.
pub fn period_plans_are_flat()
    ensures { PeriodPlansAreFlat }
{}

/// A least plan of the problem without periods is a least plan over periods.
pub fn least_flat_plans_are_least()
    ensures { LeastFlatPlansAreLeast }
{}

/// The answer of `mcf_places::least` for the problem without periods is the answer for the problem
/// over periods: a least plan over periods, with its cost and what is missing in all periods; or
/// that there is no such plan; or a number beyond the limits.
pub fn flat_answers_are_period_answers()
    ensures { FlatAnswersArePeriodAnswers }
{}

/// If the problem without periods has no fault, and nothing departs before the first period,
/// arrives after the last one or is kept after it, then each end of a route is a place in a
/// period, as the other laws ask.
pub fn proper_periods_are_timely()
    ensures { ProperPeriodsAreTimely }
{}
