//! The problem over periods of two tables.
ghost use Rattle.std.specs.Prelude.{◌≡◌, ◌≤◌, IfOk, length};
ghost use Rattle.mcf_places.specs.declared.faults.TheConstants.{PLACE_LIMIT};
ghost use Rattle.mcf_units.specs.GreatNumbers.{step_total};
ghost use Rattle.mcf_units.specs.declared.great.TheConstants.{STEP_LIMIT};
ghost use Rattle.mcf_period_units.specs.Made.{IsMadeOver, IsPartsOf};
ghost use Rattle.mcf_period_units.specs.Numbering.{place_numbers, place_rows};
ghost use Rattle.mcf_period_units.specs.PeriodEntries.{entries_over};

use crate::departing::all_departures;
use crate::faults::PeriodGreat;
use crate::greats::greats;
use crate::numbering::{Numbered, number_places, spots_of};
use crate::origins::PeriodOrigins;
use crate::places_over::{Rows, all_places};
use crate::scales::scales_over;
use crate::spans::{period_count, span_in};
use crate::stores_over::all_stores;
use crate::unit_rows::{earning, unit_rows};
use mcf_period_reading::{PeriodTables, first_rows};
use mcf_periods::{PeriodRows, flat, proper_periods_are_timely};
use mcf_places::{Planner, PlannerFault};
use mcf_reading::Tables;
use mcf_text::NoMemory;
use mcf_units::{Scales, Terms, place_number, policy_in, routes_in};
use std::alloc::Global;

/// The problem without periods that stands for the problem over periods of two tables, in whole
/// numbers, with their units.
#[derive(Drop)]
pub struct PeriodProblem {
    /// The units.
    pub scales: Scales,
    /// The rows that its places, stores and departures come from.
    pub origins: PeriodOrigins,
    /// The problem.
    pub planner: Planner,
}

/// The faults of a problem over periods.
#[derive(Drop)]
pub struct ImproperPeriods {
    /// The rows that its places, stores and departures come from.
    pub origins: PeriodOrigins,
    /// All faults of the problem without periods that stands for it.
    pub faults: Vec<PlannerFault>,
}

/// What is made of two tables over periods.
#[derive(Drop)]
pub enum MadeOver {
    /// Their problem in whole numbers.
    Problem(PeriodProblem),
    /// All numbers that are too great, or that there are too many, and all rows of routes that are
    /// too late.
    TooGreat(Vec<PeriodGreat>),
    /// All faults of their problem.
    Improper(ImproperPeriods),
}

// The rows of a problem over periods, and where they come from.
#[derive(Drop)]
pub(crate) struct Parts {
    pub(crate) rows: PeriodRows,
    pub(crate) origins: PeriodOrigins,
}

// The parts of a problem over periods whose places these rows name first.
fn all_parts(
    alloc: Global,
    scales: Scales,
    tables: &Tables,
    times: &PeriodTables<'_>,
    numbered: &Numbered,
) -> Result<Parts, NoMemory>
    requires few { step_total tables.now.routes ≤ STEP_LIMIT }
    requires few_periods { length times.now.periods ≤ PLACE_LIMIT }
    requires firsts { numbered.now.firsts.items ≡ place_rows times.now.places.items }
    requires numbers { numbered.now.numbers.items ≡ place_numbers times.now.places.items }
    ensures { IfOk result (IsPartsOf scales (entries_over tables.now times.now)) }
{
    let count = numbered.firsts.as_slice().len();
    let last = times.periods.len();
    let span = span_in(&times.places, last);
    let units = unit_rows(alloc, scales, tables, times)?;
    let spots = spots_of(alloc, &times.places)?;
    let found = first_rows(alloc, &spots)?;
    let routes = routes_in(alloc, scales, tables)?;
    let limited = earning(&units, &routes.steps, &routes.rows);
    let rows = Rows {
        units: &units,
        spots: &spots,
        found: &found,
        firsts: &numbered.firsts,
        span,
        limited,
    };
    let listed = all_places(alloc, rows)?;
    let stored = all_stores(alloc, rows)?;
    let leaving = all_departures(alloc, &numbered.numbers, &routes.rows, &times.routes, span)?;
    Ok(Parts {
        rows: PeriodRows {
            count: place_number(count),
            last: place_number(period_count(span)),
            places: listed.places,
            steps: routes.steps,
            stores: stored.stores,
            departures: leaving.rows,
        },
        origins: PeriodOrigins {
            places: listed.origins,
            stores: stored.origins,
            departures: leaving.origins,
        },
    })
}

/// Makes the problem over periods of two tables. Amounts are counted in a unit that has as many
/// decimals as the amount with most of them, and costs in such a unit of their own. The places are
/// numbered by the rows that name them first.
///
/// # Errors
///
/// `NoMemory` if an allocation is refused.
pub fn problem_over(
    alloc: Global,
    tables: &Tables,
    times: &PeriodTables<'_>,
    terms: Terms,
) -> Result<MadeOver, NoMemory>
    ensures { IfOk result (IsMadeOver (entries_over tables.now times.now) terms) }
{
    let scales = scales_over(tables, times, terms.penalty);
    let numbered = number_places(alloc, &times.places)?;
    let count = numbered.firsts.len();
    let faults = greats(alloc, scales, tables, times, terms, count)?;
    if !faults.is_empty() {
        return Ok(MadeOver::TooGreat(faults));
    }
    let parts = all_parts(alloc, scales, tables, times, &numbered)?;
    let origins = parts.origins;
    proper_periods_are_timely();
    match flat(alloc, parts.rows, policy_in(scales, terms))? {
        Ok(planner) => Ok(MadeOver::Problem(PeriodProblem {
            scales,
            origins,
            planner,
        })),
        Err(faults) => Ok(MadeOver::Improper(ImproperPeriods { origins, faults })),
    }
}
