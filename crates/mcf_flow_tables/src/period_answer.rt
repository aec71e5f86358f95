//! The answer to what two tables say about periods.
ghost use Rattle.std.specs.Prelude.{IfOk};
ghost use Rattle.mcf_period_units.specs.PeriodEntries.{entries_over};
ghost use Rattle.mcf_flow_tables.specs.PeriodTableAnswers.{IsPeriodTableAnswer, IsAnswerUnder, IsSolvedOver};

use crate::answering::origin_in;
use crate::options::Options;
use mcf_decimal::Mark;
use mcf_model::Solves;
use mcf_period_reading::{PeriodFault, PeriodTables, faults_of_heads, read_periods};
use mcf_period_units::{ImproperPeriods, MadeOver, PeriodGreat, PeriodOrigins, problem_over};
use mcf_periods::flat_answers_are_period_answers;
use mcf_places::{Origin, Planner, PlannerAnswer, least};
use mcf_reading::{Faults, Tables, read_heads, read_rows};
use mcf_table::Records;
use mcf_text::NoMemory;
use mcf_units::{Scales, Terms};
use std::alloc::Global;

/// The answer to a problem over periods in whole numbers, with their units and the mark of the
/// tables.
#[derive(Drop)]
pub struct SolvedPeriods {
    /// The mark before decimals; `None` if none is named or shown.
    pub mark: Option<Mark>,
    /// The units of amounts and of costs.
    pub scales: Scales,
    /// The rows that places, stores and departures come from.
    pub origins: PeriodOrigins,
    /// The problem without periods that stands for the problem: its routes are those of the stores,
    /// and then those of the departures.
    pub planner: Planner,
    /// A least plan of it, or a bottleneck, or the first number beyond the limits.
    pub answer: PlannerAnswer,
    /// The place or the route of that problem that a number beyond the limits comes from, if that
    /// is the answer.
    pub origin: Option<Origin>,
}

/// All faults of heads of two tables over periods; or, if there are none, all faults of rows.
#[derive(Drop)]
pub struct PeriodTableFaults {
    /// Those of columns without periods, or of a second mark before decimals; `None` if there is
    /// none.
    pub cells: Option<Faults>,
    /// Those of columns about periods.
    pub periods: Vec<PeriodFault>,
}

/// The answer to two tables over periods.
#[derive(Drop)]
pub enum PeriodAnswer {
    /// All faults of heads; or all faults of rows, if there are none of heads.
    Faults(PeriodTableFaults),
    /// All numbers that are too great in whole units, and all rows of routes that are too late.
    TooGreat(Vec<PeriodGreat>),
    /// All faults of the problem.
    Improper(ImproperPeriods),
    /// The answer to the problem.
    Solved(SolvedPeriods),
}

// The answer to what tables say over periods.
fn solved_over<S: Solves>(
    alloc: Global,
    solver: &mut S,
    tables: &Tables,
    times: &PeriodTables<'_>,
    terms: Terms,
) -> Result<PeriodAnswer, NoMemory>
    ensures { IfOk result (IsSolvedOver (entries_over tables.now times.now) terms) }
{
    flat_answers_are_period_answers();
    match problem_over(alloc, tables, times, terms)? {
        MadeOver::Problem(made) => {
            let scales = made.scales;
            let origins = made.origins;
            let planner = made.planner;
            let answer = least(alloc, solver, &planner)?;
            let origin = origin_in(&planner, &answer);
            Ok(PeriodAnswer::Solved(SolvedPeriods {
                mark: tables.mark(),
                scales,
                origins,
                planner,
                answer,
                origin,
            }))
        }
        MadeOver::TooGreat(faults) => Ok(PeriodAnswer::TooGreat(faults)),
        MadeOver::Improper(made) => Ok(PeriodAnswer::Improper(made)),
    }
}

// The answer to the rows of two tables over periods under a mark.
fn answer_under<S: Solves>(
    alloc: Global,
    solver: &mut S,
    places: &Records,
    routes: &Records,
    mark: Option<Mark>,
    terms: Terms,
) -> Result<PeriodAnswer, NoMemory>
    ensures { IfOk result (IsAnswerUnder mark places.now routes.now terms) }
{
    let read = read_rows(alloc, places, routes, mark)?;
    match (read, read_periods(alloc, places, routes, mark)?) {
        (Ok(tables), Ok(times)) => solved_over(alloc, solver, &tables, &times, terms),
        (Err(cells), Ok(_)) => Ok(PeriodAnswer::Faults(PeriodTableFaults {
            cells: Some(cells),
            periods: Vec::new(alloc),
        })),
        (read, Err(periods)) => Ok(PeriodAnswer::Faults(PeriodTableFaults {
            cells: read.err(),
            periods,
        })),
    }
}

// The answer to two tables over periods.
pub(crate) fn period_answer<S: Solves>(
    alloc: Global,
    solver: &mut S,
    places: &Records,
    routes: &Records,
    options: Options,
) -> Result<PeriodAnswer, NoMemory>
    ensures { IfOk result (IsPeriodTableAnswer places.now routes.now options) }
{
    let periods = faults_of_heads(alloc, places, routes)?;
    match read_heads(alloc, places, routes, options.mark)? {
        Ok(mark) => {
            if periods.is_empty() {
                answer_under(alloc, solver, places, routes, mark, options.terms)
            } else {
                Ok(PeriodAnswer::Faults(PeriodTableFaults {
                    cells: None,
                    periods,
                }))
            }
        }
        Err(cells) => Ok(PeriodAnswer::Faults(PeriodTableFaults {
            cells: Some(cells),
            periods,
        })),
    }
}
