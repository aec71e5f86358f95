//! The answer to what two tables say.
ghost use Rattle.std.specs.Prelude.{◌≡◌, IfOk};
ghost use Rattle.mcf_flow_tables.specs.PlannerOrigins.{origin_in};
ghost use Rattle.mcf_flow_tables.specs.TableAnswers.{IsProblemAnswer, IsTableAnswer};

use crate::options::Options;
use crate::period_answer::{PeriodAnswer, period_answer};
use mcf_decimal::Mark;
use mcf_model::Solves;
use mcf_period_reading::tells_periods;
use mcf_places::{Origin, Planner, PlannerAnswer, PlannerFault, least, origin_of};
use mcf_reading::{Faults, Tables, read};
use mcf_table::Records;
use mcf_text::NoMemory;
use mcf_units::{GreatFault, Made, Scales, Terms, problem};
use std::alloc::Global;

/// The answer to a problem in whole numbers, with their units and the mark of the tables.
#[derive(Drop)]
pub struct SolvedProblem {
    /// The mark before decimals; `None` if none is named or shown.
    pub mark: Option<Mark>,
    /// The units of amounts and of costs.
    pub scales: Scales,
    /// The problem. It says which rows of routes have a way back of their own, and so which amount
    /// of a plan goes there, and which goes back.
    pub planner: Planner,
    /// A least plan, or a bottleneck, or the first number beyond the limits.
    pub answer: PlannerAnswer,
    /// The place or the row of routes that a number beyond the limits comes from, if that is the
    /// answer.
    pub origin: Option<Origin>,
}

/// The answer to tables whose heads and cells have no fault.
#[derive(Drop)]
pub enum ProblemAnswer {
    /// All numbers that are too great in whole units.
    TooGreat(Vec<GreatFault>),
    /// All faults of the problem.
    Improper(Vec<PlannerFault>),
    /// The answer to the problem.
    Solved(SolvedProblem),
}

/// The answer to the rows of two tables.
#[derive(Drop)]
pub enum TableAnswer {
    /// All faults of heads and cells.
    Faults(Faults),
    /// The answer to what the tables say, without periods.
    Problem(ProblemAnswer),
    /// The answer to tables that have columns about periods.
    Periods(PeriodAnswer),
}

// Where a number beyond the limits comes from, if that is the answer.
pub(crate) fn origin_in(planner: &Planner, answer: &PlannerAnswer) -> Option<Origin>
    ensures { result ≡ origin_in planner.now answer.now }
{
    match answer {
        PlannerAnswer::Beyond(fault) => Some(origin_of(planner, *fault)),
        _ => None,
    }
}

// The answer to what tables say.
fn problem_answer<S: Solves>(
    alloc: Global,
    solver: &mut S,
    tables: &Tables,
    terms: Terms,
) -> Result<ProblemAnswer, NoMemory>
    ensures { IfOk result (IsProblemAnswer tables.now terms) }
{
    match problem(alloc, tables, terms)? {
        Made::Problem(made) => {
            let scales = made.scales;
            let planner = made.planner;
            let answer = least(alloc, solver, &planner)?;
            let origin = origin_in(&planner, &answer);
            Ok(ProblemAnswer::Solved(SolvedProblem {
                mark: tables.mark(),
                scales,
                planner,
                answer,
                origin,
            }))
        }
        Made::TooGreat(faults) => Ok(ProblemAnswer::TooGreat(faults)),
        Made::Improper(faults) => Ok(ProblemAnswer::Improper(faults)),
    }
}

// The answer to the rows of two tables.
pub(crate) fn table_answer<S: Solves>(
    alloc: Global,
    solver: &mut S,
    places: &Records,
    routes: &Records,
    options: Options,
) -> Result<TableAnswer, NoMemory>
    ensures { IfOk result (IsTableAnswer places.now routes.now options) }
{
    let tells = tells_periods(alloc, places, routes)?;
    if tells {
        let answer = period_answer(alloc, solver, places, routes, options)?;
        return Ok(TableAnswer::Periods(answer));
    }
    match read(alloc, places, routes, options.mark)? {
        Ok(tables) => {
            let answer = problem_answer(alloc, solver, &tables, options.terms)?;
            Ok(TableAnswer::Problem(answer))
        }
        Err(faults) => Ok(TableAnswer::Faults(faults)),
    }
}
