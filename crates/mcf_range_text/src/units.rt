//! What is told of the units for which the prices of an answer hold.
ghost use Rattle.std.specs.Prelude.{IfOk};
ghost use Rattle.mcf_places.specs.Answers.{IsPlannerAnswer, IsShownIn};
ghost use Rattle.mcf_places.specs.LimitedPlanners.{limited};
ghost use Rattle.mcf_range_text.specs.Private.Solved.{IsSolvedAnswer, IsSolvedPeriods, IsSolvedProblem, IsSolvedTable};
ghost use Rattle.mcf_range_text.specs.UnitRangeTexts.{AreLeastUnits, ArePeriodUnits, AreProblemUnits, AreSolvedUnits, AreTableUnits, AreUnits};

use crate::passes::pass_ranges;
use crate::rooms::room_ranges;
use crate::supplies::{SupplyRange, supply_ranges};
use mcf_flow_tables::{FlowAnswer, PeriodAnswer, ProblemAnswer, TableAnswer};
use mcf_model::Solves;
use mcf_places::{LeastPlannerPlan, Planner, PlannerAnswer};
use mcf_text::NoMemory;
use mcf_unit_ranges::UnitsRange;
use std::alloc::Global;

/// For how many units the prices of a least plan hold.
#[derive(Drop)]
pub struct UnitRanges {
    /// More room on the routes of all rows.
    pub rooms: Vec<Option<UnitsRange>>,
    /// More that may pass through all places with bounds.
    pub passes: Vec<Option<UnitsRange>>,
    /// More supply or demand at all places.
    pub supplies: Vec<Option<SupplyRange>>,
}

// Returns no ranges.
fn no_units(alloc: Global) -> UnitRanges {
    UnitRanges {
        rooms: Vec::new(alloc),
        passes: Vec::new(alloc),
        supplies: Vec::new(alloc),
    }
}

// Returns what is told of a least plan.
fn least_units<S: Solves>(
    alloc: Global,
    solver: &mut S,
    planner: &Planner,
    least: &LeastPlannerPlan,
) -> Result<UnitRanges, NoMemory>
    requires { IsShownIn (limited planner.now) least.now }
    ensures { IfOk result (AreLeastUnits planner.now least.now) }
{
    let rooms = room_ranges(alloc, solver, planner, least)?;
    let passes = pass_ranges(alloc, solver, planner, least)?;
    let supplies = supply_ranges(alloc, solver, planner, least)?;
    Ok(UnitRanges {
        rooms,
        passes,
        supplies,
    })
}

// Returns what is told of the answer to a planner's problem.
fn solved_units<S: Solves>(
    alloc: Global,
    solver: &mut S,
    planner: &Planner,
    answer: &PlannerAnswer,
) -> Result<UnitRanges, NoMemory>
    requires { IsPlannerAnswer planner.now answer.now }
    ensures { IfOk result (AreSolvedUnits planner.now answer.now) }
{
    match answer {
        PlannerAnswer::Least(least) => least_units(alloc, solver, planner, least),
        _ => Ok(no_units(alloc)),
    }
}

// Returns what is told of the answer to what tables say.
fn problem_units<S: Solves>(
    alloc: Global,
    solver: &mut S,
    answer: &ProblemAnswer,
) -> Result<UnitRanges, NoMemory>
    requires { IsSolvedProblem answer.now }
    ensures { IfOk result (AreProblemUnits answer.now) }
{
    match answer {
        ProblemAnswer::Solved(solved) => {
            solved_units(alloc, solver, &solved.planner, &solved.answer)
        }
        _ => Ok(no_units(alloc)),
    }
}

// Returns what is told of the answer to two tables over periods.
fn period_units<S: Solves>(
    alloc: Global,
    solver: &mut S,
    answer: &PeriodAnswer,
) -> Result<UnitRanges, NoMemory>
    requires { IsSolvedPeriods answer.now }
    ensures { IfOk result (ArePeriodUnits answer.now) }
{
    match answer {
        PeriodAnswer::Solved(solved) => {
            solved_units(alloc, solver, &solved.planner, &solved.answer)
        }
        _ => Ok(no_units(alloc)),
    }
}

// Returns what is told of the answer to the rows of two tables.
fn table_units<S: Solves>(
    alloc: Global,
    solver: &mut S,
    answer: &TableAnswer,
) -> Result<UnitRanges, NoMemory>
    requires { IsSolvedTable answer.now }
    ensures { IfOk result (AreTableUnits answer.now) }
{
    match answer {
        TableAnswer::Problem(answer) => problem_units(alloc, solver, answer),
        TableAnswer::Periods(answer) => period_units(alloc, solver, answer),
        TableAnswer::Faults(_) => Ok(no_units(alloc)),
    }
}

/// Returns what is told of the units of an answer.
///
/// # Errors
///
/// `NoMemory` if an allocation is refused.
pub(crate) fn units_of<S: Solves>(
    alloc: Global,
    solver: &mut S,
    answer: &FlowAnswer,
) -> Result<UnitRanges, NoMemory>
    requires { IsSolvedAnswer answer.now }
    ensures { IfOk result (AreUnits answer.now) }
{
    match answer {
        FlowAnswer::Tables(said) => table_units(alloc, solver, &said.answer),
        _ => Ok(no_units(alloc)),
    }
}
