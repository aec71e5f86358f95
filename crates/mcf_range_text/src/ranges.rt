//! What is told of the ranges of an answer.
ghost use Rattle.std.specs.Prelude.{◌≡◌, ◌==◌, ◌≤◌, [], IfOk, length};
ghost use Rattle.std.specs.List.{list_any};
ghost use Rattle.mcf_flows.specs.Network.{IsNode};
ghost use Rattle.mcf_places.specs.Answers.{IsPlannerAnswer, IsShownIn};
ghost use Rattle.mcf_places.specs.LimitedPlanners.{limited};
ghost use Rattle.mcf_places.specs.Planners.{row_count};
ghost use Rattle.mcf_range_text.specs.PeriodRangeTexts.{AreFlatRanges, ArePeriodRanges, AreRouteRanges, IsRouteRange};
ghost use Rattle.mcf_range_text.specs.RangeTexts.{AreProblemRanges, AreRanges, AreRowRanges, AreSolvedRanges, AreTableRanges, IsRowRange};
ghost use Rattle.mcf_range_text.specs.Private.Solved.{IsSolvedAnswer, IsSolvedPeriods, IsSolvedProblem, IsSolvedTable};

use mcf_flow_tables::{
    FlowAnswer, PeriodAnswer, ProblemAnswer, SolvedPeriods, SolvedProblem, TableAnswer,
};
use mcf_places::{LeastPlannerPlan, Planner, PlannerAnswer};
use mcf_planner_ranges::{CostRange, planner_cost_range};
use mcf_text::NoMemory;
use std::alloc::Global;

// Returns whether a list has a number.
fn has(numbers: &[usize], number: usize) -> bool
    ensures { result ≡ list_any (λ k. k == number) numbers.now }
{
    for place in 0..numbers.len() {
        if numbers[place] == number {
            return true;
        }
    }
    false
}

// Returns the range of the cost of the route of a row, if it is told.
fn row_range(
    alloc: Global,
    planner: &Planner,
    least: &LeastPlannerPlan,
    row: usize,
) -> Result<Option<CostRange>, NoMemory>
    requires shown { IsShownIn (limited planner.now) least.now }
    requires low { 1 ≤ row }
    requires high { row ≤ row_count planner.now }
    ensures { IfOk result (IsRowRange planner.now least.now row) }
{
    let returns = has(planner.returning(), row);
    if returns {
        return Ok(None);
    }
    planner_cost_range(alloc, planner, least, row)
}

// Returns what is told of all rows.
fn row_ranges(
    alloc: Global,
    planner: &Planner,
    least: &LeastPlannerPlan,
) -> Result<Vec<Option<CostRange>>, NoMemory>
    requires { IsShownIn (limited planner.now) least.now }
    ensures { IfOk result (λ made. AreRowRanges planner.now least.now made.items) }
{
    let count = planner.row_count();
    let mut made = Vec::with_capacity(alloc, count)?;
    for place in 0..count {
        let told = row_range(alloc, planner, least, place + 1)?;
        made.push(told)?;
    }
    Ok(made)
}

// Returns what is told of a problem that was solved.
fn solved_ranges(alloc: Global, solved: &SolvedProblem) -> Result<Vec<Option<CostRange>>, NoMemory>
    requires { IsPlannerAnswer solved.now.planner solved.now.answer }
    ensures { IfOk result (λ made. AreSolvedRanges solved.now.planner solved.now.answer made.items) }
{
    match &solved.answer {
        PlannerAnswer::Least(least) => row_ranges(alloc, &solved.planner, least),
        _ => Ok(Vec::new(alloc)),
    }
}

// Returns what is told of the answer to what tables say.
fn problem_ranges(alloc: Global, answer: &ProblemAnswer) -> Result<Vec<Option<CostRange>>, NoMemory>
    requires { IsSolvedProblem answer.now }
    ensures { IfOk result (λ made. AreProblemRanges answer.now made.items) }
{
    match answer {
        ProblemAnswer::Solved(solved) => solved_ranges(alloc, solved),
        _ => Ok(Vec::new(alloc)),
    }
}

// Returns the range of the cost of a route of a problem without periods, by its number, if it is
// told.
fn route_range(
    alloc: Global,
    planner: &Planner,
    least: &LeastPlannerPlan,
    number: usize,
) -> Result<Option<CostRange>, NoMemory>
    requires shown { IsShownIn (limited planner.now) least.now }
    requires route { IsNode (length planner.now.routes) number }
    ensures { IfOk result (IsRouteRange planner.now least.now number) }
{
    planner_cost_range(alloc, planner, least, number)
}

// Returns what is told of all routes of a problem without periods.
fn route_ranges(
    alloc: Global,
    planner: &Planner,
    least: &LeastPlannerPlan,
) -> Result<Vec<Option<CostRange>>, NoMemory>
    requires { IsShownIn (limited planner.now) least.now }
    ensures { IfOk result (λ made. AreRouteRanges planner.now least.now made.items) }
{
    let count = planner.route_count();
    let mut made = Vec::with_capacity(alloc, count)?;
    for place in 0..count {
        let told = route_range(alloc, planner, least, place + 1)?;
        made.push(told)?;
    }
    Ok(made)
}

// Returns what is told of a problem over periods that was solved.
fn flat_ranges(alloc: Global, solved: &SolvedPeriods) -> Result<Vec<Option<CostRange>>, NoMemory>
    requires { IsPlannerAnswer solved.now.planner solved.now.answer }
    ensures { IfOk result (λ made. AreFlatRanges solved.now.planner solved.now.answer made.items) }
{
    match &solved.answer {
        PlannerAnswer::Least(least) => route_ranges(alloc, &solved.planner, least),
        _ => Ok(Vec::new(alloc)),
    }
}

// Returns what is told of the answer to two tables over periods.
fn period_ranges(alloc: Global, answer: &PeriodAnswer) -> Result<Vec<Option<CostRange>>, NoMemory>
    requires { IsSolvedPeriods answer.now }
    ensures { IfOk result (λ made. ArePeriodRanges answer.now made.items) }
{
    match answer {
        PeriodAnswer::Solved(solved) => flat_ranges(alloc, solved),
        _ => Ok(Vec::new(alloc)),
    }
}

// Returns what is told of the answer to the rows of two tables.
fn table_ranges(alloc: Global, answer: &TableAnswer) -> Result<Vec<Option<CostRange>>, NoMemory>
    requires { IsSolvedTable answer.now }
    ensures { IfOk result (λ made. AreTableRanges answer.now made.items) }
{
    match answer {
        TableAnswer::Faults(_) => Ok(Vec::new(alloc)),
        TableAnswer::Problem(answer) => problem_ranges(alloc, answer),
        TableAnswer::Periods(answer) => period_ranges(alloc, answer),
    }
}

/// Returns what is told of the ranges of an answer.
///
/// # Errors
///
/// `NoMemory` if an allocation is refused.
pub(crate) fn ranges_of(
    alloc: Global,
    answer: &FlowAnswer,
) -> Result<Vec<Option<CostRange>>, NoMemory>
    requires { IsSolvedAnswer answer.now }
    ensures { IfOk result (λ made. AreRanges answer.now made.items) }
{
    match answer {
        FlowAnswer::Tables(said) => table_ranges(alloc, &said.answer),
        _ => Ok(Vec::new(alloc)),
    }
}
