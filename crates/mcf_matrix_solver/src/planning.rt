//! Least transport plans: a search finds them, and a judge checks them.
ghost use Rattle.std.specs.Prelude.{◌≤◌, ◌+◌, IfOk, OnErr};
ghost use Rattle.mcf_matrix.specs.Tables.{whole_costs};
ghost use Rattle.mcf_matrix_solver.specs.Answers.{IsRightPlanAnswer, IsShownPlanAnswer};

use mcf_matrix::{Masses, Matrix, judge_transport, judge_transport_cut};
use mcf_matrix_search::{Cut, FoundPlan, Plan, find_plan};
use mcf_text::NoMemory;
use std::alloc::Global;

/// The answer for a cost matrix with supplies and demands.
#[derive(Drop)]
pub enum Planned {
    /// A least transport plan, with prices that show it.
    Least(Plan),
    /// A cut: rows and columns that must send, or take, more than they can. So there is no plan.
    Infeasible(Cut),
    /// The search gave up, or the judge refused what it found.
    NotShown,
}

/// Finds a least transport plan for the supplies of rows and the demands of columns, or a cut that
/// shows that there is none.
///
/// The answer is proved right, since a judge checks it. No proof says that the search finds one:
/// `NotShown` means that it gave up, that the judge refused its result, or that there isn't one
/// supply for each row and one demand for each column. The amounts of a plan are at least 0, so no
/// plan exists if a supply or a demand is below 0: the answer is then a cut or `NotShown`.
///
/// # Errors
///
/// `NoMemory` if an allocation is refused; a matrix without rows and columns needs none.
pub fn plan(alloc: Global, matrix: &Matrix<'_>, masses: &Masses<'_>) -> Result<Planned, NoMemory>
    ensures shown { IfOk result (IsShownPlanAnswer (whole_costs matrix.now) masses.now.supplies.now masses.now.demands.now) }
    ensures right { IfOk result (IsRightPlanAnswer (whole_costs matrix.now) masses.now.supplies.now masses.now.demands.now) }
    ensures wants { OnErr result (1 ≤ matrix.now.rows + matrix.now.columns) }
{
    match find_plan(alloc, matrix, masses)? {
        Some(FoundPlan::Plan(found)) => judged(alloc, matrix, masses, found),
        Some(FoundPlan::Cut(cut)) => Ok(judged_cut(matrix, masses, cut)),
        None => Ok(Planned::NotShown),
    }
}

// Returns a plan if its prices show that it is least.
fn judged(
    alloc: Global,
    matrix: &Matrix<'_>,
    masses: &Masses<'_>,
    found: Plan,
) -> Result<Planned, NoMemory>
    ensures shown { IfOk result (IsShownPlanAnswer (whole_costs matrix.now) masses.now.supplies.now masses.now.demands.now) }
    ensures right { IfOk result (IsRightPlanAnswer (whole_costs matrix.now) masses.now.supplies.now masses.now.demands.now) }
    ensures wants { OnErr result (1 ≤ matrix.now.rows + matrix.now.columns) }
{
    let is_shown = judge_transport(
        alloc,
        matrix,
        masses,
        found.shipments.as_slice(),
        found.row_prices.as_slice(),
        found.column_prices.as_slice(),
    )?;
    if is_shown {
        return Ok(Planned::Least(found));
    }
    Ok(Planned::NotShown)
}

// Returns a cut if it shows that there is no plan.
fn judged_cut(matrix: &Matrix<'_>, masses: &Masses<'_>, cut: Cut) -> Planned
    ensures shown { IsShownPlanAnswer (whole_costs matrix.now) masses.now.supplies.now masses.now.demands.now result }
    ensures right { IsRightPlanAnswer (whole_costs matrix.now) masses.now.supplies.now masses.now.demands.now result }
{
    let (rows, columns) = (cut.rows.as_slice(), cut.columns.as_slice());
    if judge_transport_cut(matrix, masses, rows, columns, cut.side) {
        return Planned::Infeasible(cut);
    }
    Planned::NotShown
}
