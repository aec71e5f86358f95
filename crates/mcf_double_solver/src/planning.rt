//! Least transport plans of doubles: a search finds them, and a judge checks them.
ghost use Rattle.std.specs.Prelude.{◌≤◌, ◌+◌, IfOk, OnErr};
ghost use Rattle.mcf_matrix_doubles.specs.DoubleTables.{double_costs};
ghost use Rattle.mcf_double_solver.specs.DoublePlanAnswers.{IsExactPlanIfNarrow, IsNearPlanAnswer, IsRightPlanAnswer, IsRoundedPlanOnlyIfWide, IsShownPlanAnswer};

use crate::rounding::may_answer;
use mcf_double_search::{Cut, DoubleFoundPlan, DoublePlan, find_plan};
use mcf_matrix::Masses;
use mcf_matrix_doubles::{DoubleMatrix, DoublePrices, judge_transport, judge_transport_cut};
use mcf_text::NoMemory;
use std::alloc::Global;

/// The answer for a cost matrix of doubles with supplies and demands.
#[derive(Drop)]
pub enum DoublePlanned {
    /// A least transport plan, with prices that show it: for the costs, or for the costs rounded
    /// down.
    Least(DoublePlan),
    /// A cut: rows and columns that must send, or take, more than they can. So there is no plan.
    Infeasible(Cut),
    /// The search gave up, or the judge refused what it found.
    NotShown,
}

/// Finds a least transport plan for the supplies of rows and the demands of columns, or a cut that
/// shows that there is none. Costs are exact: a finite double is the number that its bits stand
/// for, and +infinity forbids its pair.
///
/// Unless the bits of finite entries span more than 118 places, the answer is exact. If they do, it
/// may be a least plan for the costs rounded down to multiples of a power of 2, and `is_rounded`
/// tells so: no plan costs less by as much as one unit of the prices times the total supply, if
/// that isn't 0, and the greatest size of an entry is at least 2^117 units.
///
/// The answer is proved right, since a judge checks it. No proof says that the search finds one:
/// `NotShown` means that it gave up, that the judge refused its result, or that there isn't one
/// supply for each row and one demand for each column. The amounts of a plan are at least 0, so no
/// plan exists if a supply or a demand is below 0: the answer is then a cut or `NotShown`.
///
/// # Errors
///
/// `NoMemory` if an allocation is refused; a matrix without rows and columns needs none.
pub fn plan(
    alloc: Global,
    matrix: &DoubleMatrix<'_>,
    masses: &Masses<'_>,
) -> Result<DoublePlanned, NoMemory>
    ensures shown { IfOk result (IsShownPlanAnswer (double_costs matrix.now) masses.now.supplies.now masses.now.demands.now) }
    ensures right { IfOk result (IsRightPlanAnswer (double_costs matrix.now) masses.now.supplies.now masses.now.demands.now) }
    ensures near { IfOk result (IsNearPlanAnswer (double_costs matrix.now) masses.now.supplies.now masses.now.demands.now) }
    ensures exact { IfOk result (IsExactPlanIfNarrow (double_costs matrix.now)) }
    ensures wide { IfOk result (IsRoundedPlanOnlyIfWide (double_costs matrix.now)) }
    ensures wants { OnErr result (1 ≤ matrix.now.rows + matrix.now.columns) }
{
    match find_plan(alloc, matrix, masses)? {
        Some(DoubleFoundPlan::Plan(found)) => judged(alloc, matrix, masses, found),
        Some(DoubleFoundPlan::Cut(cut)) => Ok(judged_cut(matrix, masses, cut)),
        None => Ok(DoublePlanned::NotShown),
    }
}

// Returns a plan if its prices show that it is least, and it may be one for rounded costs.
fn judged(
    alloc: Global,
    matrix: &DoubleMatrix<'_>,
    masses: &Masses<'_>,
    found: DoublePlan,
) -> Result<DoublePlanned, NoMemory>
    ensures shown { IfOk result (IsShownPlanAnswer (double_costs matrix.now) masses.now.supplies.now masses.now.demands.now) }
    ensures right { IfOk result (IsRightPlanAnswer (double_costs matrix.now) masses.now.supplies.now masses.now.demands.now) }
    ensures near { IfOk result (IsNearPlanAnswer (double_costs matrix.now) masses.now.supplies.now masses.now.demands.now) }
    ensures exact { IfOk result (IsExactPlanIfNarrow (double_costs matrix.now)) }
    ensures wide { IfOk result (IsRoundedPlanOnlyIfWide (double_costs matrix.now)) }
    ensures wants { OnErr result (1 ≤ matrix.now.rows + matrix.now.columns) }
{
    let prices = DoublePrices {
        rows: found.row_prices.as_slice(),
        columns: found.column_prices.as_slice(),
        unit: found.unit,
        is_rounded: found.is_rounded,
    };
    let is_allowed = may_answer(matrix, found.unit, found.is_rounded);
    let is_shown = judge_transport(alloc, matrix, masses, found.shipments.as_slice(), &prices)?;
    if is_shown && is_allowed {
        return Ok(DoublePlanned::Least(found));
    }
    Ok(DoublePlanned::NotShown)
}

// Returns a cut if it shows that there is no plan.
fn judged_cut(matrix: &DoubleMatrix<'_>, masses: &Masses<'_>, cut: Cut) -> DoublePlanned
    ensures shown { IsShownPlanAnswer (double_costs matrix.now) masses.now.supplies.now masses.now.demands.now result }
    ensures right { IsRightPlanAnswer (double_costs matrix.now) masses.now.supplies.now masses.now.demands.now result }
    ensures near { IsNearPlanAnswer (double_costs matrix.now) masses.now.supplies.now masses.now.demands.now result }
    ensures exact { IsExactPlanIfNarrow (double_costs matrix.now) result }
    ensures wide { IsRoundedPlanOnlyIfWide (double_costs matrix.now) result }
{
    let (rows, columns) = (cut.rows.as_slice(), cut.columns.as_slice());
    if judge_transport_cut(matrix, masses, rows, columns, cut.side) {
        return DoublePlanned::Infeasible(cut);
    }
    DoublePlanned::NotShown
}
