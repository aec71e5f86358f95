//! Least assignments of doubles: a search finds them, and a judge checks them.
ghost use Rattle.std.specs.Prelude.{◌≤◌, ◌+◌, IfOk, OnErr};
ghost use Rattle.mcf_matrix_doubles.specs.DoubleTables.{double_costs};
ghost use Rattle.mcf_double_solver.specs.DoubleAnswers.{IsExactIfNarrow, IsNearAnswer, IsRightAnswer, IsRoundedOnlyIfWide, IsShownAnswer};

use crate::rounding::may_answer;
use mcf_double_search::{Cover, DoubleAssignment, DoubleFound, find_assignment};
use mcf_matrix_doubles::{DoubleMatrix, DoublePrices, judge_assignment, judge_cover};
use mcf_text::NoMemory;
use std::alloc::Global;

/// The answer for a cost matrix of doubles.
#[derive(Drop)]
pub enum DoubleAssigned {
    /// A least matching, with prices that show it: of the costs, or of the costs rounded down.
    Least(DoubleAssignment),
    /// A cover: rows and columns that contain all allowed pairs and are fewer than the smaller side
    /// has. So there is no matching of that size.
    Infeasible(Cover),
    /// The search gave up, or the judge refused what it found.
    NotShown,
}

/// Finds a least assignment of rows to columns with as many pairs as the smaller side has, or a
/// cover that shows that there is none. Costs are exact: a finite double is the number that its
/// bits stand for, and +infinity forbids its pair.
///
/// Unless the bits of finite entries span more than 118 places, the answer is exact. If they do, it
/// may be a least assignment of the costs rounded down to multiples of a power of 2, and
/// `is_rounded` tells so: no assignment costs less by as much as one unit of the prices a pair, and
/// the greatest size of an entry is at least 2^117 units.
///
/// The answer is proved right, since a judge checks it. No proof says that the search finds one:
/// `NotShown` means that it gave up, or that the judge refused its result.
///
/// # Errors
///
/// `NoMemory` if an allocation is refused; a matrix without rows and columns needs none.
pub fn assign(alloc: Global, matrix: &DoubleMatrix<'_>) -> Result<DoubleAssigned, NoMemory>
    ensures shown { IfOk result (IsShownAnswer (double_costs matrix.now)) }
    ensures right { IfOk result (IsRightAnswer (double_costs matrix.now)) }
    ensures near { IfOk result (IsNearAnswer (double_costs matrix.now)) }
    ensures exact { IfOk result (IsExactIfNarrow (double_costs matrix.now)) }
    ensures wide { IfOk result (IsRoundedOnlyIfWide (double_costs matrix.now)) }
    ensures wants { OnErr result (1 ≤ matrix.now.rows + matrix.now.columns) }
{
    match find_assignment(alloc, matrix)? {
        Some(DoubleFound::Assignment(found)) => judged(alloc, matrix, found),
        Some(DoubleFound::Cover(cover)) => Ok(judged_cover(matrix, cover)),
        None => Ok(DoubleAssigned::NotShown),
    }
}

// Returns an assignment if its prices show that it is least, and it may be one of rounded costs.
fn judged(
    alloc: Global,
    matrix: &DoubleMatrix<'_>,
    found: DoubleAssignment,
) -> Result<DoubleAssigned, NoMemory>
    ensures shown { IfOk result (IsShownAnswer (double_costs matrix.now)) }
    ensures right { IfOk result (IsRightAnswer (double_costs matrix.now)) }
    ensures near { IfOk result (IsNearAnswer (double_costs matrix.now)) }
    ensures exact { IfOk result (IsExactIfNarrow (double_costs matrix.now)) }
    ensures wide { IfOk result (IsRoundedOnlyIfWide (double_costs matrix.now)) }
    ensures wants { OnErr result (1 ≤ matrix.now.rows + matrix.now.columns) }
{
    let prices = DoublePrices {
        rows: found.row_prices.as_slice(),
        columns: found.column_prices.as_slice(),
        unit: found.unit,
        is_rounded: found.is_rounded,
    };
    let is_allowed = may_answer(matrix, found.unit, found.is_rounded);
    let is_shown = judge_assignment(alloc, matrix, found.column_of.as_slice(), &prices)?;
    if is_shown && is_allowed {
        return Ok(DoubleAssigned::Least(found));
    }
    Ok(DoubleAssigned::NotShown)
}

// Returns a cover if it shows that there is no matching.
fn judged_cover(matrix: &DoubleMatrix<'_>, cover: Cover) -> DoubleAssigned
    ensures shown { IsShownAnswer (double_costs matrix.now) result }
    ensures right { IsRightAnswer (double_costs matrix.now) result }
    ensures near { IsNearAnswer (double_costs matrix.now) result }
    ensures exact { IsExactIfNarrow (double_costs matrix.now) result }
    ensures wide { IsRoundedOnlyIfWide (double_costs matrix.now) result }
{
    if judge_cover(matrix, cover.rows.as_slice(), cover.columns.as_slice()) {
        return DoubleAssigned::Infeasible(cover);
    }
    DoubleAssigned::NotShown
}
