//! Least assignments: a search finds them, and a judge checks them.
ghost use Rattle.std.specs.Prelude.{◌≤◌, ◌+◌, IfOk, OnErr};
ghost use Rattle.mcf_matrix.specs.Tables.{whole_costs};
ghost use Rattle.mcf_matrix_solver.specs.Answers.{IsRightAnswer, IsShownAnswer};

use mcf_matrix::{Matrix, judge_assignment, judge_cover};
use mcf_matrix_search::{Assignment, Cover, Found, find_assignment};
use mcf_text::NoMemory;
use std::alloc::Global;

/// The answer for a cost matrix.
#[derive(Drop)]
pub enum Assigned {
    /// A least matching, with prices that show it.
    Least(Assignment),
    /// A cover: rows and columns that contain all allowed pairs and are fewer than the smaller side
    /// has. So there is no matching of that size.
    Infeasible(Cover),
    /// The search gave up, or the judge refused what it found.
    NotShown,
}

/// Finds a least assignment of rows to columns with as many pairs as the smaller side has, or a
/// cover that shows that there is none.
///
/// The answer is proved right, since a judge checks it. No proof says that the search finds one:
/// `NotShown` means that it gave up, or that the judge refused its result. No matrix is known with
/// this outcome. The caller may solve such a matrix as an assignment problem with explicit pairs,
/// by `Sap` (`mcf_assign`).
///
/// # Errors
///
/// `NoMemory` if an allocation is refused; a matrix without rows and columns needs none.
pub fn assign(alloc: Global, matrix: &Matrix<'_>) -> Result<Assigned, NoMemory>
    ensures shown { IfOk result (IsShownAnswer (whole_costs matrix.now)) }
    ensures right { IfOk result (IsRightAnswer (whole_costs matrix.now)) }
    ensures wants { OnErr result (1 ≤ matrix.now.rows + matrix.now.columns) }
{
    match find_assignment(alloc, matrix)? {
        Some(Found::Assignment(found)) => judged(alloc, matrix, found),
        Some(Found::Cover(cover)) => Ok(judged_cover(matrix, cover)),
        None => Ok(Assigned::NotShown),
    }
}

// Returns an assignment if its prices show that it is least.
fn judged(alloc: Global, matrix: &Matrix<'_>, found: Assignment) -> Result<Assigned, NoMemory>
    ensures shown { IfOk result (IsShownAnswer (whole_costs matrix.now)) }
    ensures right { IfOk result (IsRightAnswer (whole_costs matrix.now)) }
    ensures wants { OnErr result (1 ≤ matrix.now.rows + matrix.now.columns) }
{
    let is_shown = judge_assignment(
        alloc,
        matrix,
        found.column_of.as_slice(),
        found.row_prices.as_slice(),
        found.column_prices.as_slice(),
    )?;
    if is_shown {
        return Ok(Assigned::Least(found));
    }
    Ok(Assigned::NotShown)
}

// Returns a cover if it shows that there is no matching.
fn judged_cover(matrix: &Matrix<'_>, cover: Cover) -> Assigned
    ensures shown { IsShownAnswer (whole_costs matrix.now) result }
    ensures right { IsRightAnswer (whole_costs matrix.now) result }
{
    if judge_cover(matrix, cover.rows.as_slice(), cover.columns.as_slice()) {
        return Assigned::Infeasible(cover);
    }
    Assigned::NotShown
}
