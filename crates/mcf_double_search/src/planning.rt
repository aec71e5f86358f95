//! The search for transport plans of a matrix of doubles.
ghost use Rattle.std.specs.Prelude.{◌≤◌, ◌+◌, OnErr};

use crate::cutting::{Grid, cut_costs};
use crate::found_plan::{DoubleFoundPlan, DoublePlan};
use crate::staging::{Stage, first_grid};
use crate::window::Window;
use mcf_matrix::{Masses, Matrix};
use mcf_matrix_doubles::DoubleMatrix;
use mcf_matrix_search::{FoundPlan, Plan, find_basic_plan, improve_plan};
use mcf_text::NoMemory;
use std::alloc::Global;

// The greatest number of rows or columns that is searched.
const MOST_LINES: usize = 1 << 30;

// More stages than any window has: each takes at least 17 places of bits.
const MOST_STAGES: u32 = 8;

/// Searches for a least transport plan for supplies of rows and demands of columns, with prices
/// that show it, or for a cut that shows that no plan exists.
///
/// The caller has to check the result: this call promises nothing about it. It rounds entries down
/// to multiples of a power of 2, and finds a least plan of these whole costs. Then it takes the
/// exact reduced costs, which are at least 0, and near 0 for the pairs that are used, rounds these
/// down to multiples of a lower power, and improves the plan from its last basis, until no bits are
/// left (iterative refinement). If the bits of finite entries span more than 118 places, it takes
/// the entries as rounded down to the highest 118. Returns `None` if there isn't a supply for each
/// row and a demand for each column, or a search gives up. The whole costs take 8 bytes for each
/// entry, and 16 if pairs are forbidden.
///
/// # Errors
///
/// `NoMemory` if an allocation is refused; a matrix without rows and columns needs none.
pub fn find_plan(
    alloc: Global,
    matrix: &DoubleMatrix<'_>,
    masses: &Masses<'_>,
) -> Result<Option<DoubleFoundPlan>, NoMemory>
    ensures wants { OnErr result (1 ≤ matrix.now.rows + matrix.now.columns) }
{
    let (rows, columns) = (matrix.rows(), matrix.columns());
    let are_counted = masses.supplies.len() == rows && masses.demands.len() == columns;
    if !are_counted || rows > MOST_LINES || columns > MOST_LINES {
        return Ok(None);
    }
    if rows == 0 && columns == 0 {
        return Ok(Some(DoubleFoundPlan::Plan(DoublePlan {
            shipments: Vec::new(alloc),
            row_prices: Vec::new(alloc),
            column_prices: Vec::new(alloc),
            unit: 0,
            is_rounded: false,
        })));
    }
    find(alloc, matrix, masses)
}

// Searches a matrix with rows or columns.
fn find(
    alloc: Global,
    matrix: &DoubleMatrix<'_>,
    masses: &Masses<'_>,
) -> Result<Option<DoubleFoundPlan>, NoMemory> {
    let (rows, columns) = (matrix.rows(), matrix.columns());
    let window = Window::of(matrix);
    let grid = first_grid(window, rows, columns);
    let costs = cut_costs(alloc, matrix, Grid::down(grid), false)?;
    let Ok(whole) = Matrix::of(&costs, rows, columns, columns) else {
        return Ok(None);
    };
    match find_basic_plan(alloc, &whole, masses)? {
        Some(FoundPlan::Plan(plan)) => {
            let stage = Stage::start(alloc, matrix, window, grid, costs)?;
            refine(alloc, stage, plan)
        }
        Some(FoundPlan::Cut(cut)) => Ok(Some(DoubleFoundPlan::Cut(cut))),
        None => Ok(None),
    }
}

// Refines a least plan of whole costs to one of the exact costs. Returns `None` if a search gives
// up.
fn refine(
    alloc: Global,
    mut stage: Stage<'_>,
    mut plan: Plan,
) -> Result<Option<DoubleFoundPlan>, NoMemory> {
    for _ in 0..MOST_STAGES {
        stage.add_prices(&plan);
        if stage.is_last() {
            return Ok(Some(DoubleFoundPlan::Plan(stage.end(plan))));
        }
        stage.next(&plan);
        let Some(whole) = stage.whole() else {
            return Ok(None);
        };
        let Some(better) = improve_plan(alloc, &whole, &plan.shipments)? else {
            return Ok(None);
        };
        plan = better;
    }
    Ok(None)
}
