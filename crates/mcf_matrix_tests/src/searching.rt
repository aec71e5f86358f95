//! Assignments and covers found by the searches and judged, against costs that scipy 1.10 finds.

use mcf_matrix::{FORBIDDEN, Matrix, judge_assignment, judge_cover};
use mcf_matrix_search::{Assignment, Cover, Found, find_assignment};
use mcf_text::{NoMemory, copies};
use std::alloc::Global;
use std::test::Fail;

const NO: i64 = FORBIDDEN;

// Rows, columns, entries, and the least cost, if there is an assignment.
type Worked = (usize, usize, &'static [i64], Option<i64>);

static WORKED: [Worked; 9] = [
    (3, 3, &[4, 1, 3, 2, 0, 5, 3, 2, 2], Some(5)),
    (2, 2, &[7, 7, 7, 7], Some(14)),
    (2, 3, &[-1, 5, 5, -1, 5, -7], Some(-8)),
    (3, 2, &[5, 6, -3, 2, -4, NO], Some(-2)),
    (3, 3, &[1, NO, NO, NO, 1, NO, 4, NO, 9], Some(11)),
    (3, 3, &[1, NO, NO, 2, NO, NO, 1, 1, 1], None),
    (3, 2, &[NO, 1, NO, 1, NO, 1], None),
    (1, 1, &[NO], None),
    (0, 2, &[], Some(0)),
];

// Returns the cost of an assignment.
fn cost_of(matrix: &Matrix<'_>, column_of: &[u32]) -> i64 {
    let mut cost = 0i64;
    'rows: for row in 0..matrix.rows().min(column_of.len()) {
        let column = column_of[row] as usize;
        if column < matrix.columns() {
            cost = cost.wrapping_add(matrix.cost(row, column).unwrap_or(0));
        }
    }
    cost
}

// Returns whether the judge accepts an assignment as least, and it has the expected cost.
fn is_least(
    alloc: Global,
    matrix: &Matrix<'_>,
    found: &Assignment,
    cost: Option<i64>,
) -> Result<bool, NoMemory> {
    let Assignment {
        column_of,
        row_prices,
        column_prices,
    } = found;
    let holds = judge_assignment(alloc, matrix, column_of, row_prices, column_prices)?;
    Ok(holds && cost == Some(cost_of(matrix, column_of)))
}

// Returns whether a cover is expected, and the judge accepts it.
fn excludes(matrix: &Matrix<'_>, cover: &Cover, cost: Option<i64>) -> bool {
    judge_cover(matrix, &cover.rows, &cover.columns) && cost.is_none()
}

// Returns whether a search finds the right result: an assignment of the expected cost, or a cover
// if there is no assignment.
fn finds(
    alloc: Global,
    costs: &[i64],
    rows: usize,
    columns: usize,
    least: Option<i64>,
) -> Result<bool, NoMemory> {
    let Ok(matrix) = Matrix::of(costs, rows, columns, columns) else {
        return Ok(false);
    };
    match find_assignment(alloc, &matrix)? {
        Some(Found::Assignment(found)) => is_least(alloc, &matrix, &found, least),
        Some(Found::Cover(cover)) => Ok(excludes(&matrix, &cover, least)),
        None => Ok(false),
    }
}

#[test]
fn six_rows_of_small_matrices(rt: HostRuntime) -> Result<(), Fail> {
    let mut count = 0usize;
    'worked: for (rows, columns, costs, least) in &WORKED {
        if finds(rt.alloc(), costs, *rows, *columns, *least)? {
            count = count.wrapping_add(1);
        }
    }
    assert_eq!(rt; count, 9);
    Ok(())
}

// Writes pseudorandom numbers below a limit.
fn write_pseudorandom(costs: &mut [i64], limit: u64) {
    let mut state = 1u64;
    'entries: for i in 0..costs.len() {
        state = state
            .wrapping_mul(6_364_136_223_846_793_005)
            .wrapping_add(1_442_695_040_888_963_407);
        costs[i] = ((state >> 33) % limit.max(1)) as i64;
    }
}

// Returns whether the search finds the least cost of a pseudorandom matrix.
fn finds_pseudorandom(
    alloc: Global,
    rows: usize,
    columns: usize,
    limit: u64,
    least: i64,
) -> Result<bool, NoMemory> {
    let mut costs = copies(alloc, rows.wrapping_mul(columns), 0)?;
    write_pseudorandom(costs.as_mut_slice(), limit);
    finds(alloc, &costs, rows, columns, Some(least))
}

#[test]
fn whole_rows_are_searched(rt: HostRuntime) -> Result<(), Fail> {
    assert!(rt; finds_pseudorandom(rt.alloc(), 60, 60, 1000, 1182)?);
    assert!(rt; finds_pseudorandom(rt.alloc(), 40, 90, 1000, 301)?);
    Ok(())
}

#[test]
fn more_rows_than_columns_are_turned_over(rt: HostRuntime) -> Result<(), Fail> {
    assert!(rt; finds_pseudorandom(rt.alloc(), 90, 40, 1000, 302)?);
    Ok(())
}

#[test]
fn lists_are_searched(rt: HostRuntime) -> Result<(), Fail> {
    assert!(rt; finds_pseudorandom(rt.alloc(), 720, 720, 100_000, 160_823)?);
    Ok(())
}

// Writes the products of row and column numbers, which count from 1: the worst costs for augmenting
// paths.
fn write_products(costs: &mut [i64], lines: usize) {
    let lines = lines.max(1);
    'entries: for i in 0..costs.len() {
        let (row, column) = ((i / lines) as i64, (i % lines) as i64);
        costs[i] = row.wrapping_add(1).wrapping_mul(column.wrapping_add(1));
    }
}

#[test]
fn the_simplex_takes_what_is_hard(rt: HostRuntime) -> Result<(), Fail> {
    let mut costs = copies(rt.alloc(), 102_400, 0)?;
    write_products(costs.as_mut_slice(), 320);
    assert!(rt; finds(rt.alloc(), &costs, 320, 320, Some(5_512_640))?);
    Ok(())
}
