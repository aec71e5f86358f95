//! Tests of which lists are matrices, and of reading their entries.
use mcf_matrix::{FORBIDDEN, Matrix, MatrixFault};
use std::test::Fail;

// A list with its rows, columns and stride, and its fault, if it has one.
static SHAPES: [(&[i64], usize, usize, usize, Option<MatrixFault>); 10] = [
    (&[], 0, 0, 0, None),
    (&[], 0, 3, 3, None),
    (&[1, 2, 3, 4], 2, 2, 2, None),
    (&[1, 2, 9, 3, 4], 2, 2, 3, None),
    (&[1, 2, 9, 3], 2, 2, 3, Some(MatrixFault::Shape)),
    (&[1, 2, 3, 4], 2, 2, 1, Some(MatrixFault::Shape)),
    (&[1, 2], usize::MAX, 1, 2, Some(MatrixFault::Shape)),
    (&[], usize::MAX, 0, 0, None),
    (
        &[FORBIDDEN, 1_000_000_000_000_000, -1_000_000_000_000_000],
        1,
        3,
        3,
        None,
    ),
    (
        &[0, 1_000_000_000_000_001, -1_000_000_000_000_001, 0],
        2,
        2,
        2,
        Some(MatrixFault::Beyond { row: 0, column: 1 }),
    ),
];

// Returns the fault of a matrix.
fn fault_of(costs: &[i64], rows: usize, columns: usize, stride: usize) -> Option<MatrixFault> {
    match Matrix::of(costs, rows, columns, stride) {
        Ok(_) => None,
        Err(fault) => Some(fault),
    }
}

#[test]
fn shapes_are_judged(rt: HostRuntime) -> Result<(), Fail> {
    for (costs, rows, columns, stride, fault) in &SHAPES {
        assert!(rt; fault_of(costs, *rows, *columns, *stride) == *fault);
    }
    Ok(())
}

// Returns whether a matrix of two rows with a stride of 3 reads as expected.
fn reads_its_rows(costs: &[i64]) -> bool {
    let Ok(matrix) = Matrix::of(costs, 2, 2, 3) else {
        return false;
    };
    if matrix.rows() != 2 || matrix.columns() != 2 || matrix.stride() != 3 {
        return false;
    }
    if matrix.entries().len() != costs.len() {
        return false;
    }
    let second = matrix.row(1);
    second.len() == 2
        && second[0] == 3
        && matrix.cost(1, 0) == Some(3)
        && matrix.cost(1, 1).is_none()
}

#[test]
fn rows_are_read(rt: HostRuntime) -> Result<(), Fail> {
    assert!(rt; reads_its_rows(&[1, 2, 9, 3, FORBIDDEN]));
    Ok(())
}
