//! Which assignments and covers are accepted.
use mcf_matrix::{FORBIDDEN, Matrix, judge_assignment, judge_cover};
use mcf_text::NoMemory;
use std::alloc::Global;
use std::test::Fail;

// A matrix with the column of each row, the prices of rows and columns, and whether these show the
// matching to be least.
struct Case {
    costs: &'static [i64],
    rows: usize,
    columns: usize,
    columns_of: &'static [u32],
    row_prices: &'static [i64],
    column_prices: &'static [i64],
    is_shown: bool,
}

static CASES: [Case; 12] = [
    Case {
        costs: &[],
        rows: 0,
        columns: 0,
        columns_of: &[],
        row_prices: &[],
        column_prices: &[],
        is_shown: true,
    },
    // Worked by hand: rows 0, 1, 2 take columns 1, 0, 2 at a cost of 5.
    Case {
        costs: &[4, 1, 3, 2, 0, 5, 3, 2, 2],
        rows: 3,
        columns: 3,
        columns_of: &[1, 0, 2],
        row_prices: &[1, 0, 0],
        column_prices: &[2, 0, 2],
        is_shown: true,
    },
    Case {
        costs: &[4, 1, 3, 2, 0, 5, 3, 2, 2],
        rows: 3,
        columns: 3,
        columns_of: &[0, 1, 2],
        row_prices: &[1, 0, 0],
        column_prices: &[2, 0, 2],
        is_shown: false,
    },
    Case {
        costs: &[4, 1, 3, 2, 0, 5, 3, 2, 2],
        rows: 3,
        columns: 3,
        columns_of: &[1, 0, 0],
        row_prices: &[1, 0, 0],
        column_prices: &[2, 0, 2],
        is_shown: false,
    },
    // One more column than rows: the free column has the price 0, and no column a price above 0.
    Case {
        costs: &[1, 2, 3, 3, 1, 2],
        rows: 2,
        columns: 3,
        columns_of: &[0, 1],
        row_prices: &[1, 1],
        column_prices: &[0, 0, 0],
        is_shown: true,
    },
    Case {
        costs: &[1, 2, 3, 3, 1, 2],
        rows: 2,
        columns: 3,
        columns_of: &[0, 1],
        row_prices: &[1, 1],
        column_prices: &[0, 0, -5],
        is_shown: false,
    },
    // No reduced cost is below 0, and those of pairs are 0, but the cost is 5 in place of 2.
    Case {
        costs: &[1, 2, 3, 3, 1, 2],
        rows: 2,
        columns: 3,
        columns_of: &[2, 1],
        row_prices: &[1, 0],
        column_prices: &[0, 1, 2],
        is_shown: false,
    },
    // One more row than columns.
    Case {
        costs: &[1, 3, 2, 1, 3, 2],
        rows: 3,
        columns: 2,
        columns_of: &[0, 1, 2],
        row_prices: &[0, 0, 0],
        column_prices: &[1, 1],
        is_shown: true,
    },
    Case {
        costs: &[1, 3, 2, 1, 3, 2],
        rows: 3,
        columns: 2,
        columns_of: &[0, 4_294_967_295, 2],
        row_prices: &[0, 0, 0],
        column_prices: &[1, 1],
        is_shown: false,
    },
    // Forbidden pairs.
    Case {
        costs: &[FORBIDDEN, 1, 1, FORBIDDEN],
        rows: 2,
        columns: 2,
        columns_of: &[1, 0],
        row_prices: &[1, 1],
        column_prices: &[0, 0],
        is_shown: true,
    },
    Case {
        costs: &[FORBIDDEN, 1, 1, FORBIDDEN],
        rows: 2,
        columns: 2,
        columns_of: &[0, 1],
        row_prices: &[1, 1],
        column_prices: &[0, 0],
        is_shown: false,
    },
    // Prices whose sum needs more than 64 bits.
    Case {
        costs: &[5],
        rows: 1,
        columns: 1,
        columns_of: &[0],
        row_prices: &[9_223_372_036_854_775_807],
        column_prices: &[-9_223_372_036_854_775_802],
        is_shown: true,
    },
];

// Returns whether the judge's verdict on a case is the expected one.
fn is_judged(alloc: Global, case: &Case) -> Result<bool, NoMemory> {
    let Ok(matrix) = Matrix::of(case.costs, case.rows, case.columns, case.columns) else {
        return Ok(false);
    };
    let holds = judge_assignment(
        alloc,
        &matrix,
        case.columns_of,
        case.row_prices,
        case.column_prices,
    )?;
    Ok(holds == case.is_shown)
}

#[test]
fn six_rows_and_others_are_judged(rt: HostRuntime) -> Result<(), Fail> {
    for case in &CASES {
        assert!(rt; is_judged(rt.alloc(), case)?);
    }
    Ok(())
}

// Marks of the rows and columns of a matrix of three rows and columns, in which the first two rows
// may use the first column alone; and whether the marks are a short cover.
static COVERS: [(&[bool], &[bool], bool); 5] = [
    (&[false, false, true], &[true, false, false], true),
    (&[false, false, true], &[false, false, false], false),
    (&[true, true, true], &[false, false, false], false),
    (&[true, true, false], &[false, false, false], false),
    (&[false, true], &[true, false, false], false),
];

// Returns whether the judge's verdict on the marks is the expected one.
fn is_cover(rows: &[bool], columns: &[bool]) -> bool {
    let costs = [1, FORBIDDEN, FORBIDDEN, 1, FORBIDDEN, FORBIDDEN, 1, 1, 1];
    match Matrix::of(&costs, 3, 3, 3) {
        Ok(matrix) => judge_cover(&matrix, rows, columns),
        Err(_) => false,
    }
}

#[test]
fn covers_are_judged(rt: HostRuntime) -> Result<(), Fail> {
    for (rows, columns, is_short) in &COVERS {
        assert!(rt; is_cover(rows, columns) == *is_short);
    }
    Ok(())
}
