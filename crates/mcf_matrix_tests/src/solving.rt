//! Assignments and transport plans from the solver, against costs that scipy 1.10 finds.

use mcf_matrix_solver::{Assigned, FORBIDDEN, Masses, Matrix, Planned, Shipment, assign, plan};
use mcf_text::NoMemory;
use std::alloc::Global;
use std::test::Fail;

const NO: i64 = FORBIDDEN;

// The kind of an answer for a matrix: a matching, a cover, or nothing.
#[derive(Clone, Copy, PartialEq, Eq)]
enum Kind {
    Least,
    Infeasible,
    NotShown,
}

// Rows, columns, entries, and the expected kind of answer.
type Worked = (usize, usize, &'static [i64], Kind);

static WORKED: [Worked; 4] = [
    (3, 3, &[4, 1, 3, 2, 0, 5, 3, 2, 2], Kind::Least),
    (3, 3, &[1, NO, NO, 2, NO, NO, 1, 1, 1], Kind::Infeasible),
    (3, 2, &[5, 6, -3, 2, -4, NO], Kind::Least),
    (0, 0, &[], Kind::Least),
];

// Returns the kind of an answer.
fn kind_of(answer: &Assigned) -> Kind {
    match answer {
        Assigned::Least(_) => Kind::Least,
        Assigned::Infeasible(_) => Kind::Infeasible,
        Assigned::NotShown => Kind::NotShown,
    }
}

// Returns whether the answer for a matrix is of the expected kind.
fn answers(alloc: Global, worked: &Worked) -> Result<bool, NoMemory> {
    let (rows, columns, costs, kind) = *worked;
    let Ok(matrix) = Matrix::of(costs, rows, columns, columns) else {
        return Ok(false);
    };
    let answer = assign(alloc, &matrix)?;
    Ok(kind_of(&answer) == kind)
}

#[test]
fn six_rows_of_answers(rt: HostRuntime) -> Result<(), Fail> {
    let mut count = 0usize;
    'worked: for worked in &WORKED {
        if answers(rt.alloc(), worked)? {
            count = count.wrapping_add(1);
        }
    }
    assert_eq!(rt; count, 4);
    Ok(())
}

// Entries, row after row, supplies, demands, and the least cost of a plan; `None` if a cut is
// answered.
type WorkedPlan = (&'static [i64], &'static [i64], &'static [i64], Option<i64>);

static WORKED_PLANS: [WorkedPlan; 12] = [
    (
        &[8, 6, 10, 9, 9, 12, 13, 7, 14, 9, 16, 5],
        &[35, 50, 40],
        &[45, 20, 30, 30],
        Some(1020),
    ),
    (&[3, 1, 2, 4, 5, 0], &[4, 0, 6], &[7, 3], Some(27)),
    (&[1, NO, NO, 1], &[5, 2], &[5, 2], Some(7)),
    (&[1, NO, NO, 1], &[5, 2], &[4, 3], None),
    (&[1], &[5], &[6], None),
    (&[1], &[6], &[5], None),
    (&[1, 2], &[-1], &[0, -1], None),
    (&[1, 2], &[0], &[1, -1], None),
    (&[], &[], &[3], None),
    (
        &[1, NO, NO, 1, 5, NO, 9, 2, 3],
        &[3, 3, 3],
        &[5, 2, 2],
        Some(18),
    ),
    // Rows 0 and 1 may send to columns 0 and 1 alone, which take 5 of their 6.
    (
        &[1, NO, NO, 1, 5, NO, NO, NO, 3],
        &[3, 3, 3],
        &[4, 1, 4],
        None,
    ),
    (&[], &[], &[], Some(0)),
];

// Returns the sum of cost times amount.
fn cost_of(matrix: &Matrix<'_>, shipments: &[Shipment]) -> i64 {
    let mut cost = 0i64;
    'shipments: for shipment in shipments {
        let (row, column) = (shipment.row as usize, shipment.column as usize);
        if row < matrix.rows() && column < matrix.columns() {
            let each = matrix.cost(row, column).unwrap_or(0);
            cost = cost.wrapping_add(each.wrapping_mul(shipment.amount));
        }
    }
    cost
}

// Returns whether the solver's plan has the expected cost, or a cut is answered as expected.
fn plans(alloc: Global, worked: &WorkedPlan) -> Result<bool, NoMemory> {
    let (costs, supplies, demands, least) = *worked;
    let masses = Masses { supplies, demands };
    let Ok(matrix) = Matrix::of(costs, supplies.len(), demands.len(), demands.len()) else {
        return Ok(false);
    };
    match plan(alloc, &matrix, &masses)? {
        Planned::Least(found) => Ok(least == Some(cost_of(&matrix, &found.shipments))),
        Planned::Infeasible(_) => Ok(least.is_none()),
        Planned::NotShown => Ok(false),
    }
}

#[test]
fn rows_of_plans(rt: HostRuntime) -> Result<(), Fail> {
    let mut count = 0usize;
    'worked: for worked in &WORKED_PLANS {
        if plans(rt.alloc(), worked)? {
            count = count.wrapping_add(1);
        }
    }
    assert_eq!(rt; count, 12);
    Ok(())
}
