//! Which transport plans and cuts are accepted.
use mcf_flows::Side;
use mcf_matrix::{FORBIDDEN, Masses, Matrix, Shipment, judge_transport, judge_transport_cut};
use mcf_text::NoMemory;
use std::alloc::Global;
use std::test::Fail;

// A plan for costs of 1, 2 and 3, 1, supplies of 3, 4 and demands of 5, 2, with prices of the
// columns; those of rows are 1 and 3.
static PLANS: [(&[Shipment], &[i64], bool); 6] = [
    // Worked by hand: a cost of 11.
    (
        &[
            Shipment {
                row: 0,
                column: 0,
                amount: 3,
            },
            Shipment {
                row: 1,
                column: 0,
                amount: 2,
            },
            Shipment {
                row: 1,
                column: 1,
                amount: 2,
            },
        ],
        &[0, -2],
        true,
    ),
    (
        &[
            Shipment {
                row: 1,
                column: 0,
                amount: 1,
            },
            Shipment {
                row: 0,
                column: 0,
                amount: 3,
            },
            Shipment {
                row: 1,
                column: 1,
                amount: 2,
            },
            Shipment {
                row: 1,
                column: 0,
                amount: 1,
            },
            Shipment {
                row: 0,
                column: 1,
                amount: 0,
            },
        ],
        &[0, -2],
        true,
    ),
    (
        &[
            Shipment {
                row: 0,
                column: 0,
                amount: 3,
            },
            Shipment {
                row: 1,
                column: 0,
                amount: 2,
            },
            Shipment {
                row: 1,
                column: 1,
                amount: 2,
            },
        ],
        &[0, -1],
        false,
    ),
    (
        &[
            Shipment {
                row: 0,
                column: 0,
                amount: 3,
            },
            Shipment {
                row: 1,
                column: 0,
                amount: 2,
            },
        ],
        &[0, -2],
        false,
    ),
    (
        &[
            Shipment {
                row: 0,
                column: 0,
                amount: 1,
            },
            Shipment {
                row: 0,
                column: 1,
                amount: 2,
            },
            Shipment {
                row: 1,
                column: 0,
                amount: 4,
            },
        ],
        &[0, -2],
        false,
    ),
    (
        &[
            Shipment {
                row: 0,
                column: 0,
                amount: 3,
            },
            Shipment {
                row: 1,
                column: 0,
                amount: 2,
            },
            Shipment {
                row: 1,
                column: 2,
                amount: 2,
            },
        ],
        &[0, -2],
        false,
    ),
];

// Returns whether the judge accepts a plan.
fn is_shown(alloc: Global, plan: &[Shipment], column_prices: &[i64]) -> Result<bool, NoMemory> {
    let costs = [1, 2, 3, 1];
    let Ok(matrix) = Matrix::of(&costs, 2, 2, 2) else {
        return Ok(false);
    };
    let masses = Masses {
        supplies: &[3, 4],
        demands: &[5, 2],
    };
    judge_transport(alloc, &matrix, &masses, plan, &[1, 3], column_prices)
}

#[test]
fn plans_are_judged(rt: HostRuntime) -> Result<(), Fail> {
    for (plan, column_prices, accepts) in &PLANS {
        assert!(rt; is_shown(rt.alloc(), plan, column_prices)? == *accepts);
    }
    Ok(())
}

// Marks of the rows and columns of a matrix in which both rows may use the first column alone. The
// supplies are 3, 4 and the demands 5, 2.
static CUTS: [(&[bool], &[bool], Side, bool); 5] = [
    (&[true, true], &[true, false], Side::Send, true),
    (&[false, false], &[false, true], Side::Take, true),
    (&[true, true], &[true, true], Side::Send, false),
    (&[true, false], &[true, false], Side::Send, false),
    (&[false, true], &[false, false], Side::Send, false),
];

// Returns whether the judge accepts the marks as a cut.
fn cuts(rows: &[bool], columns: &[bool], side: Side) -> bool {
    let costs = [1, FORBIDDEN, 1, FORBIDDEN];
    let masses = Masses {
        supplies: &[3, 4],
        demands: &[5, 2],
    };
    match Matrix::of(&costs, 2, 2, 2) {
        Ok(matrix) => judge_transport_cut(&matrix, &masses, rows, columns, side),
        Err(_) => false,
    }
}

#[test]
fn cuts_are_judged(rt: HostRuntime) -> Result<(), Fail> {
    for (rows, columns, side, accepts) in &CUTS {
        assert!(rt; cuts(rows, columns, *side) == *accepts);
    }
    Ok(())
}
