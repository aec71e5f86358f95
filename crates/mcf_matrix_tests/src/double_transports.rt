//! Transport plans of doubles that are judged and answered.

use mcf_double_search::{DoubleFoundPlan, find_plan};
use mcf_double_solver::{DoubleMatrix, DoublePlanned, Masses, Shipment, plan};
use mcf_flows::Side;
use mcf_matrix_doubles::{DoublePrices, INFINITY, judge_transport, judge_transport_cut};
use mcf_text::NoMemory;
use std::alloc::Global;
use std::test::Fail;

// Bits of doubles: 1, the next two after it, 0.1, 0.2, 0.3 and 1e16.
const ONE: u64 = 0x3FF0_0000_0000_0000;

const AFTER: u64 = 0x3FF0_0000_0000_0001;

const LATER: u64 = 0x3FF0_0000_0000_0002;

const TENTH: u64 = 0x3FB9_9999_9999_999A;

const FIFTH: u64 = 0x3FC9_9999_9999_999A;

const THREE_TENTHS: u64 = 0x3FD3_3333_3333_3333;

const GREAT: u64 = 0x4341_C379_37E0_8000;

// What is answered: a plan, a cut, or nothing.
#[derive(Clone, Copy, PartialEq, Eq)]
enum Kind {
    Least,
    Rounded,
    Infeasible,
    NotShown,
}

// Entries of two rows, supplies, demands, what is answered, and the one least plan, row by row.
type Worked = (
    &'static [u64],
    &'static [i64],
    &'static [i64],
    Kind,
    &'static [Shipment],
);

static WORKED: [Worked; 10] = [
    // Plans that differ by one unit in the last place.
    (
        &[ONE, LATER, ONE, AFTER],
        &[3, 4],
        &[5, 2],
        Kind::Least,
        &[
            Shipment {
                row: 0,
                column: 0,
                amount: 3,
            },
            Shipment {
                row: 1,
                column: 0,
                amount: 2,
            },
            Shipment {
                row: 1,
                column: 1,
                amount: 2,
            },
        ],
    ),
    // The same, turned.
    (
        &[ONE, AFTER, ONE, LATER],
        &[3, 4],
        &[5, 2],
        Kind::Least,
        &[
            Shipment {
                row: 0,
                column: 0,
                amount: 1,
            },
            Shipment {
                row: 0,
                column: 1,
                amount: 2,
            },
            Shipment {
                row: 1,
                column: 0,
                amount: 4,
            },
        ],
    ),
    // 1e16 in a row, which swallows the others in a sum of doubles.
    (
        &[GREAT, GREAT, FIFTH, TENTH],
        &[1, 2],
        &[1, 2],
        Kind::Least,
        &[
            Shipment {
                row: 0,
                column: 0,
                amount: 1,
            },
            Shipment {
                row: 1,
                column: 1,
                amount: 2,
            },
        ],
    ),
    // Three columns, and a forbidden pair.
    (
        &[TENTH, INFINITY, THREE_TENTHS, FIFTH, FIFTH, FIFTH],
        &[2, 4],
        &[2, 3, 1],
        Kind::Least,
        &[
            Shipment {
                row: 0,
                column: 0,
                amount: 2,
            },
            Shipment {
                row: 1,
                column: 1,
                amount: 3,
            },
            Shipment {
                row: 1,
                column: 2,
                amount: 1,
            },
        ],
    ),
    // Both rows may use the first column alone.
    (
        &[TENTH, INFINITY, ONE, INFINITY],
        &[3, 4],
        &[5, 2],
        Kind::Infeasible,
        &[],
    ),
    // Uneven masses.
    (
        &[TENTH, ONE, ONE, ONE],
        &[3, 4],
        &[5, 3],
        Kind::Infeasible,
        &[],
    ),
    // No columns.
    (&[], &[0, 0], &[], Kind::Least, &[]),
    (&[], &[3, 0], &[], Kind::Infeasible, &[]),
    // Masses of another length.
    (&[TENTH, ONE, ONE, ONE], &[3, 4], &[7], Kind::NotShown, &[]),
    // Bits too far apart.
    (
        &[1, ONE, ONE, 1],
        &[1, 1],
        &[1, 1],
        Kind::Rounded,
        &[
            Shipment {
                row: 0,
                column: 0,
                amount: 1,
            },
            Shipment {
                row: 1,
                column: 1,
                amount: 1,
            },
        ],
    ),
];

// Whether each of some entries is among others, which are as many.
fn are_same(plan: &[Shipment], other: &[Shipment]) -> bool {
    let mut count = 0usize;
    'entries: for entry in plan {
        'others: for same in other {
            count = count.wrapping_add(usize::from(entry == same));
        }
    }
    plan.len() == other.len() && count == other.len()
}

// What is answered, and the plan.
fn agrees(answer: &DoublePlanned, kind: Kind, entries: &[Shipment]) -> bool {
    match answer {
        DoublePlanned::Least(found) => {
            let shown = if found.is_rounded {
                Kind::Rounded
            } else {
                Kind::Least
            };
            kind == shown && are_same(found.shipments.as_slice(), entries)
        }
        DoublePlanned::Infeasible(_) => kind == Kind::Infeasible,
        DoublePlanned::NotShown => kind == Kind::NotShown,
    }
}

// Whether the answer for a problem is the expected one.
fn answers(alloc: Global, worked: &Worked) -> Result<bool, NoMemory> {
    let (entries, supplies, demands, kind, plan_of) = *worked;
    let columns = entries.len() / 2;
    let Ok(matrix) = DoubleMatrix::of(entries, 2, columns, columns) else {
        return Ok(false);
    };
    let answer = plan(alloc, &matrix, &Masses { supplies, demands })?;
    Ok(agrees(&answer, kind, plan_of))
}

#[test]
fn plans_of_doubles_are_found(rt: HostRuntime) -> Result<(), Fail> {
    let mut count = 0usize;
    'worked: for worked in &WORKED {
        if answers(rt.alloc(), worked)? {
            count = count.wrapping_add(1);
        }
    }
    assert_eq!(rt; count, 10);
    Ok(())
}

// Whether the search finds a plan of no rows and columns.
fn finds_nothing_to_do(alloc: Global) -> Result<bool, NoMemory> {
    let Ok(matrix) = DoubleMatrix::of(&[], 0, 0, 0) else {
        return Ok(false);
    };
    let masses = Masses {
        supplies: &[],
        demands: &[],
    };
    match find_plan(alloc, &matrix, &masses)? {
        Some(DoubleFoundPlan::Plan(found)) => Ok(found.shipments.is_empty()),
        _ => Ok(false),
    }
}

#[test]
fn nothing_is_sent(rt: HostRuntime) -> Result<(), Fail> {
    let is_found = finds_nothing_to_do(rt.alloc())?;
    assert!(rt; is_found);
    Ok(())
}

// A plan for the first costs above, and prices, in units of the last place of 1: rows, columns.
type Judged = (&'static [Shipment], &'static [i128], &'static [i128], bool);

static JUDGED: [Judged; 4] = [
    (
        &[
            Shipment {
                row: 0,
                column: 0,
                amount: 3,
            },
            Shipment {
                row: 1,
                column: 0,
                amount: 2,
            },
            Shipment {
                row: 1,
                column: 1,
                amount: 2,
            },
        ],
        &[0x10_0000_0000_0000, 0x10_0000_0000_0000],
        &[0, 1],
        true,
    ),
    (
        &[
            Shipment {
                row: 0,
                column: 0,
                amount: 3,
            },
            Shipment {
                row: 1,
                column: 0,
                amount: 2,
            },
            Shipment {
                row: 1,
                column: 1,
                amount: 2,
            },
        ],
        &[0x10_0000_0000_0000, 0x10_0000_0000_0000],
        &[0, 2],
        false,
    ),
    (
        &[
            Shipment {
                row: 0,
                column: 0,
                amount: 1,
            },
            Shipment {
                row: 0,
                column: 1,
                amount: 2,
            },
            Shipment {
                row: 1,
                column: 0,
                amount: 4,
            },
        ],
        &[0x10_0000_0000_0000, 0x10_0000_0000_0000],
        &[0, 1],
        false,
    ),
    (
        &[
            Shipment {
                row: 0,
                column: 0,
                amount: 3,
            },
            Shipment {
                row: 1,
                column: 0,
                amount: 2,
            },
            Shipment {
                row: 1,
                column: 1,
                amount: 2,
            },
        ],
        &[0x10_0000_0000_0000],
        &[0, 1],
        false,
    ),
];

// Whether the judge accepts a plan.
fn is_shown(alloc: Global, judged: &Judged) -> Result<bool, NoMemory> {
    let (entries, rows, columns, _) = *judged;
    let costs = [ONE, LATER, ONE, AFTER];
    let Ok(matrix) = DoubleMatrix::of(&costs, 2, 2, 2) else {
        return Ok(false);
    };
    let masses = Masses {
        supplies: &[3, 4],
        demands: &[5, 2],
    };
    let prices = DoublePrices {
        rows,
        columns,
        unit: 1022,
        is_rounded: false,
    };
    judge_transport(alloc, &matrix, &masses, entries, &prices)
}

#[test]
fn plans_of_doubles_are_judged(rt: HostRuntime) -> Result<(), Fail> {
    for judged in &JUDGED {
        assert!(rt; is_shown(rt.alloc(), judged)? == judged.3);
    }
    Ok(())
}

// Marks of the rows and columns of a matrix in which both rows may use the first column alone.
static CUTS: [(&[bool], &[bool], Side, bool); 4] = [
    (&[true, true], &[true, false], Side::Send, true),
    (&[false, false], &[false, true], Side::Take, true),
    (&[true, true], &[true, true], Side::Send, false),
    (&[false, true], &[false, false], Side::Send, false),
];

// Whether the judge accepts the marks as a cut.
fn cuts(rows: &[bool], columns: &[bool], side: Side) -> bool {
    let costs = [TENTH, INFINITY, ONE, INFINITY];
    let masses = Masses {
        supplies: &[3, 4],
        demands: &[5, 2],
    };
    match DoubleMatrix::of(&costs, 2, 2, 2) {
        Ok(matrix) => judge_transport_cut(&matrix, &masses, rows, columns, side),
        Err(_) => false,
    }
}

#[test]
fn cuts_of_doubles_are_judged(rt: HostRuntime) -> Result<(), Fail> {
    for (rows, columns, side, accepts) in &CUTS {
        assert!(rt; cuts(rows, columns, *side) == *accepts);
    }
    Ok(())
}
