//! Assignments of doubles that are answered, against all matchings added up as fractions.

use mcf_double_search::{DoubleFound, find_assignment};
use mcf_double_solver::{DoubleAssigned, DoubleMatrix, assign};
use mcf_matrix_doubles::INFINITY;
use mcf_text::NoMemory;
use std::alloc::Global;
use std::test::Fail;

// Stands for no column.
const NO: u32 = u32::MAX;

// What is answered for a matrix: a matching, of the entries or of rounded ones, a cover, or
// nothing.
#[derive(Clone, Copy, PartialEq, Eq)]
enum Kind {
    Least,
    Rounded,
    Infeasible,
    NotShown,
}

// Rows, columns, entries, what is answered, and the one least matching.
type Worked = (usize, usize, &'static [u64], Kind, &'static [u32]);

static WORKED: [Worked; 21] = [
    // A matrix whose costs are whole.
    (
        2,
        2,
        &[
            0x4008_0000_0000_0000,
            0x3FF0_0000_0000_0000,
            0x4000_0000_0000_0000,
            0x4000_0000_0000_0000,
        ],
        Kind::Least,
        &[1, 0],
    ),
    // Matchings that differ by one unit in the last place.
    (
        2,
        2,
        &[
            0x3FF0_0000_0000_0000,
            0x3FF0_0000_0000_0002,
            0x3FF0_0000_0000_0000,
            0x3FF0_0000_0000_0001,
        ],
        Kind::Least,
        &[0, 1],
    ),
    // 1e16 twice, beside entries that it swallows.
    (
        3,
        3,
        &[
            0x4341_C379_37E0_8000,
            0x4341_C379_37E0_8000,
            0x3FD0_0000_0000_0000,
            0x4341_C379_37E0_8000,
            0x4341_C379_37E0_8000,
            0x3FE8_0000_0000_0000,
            0x3FE0_0000_0000_0000,
            0x3FC0_0000_0000_0000,
            0x3FD0_0000_0000_0000,
        ],
        Kind::Least,
        &[2, 0, 1],
    ),
    // More columns than rows.
    (
        2,
        3,
        &[
            0x3FB9_9999_9999_999A,
            0x3FC9_9999_9999_999A,
            0x3FD3_3333_3333_3333,
            0x3FB9_9999_9999_999A,
            0x3FD9_9999_9999_999A,
            0x3FD3_3333_3333_3333,
        ],
        Kind::Least,
        &[1, 0],
    ),
    // More rows than columns.
    (
        3,
        2,
        &[
            0x3FB9_9999_9999_999A,
            0x3FB9_9999_9999_999A,
            0xBFC9_9999_9999_999A,
            0x3FD9_9999_9999_999A,
            0x3FD3_3333_3333_3333,
            0xBFD3_3333_3333_3333,
        ],
        Kind::Least,
        &[NO, 0, 1],
    ),
    // Forbidden pairs.
    (
        2,
        2,
        &[
            INFINITY,
            0x3FB9_9999_9999_999A,
            0x3FE6_6666_6666_6666,
            INFINITY,
        ],
        Kind::Least,
        &[1, 0],
    ),
    // No matching.
    (
        2,
        2,
        &[
            INFINITY,
            0x3FB9_9999_9999_999A,
            INFINITY,
            0x3FD3_3333_3333_3333,
        ],
        Kind::Infeasible,
        &[],
    ),
    // Bits too far apart.
    (
        2,
        2,
        &[
            0x0000_0000_0000_0001,
            0x3FF0_0000_0000_0000,
            0x3FF0_0000_0000_0000,
            0x0000_0000_0000_0001,
        ],
        Kind::Rounded,
        &[0, 1],
    ),
    // Subnormals.
    (
        2,
        2,
        &[
            0x0000_0000_0000_0001,
            0x0000_0000_0000_0002,
            0x0000_0000_0000_0001,
            0x0000_0000_0000_0003,
        ],
        Kind::Least,
        &[1, 0],
    ),
    // No rows, and no columns.
    (0, 2, &[], Kind::Least, &[]),
    (2, 0, &[], Kind::Least, &[NO, NO]),
    // A row, and a column, of 1, 2^-60 and 3.
    (
        1,
        3,
        &[
            0x3FF0_0000_0000_0000,
            0x3C30_0000_0000_0000,
            0x4008_0000_0000_0000,
        ],
        Kind::Least,
        &[1],
    ),
    (
        3,
        1,
        &[
            0x3FF0_0000_0000_0000,
            0x3C30_0000_0000_0000,
            0x4008_0000_0000_0000,
        ],
        Kind::Least,
        &[NO, 0, NO],
    ),
    // More rows than columns, and no matching.
    (
        3,
        2,
        &[
            INFINITY,
            0x3FB9_9999_9999_999A,
            INFINITY,
            0x3FD3_3333_3333_3333,
            INFINITY,
            0x3FD3_3333_3333_3333,
        ],
        Kind::Infeasible,
        &[],
    ),
    // Bits from 1 down to 2^-117, 118 in all, and to 2^-118.
    (
        2,
        2,
        &[
            0x3FF0_0000_0000_0000,
            0x38A0_0000_0000_0000,
            0x38A0_0000_0000_0000,
            0x3FF0_0000_0000_0000,
        ],
        Kind::Least,
        &[1, 0],
    ),
    (
        2,
        2,
        &[
            0x3FF0_0000_0000_0000,
            0x3890_0000_0000_0000,
            0x3890_0000_0000_0000,
            0x3FF0_0000_0000_0000,
        ],
        Kind::Rounded,
        &[1, 0],
    ),
    // Entries of 0, whose bits count nowhere.
    (
        2,
        2,
        &[
            0,
            0x3FB9_9999_9999_999A,
            0x3FB9_9999_9999_999A,
            0x3FD3_3333_3333_3333,
        ],
        Kind::Least,
        &[1, 0],
    ),
    (
        2,
        2,
        &[
            0x4008_0000_0000_0000,
            0x3FF0_0000_0000_0000,
            0x3FF0_0000_0000_0000,
            0,
        ],
        Kind::Least,
        &[1, 0],
    ),
    // 1 and the next double, beside 2^-65 and the second double after it.
    (
        2,
        2,
        &[
            0x3FF0_0000_0000_0000,
            0x3FF0_0000_0000_0001,
            0x3BE0_0000_0000_0002,
            0x3BE0_0000_0000_0000,
        ],
        Kind::Least,
        &[0, 1],
    ),
    // The greatest double, beside 2^1022, and beside 1.
    (
        2,
        2,
        &[
            0x7FEF_FFFF_FFFF_FFFF,
            0x7FD0_0000_0000_0000,
            0x7FD0_0000_0000_0000,
            0x7FEF_FFFF_FFFF_FFFF,
        ],
        Kind::Least,
        &[1, 0],
    ),
    (
        2,
        2,
        &[
            0x7FEF_FFFF_FFFF_FFFF,
            0x3FF0_0000_0000_0000,
            0x3FF0_0000_0000_0000,
            0x7FEF_FFFF_FFFF_FFFF,
        ],
        Kind::Rounded,
        &[1, 0],
    ),
];

// What is answered, and the matching.
fn agrees(answer: &DoubleAssigned, kind: Kind, columns_of: &[u32]) -> bool {
    match answer {
        DoubleAssigned::Least(found) => {
            let shown = if found.is_rounded {
                Kind::Rounded
            } else {
                Kind::Least
            };
            kind == shown && found.column_of.as_slice() == columns_of
        }
        DoubleAssigned::Infeasible(_) => kind == Kind::Infeasible,
        DoubleAssigned::NotShown => kind == Kind::NotShown,
    }
}

// Whether the answer for a matrix is the expected one.
fn answers(alloc: Global, worked: &Worked) -> Result<bool, NoMemory> {
    let (rows, columns, entries, kind, columns_of) = *worked;
    let Ok(matrix) = DoubleMatrix::of(entries, rows, columns, columns) else {
        return Ok(false);
    };
    let answer = assign(alloc, &matrix)?;
    Ok(agrees(&answer, kind, columns_of))
}

#[test]
fn doubles_are_assigned(rt: HostRuntime) -> Result<(), Fail> {
    let mut count = 0usize;
    'worked: for worked in &WORKED {
        if answers(rt.alloc(), worked)? {
            count = count.wrapping_add(1);
        }
    }
    assert_eq!(rt; count, 21);
    Ok(())
}

// Whether the search finds an assignment of no rows and columns.
fn finds_nothing_to_do(alloc: Global) -> Result<bool, NoMemory> {
    let Ok(matrix) = DoubleMatrix::of(&[], 0, 0, 0) else {
        return Ok(false);
    };
    match find_assignment(alloc, &matrix)? {
        Some(DoubleFound::Assignment(found)) => Ok(found.column_of.is_empty()),
        _ => Ok(false),
    }
}

#[test]
fn nothing_is_assigned(rt: HostRuntime) -> Result<(), Fail> {
    let is_found = finds_nothing_to_do(rt.alloc())?;
    assert!(rt; is_found);
    Ok(())
}
