//! What the bits of doubles stand for, and which lists of them are matrices.
use mcf_matrix_doubles::{
    DoubleFault, DoubleMatrix, DoublePrices, INFINITY, Scaled, are_small_prices, is_wide,
    judge_assignment, judge_cover, none_below,
};
use mcf_text::NoMemory;
use std::alloc::Global;
use std::test::Fail;

// The bits of a double, and its mantissa and shift: 0.0, -0.0, the least double above 0, the
// greatest subnormal, the least normal double, 1.0, -2.5 and the greatest double.
static VALUES: [(u64, i64, u32); 8] = [
    (0, 0, 0),
    (0x8000_0000_0000_0000, 0, 0),
    (1, 1, 0),
    (0x000F_FFFF_FFFF_FFFF, 0xF_FFFF_FFFF_FFFF, 0),
    (0x0010_0000_0000_0000, 0x10_0000_0000_0000, 0),
    (0x3FF0_0000_0000_0000, 0x10_0000_0000_0000, 1022),
    (0xC004_0000_0000_0000, -0x14_0000_0000_0000, 1023),
    (0x7FEF_FFFF_FFFF_FFFF, 0x1F_FFFF_FFFF_FFFF, 2045),
];

#[test]
fn bits_are_read(rt: HostRuntime) -> Result<(), Fail> {
    for (bits, mantissa, shift) in &VALUES {
        let value = Scaled::of(*bits);
        assert!(rt; value.mantissa == *mantissa && value.shift == *shift);
    }
    Ok(())
}

// A whole number, the bits of a double, and whether it is at least that number: -3, -2, 1, 2, 5
// beside -2.5 and 1.0.
static SUMS: [(i8, u64, bool); 6] = [
    (-3, 0xC004_0000_0000_0000, true),
    (-2, 0xC004_0000_0000_0000, false),
    (1, 0x3FF0_0000_0000_0000, true),
    (2, 0x3FF0_0000_0000_0000, false),
    (5, 0x7FEF_FFFF_FFFF_FFFF, true),
    (0, 0x8000_0000_0000_0000, true),
];

#[test]
fn sums_are_compared(rt: HostRuntime) -> Result<(), Fail> {
    for (sum, bits, reaches) in &SUMS {
        assert!(rt; Scaled::of(*bits).is_at_least(i128::from(*sum), 1074) == *reaches);
    }
    Ok(())
}

// What is wrong with a matrix of a row of two entries.
fn fault_of(entries: &[u64]) -> Option<DoubleFault> {
    match DoubleMatrix::of(entries, 1, 2, 2) {
        Ok(_) => None,
        Err(fault) => Some(fault),
    }
}

// Two entries, and what is wrong with them.
static ENTRIES: [(&[u64], Option<DoubleFault>); 4] = [
    (&[1, INFINITY], None),
    (&[1], Some(DoubleFault::Shape)),
    (
        &[1, 0xFFF0_0000_0000_0000],
        Some(DoubleFault::NoNumber { row: 0, column: 1 }),
    ),
    (
        &[0x7FF8_0000_0000_0000, 1],
        Some(DoubleFault::NoNumber { row: 0, column: 0 }),
    ),
];

#[test]
fn entries_are_judged(rt: HostRuntime) -> Result<(), Fail> {
    for (entries, fault) in &ENTRIES {
        assert!(rt; fault_of(entries) == *fault);
    }
    Ok(())
}

// Whether these are a matrix, for numbers that the compiler doesn't know.
#[inline(never)]
fn is_matrix(entries: &[u64], rows: usize, columns: usize, stride: usize) -> bool {
    DoubleMatrix::of(entries, rows, columns, stride).is_ok()
}

// Entries with their rows, columns and stride, and whether they are a matrix. Nobody can count the
// rows of the first one.
static SHAPES: [(&[u64], usize, usize, usize, bool); 3] = [
    (&[], usize::MAX, 0, 0, true),
    (&[1, 2], 1, 2, 2, true),
    (&[1], 1, 2, 2, false),
];

#[test]
fn shapes_are_judged(rt: HostRuntime) -> Result<(), Fail> {
    for (entries, rows, columns, stride, is) in &SHAPES {
        assert!(rt; is_matrix(entries, *rows, *columns, *stride) == *is);
    }
    Ok(())
}

// Whether a matrix of two rows reads as it stands.
fn reads_its_rows(entries: &[u64]) -> bool {
    let Ok(matrix) = DoubleMatrix::of(entries, 2, 1, 2) else {
        return false;
    };
    if matrix.rows() != 2 || matrix.columns() != 1 {
        return false;
    }
    let second = matrix.row(1);
    second.len() == 1 && second[0] == 8 && matrix.entry(0, 0) == 7
}

#[test]
fn rows_are_read(rt: HostRuntime) -> Result<(), Fail> {
    assert!(rt; reads_its_rows(&[7, 0, 8]));
    Ok(())
}

// Prices of two rows and two columns in units of 1, beside entries of 1.0, +infinity, -2.5 and 1.0,
// and whether no reduced cost is below 0.
static PRICES: [(&[i128], &[i128], bool); 4] = [
    (&[1, -3], &[0, 0], true),
    (&[1, -2], &[0, 0], false),
    (&[2, -3], &[-1, 4], true),
    (&[1, -3], &[0, i128::MAX], false),
];

// Whether no reduced cost is below 0.
fn has_none_below(row_prices: &[i128], column_prices: &[i128]) -> bool {
    let entries = [
        0x3FF0_0000_0000_0000,
        INFINITY,
        0xC004_0000_0000_0000,
        0x3FF0_0000_0000_0000,
    ];
    let Ok(matrix) = DoubleMatrix::of(&entries, 2, 2, 2) else {
        return false;
    };
    if row_prices.len() != matrix.rows() {
        return false;
    }
    if column_prices.len() != matrix.columns() {
        return false;
    }
    if !are_small_prices(row_prices) {
        return false;
    }
    if !are_small_prices(column_prices) {
        return false;
    }
    none_below(&matrix, row_prices, column_prices, 1074)
}

#[test]
fn reduced_costs_are_judged(rt: HostRuntime) -> Result<(), Fail> {
    for (row_prices, column_prices, holds) in &PRICES {
        assert!(rt; has_none_below(row_prices, column_prices) == *holds);
    }
    Ok(())
}

// The column of each row, prices in units of 0.5, and whether these show the matching least in a
// matrix of 1.0, +infinity, -2.5 and 1.0.
static JUDGED: [(&[u32], &[i128], &[i128], bool); 6] = [
    (&[0, 1], &[2, -5], &[0, 7], true),
    (&[1, 0], &[2, -5], &[0, 7], false),
    (&[0, 1], &[2, -4], &[0, 6], false),
    (&[0, 1], &[2, -5], &[0, 8], false),
    (&[0, 1], &[2, -5], &[0, i128::MAX], false),
    (&[0, 1], &[2], &[0, 7], false),
];

// The matrix of the rows above.
static JUDGED_ENTRIES: [u64; 4] = [
    0x3FF0_0000_0000_0000,
    INFINITY,
    0xC004_0000_0000_0000,
    0x3FF0_0000_0000_0000,
];

// Whether the prices show the matching least.
fn is_shown(
    alloc: Global,
    columns_of: &[u32],
    rows: &[i128],
    columns: &[i128],
) -> Result<bool, NoMemory> {
    let Ok(matrix) = DoubleMatrix::of(&JUDGED_ENTRIES, 2, 2, 2) else {
        return Ok(false);
    };
    let prices = DoublePrices {
        rows,
        columns,
        unit: 1073,
        is_rounded: false,
    };
    judge_assignment(alloc, &matrix, columns_of, &prices)
}

#[test]
fn assignments_are_judged(rt: HostRuntime) -> Result<(), Fail> {
    for (columns_of, rows, columns, expected) in &JUDGED {
        let holds = is_shown(rt.alloc(), columns_of, rows, columns)?;
        assert!(rt; holds == *expected);
    }
    Ok(())
}

// The only entry of a matrix, the price of its row in units of 1, whether the entry is rounded down
// to these, and whether the price shows the matching least.
static ROUNDED: [(u64, i128, bool, bool); 6] = [
    (0x3FF8_0000_0000_0000, 1, true, true),
    (0x3FF8_0000_0000_0000, 1, false, false),
    (0x3FF8_0000_0000_0000, 2, true, false),
    (0x3FF8_0000_0000_0000, 0, true, false),
    (0xBFF8_0000_0000_0000, -2, true, true),
    (0xBFF8_0000_0000_0000, -1, true, false),
];

// Whether the price shows the matching of the only entry least.
fn is_shown_alone(
    alloc: Global,
    bits: u64,
    price: i128,
    is_rounded: bool,
) -> Result<bool, NoMemory> {
    let entries = [bits];
    let rows = [price];
    let Ok(matrix) = DoubleMatrix::of(&entries, 1, 1, 1) else {
        return Ok(false);
    };
    let prices = DoublePrices {
        rows: &rows,
        columns: &[0],
        unit: 1074,
        is_rounded,
    };
    judge_assignment(alloc, &matrix, &[0], &prices)
}

#[test]
fn rounded_assignments_are_judged(rt: HostRuntime) -> Result<(), Fail> {
    for (bits, price, is_rounded, expected) in &ROUNDED {
        let holds = is_shown_alone(rt.alloc(), *bits, *price, *is_rounded)?;
        assert!(rt; holds == *expected);
    }
    Ok(())
}

// Marks of two rows and of two columns, and whether they meet all pairs of a matrix of which only
// that of row 1 and column 0 is allowed.
static COVERS: [(&[bool], &[bool], bool); 4] = [
    (&[false, true], &[false, false], true),
    (&[false, false], &[true, false], true),
    (&[true, false], &[false, false], false),
    (&[true, true], &[false, false], false),
];

// Whether the marks are a cover.
fn is_cover(rows: &[bool], columns: &[bool]) -> bool {
    let entries = [INFINITY, INFINITY, 0x8000_0000_0000_0001, INFINITY];
    let Ok(matrix) = DoubleMatrix::of(&entries, 2, 2, 2) else {
        return false;
    };
    judge_cover(&matrix, rows, columns)
}

#[test]
fn covers_are_judged(rt: HostRuntime) -> Result<(), Fail> {
    for (rows, columns, expected) in &COVERS {
        assert!(rt; is_cover(rows, columns) == *expected);
    }
    Ok(())
}

// Two entries, the exponent of a unit, and whether their bits span more than 118 places, as it
// shows: 1.0 is 2^1074, and beside it stand 2^-117, 2^-118, +infinity and 0.0.
static SPANS: [(u64, u64, u32, bool); 12] = [
    (0x3FF0_0000_0000_0000, 0x38A0_0000_0000_0000, 956, false),
    (0x3FF0_0000_0000_0000, 0x38A0_0000_0000_0000, 957, false),
    (0x3FF0_0000_0000_0000, 0x38A0_0000_0000_0000, 958, false),
    (0x3FF0_0000_0000_0000, 0x3890_0000_0000_0000, 956, false),
    (0x3FF0_0000_0000_0000, 0x3890_0000_0000_0000, 957, true),
    (0x3FF0_0000_0000_0000, 0x3890_0000_0000_0000, 958, false),
    (0x3890_0000_0000_0000, 0xBFF0_0000_0000_0000, 957, true),
    (0xB890_0000_0000_0000, 0x3FF0_0000_0000_0000, 957, true),
    (INFINITY, 0x3890_0000_0000_0000, 957, false),
    (0x3FF0_0000_0000_0000, INFINITY, 957, false),
    (0x3FF0_0000_0000_0000, 0, 957, false),
    (0x8000_0000_0000_0000, 0x3FF0_0000_0000_0000, 957, false),
];

// Whether the bits of two entries span more than 118 places, as a unit shows.
fn are_wide(first: u64, second: u64, unit: u32) -> bool {
    let entries = [first, second];
    let Ok(matrix) = DoubleMatrix::of(&entries, 2, 1, 1) else {
        return false;
    };
    is_wide(&matrix, unit)
}

#[test]
fn spans_are_measured(rt: HostRuntime) -> Result<(), Fail> {
    for (first, second, unit, expected) in &SPANS {
        assert!(rt; are_wide(*first, *second, *unit) == *expected);
    }
    Ok(())
}
