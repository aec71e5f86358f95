//! How many places the bits of the entries of a matrix span.
ghost use Rattle.std.specs.Prelude.{◌≡◌, ◌+◌, ◌-◌, ◌<◌, ◌%◌, ◌^◌, ◌↔◌, ℕ, IfSome, IsTrue, length, slice_index, unsigned_abs};
ghost use Rattle.mcf_matrix_doubles.specs.DoubleTables.{double_costs};
ghost use Rattle.mcf_matrix_doubles.specs.Doubles.{double_cost};
ghost use Rattle.mcf_matrix_doubles.specs.Spans.{IsNarrow, IsWide};

use crate::double::{INFINITY, Scaled};
use crate::double_matrix::DoubleMatrix;

/// How many places the bits of entries may span: 128 bits then have room for exact sums of prices.
pub const EXACT_BITS: u32 = 118;

// How many units a size has at least that lies that many places above one of them.
const GREAT: i128 = 1 << (EXACT_BITS - 1);

// How many bits a mantissa has at most.
const MANTISSA_BITS: u32 = 53;

// Whether all entries that aren't +infinity are multiples of a unit, and whether all of them are
// less than 2^117 units from 0.
#[derive(Clone, Copy)]
struct Span {
    are_multiples: bool,
    are_within: bool,
}

/// Whether the bits of the entries that aren't +infinity span more than 118 places, as a unit
/// 2^unit * 2^-1074 shows: not all of them are multiples of it, and not all are less than 2^117 of
/// it from 0. Then there is no power of 2 of which all are multiples, and less than 2^118 times it
/// from 0. It reads each entry once.
pub fn is_wide(matrix: &DoubleMatrix<'_>, unit: u32) -> bool
    ensures exact { IsTrue result ↔ IsWide unit (double_costs matrix.now) }
    ensures none { IsTrue result → ¬ IsNarrow (double_costs matrix.now) }
{
    let mut are_multiples = true;
    let mut are_within = true;
    for row in 0..matrix.rows() {
        let span = Span::of_row(matrix.row(row), unit);
        are_multiples &= span.are_multiples;
        are_within &= span.are_within;
    }
    !are_multiples && !are_within
}

impl Span {
    // Returns the span of a row.
    fn of_row(row: &[u64], unit: u32) -> Span
        ensures multiples { IsTrue result.are_multiples ↔ ((j : ℕ) → j < length row.now → IfSome (double_cost (slice_index row.now j)) (λ c. unsigned_abs c % 2 ^ unit ≡ 0)) }
        ensures within { IsTrue result.are_within ↔ ((j : ℕ) → j < length row.now → IfSome (double_cost (slice_index row.now j)) (λ c. unsigned_abs c < 2 ^ (unit + (EXACT_BITS - 1)))) }
    {
        let mut are_multiples = true;
        let mut are_within = true;
        for bits in row {
            are_multiples &= is_multiple(*bits, unit);
            are_within &= is_within(*bits, unit);
        }
        Span {
            are_multiples,
            are_within,
        }
    }
}

// Whether the entry, if it isn't +infinity, is a multiple of 2^unit.
fn is_multiple(bits: u64, unit: u32) -> bool
    ensures { IsTrue result ↔ IfSome (double_cost bits) (λ c. unsigned_abs c % 2 ^ unit ≡ 0) }
{
    if bits == INFINITY {
        return true;
    }
    let Scaled { mantissa, shift } = Scaled::of(bits);
    let places = unit.saturating_sub(shift).min(MANTISSA_BITS);
    mantissa.unsigned_abs() % (1 << places) == 0
}

// Whether the entry, if it isn't +infinity, is less than 2^117 times 2^unit from 0.
fn is_within(bits: u64, unit: u32) -> bool
    ensures { IsTrue result ↔ IfSome (double_cost bits) (λ c. unsigned_abs c < 2 ^ (unit + (EXACT_BITS - 1))) }
{
    if bits == INFINITY {
        return true;
    }
    let Scaled { mantissa, shift } = Scaled::of(bits);
    let size = Scaled {
        mantissa: mantissa.abs(),
        shift,
    };
    !size.is_at_least(GREAT, unit)
}
