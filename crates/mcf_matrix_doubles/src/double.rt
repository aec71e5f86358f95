//! What the bits of a double stand for.
ghost use Rattle.std.specs.Prelude.{◌≡◌, ◌-◌, ◌<◌, ◌≤◌, ◌^◌, ◌*ℤ◌, ◌↔◌, pos, IsTrue, unsigned_abs};
ghost use Rattle.mcf_flows.specs.WellFormed.{IsUpTo};
ghost use Rattle.mcf_matrix_doubles.specs.Doubles.{IsEntry, exponent_of, fraction_of, value_of};

/// The bits of +infinity, which forbids a pair.
pub const INFINITY: u64 = 0x7FF0_0000_0000_0000;

// How great a fraction may be, in units.
pub(crate) const FRACTIONS: u64 = 1 << 52;

/// A whole number of units: the mantissa times 2^shift.
#[derive(Clone, Copy, Debug, PartialEq, Eq)]
pub struct Scaled {
    pub mantissa: i64,
    pub shift: u32,
}

impl Scaled {
    /// What the bits of a finite double stand for, in units of 2^-1074: exactly (IEEE 754).
    #[inline(always)]
    pub fn of(bits: u64) -> Scaled
        ensures value { result.mantissa *ℤ pos (2 ^ result.shift) ≡ value_of bits }
        ensures small { IsUpTo (2 ^ 53 - 1) result.mantissa }
        ensures shift { result.shift ≤ 2046 }
        ensures normal { 0 < result.shift → 2 ^ 52 ≤ unsigned_abs result.mantissa }
    {
        let exponent = exponent_of(bits);
        let fraction = (bits % FRACTIONS) as i64;
        let (size, shift) = if exponent == 0 {
            (fraction, 0)
        } else {
            (fraction + FRACTIONS as i64, exponent - 1)
        };
        let mantissa = if bits < 1 << 63 { size } else { -size };
        Scaled { mantissa, shift }
    }
}

// The biased exponent.
#[inline(always)]
fn exponent_of(bits: u64) -> u32
    ensures value { result ≡ exponent_of bits }
    ensures small { result < 2048 }
{
    (bits / FRACTIONS % 2048) as u32
}

/// Whether the bits are those of a finite double or of +infinity.
#[inline(always)]
pub(crate) fn is_entry(bits: u64) -> bool
    ensures { IsTrue result ↔ IsEntry bits }
{
    exponent_of(bits) < 2047 || bits == INFINITY
}
