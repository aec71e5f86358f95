//! The doubles that are at least a sum of prices, found by their bits: doubles that aren't below 0
//! are in the order of their bits.
ghost use Rattle.std.specs.Prelude.{ℕ, ◌-◌, ◌<◌, ◌≤◌, ◌^◌, ◌*ℤ◌, ◌≤ℤ◌, pos};
ghost use Rattle.mcf_flows.specs.WellFormed.{IsUpTo};
ghost use Rattle.mcf_matrix_doubles.specs.Doubles.{value_of};

use crate::double::{FRACTIONS, Scaled};

/// The bit of the sign.
pub(crate) const SIGN: u64 = 1 << 63;

// How many bits a mantissa has.
const MANTISSA_BITS: u32 = 53;

// One more than 64 bits hold.
const WORDS: u128 = 1 << 64;

/// Returns bits such that all doubles from these on, up to those with a sign, are at least a sum of
/// prices in units of 2^unit. They are those of the least such double, if it isn't subnormal.
pub(crate) fn threshold(sum: i128, unit: u32) -> u64
    requires { IsUpTo (2 ^ 126 - 1) sum }
    ensures { (bits : ℕ) → result ≤ bits → bits < 2 ^ 63 → (sum *ℤ pos (2 ^ unit)) ≤ℤ value_of bits }
{
    let bits = rounded_up(sum, unit);
    if SIGN <= bits {
        return SIGN;
    }
    if !Scaled::of(bits).is_at_least(sum, unit) {
        return SIGN;
    }
    bits
}

// Returns the bits of the least double that is at least a sum of prices; no proof says so.
fn rounded_up(sum: i128, unit: u32) -> u64 {
    if sum <= 0 {
        return 0;
    }
    let size = sum.unsigned_abs();
    let bits = 128 - size.leading_zeros();
    let dropped = bits.saturating_sub(MANTISSA_BITS);
    let added = MANTISSA_BITS.saturating_sub(bits);
    let mantissa = (size.wrapping_sub(1) >> dropped).wrapping_add(1) << added;
    let shift = u64::from(unit)
        .wrapping_add(u64::from(dropped))
        .wrapping_sub(u64::from(added));
    shift
        .wrapping_mul(FRACTIONS)
        .wrapping_add((mantissa % WORDS) as u64)
}
