//! A whole number of units compared with a sum of prices, exactly.
ghost use Rattle.std.specs.Prelude.{◌≡◌, ◌-◌, ◌<◌, ◌≤◌, ◌^◌, ◌*ℤ◌, ◌≤ℤ◌, ◌↔◌, pos, IsTrue, unsigned_abs};
ghost use Rattle.mcf_flows.specs.WellFormed.{IsUpTo};
ghost use Rattle.mcf_matrix_doubles.specs.Rounding.{rounded_down};

use crate::double::Scaled;

// How many places a mantissa may be shifted within 128 bits.
const PLACES: u32 = 74;

// One more than a mantissa may be.
const MANTISSAS: i128 = 1 << 53;

impl Scaled {
    /// Whether a sum of prices, in units of 2^unit, is at most the number. It is exact for all
    /// doubles, however far apart their exponents lie.
    pub fn is_at_least(self, sum: i128, unit: u32) -> bool
        requires sum { IsUpTo (2 ^ 126 - 1) sum }
        requires mantissa { IsUpTo (2 ^ 53 - 1) self.mantissa }
        requires normal { 0 < self.shift → 2 ^ 52 ≤ unsigned_abs self.mantissa }
        ensures { IsTrue result ↔ ((sum *ℤ pos (2 ^ unit)) ≤ℤ (self.mantissa *ℤ pos (2 ^ self.shift))) }
    {
        if unit <= self.shift {
            reaches_up(sum, self.mantissa, self.shift - unit)
        } else {
            reaches_down(sum, self.mantissa, unit - self.shift)
        }
    }

    /// Whether a sum of prices, in units of 2^unit, is at least the number.
    fn is_at_most(self, sum: i128, unit: u32) -> bool
        requires sum { IsUpTo (2 ^ 126 - 1) sum }
        requires mantissa { IsUpTo (2 ^ 53 - 1) self.mantissa }
        requires normal { 0 < self.shift → 2 ^ 52 ≤ unsigned_abs self.mantissa }
        ensures { IsTrue result ↔ ((self.mantissa *ℤ pos (2 ^ self.shift)) ≤ℤ (sum *ℤ pos (2 ^ unit))) }
    {
        let negated = Scaled {
            mantissa: -self.mantissa,
            shift: self.shift,
        };
        negated.is_at_least(-sum, unit)
    }

    /// Whether a sum of prices, in units of 2^unit, is the number.
    pub fn is_exactly(self, sum: i128, unit: u32) -> bool
        requires sum { IsUpTo (2 ^ 126 - 1) sum }
        requires mantissa { IsUpTo (2 ^ 53 - 1) self.mantissa }
        requires normal { 0 < self.shift → 2 ^ 52 ≤ unsigned_abs self.mantissa }
        ensures { IsTrue result ↔ (self.mantissa *ℤ pos (2 ^ self.shift) ≡ sum *ℤ pos (2 ^ unit)) }
    {
        self.is_at_least(sum, unit) && self.is_at_most(sum, unit)
    }

    /// Whether a sum of prices, in units of 2^unit, is the number rounded down to such units.
    pub(crate) fn is_rounded(self, sum: i128, unit: u32) -> bool
        requires sum { IsUpTo (2 ^ 126 - 2) sum }
        requires mantissa { IsUpTo (2 ^ 53 - 1) self.mantissa }
        requires normal { 0 < self.shift → 2 ^ 52 ≤ unsigned_abs self.mantissa }
        ensures { IsTrue result ↔ (rounded_down unit (self.mantissa *ℤ pos (2 ^ self.shift)) ≡ sum *ℤ pos (2 ^ unit)) }
    {
        let reaches = self.is_at_least(sum, unit);
        let reaches_more = self.is_at_least(sum + 1, unit);
        reaches && !reaches_more
    }
}

// 2^places.
fn power(places: u32) -> i128
    requires { places ≤ 74 }
    ensures { result ≡ pos (2 ^ places) }
{
    (1u128 << places) as i128
}

// A number times 2^places, within 128 bits.
fn times_power(number: i128, places: u32) -> i128
    requires number { IsUpTo (2 ^ 53) number }
    requires places { places < 74 }
    ensures { result ≡ number *ℤ pos (2 ^ places) }
{
    number * power(places)
}

// Whether the sum is at most the mantissa, moved up by so many places.
fn reaches_up(sum: i128, mantissa: i64, places: u32) -> bool
    requires sum { IsUpTo (2 ^ 126 - 1) sum }
    requires mantissa { IsUpTo (2 ^ 53 - 1) mantissa }
    requires normal { 0 < places → 2 ^ 52 ≤ unsigned_abs mantissa }
    ensures { IsTrue result ↔ (sum ≤ℤ (mantissa *ℤ pos (2 ^ places))) }
{
    if places < PLACES {
        sum <= times_power(i128::from(mantissa), places)
    } else {
        0 < mantissa
    }
}

// Whether the sum, moved up by so many places, is at most the mantissa.
fn reaches_down(sum: i128, mantissa: i64, places: u32) -> bool
    requires { IsUpTo (2 ^ 53 - 1) mantissa }
    ensures { IsTrue result ↔ ((sum *ℤ pos (2 ^ places)) ≤ℤ mantissa) }
{
    if MANTISSAS < sum {
        return false;
    }
    if sum < -MANTISSAS {
        return true;
    }
    if places < PLACES {
        return times_power(sum, places) <= i128::from(mantissa);
    }
    if sum < 0 {
        return true;
    }
    if 0 < sum {
        return false;
    }
    0 <= mantissa
}
