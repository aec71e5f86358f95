//! Exact decimals.
ghost use Rattle.std.specs.Prelude.{◌≡◌, ◌≤◌, FitsSigned};
ghost use Rattle.std.specs.Int.{w64};
ghost use Rattle.std.specs.Option.{SomeIff};
ghost use Rattle.mcf_decimal.specs.Decimals.{at_scale};

/// An exact decimal: `mantissa` times 10 to the power of minus `places`.
#[derive(Clone, Copy, Debug, PartialEq, Eq)]
pub struct Decimal {
    /// All its digits, as one whole number.
    pub mantissa: i128,
    /// How many of these digits are decimals.
    pub places: u32,
}

impl Decimal {
    /// The decimal as a whole number of units of 10 to the power of minus `scale`, or `None` if it
    /// has more places than that, or the number doesn't fit 64 bits.
    pub fn at_scale(self, scale: u32) -> Option<i64>
        ensures { SomeIff result ((self.places ≤ scale) × FitsSigned w64 (at_scale scale self)) (at_scale scale self) }
    {
        let zeros = scale.checked_sub(self.places)?;
        if self.mantissa == 0 {
            return Some(0);
        }
        let power = 10i128.checked_pow(zeros)?;
        let product = self.mantissa.checked_mul(power)?;
        i64::try_from(product).ok()
    }
}
