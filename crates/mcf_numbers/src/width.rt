//! The width of a number.
ghost use Rattle.std.specs.Prelude.{◌≡◌, ◌^◌, ◌-◌, ◌≤◌, ℕ, ℤ, ◌+ℤ◌, ◌-ℤ◌};
ghost use Rattle.std.proofs.Common.{arith, refl};
ghost use Rattle.std.specs.Ordering.{int_cmp};
ghost use Rattle.mcf_flows.specs.WellFormed.{IsUpTo};

use std::cmp::Ordering;

/// An integer as it is stored: `i64` or `i128`.
pub trait Width: Copy {
    // The number.
    ghost value: { Self → ℤ };

    // The integer that stores a number.
    ghost stored: { ℤ → Self };

    // It is the integer that stored the number.
    ghost undoes: { (x : Self) → stored (value x) ≡ x };

    // The greatest absolute value of a number.
    ghost room: { ℕ };

    /// The integer that stores this number.
    fn of(number: i64) -> Self
        ensures { value result ≡ number };

    /// The number in 128 bits.
    fn wide(self) -> i128
        ensures { result ≡ value self };

    /// The sum.
    fn plus(self, other: Self) -> Self
        requires { IsUpTo room (value self +ℤ value other) }
        ensures { value result ≡ value self +ℤ value other };

    /// The difference.
    fn minus(self, other: Self) -> Self
        requires { IsUpTo room (value self -ℤ value other) }
        ensures { value result ≡ value self -ℤ value other };

    /// The order of the two.
    fn compare(self, other: Self) -> Ordering
        ensures { result ≡ int_cmp (value self) (value other) };

    // The room is at least that of 64 bits.
    ghost least_room: { 2 ^ 63 - 1 ≤ room };
}

impl Width for i64 {
    ghost value = { λ x. x };

    ghost stored = { λ x. x };

    ghost undoes = { λ x. refl };

    ghost room = { 2 ^ 63 - 1 };

    #[inline(always)]
    fn of(number: i64) -> i64 {
        number
    }

    #[inline(always)]
    fn wide(self) -> i128 {
        i128::from(self)
    }

    #[inline(always)]
    fn plus(self, other: i64) -> i64 {
        self + other
    }

    #[inline(always)]
    fn minus(self, other: i64) -> i64 {
        self - other
    }

    #[inline(always)]
    fn compare(self, other: i64) -> Ordering {
        self.cmp(&other)
    }

    ghost least_room = { Prim.omega arith };
}

impl Width for i128 {
    ghost value = { λ x. x };

    ghost stored = { λ x. x };

    ghost undoes = { λ x. refl };

    ghost room = { 2 ^ 127 - 1 };

    #[inline(always)]
    fn of(number: i64) -> i128 {
        i128::from(number)
    }

    #[inline(always)]
    fn wide(self) -> i128 {
        self
    }

    #[inline(always)]
    fn plus(self, other: i128) -> i128 {
        self + other
    }

    #[inline(always)]
    fn minus(self, other: i128) -> i128 {
        self - other
    }

    #[inline(always)]
    fn compare(self, other: i128) -> Ordering {
        self.cmp(&other)
    }

    ghost least_room = { Prim.omega arith };
}
