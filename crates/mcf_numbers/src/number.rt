//! Numbers of a width.
ghost use Rattle.std.specs.Prelude.{◌≡◌, ℤ, ◌+ℤ◌, ◌-ℤ◌, IfOk};
ghost use Rattle.std.proofs.Common.{ap, rules};
ghost use Rattle.std.specs.Cmp.{partial_order_from_own_ties};
ghost use Rattle.std.specs.Cmp.Rules.{comparing};
ghost use Rattle.std.specs.Ordering.{as_partial_cmp, int_cmp, int_eq};
ghost use Rattle.mcf_flows.specs.WellFormed.{IsUpTo};

use crate::width::Width;
use std::alloc::AllocError;
use std::cmp::Ordering;
use std::marker::Model;

/// A number stored in one width. Clauses see the number.
pub struct Number<W: Width> {
    stored: W,
}

impl<W: Width> Copy for Number<W> {}

impl<W: Width> Clone for Number<W> {
    /// The same number, without any allocation.
    fn clone(&self) -> Result<Number<W>, AllocError>
        ensures { IfOk result (λ made. made ≡ self.now) }
    {
        Ok(*self)
    }
}

impl<W: Width> Model for Number<W> {
    ghost Value = { ℤ };

    ghost view = { λ n. W.value n.stored };

    ghost inverse = { λ z. record { stored = W.stored z } };

    ghost inverse_ok = { λ n h. ap (λ x. record { stored = x }) (W.undoes n.stored) };
}

impl<W: Width> Number<W> {
    /// A number of 64 bits.
    #[inline(always)]
    pub fn of(number: i64) -> Number<W>
        ensures { result ≡ number }
    {
        Number {
            stored: W::of(number),
        }
    }

    /// The number in 128 bits.
    #[inline(always)]
    pub fn wide(self) -> i128
        ensures { result ≡ self }
    {
        self.stored.wide()
    }

    /// The sum, if it fits the width.
    #[inline(always)]
    pub fn plus(self, other: Number<W>) -> Number<W>
        requires { IsUpTo W.room (self +ℤ other) }
        ensures { result ≡ self +ℤ other }
    {
        Number {
            stored: self.stored.plus(other.stored),
        }
    }

    /// The difference, if it fits the width.
    #[inline(always)]
    pub fn minus(self, other: Number<W>) -> Number<W>
        requires { IsUpTo W.room (self -ℤ other) }
        ensures { result ≡ self -ℤ other }
    {
        Number {
            stored: self.stored.minus(other.stored),
        }
    }
}

impl Number<i64> {
    /// The number.
    #[inline(always)]
    pub fn narrow(self) -> i64
        ensures { result ≡ self }
    {
        let Number { stored: number } = self;
        number
    }
}

impl Number<i128> {
    /// A number of 128 bits.
    #[inline(always)]
    pub fn of_wide(number: i128) -> Number<i128>
        ensures { result ≡ number }
    {
        Number { stored: number }
    }
}

impl<W: Width> PartialEq for Number<W> {
    ghost eq = { int_eq };

    ghost laws = { Prim.search (comparing, rules) };

    #[inline(always)]
    fn eq(&self, other: &Number<W>) -> bool {
        self.cmp(other).is_eq()
    }
}

impl<W: Width> Eq for Number<W> {
    ghost laws = { Prim.search (comparing, rules) };
}

impl<W: Width> PartialOrd for Number<W> {
    ghost partial_cmp = { as_partial_cmp int_cmp };

    ghost laws = { partial_order_from_own_ties (Prim.search (comparing, rules)) (Prim.search (comparing, rules)) };

    #[inline(always)]
    fn partial_cmp(&self, other: &Number<W>) -> Option<Ordering> {
        Some(self.cmp(other))
    }
}

impl<W: Width> Ord for Number<W> {
    ghost cmp = { int_cmp };

    ghost total = { Prim.search (comparing, rules) };

    ghost matches_partial_cmp = { Prim.search (comparing, rules) };

    ghost matches_eq = { Prim.search (comparing, rules) };

    #[inline(always)]
    fn cmp(&self, other: &Number<W>) -> Ordering {
        self.stored.compare(other.stored)
    }
}
