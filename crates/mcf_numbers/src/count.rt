//! Counts that only clauses see.

ghost use Rattle.std.specs.Prelude.{◌≡◌, ℕ, ◌+◌};
ghost use Rattle.std.specs.Borrow.{ftrue};

use std::marker::Model;

/// A count that grows by one at a time. It takes no bytes and no time when the program runs:
/// clauses see its number, which has no bound.
#[derive(Drop)]
pub struct Count {
    pub ghost number: { ℕ },
}

impl Model for Count {
    ghost also_owns = { λ _. ftrue };
}

impl Count {
    /// The count 0.
    pub fn zero() -> Count
        ensures { result.number ≡ 0 }
    {
        Count {}
    }

    /// Counts one more.
    #[inline(always)]
    pub fn add_one(&mut self)
        ensures { self.new.number ≡ self.old.number + 1 }
    {
        *self = self.and_one();
    }

    // The count with one more.
    #[inline(always)]
    fn and_one(&self) -> Count
        ensures { result.number ≡ self.now.number + 1 }
    {
        Count {}
    }
}
