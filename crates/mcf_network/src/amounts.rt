//! The amounts of a state in order: one byte each if no width is above 1, otherwise eight.

ghost use Rattle.std.specs.Prelude.{◌≡◌, ◌<◌, ◌≤◌, ◌≤ℤ◌, IfOk, OnErr, if◌then◌else◌, length, pos, replicate, slice_index_or, slice_set};
ghost use Rattle.mcf_network.specs.Nets.{width_limit};
ghost use Rattle.mcf_network.specs.Private.StoredAmounts.{amounts_in, limit_of, small_limit};

use mcf_text::{NoMemory, copies};
use std::alloc::Global;

/// Amounts in order, in one of two sizes.
///
/// If no width is above 1, as in the net of an assignment, they take an eighth of the memory.
#[derive(Drop)]
pub(crate) enum Amounts {
    Small(Vec<u8>),
    Large(Vec<i64>),
}

impl Amounts {
    /// This many amounts of 0.
    pub(crate) fn zero(alloc: Global, count: usize, are_small: bool) -> Result<Amounts, NoMemory>
        ensures value { IfOk result (λ made. amounts_in made ≡ replicate count (pos 0)) }
        ensures limit { IfOk result (λ made. limit_of made ≡ (if are_small then small_limit else width_limit)) }
        ensures wants { OnErr result (1 ≤ count) }
    {
        if are_small {
            let bytes = copies(alloc, count, 0)?;
            Ok(Amounts::Small(bytes))
        } else {
            let amounts = copies(alloc, count, 0)?;
            Ok(Amounts::Large(amounts))
        }
    }

    /// The amount at this place.
    #[inline(always)]
    pub(crate) fn get(&self, place: usize) -> i64
        requires { place < length (amounts_in self.now) }
        ensures { result ≡ slice_index_or (amounts_in self.now) place (pos 0) }
    {
        match self {
            Amounts::Small(bytes) => i64::from(bytes[place]),
            Amounts::Large(amounts) => amounts[place],
        }
    }

    /// Writes an amount at this place.
    #[inline(always)]
    pub(crate) fn set(&mut self, place: usize, amount: i64)
        requires inside { place < length (amounts_in self.old) }
        requires low { pos 0 ≤ℤ amount }
        requires high { amount ≤ℤ pos (limit_of self.old) }
        ensures value { amounts_in self.new ≡ slice_set (amounts_in self.old) place amount }
        ensures limit { limit_of self.new ≡ limit_of self.old }
    {
        match self {
            Amounts::Small(bytes) => bytes[place] = amount as u8,
            Amounts::Large(amounts) => amounts[place] = amount,
        }
    }
}
