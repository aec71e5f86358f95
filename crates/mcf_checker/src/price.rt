//! Prices of 64 bits and of 128, as loops see either.
ghost use Rattle.std.specs.Prelude.{◌≡◌, List, map, ℤ, ⊤};
ghost use Rattle.std.proofs.lemmas.List.{map-id};
ghost use Rattle.std.proofs.Common.{sym};
ghost use Rattle.mcf_answer.specs.Ranges.{IsAmount};

/// A price as it is stored: `i64` or `i128`.
pub trait Price: Copy {
    // The number.
    ghost value: { Self → ℤ };

    // The numbers of a list.
    ghost values: { List Self → List ℤ };

    // That it is in the range of answers, which a number of 64 bits always is.
    ghost IsInRange: { Self → Type 0 };

    /// The number in 128 bits.
    fn widened(self) -> i128
        requires { IsInRange self }
        ensures value { result ≡ value self }
        ensures small { IsAmount result };

    ghost each: { (prices : List Self) → values prices ≡ map value prices };
}

impl Price for i64 {
    ghost value = { λ x. x };

    ghost values = { λ prices. prices };

    ghost IsInRange = { λ _. ⊤ };

    #[inline(always)]
    fn widened(self) -> i128 {
        i128::from(self)
    }

    ghost each = { λ prices. sym (map-id prices) };
}

impl Price for i128 {
    ghost value = { λ x. x };

    ghost values = { λ prices. prices };

    ghost IsInRange = { IsAmount };

    #[inline(always)]
    fn widened(self) -> i128 {
        self
    }

    ghost each = { λ prices. sym (map-id prices) };
}
