//! Bytes that are cut in two.
ghost use Rattle.std.specs.Prelude.{◌≡◌, ℕ, Bool, position};
ghost use Rattle.mcf_decimal.specs.Cuts.{IsCut};

// Cuts bytes at the place of the first that passes a test; `None` if none does.
pub(crate) fn split_at(bytes: &[u8], place: Option<usize>) -> (&[u8], &[u8])
    ensures { (test : ℕ → Bool) → place ≡ position test bytes.now → IsCut test bytes.now result.0.now result.1.now }
{
    match place {
        Some(place) if place < bytes.len() => (&bytes[..place], &bytes[place + 1..]),
        _ => (bytes, &[]),
    }
}
