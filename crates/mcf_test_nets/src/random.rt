//! Numbers without a pattern.
ghost use Rattle.std.specs.Prelude.{◌<◌};

/// The next of some numbers without a pattern.
pub fn next(seed: u64) -> u64 {
    seed.wrapping_mul(6364136223846793005)
        .wrapping_add(1442695040888963407)
}

/// A number from 0 to the limit less 1, by a seed.
pub fn below(seed: u64, limit: u32) -> u32
    requires { 0 < limit }
    ensures { result < limit }
{
    ((seed >> 33) % u64::from(limit)) as u32
}
