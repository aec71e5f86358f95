//! The capacity of routes, from their steps.
ghost use Rattle.std.specs.Prelude.{◌≡◌, ◌+◌, ◌^◌, ◌≤ℤ◌, pos, neg_ℤ};
ghost use Rattle.mcf_model.specs.Model.{room};

use crate::rows::Step;

// Returns the capacity of a step.
fn most_of(step: Step) -> i128
    ensures value { result ≡ step.most }
    ensures low { neg_ℤ (pos (2 ^ 63)) ≤ℤ result }
    ensures high { result ≤ℤ pos (2 ^ 63) }
{
    i128::from(step.most)
}

// Returns the capacity of the steps before the last.
fn rooms(own: &[Step]) -> i128
    ensures value { result ≡ room own.now (pos 0) }
    ensures low { neg_ℤ (pos (2 ^ 126)) ≤ℤ result }
    ensures high { result ≤ℤ pos (2 ^ 126) }
{
    let mut total = 0i128;
    for place in 0..own.len() {
        total += most_of(own[place]);
    }
    total
}

/// Returns the capacity of all steps of a route together, if `own` are those before the last, and
/// the last has the capacity `most`.
pub fn room(own: &[Step], most: i64) -> i128
    ensures value { result ≡ room own.now most }
    ensures low { neg_ℤ (pos (2 ^ 126 + 2 ^ 63)) ≤ℤ result }
    ensures high { result ≤ℤ pos (2 ^ 126 + 2 ^ 63) }
{
    rooms(own) + i128::from(most)
}
