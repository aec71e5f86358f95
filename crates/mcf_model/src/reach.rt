//! The reach: an amount that no route without a limit needs to carry.
ghost use Rattle.std.specs.Prelude.{◌≡◌, ◌<ℤ◌, ◌≤ℤ◌, ◌^◌, pos};
ghost use Rattle.mcf_model.specs.Arcs.{reach_of};
ghost use Rattle.mcf_model.specs.Reach.{leasts, sizes};
ghost use Rattle.mcf_model.specs.Model.{size};

use crate::plan_model::PlanModel;
use crate::rows::RouteRow;

// Returns the absolute value of a number.
fn size(number: i64) -> i128
    ensures value { result ≡ size number }
    ensures low { pos 0 ≤ℤ result }
    ensures high { result ≤ℤ pos (2 ^ 63) }
{
    let wide = i128::from(number);
    if wide < 0 { -wide } else { wide }
}

// Returns the sum of the absolute values of supplies.
fn sizes(supplies: &[i64]) -> i128
    ensures value { result ≡ sizes supplies.now }
    ensures low { pos 0 ≤ℤ result }
    ensures high { result <ℤ pos (2 ^ 126) }
{
    let mut total = 0i128;
    for place in 0..supplies.len() {
        total += size(supplies[place]);
    }
    total
}

// Returns the absolute value of a route's least amount.
fn least_size(row: RouteRow) -> i128
    ensures value { result ≡ size row.least }
    ensures low { pos 0 ≤ℤ result }
    ensures high { result ≤ℤ pos (2 ^ 63) }
{
    size(row.least)
}

// Returns the sum of the absolute values of the least amounts of routes.
fn leasts(rows: &[RouteRow]) -> i128
    ensures value { result ≡ leasts rows.now }
    ensures low { pos 0 ≤ℤ result }
    ensures high { result <ℤ pos (2 ^ 126) }
{
    let mut total = 0i128;
    for place in 0..rows.len() {
        total += least_size(rows[place]);
    }
    total
}

/// Returns an amount greater than any route without a limit has to carry in its last step: 1 plus
/// the sum of the absolute values of all supplies and least amounts.
pub fn reach_of(model: &PlanModel) -> i128
    ensures { result ≡ reach_of model.now }
{
    let supplied = sizes(model.supplies());
    let least = leasts(model.tables().rows);
    1 + supplied + least
}
