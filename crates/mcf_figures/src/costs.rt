//! The cost of what a route carries.
ghost use Rattle.std.specs.Prelude.{◌≡◌, ◌*ℤ◌, ◌≤ℤ◌, pos};
ghost use Rattle.std.specs.Int.{int_min};
ghost use Rattle.std.specs.List.{All};
ghost use Rattle.mcf_flows.specs.WellFormed.{IsUpTo};
ghost use Rattle.mcf_model.specs.Model.{charge, charged};
ghost use Rattle.mcf_model.specs.Tables.{route_with};
ghost use Rattle.mcf_figures.specs.Told.{cost_limit, cost_told, is_up_to};

use mcf_model::{RouteRow, Step};

// The greatest amount whose cost is told.
const COST_LIMIT: i128 = 1_000_000_000_000_000_000;

// Returns how much of an amount a step takes.
fn taken(step: Step, amount: i128) -> i128
    ensures { result ≡ int_min amount step.most }
{
    let most = i128::from(step.most);
    if amount < most { amount } else { most }
}

// Returns the cost of an amount, each unit of which costs so much.
fn times(cost: i64, amount: i128) -> i128
    requires { IsUpTo cost_limit amount }
    ensures { result ≡ cost *ℤ amount }
{
    i128::from(cost) * amount
}

// Returns the cost of an amount that fills the steps of a route in order.
fn charge(own: &[Step], last_cost: i64, amount: i128) -> i128
    requires takes { All (λ s. pos 0 ≤ℤ s.most) own.now }
    requires small { IsUpTo cost_limit amount }
    ensures { result ≡ charge own.now last_cost amount }
{
    let mut rest = amount;
    let mut total = 0i128;
    for place in 0..own.len() {
        let part = taken(own[place], rest);
        total += times(own[place].cost, part);
        rest -= part;
    }
    total + times(last_cost, rest)
}

// Returns the amount for which a route is charged that carries an amount: on a route both ways its
// absolute value.
fn charged(both: bool, amount: i128) -> i128
    requires { IsUpTo cost_limit amount }
    ensures value { result ≡ charged both amount }
    ensures small { IsUpTo cost_limit result }
{
    if both && amount < 0 { -amount } else { amount }
}

// Returns whether the cost of an amount is told.
fn is_told(amount: i128) -> bool
    ensures { result ≡ is_up_to cost_limit amount }
{
    -COST_LIMIT <= amount && amount <= COST_LIMIT
}

/// Returns the cost of what a route carries, or `None` if it carries more than 10^18 units.
pub(crate) fn route_cost(row: RouteRow, own: &[Step], carried: i128) -> Option<i128>
    requires { All (λ s. pos 0 ≤ℤ s.most) own.now }
    ensures { result ≡ cost_told (route_with row own.now) carried }
{
    let told = is_told(carried);
    if told {
        let amount = charged(row.both, carried);
        Some(charge(own, row.last_cost, amount))
    } else {
        None
    }
}
