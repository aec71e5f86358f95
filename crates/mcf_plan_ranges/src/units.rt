//! One unit more, or one less, on a route.
ghost use Rattle.std.specs.Prelude.{◌≡◌, ◌+◌, ◌+ℤ◌, ◌-ℤ◌, ◌≤ℤ◌, None, Some, if◌then◌else◌, int_lt, neg_ℤ, pos};
ghost use Rattle.std.specs.List.{All};
ghost use Rattle.mcf_figures.specs.Figures.{figure_limit, fits, may_carry};
ghost use Rattle.mcf_flows.specs.Limits.{limits};
ghost use Rattle.mcf_flows.specs.Network.{when};
ghost use Rattle.mcf_flows.specs.WellFormed.{IsUpTo};
ghost use Rattle.mcf_instance.specs.Arrays.{arc_of_numbers};
ghost use Rattle.mcf_model.specs.Model.{charge, charged, route_cost};
ghost use Rattle.mcf_model.specs.Tables.{route_with};
ghost use Rattle.mcf_plan_ranges.specs.PlanRanges.{HasSmallCosts};
ghost use Rattle.mcf_plan_ranges.specs.Private.Units.{next, unit_arc};

use mcf_instance::RawArc;
use mcf_model::{RouteRow, Step, room};

// Returns the amount with one unit more, or one less.
fn next(less: bool, amount: i128) -> i128
    requires { IsUpTo (figure_limit + 1) amount }
    ensures value { result ≡ next less amount }
    ensures small { IsUpTo (figure_limit + 2) result }
{
    if less { amount - 1 } else { amount + 1 }
}

// Returns a number with the other sign.
fn turned(number: i128) -> i128
    requires { IsUpTo (figure_limit + 2) number }
    ensures value { result ≡ neg_ℤ number }
    ensures small { IsUpTo (figure_limit + 2) result }
{
    -number
}

// Returns the amount for which a route is charged that carries an amount: on a route both ways its
// absolute value.
fn charged(both: bool, amount: i128) -> i128
    requires { IsUpTo (figure_limit + 2) amount }
    ensures { result ≡ charged both amount }
{
    if both && amount < 0 { -amount } else { amount }
}

// Returns whether an amount fits the steps of a route.
fn fits(own: &[Step], last_most: Option<i64>, amount: i128) -> bool
    ensures { result ≡ fits own.now last_most amount }
{
    match last_most {
        Some(most) => amount <= room(own, most),
        None => true,
    }
}

// Returns whether a route may carry an amount.
fn may_carry(row: RouteRow, own: &[Step], amount: i128) -> bool
    requires { IsUpTo (figure_limit + 2) amount }
    ensures { result ≡ may_carry (route_with row own.now) amount }
{
    let amount = charged(row.both, amount);
    let enough = i128::from(row.least) <= amount;
    let fits = fits(own, row.last_most, amount);
    enough && fits
}

/// Returns whether a route that carries an amount may carry one unit more, or one less.
pub(crate) fn may_change(row: RouteRow, own: &[Step], less: bool, amount: i128) -> bool
    requires { IsUpTo figure_limit amount }
    ensures { result ≡ may_carry (route_with row own.now) (next less amount) }
{
    let changed = next(less, amount);
    may_carry(row, own, changed)
}

// Returns what is left of an amount after a step is filled, or `None` if one unit more fits it.
fn past(step: Step, amount: i128) -> Option<i128>
    requires { pos 0 ≤ℤ step.most }
    ensures { result ≡ if int_lt amount step.most then None else Some (amount -ℤ step.most) }
{
    let most = i128::from(step.most);
    if amount < most {
        None
    } else {
        Some(amount - most)
    }
}

// Returns the cost of one unit more than an amount.
fn unit_cost(own: &[Step], last_cost: i64, amount: i128) -> i64
    requires takes { All (λ s. pos 0 ≤ℤ s.most) own.now }
    requires costs { All (λ s. IsUpTo limits.cost s.cost) own.now }
    requires last { IsUpTo limits.cost last_cost }
    ensures value { result ≡ charge own.now last_cost (amount +ℤ pos 1) -ℤ charge own.now last_cost amount }
    ensures small { IsUpTo limits.cost result }
{
    let mut rest = amount;
    for place in 0..own.len() {
        match past(own[place], rest) {
            None => return own[place].cost,
            Some(left) => rest = left,
        }
    }
    last_cost
}

// Returns the cost of the last unit of an amount with the other sign: what is saved without it.
fn saved_cost(own: &[Step], last_cost: i64, amount: i128) -> i64
    requires takes { All (λ s. pos 0 ≤ℤ s.most) own.now }
    requires costs { All (λ s. IsUpTo limits.cost s.cost) own.now }
    requires last { IsUpTo limits.cost last_cost }
    requires small { IsUpTo figure_limit amount }
    ensures value { result ≡ charge own.now last_cost (amount -ℤ pos 1) -ℤ charge own.now last_cost amount }
    ensures small { IsUpTo limits.cost result }
{
    let before = next(true, amount);
    let cost = unit_cost(own, last_cost, before);
    -cost
}

// Returns what one unit more costs on a route that carries an amount.
fn more_cost(row: RouteRow, own: &[Step], amount: i128) -> i64
    requires takes { All (λ s. pos 0 ≤ℤ s.most) own.now }
    requires costs { HasSmallCosts (route_with row own.now) }
    requires small { IsUpTo figure_limit amount }
    ensures value { result ≡ route_cost (route_with row own.now) (amount +ℤ pos 1) -ℤ route_cost (route_with row own.now) amount }
    ensures small { IsUpTo limits.cost result }
{
    if row.both && amount < 0 {
        let size = turned(amount);
        saved_cost(own, row.last_cost, size)
    } else {
        unit_cost(own, row.last_cost, amount)
    }
}

// Returns what one unit less costs on a route that carries an amount.
fn less_cost(row: RouteRow, own: &[Step], amount: i128) -> i64
    requires takes { All (λ s. pos 0 ≤ℤ s.most) own.now }
    requires costs { HasSmallCosts (route_with row own.now) }
    requires small { IsUpTo figure_limit amount }
    ensures value { result ≡ route_cost (route_with row own.now) (amount -ℤ pos 1) -ℤ route_cost (route_with row own.now) amount }
    ensures small { IsUpTo limits.cost result }
{
    if row.both && amount <= 0 {
        let size = turned(amount);
        unit_cost(own, row.last_cost, size)
    } else {
        saved_cost(own, row.last_cost, amount)
    }
}

// Returns what one unit more, or one less, costs on a route that carries an amount.
fn next_cost(row: RouteRow, own: &[Step], less: bool, amount: i128) -> i64
    requires takes { All (λ s. pos 0 ≤ℤ s.most) own.now }
    requires costs { HasSmallCosts (route_with row own.now) }
    requires small { IsUpTo figure_limit amount }
    ensures value { result ≡ route_cost (route_with row own.now) (next less amount) -ℤ route_cost (route_with row own.now) amount }
    ensures small { IsUpTo limits.cost result }
{
    if less {
        less_cost(row, own, amount)
    } else {
        more_cost(row, own, amount)
    }
}

// Returns the capacity of a unit's arc.
fn unit_cap(may: bool) -> i64
    ensures { result ≡ when may (pos 1) }
{
    if may { 1 } else { 0 }
}

/// Returns the arc of one unit more, or of one less, on a route that carries an amount.
pub(crate) fn unit_arc(row: RouteRow, own: &[Step], less: bool, amount: i128) -> RawArc
    requires takes { All (λ s. pos 0 ≤ℤ s.most) own.now }
    requires costs { HasSmallCosts (route_with row own.now) }
    requires small { IsUpTo figure_limit amount }
    ensures { arc_of_numbers result ≡ unit_arc less (route_with row own.now) amount }
{
    let may = may_change(row, own, less, amount);
    let cap = unit_cap(may);
    let cost = next_cost(row, own, less, amount);
    if less {
        RawArc {
            src: row.head,
            dst: row.tail,
            low: 0,
            cap,
            cost,
        }
    } else {
        RawArc {
            src: row.tail,
            dst: row.head,
            low: 0,
            cap,
            cost,
        }
    }
}
