//! Which routes are loose, by the cost of one unit more.
ghost use Rattle.std.specs.Prelude.{◌≡◌, ◌*◌, ◌-ℤ◌, ◌≤ℤ◌, None, Option, Some, if◌then◌else◌, int_lt, pos, neg_ℤ, true};
ghost use Rattle.std.specs.List.{All};
ghost use Rattle.std.specs.Ordering.{int_eq};
ghost use Rattle.mcf_flows.specs.WellFormed.{IsUpTo};
ghost use Rattle.mcf_model.specs.Tables.{route_with};
ghost use Rattle.mcf_figures.specs.Figures.{figure_limit};
ghost use Rattle.mcf_figures.specs.Private.Units.{all_four, fits_more, is_between, is_between_both, is_loose, is_still, unit_cost};

use mcf_model::{RouteRow, Step, room};

// Returns what is left of an amount after a step is filled, or `None` if one unit more fits it.
fn past(step: Step, amount: i128) -> Option<i128>
    requires { pos 0 ≤ℤ step.most }
    ensures { result ≡ if int_lt amount step.most then None else Some (amount -ℤ step.most) }
{
    let most = i128::from(step.most);
    if amount < most {
        None
    } else {
        Some(amount - most)
    }
}

/// Returns the cost of one unit more than an amount.
pub(crate) fn unit_cost(own: &[Step], last_cost: i64, amount: i128) -> i64
    requires { All (λ s. pos 0 ≤ℤ s.most) own.now }
    ensures { result ≡ unit_cost own.now last_cost amount }
{
    let mut rest = amount;
    for place in 0..own.len() {
        match past(own[place], rest) {
            None => return own[place].cost,
            Some(left) => rest = left,
        }
    }
    last_cost
}

// Returns whether one unit more than an amount costs so much.
fn costs(own: &[Step], last_cost: i64, amount: i128, slope: i128) -> bool
    requires { All (λ s. pos 0 ≤ℤ s.most) own.now }
    ensures { result ≡ int_eq (unit_cost own.now last_cost amount) slope }
{
    i128::from(unit_cost(own, last_cost, amount)) == slope
}

/// Returns whether one unit more than an amount fits the steps.
pub(crate) fn fits_more(own: &[Step], last_most: Option<i64>, amount: i128) -> bool
    ensures { result ≡ fits_more own.now last_most amount }
{
    match last_most {
        Some(most) => amount < room(own, most),
        None => true,
    }
}

// Returns whether all four hold.
fn all_four(first: bool, second: bool, third: bool, fourth: bool) -> bool
    ensures { result ≡ all_four first second third fourth }
{
    first && second && third && fourth
}

// Returns whether an amount is above the least.
fn is_above(least: i64, amount: i128) -> bool
    ensures { result ≡ int_lt least amount }
{
    i128::from(least) < amount
}

// Returns the amount without its last unit.
fn without_last(amount: i128) -> i128
    requires { IsUpTo figure_limit amount }
    ensures { result ≡ amount -ℤ pos 1 }
{
    amount - 1
}

// Returns whether one unit more than an amount, and its last unit, cost so much, and there may be
// one more and one less.
fn is_between(row: RouteRow, own: &[Step], least: i64, amount: i128, slope: i128) -> bool
    requires takes { All (λ s. pos 0 ≤ℤ s.most) own.now }
    requires small { IsUpTo figure_limit amount }
    ensures { result ≡ is_between own.now row.last_most row.last_cost least amount slope }
{
    let above = is_above(least, amount);
    let fits = fits_more(own, row.last_most, amount);
    let next = costs(own, row.last_cost, amount, slope);
    let before = without_last(amount);
    let last = costs(own, row.last_cost, before, slope);
    all_four(above, fits, next, last)
}

// Returns whether a first unit either way costs nothing, and the price doesn't drop.
fn is_still(row: RouteRow, own: &[Step], drop: i128) -> bool
    requires { All (λ s. pos 0 ≤ℤ s.most) own.now }
    ensures { result ≡ is_still own.now row.last_most row.last_cost drop }
{
    let fits = fits_more(own, row.last_most, 0);
    let next = costs(own, row.last_cost, 0, 0);
    all_four(true, fits, next, drop == 0)
}

/// Returns whether a number is 0.
pub(crate) fn is_zero(number: i128) -> bool
    ensures { result ≡ int_eq number (pos 0) }
{
    number == 0
}

// Returns whether a number is below 0.
fn is_below_zero(number: i128) -> bool
    ensures { result ≡ int_lt number (pos 0) }
{
    number < 0
}

// Returns a number with the other sign.
fn turned(number: i128) -> i128
    requires { IsUpTo (2 * figure_limit) number }
    ensures { result ≡ neg_ℤ number }
{
    -number
}

// Returns whether a route both ways is loose where it carries an amount.
fn is_between_both(row: RouteRow, own: &[Step], carried: i128, drop: i128) -> bool
    requires takes { All (λ s. pos 0 ≤ℤ s.most) own.now }
    requires small { IsUpTo figure_limit carried }
    requires small_drop { IsUpTo (2 * figure_limit) drop }
    ensures { result ≡ is_between_both own.now row.last_most row.last_cost carried drop }
{
    let zero = is_zero(carried);
    let below = is_below_zero(carried);
    if zero {
        return is_still(row, own, drop);
    }
    if below {
        let amount = turned(carried);
        let slope = turned(drop);
        is_between(row, own, 0, amount, slope)
    } else {
        is_between(row, own, 0, carried, drop)
    }
}

/// Returns whether a route that carries an amount may carry one unit more, and one less, at the
/// same reduced cost, if the price drops by so much on it.
pub(crate) fn is_loose(row: RouteRow, own: &[Step], carried: i128, drop: i128) -> bool
    requires takes { All (λ s. pos 0 ≤ℤ s.most) own.now }
    requires small { IsUpTo figure_limit carried }
    requires small_drop { IsUpTo (2 * figure_limit) drop }
    ensures { result ≡ is_loose (route_with row own.now) drop carried }
{
    if row.both {
        is_between_both(row, own, carried, drop)
    } else {
        is_between(row, own, row.least, carried, drop)
    }
}
