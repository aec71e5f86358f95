//! The figures of one route, from its numbers.
ghost use Rattle.std.specs.Prelude.{◌≡◌, ◌*◌, ◌-ℤ◌, ◌≤ℤ◌, ◌↔◌, IsTrue, pos, true};
ghost use Rattle.std.specs.Int.{int_max};
ghost use Rattle.std.specs.List.{All};
ghost use Rattle.mcf_flows.specs.WellFormed.{IsUpTo};
ghost use Rattle.mcf_model.specs.Model.{charged, room};
ghost use Rattle.mcf_model.specs.Tables.{route_with};
ghost use Rattle.mcf_figures.specs.Figures.{figure_limit, free, saving_if};
ghost use Rattle.mcf_figures.specs.Private.Units.{dearer_by, unit_cost};
ghost use Rattle.mcf_figures.specs.Told.{is_up_to};

use crate::loose::{fits_more, unit_cost};
use mcf_model::{RouteRow, Step, room};

// No price and no amount is further from 0 than this.
const LIMIT: i128 = 1_000_000_000_000_000_000_000_000_000_000_000_000;

/// Returns whether a number is within the limit of figures.
pub(crate) fn is_small(number: i128) -> bool
    ensures limit { IsTrue result ↔ IsUpTo figure_limit number }
    ensures test { result ≡ is_up_to figure_limit number }
{
    -LIMIT <= number && number <= LIMIT
}

// Returns the absolute value of a number.
fn size(number: i128) -> i128
    requires { IsUpTo (2 * figure_limit) number }
    ensures value { result ≡ charged true number }
    ensures small { IsUpTo (2 * figure_limit) result }
{
    if number < 0 { -number } else { number }
}

// Returns the amount for which a number is charged: on a route both ways its absolute value.
fn charged(both: bool, number: i128) -> i128
    requires { IsUpTo (2 * figure_limit) number }
    ensures value { result ≡ charged both number }
    ensures small { IsUpTo (2 * figure_limit) result }
{
    if both { size(number) } else { number }
}

// Returns how much more a route may carry whose last step has the capacity `most`.
fn left(own: &[Step], most: i64, both: bool, carried: i128) -> i128
    requires { IsUpTo figure_limit carried }
    ensures { result ≡ room own.now most -ℤ charged both carried }
{
    room(own, most) - charged(both, carried)
}

/// Returns how much more a route may carry, or `None` without a limit.
pub(crate) fn free(row: RouteRow, own: &[Step], carried: i128) -> Option<i128>
    requires { IsUpTo figure_limit carried }
    ensures { result ≡ free (route_with row own.now) carried }
{
    match row.last_most {
        Some(most) => Some(left(own, most, row.both, carried)),
        None => None,
    }
}

// Returns how far the price drop is above the cost of a unit, or 0.
fn gain(both: bool, drop: i128, last_cost: i64) -> i128
    requires { IsUpTo (2 * figure_limit) drop }
    ensures { result ≡ int_max (pos 0) (charged both drop -ℤ last_cost) }
{
    let above = charged(both, drop) - i128::from(last_cost);
    if above < 0 { 0 } else { above }
}

/// Returns what one more unit of room on a route saves, if the price drops by so much on it.
pub(crate) fn saving(row: RouteRow, drop: i128) -> i128
    requires { IsUpTo (2 * figure_limit) drop }
    ensures { result ≡ saving_if row.last_most (charged row.both drop -ℤ row.last_cost) }
{
    match row.last_most {
        Some(_) => gain(row.both, drop, row.last_cost),
        None => 0,
    }
}

// Returns how far the cost of one unit more than an amount is above the price drop, which is that
// of the direction in which the route is used.
fn above(row: RouteRow, own: &[Step], amount: i128, drop: i128) -> i128
    requires takes { All (λ s. pos 0 ≤ℤ s.most) own.now }
    requires drop { IsUpTo (2 * figure_limit) drop }
    ensures { result ≡ unit_cost own.now row.last_cost amount -ℤ drop }
{
    i128::from(unit_cost(own, row.last_cost, amount)) - drop
}

/// Returns by how much a plan becomes dearer at least if a route has to carry one unit more, if the
/// price drops by so much on it, or `None` if the route is full.
pub(crate) fn dearer(row: RouteRow, own: &[Step], carried: i128, drop: i128) -> Option<i128>
    requires takes { All (λ s. pos 0 ≤ℤ s.most) own.now }
    requires carried { IsUpTo figure_limit carried }
    requires drop { IsUpTo (2 * figure_limit) drop }
    ensures { result ≡ dearer_by (route_with row own.now) drop carried }
{
    let amount = charged(row.both, carried);
    let fits = fits_more(own, row.last_most, amount);
    let size = charged(row.both, drop);
    if fits {
        Some(above(row, own, amount, size))
    } else {
        None
    }
}
