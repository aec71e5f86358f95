//! What the tables say, in whole units.
ghost use Rattle.std.specs.Prelude.{◌≡◌, ◌<◌, ◌≤◌, ◌^◌, length};
ghost use Rattle.mcf_reading.specs.Reading.{route_at};
ghost use Rattle.mcf_model.specs.Bottlenecks.{limit_or_zero};
ghost use Rattle.mcf_units.specs.Wholes.{bounds_in, is_whole, last_step, place_in, place_number, policy_in, row_in, step_in, whole, whole_limit};

use crate::scales::Scales;
use crate::terms::Terms;
use mcf_decimal::Decimal;
use mcf_model::{RouteRow, Step};
use mcf_places::{Bounds, Place, Policy};
use mcf_reading::{BoundsEntry, PlaceEntry, StepEntry, Tables};

/// Whether a decimal is a whole number of units, which fits 64 bits.
pub fn is_whole(scale: u32, number: Decimal) -> bool
    ensures { result ≡ is_whole scale number }
{
    number.at_scale(scale).is_some()
}

/// A decimal as a whole number of units; 0 if it isn't one that fits.
pub fn whole(scale: u32, number: Decimal) -> i64
    ensures { result ≡ whole scale number }
{
    number.at_scale(scale).unwrap_or(0)
}

/// A limit in units.
pub fn whole_limit(scale: u32, most: Option<Decimal>) -> Option<i64>
    ensures { result ≡ whole_limit scale most }
{
    match most {
        Some(number) => Some(whole(scale, number)),
        None => None,
    }
}

// A limit, or 0 if there is none.
fn limit_or_zero(most: Option<i64>) -> i64
    ensures { result ≡ limit_or_zero most }
{
    most.unwrap_or(0)
}

// Bounds in units.
fn bounds_in(scales: Scales, entry: BoundsEntry) -> Bounds
    ensures { result ≡ bounds_in scales entry }
{
    Bounds {
        least: whole(scales.amounts, entry.least),
        most: whole_limit(scales.amounts, entry.most),
        cost: whole(scales.costs, entry.cost),
    }
}

/// A place in units.
pub fn place_in(scales: Scales, entry: PlaceEntry) -> Place
    ensures { result ≡ place_in scales entry }
{
    let through = match entry.through {
        Some(bounds) => Some(bounds_in(scales, bounds)),
        None => None,
    };
    Place {
        supply: whole(scales.amounts, entry.supply),
        through,
        penalty: whole_limit(scales.costs, entry.penalty),
    }
}

// A step before the last, in units.
pub(crate) fn step_in(scales: Scales, entry: StepEntry) -> Step
    ensures { result ≡ step_in scales entry }
{
    Step {
        most: limit_or_zero(whole_limit(scales.amounts, entry.most)),
        cost: whole(scales.costs, entry.cost),
    }
}

// The last step; one that carries nothing if there is none.
fn last_step(steps: &[StepEntry]) -> StepEntry
    ensures { result ≡ last_step steps.now }
{
    let zero = Decimal {
        mantissa: 0,
        places: 0,
    };
    if steps.is_empty() {
        return StepEntry {
            most: Some(zero),
            cost: zero,
        };
    }
    steps[steps.len() - 1]
}

/// The number of a place in 32 bits; 0, which is no place's, if it doesn't fit.
pub fn place_number(number: usize) -> u32
    ensures { result ≡ place_number number }
{
    u32::try_from(number).unwrap_or(0)
}

// The row of a route, counted from 0, whose steps begin at this place of their table.
pub(crate) fn row_in(scales: Scales, first: u32, tables: &Tables, place: usize) -> RouteRow
    requires inside { place < length tables.now.routes }
    requires few { length (route_at tables.now place).steps < 2 ^ 32 }
    ensures { result ≡ row_in scales first (route_at tables.now place) }
{
    let route = tables.route(place);
    let last = last_step(route.steps);
    RouteRow {
        tail: place_number(route.tail),
        head: place_number(route.head),
        first_step: first,
        step_count: route.steps.len().saturating_sub(1) as u32,
        least: whole(scales.amounts, route.least),
        last_most: whole_limit(scales.amounts, last.most),
        last_cost: whole(scales.costs, last.cost),
        both: route.both,
    }
}

/// Whether supplies may stay and demands may be missing, with the penalty in units.
pub fn policy_in(scales: Scales, terms: Terms) -> Policy
    ensures { result ≡ policy_in scales terms }
{
    Policy {
        unused: terms.unused,
        short: terms.short,
        penalty: whole_limit(scales.costs, terms.penalty),
    }
}
