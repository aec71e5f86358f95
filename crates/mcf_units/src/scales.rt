//! The units of tables.
ghost use Rattle.std.specs.Prelude.{◌≡◌, max, length};
ghost use Rattle.std.specs.List.{flat_map};
ghost use Rattle.mcf_units.specs.Scales.{bounds_amounts, bounds_costs, given_number, place_amounts, place_costs, route_amounts, route_costs, scale_of, scales_of, step_amounts, step_costs};

use mcf_decimal::Decimal;
use mcf_reading::{BoundsEntry, PlaceEntry, StepEntry, Tables};

/// The units in which the numbers of tables are whole: an amount counts units of 10 to the power of
/// minus the first scale, a cost of a unit of the tables those of 10 to the power of minus the
/// second.
#[derive(Clone, Copy, Debug, PartialEq, Eq)]
pub struct Scales {
    /// The most decimals of any amount.
    pub amounts: u32,
    /// The most decimals of any cost.
    pub costs: u32,
}

// The most decimals: those of a limit, or as many as before.
fn with_limit(scale: u32, most: Option<Decimal>) -> u32
    ensures { result ≡ max scale (scale_of (given_number most)) }
{
    match most {
        Some(number) => scale.max(number.places),
        None => scale,
    }
}

// The scales with those of bounds.
fn with_bounds(scales: Scales, through: Option<BoundsEntry>) -> Scales
    ensures amounts { result.amounts ≡ max scales.amounts (scale_of (bounds_amounts through)) }
    ensures costs { result.costs ≡ max scales.costs (scale_of (bounds_costs through)) }
{
    match through {
        Some(bounds) => Scales {
            amounts: with_limit(scales.amounts.max(bounds.least.places), bounds.most),
            costs: scales.costs.max(bounds.cost.places),
        },
        None => scales,
    }
}

// The scales with those of a place.
fn with_place(scales: Scales, entry: PlaceEntry) -> Scales
    ensures amounts { result.amounts ≡ max scales.amounts (scale_of (place_amounts entry)) }
    ensures costs { result.costs ≡ max scales.costs (scale_of (place_costs entry)) }
{
    let with_supply = Scales {
        amounts: scales.amounts.max(entry.supply.places),
        costs: scales.costs,
    };
    let with_through = with_bounds(with_supply, entry.through);
    Scales {
        amounts: with_through.amounts,
        costs: with_limit(with_through.costs, entry.penalty),
    }
}

// The scales with those of places.
fn with_places(scales: Scales, places: &[PlaceEntry]) -> Scales
    ensures amounts { result.amounts ≡ max scales.amounts (scale_of (flat_map place_amounts places.now)) }
    ensures costs { result.costs ≡ max scales.costs (scale_of (flat_map place_costs places.now)) }
{
    let mut found = scales;
    for place in 0..places.len() {
        found = with_place(found, places[place]);
    }
    found
}

// The scales with those of a step.
fn with_step(scales: Scales, step: StepEntry) -> Scales
    ensures amounts { result.amounts ≡ max scales.amounts (scale_of (given_number step.most)) }
    ensures costs { result.costs ≡ max scales.costs step.cost.places }
{
    Scales {
        amounts: with_limit(scales.amounts, step.most),
        costs: scales.costs.max(step.cost.places),
    }
}

// The scales with those of steps.
fn with_steps(scales: Scales, steps: &[StepEntry]) -> Scales
    ensures amounts { result.amounts ≡ max scales.amounts (scale_of (step_amounts steps.now)) }
    ensures costs { result.costs ≡ max scales.costs (scale_of (step_costs steps.now)) }
{
    let mut found = scales;
    for step in 0..steps.len() {
        found = with_step(found, steps[step]);
    }
    found
}

// The scales with those of a route.
fn with_route(scales: Scales, least: Decimal, steps: &[StepEntry]) -> Scales
    ensures amounts { result.amounts ≡ max scales.amounts (max least.places (scale_of (step_amounts steps.now))) }
    ensures costs { result.costs ≡ max scales.costs (scale_of (step_costs steps.now)) }
{
    let with_least = Scales {
        amounts: scales.amounts.max(least.places),
        costs: scales.costs,
    };
    with_steps(with_least, steps)
}

// The scales with those of all routes.
fn with_routes(scales: Scales, tables: &Tables) -> Scales
    ensures amounts { result.amounts ≡ max scales.amounts (scale_of (flat_map route_amounts tables.now.routes)) }
    ensures costs { result.costs ≡ max scales.costs (scale_of (flat_map route_costs tables.now.routes)) }
{
    let mut found = scales;
    for place in 0..tables.route_count() {
        let route = tables.route(place);
        found = with_route(found, route.least, route.steps);
    }
    found
}

/// The scales of tables and of a penalty.
pub fn scales_of(tables: &Tables, penalty: Option<Decimal>) -> Scales
    ensures { result ≡ scales_of tables.now penalty }
{
    let with_penalty = Scales {
        amounts: 0,
        costs: with_limit(0, penalty),
    };
    let with_all_places = with_places(with_penalty, tables.places());
    with_routes(with_all_places, tables)
}
