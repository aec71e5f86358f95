//! The residual network of a plan at unit capacity.
ghost use Rattle.std.specs.Prelude.{◌≡◌, ◌<◌, ◌≤◌, ◌-◌, ◌++◌, ◌↔◌, IfOk, OnErr, OnOk, drop, is_ok, length, map, pos, slice_index_or, take, true};
ghost use Rattle.std.specs.List.{All};
ghost use Rattle.mcf_engine.specs.SmallPrices.{price_limit};
ghost use Rattle.mcf_figures.specs.Figures.{amount_at, figure_limit};
ghost use Rattle.mcf_flows.specs.Flow.{IsFeasible, Shows};
ghost use Rattle.mcf_flows.specs.Network.{IsArcNumber, node_count};
ghost use Rattle.mcf_flows.specs.Limits.{limits};
ghost use Rattle.mcf_flows.specs.WellFormed.{IsUpTo, IsWellFormed};
ghost use Rattle.mcf_instance.specs.Arrays.{arc_of_numbers, made_of_arrays};
ghost use Rattle.mcf_model.specs.Laws.{IsProper};
ghost use Rattle.mcf_model.specs.Model.{IsPlan};
ghost use Rattle.mcf_model.specs.Prices.{ShowsPlan};
ghost use Rattle.mcf_model.specs.Tables.{IsRouteNumber, no_route, route_at, route_with};
ghost use Rattle.mcf_plan_ranges.specs.PlanRanges.{AreWithinLimits, HasSmallCosts};
ghost use Rattle.mcf_plan_ranges.specs.Private.Units.{residual, still, unit_arc, units};
ghost use Rattle.mcf_ranges.specs.Ranges.{IsCostRange, IsShownInRange};

use crate::units::unit_arc;
use mcf_flows::Instance;
use mcf_instance::{ArrayFault, RawArc, flow_problem};
use mcf_model::PlanModel;
use mcf_ranges::{CostRange, cost_ranges};
use mcf_text::{ArcId, NoMemory, copies};
use std::alloc::Global;

/// Returns the number at a place, or 0 past the end.
pub(crate) fn number_at(numbers: &[i128], place: usize) -> i128
    ensures { result ≡ slice_index_or numbers.now place (pos 0) }
{
    if place < numbers.len() {
        numbers[place]
    } else {
        0
    }
}

// Returns the arc of one unit more, or of one less, on the route at a place.
fn arc_at(model: &PlanModel, carries: &[i128], place: usize, less: bool) -> RawArc
    requires place { place < length model.now.routes }
    requires costs { All HasSmallCosts model.now.routes }
    requires small { All (IsUpTo figure_limit) carries.now }
    ensures { arc_of_numbers result ≡ unit_arc less (slice_index_or model.now.routes place no_route) (slice_index_or carries.now place (pos 0)) }
{
    let route = model.route(place);
    let carried = number_at(carries, place);
    unit_arc(route.row, route.steps, less, carried)
}

// Appends both arcs of each route from one place up to another.
fn push_units(
    model: &PlanModel,
    carries: &[i128],
    first: usize,
    end: usize,
    arcs: &mut Vec<RawArc>,
) -> Result<(), NoMemory>
    requires end { end ≤ length model.now.routes }
    requires long { length carries.now ≡ length model.now.routes }
    requires costs { All HasSmallCosts model.now.routes }
    requires small { All (IsUpTo figure_limit) carries.now }
    ensures { OnOk result (map arc_of_numbers arcs.new.items ≡ map arc_of_numbers arcs.old.items ++ units (take (end - first) (drop first model.now.routes)) (take (end - first) (drop first carries.now))) }
{
    for place in first..end {
        let more = arc_at(model, carries, place, false);
        arcs.push(more)?;
        let less = arc_at(model, carries, place, true);
        arcs.push(less)?;
    }
    Ok(())
}

// Returns the arcs of the residual network: one of a route, and both of the others.
fn residual_arcs(
    alloc: Global,
    model: &PlanModel,
    carries: &[i128],
    number: usize,
    less: bool,
) -> Result<Vec<RawArc>, NoMemory>
    requires number { IsRouteNumber model.now number }
    requires long { length carries.now ≡ length model.now.routes }
    requires costs { All HasSmallCosts model.now.routes }
    requires small { All (IsUpTo figure_limit) carries.now }
    ensures { IfOk result (λ made. map arc_of_numbers made.items ≡ (residual model.now carries.now number less).arcs) }
{
    let place = number - 1;
    let mut arcs = Vec::new(alloc);
    let probe = arc_at(model, carries, place, less);
    arcs.push(probe)?;
    push_units(model, carries, 0, place, &mut arcs)?;
    let count = model.route_count();
    push_units(model, carries, number, count, &mut arcs)?;
    Ok(arcs)
}

// Returns the residual network, which is within the limits.
fn residual_problem(
    alloc: Global,
    model: &PlanModel,
    carries: &[i128],
    number: usize,
    less: bool,
) -> Result<Result<Instance, ArrayFault>, NoMemory>
    requires number { IsRouteNumber model.now number }
    requires long { length carries.now ≡ length model.now.routes }
    requires costs { All HasSmallCosts model.now.routes }
    requires small { All (IsUpTo figure_limit) carries.now }
    ensures exact { IfOk result (λ made. made ≡ made_of_arrays limits (residual model.now carries.now number less)) }
    ensures well_formed { IfOk result (λ made. (is_ok made ≡ true) ↔ IsWellFormed limits (residual model.now carries.now number less)) }
{
    let places = model.place_count();
    let supplies = copies(alloc, places, 0i64)?;
    let arcs = residual_arcs(alloc, model, carries, number, less)?;
    flow_problem(alloc, &supplies, &arcs)
}

// Returns the range of the cost of the first arc of a network, in which nothing flows.
fn first_range(alloc: Global, instance: &Instance, prices: &[i128]) -> Result<CostRange, NoMemory>
    requires feasible { IsFeasible instance.now (still instance.now.arcs) }
    requires shown { Shows instance.now.arcs prices.now (still instance.now.arcs) }
    requires one_per_node { length prices.now ≡ node_count instance.now }
    requires small { All (IsUpTo price_limit) prices.now }
    requires arc { IsArcNumber instance.now 1 }
    ensures exact { IfOk result (IsCostRange instance.now (still instance.now.arcs) 1) }
    ensures shown { IfOk result (IsShownInRange instance.now (still instance.now.arcs) 1) }
{
    let count = instance.arc_count() as usize;
    let flow = copies(alloc, count, 0i128)?;
    let arcs = [ArcId::new(1)];
    let ranges = cost_ranges(alloc, instance, &flow, prices, &arcs)?;
    Ok(ranges[0])
}

/// Returns how far the cost of one unit more, or of one less, on a route may change while no unit
/// is worth sending.
///
/// # Errors
///
/// `NoMemory` if an allocation is refused.
pub(crate) fn unit_range(
    alloc: Global,
    model: &PlanModel,
    carries: &[i128],
    prices: &[i128],
    number: usize,
    less: bool,
) -> Result<CostRange, NoMemory>
    requires within { AreWithinLimits model.now prices.now carries.now }
    requires plan { IsPlan model.now carries.now }
    requires shown { ShowsPlan model.now.routes prices.now carries.now }
    requires number { IsRouteNumber model.now number }
    ensures exact { IfOk result (IsCostRange (residual model.now carries.now number less) (still (residual model.now carries.now number less).arcs) 1) }
    ensures shown { IfOk result (IsShownInRange (residual model.now carries.now number less) (still (residual model.now carries.now number less).arcs) 1) }
{
    // Called only for its clause: the model has no fault.
    let _places = model.place_count();
    let made = residual_problem(alloc, model, carries, number, less)?;
    match made {
        Ok(instance) => first_range(alloc, &instance, prices),
        Err(_) => Ok(CostRange {
            down: None,
            up: None,
        }),
    }
}
