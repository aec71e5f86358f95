//! For how many units what the prices say holds.
ghost use Rattle.std.specs.Prelude.{◌≡◌, ◌≤◌, ◌⊎◌, ◌↔◌, ◌-ℤ◌, ◌≤ℤ◌, ◌<ℤ◌, IfNone, IfOk, IfSome, IsTrue, Some, false, length, pos, slice_index_or, true};
ghost use Rattle.std.specs.List.{All};
ghost use Rattle.mcf_figures.specs.Figures.{figure_limit};
ghost use Rattle.mcf_flows.specs.Limits.{limits};
ghost use Rattle.mcf_flows.specs.Network.{IsNode, at_node};
ghost use Rattle.mcf_flows.specs.WellFormed.{IsUpTo};
ghost use Rattle.mcf_unit_ranges.specs.Private.Plans.{CarriesFirst, HasPlan};
ghost use Rattle.mcf_unit_ranges.specs.Told.{FitsLimits, HasSmallSpan, IsClosed, IsRangeAt, IsUntold};

use crate::limits::{UNITS_LIMIT, is_small_supply};
use crate::models::{free_model, span_model};
use crate::rows::Ends;
use crate::spans::are_small_spans;
use mcf_figures::are_small;
use mcf_model::{PlanModel, Planned, Solves, plan};
use mcf_text::NoMemory;
use std::alloc::Global;

/// For how many units more what the prices say holds.
#[derive(Clone, Copy, Debug, PartialEq, Eq)]
pub struct UnitsRange {
    /// The greatest number of units, or `None` without a limit.
    pub most: Option<i64>,
}

// Returns the supply of a place.
fn supply_of(model: &PlanModel, place: u32) -> i64
    requires { IsNode (length model.now.supplies) place }
    ensures { result ≡ at_node model.now.supplies place }
{
    model.supplies()[place as usize - 1]
}

// Returns whether the supplies of two places are within the limit.
fn are_small_supplies(model: &PlanModel, ends: Ends) -> bool
    requires from { IsNode (length model.now.supplies) ends.from }
    requires to { IsNode (length model.now.supplies) ends.to }
    ensures { IsTrue result ↔ (IsUpTo limits.supply (at_node model.now.supplies ends.from) × IsUpTo limits.supply (at_node model.now.supplies ends.to)) }
{
    let first = is_small_supply(supply_of(model, ends.from));
    let second = is_small_supply(supply_of(model, ends.to));
    first && second
}

// Returns whether a model has a plan, or `None` if a number of its network is beyond the limits.
fn has_plan<S: Solves>(
    alloc: Global,
    solver: &mut S,
    model: &PlanModel,
) -> Result<Option<bool>, NoMemory>
    ensures some { IfOk result (λ told. IfSome told (λ has. has ≡ true → HasPlan model.now)) }
    ensures closed { IfOk result (λ told. IfSome told (λ has. has ≡ false → ¬ HasPlan model.now)) }
    ensures none { IfOk result (λ told. IfNone told (¬ FitsLimits model.now)) }
{
    match plan(alloc, solver, model)? {
        Planned::Plan(_) => Ok(Some(true)),
        Planned::NoPlan(_) => Ok(Some(false)),
        Planned::Beyond(_) => Ok(None),
    }
}

// Returns the first number, or 0 if there is none.
fn first_of(numbers: &[i128]) -> i128
    ensures { result ≡ slice_index_or numbers.now 0 (pos 0) }
{
    if numbers.len() == 0 { 0 } else { numbers[0] }
}

// Returns what a least plan carries on the first route, or `None` if there is no plan, or if a
// number of the network is beyond the limits.
fn carried_first<S: Solves>(
    alloc: Global,
    solver: &mut S,
    model: &PlanModel,
) -> Result<Option<i128>, NoMemory>
    requires { 1 ≤ length model.now.routes }
    ensures some { IfOk result (λ told. IfSome told (CarriesFirst model.now)) }
    ensures none { IfOk result (λ told. IfNone told ((¬ FitsLimits model.now) ⊎ (¬ HasPlan model.now))) }
{
    match plan(alloc, solver, model)? {
        Planned::Plan(found) => Ok(Some(first_of(&found.carries))),
        Planned::NoPlan(_) => Ok(None),
        Planned::Beyond(_) => Ok(None),
    }
}

// Returns the range, if so many of the units that are looked at take the spare route.
fn range_beside(spare: i128) -> Option<UnitsRange>
    ensures some { IfSome result (λ range. (pos 0 <ℤ spare) × (range.most ≡ Some (pos UNITS_LIMIT -ℤ spare))) }
    ensures none { IfNone result ((spare ≤ℤ pos 0) ⊎ (pos UNITS_LIMIT <ℤ spare)) }
{
    let limit = i128::from(UNITS_LIMIT);
    if 0 < spare && spare <= limit {
        let most = (limit - spare) as i64;
        Some(UnitsRange { most: Some(most) })
    } else {
        None
    }
}

// Returns the range, if there is a limit of no more units than are looked at.
fn limited_range<S: Solves>(
    alloc: Global,
    solver: &mut S,
    model: &PlanModel,
    prices: &[i128],
    ends: Ends,
) -> Result<Option<UnitsRange>, NoMemory>
    requires prices { All (IsUpTo figure_limit) prices.now }
    requires small { All (HasSmallSpan prices.now) model.now.routes }
    requires from { IsNode (length model.now.supplies) ends.from }
    requires to { IsNode (length model.now.supplies) ends.to }
    requires first { IsUpTo limits.supply (at_node model.now.supplies ends.from) }
    requires second { IsUpTo limits.supply (at_node model.now.supplies ends.to) }
    requires closed { IsClosed model.now prices.now ends.from ends.to }
    ensures some { IfOk result (λ told. IfSome told (λ range. IsRangeAt model.now prices.now ends.from ends.to range.most)) }
    ensures none { IfOk result (λ told. IfNone told (IsUntold model.now prices.now ends.from ends.to)) }
{
    // Called only for its clause: the model has no fault.
    let _places = model.place_count();
    let spans = span_model(alloc, model, prices, ends)?;
    match carried_first(alloc, solver, &spans)? {
        Some(spare) => Ok(range_beside(spare)),
        None => Ok(None),
    }
}

// Returns the range, if the prices, two supplies and all spans are within the limits.
fn range_within<S: Solves>(
    alloc: Global,
    solver: &mut S,
    model: &PlanModel,
    prices: &[i128],
    ends: Ends,
) -> Result<Option<UnitsRange>, NoMemory>
    requires prices { All (IsUpTo figure_limit) prices.now }
    requires small { All (HasSmallSpan prices.now) model.now.routes }
    requires from { IsNode (length model.now.supplies) ends.from }
    requires to { IsNode (length model.now.supplies) ends.to }
    requires first { IsUpTo limits.supply (at_node model.now.supplies ends.from) }
    requires second { IsUpTo limits.supply (at_node model.now.supplies ends.to) }
    ensures some { IfOk result (λ told. IfSome told (λ range. IsRangeAt model.now prices.now ends.from ends.to range.most)) }
    ensures none { IfOk result (λ told. IfNone told (IsUntold model.now prices.now ends.from ends.to)) }
{
    // Called only for its clause: the model has no fault.
    let _places = model.place_count();
    let free = free_model(alloc, model, prices, ends)?;
    match has_plan(alloc, solver, &free)? {
        Some(true) => Ok(Some(UnitsRange { most: None })),
        Some(false) => limited_range(alloc, solver, model, prices, ends),
        None => Ok(None),
    }
}

/// Returns for how many units the prices of a least plan tell the cost (right-hand-side ranging;
/// Ahuja, Magnanti and Orlin, Network Flows, section 9.11): how many units more may come in at one
/// place and be taken out at another, each at just the difference of both prices, in some finer
/// units. It holds for the number returned and for all smaller ones, and for no greater one; no
/// plan ever costs less. So one more unit of room on a full route saves what the prices say for as
/// many units as the range has from the route's head to its tail.
///
/// The result is that of each plan that the prices show to be least. It searches least plans of two
/// models of spans, the amounts of least reduced cost of the routes.
///
/// It is `None` if a number is beyond the limits: a price of more than 10^36, a supply of more than
/// 10^18 at one of both places, or a number of a model of spans. And it is `None` if what the
/// prices say holds for 10^15 units, while no unit can move on spans without a limit alone.
///
/// # Errors
///
/// `NoMemory` if an allocation is refused. There always are places, so it always allocates.
pub fn units_range<S: Solves>(
    alloc: Global,
    solver: &mut S,
    model: &PlanModel,
    prices: &[i128],
    ends: Ends,
) -> Result<Option<UnitsRange>, NoMemory>
    requires from { IsNode (length model.now.supplies) ends.from }
    requires to { IsNode (length model.now.supplies) ends.to }
    ensures range { IfOk result (λ told. IfSome told (λ range. IsRangeAt model.now prices.now ends.from ends.to range.most)) }
    ensures untold { IfOk result (λ told. IfNone told (IsUntold model.now prices.now ends.from ends.to)) }
{
    let small_prices = are_small(prices);
    if !small_prices {
        return Ok(None);
    }
    let small_supplies = are_small_supplies(model, ends);
    let small_spans = are_small_spans(model, prices);
    if small_supplies && small_spans {
        range_within(alloc, solver, model, prices, ends)
    } else {
        Ok(None)
    }
}
