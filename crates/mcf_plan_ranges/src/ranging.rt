//! The ranges of the costs of routes.
ghost use Rattle.std.specs.Prelude.{IfNone, IfOk, IfSome, OnErr};
ghost use Rattle.mcf_model.specs.Model.{IsPlan};
ghost use Rattle.mcf_model.specs.Prices.{ShowsPlan};
ghost use Rattle.mcf_model.specs.Tables.{IsRouteNumber};
ghost use Rattle.mcf_plan_ranges.specs.PlanRanges.{AreWithinLimits, IsPlanRange};

use crate::limits::are_within_limits;
use crate::sides::{floor_range, meet, side_range};
use mcf_model::PlanModel;
use mcf_ranges::CostRange;
use mcf_text::NoMemory;
use std::alloc::Global;

// Returns the range of the cost of a unit on a route, if all numbers are within the limits.
fn range_within(
    alloc: Global,
    model: &PlanModel,
    carries: &[i128],
    prices: &[i128],
    number: usize,
) -> Result<CostRange, NoMemory>
    requires within { AreWithinLimits model.now prices.now carries.now }
    requires plan { IsPlan model.now carries.now }
    requires shown { ShowsPlan model.now.routes prices.now carries.now }
    requires number { IsRouteNumber model.now number }
    ensures { IfOk result (IsPlanRange model.now carries.now number) }
{
    // Called only for its clause: the model has no fault.
    let _places = model.place_count();
    let more = side_range(alloc, model, carries, prices, number, false)?;
    let less = side_range(alloc, model, carries, prices, number, true)?;
    let floor = floor_range(model, number);
    Ok(meet(meet(more, less), floor))
}

/// Returns by how much the cost of each unit on a route, by its number, may fall and may rise, such
/// that a plan stays least, if all other costs stay as they are (sensitivity analysis; Ahuja,
/// Magnanti and Orlin, Network Flows, section 9.11). The plan is least, since prices show it. A
/// change is the same for each step of the route; on a route both ways it is the same in both
/// directions, and no cost may fall below 0.
///
/// The result doesn't depend on the prices. For each end that has a limit it searches a shortest
/// walk in the residual network without the route. It is `None` if a number is beyond the limits:
/// more than 1,000,000 places or 5,000,000 routes, a cost of more than 10^15, a price of more than
/// 10^21 or an amount of more than 10^36, or another number of prices than of places.
///
/// # Errors
///
/// `NoMemory` if an allocation is refused; numbers beyond the limits need none.
pub fn cost_range(
    alloc: Global,
    model: &PlanModel,
    carries: &[i128],
    prices: &[i128],
    number: usize,
) -> Result<Option<CostRange>, NoMemory>
    requires plan { IsPlan model.now carries.now }
    requires shown { ShowsPlan model.now.routes prices.now carries.now }
    requires number { IsRouteNumber model.now number }
    ensures exact { IfOk result (λ told. IfSome told (IsPlanRange model.now carries.now number)) }
    ensures none { IfOk result (λ told. IfNone told (¬ AreWithinLimits model.now prices.now carries.now)) }
    ensures within { IfOk result (λ told. IfSome told (λ range. AreWithinLimits model.now prices.now carries.now)) }
    ensures wants { OnErr result (AreWithinLimits model.now prices.now carries.now) }
{
    let within = are_within_limits(model, prices, carries);
    if !within {
        return Ok(None);
    }
    let range = range_within(alloc, model, carries, prices, number)?;
    Ok(Some(range))
}
