//! The models of spans.
ghost use Rattle.std.specs.Prelude.{◌≡◌, ◌*◌, ◌+ℤ◌, ◌≤ℤ◌, [], IfOk, ℤ, length, map, neg_ℤ, pos};
ghost use Rattle.std.specs.List.{All};
ghost use Rattle.mcf_figures.specs.Changes.{with_more_at};
ghost use Rattle.mcf_figures.specs.Figures.{figure_limit};
ghost use Rattle.mcf_flows.specs.Limits.{limits};
ghost use Rattle.mcf_flows.specs.Network.{IsNode, at_node};
ghost use Rattle.mcf_flows.specs.WellFormed.{IsUpTo};
ghost use Rattle.mcf_model.specs.Faults.{AreListed};
ghost use Rattle.mcf_model.specs.Laws.{IsProper};
ghost use Rattle.mcf_unit_ranges.specs.Private.Rows.{plain_model};
ghost use Rattle.mcf_unit_ranges.specs.SpanModels.{free_model, span_model};
ghost use Rattle.mcf_unit_ranges.specs.Told.{HasSmallSpan};

use crate::limits::UNITS_LIMIT;
use crate::rows::{Ends, freed_rows, span_rows, with_spare};
use mcf_flows::SUPPLY_LIMIT;
use mcf_model::{PlanModel, RouteRow};
use mcf_text::{NoMemory, copies};
use std::alloc::Global;

// Returns supplies with more at a place.
fn with_more_at(supplies: Vec<i64>, place: u32, units: i64) -> Vec<i64>
    requires place { IsNode (length supplies.items) place }
    requires supply { IsUpTo (2 * limits.supply) (at_node supplies.items place) }
    requires units { IsUpTo UNITS_LIMIT units }
    ensures { result.items ≡ with_more_at supplies.items place units }
{
    let mut made = supplies;
    let index = place as usize - 1;
    let more = made[index] + units;
    made[index] = more;
    made
}

// Returns supplies with units more at one place, and as many less at another.
fn moved(supplies: Vec<i64>, ends: Ends, units: i64) -> Vec<i64>
    requires from { IsNode (length supplies.items) ends.from }
    requires to { IsNode (length supplies.items) ends.to }
    requires first { IsUpTo limits.supply (at_node supplies.items ends.from) }
    requires second { IsUpTo limits.supply (at_node supplies.items ends.to) }
    requires units { IsUpTo UNITS_LIMIT units }
    ensures { result.items ≡ with_more_at (with_more_at supplies.items ends.from units) ends.to (neg_ℤ units) }
{
    let more = with_more_at(supplies, ends.from, units);
    with_more_at(more, ends.to, -units)
}

// Returns the model of routes without steps before the last.
fn plain_model(alloc: Global, supplies: Vec<i64>, rows: Vec<RouteRow>) -> PlanModel
    requires proper { IsProper (plain_model supplies.items rows.items) }
    requires listed { AreListed [] rows.items }
    ensures { result ≡ plain_model supplies.items rows.items }
{
    let steps = Vec::new(alloc);
    match PlanModel::of(supplies, steps, rows) {
        Ok(model) => model,
        Err(_) => unreachable!(),
    }
}

/// Returns the model of one unit between two places on spans without a limit alone.
pub(crate) fn free_model(
    alloc: Global,
    model: &PlanModel,
    prices: &[i128],
    ends: Ends,
) -> Result<PlanModel, NoMemory>
    requires prices { All (IsUpTo figure_limit) prices.now }
    requires small { All (HasSmallSpan prices.now) model.now.routes }
    requires from { IsNode (length model.now.supplies) ends.from }
    requires to { IsNode (length model.now.supplies) ends.to }
    ensures { IfOk result (λ made. made ≡ free_model prices.now model.now ends.from ends.to) }
{
    let places = model.place_count();
    let still = copies(alloc, places, 0i64)?;
    let supplies = moved(still, ends, 1);
    let spans = span_rows(alloc, model, prices)?;
    let rows = freed_rows(alloc, &spans)?;
    Ok(plain_model(alloc, supplies, rows))
}

// Returns a copy of supplies.
fn copied(alloc: Global, supplies: &[i64]) -> Result<Vec<i64>, NoMemory>
    ensures { IfOk result (λ made. made.items ≡ supplies.now) }
{
    Ok(supplies.iter().copied().collect(alloc)?)
}

/// Returns the model of as many units as are looked at between two places, on the spans or else on
/// the spare route.
pub(crate) fn span_model(
    alloc: Global,
    model: &PlanModel,
    prices: &[i128],
    ends: Ends,
) -> Result<PlanModel, NoMemory>
    requires prices { All (IsUpTo figure_limit) prices.now }
    requires small { All (HasSmallSpan prices.now) model.now.routes }
    requires from { IsNode (length model.now.supplies) ends.from }
    requires to { IsNode (length model.now.supplies) ends.to }
    requires first { IsUpTo limits.supply (at_node model.now.supplies ends.from) }
    requires second { IsUpTo limits.supply (at_node model.now.supplies ends.to) }
    ensures { IfOk result (λ made. made ≡ span_model prices.now model.now ends.from ends.to (pos UNITS_LIMIT)) }
{
    let given = copied(alloc, model.supplies())?;
    let supplies = moved(given, ends, UNITS_LIMIT as i64);
    let spans = span_rows(alloc, model, prices)?;
    let rows = with_spare(alloc, &spans, ends)?;
    Ok(plain_model(alloc, supplies, rows))
}
