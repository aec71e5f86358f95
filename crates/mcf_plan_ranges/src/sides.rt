//! The two sides of a range.
ghost use Rattle.std.specs.Prelude.{◌≡◌, ◌≤ℤ◌, IfOk, pos, length};
ghost use Rattle.std.specs.Int.{int_min};
ghost use Rattle.std.specs.List.{All};
ghost use Rattle.mcf_figures.specs.Figures.{figure_limit, may_carry};
ghost use Rattle.mcf_flows.specs.WellFormed.{IsUpTo};
ghost use Rattle.mcf_model.specs.Faults.{first_cost};
ghost use Rattle.mcf_model.specs.Model.{IsPlan};
ghost use Rattle.mcf_model.specs.Prices.{ShowsPlan};
ghost use Rattle.mcf_model.specs.Tables.{IsRouteNumber, route_at, route_with};
ghost use Rattle.mcf_plan_ranges.specs.PlanRanges.{AreWithinLimits};
ghost use Rattle.mcf_plan_ranges.specs.Private.Sides.{IsFloor, IsSideRange, floor_of, grows, lesser, meet, one_sided};

use crate::residual::{number_at, unit_range};
use crate::units::may_change;
use mcf_model::{PlanModel, RouteRow, Step};
use mcf_ranges::CostRange;
use mcf_text::NoMemory;
use std::alloc::Global;

// Returns whether a unit more, or a unit less, is charged as a unit more.
fn grows(both: bool, less: bool, amount: i128) -> bool
    ensures { result ≡ grows both less amount }
{
    if less {
        both && amount <= 0
    } else {
        !both || 0 <= amount
    }
}

// Returns a range with one end.
fn one_sided(falls: bool, slack: Option<i128>) -> CostRange
    ensures { result ≡ one_sided falls slack }
{
    if falls {
        CostRange {
            down: slack,
            up: None,
        }
    } else {
        CostRange {
            down: None,
            up: slack,
        }
    }
}

/// Returns by how much the cost of a unit on a route may change while the plan stays least beside
/// the plans that carry more on it; or, if `less`, beside those that carry less.
///
/// # Errors
///
/// `NoMemory` if an allocation is refused.
pub(crate) fn side_range(
    alloc: Global,
    model: &PlanModel,
    carries: &[i128],
    prices: &[i128],
    number: usize,
    less: bool,
) -> Result<CostRange, NoMemory>
    requires within { AreWithinLimits model.now prices.now carries.now }
    requires plan { IsPlan model.now carries.now }
    requires shown { ShowsPlan model.now.routes prices.now carries.now }
    requires number { IsRouteNumber model.now number }
    ensures { IfOk result (IsSideRange model.now carries.now number less) }
{
    let route = model.route(number - 1);
    let carried = number_at(carries, number - 1);
    let may = may_change(route.row, route.steps, less, carried);
    if !may {
        return Ok(CostRange {
            down: None,
            up: None,
        });
    }
    let range = unit_range(alloc, model, carries, prices, number, less)?;
    let falls = grows(route.row.both, less, carried);
    Ok(one_sided(falls, range.down))
}

// Returns the cost of the first unit of a route.
fn first_cost(own: &[Step], last_cost: i64) -> i64
    ensures { result ≡ first_cost own.now last_cost }
{
    if own.len() == 0 {
        last_cost
    } else {
        own[0].cost
    }
}

// Returns the changes that keep a route sound: none of a route both ways may bring a cost below 0.
fn floor_of(row: RouteRow, own: &[Step]) -> CostRange
    ensures { result ≡ floor_of row.both (first_cost own.now row.last_cost) }
{
    let first = first_cost(own, row.last_cost);
    if row.both {
        CostRange {
            down: Some(i128::from(first)),
            up: None,
        }
    } else {
        CostRange {
            down: None,
            up: None,
        }
    }
}

/// Returns the changes of the cost of a unit that keep a route sound.
pub(crate) fn floor_range(model: &PlanModel, number: usize) -> CostRange
    requires { IsRouteNumber model.now number }
    ensures { IsFloor (length model.now.supplies) (route_at model.now number) result }
{
    let route = model.route(number - 1);
    floor_of(route.row, route.steps)
}

// Returns the lesser of two limits.
fn lesser(first: Option<i128>, second: Option<i128>) -> Option<i128>
    ensures { result ≡ lesser first second }
{
    match first {
        None => second,
        Some(x) => match second {
            None => first,
            Some(y) => Some(if x < y { x } else { y }),
        },
    }
}

/// Returns the changes in both ranges.
pub(crate) fn meet(first: CostRange, second: CostRange) -> CostRange
    ensures { result ≡ meet first second }
{
    CostRange {
        down: lesser(first.down, second.down),
        up: lesser(first.up, second.up),
    }
}
