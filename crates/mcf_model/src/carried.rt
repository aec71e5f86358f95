//! The plan of a flow: how much each route carries.
ghost use Rattle.std.specs.Prelude.{◌≡◌, ◌≤◌, ◌-ℤ◌, IfOk, OnErr, length, map, pos, neg_ℤ, ◌<ℤ◌, ◌^◌};
ghost use Rattle.mcf_model.specs.Arcs.{added, arcs_of, back_length, plan_of, way_length};
ghost use Rattle.mcf_model.specs.Tables.{own_steps, route_of};

use crate::plan_model::PlanModel;
use crate::rows::{RouteRow, Step, own_steps};
use mcf_text::NoMemory;
use std::alloc::Global;

// Returns the sum of amounts.
fn added(flow: &[i64]) -> i128
    ensures sum { result ≡ added flow.now }
    ensures low { neg_ℤ (pos (2 ^ 126)) <ℤ result }
    ensures high { result <ℤ pos (2 ^ 126) }
{
    let mut total = 0i128;
    for place in 0..flow.len() {
        total += i128::from(flow[place]);
    }
    total
}

// Returns the number of a route's arcs back.
fn back_length(both: bool, own: &[Step]) -> usize
    ensures { result ≡ back_length both own.now }
{
    if both { own.len() + 1 } else { 0 }
}

// Returns the number of a route's arcs there.
fn way_length(own: &[Step]) -> usize
    ensures { result ≡ way_length own.now }
{
    own.len() + 1
}

// Returns the flow there minus the flow back.
fn difference(there: &[i64], back: &[i64]) -> i128
    ensures { result ≡ added there.now -ℤ added back.now }
{
    let gone = added(there);
    let come = added(back);
    gone - come
}

// Returns how much each route carries, from the flow on the arcs of all routes.
fn amounts(
    alloc: Global,
    steps: &[Step],
    rows: &[RouteRow],
    flow: &[i64],
) -> Result<Vec<i128>, NoMemory>
    requires { length flow.now ≡ length (arcs_of (pos 0) (map (route_of steps.now) rows.now)) }
    ensures value { IfOk result (λ made. made.items ≡ plan_of (map (route_of steps.now) rows.now) flow.now) }
    ensures wants { OnErr result (1 ≤ length rows.now) }
{
    let mut plan = Vec::with_capacity(alloc, rows.len())?;
    let mut rest = flow;
    for place in 0..rows.len() {
        let own = own_steps(steps, rows[place]);
        let (there, others) = rest.split_at(way_length(own));
        let (back, others) = others.split_at(back_length(rows[place].both, own));
        let carried = difference(there, back);
        plan.push(carried)?;
        rest = others;
    }
    Ok(plan)
}

/// Returns the plan of a flow in a model's network: the amount that each route carries, in order. A
/// negative amount goes back.
///
/// # Errors
/// `NoMemory` if an allocation is refused; a model without routes needs none.
pub fn plan_of(alloc: Global, model: &PlanModel, flow: &[i64]) -> Result<Vec<i128>, NoMemory>
    requires { length flow.now ≡ length (arcs_of (pos 0) model.now.routes) }
    ensures value { IfOk result (λ made. made.items ≡ plan_of model.now.routes flow.now) }
    ensures wants { OnErr result (1 ≤ length model.now.routes) }
{
    let tables = model.tables();
    amounts(alloc, tables.steps, tables.rows, flow)
}
