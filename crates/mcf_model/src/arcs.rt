//! The arcs of a model's network.
ghost use Rattle.std.specs.Prelude.{◌≡◌, ◌++◌, ◌≤◌, ◌≤ℤ◌, ◌-ℤ◌, IfOk, OnErr, OnOk, length, map, pos};
ghost use Rattle.std.specs.List.{All};
ghost use Rattle.std.specs.Int.{int_min};
ghost use Rattle.mcf_instance.specs.Arrays.{arc_of_numbers};
ghost use Rattle.mcf_model.specs.Arcs.{arcs_of, back, last_arc, last_cap, step_arc, there, way};
ghost use Rattle.mcf_model.specs.Laws.{StepsTake};
ghost use Rattle.mcf_model.specs.Tables.{route_of, route_with};

use crate::plan_model::PlanModel;
use crate::rows::{RouteRow, Step, own_steps};
use mcf_instance::RawArc;
use mcf_text::NoMemory;
use std::alloc::Global;

// A route in one direction, without its steps before the last.
#[derive(Clone, Copy)]
struct Way {
    tail: u32,
    head: u32,
    // how many units it carries at least
    least: i64,
    // the last step, which takes the reach if the route has no limit
    last: Step,
}

// Returns the arc of a step before the last, if at least `rest` units are left to carry.
fn step_arc(direction: Way, rest: i64, step: Step) -> RawArc
    ensures { arc_of_numbers result ≡ step_arc direction.tail direction.head rest step }
{
    RawArc {
        src: direction.tail,
        dst: direction.head,
        low: rest.min(step.most),
        cap: step.most,
        cost: step.cost,
    }
}

// Returns how many units at least are left to carry after a step.
fn rest_after(rest: i64, step: Step) -> i64
    requires { pos 0 ≤ℤ step.most }
    ensures { result ≡ rest -ℤ int_min rest step.most }
{
    rest - rest.min(step.most)
}

// Appends the arcs of a route in one direction, which has these steps before the last.
fn push_way(direction: Way, steps: &[Step], arcs: &mut Vec<RawArc>) -> Result<(), NoMemory>
    requires { All (λ s. pos 0 ≤ℤ s.most) steps.now }
    ensures { OnOk result (map arc_of_numbers arcs.new.items ≡ map arc_of_numbers arcs.old.items ++ way direction.tail direction.head direction.least steps.now direction.last.most direction.last.cost) }
{
    let mut rest = direction.least;
    for place in 0..steps.len() {
        let arc = step_arc(direction, rest, steps[place]);
        arcs.push(arc)?;
        rest = rest_after(rest, steps[place]);
    }
    let arc = last_arc(direction, rest);
    arcs.push(arc)?;
    Ok(())
}

// Returns the arc of the last step.
fn last_arc(direction: Way, rest: i64) -> RawArc
    ensures { arc_of_numbers result ≡ last_arc direction.tail direction.head rest direction.last.most direction.last.cost }
{
    RawArc {
        src: direction.tail,
        dst: direction.head,
        low: rest,
        cap: direction.last.most,
        cost: direction.last.cost,
    }
}

// Returns the capacity of a last step's arc, which is the reach if the step has no limit.
fn last_cap(reach: i64, most: Option<i64>) -> i64
    ensures { result ≡ last_cap reach most }
{
    match most {
        Some(most) => most,
        None => reach,
    }
}

// Appends the arcs of a route, there and back, which has these steps before the last.
fn push_route(
    reach: i64,
    row: RouteRow,
    own: &[Step],
    arcs: &mut Vec<RawArc>,
) -> Result<(), NoMemory>
    requires { All (λ s. pos 0 ≤ℤ s.most) own.now }
    ensures { OnOk result (map arc_of_numbers arcs.new.items ≡ map arc_of_numbers arcs.old.items ++ (there reach (route_with row own.now) ++ back reach (route_with row own.now))) }
{
    let last = Step {
        most: last_cap(reach, row.last_most),
        cost: row.last_cost,
    };
    let there = Way {
        tail: row.tail,
        head: row.head,
        least: row.least,
        last,
    };
    push_way(there, own, arcs)?;
    if row.both {
        let back = Way {
            tail: row.head,
            head: row.tail,
            least: 0,
            last,
        };
        push_way(back, own, arcs)?;
    }
    Ok(())
}

// Returns the arcs of routes.
fn listed(
    alloc: Global,
    reach: i64,
    steps: &[Step],
    rows: &[RouteRow],
) -> Result<Vec<RawArc>, NoMemory>
    requires { All StepsTake (map (route_of steps.now) rows.now) }
    ensures value { IfOk result (λ made. map arc_of_numbers made.items ≡ arcs_of reach (map (route_of steps.now) rows.now)) }
    ensures wants { OnErr result (1 ≤ length rows.now) }
{
    let mut arcs = Vec::new(alloc);
    for place in 0..rows.len() {
        let own = own_steps(steps, rows[place]);
        push_route(reach, rows[place], own, &mut arcs)?;
    }
    Ok(arcs)
}

/// Returns the arcs of a model's network, in the order of its routes: for each route one arc per
/// step, and then one per step of the way back, if the route is used both ways. The last arc of a
/// route without a limit has the capacity `reach`.
///
/// # Errors
/// `NoMemory` if an allocation is refused; a model without routes needs none.
pub fn arcs_of(alloc: Global, reach: i64, model: &PlanModel) -> Result<Vec<RawArc>, NoMemory>
    ensures value { IfOk result (λ made. map arc_of_numbers made.items ≡ arcs_of reach model.now.routes) }
    ensures wants { OnErr result (1 ≤ length model.now.routes) }
{
    let tables = model.tables();
    listed(alloc, reach, tables.steps, tables.rows)
}
