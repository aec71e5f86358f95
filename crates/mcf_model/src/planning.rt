//! The least plan of a model, or the reason why it has no plan.
ghost use Rattle.std.specs.Prelude.{◌≡◌, ◌≤◌, ◌≤ℤ◌, ◌⊎◌, IfOk, OnErr, length, pos};
ghost use Rattle.std.specs.Int.{int_min};
ghost use Rattle.mcf_flows.specs.Limits.{limits};
ghost use Rattle.mcf_flows.specs.Network.{Network};
ghost use Rattle.mcf_model.specs.Arcs.{network_of, reach_of};
ghost use Rattle.mcf_instance.specs.Arrays.{made_of_arrays};
ghost use Rattle.mcf_flows.specs.WellFormed.{IsWellFormed};
ghost use Rattle.mcf_model.specs.Laws.{IsProper};
ghost use Rattle.mcf_model.specs.Planning.{IsBestPlan, IsPlanned, IsShownFlow, IsSolved, beyond_bounds};

use crate::arcs::arcs_of;
use crate::carried::plan_of;
use crate::plan_model::PlanModel;
use crate::reach::reach_of;
use mcf_flows::{BOUND_LIMIT, Instance, Side};
use mcf_instance::{ArrayFault, flow_problem};
use mcf_text::{NoMemory, NodeId};
use std::alloc::Global;

/// A feasible flow with one number for each arc, its cost, and prices of nodes that show it to be
/// least.
#[derive(Drop)]
pub struct ShownFlow {
    pub flow: Vec<i64>,
    pub prices: Vec<i128>,
    pub cost: i128,
}

/// Nodes or places that must send, or take, more than they can; `side` says which of both.
#[derive(Drop)]
pub struct Bottleneck {
    pub places: Vec<NodeId>,
    pub side: Side,
}

/// A solver's answer to a flow problem.
#[derive(Drop)]
pub enum Solved {
    /// A least flow.
    Flow(ShownFlow),
    /// A node set that blocks every flow.
    Blocked(Bottleneck),
}

/// A solver of flow problems.
pub trait Solves {
    // The networks for which the solver may fail to allocate memory, in its state before the call.
    ghost Wants: { Self → Network → Type 0 };

    /// Solves a flow problem.
    ///
    /// # Errors
    /// `NoMemory` if an allocation is refused.
    fn solve(&mut self, alloc: Global, instance: &Instance) -> Result<Solved, NoMemory>
        ensures solved { IfOk result (IsSolved instance.now) }
        ensures wants { OnErr result (Wants self.old instance.now) };
}

/// A least plan and its cost: the amount that each route carries, in order, and prices of places
/// that show it to be least. A negative amount goes back.
#[derive(Drop)]
pub struct LeastPlan {
    pub carries: Vec<i128>,
    pub cost: i128,
    pub prices: Vec<i128>,
}

/// The answer for a model.
#[derive(Drop)]
pub enum Planned {
    /// A least plan.
    Plan(LeastPlan),
    /// There is no plan, since these places must send, or take, more than they can.
    NoPlan(Bottleneck),
    /// The first fault of the model's network: a number beyond the limits. The arcs are in the
    /// order of `arcs_of`.
    Beyond(ArrayFault),
}

// Returns the reach as a capacity, or the limit of bounds plus 1 if the reach is greater than that.
fn cap_of(reach: i128) -> i64
    requires { pos 0 ≤ℤ reach }
    ensures { result ≡ int_min reach beyond_bounds }
{
    reach.min(i128::from(BOUND_LIMIT) + 1) as i64
}

// Returns the flow problem of a model, or its first number beyond the limits.
fn problem_of(alloc: Global, model: &PlanModel) -> Result<Result<Instance, ArrayFault>, NoMemory>
    ensures value { IfOk result (λ made. made ≡ made_of_arrays limits (network_of (reach_of model.now) model.now)) }
    ensures within { IfOk result (λ made. IfOk made (IsWellFormed limits)) }
    ensures proper { IsProper model.now }
    ensures wants { OnErr result (1 ≤ length model.now.supplies) }
{
    let supplies = model.supplies();
    let reach = cap_of(reach_of(model));
    let arcs = arcs_of(alloc, reach, model)?;
    flow_problem(alloc, supplies, &arcs)
}

// Returns the plan of a least flow.
fn least_plan(alloc: Global, model: &PlanModel, shown: ShownFlow) -> Result<LeastPlan, NoMemory>
    requires proper { IsProper model.now }
    requires shown { IsShownFlow (network_of (reach_of model.now) model.now) shown }
    ensures planned { IfOk result (IsBestPlan model.now) }
    ensures wants { OnErr result (1 ≤ length model.now.supplies) }
{
    let carries = plan_of(alloc, model, &shown.flow)?;
    Ok(LeastPlan {
        carries,
        cost: shown.cost,
        prices: shown.prices,
    })
}

// Returns the answer for a model, from a solver's answer to its flow problem.
fn answered(alloc: Global, model: &PlanModel, solved: Solved) -> Result<Planned, NoMemory>
    requires proper { IsProper model.now }
    requires solved { IsSolved (network_of (reach_of model.now) model.now) solved }
    requires within { IsWellFormed limits (network_of (reach_of model.now) model.now) }
    ensures planned { IfOk result (IsPlanned model.now) }
    ensures wants { OnErr result (1 ≤ length model.now.supplies) }
{
    match solved {
        Solved::Flow(shown) => Ok(Planned::Plan(least_plan(alloc, model, shown)?)),
        Solved::Blocked(found) => Ok(Planned::NoPlan(found)),
    }
}

/// Returns a least plan of a model with its cost and prices that show it; or places that must send,
/// or take, more than they can, if the model has no plan; or the first fault of its network: a
/// number beyond the limits, or a route's least amount above its capacity.
///
/// The network gives a route without a limit a capacity, but no plan of the model costs less than
/// the plan returned, however much its routes carry, nor does one in finer units.
///
/// # Errors
/// `NoMemory` if an allocation is refused: only if there are places, or if the solver may need
/// memory for the network.
pub fn plan<S: Solves>(
    alloc: Global,
    solver: &mut S,
    model: &PlanModel,
) -> Result<Planned, NoMemory>
    ensures planned { IfOk result (IsPlanned model.now) }
    ensures wants { OnErr result ((1 ≤ length model.now.supplies) ⊎ S.Wants solver.old (network_of (reach_of model.now) model.now)) }
{
    match problem_of(alloc, model)? {
        Ok(instance) => {
            let solved = solver.solve(alloc, &instance)?;
            answered(alloc, model, solved)
        }
        Err(fault) => Ok(Planned::Beyond(fault)),
    }
}
