//! The least plan of a planner's problem, or the reason why it has no plan.
ghost use Rattle.std.specs.Prelude.{◌≡◌, ◌++◌, ◌∷◌, [], ◌≤ℤ◌, ℤ, IfOk, List, pos};
ghost use Rattle.mcf_flows.specs.Network.{when};
ghost use Rattle.mcf_places.specs.Answers.{IsAllowed, IsMissed, IsPlannerAnswer, IsStagedAnswer, StandsFor};
ghost use Rattle.mcf_places.specs.PlannerFaults.{HasLimits, IsProperPlanner};
ghost use Rattle.mcf_places.specs.Planners.{all_wanted, misses_least};

use crate::faults::{SUM_LIMIT, names_penalty, sums};
use crate::laws::planner_bottlenecks_have_no_plan;
use crate::limits::{limit_for, limited_of};
use crate::making::limited_model_of;
use crate::problem::Planner;
use crate::reading::{PlannerPlan, plan_of};
use crate::shortage::shortage_of;
use crate::told::{PlannerBottleneck, told};
use mcf_instance::ArrayFault;
use mcf_model::{PlanModel, Planned, Solves, plan};
use mcf_text::NoMemory;
use std::alloc::Global;

/// The model of a problem, a least plan of it, and prices of the model's places that show it. The
/// model has the limits that bounds need, and no more may be missing in it than in the plan, if as
/// little as possible may be missing.
#[derive(Drop)]
pub struct ShownModel {
    pub model: PlanModel,
    pub carries: Vec<i128>,
    pub prices: Vec<i128>,
}

/// A least plan of a planner's problem, its cost, and what is missing in total; and the plan of the
/// problem's model that it is read from.
#[derive(Drop)]
pub struct LeastPlannerPlan {
    pub plan: PlannerPlan,
    pub cost: i128,
    pub missing: i128,
    pub shown: ShownModel,
}

/// The answer for a planner's problem.
#[derive(Drop)]
pub enum PlannerAnswer {
    /// A least plan.
    Least(LeastPlannerPlan),
    /// There is no plan, since these places must send, or take, more than they can.
    NoPlan(PlannerBottleneck),
    /// The first fault of the network of a model of the problem: a number beyond the limits.
    Beyond(ArrayFault),
}

// What the first stage finds.
#[derive(Drop)]
enum Missed {
    // the least that is missing in a plan
    Missing(i64),
    // there is no plan, since these places must send, or take, more than they can
    Unplanned(PlannerBottleneck),
    // the first number beyond the limits
    TooGreat(ArrayFault),
}

// Returns the last of some amounts, or 0 if there is none.
fn last_of(amounts: &[i128]) -> i128
    ensures { (before : List ℤ) → (last : ℤ) → amounts.now ≡ before ++ (last ∷ []) → result ≡ last }
{
    let count = amounts.len();
    if count == 0 { 0 } else { amounts[count - 1] }
}

/// Returns whether as little as possible is to be missing in plans of a problem: demands may be
/// missing, and no penalty is named.
pub fn misses_least(planner: &Planner) -> bool
    ensures { result ≡ misses_least planner.now }
{
    let parts = planner.parts();
    let named = names_penalty(parts.policy, parts.places);
    parts.policy.short && !named
}

// Returns what all places want, or 0 if no demand may be missing.
fn most_missing(planner: &Planner) -> i64
    ensures { result ≡ when planner.now.policy.short (all_wanted planner.now.places) }
{
    let parts = planner.parts();
    if parts.policy.short {
        sums(parts.places).wanted as i64
    } else {
        0
    }
}

// Returns what is missing in 64 bits.
fn narrowed(missing: i128) -> i64
    requires low { pos 0 ≤ℤ missing }
    requires high { missing ≤ℤ pos SUM_LIMIT }
    ensures { result ≡ missing }
{
    missing as i64
}

// Returns the answer for a problem from its model in which no more than `most` is missing.
fn in_one_stage<S: Solves>(
    alloc: Global,
    solver: &mut S,
    planner: &Planner,
    most: i64,
) -> Result<PlannerAnswer, NoMemory>
    requires proper { IsProperPlanner planner.now }
    requires stands { StandsFor most planner.now }
    requires allowed { IsAllowed (misses_least planner.now) most planner.now }
    requires limits { HasLimits planner.now }
    ensures { IfOk result (IsStagedAnswer planner.now) }
{
    let model = limited_model_of(alloc, planner, most)?;
    let planned = plan(alloc, solver, &model)?;
    match planned {
        Planned::Plan(found) => {
            let missing = last_of(&found.carries);
            let plan = plan_of(alloc, planner, &found.carries)?;
            Ok(PlannerAnswer::Least(LeastPlannerPlan {
                plan,
                cost: found.cost,
                missing,
                shown: ShownModel {
                    model,
                    carries: found.carries,
                    prices: found.prices,
                },
            }))
        }
        Planned::NoPlan(found) => {
            planner_bottlenecks_have_no_plan();
            let bottleneck = told(alloc, planner, &found)?;
            Ok(PlannerAnswer::NoPlan(bottleneck))
        }
        Planned::Beyond(fault) => Ok(PlannerAnswer::Beyond(fault)),
    }
}

// Returns the least that is missing in a plan of a problem.
fn least_missing<S: Solves>(
    alloc: Global,
    solver: &mut S,
    planner: &Planner,
) -> Result<Missed, NoMemory>
    requires { IsProperPlanner planner.now }
    ensures { IfOk result (IsMissed planner.now) }
{
    let shortage = shortage_of(alloc, planner)?;
    let most = most_missing(&shortage);
    let model = limited_model_of(alloc, &shortage, most)?;
    let planned = plan(alloc, solver, &model)?;
    match planned {
        Planned::Plan(found) => Ok(Missed::Missing(narrowed(found.cost))),
        Planned::NoPlan(found) => {
            planner_bottlenecks_have_no_plan();
            let bottleneck = told(alloc, &shortage, &found)?;
            Ok(Missed::Unplanned(bottleneck))
        }
        Planned::Beyond(fault) => Ok(Missed::TooGreat(fault)),
    }
}

// Returns the answer for a problem in which bounds have the limits that they need.
fn staged<S: Solves>(
    alloc: Global,
    solver: &mut S,
    planner: &Planner,
) -> Result<PlannerAnswer, NoMemory>
    requires proper { IsProperPlanner planner.now }
    requires limits { HasLimits planner.now }
    ensures { IfOk result (IsStagedAnswer planner.now) }
{
    if !misses_least(planner) {
        let most = most_missing(planner);
        return in_one_stage(alloc, solver, planner, most);
    }
    match least_missing(alloc, solver, planner)? {
        Missed::Missing(most) => in_one_stage(alloc, solver, planner, most),
        Missed::Unplanned(found) => Ok(PlannerAnswer::NoPlan(found)),
        Missed::TooGreat(fault) => Ok(PlannerAnswer::Beyond(fault)),
    }
}

/// Returns a least plan of a planner's problem, with its cost and what is missing in total; or
/// places that must send, or take, more than they can, if the problem has no plan; or the first
/// fault of the network of a model of the problem: a number beyond the limits, or a least amount
/// above a limit.
///
/// Where demands may be missing and no penalty is named, for all places or for one, no plan misses
/// less than the plan returned, and of those that miss as much none costs less. That holds of plans
/// in finer units, too.
///
/// A least plan comes with the model that it was found in and with prices that show it there: the
/// model of the problem in which bounds have the limits that they need, and in which no more is
/// missing than places want, or than the least that has to be missing.
///
/// # Errors
/// `NoMemory` if an allocation is refused. The model always has places, so it always allocates.
pub fn least<S: Solves>(
    alloc: Global,
    solver: &mut S,
    planner: &Planner,
) -> Result<PlannerAnswer, NoMemory>
    ensures { IfOk result (IsPlannerAnswer planner.now) }
{
    match limit_for(planner) {
        Some(limit) => {
            let limited = limited_of(alloc, planner, limit)?;
            staged(alloc, solver, &limited)
        }
        None => staged(alloc, solver, planner),
    }
}
