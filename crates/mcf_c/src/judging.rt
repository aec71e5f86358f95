//! Flows in arrays judged, without texts.
ghost use Rattle.std.specs.Prelude.{◌≡◌, if◌then◌else◌, length, nat_le, neg_ℤ, pos};
ghost use Rattle.mcf_answer.specs.Ranges.{amount_limit};
ghost use Rattle.mcf_c.specs.Judged.{Judges, claimed_cost};
ghost use Rattle.mcf_c.specs.Problems.{assignment_network, flow_network};
ghost use Rattle.mcf_checker.specs.Judging.{accepts};

use crate::arrays::are_rooms;
use crate::problems::{McfAssignment, McfFlowProblem, node_count};
use crate::statuses::{ACCEPTED, BUFFER_TOO_SMALL, INVALID_INPUT, NO_MEMORY, REJECTED};
use crate::verdicts::{McfVerdict, fault_numbers, numbers};
use mcf_checker::{Verdict, check_amounts};
use mcf_flows::{AMOUNT_LIMIT, NODE_LIMIT};
use mcf_instance::{Instance, assignment_problem, flow_problem};
use std::alloc::Global;

// The claimed cost, or one that no flow has if it is beyond the range of answers.
fn claimed_cost(told: &McfVerdict) -> i128
    ensures { result ≡ claimed_cost told.now }
{
    let size = u128::from(told.low) + 0x1_0000_0000_0000_0000 * u128::from(told.high);
    signed_cost(size, told.negative == 1)
}

// The cost of an absolute value and a sign, or one that no flow has if it is beyond the range of
// answers.
fn signed_cost(size: u128, is_negative: bool) -> i128
    ensures { result ≡ (if nat_le size amount_limit then (if is_negative then neg_ℤ (pos size) else pos size) else pos amount_limit) }
{
    if size > AMOUNT_LIMIT {
        return AMOUNT_LIMIT as i128;
    }
    if is_negative {
        -(size as i128)
    } else {
        size as i128
    }
}

/// Judges a flow by arc and prices by node for an instance.
pub(crate) fn judge_instance(
    alloc: Global,
    instance: &Instance,
    flow: &[i64],
    prices: &[i64],
    told: &mut McfVerdict,
) -> u32
    requires flow { length flow.now ≡ length instance.now.arcs }
    ensures { Judges instance.now flow.now prices.now result told.old told.new }
{
    prove!(instance.node_count() <= NODE_LIMIT);
    let cost = claimed_cost(told);
    let Ok(verdict) = check_amounts(alloc, instance, cost, flow, prices) else {
        return NO_MEMORY;
    };
    *told = numbers(&verdict);
    if accepts(&verdict) {
        ACCEPTED
    } else {
        REJECTED
    }
}

/// Whether a verdict accepts.
pub(crate) fn accepts(verdict: &Verdict) -> bool
    ensures { result ≡ accepts verdict.now }
{
    match verdict {
        Verdict::Flow(_) | Verdict::Blocked(_) | Verdict::Refused(_) => true,
        _ => false,
    }
}

/// Judges a flow by arc and prices by node for a flow problem, whoever made them. `told` holds the
/// claimed cost, and becomes the verdict.
///
/// The status is 0 if they are accepted, 1 if they aren't, 2 if the arrays have a fault, which
/// `told` becomes, 3 if memory runs out, and 4 if an array doesn't have the length of the others.
#[unsafe(no_mangle)]
pub extern "C" fn mcf_check_arcs(
    alloc: Global,
    problem: &McfFlowProblem<'_>,
    flow: &[i64],
    prices: &[i64],
    told: &mut McfVerdict,
) -> u32
    ensures { Judges (flow_network problem.now) flow.now prices.now result told.old told.new }
{
    if !are_rooms(flow, problem.arcs.len(), prices, problem.supplies.len()) {
        return BUFFER_TOO_SMALL;
    }
    match flow_problem(alloc, problem.supplies, problem.arcs) {
        Ok(Ok(instance)) => judge_instance(alloc, &instance, flow, prices, told),
        Ok(Err(fault)) => {
            *told = fault_numbers(&fault);
            INVALID_INPUT
        }
        Err(_) => NO_MEMORY,
    }
}

/// Judges assigned pairs and the prices of the rows and then the columns for an assignment problem,
/// whoever made them. `told` holds the claimed cost, and becomes the verdict.
///
/// The statuses are those of `mcf_check_arcs`.
#[unsafe(no_mangle)]
pub extern "C" fn mcf_check_pairs(
    alloc: Global,
    problem: &McfAssignment<'_>,
    flow: &[i64],
    prices: &[i64],
    told: &mut McfVerdict,
) -> u32
    ensures { Judges (assignment_network problem.now) flow.now prices.now result told.old told.new }
{
    if !are_rooms(flow, problem.pairs.len(), prices, node_count(problem)) {
        return BUFFER_TOO_SMALL;
    }
    match assignment_problem(alloc, problem.rows, problem.columns, problem.pairs) {
        Ok(Ok(instance)) => judge_instance(alloc, &instance, flow, prices, told),
        Ok(Err(fault)) => {
            *told = fault_numbers(&fault);
            INVALID_INPUT
        }
        Err(_) => NO_MEMORY,
    }
}
