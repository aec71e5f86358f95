//! Flow problems and assignment problems solved in arrays, without texts.
ghost use Rattle.std.specs.Prelude.{◌≡◌, ◌≢◌, ◌⊎◌, IfSome, Some, length, true, false};
ghost use Rattle.mcf_c.specs.Choices.{choice_of, is_mender};
ghost use Rattle.mcf_c.specs.Handing.{Answers, IsMadeFlow};
ghost use Rattle.mcf_c.specs.Problems.{assignment_network, flow_network};

use crate::choosing::{Asked, McfChoice, choice_of, is_mender};
use crate::handing::answer_instance;
use crate::problems::{McfAssignment, McfFlowProblem, node_count};
use crate::statuses::{BUFFER_TOO_SMALL, FLOW, INVALID_CHOICE, INVALID_INPUT, NO_MEMORY};
use crate::verdicts::{McfVerdict, fault_numbers};
use mcf_instance::{assignment_problem, flow_problem};
use std::alloc::Global;

/// Solves a flow problem, and writes its flow by arc and its prices by node.
///
/// The status is 0 for a least-cost flow; 1 for a blocking set, whose nodes `prices` marks by 1 and
/// all others by 0; 2 if the arrays have a fault; 3 if memory runs out; 4 if a buffer doesn't have
/// the length of the arrays; 5 if the numbers mean no choice; and 6 if a price doesn't fit 64 bits.
/// `told` becomes the cost, the side and the number of nodes, or the fault; from 3 on it is
/// unchanged. `flow` is unchanged from 1 to 5 and `prices` from 2 to 5: at 6 both buffers are
/// written, and hold no answer. The form of the choice means nothing here. If its `check` isn't 0,
/// the checker judges a flow before the call returns it; that it accepts is proved.
#[unsafe(no_mangle)]
pub extern "C" fn mcf_solve_arcs(
    alloc: Global,
    problem: &McfFlowProblem<'_>,
    choice: &McfChoice,
    flow: &mut [i64],
    prices: &mut [i64],
    told: &mut McfVerdict,
) -> u32
    ensures answers { Answers (flow_network problem.now) (choice_of choice.now) result flow.old flow.new prices.old prices.new told.old told.new }
    ensures made { result ≡ FLOW → IfSome (choice_of choice.now) (λ c. IsMadeFlow c (flow_network problem.now) flow.new) }
{
    let Some(chosen) = choice_of(choice) else {
        return INVALID_CHOICE;
    };
    let asked = Asked {
        choice: chosen,
        is_judged: choice.check != 0,
        is_again: false,
    };
    solve_arcs(alloc, problem, asked, flow, prices, told)
}

/// Solves a flow problem from the answer to a similar one, which `flow` and `prices` hold, as
/// `mcf_solve_arcs` writes them, and writes the new answer over it.
///
/// The statuses and what is written are those of `mcf_solve_arcs`. The old answer may be anything:
/// the new one is right in any case, and is found faster if few costs, bounds and supplies have
/// changed since (reoptimization: Ahuja, Magnanti and Orlin, Network Flows, section 9.11). The
/// engines auto and fast mend the old answer; the others solve the problem from nothing.
#[unsafe(no_mangle)]
pub extern "C" fn mcf_solve_arcs_from(
    alloc: Global,
    problem: &McfFlowProblem<'_>,
    choice: &McfChoice,
    flow: &mut [i64],
    prices: &mut [i64],
    told: &mut McfVerdict,
) -> u32
    ensures answers { Answers (flow_network problem.now) (choice_of choice.now) result flow.old flow.new prices.old prices.new told.old told.new }
    ensures made { result ≡ FLOW → IfSome (choice_of choice.now) (λ c. is_mender c.engine ≡ false → IsMadeFlow c (flow_network problem.now) flow.new) }
{
    let Some(chosen) = choice_of(choice) else {
        return INVALID_CHOICE;
    };
    let asked = Asked {
        choice: chosen,
        is_judged: choice.check != 0,
        is_again: is_mender(chosen.engine),
    };
    solve_arcs(alloc, problem, asked, flow, prices, told)
}

// Solves a flow problem as it is asked.
fn solve_arcs(
    alloc: Global,
    problem: &McfFlowProblem<'_>,
    asked: Asked,
    flow: &mut [i64],
    prices: &mut [i64],
    told: &mut McfVerdict,
) -> u32
    ensures answers { Answers (flow_network problem.now) (Some asked.choice) result flow.old flow.new prices.old prices.new told.old told.new }
    ensures made { result ≡ FLOW → asked.is_again ≡ false → IsMadeFlow asked.choice (flow_network problem.now) flow.new }
{
    if !are_rooms(flow, problem.arcs.len(), prices, problem.supplies.len()) {
        return BUFFER_TOO_SMALL;
    }
    match flow_problem(alloc, problem.supplies, problem.arcs) {
        Ok(Ok(instance)) => answer_instance(alloc, &instance, asked, flow, prices, told),
        Ok(Err(fault)) => {
            *told = fault_numbers(&fault);
            INVALID_INPUT
        }
        Err(_) => NO_MEMORY,
    }
}

/// Whether arrays for the arcs and for the nodes have these lengths.
pub(crate) fn are_rooms(flow: &[i64], arcs: usize, prices: &[i64], nodes: usize) -> bool
    ensures yes { result ≡ true → (length flow.now ≡ arcs) × (length prices.now ≡ nodes) }
    ensures no { result ≡ false → (length flow.now ≢ arcs) ⊎ (length prices.now ≢ nodes) }
{
    flow.len() == arcs && prices.len() == nodes
}

/// Solves an assignment problem, and writes which pairs are assigned, by 1 and otherwise 0, and the
/// prices of the rows and then of the columns.
///
/// The statuses are those of `mcf_solve_arcs`, with the rows and then the columns as nodes and the
/// pairs as arcs.
#[unsafe(no_mangle)]
pub extern "C" fn mcf_solve_pairs(
    alloc: Global,
    problem: &McfAssignment<'_>,
    choice: &McfChoice,
    flow: &mut [i64],
    prices: &mut [i64],
    told: &mut McfVerdict,
) -> u32
    ensures answers { Answers (assignment_network problem.now) (choice_of choice.now) result flow.old flow.new prices.old prices.new told.old told.new }
    ensures made { result ≡ FLOW → IfSome (choice_of choice.now) (λ c. IsMadeFlow c (assignment_network problem.now) flow.new) }
{
    let Some(chosen) = choice_of(choice) else {
        return INVALID_CHOICE;
    };
    let asked = Asked {
        choice: chosen,
        is_judged: choice.check != 0,
        is_again: false,
    };
    if !are_rooms(flow, problem.pairs.len(), prices, node_count(problem)) {
        return BUFFER_TOO_SMALL;
    }
    match assignment_problem(alloc, problem.rows, problem.columns, problem.pairs) {
        Ok(Ok(instance)) => answer_instance(alloc, &instance, asked, flow, prices, told),
        Ok(Err(fault)) => {
            *told = fault_numbers(&fault);
            INVALID_INPUT
        }
        Err(_) => NO_MEMORY,
    }
}
