//! The answer for a least state.
ghost use Rattle.std.specs.Prelude.{◌≡◌, ◌≤◌, IfOk, OnErr, length};
ghost use Rattle.std.specs.List.{All};
ghost use Rattle.mcf_answer.specs.Ranges.{IsAmount};
ghost use Rattle.mcf_answer.specs.Solution.{IsSent};
ghost use Rattle.mcf_checker.specs.Correct.{amounts, arc_ends, sent_ends};
ghost use Rattle.mcf_network.specs.States.{IsFeasibleState};
ghost use Rattle.mcf_flows.specs.Flow.{cost};
ghost use Rattle.mcf_flows.specs.Limits.{limits};
ghost use Rattle.mcf_flows.specs.WellFormed.{IsWellFormed};
ghost use Rattle.mcf_network.specs.Removal.{net_of};
ghost use Rattle.mcf_network.specs.Restoring.{restored};
ghost use Rattle.mcf_engine.specs.Outcomes.{AreStatePrices, IsLeastState};
ghost use Rattle.mcf_solver.specs.Answering.{IsLeastSolution};

use mcf_answer::{FlowAnswer, PriceList, Sent, SentList};
use mcf_engine::greatest_prices_are_small;
use mcf_instance::Instance;
use mcf_network::{
    State, greatest_prices_carry_over, restored_amount, restored_least_flows_are_least,
};
use mcf_text::{ArcId, NoMemory};
use std::alloc::Global;

/// The answer for a least state of the net of an instance, with its prices: its flow, the flow's
/// cost, and the prices, which show the flow as they show the state.
///
/// # Errors
///
/// `NoMemory` if an allocation is refused; an instance without arcs needs none.
pub(crate) fn flow_answer(
    alloc: Global,
    instance: &Instance,
    state: &State<'_>,
    prices: Vec<i128>,
) -> Result<FlowAnswer, NoMemory>
    requires least { IsLeastState (net_of instance.now) state.now }
    requires shown { AreStatePrices (net_of instance.now) state.now prices.items }
    ensures solution { IfOk result (IsLeastSolution instance.now) }
    ensures restores { IfOk result (λ a. amounts a.sent ≡ restored instance.now.arcs state.now.amounts) }
    ensures wants { OnErr result (1 ≤ length instance.now.arcs) }
{
    restored_least_flows_are_least();
    greatest_prices_carry_over();
    greatest_prices_are_small();
    let carried = carried_along(alloc, instance, state)?;
    Ok(FlowAnswer {
        cost: carried.cost,
        sent: SentList::new(carried.sent),
        prices: PriceList::new(prices),
    })
}

// The cost of a flow, and the flow of each arc, with its ends, in the order of the arcs.
#[derive(Drop)]
struct Carried {
    cost: i128,
    sent: Vec<Sent>,
}

// The cost of the flow that a state stands for, and the flow of each arc, in one pass over the
// arcs.
fn carried_along(alloc: Global, instance: &Instance, state: &State<'_>) -> Result<Carried, NoMemory>
    requires { IsFeasibleState (net_of instance.now) state.now }
    ensures value { IfOk result (λ made. made.cost ≡ cost instance.now.arcs (restored instance.now.arcs state.now.amounts)) }
    ensures small { IfOk result (λ made. IsAmount made.cost) }
    ensures ends { IfOk result (λ made. sent_ends made.sent.items ≡ arc_ends instance.now) }
    ensures flow { IfOk result (λ made. amounts made.sent.items ≡ restored instance.now.arcs state.now.amounts) }
    ensures fit { IfOk result (λ made. All IsSent made.sent.items) }
    ensures well_formed { IsWellFormed limits instance.now }
    ensures wants { OnErr result (1 ≤ length instance.now.arcs) }
{
    let count = instance.arc_count();
    let mut total = 0;
    let mut sent = Vec::with_capacity(alloc, count as usize)?;
    for i in 0..count {
        let number = ArcId::at(i);
        let arc = instance.arc(number);
        let amount = restored_amount(instance, state, number);
        total += arc.cost * amount;
        sent.push(Sent {
            src: arc.src,
            dst: arc.dst,
            flow: amount,
        })?;
    }
    Ok(Carried { cost: total, sent })
}
