//! The sparse answer for a least state.
ghost use Rattle.std.specs.Prelude.{◌≡◌, ◌≤◌, ◌++◌, ◌+ℤ◌, ◌*ℤ◌, [], pos, true, IfOk, OnErr, OnOk, length};
ghost use Rattle.std.specs.List.{cons_option};
ghost use Rattle.std.specs.Ordering.{int_eq};
ghost use Rattle.mcf_answer.specs.Ranges.{IsAmount};
ghost use Rattle.mcf_checker.specs.Correct.{spread};
ghost use Rattle.mcf_network.specs.States.{IsFeasibleState, amount_at};
ghost use Rattle.mcf_flows.specs.declared.problem.Problem.TheVariants.{Asn};
ghost use Rattle.mcf_flows.specs.Flow.{cost};
ghost use Rattle.mcf_flows.specs.Limits.{limits};
ghost use Rattle.mcf_flows.specs.Network.{IsArcNumber};
ghost use Rattle.mcf_flows.specs.WellFormed.{IsWellFormed};
ghost use Rattle.mcf_network.specs.Removal.{net_of};
ghost use Rattle.mcf_network.specs.Restoring.{restored};
ghost use Rattle.mcf_engine.specs.Outcomes.{AreStatePrices, IsLeastState};
ghost use Rattle.mcf_solver.specs.Answering.{IsLeastSparse};
ghost use Rattle.mcf_solver.specs.Forms.{moved_arc, moved_of};
ghost use Rattle.mcf_solver.specs.Private.MovedArcs.{AreMovedOf};

use mcf_answer::{MovedList, PriceList, SparseAnswer};
use mcf_engine::greatest_prices_are_small;
use mcf_instance::{Arc, Instance, Problem};
use mcf_network::{
    State, greatest_prices_carry_over, restored_amount, restored_least_flows_are_least,
};
use mcf_text::{ArcId, NoMemory};
use std::alloc::Global;

/// The sparse answer for a least state of the net of an instance, with its prices: the arcs that
/// don't carry their lower bound, the flow's cost, and the prices, which show the flow as they show
/// the state.
///
/// # Errors
///
/// `NoMemory` if an allocation is refused; an instance without arcs needs none.
pub(crate) fn sparse_answer(
    alloc: Global,
    instance: &Instance,
    state: &State<'_>,
    prices: Vec<i128>,
) -> Result<SparseAnswer, NoMemory>
    requires least { IsLeastState (net_of instance.now) state.now }
    requires shown { AreStatePrices (net_of instance.now) state.now prices.items }
    ensures solution { IfOk result (IsLeastSparse instance.now) }
    ensures restores { IfOk result (λ a. spread instance.now.arcs a.moved ≡ restored instance.now.arcs state.now.amounts) }
    ensures listed { IfOk result (λ a. a.moved ≡ moved_of instance.now.arcs (spread instance.now.arcs a.moved)) }
    ensures wants { OnErr result (1 ≤ length instance.now.arcs) }
{
    restored_least_flows_are_least();
    greatest_prices_carry_over();
    greatest_prices_are_small();
    let stated = stated_along(alloc, instance, state)?;
    Ok(SparseAnswer {
        cost: stated.cost,
        moved: MovedList::new(stated.moved),
        prices: PriceList::new(prices),
    })
}

// The cost of a flow, and the arcs that don't carry their lower bound, each with its flow,
// ascending.
#[derive(Drop)]
struct StatedFlow {
    cost: i128,
    moved: Vec<(ArcId, i128)>,
}

// The cost of the flow that a state stands for, and the arcs that don't carry their lower bound, in
// one pass over the arcs.
fn stated_along(
    alloc: Global,
    instance: &Instance,
    state: &State<'_>,
) -> Result<StatedFlow, NoMemory>
    requires { IsFeasibleState (net_of instance.now) state.now }
    ensures value { IfOk result (λ made. made.cost ≡ cost instance.now.arcs (restored instance.now.arcs state.now.amounts)) }
    ensures small { IfOk result (λ made. IsAmount made.cost) }
    ensures moved { IfOk result (λ made. made.moved.items ≡ moved_of instance.now.arcs (restored instance.now.arcs state.now.amounts)) }
    ensures are_moved { IfOk result (λ made. AreMovedOf instance.now made.moved.items) }
    ensures well_formed { IsWellFormed limits instance.now }
    ensures wants { OnErr result (1 ≤ length instance.now.arcs) }
{
    let count = instance.arc_count();
    let units = is_assignment(instance);
    let mut total = 0;
    let mut moved = Vec::new(alloc);
    for i in 0..count {
        let number = ArcId::at(i);
        if is_idle(state, units, number) {
            continue;
        }
        let arc = instance.arc(number);
        let amount = restored_amount(instance, state, number);
        total = with_cost(total, arc.cost, amount);
        add_moved(&mut moved, number, &arc, amount)?;
    }
    Ok(StatedFlow { cost: total, moved })
}

// Whether an instance is an assignment, whose arcs have lower bound 0 and are no loops.
fn is_assignment(instance: &Instance) -> bool
    ensures { result ≡ true → instance.now.problem ≡ Asn }
{
    match instance.problem() {
        Problem::Min => false,
        Problem::Asn => true,
    }
}

// Whether an arc carries nothing and its lower bound is 0: then nothing else of it is read.
#[inline(always)]
fn is_idle(state: &State<'_>, units: bool, k: ArcId) -> bool
    requires { IsArcNumber state.now.net k }
    ensures { result ≡ true → (units ≡ true) × (amount_at state.now k ≡ pos 0) }
{
    if !units {
        return false;
    }
    state.amount(k) <= 0
}

// A sum plus the cost of an amount, which is 0 for most arcs.
#[inline(always)]
fn with_cost(total: i128, cost: i128, amount: i128) -> i128
    requires total { IsAmount total }
    requires term { IsAmount (cost *ℤ amount) }
    ensures { result ≡ total +ℤ cost *ℤ amount }
{
    if amount == 0 {
        return total;
    }
    total + cost * amount
}

// Appends an arc by its number with its flow, unless that is its lower bound.
fn add_moved(
    moved: &mut Vec<(ArcId, i128)>,
    number: ArcId,
    arc: &Arc,
    amount: i128,
) -> Result<(), NoMemory>
    ensures { OnOk result (moved.new.items ≡ moved.old.items ++ cons_option (moved_arc (number, (arc.now, amount))) []) }
{
    if carries_low(arc, amount) {
        return Ok(());
    }
    moved.push((number, amount))?;
    Ok(())
}

// Whether an arc carries its lower bound.
fn carries_low(arc: &Arc, amount: i128) -> bool
    ensures { result ≡ int_eq amount arc.now.low }
{
    amount == arc.low
}
