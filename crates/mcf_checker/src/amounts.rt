//! The verdict on a flow that is given as an array: the amount of each arc, in order.
ghost use Rattle.std.specs.Prelude.{◌≡◌, ◌≤◌, IfOk, OnErr, length};
ghost use Rattle.std.specs.List.{All};
ghost use Rattle.mcf_checker.specs.Amounts.{answer_along, sent_along};
ghost use Rattle.mcf_checker.specs.Judging.{bad_arc, solution_verdict};
ghost use Rattle.mcf_flows.specs.Network.{node_count};

use crate::price::Price;
use crate::solution::{arc_at, can_carry, flow_verdict};
use crate::stated::Stated;
use crate::verdict::Verdict;
use mcf_instance::Instance;
use mcf_text::NoMemory;
use std::alloc::Global;

// The first arc that can't carry its amount.
fn first_bad_amount(instance: &Instance, amounts: &[i64]) -> Option<u64>
    requires { length amounts.now ≡ length instance.now.arcs }
    ensures { result ≡ bad_arc instance.now (sent_along instance.now.arcs amounts.now) }
{
    for place in 0..instance.arc_count() {
        let arc = arc_at(instance, place);
        let amount = i128::from(amounts[place as usize]);
        if !can_carry(&arc, amount) {
            return Some(u64::from(place) + 1);
        }
    }
    None
}

/// The verdict on an amount for each arc of an instance, with their stated cost and prices.
///
/// # Errors
///
/// `NoMemory` if the allocation for the nodes' balances is refused; an instance without nodes needs
/// none.
pub(crate) fn amounts_verdict<P: Price>(
    alloc: Global,
    instance: &Instance,
    total: i128,
    amounts: &[i64],
    prices: &[P],
) -> Result<Verdict, NoMemory>
    requires one_amount_each { length amounts.now ≡ length instance.now.arcs }
    requires prices { All P.IsInRange prices.now }
    ensures value { IfOk result (λ v. v ≡ solution_verdict instance.now (answer_along instance.now total amounts.now (P.values prices.now))) }
    ensures wants { OnErr result (1 ≤ node_count instance.now) }
{
    if let Some(arc) = first_bad_amount(instance, amounts) {
        return Ok(Verdict::BadArc(arc));
    }
    flow_verdict(alloc, instance, total, prices, Stated::Amounts(amounts))
}
