//! The answer to a similar instance, as a hint.
ghost use Rattle.std.specs.Prelude.{◌≤◌, OnErr};
ghost use Rattle.mcf_flows.specs.Network.{node_count};

use mcf_again::Hint;
use mcf_instance::Instance;
use mcf_text::{ArcId, NoMemory};
use std::alloc::Global;

/// The hint that a flow by arc and prices by node give for the net of an instance: each arc's flow
/// less its lower bound, and the prices.
///
/// # Errors
///
/// `NoMemory` if an allocation is refused; an instance without nodes needs none.
pub(crate) fn hint_of(
    alloc: Global,
    instance: &Instance,
    flow: &[i64],
    prices: &[i64],
) -> Result<Hint, NoMemory>
    ensures wants { OnErr result (1 ≤ node_count instance.now) }
{
    let mut hint = Hint {
        amounts: Vec::new(alloc),
        prices: Vec::new(alloc),
    };
    if instance.node_count() == 0 {
        return Ok(hint);
    }
    hint.prices.extend_from_slice(prices)?;
    hint.amounts = amounts_of(alloc, instance, flow)?;
    Ok(hint)
}

// The flow of each arc less its lower bound.
fn amounts_of(alloc: Global, instance: &Instance, flow: &[i64]) -> Result<Vec<i64>, NoMemory> {
    let count = flow.len().min(instance.arc_count() as usize);
    let mut amounts = Vec::with_capacity(alloc, count)?;
    'arcs: for place in 0..count {
        let arc = instance.arc(ArcId::at(place as u32));
        amounts.push(above(flow[place], arc.low))?;
    }
    Ok(amounts)
}

// How much a flow is above a lower bound.
fn above(flow: i64, low: i128) -> i64 {
    i128::from(flow)
        .saturating_sub(low)
        .max(0)
        .min(0x7fff_ffff_ffff_ffff) as i64
}
