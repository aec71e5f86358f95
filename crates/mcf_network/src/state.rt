//! Residual states.
ghost use Rattle.std.specs.Prelude.{◌≡◌, ◌+ℤ◌, ◌-ℤ◌, ◌*◌, ◌^◌, ◌≤◌, ◌≤ℤ◌, IfOk, OnErr, if◌then◌else◌, length, pos, replicate};
ghost use Rattle.mcf_flows.specs.Network.{IsArcNumber, IsNode, node_count};
ghost use Rattle.mcf_flows.specs.WellFormed.{IsUpTo};
ghost use Rattle.mcf_network.specs.Nets.{surplus_limit, width_limit};
ghost use Rattle.mcf_network.specs.Residual.{arc_at, head, tail};
ghost use Rattle.mcf_network.specs.States.{IsPseudoflow, MovesSurplus, amount_at, pushed, room_of, surplus_at};

use crate::amounts::Amounts;
use crate::net::Net;
use crate::rid::Rid;
use crate::surplus::move_surplus;
use mcf_text::{ArcId, NoMemory, NodeId};
use std::alloc::Global;
use std::marker::Model;

/// A state of a net (a pseudoflow): for each arc an amount between 0 and its width, and for each
/// node its surplus (excess), which is its supply less the net outflow of the amounts.
///
/// Clauses see the net and the amounts.
#[derive(Drop)]
pub struct State<'n> {
    pub(crate) net: &'n Net,
    amounts: Amounts,
    surpluses: Vec<i128>,
}

impl<'n> Model for State<'n> {
    ghost use Rattle.mcf_network.specs.Private.StoredAmounts.{HaveWidthsUpTo, amounts_in, limit_of};
    ghost use Rattle.mcf_network.specs.States.{Pseudoflow, KeepsSurplus};

    ghost Value = { Pseudoflow };

    ghost view = { λ s. record { net = s.net.now; amounts = amounts_in s.amounts } };

    ghost invariant = { λ s. KeepsSurplus (record { net = s.net.now; amounts = amounts_in s.amounts }) s.surpluses.items
        × HaveWidthsUpTo (limit_of s.amounts) s.net.now.arcs };
}

impl<'n> State<'n> {
    /// The state without any flow.
    ///
    /// # Errors
    ///
    /// `NoMemory` if an allocation is refused; a net without nodes needs none.
    pub fn zero(alloc: Global, net: &'n Net) -> Result<State<'n>, NoMemory>
        ensures value { IfOk result (λ s. s ≡ record { net = net.now; amounts = replicate (length net.now.arcs) (pos 0) }) }
        ensures valid { IfOk result IsPseudoflow }
        ensures wants { OnErr result (1 ≤ node_count net.now) }
    {
        let amounts = Amounts::zero(alloc, net.links.as_slice().len(), net.widths.is_empty())?;
        let surpluses = copy_of(alloc, &net.supplies)?;
        Ok(State {
            net,
            amounts,
            surpluses,
        })
    }

    /// The net.
    pub fn net(&self) -> &'n Net
        ensures value { result.now ≡ self.now.net }
        ensures valid { IsPseudoflow self.now }
    {
        self.net
    }

    /// The amount of an arc, from 0 to its width.
    pub fn amount(&self, k: ArcId) -> i128
        requires { IsArcNumber self.now.net k }
        ensures value { result ≡ amount_at self.now k }
        ensures low { pos 0 ≤ℤ result }
        ensures high { result ≤ℤ (arc_at self.now.net k).cap }
        ensures valid { IsPseudoflow self.now }
    {
        i128::from(self.amounts.get(k.place()))
    }

    /// The surplus (excess) of a node: its supply less the net outflow of the amounts, at most 2 *
    /// 10^26 from 0.
    pub fn surplus(&self, v: NodeId) -> i128
        requires { IsNode (node_count self.now.net) v }
        ensures value { result ≡ surplus_at self.now v }
        ensures small { IsUpTo surplus_limit result }
        ensures valid { IsPseudoflow self.now }
    {
        self.surpluses[v.place()]
    }

    /// The room (residual capacity) of a residual arc: how much more it can carry, from 0 to 2 *
    /// 10^18. Backward it is the amount of the arc, forward its width less its amount.
    pub fn room(&self, r: Rid) -> i128
        requires { IsArcNumber self.now.net r.arc }
        ensures value { result ≡ room_of self.now r }
        ensures low { pos 0 ≤ℤ result }
        ensures high { result ≤ℤ pos width_limit }
    {
        let amount = i128::from(self.amounts.get(r.arc.place()));
        if r.back {
            amount
        } else {
            self.net.width(r.arc) - amount
        }
    }

    /// Pushes an amount along a residual arc that has room for it: this much surplus moves from its
    /// tail to its head, and nothing else changes.
    pub fn push(&mut self, r: Rid, amount: i128)
        requires arc { IsArcNumber self.old.net r.arc }
        requires low { pos 0 ≤ℤ amount }
        requires high { amount ≤ℤ room_of self.old r }
        ensures value { self.new ≡ pushed self.old r amount }
        ensures surpluses { MovesSurplus self.old self.new (tail self.old.net r) (head self.old.net r) amount }
        ensures valid { IsPseudoflow self.new }
    {
        let back = r.back;
        let k = r.arc.place();
        let net = self.net;
        let (from, to) = net.route(r);
        let changed = changed_amount(self.amounts.get(k), back, amount);
        self.amounts.set(k, changed);
        move_surplus(&mut self.surpluses, from, to, amount);
    }
}

// A copy of some numbers.
fn copy_of(alloc: Global, numbers: &[i128]) -> Result<Vec<i128>, NoMemory>
    ensures value { IfOk result (λ made. made.items ≡ numbers.now) }
    ensures wants { OnErr result (1 ≤ length numbers.now) }
{
    let mut made = Vec::new(alloc);
    made.extend_from_slice(numbers)?;
    Ok(made)
}

// The amount of an arc after a push of `x` along it, forward or backward.
fn changed_amount(amount: i64, back: bool, x: i128) -> i64
    requires amount_low { pos 0 ≤ℤ amount }
    requires amount_high { amount ≤ℤ pos width_limit }
    requires x_low { pos 0 ≤ℤ x }
    requires x_high { x ≤ℤ pos width_limit }
    ensures { result ≡ (if back then amount -ℤ x else amount +ℤ x) }
{
    let x = x as i64;
    if back { amount - x } else { amount + x }
}
