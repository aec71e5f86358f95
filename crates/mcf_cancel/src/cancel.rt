//! The plain engine.
ghost use Rattle.std.specs.Prelude.{◌≡◌, ◌≤◌, IfOk, OnErr, ⊤};
ghost use Rattle.mcf_network.specs.States.{IsFeasibleState, IsPseudoflow};
ghost use Rattle.mcf_flows.specs.Network.{node_count};
ghost use Rattle.mcf_engine.specs.NegativeCycles.{IsCancelled, IsNegativeCycle};
ghost use Rattle.mcf_engine.specs.Outcomes.{AreStatePrices, IsLeastState, IsOutcome};

use crate::recovered::{Recovered, recover};
use mcf_engine::{Engine, Outcome};
use mcf_feas::{Feas, feasible};
use mcf_network::{Net, Rid, State, push_along, room_along};
use mcf_text::NoMemory;
use std::alloc::Global;

/// The plain engine (baseline): a feasible flow, then negative cycles cancelled until there is none
/// (Klein; Ahuja, Magnanti and Orlin, Network Flows, section 9.6).
///
/// It takes every net, and it is slow: each cycle may lower the cost by only 1.
#[derive(Clone, Copy, Debug, Default)]
pub struct Cancel;

impl Cancel {
    /// The engine, which has no state.
    pub fn new() -> Cancel {
        Cancel
    }
}

impl Engine for Cancel {
    ghost use Rattle.std.specs.Prelude.{⊤};

    ghost Takes = { λ _. ⊤ };

    ghost Made = { λ _ _ _ _. ⊤ };

    fn takes(&self, _net: &Net) -> bool {
        true
    }

    /// A least state of the net, with its prices, or a node set that shows that there is none.
    ///
    /// # Errors
    ///
    /// `NoMemory` if an allocation is refused; a net without nodes needs none.
    fn solve<'n>(&mut self, alloc: Global, net: &'n Net) -> Result<Outcome<'n>, NoMemory>
        ensures outcome { IfOk result (IsOutcome (λ _. ⊤) net.now) }
        ensures wants { OnErr result (1 ≤ node_count net.now) }
        ensures err { OnErr result (self.new ≡ self.old) }
    {
        match feasible(alloc, net)? {
            Feas::Flow(state) => {
                let (least, prices) = cancel_cycles(alloc, state)?;
                Ok(Outcome::Least(least, prices))
            }
            Feas::Blocked(set, side) => Ok(Outcome::Blocked(set, side)),
        }
    }
}

// Cancels negative cycles, until there is none: the state is then least, and has prices.
fn cancel_cycles<'n>(
    alloc: Global,
    mut state: State<'n>,
) -> Result<(State<'n>, Vec<i128>), NoMemory>
    requires { IsFeasibleState state.net state }
    ensures least { IfOk result (λ found. IsLeastState state.entry.net found.0) }
    ensures shown { IfOk result (λ found. AreStatePrices state.entry.net found.0 found.1.items) }
    ensures wants { OnErr result (1 ≤ node_count state.entry.net) }
{
    'cycles: loop {
        match recover(alloc, &state)? {
            Recovered::Prices(prices) => return Ok((state, prices)),
            Recovered::Cycle(walk) => cancel_cycle(&mut state, walk.as_slice()),
        }
    }
}

// Pushes as much as possible around a negative cycle.
fn cancel_cycle(state: &mut State<'_>, walk: &[Rid])
    requires flow { IsPseudoflow state.old }
    requires cycle { IsNegativeCycle state.old walk.now }
    ensures { IsCancelled state.old state.new walk.now }
{
    let amount = room_along(state, walk);
    push_along(state, walk, amount);
}
