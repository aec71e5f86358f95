//! The interface of every engine.
ghost use Rattle.std.specs.Prelude.{◌≡◌, ◌≤◌, IfOk, IsTrue, OnErr, ◌↔◌};
ghost use Rattle.mcf_flows.specs.Network.{Network, node_count};
ghost use Rattle.mcf_network.specs.States.{Pseudoflow};
ghost use Rattle.mcf_engine.specs.Outcomes.{IsOutcome};

use mcf_flows::Side;
use mcf_network::{Net, NodeSet, State};
use mcf_text::NoMemory;
use std::alloc::Global;

/// An engine's answer for a net.
#[derive(Drop)]
pub enum Outcome<'n> {
    /// A state without surplus, such that no such state of the net costs less, and the greatest
    /// prices not above 0 that show it, one for each node, in order.
    Least(State<'n>, Vec<i128>),
    /// A node set that must send, or take, more than it can, so that the net has no feasible flow.
    Blocked(NodeSet, Side),
}

/// A method for minimum-cost flow: it answers each net that it takes.
pub trait Engine {
    // Which nets the engine takes.
    ghost Takes: { Network → Type 0 };

    // How a state was made: the engine before the call, the net, the state, and the engine
    // afterwards.
    ghost Made: { Self → Network → Pseudoflow → Self → Type 0 };

    // The nets on which the engine may fail for lack of memory.
    ghost Wants: { Network → Type 0 } = { λ g. 1 ≤ node_count g };

    /// Whether the engine takes a net.
    fn takes(&self, net: &Net) -> bool
        ensures { IsTrue result ↔ Takes net.now };

    /// A least state of a net that the engine takes, with its prices, or a node set that shows that
    /// there is none.
    ///
    /// # Errors
    ///
    /// `NoMemory` if an allocation is refused. The engine is then unchanged.
    fn solve<'n>(&mut self, alloc: Global, net: &'n Net) -> Result<Outcome<'n>, NoMemory>
        requires { Takes net.now }
        ensures outcome { IfOk result (IsOutcome (λ s. Made self.old net.now s self.new) net.now) }
        ensures wants { OnErr result (Wants net.now) }
        ensures err { OnErr result (self.new ≡ self.old) };
}
