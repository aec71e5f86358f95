//! The engine.
ghost use Rattle.std.specs.Prelude.{◌≡◌, ◌≤◌, IfOk, OnErr, false};
ghost use Rattle.mcf_flows.specs.Network.{node_count};
ghost use Rattle.mcf_again.specs.Made.{IsMadeByAgain};
ghost use Rattle.mcf_engine.specs.Outcomes.{IsOutcome};

use crate::mending::mend;
use mcf_engine::{Engine, Outcome};
use mcf_fast::Fast;
use mcf_network::Net;
use mcf_text::NoMemory;
use std::alloc::Global;
use std::marker::Model;

/// The answer to a similar net: the amount of each arc and the price of each node, in order.
///
/// It may be anything: the answer of the engine is right in any case.
#[derive(Drop)]
pub struct Hint {
    pub amounts: Vec<i64>,
    pub prices: Vec<i64>,
}

/// An engine for every net, which mends the answer to a similar one.
///
/// It changes the old flow so that the old prices show it, and then sends what nodes have too much
/// along shortest paths to nodes that lack it (reoptimization by successive shortest paths: Ahuja,
/// Magnanti and Orlin, Network Flows, sections 9.7 and 9.11). A judge checks the result by its
/// prices. If the hint has other sizes, or the mending gives up, which happens after a limited
/// amount of work or where there is no path, or if the judge refuses the result, `Fast` answers
/// from nothing.
///
/// The engine takes every net. Its model has whether the last state was mended, and the model of
/// `Fast`. No clause ties it to the hint.
#[derive(Drop)]
pub struct Again {
    hint: Hint,
    is_mended: bool,
    fast: Fast,
}

impl Model for Again {
    ghost use Rattle.mcf_again.specs.Made.{AgainState};

    ghost Value = { AgainState };

    ghost view = { λ a. record { is_mended = a.is_mended; fast = a.fast } };
}

impl Again {
    /// The engine with the answer to a similar net, and a new `Fast`.
    pub fn new(hint: Hint) -> Again
        ensures { result ≡ record { is_mended = false; fast = record { readings = 4096; pivots = 0; is_found = false } } }
    {
        Again {
            hint,
            is_mended: false,
            fast: Fast::new(),
        }
    }

    /// Whether the last state was mended.
    pub fn is_mended(&self) -> bool
        ensures { result ≡ self.now.is_mended }
    {
        self.is_mended
    }
}

impl Engine for Again {
    ghost use Rattle.std.specs.Prelude.{⊤};
    ghost use Rattle.mcf_again.specs.Made.{IsMadeByAgain};

    ghost Takes = { λ _. ⊤ };

    ghost Made = { λ old g s new. IsMadeByAgain old g s new };

    fn takes(&self, _net: &Net) -> bool {
        true
    }

    /// A least state of the net, with its prices, or a node set that shows that there is none.
    ///
    /// # Errors
    ///
    /// `NoMemory` if an allocation is refused; a net without nodes needs none. The engine is then
    /// unchanged.
    fn solve<'n>(&mut self, alloc: Global, net: &'n Net) -> Result<Outcome<'n>, NoMemory>
        ensures outcome { IfOk result (IsOutcome (λ s. IsMadeByAgain self.old net.now s self.new) net.now) }
        ensures wants { OnErr result (1 ≤ node_count net.now) }
        ensures err { OnErr result (self.new ≡ self.old) }
    {
        if let Some((state, prices)) = mend(alloc, net, &self.hint)? {
            self.is_mended = true;
            return Ok(Outcome::Least(state, prices));
        }
        let outcome = self.fast.solve(alloc, net)?;
        self.is_mended = false;
        Ok(outcome)
    }
}
