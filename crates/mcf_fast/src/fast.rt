//! The engine.
ghost use Rattle.std.specs.Prelude.{◌≡◌, ◌≤◌, IfOk, OnErr, false, pos};
ghost use Rattle.mcf_flows.specs.Network.{node_count};
ghost use Rattle.mcf_engine.specs.Outcomes.{IsOutcome};
ghost use Rattle.mcf_fast.specs.Made.{IsMadeByFast, IsMadeOrFound, IsRunUnderWay};
ghost use Rattle.mcf_network.specs.Chosen.{supply_total};

use crate::running::{Watched, run_to_end, run_watched};
use mcf_engine::{Engine, Outcome};
use mcf_fast_scaling::find_least;
use mcf_network::{Net, unbalanced};
use mcf_numbers::Count;
use mcf_simplex::Ended;
use mcf_text::NoMemory;
use std::alloc::Global;
use std::marker::Model;

// The greatest number of times that the search reads the whole net: ten times what the hardest
// tried net takes.
const READINGS: u32 = 4096;

/// An engine for every net: the network simplex begins, and is watched. If its first pivots show a
/// net on which the search is expected to be faster (a bad case), the search takes over, and a
/// judge checks its flow by prices.
///
/// The simplex picks by `Following`, a block rule. After each quarter of as many pivots as there
/// are nodes, counts decide, so that a net is always answered in the same way. The search is
/// `find_least`, which scales costs, augments along short paths, and has the judge within. If the
/// search gives up, or the judge refuses its flow, the simplex starts again, unwatched, and runs to
/// its end.
///
/// The engine takes every net. Its model has the limit on how often the search may read the whole
/// net, which no clause ties to what the search reads; and, of the last solve, the number of pivots
/// of its last run, and whether the search answered.
#[derive(Drop)]
pub struct Fast {
    readings: u32,
    pivots: Count,
    is_found: bool,
}

impl Model for Fast {
    ghost use Rattle.mcf_fast.specs.Made.{FastState};

    ghost Value = { FastState };

    ghost view = { λ a. record { readings = a.readings; pivots = a.pivots.number; is_found = a.is_found } };
}

impl Fast {
    /// The engine whose search may read the net 4,096 times.
    pub fn new() -> Fast
        ensures { result ≡ record { readings = 4096; pivots = 0; is_found = false } }
    {
        Fast::within(READINGS)
    }

    /// The engine whose search may read the net this many times before it gives up.
    pub fn within(readings: u32) -> Fast
        ensures { result ≡ record { readings = readings; pivots = 0; is_found = false } }
    {
        Fast {
            readings,
            pivots: Count::zero(),
            is_found: false,
        }
    }
}

impl Engine for Fast {
    ghost use Rattle.std.specs.Prelude.{⊤};
    ghost use Rattle.mcf_fast.specs.Made.{IsMadeByFast};

    ghost Takes = { λ _. ⊤ };

    ghost Made = { λ old g s new. IsMadeByFast old g s new };

    fn takes(&self, _net: &Net) -> bool {
        true
    }

    /// A least state of the net, with its prices, or a node set that shows that there is none.
    ///
    /// The simplex allocates its memory before it begins, and so does the search: what runs then
    /// gets no allocator.
    ///
    /// # Errors
    ///
    /// `NoMemory` if an allocation is refused; a net without nodes needs none. The engine is then
    /// unchanged.
    fn solve<'n>(&mut self, alloc: Global, net: &'n Net) -> Result<Outcome<'n>, NoMemory>
        ensures outcome { IfOk result (IsOutcome (λ s. IsMadeByFast self.old net.now s self.new) net.now) }
        ensures wants { OnErr result (1 ≤ node_count net.now) }
        ensures err { OnErr result (self.new ≡ self.old) }
        ensures same { self.new.readings ≡ self.old.readings }
    {
        let answer = answer(alloc, net, self.readings)?;
        self.pivots = answer.pivots;
        self.is_found = answer.is_found;
        Ok(answer.outcome)
    }
}

// An answer, the number of pivots of the last run (the one that was left, if the search answered),
// and whether the search found it.
#[derive(Drop)]
struct Answered<'n> {
    outcome: Outcome<'n>,
    pivots: Count,
    is_found: bool,
}

// The answer to a net, whose search may read it this many times.
fn answer<'n>(alloc: Global, net: &'n Net, readings: u32) -> Result<Answered<'n>, NoMemory>
    ensures outcome { IfOk result (λ a. IsOutcome (λ s. IsMadeOrFound a.is_found net.now s a.pivots.number) net.now a.outcome) }
    ensures wants { OnErr result (1 ≤ node_count net.now) }
{
    // The search answers a net without nodes, and allocates nothing for it.
    if net.node_count() == 0 {
        if let Some((state, prices)) = find_least(alloc, net, readings)? {
            return Ok(Answered {
                outcome: Outcome::Least(state, prices),
                pivots: Count::zero(),
                is_found: true,
            });
        }
    }
    if let Some((set, side)) = unbalanced(alloc, net)? {
        return Ok(Answered {
            outcome: Outcome::Blocked(set, side),
            pivots: Count::zero(),
            is_found: false,
        });
    }
    match run_watched(alloc, net)? {
        Watched::Over(ended) => Ok(of_run(ended)),
        Watched::Left(pivots) => answer_to_left(alloc, net, readings, pivots),
    }
}

// The answer of the search to a net whose run was left after these pivots. `find_least` answers
// only with what its judge accepted; otherwise the simplex starts again and runs to its end.
fn answer_to_left<'n>(
    alloc: Global,
    net: &'n Net,
    readings: u32,
    pivots: Count,
) -> Result<Answered<'n>, NoMemory>
    requires balanced { supply_total net.now ≡ pos 0 }
    requires some { 1 ≤ pivots.number }
    requires under_way { IsRunUnderWay net.now pivots.number }
    ensures outcome { IfOk result (λ a. IsOutcome (λ s. IsMadeOrFound a.is_found net.now s a.pivots.number) net.now a.outcome) }
{
    if let Some((state, prices)) = find_least(alloc, net, readings)? {
        return Ok(Answered {
            outcome: Outcome::Least(state, prices),
            pivots,
            is_found: true,
        });
    }
    let ended = run_to_end(alloc, net)?;
    Ok(of_run(ended))
}

// The answer of a run.
fn of_run<'n>(ended: Ended<'n>) -> Answered<'n>
    ensures outcome { result.outcome ≡ ended.entry.outcome }
    ensures pivots { result.pivots.number ≡ ended.entry.pivots.number }
    ensures is_found { result.is_found ≡ false }
{
    Answered {
        outcome: ended.outcome,
        pivots: ended.pivots,
        is_found: false,
    }
}
