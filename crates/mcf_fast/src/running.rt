//! Runs of the network simplex, watched or not.
ghost use Rattle.std.specs.Prelude.{◌≡◌, ◌≤◌, IfOk, false, pos};
ghost use Rattle.mcf_engine.specs.Outcomes.{IsOutcome};
ghost use Rattle.mcf_fast.specs.Made.{IsMadeOrFound};
ghost use Rattle.mcf_fast.specs.Private.Watching.{IsWatched};
ghost use Rattle.mcf_network.specs.Chosen.{supply_total};

use crate::watch::{Decision, Watch, rule_for};
use mcf_network::Net;
use mcf_numbers::Count;
use mcf_simplex::{Ended, Run};
use mcf_text::NoMemory;
use std::alloc::Global;

/// The result of a watched run.
#[derive(Drop)]
pub(crate) enum Watched<'n> {
    /// The run has ended.
    Over(Ended<'n>),
    /// The run was left, after these pivots.
    Left(Count),
}

/// Runs the simplex until no arc is eligible, or until the watch calls the net a bad case.
pub(crate) fn run_watched<'n>(alloc: Global, net: &'n Net) -> Result<Watched<'n>, NoMemory>
    requires balanced { supply_total net.now ≡ pos 0 }
    ensures { IfOk result (IsWatched net.now) }
{
    let mut run = Run::start(alloc, net, rule_for(net))?;
    let mut watch = Watch::of(net, run.counts());
    run.set_least_arcs(watch.first_arcs());
    'quarters: while !run.advance(watch.step()) {
        let decision = watch.decide(run.counts());
        if decision == Decision::Leave {
            return Ok(Watched::Left(run.leave()));
        }
        obey(&mut run, decision, watch.least_arcs());
    }
    Ok(Watched::Over(run.finish()))
}

// Sets the blocks of a run as the watch requests, with at least so many arcs if it continues. The
// run's model leaves out the size of blocks, so for clauses nothing changes.
fn obey(run: &mut Run<'_>, decision: Decision, least: u32)
    ensures { run.new ≡ run.old }
{
    match decision {
        Decision::Wait | Decision::Leave => {}
        Decision::Stay => run.set_least_arcs(least),
        Decision::Split(stretches) => run.set_stretches(stretches.max(1)),
    }
}

/// Runs the simplex from the initial basis to its end, unwatched.
pub(crate) fn run_to_end<'n>(alloc: Global, net: &'n Net) -> Result<Ended<'n>, NoMemory>
    requires balanced { supply_total net.now ≡ pos 0 }
    ensures { IfOk result (λ e. IsOutcome (λ s. IsMadeOrFound false net.now s e.pivots.number) net.now e.outcome) }
{
    let mut run = Run::start(alloc, net, rule_for(net))?;
    'rounds: while !run.advance(u32::MAX) {}
    Ok(run.finish())
}
