//! A run in parts.
ghost use Rattle.std.specs.Prelude.{◌≡◌, ◌≤◌, IfOk, length, pos, true};
ghost use Rattle.mcf_basis.specs.Bases.{IsBasis};
ghost use Rattle.mcf_basis.specs.Starts.{IsStart};
ghost use Rattle.mcf_basis.specs.Structures.{state_of};
ghost use Rattle.mcf_basis.specs.Violations.{HasNoEligible};
ghost use Rattle.mcf_network.specs.Chosen.{supply_total};
ghost use Rattle.mcf_flows.specs.Network.{node_count};
ghost use Rattle.mcf_engine.specs.Outcomes.{IsOutcome};
ghost use Rattle.mcf_simplex.specs.Following.{IsFollowingPick};
ghost use Rattle.mcf_simplex.specs.Runs.{IsAdvanced};

use crate::following::Following;
use crate::pricing::Pricing;
use crate::simplex::{Ended, Workspace, finish};
use mcf_basis::{Basis, PivotStep};
use mcf_network::Net;
use mcf_numbers::Count;
use mcf_text::NoMemory;
use std::alloc::Global;
use std::marker::Model;

/// What a run has done so far, for whoever watches it. No clause states these numbers.
#[derive(Clone, Copy, Debug)]
pub struct RunCounts {
    /// The number of pivots.
    pub pivots: u64,
    /// The number of pivots that pushed nothing (degenerate pivots).
    pub still: u64,
    /// The number of nodes of all parts of the tree that pivots moved.
    pub moved: u64,
    /// The number of tree arcs of all cycles.
    pub climbed: u64,
    /// The number of arcs that pricing scanned.
    pub scanned: u64,
    /// The number of artificial arcs that carry flow now.
    pub loaded: u64,
}

/// A run of the network simplex in progress, with blocks that follow what pivots move (Ahuja,
/// Magnanti and Orlin, Network Flows, section 11.5). It continues by a number of pivots at a time,
/// so that it can be watched, and left.
///
/// Clauses see its rule and its basis.
#[derive(Drop)]
pub struct Run<'n> {
    room: Workspace<'n>,
    rule: Following,
    counts: RunCounts,
}

impl<'n> Model for Run<'n> {
    ghost use Rattle.mcf_simplex.specs.Runs.{RunState};
    ghost use Rattle.mcf_simplex.specs.Following.{FollowingRule};
    ghost use Rattle.mcf_simplex.specs.Private.Rooms.{HasRoomFor};
    ghost use Rattle.mcf_basis.specs.Bases.{IsBasis};
    ghost use Rattle.std.specs.Prelude.{length};

    ghost Value = { RunState FollowingRule };

    ghost view = { λ r. record { rule = r.rule; basis = r.room.basis } };

    ghost invariant = { λ r. IsBasis r.room.basis
        × HasRoomFor r.room.basis.net r.room.state.net (length r.room.shown.cut) r.room.shown.pricer (length r.room.shown.prices.items) };
}

impl<'n> Run<'n> {
    /// A run that has made no pivot, with a rule.
    ///
    /// Of all calls of a run, only this one allocates.
    ///
    /// # Errors
    ///
    /// `NoMemory` if an allocation is refused.
    pub fn start(alloc: Global, net: &'n Net, rule: Following) -> Result<Run<'n>, NoMemory>
        ensures basis { IfOk result (λ r. IsStart net.now r.basis) }
        ensures rule { IfOk result (λ r. r.rule ≡ rule) }
    {
        let room = Workspace::start(alloc, net)?;
        let counts = RunCounts {
            pivots: 0,
            still: 0,
            moved: 0,
            climbed: 0,
            scanned: 0,
            loaded: 0,
        };
        Ok(Run { room, rule, counts })
    }

    /// Makes this many pivots, or fewer if the rule finds no arc, and returns whether it found
    /// none.
    pub fn advance(&mut self, pivots: u32) -> bool
        ensures run { IsAdvanced IsFollowingPick self.old pivots result self.new }
        ensures over { result ≡ true → HasNoEligible self.new.basis }
        ensures net { self.new.basis.net ≡ self.old.basis.net }
        ensures old { IsBasis self.old.basis }
        ensures basis { IsBasis self.new.basis }
    {
        advance(
            &mut self.rule,
            &mut self.room.basis,
            &mut self.counts,
            pivots,
        )
    }

    /// Returns the run's counts up to now.
    pub fn counts(&self) -> RunCounts {
        RunCounts {
            scanned: self.rule.scanned(),
            loaded: self.room.basis.loaded_count() as u64,
            ..self.counts
        }
    }

    /// From the next pivot on a block has at least this many arcs.
    pub fn set_least_arcs(&mut self, arcs: u32)
        ensures { self.new ≡ self.old }
    {
        self.rule.set_least_arcs(arcs);
    }

    /// From the next pivot on a block has a piece of each of this many stretches.
    pub fn set_stretches(&mut self, stretches: u32)
        requires { 1 ≤ stretches }
        ensures { self.new ≡ self.old }
    {
        self.rule.set_stretches(stretches);
    }

    /// What the last basis shows, if no arc is eligible.
    pub fn finish(self) -> Ended<'n>
        requires over { HasNoEligible self.basis }
        requires balanced { supply_total self.basis.net ≡ pos 0 }
        ensures outcome { IsOutcome (λ s. s ≡ state_of self.entry.basis) self.entry.basis.net result.outcome }
        ensures pivots { result.pivots.number ≡ self.entry.basis.pivots }
    {
        finish(self.room)
    }

    /// Leaves the run, and returns the number of its pivots.
    pub fn leave(self) -> Count
        ensures { result.number ≡ self.entry.basis.pivots }
    {
        self.room.into_pivots()
    }
}

// Makes this many pivots, or fewer if the rule finds no arc, and returns whether it found none.
fn advance<P: Pricing>(
    rule: &mut P,
    basis: &mut Basis<'_>,
    counts: &mut RunCounts,
    pivots: u32,
) -> bool
    requires { IsBasis basis.old }
    ensures run { IsAdvanced P.Picks (record { rule = rule.old; basis = basis.old }) pivots result (record { rule = rule.new; basis = basis.new }) }
    ensures over { result ≡ true → HasNoEligible basis.new }
    ensures net { basis.new.net ≡ basis.old.net }
    ensures basis { IsBasis basis.new }
{
    for made in 0..pivots {
        let Some(k) = rule.pick(basis) else {
            return true;
        };
        let step = basis.pivot(k);
        counts.add(step, basis);
    }
    false
}

impl RunCounts {
    // Counts one more pivot.
    fn add(&mut self, step: PivotStep, basis: &Basis<'_>) {
        self.pivots = self.pivots.wrapping_add(1);
        if let PivotStep::Still = step {
            self.still = self.still.wrapping_add(1);
        }
        self.moved = self.moved.wrapping_add(basis.moved_count() as u64);
        self.climbed = self.climbed.wrapping_add(u64::from(basis.climbed()));
    }
}
