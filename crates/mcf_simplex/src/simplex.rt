//! The engine.
ghost use Rattle.std.specs.Prelude.{◌≡◌, ◌≢◌, IfOk, OnErr, length, pos};
ghost use Rattle.mcf_basis.specs.Laws.{HasNoArtificial};
ghost use Rattle.mcf_basis.specs.Starts.{IsStart};
ghost use Rattle.mcf_basis.specs.Structures.{state_of};
ghost use Rattle.mcf_basis.specs.Violations.{HasNoEligible};
ghost use Rattle.mcf_network.specs.Chosen.{supply_total};
ghost use Rattle.mcf_flows.specs.Network.{node_count};
ghost use Rattle.mcf_network.specs.States.{Pseudoflow};
ghost use Rattle.mcf_engine.specs.Outcomes.{AreStatePrices, IsLeastState, IsOutcome};
ghost use Rattle.mcf_simplex.specs.Runs.{IsMadeByRun};

use crate::pricing::Pricing;
use crate::run::run;
use mcf_basis::Basis;
use mcf_engine::{Engine, Outcome, Pricer};
use mcf_flows::Side;
use mcf_network::{Net, NodeSet, State, unbalanced};
use mcf_numbers::Count;
use mcf_text::{NoMemory, copies};
use std::alloc::Global;
use std::marker::Model;

/// The network simplex, with strongly feasible trees, over any lawful pricing rule (Dantzig;
/// Cunningham; Ahuja, Magnanti and Orlin, Network Flows, sections 11.5 and 11.6).
///
/// It takes every net. How it made a state is a relation of its contract, `IsMadeByRun`: counted
/// pivots from the initial basis, no more than a bound, and at each basis in turn the rule picks
/// the arc. Clauses see the rule, as its last pick left it, and the number of pivots in the last
/// solve that returned an answer.
#[derive(Drop)]
pub struct Simplex<P> {
    rule: P,
    pivots: Count,
}

impl<P> Model for Simplex<P> {
    ghost use Rattle.mcf_simplex.specs.Runs.{RuleState};

    ghost Value = { RuleState P };

    ghost view = { λ s. record { rule = s.rule; pivots = s.pivots.number } };
}

impl<P: Pricing> Simplex<P> {
    /// The engine with a rule, which has made no pivot.
    pub fn new(rule: P) -> Simplex<P>
        ensures { result ≡ record { rule = rule; pivots = 0 } }
    {
        Simplex {
            rule,
            pivots: Count::zero(),
        }
    }

    /// The rule.
    pub fn rule(&self) -> &P
        ensures { result.now ≡ self.now.rule }
    {
        &self.rule
    }
}

impl<P: Pricing> Engine for Simplex<P> {
    ghost use Rattle.std.specs.Prelude.{⊤};
    ghost use Rattle.mcf_simplex.specs.Runs.{IsMadeByRun};

    ghost Takes = { λ _. ⊤ };

    ghost Made = { λ old g s new. IsMadeByRun P.Picks old g s new };

    ghost Wants = { λ _. ⊤ };

    fn takes(&self, _net: &Net) -> bool {
        true
    }

    /// A least state of the net, with its prices, or a node set that shows that there is none.
    ///
    /// All memory is allocated by one call, before the rule picks the first arc; what runs then
    /// gets no allocator.
    ///
    /// # Errors
    ///
    /// `NoMemory` if an allocation is refused. The engine is then unchanged, and its rule was not
    /// asked.
    ///
    /// If the supplies don't sum to 0, the rule isn't asked either: such a net is answered without
    /// a pivot. On any other net the rule becomes what one run makes of it, whatever the answer.
    fn solve<'n>(&mut self, alloc: Global, net: &'n Net) -> Result<Outcome<'n>, NoMemory>
        ensures outcome { IfOk result (IsOutcome (λ s. IsMadeByRun P.Picks self.old net.now s self.new) net.now) }
        ensures err { OnErr result (self.new ≡ self.old) }
        ensures unasked { supply_total net.now ≢ pos 0 → IfOk result (λ _. self.new ≡ record { rule = self.old.rule; pivots = 0 }) }
        ensures asked { supply_total net.now ≡ pos 0 → IfOk result (λ _. (s : Pseudoflow) × IsMadeByRun P.Picks self.old net.now s self.new) }
    {
        if let Some((set, side)) = unbalanced(alloc, net)? {
            self.pivots = Count::zero();
            return Ok(Outcome::Blocked(set, side));
        }
        let mut room = Workspace::start(alloc, net)?;
        run(&mut self.rule, &mut room.basis);
        let ended = finish(room);
        self.pivots = ended.pivots;
        Ok(ended.outcome)
    }
}

// The basis of a run, and the space for its result.
#[derive(Drop)]
pub(crate) struct Workspace<'n> {
    pub(crate) basis: Basis<'n>,
    state: State<'n>,
    shown: ShownRoom,
}

impl<'n> Workspace<'n> {
    // The initial basis of a net.
    pub(crate) fn start(alloc: Global, net: &'n Net) -> Result<Workspace<'n>, NoMemory>
        ensures basis { IfOk result (λ w. IsStart net.now w.basis) }
        ensures state { IfOk result (λ w. w.state.net ≡ net.now) }
        ensures cut { IfOk result (λ w. length w.shown.cut ≡ node_count net.now) }
        ensures pricer { IfOk result (λ w. w.shown.pricer ≡ node_count net.now) }
        ensures prices { IfOk result (λ w. length w.shown.prices.items ≡ node_count net.now) }
    {
        let shown = ShownRoom::start(alloc, net)?;
        let state = State::zero(alloc, net)?;
        let basis = Basis::start(alloc, net)?;
        Ok(Workspace {
            basis,
            state,
            shown,
        })
    }

    // The number of pivots that led to the basis.
    pub(crate) fn into_pivots(self) -> Count
        ensures { result.number ≡ self.entry.basis.pivots }
    {
        self.basis.into_pivots()
    }
}

// Space for what shows an answer: a node set that blocks, or prices.
#[derive(Drop)]
pub(crate) struct ShownRoom {
    cut: NodeSet,
    pricer: Pricer,
    prices: Vec<i128>,
}

impl ShownRoom {
    // Space for the nodes of a net.
    fn start(alloc: Global, net: &Net) -> Result<ShownRoom, NoMemory>
        ensures cut { IfOk result (λ r. length r.cut ≡ node_count net.now) }
        ensures pricer { IfOk result (λ r. r.pricer ≡ node_count net.now) }
        ensures prices { IfOk result (λ r. length r.prices.items ≡ node_count net.now) }
    {
        let cut = NodeSet::new(alloc, net)?;
        let prices = copies(alloc, net.node_count() as usize, 0)?;
        let pricer = Pricer::start(alloc, net)?;
        Ok(ShownRoom {
            cut,
            pricer,
            prices,
        })
    }
}

/// The result of a run.
#[derive(Drop)]
pub struct Ended<'n> {
    /// What its last basis shows.
    pub outcome: Outcome<'n>,
    /// The number of its pivots.
    pub pivots: Count,
}

// What the last basis shows: its flow is least, with its prices; or, if an artificial arc still
// carries something, a node set blocks.
pub(crate) fn finish<'n>(room: Workspace<'n>) -> Ended<'n>
    requires over { HasNoEligible room.basis }
    requires balanced { supply_total room.basis.net ≡ pos 0 }
    requires state { room.state.net ≡ room.basis.net }
    requires cut { length room.shown.cut ≡ node_count room.basis.net }
    requires pricer { room.shown.pricer ≡ node_count room.basis.net }
    requires prices { length room.shown.prices.items ≡ node_count room.basis.net }
    ensures outcome { IsOutcome (λ s. s ≡ state_of room.entry.basis) room.entry.basis.net result.outcome }
    ensures pivots { result.pivots.number ≡ room.entry.basis.pivots }
{
    let Workspace {
        basis,
        mut state,
        shown,
    } = room;
    let ShownRoom {
        mut cut,
        mut pricer,
        mut prices,
    } = shown;
    if basis.has_no_artificial() {
        basis.write_flow(&mut state);
        show(&basis, &state, &mut pricer, prices.as_mut_slice());
        let outcome = Outcome::Least(state, prices);
        let pivots = basis.into_pivots();
        Ended { outcome, pivots }
    } else {
        basis.mark_cut(&mut cut);
        let outcome = Outcome::Blocked(cut, Side::Send);
        let pivots = basis.into_pivots();
        Ended { outcome, pivots }
    }
}

// The greatest prices that show the flow of the last basis.
fn show(basis: &Basis<'_>, state: &State<'_>, pricer: &mut Pricer, prices: &mut [i128])
    requires over { HasNoEligible basis.now }
    requires flow { HasNoArtificial basis.now }
    requires state { state.now ≡ state_of basis.now }
    requires room { pricer.old ≡ node_count basis.now.net }
    requires prices { length prices.old ≡ node_count basis.now.net }
    ensures least { IsLeastState basis.now.net state.now }
    ensures prices { AreStatePrices basis.now.net state.now prices.new }
    ensures count { length prices.new ≡ length prices.old }
{
    basis.write_prices(prices);
    pricer.raise(state, 1, 0, prices);
}
