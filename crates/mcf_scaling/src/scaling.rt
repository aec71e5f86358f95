//! The engine.
ghost use Rattle.std.specs.Prelude.{◌≡◌, ◌≤◌, ◌⊎◌, ℕ, ℤ, IfNone, IfOk, IfSome, OnErr};
ghost use Rattle.mcf_network.specs.States.{IsFeasibleState, IsPseudoflow};
ghost use Rattle.mcf_flows.specs.Network.{node_count};
ghost use Rattle.mcf_network.specs.declared.rid.Rid.{Rid};
ghost use Rattle.mcf_engine.specs.Outcomes.{AreStatePrices, IfBlocked, IsLeastState, IsOutcome};
ghost use Rattle.mcf_scaling.specs.Made.{IsScaled};
ghost use Rattle.mcf_scaling.specs.Optimality.{AreSmallPrices, IsOptimalWithin};
ghost use Rattle.mcf_scaling.specs.Phases.{IsDone, IsPush, IsRelabel, Run};
ghost use Rattle.mcf_scaling.specs.Refinements.{Refinement, IsActive, IsNodeOf, IsRefinement, no_steps};
ghost use Rattle.mcf_scaling.specs.Scales.{IsStart};

use crate::refine::Refine;
use crate::steps::Steps;
use mcf_engine::{Engine, Outcome, Pricer, optimal_prices_are_near};
use mcf_feas::{Feas, feasible};
use mcf_network::{Net, Rid, State};
use mcf_text::{NoMemory, NodeId};
use std::alloc::Global;
use std::marker::Model;

/// Cost scaling: a feasible flow, refined by phases until it is least (Goldberg and Tarjan; Ahuja,
/// Magnanti and Orlin, Network Flows, section 10.3).
///
/// It takes every net. How it made a state is a relation of its contract, `IsScaled`: counted
/// steps, as many phases as the costs and the number of nodes require, and in none of them a price
/// that rises by more than 3ne. Clauses see the number of steps of each kind in the last solve that
/// returned an answer.
#[derive(Drop)]
pub struct Scaling {
    steps: Steps,
}

impl Model for Scaling {
    ghost use Rattle.mcf_scaling.specs.Refinements.{StepCounts};

    ghost Value = { StepCounts };

    ghost view = { λ s. s.steps };
}

impl Scaling {
    /// The engine, which has made no step.
    pub fn new() -> Scaling
        ensures { result ≡ no_steps }
    {
        Scaling {
            steps: Steps::none(),
        }
    }
}

impl Engine for Scaling {
    ghost use Rattle.std.specs.Prelude.{⊤};
    ghost use Rattle.mcf_scaling.specs.Made.{IsScaled};

    ghost Takes = { λ _. ⊤ };

    ghost Made = { λ _ g s t. IsScaled g s t };

    fn takes(&self, _net: &Net) -> bool {
        true
    }

    /// A least state of the net, with its prices, or a node set that shows that there is none.
    ///
    /// # Errors
    ///
    /// `NoMemory` if an allocation is refused; a net without nodes needs none. The engine is then
    /// unchanged. All memory is allocated before the first phase: what runs then gets no allocator.
    fn solve<'n>(&mut self, alloc: Global, net: &'n Net) -> Result<Outcome<'n>, NoMemory>
        ensures outcome { IfOk result (IsOutcome (λ s. IsScaled net.now s self.new) net.now) }
        ensures wants { OnErr result (1 ≤ node_count net.now) }
        ensures unstepped { IfOk result (IfBlocked (self.new ≡ no_steps)) }
        ensures err { OnErr result (self.new ≡ self.old) }
    {
        match feasible(alloc, net)? {
            Feas::Flow(state) => {
                let (least, prices, steps) = refine(alloc, state)?;
                self.steps = steps;
                Ok(Outcome::Least(least, prices))
            }
            Feas::Blocked(set, side) => {
                self.steps = Steps::none();
                Ok(Outcome::Blocked(set, side))
            }
        }
    }
}

// Refines a state without surplus until it is least, and finds its prices. All memory is allocated
// before the first phase.
fn refine<'n>(alloc: Global, state: State<'n>) -> Result<(State<'n>, Vec<i128>, Steps), NoMemory>
    requires { IsFeasibleState state.net state }
    ensures least { IfOk result (λ found. IsLeastState state.entry.net found.0) }
    ensures shown { IfOk result (λ found. AreStatePrices state.entry.net found.0 found.1.items) }
    ensures made { IfOk result (λ found. IsScaled state.entry.net found.0 found.2) }
    ensures wants { OnErr result (1 ≤ node_count state.entry.net) }
{
    let pricer = Pricer::start(alloc, state.net())?;
    let refine = Refine::start(alloc, state)?;
    Ok(run_phases(refine, pricer))
}

// Runs phase after phase until e is 1, and then raises the prices to the greatest. It allocates
// nothing.
fn run_phases<'n>(mut refine: Refine<'n>, pricer: Pricer) -> (State<'n>, Vec<i128>, Steps)
    requires feasible { IsFeasibleState refine.flow.net refine.flow }
    requires start { IsStart refine.flow refine }
    requires valid { IsRefinement refine }
    requires room { pricer ≡ node_count refine.flow.net }
    ensures least { IsLeastState refine.entry.flow.net result.0 }
    ensures shown { AreStatePrices refine.entry.flow.net result.0 result.1.items }
    ensures made { IsScaled refine.entry.flow.net result.0 result.2 }
{
    'phases: while !refine.done() {
        refine.begin();
        discharge_all(&mut refine);
    }
    priced(refine, pricer)
}

// The state of a finished refinement, with its greatest prices.
fn priced<'n>(refine: Refine<'n>, mut pricer: Pricer) -> (State<'n>, Vec<i128>, Steps)
    requires done { IsDone refine }
    requires room { pricer ≡ node_count refine.flow.net }
    ensures state { result.0 ≡ refine.entry.flow }
    ensures prices { AreStatePrices refine.entry.flow.net refine.entry.flow result.1.items }
    ensures steps { result.2 ≡ refine.entry.steps }
{
    let (state, mut prices, steps) = refine.into_counted_parts();
    raise_all(&mut pricer, &state, &mut prices);
    (state, prices, steps)
}

// Raises prices by which a state is 1-optimal to the greatest that show it.
fn raise_all(pricer: &mut Pricer, state: &State<'_>, prices: &mut Vec<i128>)
    requires room { pricer.old ≡ node_count state.now.net }
    requires flow { IsPseudoflow state.now }
    requires small { AreSmallPrices (node_count state.now.net) prices.old.items }
    requires optimal { IsOptimalWithin 1 state.now prices.old.items }
    ensures { AreStatePrices state.now.net state.now prices.new.items }
{
    let scale = state.net().node_count() + 1;
    optimal_prices_are_near();
    pricer.raise(state, scale, 1, prices);
}

// Takes steps until no node is active: depth first, from the node to which the last push led if
// that is active, otherwise from the first of the queue.
fn discharge_all(refine: &mut Refine<'_>)
    requires valid { IsRefinement refine.old }
    ensures run { (a : Refinement) (k : ℕ) → Run a refine.old k → Run a refine.new k }
    ensures rest { (v : ℕ) → ¬ IsActive refine.new v }
    ensures scale { refine.new.scale ≡ refine.old.scale }
    ensures valid { IsRefinement refine.new }
{
    let mut next = refine.active();
    'steps: while let Some(v) = next {
        next = step(refine, v);
    }
}

// Pushes from an active node, or raises its price, and returns the next active node, if there is
// one.
fn step(refine: &mut Refine<'_>, v: NodeId) -> Option<NodeId>
    requires { IsActive refine.old v }
    ensures step { ((r : Rid) × IsPush refine.old refine.new r) ⊎ ((rise : ℤ) × IsRelabel refine.old refine.new v rise) }
    ensures some { IfSome result (IsActive refine.new) }
    ensures none { IfNone result ((u : ℕ) → ¬ IsActive refine.new u) }
    ensures valid { IsRefinement refine.new }
{
    match refine.admissible(v) {
        Some(r) => {
            let (_, to) = refine.state().net().route(Rid {
                arc: r.arc,
                back: r.back,
            });
            refine.push(r);
            next_active(refine, to)
        }
        None => {
            refine.relabel(v);
            Some(v)
        }
    }
}

// A node if it is active, otherwise another active node, if there is one.
fn next_active(refine: &Refine<'_>, v: NodeId) -> Option<NodeId>
    requires { IsNodeOf refine.now v }
    ensures some { IfSome result (IsActive refine.now) }
    ensures none { IfNone result ((u : ℕ) → ¬ IsActive refine.now u) }
{
    if refine.state().surplus(v) > 0 {
        return Some(v);
    }
    refine.active()
}
