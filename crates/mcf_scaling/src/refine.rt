//! Refinement of a state, phase by phase (Goldberg and Tarjan; Ahuja, Magnanti and Orlin, Network
//! Flows, section 10.3).
ghost use Rattle.std.specs.Prelude.{◌≡◌, ◌<ℤ◌, ◌↔◌, ◌*◌, ◌^◌, ◌≤◌, ◌≤ℤ◌, ◌+ℤ◌, ◌-◌, ℕ, ℤ, length, slice_set, IfNone, IfOk, IfSome, IsTrue, OnErr, pos};
ghost use Rattle.std.specs.Bool.{OnFalse, OnTrue};
ghost use Rattle.std.specs.Int.{int_min};
ghost use Rattle.mcf_network.specs.States.{IsFeasibleState, IsPseudoflow, pushed, room_of, surplus_at};
ghost use Rattle.mcf_flows.specs.Network.{IsArcNumber, IsNode, at_node, node_count};
ghost use Rattle.mcf_flows.specs.WellFormed.{IsUpTo};
ghost use Rattle.mcf_network.specs.declared.rid.Rid.{Rid};
ghost use Rattle.mcf_network.specs.Residual.{tail};
ghost use Rattle.mcf_scaling.specs.Optimality.{AreSmallPrices, IsAdmissible, IsLeastReduced, rise_reach};
ghost use Rattle.mcf_network.specs.Walks.{HasRoom};
ghost use Rattle.mcf_scaling.specs.Private.CurrentArcs.{AreFirsts};
ghost use Rattle.mcf_scaling.specs.Private.Queues.{no_queue};
ghost use Rattle.mcf_scaling.specs.Private.Stars.{AreCapacityMarks, ArePositions, IsStarOf};
ghost use Rattle.mcf_scaling.specs.Phases.{IsBegun, IsDone, IsPush, IsRelabel};
ghost use Rattle.mcf_scaling.specs.Refinements.{IsActive, IsNodeOf, IsRefinement, reduced, within};
ghost use Rattle.mcf_scaling.specs.Scales.{IsStart};

use crate::current_arcs::{all_firsts, next_admissible};
use crate::filling::fill;
use crate::marks::{mark, mark_all};
use crate::pricing::{least_reduced, reduced_cost};
use crate::queue::{ActiveQueue, enqueue, enqueue_all, tidy};
use crate::scale::{first_scale, power};
use crate::star::ForwardStar;
use crate::steps::Steps;
use mcf_network::{Rid, State};
use mcf_text::{ArcId, NoMemory, NodeId, copies};
use std::alloc::Global;
use std::marker::Model;

/// A state that is refined phase by phase, by pushes and relabels, until it is least.
///
/// All costs are multiplied by the number of nodes plus 1. A residual arc with room and negative
/// reduced cost is admissible, and a node of surplus above 0 is active. The state is always
/// e-optimal: no residual arc with room has a reduced cost below -e, where e is a power of 2 that
/// each phase halves. In a phase no price rises by more than 3ne, where n is the number of nodes,
/// so no node is relabelled more than 3n times.
///
/// Only `start` allocates. Clauses see the state, the prices, those at the beginning of the phase,
/// the power of 2, and the number of steps of each kind.
#[derive(Drop)]
pub struct Refine<'n> {
    state: State<'n>,
    prices: Vec<i128>,
    // The prices at the beginning of the phase.
    before: Vec<i128>,
    // The exponent of e, a power of 2.
    scale: u32,
    // The residual arcs that leave each node.
    star: ForwardStar,
    // For each position of the star, whether the residual arc there has capacity.
    has_capacity: Vec<bool>,
    // For each node the position of its current arc: no earlier one is admissible.
    current_arcs: Vec<usize>,
    // Each active node; the first one is active.
    queue: ActiveQueue,
    // The steps since the start.
    steps: Steps,
}

impl<'n> Model for Refine<'n> {
    ghost use Rattle.mcf_scaling.specs.Private.CurrentArcs.{AreCurrentArcs};
    ghost use Rattle.mcf_scaling.specs.Private.Stars.{AreCapacityMarks, ArePositions, IsStarOf};
    ghost use Rattle.mcf_scaling.specs.Private.Queues.{IsQueueOf};
    ghost use Rattle.mcf_scaling.specs.Refinements.{IsRefinement, Refinement};

    ghost Value = { Refinement };

    ghost view = { λ a. record { flow = a.state; prices = a.prices.items; before = a.before.items; scale = a.scale; steps = a.steps } };

    ghost invariant = { λ a. IsRefinement (record { flow = a.state; prices = a.prices.items; before = a.before.items; scale = a.scale; steps = a.steps })
        × AreCurrentArcs a.state a.prices.items a.star a.current_arcs.items
        × IsQueueOf a.state a.queue
        × IsStarOf a.state.net a.star
        × AreCapacityMarks a.state a.star a.has_capacity.items
        × ArePositions a.state.net a.star };
}

impl<'n> Refine<'n> {
    /// The refinement of a state without surplus: prices 0, and e the least power of 2 that is at
    /// least the greatest absolute value of a cost times the number of nodes plus 1. It is 1 if all
    /// costs are 0.
    ///
    /// # Errors
    ///
    /// `NoMemory` if an allocation is refused; a net without nodes needs none.
    pub fn start(alloc: Global, state: State<'n>) -> Result<Refine<'n>, NoMemory>
        requires { IsFeasibleState state.net state }
        ensures value { IfOk result (IsStart state.entry) }
        ensures valid { IfOk result IsRefinement }
        ensures wants { OnErr result (1 ≤ node_count state.entry.net) }
    {
        let nodes = state.net().node_count() as usize;
        let scale = first_scale(state.net());
        let prices = copies(alloc, nodes, 0)?;
        let before = copies(alloc, nodes, 0)?;
        let (star, has_capacity, current_arcs, queue) = tables(alloc, &state)?;
        Ok(Refine {
            state,
            prices,
            before,
            scale,
            star,
            has_capacity,
            current_arcs,
            queue,
            steps: Steps::none(),
        })
    }

    /// An active node, if there is one: the first in the queue.
    pub fn active(&self) -> Option<NodeId>
        ensures some { IfSome result (IsActive self.now) }
        ensures none { IfNone result ((v : ℕ) → ¬ IsActive self.now v) }
        ensures valid { IsRefinement self.now }
    {
        self.queue.front()
    }

    /// Whether e is 1 and no node is active.
    pub fn done(&self) -> bool
        ensures yes { OnTrue result (IsDone self.now) }
        ensures no { OnFalse result (¬ IsDone self.now) }
    {
        let rest = self.active().is_none();
        self.scale == 0 && rest
    }

    /// The state.
    pub fn state(&self) -> &State<'n>
        ensures value { result.now ≡ self.now.flow }
        ensures valid { IsRefinement self.now }
    {
        &self.state
    }

    /// The price of a node, from 0 to 10^29.
    pub fn price(&self, v: NodeId) -> i128
        requires { IsNodeOf self.now v }
        ensures value { result ≡ at_node self.now.prices v }
    {
        self.prices[v.place()]
    }

    /// The reduced cost of a residual arc: its cost times the number of nodes plus 1, less the
    /// price of its tail plus that of its head.
    pub fn reduced(&self, r: Rid) -> i128
        requires { IsArcNumber self.now.flow.net r.arc }
        ensures value { result ≡ reduced self.now r }
    {
        let (arc, back) = (r.arc, r.back);
        reduced_cost(self.state.net(), &self.prices, Rid { arc, back })
    }

    /// A residual arc with room and negative reduced cost that leaves a node, if there is one: the
    /// first from the node's current arc on.
    pub fn admissible(&mut self, v: NodeId) -> Option<Rid>
        requires { IsNodeOf self.old v }
        ensures some { IfSome result (λ r. IsAdmissible self.old.flow self.old.prices r × (tail self.old.flow.net r ≡ v)) }
        ensures none { IfNone result ((r : Rid) → tail self.old.flow.net r ≡ v → ¬ IsAdmissible self.old.flow self.old.prices r) }
        ensures same { self.new ≡ self.old }
        ensures valid { IsRefinement self.new }
    {
        let i = v.place();
        next_admissible(
            &self.state,
            &self.prices,
            &self.star,
            &self.has_capacity,
            v,
            &mut self.current_arcs[i],
        )
    }

    /// Pushes along a residual arc with room and negative reduced cost that leaves an active node:
    /// the lesser of the node's surplus and the arc's room. Returns that amount.
    pub fn push(&mut self, r: Rid) -> i128
        requires admissible { IsAdmissible self.old.flow self.old.prices r }
        requires active { IsActive self.old (tail self.old.flow.net r) }
        ensures step { IsPush self.old self.new r }
        ensures amount { result ≡ int_min (surplus_at self.old.flow (tail self.old.flow.net r)) (room_of self.old.flow r) }
        ensures valid { IsRefinement self.new }
    {
        let (arc, back) = (r.arc, r.back);
        let (_, to) = self.state.net().route(Rid { arc, back });
        let amount = push_share(&mut self.state, arc, back);
        mark(&self.state, &self.star, &mut self.has_capacity, arc);
        enqueue(&self.state, &mut self.queue, to);
        tidy(&self.state, &mut self.queue);
        self.steps.push();
        amount
    }

    /// Raises the price of an active node that no residual arc with room and negative reduced cost
    /// leaves, by e plus the least reduced cost of those with room that leave it. Returns that
    /// amount.
    pub fn relabel(&mut self, v: NodeId) -> i128
        requires active { IsActive self.old v }
        requires stuck { (r : Rid) → tail self.old.flow.net r ≡ v → ¬ IsAdmissible self.old.flow self.old.prices r }
        ensures step { IsRelabel self.old self.new v result }
        ensures high { pos (within self.old) ≤ℤ result }
        ensures valid { IsRefinement self.new }
    {
        let rise = rise_of(
            &self.state,
            &self.prices,
            &self.star,
            &self.has_capacity,
            v,
            self.scale,
        );
        raise(&mut self.prices, v, rise);
        let span = self.star.span(v);
        self.current_arcs[v.place()] = span.first;
        self.steps.relabel();
        rise
    }

    /// Begins a phase: halves e, and saturates each residual arc of negative reduced cost.
    pub fn begin(&mut self)
        requires scale { 1 ≤ self.old.scale }
        requires rest { (v : ℕ) → ¬ IsActive self.old v }
        ensures step { IsBegun self.old self.new }
        ensures valid { IsRefinement self.new }
    {
        fill(&mut self.state, &self.prices);
        mark_all(&self.state, &self.star, &mut self.has_capacity);
        self.before.copy_from_slice(&self.prices);
        self.scale -= 1;
        enqueue_all(&self.state, &mut self.queue);
        tidy(&self.state, &mut self.queue);
        self.steps.begin();
    }

    /// The state and the prices of its nodes.
    pub fn into_parts(self) -> (State<'n>, Vec<i128>)
        ensures state { result.0 ≡ self.entry.flow }
        ensures prices { result.1.items ≡ self.entry.prices }
        ensures valid { IsRefinement self.entry }
    {
        let (state, prices, _) = self.into_counted_parts();
        (state, prices)
    }

    /// The same, with the steps since the start.
    pub(crate) fn into_counted_parts(self) -> (State<'n>, Vec<i128>, Steps)
        ensures state { result.0 ≡ self.entry.flow }
        ensures prices { result.1.items ≡ self.entry.prices }
        ensures steps { result.2 ≡ self.entry.steps }
        ensures valid { IsRefinement self.entry }
    {
        let Refine {
            state,
            prices,
            steps,
            ..
        } = self;
        (state, prices, steps)
    }

    /// The state.
    pub fn into_state(self) -> State<'n>
        ensures value { result ≡ self.entry.flow }
        ensures valid { IsPseudoflow result }
    {
        let (state, _) = self.into_parts();
        state
    }
}

// The star of the net, the marks of a state, the first current arcs, and an empty queue.
fn tables(
    alloc: Global,
    state: &State<'_>,
) -> Result<(ForwardStar, Vec<bool>, Vec<usize>, ActiveQueue), NoMemory>
    ensures star { IfOk result (λ made. IsStarOf state.now.net made.0) }
    ensures positions { IfOk result (λ made. ArePositions state.now.net made.0) }
    ensures marks { IfOk result (λ made. AreCapacityMarks state.now made.0 made.1.items) }
    ensures firsts { IfOk result (λ made. AreFirsts made.0 made.2.items (node_count state.now.net)) }
    ensures queue { IfOk result (λ made. made.3 ≡ no_queue (node_count state.now.net)) }
    ensures wants { OnErr result (1 ≤ node_count state.now.net) }
{
    let net = state.net();
    let star = ForwardStar::new(alloc, net)?;
    let mut has_capacity = copies(alloc, star.count(), false)?;
    mark_all(state, &star, &mut has_capacity);
    let current_arcs = all_firsts(alloc, net, &star)?;
    let queue = ActiveQueue::new(alloc, net)?;
    Ok((star, has_capacity, current_arcs, queue))
}

// Pushes the lesser of the tail's surplus and the arc's room along a residual arc.
fn push_share(state: &mut State<'_>, arc: ArcId, back: bool) -> i128
    requires arc { IsArcNumber state.old.net arc }
    requires active { pos 0 ≤ℤ surplus_at state.old (tail state.old.net (record { arc = arc; back = back })) }
    ensures value { state.new ≡ pushed state.old (record { arc = arc; back = back }) result }
    ensures amount { result ≡ int_min (surplus_at state.old (tail state.old.net (record { arc = arc; back = back })))
        (room_of state.old (record { arc = arc; back = back })) }
    ensures valid { IsPseudoflow state.new }
{
    let (from, _) = state.net().route(Rid { arc, back });
    let amount = state.surplus(from).min(state.room(Rid { arc, back }));
    state.push(Rid { arc, back }, amount);
    amount
}

// The amount by which the price of a node rises: e plus the least reduced cost of the residual arcs
// with room that leave it, of which there is one.
fn rise_of(
    state: &State<'_>,
    prices: &[i128],
    star: &ForwardStar,
    has_capacity: &[bool],
    v: NodeId,
    scale: u32,
) -> i128
    requires star { IsStarOf state.now.net star.now }
    requires marks { AreCapacityMarks state.now star.now has_capacity.now }
    requires flow { IsPseudoflow state.now }
    requires prices { AreSmallPrices (node_count state.now.net) prices.now }
    requires node { IsNode (node_count state.now.net) v }
    requires scale { scale ≤ 70 }
    requires some { ((r : Rid) → tail state.now.net r ≡ v → ¬ HasRoom state.now r) → ⊥ }
    ensures value { (least : ℤ) × IsLeastReduced state.now prices.now v least × (result ≡ least +ℤ pos (2 ^ scale)) }
    ensures small { IsUpTo rise_reach result }
{
    let Some(least) = least_reduced(state, prices, star, has_capacity, v) else {
        unreachable!()
    };
    sum(least, power(scale))
}

// The sum of two numbers.
fn sum(a: i128, b: i128) -> i128
    requires a { IsUpTo rise_reach a }
    requires b { IsUpTo rise_reach b }
    ensures { result ≡ a +ℤ b }
{
    a + b
}

// Raises the price of a node.
fn raise(prices: &mut Vec<i128>, v: NodeId, rise: i128)
    requires prices { AreSmallPrices (length prices.old.items) prices.old.items }
    requires node { IsNode (length prices.old.items) v }
    requires rise { IsUpTo rise_reach rise }
    ensures { prices.new.items ≡ slice_set prices.old.items (v - 1) (at_node prices.old.items v +ℤ rise) }
{
    let i = v.place();
    let raised = sum(prices[i], rise);
    prices[i] = raised;
}
