//! Phases, relabels and least flows of worked nets, by cost scaling.
ghost use Rattle.std.specs.Prelude.{◌≡◌};
ghost use Rattle.mcf_network.specs.States.{IsFeasibleState};

use crate::fixtures::{
    CIRCULATION, COSTED, GREAT, LOOP, SAMPLE, SIDE_BY_SIDE, cost_of, finds, finds_all, has_prices,
};
use mcf_feas::{Feas, feasible};
use mcf_network::{Rid, State};
use mcf_scaling::{
    Refine, Scaling, nearly_least_have_no_cycle, phases_end, prices_rise_little, runs_keep_bounds,
};
use mcf_test_nets::{multiples, net_of};
use mcf_text::{ArcId, NoMemory, NodeId, copies};
use std::alloc::Global;
use std::test::Fail;

// What a text is solved in: how many phases, how many relabels of a node in one of them at most,
// for what cost, and the greatest prices that show it.
type Row = (&'static [u8], u32, u32, i128, &'static [i128]);

// Each phase relabels a node at most three times as often as there are nodes.
static ROWS: [Row; 6] = [
    (SAMPLE, 4, 12, 14, &[0, -2, -3, -4]),
    (b"p min 0 0\n", 0, 0, 0, &[]),
    (LOOP, 3, 3, 0, &[0]),
    (SIDE_BY_SIDE, 4, 6, 7, &[0, -5]),
    (
        GREAT,
        42,
        6,
        1_000_000_000_000_000_000_000_000_000,
        &[0, -1_000_000_000_000],
    ),
    (CIRCULATION, 2, 9, -5, &[0, 0, 0]),
];

// What was done with a refinement.
#[derive(Clone, Copy)]
enum Refining {
    Begin,
    Push,
    Relabel(NodeId),
    Done,
}

// Takes the next step of a refinement: at an active node, or else the beginning of a phase, until
// it is done.
fn take_step(refine: &mut Refine<'_>) -> Refining {
    let Some(v) = refine.active() else {
        return next_phase(refine);
    };
    match refine.admissible(v) {
        Some(r) => {
            refine.push(r);
            Refining::Push
        }
        None => {
            refine.relabel(v);
            Refining::Relabel(v)
        }
    }
}

// Begins a phase, until the refinement is done.
fn next_phase(refine: &mut Refine<'_>) -> Refining {
    let rest = refine.active().is_none();
    if rest && !refine.done() {
        refine.begin();
        return Refining::Begin;
    }
    Refining::Done
}

// Counts a relabel of a node, and says how many that makes.
fn count_one(counts: &mut [u32], v: NodeId) -> u32 {
    match counts.get_mut((v.get() as usize).wrapping_sub(1)) {
        Some(count) => {
            *count = count.wrapping_add(1);
            *count
        }
        None => 0,
    }
}

// Takes steps until a refinement is done: how many phases that takes, and how many relabels of a
// node in one of them at most, by counts for each node.
fn refine_on(refine: &mut Refine<'_>, counts: &mut [u32]) -> (u32, u32) {
    let (mut phases, mut most) = (0u32, 0u32);
    for _ in 0..10_000u32 {
        match take_step(refine) {
            Refining::Begin => {
                phases = phases.wrapping_add(1);
                counts.fill(0);
            }
            Refining::Push => {}
            Refining::Relabel(v) => most = most.max(count_one(counts, v)),
            Refining::Done => break,
        }
    }
    (phases, most)
}

// Whether the refinement of a state takes a row's phases, and not more than its relabels, for its
// cost, and the row's prices are recovered from its last state.
fn is_refined(alloc: Global, state: State<'_>, row: &Row) -> Result<bool, NoMemory>
    requires { IsFeasibleState state.net state }
{
    let (_, phases, relabels, cost, prices) = *row;
    let mut counts = copies(alloc, state.net().node_count() as usize, 0)?;
    let mut refine = Refine::start(alloc, state)?;
    let (begun, most) = refine_on(&mut refine, &mut counts);
    let last = refine.into_state();
    let is_priced = has_prices(alloc, &last, prices)?;
    Ok(is_priced && begun == phases && most <= relabels && cost_of(&last) == cost)
}

// Whether the net of a row has a feasible state, which is refined so.
fn is_refined_text(alloc: Global, row: &Row) -> Result<bool, NoMemory> {
    let Some(net) = net_of(alloc, row.0)? else {
        return Ok(false);
    };
    match feasible(alloc, &net)? {
        Feas::Flow(state) => is_refined(alloc, state, row),
        Feas::Blocked(..) => Ok(false),
    }
}

#[test]
fn refines_in_so_many_phases(rt: HostRuntime) -> Result<(), Fail> {
    for row in &ROWS {
        assert!(rt; is_refined_text(rt.alloc(), row)?);
    }
    Ok(())
}

#[test]
fn solves_the_worked_nets(rt: HostRuntime) -> Result<(), Fail> {
    assert!(rt; finds_all(rt.alloc(), &mut Scaling::new(), &COSTED)?);
    Ok(())
}

#[test]
fn solves_an_assignment(rt: HostRuntime) -> Result<(), Fail> {
    let text = multiples(rt.alloc(), 200)?;
    assert!(rt; finds(rt.alloc(), &mut Scaling::new(), &text, Some(198))?);
    Ok(())
}

// Whether a refinement begins with price 0 of the first node and this reduced cost of the first
// arc.
fn begins_with(refine: &Refine<'_>, reduced: i128) -> bool {
    let net = refine.state().net();
    if net.node_count() < 1 || net.arc_count() < 1 {
        return false;
    }
    let first = Rid {
        arc: ArcId::new(1),
        back: false,
    };
    refine.price(NodeId::new(1)) == 0 && refine.reduced(first) == reduced
}

// The price of the first node, if there is one.
fn first_price(refine: &Refine<'_>) -> Option<i128> {
    if refine.state().net().node_count() < 1 {
        return None;
    }
    Some(refine.price(NodeId::new(1)))
}

// Whether the refinement of a state begins with this reduced cost of the first arc, and hands over,
// where it is done, a state of this cost and the price of the first node that was told before.
fn hands_over(alloc: Global, state: State<'_>, reduced: i128, cost: i128) -> Result<bool, NoMemory>
    requires { IsFeasibleState state.net state }
{
    let mut refine = Refine::start(alloc, state)?;
    let begins = begins_with(&refine, reduced);
    refine_on(&mut refine, &mut []);
    let told = first_price(&refine);
    let (last, prices) = refine.into_parts();
    Ok(begins && told == prices.first().copied() && told.is_some() && cost_of(&last) == cost)
}

// Whether the net of a text has a feasible state, whose refinement does so.
fn hands_over_text(
    alloc: Global,
    text: &[u8],
    reduced: i128,
    cost: i128,
) -> Result<bool, NoMemory> {
    let Some(net) = net_of(alloc, text)? else {
        return Ok(false);
    };
    match feasible(alloc, &net)? {
        Feas::Flow(state) => hands_over(alloc, state, reduced, cost),
        Feas::Blocked(..) => Ok(false),
    }
}

// Texts, the first arc's reduced cost at prices 0, which is its cost times one more than there are
// nodes, and the cost of a least flow.
static PARTS: [(&[u8], i128, i128); 2] = [(SAMPLE, 10, 14), (CIRCULATION, 0, -5)];

#[test]
fn hands_over_its_parts(rt: HostRuntime) -> Result<(), Fail> {
    for (text, reduced, cost) in &PARTS {
        assert!(rt; hands_over_text(rt.alloc(), text, *reduced, *cost)?);
    }
    Ok(())
}

#[test]
fn laws_do_nothing(_rt: HostRuntime) -> Result<(), Fail> {
    prices_rise_little();
    nearly_least_have_no_cycle();
    runs_keep_bounds();
    phases_end();
    Ok(())
}
