//! Least flows of worked nets, by the plain engine and by a second one.
ghost use Rattle.std.specs.Prelude.{◌≤◌, IfOk, OnErr, ⊤};
ghost use Rattle.mcf_network.specs.States.{IsFeasibleState};
ghost use Rattle.mcf_flows.specs.Network.{node_count};
ghost use Rattle.mcf_engine.specs.Outcomes.{AreStatePrices, IsLeastState, IsOutcome};

use crate::fixtures::{CIRCULATION, Costed, SAMPLE, cost_of, finds_all, finds_prices, has_prices};
use mcf_cancel::{
    Cancel, Engine, Outcome, Recovered, greatest_prices_are_small, least_states_have_no_cycle,
    recover,
};
use mcf_feas::{Feas, feasible};
use mcf_instance::Problem;
use mcf_network::{Net, Rid, State, push_along};
use mcf_test_nets::net_of;
use mcf_text::NoMemory;
use std::alloc::Global;
use std::test::Fail;

// An engine that takes the nets of minimum-cost flow problems alone, and pushes 1 at a time round
// each cycle.
#[derive(Drop)]
struct ByOne;

impl Engine for ByOne {
    ghost use Rattle.std.specs.Prelude.{◌≡◌, ⊤};
    ghost use Rattle.mcf_flows.specs.declared.problem.Problem.TheVariants.{Min};

    ghost Takes = { λ g. g.problem ≡ Min };

    ghost Made = { λ _ _ _ _. ⊤ };

    fn takes(&self, net: &Net) -> bool {
        match net.problem() {
            Problem::Min => true,
            Problem::Asn => false,
        }
    }

    fn solve<'n>(&mut self, alloc: Global, net: &'n Net) -> Result<Outcome<'n>, NoMemory> {
        match feasible(alloc, net)? {
            Feas::Flow(state) => {
                let (least, prices) = cancel_by_one(alloc, state)?;
                Ok(Outcome::Least(least, prices))
            }
            Feas::Blocked(set, side) => Ok(Outcome::Blocked(set, side)),
        }
    }
}

// Pushes 1 round negative cycles, until there is none.
fn cancel_by_one<'n>(
    alloc: Global,
    mut state: State<'n>,
) -> Result<(State<'n>, Vec<i128>), NoMemory>
    requires { IsFeasibleState state.net state }
    ensures least { IfOk result (λ found. IsLeastState state.entry.net found.0) }
    ensures shown { IfOk result (λ found. AreStatePrices state.entry.net found.0 found.1.items) }
    ensures wants { OnErr result (1 ≤ node_count state.entry.net) }
{
    'cycles: loop {
        match recover(alloc, &state)? {
            Recovered::Prices(prices) => return Ok((state, prices)),
            Recovered::Cycle(walk) => push_along(&mut state, walk.as_slice(), 1),
        }
    }
}

// Asks an engine where it takes the net, and else another that takes it.
fn solve_by<'n, E: Engine, F: Engine>(
    alloc: Global,
    first: &mut E,
    other: &mut F,
    net: &'n Net,
) -> Result<Outcome<'n>, NoMemory>
    requires { F.Takes net.now }
    ensures { IfOk result (IsOutcome (λ s. ⊤) net.now) }
{
    if first.takes(net) {
        first.solve(alloc, net)
    } else {
        other.solve(alloc, net)
    }
}

// Whether a walk is of these two arcs, forward, in either order.
fn is_walk_of(walk: &[Rid], one: u32, other: u32) -> bool {
    match walk {
        [a, b] => {
            let (i, j) = (a.arc.get(), b.arc.get());
            let are_these = (i == one && j == other) || (i == other && j == one);
            are_these && !a.back && !b.back
        }
        _ => false,
    }
}

// Whether the state without flow of a net leaves a negative cycle of two arcs.
fn has_cycle(alloc: Global, net: &Net, one: u32, other: u32) -> Result<bool, NoMemory> {
    let state = State::zero(alloc, net)?;
    match recover(alloc, &state)? {
        Recovered::Cycle(walk) => Ok(is_walk_of(&walk, one, other)),
        Recovered::Prices(_) => Ok(false),
    }
}

// Whether the first and the last arc of the circulation are a negative cycle.
fn finds_cycle(alloc: Global) -> Result<bool, NoMemory> {
    match net_of(alloc, CIRCULATION)? {
        Some(net) => has_cycle(alloc, &net, 4, 3),
        None => Ok(false),
    }
}

#[test]
fn finds_a_negative_cycle(rt: HostRuntime) -> Result<(), Fail> {
    assert!(rt; finds_cycle(rt.alloc())?);
    Ok(())
}

const CHAIN: &[u8] = b"p min 3 3\na 1 2 0 5 -2\na 2 3 0 5 -3\na 1 3 0 5 4\n";

// Whether these are the greatest prices of the state without flow of a text's net.
fn finds_greatest(alloc: Global, text: &[u8], prices: &[i128]) -> Result<bool, NoMemory> {
    let Some(net) = net_of(alloc, text)? else {
        return Ok(false);
    };
    let state = State::zero(alloc, &net)?;
    has_prices(alloc, &state, prices)
}

#[test]
fn finds_the_greatest_prices(rt: HostRuntime) -> Result<(), Fail> {
    assert!(rt; finds_greatest(rt.alloc(), CHAIN, &[-5, -3, 0])?);
    Ok(())
}

// Texts of minimum-cost flow problems, with the cost of a least flow, if there is a feasible one.
static WORKED: [Costed; 6] = [
    (CIRCULATION, Some(-5)),
    (SAMPLE, Some(14)),
    (b"p min 0 0\n", Some(0)),
    (
        b"p min 3 3\nn 1 2\nn 3 -2\na 1 2 0 2 1\na 2 3 0 2 1\na 1 3 0 1 -4\n",
        Some(-2),
    ),
    (b"p min 2 1\nn 1 4\nn 2 -4\na 1 2 0 3 1\n", None),
    (b"p min 2 1\nn 1 4\nn 2 -3\na 1 2 0 5 1\n", None),
];

// Whether two engines find what each row has.
fn both_find(alloc: Global) -> Result<bool, NoMemory> {
    let plain = finds_all(alloc, &mut Cancel::new(), &WORKED)?;
    let by_one = finds_all(alloc, &mut ByOne, &WORKED)?;
    Ok(plain && by_one)
}

#[test]
fn engines_agree(rt: HostRuntime) -> Result<(), Fail> {
    assert!(rt; both_find(rt.alloc())?);
    Ok(())
}

// Whether two engines solve the sample's net with these prices.
fn both_have_prices(alloc: Global, prices: &[i128]) -> Result<bool, NoMemory> {
    let Some(net) = net_of(alloc, SAMPLE)? else {
        return Ok(false);
    };
    let plain = finds_prices(alloc, &mut Cancel::new(), &net, 14, prices)?;
    let by_one = finds_prices(alloc, &mut ByOne, &net, 14, prices)?;
    Ok(plain && by_one)
}

#[test]
fn an_outcome_has_its_prices(rt: HostRuntime) -> Result<(), Fail> {
    assert!(rt; both_have_prices(rt.alloc(), &[0, -2, -3, -4])?);
    Ok(())
}

const ASSIGNMENT: &[u8] = b"p asn 4 4\nn 1\nn 2\na 1 3 5\na 1 4 1\na 2 3 2\na 2 4 7\n";

// Whether the second engine finds a flow of a cost where the first doesn't take the net.
fn is_asked(alloc: Global, net: &Net, cost: i128) -> Result<bool, NoMemory> {
    if ByOne.takes(net) {
        return Ok(false);
    }
    match solve_by(alloc, &mut ByOne, &mut Cancel::new(), net)? {
        Outcome::Least(state, _) => Ok(cost_of(&state) == cost),
        Outcome::Blocked(..) => Ok(false),
    }
}

// Whether it does so on the net of a text.
fn is_asked_for(alloc: Global, text: &[u8], cost: i128) -> Result<bool, NoMemory> {
    match net_of(alloc, text)? {
        Some(net) => is_asked(alloc, &net, cost),
        None => Ok(false),
    }
}

#[test]
fn asks_the_engine_that_takes_the_net(rt: HostRuntime) -> Result<(), Fail> {
    assert!(rt; is_asked_for(rt.alloc(), ASSIGNMENT, 3)?);
    Ok(())
}

#[test]
fn the_law_does_nothing(_rt: HostRuntime) -> Result<(), Fail> {
    least_states_have_no_cycle();
    greatest_prices_are_small();
    Ok(())
}
