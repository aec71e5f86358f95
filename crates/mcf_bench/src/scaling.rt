//! Solves a net by cost scaling.
use crate::reading::net_of;
use crate::tell_time;
use mcf_engine::{Engine, Outcome};
use mcf_feas::feasible;
use mcf_network::{Net, State};
use mcf_scaling::Scaling;
use mcf_text::{ArcId, NoMemory};
use std::alloc::Global;
use std::io;
use std::time::Instant;

/// Reads a text as an instance, solves its net this many times, and prints what the last answer
/// costs beyond the lower bounds, the seconds of all, and those of as many feasible flows, which
/// they include.
pub fn run(rt: &HostRuntime, text: &[u8], times: u32) -> io::Result<()> {
    match net_of(rt.alloc(), text) {
        Some(net) => run_on(rt, &net, times),
        None => println!(rt; "no net"),
    }
}

// Solves a net this many times.
fn run_on(rt: &HostRuntime, net: &Net, times: u32) -> io::Result<()> {
    let start = Instant::now(rt)?;
    let outcome = repeat(rt.alloc(), net, times);
    let time = start.elapsed(rt)?;
    tell(rt, outcome)?;
    tell_time(rt, "seconds", time)?;
    tell_start(rt, net, times)
}

// Searches as often for the feasible flow with which the engine starts, and prints the seconds.
fn tell_start(rt: &HostRuntime, net: &Net, times: u32) -> io::Result<()> {
    let start = Instant::now(rt)?;
    for _ in 0..times {
        drop(feasible(rt.alloc(), net));
    }
    let time = start.elapsed(rt)?;
    tell_time(rt, "feasible_seconds", time)
}

/// Prints what an answer costs.
pub fn tell(rt: &HostRuntime, outcome: Result<Outcome<'_>, NoMemory>) -> io::Result<()> {
    match outcome {
        Ok(Outcome::Least(state, _)) => println!(rt; "cost {}", cost_of(&state)),
        Ok(Outcome::Blocked(..)) => println!(rt; "blocked"),
        Err(_) => println!(rt; "out of memory"),
    }
}

// The last of this many answers, at least one.
fn repeat<'n>(alloc: Global, net: &'n Net, times: u32) -> Result<Outcome<'n>, NoMemory> {
    let mut engine = Scaling::new();
    let mut last = engine.solve(alloc, net)?;
    for _ in 1..times {
        last = engine.solve(alloc, net)?;
    }
    Ok(last)
}

// The cost of the amounts of a state.
fn cost_of(state: &State<'_>) -> i128 {
    let net = state.net();
    let mut sum = 0i128;
    for place in 0..net.arc_count() {
        let arc = ArcId::new(place + 1);
        sum = sum.wrapping_add(net.cost(arc).wrapping_mul(state.amount(arc)));
    }
    sum
}
