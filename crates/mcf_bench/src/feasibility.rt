//! Finds a feasible flow.
use crate::reading::net_of;
use crate::tell_time;
use mcf_feas::{Feas, feasible};
use mcf_network::{Net, State};
use mcf_text::{ArcId, NoMemory};
use std::alloc::Global;
use std::io;
use std::time::Instant;

/// Reads a text as an instance, searches this many times for a feasible flow of its net, and prints
/// a summary of the last answer and the seconds of all.
pub fn run(rt: &HostRuntime, text: &[u8], times: u32) -> io::Result<()> {
    match net_of(rt.alloc(), text) {
        Some(net) => run_on(rt, &net, times),
        None => println!(rt; "no net"),
    }
}

// Searches this many times for a feasible flow of a net.
fn run_on(rt: &HostRuntime, net: &Net, times: u32) -> io::Result<()> {
    let start = Instant::now(rt)?;
    let outcome = repeat(rt.alloc(), net, times);
    let time = start.elapsed(rt)?;
    tell(rt, outcome)?;
    tell_time(rt, "seconds", time)
}

// Prints a summary of an answer.
fn tell(rt: &HostRuntime, outcome: Result<Feas<'_>, NoMemory>) -> io::Result<()> {
    match outcome {
        Ok(Feas::Flow(state)) => println!(rt; "flow {}", weighted_total(&state)),
        Ok(Feas::Blocked(set, _)) => println!(rt; "blocked {}", set.len()),
        Err(_) => println!(rt; "out of memory"),
    }
}

// The last of this many answers, at least one.
fn repeat<'n>(alloc: Global, net: &'n Net, times: u32) -> Result<Feas<'n>, NoMemory> {
    let mut last = feasible(alloc, net)?;
    for _ in 1..times {
        last = feasible(alloc, net)?;
    }
    Ok(last)
}

// The sum of each amount times the number of its arc.
fn weighted_total(state: &State<'_>) -> i128 {
    let mut sum = 0i128;
    for place in 0..state.net().arc_count() {
        let arc = ArcId::new(place + 1);
        let weighted = state.amount(arc).wrapping_mul(i128::from(arc.get()));
        sum = sum.wrapping_add(weighted);
    }
    sum
}
