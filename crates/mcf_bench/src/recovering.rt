//! Recovers prices from the state of an answer, or raises such prices.
ghost use Rattle.std.specs.Prelude.{◌≡◌};
ghost use Rattle.mcf_flows.specs.Network.{IsArcNumber};

use crate::reading::net_of;
use crate::{raising, tell_time};
use mcf_answer::{Answer, FlowAnswer, Sent, parse};
use mcf_cancel::{Recovered, recover};
use mcf_network::{Net, Rid, State};
use mcf_text::{ArcId, NoMemory};
use std::alloc::Global;
use std::time::Instant;
use std::{fs, io};

/// What to do with a state.
#[derive(Clone, Copy)]
pub enum Work {
    /// Recover its prices.
    Recover,
    /// Recover its prices once, and raise them to the greatest.
    Raise,
}

/// Reads the instance of one file and the answer of another, repeats this work so many times on the
/// state of that answer, and prints a summary of the last result and the seconds of all.
pub fn run(
    rt: &HostRuntime,
    work: Work,
    instance: &str,
    answer: &str,
    times: u32,
) -> io::Result<()> {
    let instance = fs::read(rt, instance)?;
    let answer = fs::read(rt, answer)?;
    run_on(rt, work, &instance, &answer, times)
}

// Does the work on the answer in one text for the instance in another.
fn run_on(
    rt: &HostRuntime,
    work: Work,
    instance: &[u8],
    answer: &[u8],
    times: u32,
) -> io::Result<()> {
    let Some(net) = net_of(rt.alloc(), instance) else {
        return println!(rt; "no net");
    };
    let Some(flow) = flow_of(rt.alloc(), answer) else {
        return println!(rt; "no flow");
    };
    match state_of(rt.alloc(), &net, flow.sent.as_slice()) {
        Ok(state) => match work {
            Work::Recover => run_from(rt, &state, times),
            Work::Raise => raising::run_from(rt, &state, times),
        },
        Err(_) => println!(rt; "out of memory"),
    }
}

// The flow answer of a text, if there is memory and the text is one.
fn flow_of(alloc: Global, text: &[u8]) -> Option<FlowAnswer> {
    match parse(alloc, text) {
        Ok(Ok(Answer::Flow(flow))) => Some(flow),
        _ => None,
    }
}

// Recovers prices from a state.
fn run_from(rt: &HostRuntime, state: &State<'_>, times: u32) -> io::Result<()> {
    let start = Instant::now(rt)?;
    let outcome = repeat(rt.alloc(), state, times);
    let time = start.elapsed(rt)?;
    tell(rt, outcome)?;
    tell_time(rt, "seconds", time)
}

// Prints a summary of a result.
fn tell(rt: &HostRuntime, outcome: Result<Recovered, NoMemory>) -> io::Result<()> {
    match outcome {
        Ok(Recovered::Prices(prices)) => println!(rt;
            "prices {} sum {}",
            prices.len(),
            total(prices.as_slice())
        ),
        Ok(Recovered::Cycle(walk)) => println!(rt; "cycle {}", walk.len()),
        Err(_) => println!(rt; "out of memory"),
    }
}

// The state in which each arc carries its flow, if it has room for that.
fn state_of<'n>(alloc: Global, net: &'n Net, sent: &[Sent]) -> Result<State<'n>, NoMemory> {
    let mut state = State::zero(alloc, net)?;
    for place in 0..net.arc_count() {
        if let Some(sent) = sent.get(place as usize) {
            push_within(&mut state, ArcId::new(place + 1), sent.flow);
        }
    }
    Ok(state)
}

// Pushes an amount along an arc, if the arc has room for it.
fn push_within(state: &mut State<'_>, arc: ArcId, amount: i128)
    requires { IsArcNumber state.old.net arc }
    ensures { state.new.net ≡ state.old.net }
{
    let room = state.room(Rid { arc, back: false });
    if 0 <= amount && amount <= room {
        state.push(Rid { arc, back: false }, amount);
    }
}

// The last of this many results, at least one.
fn repeat(alloc: Global, state: &State<'_>, times: u32) -> Result<Recovered, NoMemory> {
    let mut last = recover(alloc, state)?;
    for _ in 1..times {
        last = recover(alloc, state)?;
    }
    Ok(last)
}

/// The sum of some numbers.
pub fn total(numbers: &[i128]) -> i128 {
    let mut sum = 0i128;
    for number in numbers {
        sum = sum.wrapping_add(*number);
    }
    sum
}
