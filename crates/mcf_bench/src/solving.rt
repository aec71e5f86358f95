//! Solves an instance, timed without its engine.
use crate::reading::net_of;
use crate::tell_time;
use mcf_cancel::Cancel;
use mcf_engine::Engine;
use mcf_network::Net;
use mcf_solver::{Choice, Kind, solve_text};
use std::io;
use std::time::{Duration, Instant};

/// Solves a text, and prints the length of the answer and the seconds, less those that the engine
/// takes for the same net.
pub fn run(rt: &HostRuntime, text: &[u8]) -> io::Result<()> {
    let (kind, bytes, time) = solve_time(rt, text)?;
    let engine = match net_of(rt.alloc(), text) {
        Some(net) => engine_time(rt, &net),
        None => Ok(Duration::from_secs(0)),
    };
    let engine = engine?;
    println!(rt; "{kind} bytes {bytes}")?;
    tell_time(rt, "engine_seconds", engine)?;
    tell_time(rt, "seconds", time.saturating_sub(engine))
}

// The kind of the answer to a text, its length, and how long it takes to write.
fn solve_time(rt: &HostRuntime, text: &[u8]) -> io::Result<(&'static str, usize, Duration)> {
    let mut answer = Vec::new(rt.alloc());
    let start = Instant::now(rt)?;
    let outcome = solve_text(rt.alloc(), text, Choice::default(), &mut answer);
    let time = start.elapsed(rt)?;
    let kind = match outcome {
        Ok(Kind::Flow) => "flow",
        Ok(Kind::Blocked) => "blocked",
        Ok(Kind::Refused) => "refused",
        Err(_) => "out of memory",
    };
    Ok((kind, answer.len(), time))
}

// How long the engine takes for a net.
fn engine_time(rt: &HostRuntime, net: &Net) -> io::Result<Duration> {
    let mut engine = Cancel::new();
    let start = Instant::now(rt)?;
    let outcome = engine.solve(rt.alloc(), net);
    let time = start.elapsed(rt)?;
    drop(outcome);
    Ok(time)
}
