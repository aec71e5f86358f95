//! Judges an answer.
use crate::tell_time;
use mcf_checker::{Verdict, check};
use mcf_text::NoMemory;
use std::time::Instant;
use std::{fs, io};

/// Reads two files, judges the answer in the second for the instance in the first, and prints the
/// verdict and the seconds of judging.
pub fn run(rt: &HostRuntime, instance: &str, answer: &str) -> io::Result<()> {
    let instance = fs::read(rt, instance)?;
    let answer = fs::read(rt, answer)?;
    run_on(rt, &instance, &answer)
}

// Judges the answer in one text for the instance in another.
fn run_on(rt: &HostRuntime, instance: &[u8], answer: &[u8]) -> io::Result<()> {
    let start = Instant::now(rt)?;
    let outcome = check(rt.alloc(), instance, answer);
    let time = start.elapsed(rt)?;
    tell(rt, outcome)?;
    tell_time(rt, "seconds", time)
}

// Prints a verdict.
fn tell(rt: &HostRuntime, outcome: Result<Verdict, NoMemory>) -> io::Result<()> {
    match outcome {
        Ok(verdict) => println!(rt; "{verdict}"),
        Err(_) => println!(rt; "out of memory"),
    }
}
