//! Reads instances, and sums up their numbers.
use crate::tell_time;
use mcf_instance::{Instance, Refusal, read};
use mcf_network::Net;
use mcf_text::{ArcId, NoMemory, NodeId};
use std::alloc::Global;
use std::io;
use std::time::Instant;

/// Reads a text as an instance, and prints a summary and the seconds of reading.
pub fn run(rt: &HostRuntime, text: &[u8]) -> io::Result<()> {
    let start = Instant::now(rt)?;
    let outcome = read(rt.alloc(), text);
    let time = start.elapsed(rt)?;
    tell(rt, outcome)?;
    tell_time(rt, "seconds", time)
}

// Prints a summary of an instance, or why there is none.
fn tell(rt: &HostRuntime, outcome: Result<Result<Instance, Refusal>, NoMemory>) -> io::Result<()> {
    match outcome {
        Ok(Ok(instance)) => println!(rt;
            "nodes {} arcs {} sum {} supplies {}",
            instance.node_count(),
            instance.arc_count(),
            arc_total(&instance),
            supply_total(&instance)
        ),
        Ok(Err(refusal)) => println!(rt; "refused {} {}", refusal.line, refusal.code.word()),
        Err(_) => println!(rt; "out of memory"),
    }
}

/// The instance of a text, if there is memory and it is one.
pub fn instance_of(alloc: Global, text: &[u8]) -> Option<Instance> {
    match read(alloc, text) {
        Ok(Ok(instance)) => Some(instance),
        _ => None,
    }
}

/// The net of the instance of a text, if there is memory and the text is one.
pub fn net_of(alloc: Global, text: &[u8]) -> Option<Net> {
    let instance = instance_of(alloc, text)?;
    Net::of(alloc, &instance).ok()
}

// The sum of all numbers of the arcs.
fn arc_total(instance: &Instance) -> i128 {
    let mut sum = 0i128;
    for k in 1..=instance.arc_count() {
        let arc = instance.arc(ArcId::new(k));
        let ends = i128::from(arc.src.get()) + i128::from(arc.dst.get());
        sum = sum
            .wrapping_add(ends)
            .wrapping_add(arc.low)
            .wrapping_add(arc.cap)
            .wrapping_add(arc.cost);
    }
    sum
}

// The sum of the absolute values of the supplies.
fn supply_total(instance: &Instance) -> i128 {
    let mut sum = 0i128;
    for v in 1..=instance.node_count() {
        let supply = instance.supply(NodeId::new(v));
        sum = if supply < 0 {
            sum.wrapping_sub(supply)
        } else {
            sum.wrapping_add(supply)
        };
    }
    sum
}
