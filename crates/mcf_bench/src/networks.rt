//! Builds the net of an instance, and visits the residual arcs that leave each node.
use crate::reading::instance_of;
use crate::tell_time;
use mcf_instance::Instance;
use mcf_network::Net;
use mcf_text::{NoMemory, NodeId};
use std::alloc::Global;
use std::io;
use std::time::Instant;

// The built nets, and the sum over all of them of the nodes that their residual arcs enter.
#[derive(Drop)]
struct Built {
    nets: Vec<Net>,
    sum: u64,
}

/// Reads a text as an instance, builds its net this many times, visits each net, and prints a
/// summary and the seconds of building and visiting all of them. The nets are all kept to the end.
pub fn run(rt: &HostRuntime, text: &[u8], times: u32) -> io::Result<()> {
    match instance_of(rt.alloc(), text) {
        Some(instance) => run_on(rt, &instance, times),
        None => println!(rt; "no instance"),
    }
}

// Builds the net of an instance this many times.
fn run_on(rt: &HostRuntime, instance: &Instance, times: u32) -> io::Result<()> {
    let start = Instant::now(rt)?;
    let outcome = build(rt.alloc(), instance, times);
    let time = start.elapsed(rt)?;
    tell(rt, instance, outcome)?;
    tell_time(rt, "seconds", time)
}

// Prints a summary of the nets of an instance.
fn tell(rt: &HostRuntime, instance: &Instance, outcome: Result<Built, NoMemory>) -> io::Result<()> {
    match outcome {
        Ok(built) => println!(rt;
            "nets {} arcs {} sum {}",
            built.nets.len(),
            instance.arc_count(),
            built.sum
        ),
        Err(_) => println!(rt; "out of memory"),
    }
}

// This many nets of an instance.
fn build(alloc: Global, instance: &Instance, times: u32) -> Result<Built, NoMemory> {
    let mut nets = Vec::with_capacity(alloc, times as usize)?;
    let mut sum = 0u64;
    for _ in 0..times {
        let net = Net::of(alloc, instance)?;
        sum = sum.wrapping_add(head_total(&net));
        nets.push(net)?;
    }
    Ok(Built { nets, sum })
}

// The sum of the nodes that the residual arcs enter, node by node.
fn head_total(net: &Net) -> u64 {
    let mut sum = 0u64;
    for number in 0..net.node_count() {
        for along in net.leaving(NodeId::new(number + 1)) {
            let (_, head) = net.route(along);
            sum = sum.wrapping_add(u64::from(head.get()));
        }
    }
    sum
}
