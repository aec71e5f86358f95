//! Solves a net by the network simplex.
use crate::reading::net_of;
use crate::scaling::tell;
use crate::tell_time;
use mcf_engine::Engine;
use mcf_simplex::{Simplex, Wide};
use std::io;
use std::time::Instant;

/// Reads a text as an instance, solves its net by the rule for large nets, and prints what the
/// answer costs beyond the lower bounds, and the seconds.
pub fn run(rt: &HostRuntime, text: &[u8]) -> io::Result<()> {
    let Some(net) = net_of(rt.alloc(), text) else {
        return println!(rt; "no net");
    };
    let mut engine = Simplex::new(Wide::suited_to(net.arc_count()));
    let start = Instant::now(rt)?;
    let outcome = engine.solve(rt.alloc(), &net);
    let time = start.elapsed(rt)?;
    tell(rt, outcome)?;
    tell_time(rt, "seconds", time)
}
