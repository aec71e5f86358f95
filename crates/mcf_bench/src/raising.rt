//! Raises prices that show a state to the greatest such prices.
ghost use Rattle.std.specs.Prelude.{◌≡◌};
ghost use Rattle.mcf_flows.specs.Flow.{AreGreatestPrices};
ghost use Rattle.mcf_flows.specs.Network.{node_count};

use crate::recovering::total;
use crate::tell_time;
use mcf_cancel::{Pricer, Recovered, greatest_prices_are_small, recover, shown_prices_are_near};
use mcf_network::State;
use std::io;
use std::time::Instant;

/// Recovers prices of a state, raises them this many times, which doesn't change them, and prints a
/// summary and the seconds of all but the first step.
pub fn run_from(rt: &HostRuntime, state: &State<'_>, times: u32) -> io::Result<()> {
    match recover(rt.alloc(), state) {
        Ok(Recovered::Prices(mut prices)) => raise_from(rt, state, &mut prices, times),
        _ => println!(rt; "no prices"),
    }
}

// Raises the greatest prices of a state.
fn raise_from(
    rt: &HostRuntime,
    state: &State<'_>,
    prices: &mut [i128],
    times: u32,
) -> io::Result<()>
    requires greatest { AreGreatestPrices state.now.net prices.old state.now.amounts }
{
    let Ok(mut pricer) = Pricer::start(rt.alloc(), state.net()) else {
        return println!(rt; "out of memory");
    };
    let start = Instant::now(rt)?;
    raise_times(&mut pricer, state, prices, times);
    let time = start.elapsed(rt)?;
    println!(rt; "prices {} sum {}", prices.len(), total(prices))?;
    tell_time(rt, "seconds", time)
}

// Raises prices that show a state, which are its greatest already.
fn raise_times(pricer: &mut Pricer, state: &State<'_>, prices: &mut [i128], times: u32)
    requires room { pricer.old ≡ node_count state.now.net }
    requires greatest { AreGreatestPrices state.now.net prices.old state.now.amounts }
{
    for _ in 0..times {
        raise_shown(pricer, state, prices);
    }
}

fn raise_shown(pricer: &mut Pricer, state: &State<'_>, prices: &mut [i128])
    requires room { pricer.old ≡ node_count state.now.net }
    requires greatest { AreGreatestPrices state.now.net prices.old state.now.amounts }
    ensures room { pricer.new ≡ pricer.old }
    ensures greatest { AreGreatestPrices state.now.net prices.new state.now.amounts }
{
    let _net = state.net();
    greatest_prices_are_small();
    shown_prices_are_near();
    pricer.raise(state, 1, 0, prices);
}
