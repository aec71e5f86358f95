//! A least state of a net, mended from the answer to a similar net.
ghost use Rattle.std.specs.Prelude.{◌≡◌, ◌≤◌, IfOk, IfSome, OnErr, length, true};
ghost use Rattle.std.specs.List.{All};
ghost use Rattle.mcf_flows.specs.Network.{node_count};
ghost use Rattle.mcf_flows.specs.WellFormed.{IsUpTo};
ghost use Rattle.mcf_engine.specs.NearPrices.{near_limit};
ghost use Rattle.mcf_engine.specs.Outcomes.{AreStatePrices, IsLeastState};

use crate::again::Hint;
use crate::judging::are_greatest;
use crate::search::{Search, surplus_of};
use crate::tuning::{MORE_READINGS, READINGS};
use mcf_columns::{at, narrow};
use mcf_fast_scaling::is_shown;
use mcf_network::{Net, State};
use mcf_text::{NoMemory, copies};
use std::alloc::Global;

/// A least state of a net with its prices, mended from the answer to a similar net; or `None` if
/// that has other sizes, or the mending gives up.
pub(crate) fn mend<'n>(
    alloc: Global,
    net: &'n Net,
    hint: &Hint,
) -> Result<Option<(State<'n>, Vec<i128>)>, NoMemory>
    ensures least { IfOk result (λ found. IfSome found (λ shown. IsLeastState net.now shown.0)) }
    ensures prices { IfOk result (λ found. IfSome found (λ shown. AreStatePrices net.now shown.0 shown.1.items)) }
    ensures some { IfOk result (λ found. IfSome found (λ shown. 1 ≤ node_count net.now)) }
    ensures wants { OnErr result (1 ≤ node_count net.now) }
{
    if net.node_count() == 0 || !suits(hint, net) {
        return Ok(None);
    }
    let mut search = Search::start(alloc, net, hint.prices.as_slice(), readings(net))?;
    let mut state = State::zero(alloc, net)?;
    let mut prices = copies(alloc, net.node_count() as usize, 0)?;
    search.lay_out(&mut state, hint.amounts.as_slice());
    if find(&mut search, &mut state, prices.as_mut_slice()) {
        return Ok(Some((state, prices)));
    }
    Ok(None)
}

// Whether a hint has an amount for each arc of a net and a price for each node.
fn suits(hint: &Hint, net: &Net) -> bool {
    hint.amounts.len() == net.arc_count() as usize && hint.prices.len() == net.node_count() as usize
}

// How many residual arcs the search may read.
fn readings(net: &Net) -> u64 {
    u64::from(net.arc_count())
        .wrapping_mul(READINGS)
        .wrapping_add(MORE_READINGS)
}

// Mends, and returns whether the result is a least state with the greatest prices.
fn find(search: &mut Search, state: &mut State<'_>, prices: &mut [i128]) -> bool
    requires count { length prices.old ≡ node_count state.old.net }
    requires small { All (IsUpTo near_limit) prices.old }
    ensures net { state.new.net ≡ state.old.net }
    ensures count { length prices.new ≡ length prices.old }
    ensures least { result ≡ true → IsLeastState state.old.net state.new }
    ensures prices { result ≡ true → AreStatePrices state.old.net state.new prices.new }
{
    if !meet_all(search, state) || !search.raise(state) {
        return false;
    }
    write_prices(&search.star.prices, prices);
    judge(state, prices, search)
}

// Whether a state is least, and prices are the greatest that show it.
fn judge(state: &State<'_>, prices: &[i128], search: &Search) -> bool
    requires count { length prices.now ≡ node_count state.now.net }
    requires small { All (IsUpTo near_limit) prices.now }
    ensures least { result ≡ true → IsLeastState state.now.net state.now }
    ensures prices { result ≡ true → AreStatePrices state.now.net state.now prices.now }
{
    if !is_shown(state, prices) {
        return false;
    }
    are_greatest(state, prices, &search.exits, &search.ranks)
}

// Meets all deficits, and returns whether that succeeded.
fn meet_all(search: &mut Search, state: &mut State<'_>) -> bool
    ensures net { state.new.net ≡ state.old.net }
{
    let nodes = state.net().node_count();
    'nodes: for node in 0..nodes {
        if surplus_of(state, node) < 0 && !search.meet(state, node) {
            return false;
        }
    }
    true
}

// Writes the price of each node.
fn write_prices(own: &[i64], prices: &mut [i128])
    requires small { All (IsUpTo near_limit) prices.old }
    ensures count { length prices.new ≡ length prices.old }
    ensures small { All (IsUpTo near_limit) prices.new }
{
    'nodes: for i in 0..prices.len() {
        prices[i] = i128::from(at(own, narrow(i), 0));
    }
}
