//! Least states found by the search, and judged.
ghost use Rattle.std.specs.Prelude.{◌≡◌, ◌*◌, ◌≤◌, IfNone, IfOk, IfSome, OnErr, length, nat_lt, true};
ghost use Rattle.std.specs.List.{All};
ghost use Rattle.mcf_flows.specs.Network.{node_count};
ghost use Rattle.mcf_flows.specs.WellFormed.{IsUpTo};
ghost use Rattle.mcf_engine.specs.NearPrices.{near_limit};
ghost use Rattle.mcf_engine.specs.Outcomes.{AreStatePrices, IsLeastState};
ghost use Rattle.mcf_fast_scaling.specs.declared.tuning.TheConstants.{MOST_ARCS_PER_NODE};

use crate::judging::judge;
use crate::search::Search;
use crate::star::LIMIT;
use crate::tuning::MOST_ARCS_PER_NODE;
use mcf_engine::Pricer;
use mcf_network::{Net, State};
use mcf_text::{ArcId, NoMemory, copies};
use std::alloc::Global;

/// A least state of a net, with its prices, if the search finds one.
///
/// The search scales costs, and augments along short paths (Goldberg, The partial augment-relabel
/// algorithm for the maximum flow problem, 2008; Ahuja, Magnanti and Orlin, Network Flows, section
/// 10.3). In a net without nodes it finds a state. Otherwise it finds none if there is none, if it
/// gives up, for which `readings` limits how often it reads the whole net, and in dense nets and
/// those of widths above 2^60 in total, which it doesn't try. No clause states when it gives up,
/// which nets it doesn't try, or that it allocates before it begins.
///
/// # Errors
///
/// `NoMemory` if an allocation is refused; a net without nodes needs none.
pub fn find_least<'n>(
    alloc: Global,
    net: &'n Net,
    readings: u32,
) -> Result<Option<(State<'n>, Vec<i128>)>, NoMemory>
    ensures least { IfOk result (λ found. IfSome found (λ shown. IsLeastState net.now shown.0)) }
    ensures prices { IfOk result (λ found. IfSome found (λ shown. AreStatePrices net.now shown.0 shown.1.items)) }
    ensures none { IfOk result (λ found. IfNone found (1 ≤ node_count net.now)) }
    ensures wants { OnErr result (1 ≤ node_count net.now) }
{
    if net.node_count() == 0 {
        return Ok(Some(without_nodes(alloc, net)?));
    }
    if !suits(net) {
        return Ok(None);
    }
    let mut search = Search::start(alloc, net, readings)?;
    let mut pricer = Pricer::start(alloc, net)?;
    shown_by(alloc, net, &mut search, &mut pricer)
}

// The state of a net without nodes, and no prices, without any allocation.
fn without_nodes<'n>(alloc: Global, net: &'n Net) -> Result<(State<'n>, Vec<i128>), NoMemory>
    requires { node_count net.now ≡ 0 }
    ensures least { IfOk result (λ shown. IsLeastState net.now shown.0) }
    ensures prices { IfOk result (λ shown. AreStatePrices net.now shown.0 shown.1.items) }
    ensures wants { OnErr result (1 ≤ node_count net.now) }
{
    let state = State::zero(alloc, net)?;
    Ok((state, Vec::new(alloc)))
}

// Whether to try the search on a net: it has few arcs per node, and all widths together fit.
fn suits(net: &Net) -> bool {
    let mut total = 0i128;
    'arcs: for number in 0..net.arc_count() {
        total = total.saturating_add(net.width(ArcId::at(number)));
    }
    !is_dense(net) && total <= i128::from(LIMIT)
}

/// Whether a net has too many arcs per node for the search.
pub fn is_dense(net: &Net) -> bool
    ensures { result ≡ nat_lt (MOST_ARCS_PER_NODE * node_count net.now) (length net.now.arcs) }
{
    MOST_ARCS_PER_NODE * u64::from(net.node_count()) < u64::from(net.arc_count())
}

// The search's result, if the judge shows it to be least.
fn shown_by<'n>(
    alloc: Global,
    net: &'n Net,
    search: &mut Search,
    pricer: &mut Pricer,
) -> Result<Option<(State<'n>, Vec<i128>)>, NoMemory>
    requires { pricer.old ≡ node_count net.now }
    ensures least { IfOk result (λ found. IfSome found (λ shown. IsLeastState net.now shown.0)) }
    ensures prices { IfOk result (λ found. IfSome found (λ shown. AreStatePrices net.now shown.0 shown.1.items)) }
{
    let mut state = State::zero(alloc, net)?;
    let mut prices = copies(alloc, net.node_count() as usize, 0)?;
    if find(search, &mut state, pricer, prices.as_mut_slice()) {
        return Ok(Some((state, prices)));
    }
    Ok(None)
}

// Searches, and returns whether the result is a least state with the greatest prices.
fn find(
    search: &mut Search,
    state: &mut State<'_>,
    pricer: &mut Pricer,
    prices: &mut [i128],
) -> bool
    requires pricer { pricer.old ≡ node_count state.old.net }
    requires count { length prices.old ≡ node_count state.old.net }
    requires small { All (IsUpTo near_limit) prices.old }
    ensures count { length prices.new ≡ length prices.old }
    ensures least { result ≡ true → IsLeastState state.old.net state.new }
    ensures prices { result ≡ true → AreStatePrices state.old.net state.new prices.new }
{
    let Some((star, nexts)) = search.run() else {
        return false;
    };
    if !judge(star, nexts, state, prices) {
        return false;
    }
    pricer.raise(state, 1, 0, prices);
    true
}
