//! Ranges of the costs of arcs of worked nets, found by hand from the cycles through each arc.
ghost use Rattle.std.specs.Prelude.{◌≡◌};
ghost use Rattle.std.specs.List.{All};
ghost use Rattle.mcf_flows.specs.Network.{IsArcNumber};
ghost use Rattle.mcf_flows.specs.WellFormed.{IsUpTo};
ghost use Rattle.mcf_network.specs.Removal.{net_of};
ghost use Rattle.mcf_engine.specs.Outcomes.{AreStatePrices, IsLeastState};
ghost use Rattle.mcf_engine.specs.SmallPrices.{price_limit};

use mcf_cancel::{Cancel, Engine, Outcome, greatest_prices_are_small};
use mcf_flows::Instance;
use mcf_network::{Net, State, restore};
use mcf_ranges::{CostRange, cost_ranges};
use mcf_test_nets::instance_of;
use mcf_text::{ArcId, NoMemory};
use std::alloc::Global;
use std::test::Fail;

// The range of the cost of an arc of a text, for a least flow.
fn range_of(alloc: Global, text: &[u8], arc: u32) -> Result<Option<CostRange>, NoMemory> {
    let Some(instance) = instance_of(alloc, text)? else {
        return Ok(None);
    };
    if arc == 0 || instance.arc_count() < arc {
        return Ok(None);
    }
    let net = Net::of(alloc, &instance)?;
    match Cancel::new().solve(alloc, &net)? {
        Outcome::Least(state, prices) => {
            greatest_prices_are_small();
            range_in(alloc, &instance, &state, prices.as_slice(), ArcId::new(arc))
        }
        Outcome::Blocked(..) => Ok(None),
    }
}

// The range of the cost of an arc, for the flow that a least state stands for.
fn range_in(
    alloc: Global,
    instance: &Instance,
    state: &State<'_>,
    prices: &[i128],
    arc: ArcId,
) -> Result<Option<CostRange>, NoMemory>
    requires arc { IsArcNumber instance.now arc }
    requires net { state.now.net ≡ net_of instance.now }
    requires least { IsLeastState state.now.net state.now }
    requires prices { AreStatePrices state.now.net state.now prices.now }
    requires small { All (IsUpTo price_limit) prices.now }
{
    let flow = restore(alloc, instance, state)?;
    let ranges = cost_ranges(alloc, instance, flow.as_slice(), prices, &[arc])?;
    Ok(ranges.first().copied())
}

const NONE: Option<i128> = None;

// A text, an arc, and how far its cost may fall and rise.
type Worked = (&'static [u8], u32, Option<i128>, Option<i128>);

// Two units go over a full arc of cost 1, and over a way of cost 3.
const DETOUR: &[u8] = b"p min 3 3\nn 1 2\nn 3 -2\na 1 3 0 1 1\na 1 2 0 2 1\na 2 3 0 2 2\n";

// One unit of at least one and at most three, besides which another arc is idle; and a loop.
const BOUNDS: &[u8] = b"p min 2 3\nn 1 2\nn 2 -2\na 1 2 1 3 4\na 1 2 0 9 6\na 2 2 0 3 5\n";

static WORKED: [Worked; 6] = [
    (DETOUR, 1, NONE, Some(2)),
    (DETOUR, 2, Some(2), NONE),
    (DETOUR, 3, Some(2), NONE),
    (BOUNDS, 1, NONE, Some(2)),
    (BOUNDS, 2, Some(2), NONE),
    (BOUNDS, 3, Some(5), NONE),
];

// Whether the cost of an arc has this range.
fn has_range(alloc: Global, worked: &Worked) -> Result<bool, NoMemory> {
    let (text, arc, down, up) = *worked;
    Ok(range_of(alloc, text, arc)? == Some(CostRange { down, up }))
}

#[test]
fn ranges_are_found(rt: HostRuntime) -> Result<(), Fail> {
    for worked in &WORKED {
        assert!(rt; has_range(rt.alloc(), worked)?);
    }
    Ok(())
}
