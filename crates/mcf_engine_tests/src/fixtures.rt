//! Texts of nets with what their least flows cost, and whether an engine finds that.

use mcf_cancel::{Engine, Outcome, Recovered, recover};
use mcf_network::{Net, State};
use mcf_test_nets::net_of;
use mcf_text::{ArcId, NoMemory};
use std::alloc::Global;

/// A text, and the cost of a least flow of its net, in which lower bounds are taken away, or
/// nothing if no flow is feasible.
pub type Costed = (&'static [u8], Option<i128>);

/// The sample of the DIMACS format.
pub const SAMPLE: &[u8] =
    b"p min 4 5\nn 1 4\nn 4 -4\na 1 2 0 4 2\na 1 3 0 2 2\na 2 3 0 2 1\na 2 4 0 3 3\na 3 4 0 5 1\n";

/// A net without supplies, with a cycle that earns.
pub const CIRCULATION: &[u8] = b"p min 3 4\na 1 2 0 5 0\na 2 3 0 5 0\na 3 1 0 5 0\na 1 3 0 5 -1\n";

/// Two arcs side by side, the first of which is cheaper.
pub const SIDE_BY_SIDE: &[u8] = b"p min 2 2\nn 1 3\nn 2 -3\na 1 2 0 2 1\na 1 2 0 2 5\n";

/// The two arcs side by side among 1,000 nodes.
pub const AMONG_MANY: &[u8] = b"p min 1000 2\nn 1 3\nn 2 -3\na 1 2 0 2 1\na 1 2 0 2 5\n";

/// Two arcs of the same cost, either of which has room for all.
pub const EVEN: &[u8] = b"p min 2 2\nn 1 3\nn 2 -3\na 1 2 0 3 4\na 1 2 0 3 4\n";

/// A loop that earns.
pub const LOOP: &[u8] = b"p min 1 1\na 1 1 0 7 -3\n";

/// An arc of which all are great: its supply, its capacity and its cost.
pub const GREAT: &[u8] =
    b"p min 2 1\nn 1 1000000000000000\nn 2 -1000000000000000\na 1 2 0 1000000000000000 1000000000000\n";

/// Worked nets.
pub static COSTED: [Costed; 21] = [
    (SAMPLE, Some(14)),
    (b"p min 0 0\n", Some(0)),
    (b"p asn 0 0\n", Some(0)),
    (b"p min 1 0\nn 1 -1\n", None),
    (b"p min 2 1\nn 1 3\nn 2 -3\na 1 2 0 2 1\n", None),
    (b"p min 2 2\na 1 2 2 5 1\na 2 1 0 1 0\n", None),
    (LOOP, Some(0)),
    (SIDE_BY_SIDE, Some(7)),
    (b"p min 2 1\nn 1 4\nn 2 -4\na 1 2 4 4 -2\n", Some(0)),
    (b"p min 2 1\nn 1 -3\nn 2 3\na 1 2 -3 -3 1\n", Some(0)),
    (
        b"p asn 4 4\nn 1\nn 2\na 1 3 5\na 1 4 1\na 2 3 2\na 2 4 1\n",
        Some(3),
    ),
    (
        b"p asn 4 4\nn 1\nn 2\na 1 3 5\na 1 4 1\na 2 3 2\na 2 4 -9\n",
        Some(-4),
    ),
    (b"p asn 4 2\nn 1\nn 2\na 1 3 1\na 2 3 1\n", None),
    (b"p asn 3 2\nn 1\nn 2\na 1 3 4\na 2 3 4\n", None),
    (b"p min 2 1\nn 1 2\na 1 2 0 5 1\n", None),
    (GREAT, Some(1_000_000_000_000_000_000_000_000_000)),
    (
        b"p min 2 2\na 1 2 0 1000000000000000 -1\na 2 1 0 1000000000000000 0\n",
        Some(-1_000_000_000_000_000),
    ),
    (CIRCULATION, Some(-5)),
    (
        b"p min 3 3\nn 1 5\nn 3 -5\na 1 2 2 10 3\na 2 3 0 10 1\na 1 3 0 10 2\n",
        Some(8),
    ),
    (EVEN, Some(12)),
    (AMONG_MANY, Some(7)),
];

/// What the amounts of a state cost.
pub fn cost_of(state: &State<'_>) -> i128 {
    let net = state.net();
    let mut total = 0i128;
    for i in 0..net.arc_count() {
        let k = ArcId::new(i + 1);
        total = total.wrapping_add(net.cost(k).wrapping_mul(state.amount(k)));
    }
    total
}

// What a net is answered with, by an engine that is asked once more where memory ran out: the cost
// of a least flow, or nothing if there is no flow.
fn cost_by<E: Engine>(alloc: Global, engine: &mut E, net: &Net) -> Result<Option<i128>, NoMemory>
    requires { E.Takes net.now }
{
    let outcome = match engine.solve(alloc, net) {
        Ok(outcome) => outcome,
        Err(_) => engine.solve(alloc, net)?,
    };
    match outcome {
        Outcome::Least(state, _) => Ok(Some(cost_of(&state))),
        Outcome::Blocked(..) => Ok(None),
    }
}

/// Whether an engine takes the net of a text, and finds a least flow of a cost, or that no flow is
/// feasible.
pub fn finds<E: Engine>(
    alloc: Global,
    engine: &mut E,
    text: &[u8],
    cost: Option<i128>,
) -> Result<bool, NoMemory> {
    let Some(net) = net_of(alloc, text)? else {
        return Ok(false);
    };
    if !engine.takes(&net) {
        return Ok(false);
    }
    Ok(cost_by(alloc, engine, &net)? == cost)
}

/// Whether one engine, asked for each row in turn, finds what it has.
pub fn finds_all<E: Engine>(
    alloc: Global,
    engine: &mut E,
    rows: &[Costed],
) -> Result<bool, NoMemory> {
    for (text, cost) in rows {
        if !finds(alloc, engine, text, *cost)? {
            return Ok(false);
        }
    }
    Ok(true)
}

/// Whether an engine takes a net, and finds a least flow of a cost, with these prices.
pub fn finds_prices<E: Engine>(
    alloc: Global,
    engine: &mut E,
    net: &Net,
    cost: i128,
    prices: &[i128],
) -> Result<bool, NoMemory> {
    if !engine.takes(net) {
        return Ok(false);
    }
    match engine.solve(alloc, net)? {
        Outcome::Least(state, found) => Ok(cost_of(&state) == cost && found.as_slice() == prices),
        Outcome::Blocked(..) => Ok(false),
    }
}

/// Whether these prices are recovered from a state.
pub fn has_prices(alloc: Global, state: &State<'_>, prices: &[i128]) -> Result<bool, NoMemory> {
    match recover(alloc, state)? {
        Recovered::Prices(found) => Ok(found.as_slice() == prices),
        Recovered::Cycle(_) => Ok(false),
    }
}
