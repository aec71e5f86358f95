//! The basis with which the simplex begins, and what a basis writes at the end, on worked nets.
ghost use Rattle.std.specs.Prelude.{◌≡◌, false, length, pos};
ghost use Rattle.mcf_flows.specs.Network.{node_count};
ghost use Rattle.mcf_network.specs.Chosen.{supply_total};

use mcf_basis::Basis;
use mcf_network::{Net, NodeSet, Rid, State, unbalanced};
use mcf_test_nets::net_of;
use mcf_text::{ArcId, NoMemory, NodeId, copies};
use std::alloc::Global;
use std::test::Fail;

// Five units are to go from the first node to the last. An artificial arc costs 1 + 2 * 3 + 1 * 4 +
// 7 * 0 = 11.
const CHAIN: &[u8] = b"p min 3 3\nn 1 5\nn 3 -5\na 1 2 0 3 2\na 2 3 0 4 -1\na 1 3 0 0 7\n";

// The node that takes can't be reached.
const APART: &[u8] = b"p min 3 2\nn 1 3\nn 3 -3\na 1 2 0 4 0\na 3 2 0 4 6\n";

// Whether the price at a place is this.
fn is_price(prices: &[i128], place: u32, price: i128) -> bool {
    match prices.get(place as usize) {
        Some(wanted) => *wanted == price,
        None => false,
    }
}

// Whether the nodes of a basis have these prices.
fn has_prices(basis: &Basis<'_>, prices: &[i128]) -> bool {
    let nodes = basis.net().node_count();
    for place in 0..nodes {
        let price = basis.price(NodeId::new(place + 1));
        if !is_price(prices, place, price) {
            return false;
        }
    }
    prices.len() == nodes as usize
}

// Whether the arc at a place has this reduced cost, and can enter or not, as the rows have it.
fn is_arc(rows: &[(i128, bool)], place: u32, reduced: i128, eligible: bool) -> bool {
    match rows.get(place as usize) {
        Some(row) => row.0 == reduced && row.1 == eligible,
        None => false,
    }
}

// Whether the arcs have these reduced costs, and can enter where the row says so. Those that can
// enter violate the conditions by the absolute value.
fn has_arcs(basis: &Basis<'_>, rows: &[(i128, bool)]) -> bool {
    let arcs = basis.net().arc_count();
    for place in 0..arcs {
        let k = ArcId::new(place + 1);
        let reduced = basis.reduced(k);
        let eligible = basis.eligible(k);
        if !is_arc(rows, place, reduced, eligible) {
            return false;
        }
        if eligible && basis.violation(k) != reduced.unsigned_abs() {
            return false;
        }
    }
    rows.len() == arcs as usize
}

// The number of the most violated arc, or 0.
fn most_violated(basis: &Basis<'_>) -> u32 {
    let net = basis.net();
    match basis.most_violated(1, net.arc_count() + 1) {
        Some(k) => k.get(),
        None => 0,
    }
}

// A text; the prices of its first basis, the reduced costs of the arcs, with which of them can
// enter, the most violated arc or 0, and whether no artificial arc carries anything.
type Row = (
    &'static [u8],
    &'static [i128],
    &'static [(i128, bool)],
    u32,
    bool,
);

// A chain, of which the arc that has no width isn't eligible; a star that carries nothing; and the
// root alone.
static ROWS: [Row; 3] = [
    (
        CHAIN,
        &[11, 11, -11],
        &[(2, false), (-23, true), (-15, false)],
        2,
        false,
    ),
    (
        b"p min 2 1\na 1 2 0 4 -5\n",
        &[21, 21],
        &[(-5, true)],
        1,
        true,
    ),
    (b"p min 0 0\n", &[], &[], 0, true),
];

// Whether the first basis of a text's net is that of the row.
fn is_first_basis(alloc: Global, row: &Row) -> Result<bool, NoMemory> {
    let (text, prices, arcs, violated, clean) = *row;
    let Some(net) = net_of(alloc, text)? else {
        return Ok(false);
    };
    let basis = Basis::start(alloc, &net)?;
    let is_priced = has_prices(&basis, prices) && has_arcs(&basis, arcs);
    let is_clean = basis.has_no_artificial() == clean;
    Ok(is_priced && is_clean && most_violated(&basis) == violated)
}

#[test]
fn the_first_bases(rt: HostRuntime) -> Result<(), Fail> {
    for row in &ROWS {
        assert!(rt; is_first_basis(rt.alloc(), row)?);
    }
    Ok(())
}

// Whether each arc of a state carries nothing.
fn carries_nothing(state: &State<'_>) -> bool {
    let net = state.net();
    for place in 0..net.arc_count() {
        if state.amount(ArcId::new(place + 1)) != 0 {
            return false;
        }
    }
    true
}

// Pushes a unit along the first arc, where there is room, and says whether there is.
fn is_pushed(state: &mut State<'_>) -> bool
    ensures { state.new.net ≡ state.old.net }
{
    if state.net().arc_count() < 1 {
        return false;
    }
    if state.room(first_arc()) < 1 {
        return false;
    }
    state.push(first_arc(), 1);
    true
}

// The first arc, forward.
fn first_arc() -> Rid
    ensures { result ≡ record { arc = 1; back = false } }
{
    Rid {
        arc: ArcId::new(1),
        back: false,
    }
}

// Whether the first basis writes that no arc carries anything, where the first arc carried
// something.
fn clears_the_flow(alloc: Global, net: &Net) -> Result<bool, NoMemory> {
    let basis = Basis::start(alloc, net)?;
    let mut state = State::zero(alloc, net)?;
    let pushed = is_pushed(&mut state);
    let before = carries_nothing(&state);
    basis.write_flow(&mut state);
    Ok(pushed && !before && carries_nothing(&state))
}

// Whether the first basis writes these prices of the nodes, without that of the root.
fn writes_prices(alloc: Global, net: &Net, want: &[i128]) -> Result<bool, NoMemory> {
    let mut prices = copies(alloc, net.node_count() as usize, 0)?;
    let basis = Basis::start(alloc, net)?;
    basis.write_prices(&mut prices);
    Ok(prices.as_slice() == want)
}

// Whether the first basis of the chain writes its flow and its prices.
fn is_written(alloc: Global) -> Result<bool, NoMemory> {
    let Some(net) = net_of(alloc, CHAIN)? else {
        return Ok(false);
    };
    let clears = clears_the_flow(alloc, &net)?;
    let writes = writes_prices(alloc, &net, &[11, 11, -11])?;
    Ok(clears && writes)
}

#[test]
fn the_flow_and_the_prices_are_written(rt: HostRuntime) -> Result<(), Fail> {
    assert!(rt; is_written(rt.alloc())?);
    Ok(())
}

// Whether the mark at a place is this.
fn is_mark(marks: &[bool], place: u32, mark: bool) -> bool {
    match marks.get(place as usize) {
        Some(wanted) => *wanted == mark,
        None => false,
    }
}

// Whether these are the marks of the nodes.
fn has_marks(net: &Net, set: &NodeSet, marks: &[bool]) -> bool
    requires { length set.now ≡ node_count net.now }
{
    let nodes = net.node_count();
    for place in 0..nodes {
        let mark = set.contains(NodeId::new(place + 1));
        if !is_mark(marks, place, mark) {
            return false;
        }
    }
    marks.len() == nodes as usize
}

// Marks the cut of a basis, where that is a last one and an artificial arc carries something, and
// says whether it does.
fn is_cut(basis: &Basis<'_>, set: &mut NodeSet) -> bool
    requires room { length set.old ≡ node_count basis.now.net }
    requires balanced { supply_total basis.now.net ≡ pos 0 }
    ensures room { length set.new ≡ node_count basis.now.net }
{
    let net = basis.net();
    let None = basis.most_violated(1, net.arc_count() + 1) else {
        return false;
    };
    if basis.has_no_artificial() {
        return false;
    }
    basis.mark_cut(set);
    true
}

// Whether the first basis of a net marks so, where the supplies sum to 0.
fn cuts(alloc: Global, net: &Net, marks: &[bool]) -> Result<bool, NoMemory> {
    let None = unbalanced(alloc, net)? else {
        return Ok(false);
    };
    let mut set = NodeSet::new(alloc, net)?;
    let basis = Basis::start(alloc, net)?;
    let is_marked = is_cut(&basis, &mut set);
    Ok(is_marked && has_marks(net, &set, marks))
}

// Whether the first basis of a text's net does so.
fn cuts_text(alloc: Global, text: &[u8], marks: &[bool]) -> Result<bool, NoMemory> {
    match net_of(alloc, text)? {
        Some(net) => cuts(alloc, &net, marks),
        None => Ok(false),
    }
}

#[test]
fn the_cut_has_the_nodes_of_price_above_0(rt: HostRuntime) -> Result<(), Fail> {
    assert!(rt; cuts_text(rt.alloc(), APART, &[true, true, false])?);
    Ok(())
}
