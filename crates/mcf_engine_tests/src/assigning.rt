//! Searches, least assignments and blocking sets of worked nets, by shortest augmenting paths.
ghost use Rattle.std.specs.Prelude.{◌≡◌};
ghost use Rattle.mcf_flows.specs.Network.{IsNode, node_count};
ghost use Rattle.mcf_assign.specs.Runs.{is_source};

use crate::fixtures::{cost_of, finds_prices};
use mcf_assign::{Extended, Matching, Sap};
use mcf_cancel::{Cancel, Engine, Outcome};
use mcf_instance::{Problem, Side};
use mcf_network::Net;
use mcf_scaling::Scaling;
use mcf_test_nets::{is_set_of, multiples, net_of};
use mcf_text::{NoMemory, NodeId};
use std::alloc::Global;
use std::test::Fail;

// Two rows, the first of which has no arc, and one column.
const IDLE_ROW: &[u8] = b"p asn 3 1\nn 1\nn 2\na 2 3 4\n";

// One row, and two columns to which it may go.
const ONE_ROW: &[u8] = b"p asn 3 2\nn 1\na 1 2 4\na 1 3 1\n";

// Two rows and two columns.
const SQUARE: &[u8] = b"p asn 4 4\nn 1\nn 2\na 1 3 5\na 1 4 1\na 2 3 2\na 2 4 1\n";

// The same, where one pair earns.
const EARNING: &[u8] = b"p asn 4 4\nn 1\nn 2\na 1 3 5\na 1 4 1\na 2 3 2\na 2 4 -9\n";

// Two rows that may go to one of two columns alone.
const NARROW: &[u8] = b"p asn 4 2\nn 1\nn 2\na 1 3 1\na 2 3 1\n";

// Two rows, and one column.
const SHORT: &[u8] = b"p asn 3 2\nn 1\nn 2\na 1 3 4\na 2 3 4\n";

// Two rows, the first of which has no arc, and two columns.
const STUCK: &[u8] = b"p asn 4 2\nn 2\nn 3\na 3 1 0\na 3 4 0\n";

// A text; of the searches from its rows, ascending, up to the first that finds no path, how many
// there are; the nodes that the last of them settles in their order, and those that it reaches
// where it finds no path.
type Searches = (&'static [u8], u32, &'static [u32], Option<&'static [u32]>);

static SEARCHES: [Searches; 8] = [
    (b"p asn 0 0\n", 0, &[], None),
    (SQUARE, 2, &[2, 4, 1, 3], None),
    (EARNING, 2, &[2, 4, 1, 3], None),
    (NARROW, 2, &[2, 3, 1], Some(&[1, 2, 3])),
    (SHORT, 2, &[2, 3, 1], Some(&[1, 2, 3])),
    (STUCK, 1, &[2], Some(&[2])),
    (IDLE_ROW, 1, &[1], Some(&[1])),
    (ONE_ROW, 1, &[1, 3], None),
];

// Whether a node has supply 1.
fn is_row(net: &Net, v: NodeId) -> bool
    requires { IsNode (node_count net.now) v }
    ensures { result ≡ is_source net.now v }
{
    net.supply(v) == 1
}

// Searches from a node, if that is a row that isn't matched.
fn offer(matching: &mut Matching<'_>, net: &Net, v: NodeId) -> Option<Extended>
    requires node { IsNode (node_count net.now) v }
    requires net { matching.old.flow.net ≡ net.now }
    ensures { matching.new.flow.net ≡ net.now }
{
    if !is_row(net, v) {
        return None;
    }
    if matching.matched(v) {
        return None;
    }
    Some(matching.extend(v))
}

// Searches from the rows, ascending, up to the first search that finds no path: how many searches
// there were, and what the last one answered.
fn offer_all(matching: &mut Matching<'_>, net: &Net) -> (u32, Option<Extended>)
    requires { matching.old.flow.net ≡ net.now }
    ensures { matching.new.flow.net ≡ net.now }
{
    let (mut count, mut last) = (0u32, None);
    'nodes: for number in 0..net.node_count() {
        let found = offer(matching, net, NodeId::new(number + 1));
        if found.is_some() {
            count = count.wrapping_add(1);
            last = found;
        }
        if found == Some(Extended::Blocked) {
            break;
        }
    }
    (count, last)
}

// Whether these are the numbers of the nodes.
fn are_nodes(nodes: &[NodeId], numbers: &[u32]) -> bool {
    nodes.len() == numbers.len()
        && nodes
            .iter()
            .zip(numbers)
            .all(|(v, number)| v.get() == *number)
}

// Whether the last search settled these nodes in their order, and found a path or reached these
// nodes alone.
fn has_ended(
    net: &Net,
    matching: &Matching<'_>,
    last: Option<Extended>,
    settled: &[u32],
    reached: Option<&[u32]>,
) -> bool
    requires { matching.now.flow.net ≡ net.now }
{
    let is_settled = are_nodes(matching.settled(), settled);
    let is_blocked = last == Some(Extended::Blocked);
    match reached {
        Some(nodes) => is_settled && is_blocked && is_set_of(net, matching.reached(), nodes),
        None => is_settled && !is_blocked,
    }
}

// Whether the searches of a text are these.
fn is_searched(alloc: Global, row: &Searches) -> Result<bool, NoMemory> {
    let (text, searches, settled, reached) = *row;
    let Some(net) = net_of(alloc, text)? else {
        return Ok(false);
    };
    match net.problem() {
        Problem::Min => return Ok(false),
        Problem::Asn => {}
    }
    let mut matching = Matching::start(alloc, &net)?;
    let is_fresh = matching.settled().is_empty();
    let (count, last) = offer_all(&mut matching, &net);
    let is_last = has_ended(&net, &matching, last, settled, reached);
    let (set, _) = matching.into_reached();
    Ok(is_fresh && is_last && count == searches && is_set_of(&net, &set, reached.unwrap_or(&[])))
}

#[test]
fn searches_from_the_rows(rt: HostRuntime) -> Result<(), Fail> {
    for row in &SEARCHES {
        assert!(rt; is_searched(rt.alloc(), row)?);
    }
    Ok(())
}

// How a text is answered: for what cost and with what prices, or blocked by `send` by which set.
type Row = (&'static [u8], Option<i128>, &'static [i128], &'static [u32]);

static ROWS: [Row; 6] = [
    (b"p asn 0 0\n", Some(0), &[], &[]),
    (SQUARE, Some(3), &[0, 0, -2, -1], &[]),
    (EARNING, Some(-4), &[0, -3, -5, 0], &[]),
    (NARROW, None, &[], &[1, 2, 3]),
    (SHORT, None, &[], &[1, 2, 3]),
    (STUCK, None, &[], &[2]),
];

// Whether an engine takes the net of a row, and answers it so.
fn is_answered<E: Engine>(alloc: Global, engine: &mut E, row: &Row) -> Result<bool, NoMemory> {
    let (text, cost, greatest, nodes) = *row;
    let Some(net) = net_of(alloc, text)? else {
        return Ok(false);
    };
    if !engine.takes(&net) {
        return Ok(false);
    }
    match engine.solve(alloc, &net)? {
        Outcome::Least(state, prices) => {
            Ok(cost == Some(cost_of(&state)) && prices.as_slice() == greatest)
        }
        Outcome::Blocked(set, side) => {
            Ok(cost.is_none() && side == Side::Send && is_set_of(&net, &set, nodes))
        }
    }
}

// Whether one engine, asked for each row in turn, answers it so.
fn answers<E: Engine>(alloc: Global, engine: &mut E) -> Result<bool, NoMemory> {
    for row in &ROWS {
        if !is_answered(alloc, engine, row)? {
            return Ok(false);
        }
    }
    Ok(true)
}

// Whether three engines answer so.
fn each_answers(alloc: Global) -> Result<bool, NoMemory> {
    let augmenting = answers(alloc, &mut Sap::new())?;
    let cancelling = answers(alloc, &mut Cancel::new())?;
    let scaling = answers(alloc, &mut Scaling::new())?;
    Ok(augmenting && cancelling && scaling)
}

// Each of the sets is the only one that blocks by `send`, or all nodes.
#[test]
fn each_engine_answers_so(rt: HostRuntime) -> Result<(), Fail> {
    assert!(rt; each_answers(rt.alloc())?);
    Ok(())
}

// Texts whose supplies don't sum to 0, and the side by which all nodes block.
static UNBALANCED: [(&[u8], Side); 3] = [
    (SHORT, Side::Send),
    (IDLE_ROW, Side::Send),
    (ONE_ROW, Side::Take),
];

// Whether all nodes block the net of a text by this side.
fn is_blocked_by_all(alloc: Global, text: &[u8], side: Side) -> Result<bool, NoMemory> {
    let Some(net) = net_of(alloc, text)? else {
        return Ok(false);
    };
    let mut engine = Sap::new();
    if !engine.takes(&net) {
        return Ok(false);
    }
    match engine.solve(alloc, &net)? {
        Outcome::Least(..) => Ok(false),
        Outcome::Blocked(set, by) => Ok(set.len() == net.node_count() && by == side),
    }
}

// Nothing is searched: the searches from the rows of the second text end with another set, and
// those of the third with none.
#[test]
fn supplies_out_of_balance_are_not_searched(rt: HostRuntime) -> Result<(), Fail> {
    for (text, side) in &UNBALANCED {
        assert!(rt; is_blocked_by_all(rt.alloc(), text, *side)?);
    }
    Ok(())
}

// Whether the net of a text is taken.
fn is_taken(alloc: Global, text: &[u8]) -> Result<Option<bool>, NoMemory> {
    match net_of(alloc, text)? {
        Some(net) => Ok(Some(Sap::new().takes(&net))),
        None => Ok(None),
    }
}

#[test]
fn takes_assignments_alone(rt: HostRuntime) -> Result<(), Fail> {
    assert!(rt; is_taken(rt.alloc(), b"p min 1 0\n")? == Some(false));
    assert!(rt; is_taken(rt.alloc(), b"p asn 0 0\n")? == Some(true));
    Ok(())
}

// Whether shortest augmenting paths and cost scaling answer a net with one cost and the same
// prices.
fn are_alike(alloc: Global, net: &Net, cost: i128) -> Result<bool, NoMemory> {
    let mut engine = Sap::new();
    if !engine.takes(net) {
        return Ok(false);
    }
    match engine.solve(alloc, net)? {
        Outcome::Least(state, prices) => {
            let is_same = finds_prices(alloc, &mut Scaling::new(), net, cost, &prices)?;
            Ok(is_same && cost_of(&state) == cost)
        }
        Outcome::Blocked(..) => Ok(false),
    }
}

// Whether they do so for the net of a text.
fn are_alike_on(alloc: Global, text: &[u8], cost: i128) -> Result<bool, NoMemory> {
    match net_of(alloc, text)? {
        Some(net) => are_alike(alloc, &net, cost),
        None => Ok(false),
    }
}

#[test]
fn agrees_with_cost_scaling(rt: HostRuntime) -> Result<(), Fail> {
    let text = multiples(rt.alloc(), 200)?;
    assert!(rt; are_alike_on(rt.alloc(), &text, 198)?);
    Ok(())
}

// Whether the matching of a net, once its rows have been offered, has this cost and this first
// price.
fn hands_over(alloc: Global, net: &Net, cost: i128, price: i128) -> Result<bool, NoMemory> {
    match net.problem() {
        Problem::Min => return Ok(false),
        Problem::Asn => {}
    }
    let mut matching = Matching::start(alloc, net)?;
    offer_all(&mut matching, net);
    let (state, prices, _) = matching.into_parts();
    Ok(prices.first() == Some(&price) && cost_of(&state) == cost)
}

// Whether that of a text's net does so.
fn hands_over_text(alloc: Global, text: &[u8], cost: i128, price: i128) -> Result<bool, NoMemory> {
    match net_of(alloc, text)? {
        Some(net) => hands_over(alloc, &net, cost, price),
        None => Ok(false),
    }
}

// The second search raises the price of row 1 from 1, which its pair costs, to 2, and that of its
// column from 0 to 1.
#[test]
fn hands_over_its_parts(rt: HostRuntime) -> Result<(), Fail> {
    assert!(rt; hands_over_text(rt.alloc(), SQUARE, 3, 2)?);
    Ok(())
}
