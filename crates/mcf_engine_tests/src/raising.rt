//! Greatest prices from known ones, and the heap by which they are found.
ghost use Rattle.std.specs.Prelude.{◌≡◌, length};
ghost use Rattle.mcf_flows.specs.Flow.{AreGreatestPrices};
ghost use Rattle.mcf_flows.specs.Network.{node_count};

use mcf_cancel::{
    Heap, Pricer, Recovered, greatest_prices_are_small, recover, shown_prices_are_near,
};
use mcf_network::State;
use mcf_test_nets::net_of;
use mcf_text::{NoMemory, NodeId};
use std::alloc::Global;
use std::test::Fail;

// Raises prices that show a state, which are its greatest already.
fn raise_shown(pricer: &mut Pricer, state: &State<'_>, prices: &mut [i128])
    requires room { pricer.old ≡ node_count state.now.net }
    requires greatest { AreGreatestPrices state.now.net prices.old state.now.amounts }
{
    let _net = state.net();
    greatest_prices_are_small();
    shown_prices_are_near();
    pricer.raise(state, 1, 0, prices);
}

const CHAIN: &[u8] = b"p min 3 3\na 1 2 0 5 -2\na 2 3 0 5 -3\na 1 3 0 5 4\n";

// Whether the greatest prices of the state without flow of a text's net are these, and are left as
// they are.
fn is_raised(alloc: Global, text: &[u8], want: &[i128]) -> Result<bool, NoMemory> {
    let Some(net) = net_of(alloc, text)? else {
        return Ok(false);
    };
    let state = State::zero(alloc, &net)?;
    let mut pricer = Pricer::start(alloc, &net)?;
    match recover(alloc, &state)? {
        Recovered::Prices(mut prices) => {
            raise_shown(&mut pricer, &state, &mut prices);
            Ok(prices.as_slice() == want)
        }
        Recovered::Cycle(_) => Ok(false),
    }
}

#[test]
fn raises_to_the_greatest_prices(rt: HostRuntime) -> Result<(), Fail> {
    assert!(rt; is_raised(rt.alloc(), CHAIN, &[-5, -3, 0])?);
    Ok(())
}

// A node that is offered to a heap with a key, whether that is taken, and the key that the node
// waits with then.
type NodeOffer = (u32, i128, bool, i128);

// Whether an offer to a heap of three nodes is taken or not, and leaves a node that waits with a
// key, as the row has it.
fn is_offered(heap: &mut Heap, offer: &NodeOffer) -> bool
    requires keys { length heap.old.keys ≡ 3 }
    requires waiting { length heap.old.waiting ≡ 3 }
    ensures keys { length heap.new.keys ≡ 3 }
    ensures waiting { length heap.new.waiting ≡ 3 }
{
    let (number, key, taken, kept) = *offer;
    if number < 1 || 3 < number {
        return false;
    }
    let v = NodeId::new(number);
    let is_taken = heap.offer(v, key);
    let has = heap.key(v);
    let waits = heap.waits(v);
    is_taken == taken && has == kept && waits
}

// Whether each of the offers goes so.
fn are_offered(heap: &mut Heap, offers: &[NodeOffer]) -> bool
    requires keys { length heap.old.keys ≡ 3 }
    requires waiting { length heap.old.waiting ≡ 3 }
{
    'offers: for offer in offers {
        if !is_offered(heap, offer) {
            return false;
        }
    }
    true
}

// Whether nodes of these numbers come out of a heap, one after another; number 0 says that none
// waits.
fn come_out(heap: &mut Heap, order: &[u32]) -> bool {
    for number in order {
        let found = match heap.pop() {
            Some(v) => v.get(),
            None => 0,
        };
        if found != *number {
            return false;
        }
    }
    true
}

// Whether a heap of three nodes takes these offers, and then gives the nodes out in this order.
fn is_ordered(alloc: Global, offers: &[NodeOffer], order: &[u32]) -> Result<bool, NoMemory> {
    let Some(net) = net_of(alloc, CHAIN)? else {
        return Ok(false);
    };
    if net.node_count() != 3 {
        return Ok(false);
    }
    let mut heap = Heap::new(alloc, &net)?;
    Ok(are_offered(&mut heap, offers) && come_out(&mut heap, order))
}

const FAR: i128 = 1_000_000_000_000_000_000_000_000_000_000;

static ORDERS: [(&[NodeOffer], &[u32]); 5] = [
    // By key and then by number.
    (
        &[
            (2, 5, true, 5),
            (1, 5, true, 5),
            (3, 9, true, 9),
            (3, 4, true, 4),
        ],
        &[3, 1, 2, 0],
    ),
    // By keys above those of 64 bits.
    (
        &[
            (1, FAR + 1, true, FAR + 1),
            (2, FAR, true, FAR),
            (3, FAR, true, FAR),
        ],
        &[2, 3, 1],
    ),
    // By keys below those of 64 bits.
    (
        &[
            (1, 0, true, 0),
            (2, -FAR, true, -FAR),
            (3, -FAR - 1, true, -FAR - 1),
        ],
        &[3, 2, 1],
    ),
    // An offer that is less is taken.
    (
        &[
            (2, 5, true, 5),
            (2, 6, false, 5),
            (2, 5, false, 5),
            (2, 4, true, 4),
        ],
        &[2],
    ),
    // One above those of 64 bits too.
    (
        &[
            (2, FAR, true, FAR),
            (2, FAR + 1, false, FAR),
            (2, FAR, false, FAR),
            (2, FAR - 1, true, FAR - 1),
            (2, 4, true, 4),
        ],
        &[],
    ),
];

#[test]
fn takes_nodes_in_and_out_by_key_and_number(rt: HostRuntime) -> Result<(), Fail> {
    for (offers, order) in &ORDERS {
        assert!(rt; is_ordered(rt.alloc(), offers, order)?);
    }
    Ok(())
}

// Whether a node that doesn't come first waits no more once it is settled, has the key that it is
// settled with, and leaves the others in their order.
fn is_settled(alloc: Global) -> Result<bool, NoMemory> {
    let Some(net) = net_of(alloc, CHAIN)? else {
        return Ok(false);
    };
    if net.node_count() != 3 {
        return Ok(false);
    }
    let mut heap = Heap::new(alloc, &net)?;
    heap.offer(NodeId::new(1), 9);
    heap.offer(NodeId::new(2), 5);
    heap.offer(NodeId::new(3), 7);
    heap.settle(NodeId::new(1), 5);
    let waits = heap.waits(NodeId::new(1));
    let key = heap.key(NodeId::new(1));
    Ok(!waits && key == 5 && come_out(&mut heap, &[2, 3, 0]))
}

#[test]
fn settles_a_node_that_does_not_come_first(rt: HostRuntime) -> Result<(), Fail> {
    assert!(rt; is_settled(rt.alloc())?);
    Ok(())
}

// Two nodes with 400 arcs from the first to the second: one costs -9, and the others are this line.
fn dense_text(alloc: Global, line: &[u8]) -> Result<Vec<u8>, NoMemory> {
    let mut text = b"p min 2 400\na 1 2 0 5 -9\n".to_vec(alloc)?;
    for _ in 0..399 {
        text.extend_from_slice(line)?;
    }
    Ok(text)
}

// In a net of this many arcs a node those that may lower a price are listed, if they are few: here
// one of all, and all.
#[test]
fn raises_in_a_dense_net(rt: HostRuntime) -> Result<(), Fail> {
    for line in [b"a 1 2 0 5 7\n".as_slice(), b"a 1 2 0 5 -7\n".as_slice()] {
        let text = dense_text(rt.alloc(), line)?;
        assert!(rt; is_raised(rt.alloc(), &text, &[-9, 0])?);
    }
    Ok(())
}
