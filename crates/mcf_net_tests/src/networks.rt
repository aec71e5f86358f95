//! Nets of worked instances, and their states and node sets.
ghost use Rattle.std.specs.Prelude.{◌≡◌, ◌∷◌, [], IsTrue, false};
ghost use Rattle.mcf_network.specs.States.{HasNoSurplus};

use mcf_network::{
    Net, NodeSet, Rid, State, feasible_flows_are_states, greatest_prices_carry_over,
    net_flows_cost_no_more, nets_block_alike, push_along, restore, restored_least_flows_are_least,
    restored_tree_solutions_are_tree_solutions, room_along, stuck_sets_block,
};
use mcf_test_nets::{instance_of, net_of};
use mcf_text::{ArcId, NoMemory, NodeId};
use std::alloc::Global;
use std::test::Fail;

// Whether these are the widths of the arcs.
fn has_widths(net: &Net, widths: &[i128]) -> bool {
    if widths.len() != net.arc_count() as usize {
        return false;
    }
    for place in 0..net.arc_count() {
        let Some(width) = widths.get(place as usize) else {
            return false;
        };
        if net.width(ArcId::new(place + 1)) != *width {
            return false;
        }
    }
    true
}

// Whether these are the supplies of the nodes.
fn has_supplies(net: &Net, supplies: &[i128]) -> bool {
    if supplies.len() != net.node_count() as usize {
        return false;
    }
    for place in 0..net.node_count() {
        let Some(supply) = supplies.get(place as usize) else {
            return false;
        };
        if net.supply(NodeId::new(place + 1)) != *supply {
            return false;
        }
    }
    true
}

// How many residual arcs leave the first node, or 0 if there is none.
fn leaving_first(net: &Net) -> usize {
    if net.node_count() < 1 {
        return 0;
    }
    net.leaving(NodeId::new(1)).count()
}

// The first residual arc that leaves the last node, if the net of a text has a node and there is
// one.
fn first_leaving(alloc: Global, text: &[u8]) -> Result<Option<Rid>, NoMemory> {
    let Some(net) = net_of(alloc, text)? else {
        return Ok(None);
    };
    if net.node_count() < 1 {
        return Ok(None);
    }
    Ok(net.leaving(NodeId::new(net.node_count())).first())
}

#[test]
fn the_first_of_the_arcs_that_leave(rt: HostRuntime) -> Result<(), Fail> {
    let first = first_leaving(rt.alloc(), WIDE_ARC)?.ok_or("none")?;
    assert!(rt; first.arc.get() == 1 && first.back);
    assert!(rt; first_leaving(rt.alloc(), b"p min 1 0\n")?.is_none());
    Ok(())
}

// Whether so many of the residual arcs that leave the first node are still to come, once so many
// are passed over.
fn are_left(net: &Net, passed: usize, left: usize) -> bool {
    if net.node_count() < 1 {
        return false;
    }
    let mut rest = net.leaving(NodeId::new(1));
    rest.pass(passed);
    rest.count() == left
}

#[test]
fn arcs_that_leave_are_passed_over(rt: HostRuntime) -> Result<(), Fail> {
    let text = b"p min 2 3\na 1 2 0 1 5\na 1 2 0 1 5\na 1 2 0 1 5\n";
    let net = net_of(rt.alloc(), text)?.ok_or("refused")?;
    assert!(rt; are_left(&net, 0, 3) && are_left(&net, 2, 1));
    assert!(rt; are_left(&net, 3, 0) && are_left(&net, 9, 0));
    Ok(())
}

// Whether the net of a text has arcs of these widths and nodes of these supplies, and this many
// residual arcs leave the first node.
fn is_net(
    alloc: Global,
    text: &[u8],
    widths: &[i128],
    supplies: &[i128],
    leaving: usize,
) -> Result<bool, NoMemory> {
    let Some(net) = net_of(alloc, text)? else {
        return Ok(false);
    };
    let are_widths = has_widths(&net, widths);
    let are_supplies = has_supplies(&net, supplies);
    let count = leaving_first(&net);
    Ok(are_widths && are_supplies && count == leaving)
}

#[test]
fn a_lower_bound_moves_supplies(rt: HostRuntime) -> Result<(), Fail> {
    let text = b"p min 2 2\na 1 2 2 5 1\na 2 1 0 1 0\n";
    assert!(rt; is_net(rt.alloc(), text, &[3, 1], &[-2, 2], 2)?);
    Ok(())
}

#[test]
fn supplies_are_those_left(rt: HostRuntime) -> Result<(), Fail> {
    let text = b"p min 3 3\nn 1 5\nn 3 -5\na 1 2 2 10 3\na 2 3 0 10 1\na 1 3 0 10 2\n";
    assert!(rt; is_net(rt.alloc(), text, &[8, 10, 10], &[3, 2, -5], 2)?);
    Ok(())
}

#[test]
fn a_loop_has_no_width(rt: HostRuntime) -> Result<(), Fail> {
    let text = b"p min 1 1\na 1 1 0 7 -3\n";
    assert!(rt; is_net(rt.alloc(), text, &[0], &[0], 2)?);
    Ok(())
}

#[test]
fn widths_of_one_are_told_among_others(rt: HostRuntime) -> Result<(), Fail> {
    let ones = b"p min 2 2\na 1 2 0 1 5\na 2 1 2 3 0\n";
    assert!(rt; is_net(rt.alloc(), ones, &[1, 1], &[2, -2], 2)?);
    let mixed =
        b"p min 2 6\na 1 2 0 1 0\na 2 1 0 1 0\na 1 1 0 1 0\na 1 2 0 1 0\na 1 2 0 2 0\na 2 1 0 1 0\n";
    assert!(rt; is_net(rt.alloc(), mixed, &[1, 1, 0, 1, 2, 1], &[0, 0], 7)?);
    Ok(())
}

// Three units are to go over an arc that carries four.
const WIDE_ARC: &[u8] = b"p min 2 1\nn 1 3\nn 2 -3\na 1 2 0 4 7\n";

// Pushes two units along the first arc, if it has room for them, and gives the surplus of the first
// node.
fn surplus_after_push(alloc: Global, net: &Net) -> Result<Option<i128>, NoMemory> {
    if net.node_count() < 2 || net.arc_count() < 1 {
        return Ok(None);
    }
    let mut state = State::zero(alloc, net)?;
    let first = ArcId::new(1);
    let room = state.room(Rid {
        arc: first,
        back: false,
    });
    if room < 2 {
        return Ok(None);
    }
    state.push(
        Rid {
            arc: first,
            back: false,
        },
        2,
    );
    Ok(Some(state.surplus(NodeId::new(1))))
}

#[test]
fn a_push_moves_surplus(rt: HostRuntime) -> Result<(), Fail> {
    let net = net_of(rt.alloc(), WIDE_ARC)?.ok_or("refused")?;
    let surplus = surplus_after_push(rt.alloc(), &net)?;
    assert!(rt; matches!(surplus, Some(1)));
    Ok(())
}

// How many nodes a set has before a node is put in, then, and after it is emptied.
fn sizes_of_set(alloc: Global, net: &Net) -> Result<Option<(u32, u32, u32)>, NoMemory> {
    if net.node_count() < 2 {
        return Ok(None);
    }
    let mut set = NodeSet::new(alloc, net)?;
    let before = set.len();
    set.insert(NodeId::new(2));
    let then = set.len();
    set.clear();
    Ok(Some((before, then, set.len())))
}

#[test]
fn a_set_takes_nodes_and_is_emptied(rt: HostRuntime) -> Result<(), Fail> {
    let net = net_of(rt.alloc(), WIDE_ARC)?.ok_or("refused")?;
    let sizes = sizes_of_set(rt.alloc(), &net)?;
    assert!(rt; matches!(sizes, Some((0, 1, 0))));
    Ok(())
}

// What there is room for along the first arc and then the second, and, once that is pushed, what is
// left to send at the beginning and at the end of the walk.
fn pushed_along_both(alloc: Global, net: &Net) -> Result<Option<(i128, i128, i128)>, Fail> {
    if net.arc_count() < 2 || net.node_count() < 3 {
        return Ok(None);
    }
    let mut state = State::zero(alloc, net).map_err(|_| "no memory")?;
    let walk = both_arcs();
    let amount = room_along(&state, &walk);
    if amount < 0 {
        return Ok(None);
    }
    push_along(&mut state, &walk, amount);
    Ok(Some((
        amount,
        state.surplus(NodeId::new(1)),
        state.surplus(NodeId::new(3)),
    )))
}

// The first two arcs, forward.
fn both_arcs() -> [Rid; 2]
    ensures { result ≡ record { arc = 1; back = false } ∷ record { arc = 2; back = false } ∷ [] }
{
    let first = Rid {
        arc: ArcId::new(1),
        back: false,
    };
    let second = Rid {
        arc: ArcId::new(2),
        back: false,
    };
    [first, second]
}

#[test]
fn the_least_room_goes_along_a_walk(rt: HostRuntime) -> Result<(), Fail> {
    let text = b"p min 3 2\nn 1 5\nn 3 -5\na 1 2 0 4 1\na 2 3 0 3 1\n";
    let net = net_of(rt.alloc(), text)?.ok_or("refused")?;
    let pushed = pushed_along_both(rt.alloc(), &net)?;
    assert!(rt; matches!(pushed, Some((3, 2, -2))));
    Ok(())
}

// Whether no node has anything left to send or to take.
fn is_balanced(state: &State<'_>) -> bool
    ensures { IsTrue result → HasNoSurplus state.now }
{
    for v in 0..state.net().node_count() {
        if state.surplus(NodeId::new(v + 1)) != 0 {
            return false;
        }
    }
    true
}

// The flow for which the state without flow stands, if the text is an instance and no node has a
// surplus.
fn restored_at_rest(alloc: Global, text: &[u8]) -> Result<Option<Vec<i128>>, NoMemory> {
    let Some(instance) = instance_of(alloc, text)? else {
        return Ok(None);
    };
    let net = Net::of(alloc, &instance)?;
    let state = State::zero(alloc, &net)?;
    if !is_balanced(&state) {
        return Ok(None);
    }
    let flow = restore(alloc, &instance, &state)?;
    Ok(Some(flow))
}

#[test]
fn a_state_without_flow_is_restored(rt: HostRuntime) -> Result<(), Fail> {
    let text = b"p min 1 1\na 1 1 0 7 -3\n";
    let flow = restored_at_rest(rt.alloc(), text)?.ok_or("refused, or a surplus")?;
    assert!(rt; flow.as_slice() == [7].as_slice());
    Ok(())
}

// Whether a text has a net of this many nodes, with a state and an empty set of them.
fn has_net(alloc: Global, text: &[u8], nodes: u32) -> Result<bool, NoMemory> {
    match net_of(alloc, text)? {
        Some(net) => has_nodes(alloc, &net, nodes),
        None => Ok(false),
    }
}

// Whether a net has this many nodes, with a state and an empty set of them.
fn has_nodes(alloc: Global, net: &Net, nodes: u32) -> Result<bool, NoMemory> {
    let state = State::zero(alloc, net)?;
    let set = NodeSet::new(alloc, net)?;
    let count = state.net().node_count();
    let size = set.len();
    Ok(count == nodes && size == 0)
}

#[test]
fn nothing_has_a_net(rt: HostRuntime) -> Result<(), Fail> {
    assert!(rt; has_net(rt.alloc(), b"p min 0 0\n", 0)?);
    Ok(())
}

// No clause says that memory is there, so a bound on the nodes that answers `NoMemory` meets every
// contract.
#[test]
fn a_million_nodes_have_a_net(rt: HostRuntime) -> Result<(), Fail> {
    assert!(rt; has_net(rt.alloc(), b"p min 1000000 0\n", 1_000_000)?);
    Ok(())
}

#[test]
fn laws_do_nothing(_rt: HostRuntime) -> Result<(), Fail> {
    feasible_flows_are_states();
    greatest_prices_carry_over();
    net_flows_cost_no_more();
    nets_block_alike();
    restored_least_flows_are_least();
    restored_tree_solutions_are_tree_solutions();
    stuck_sets_block();
    Ok(())
}
