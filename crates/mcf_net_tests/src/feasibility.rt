//! What small instances are answered with.
ghost use Rattle.std.specs.Prelude.{◌≡◌, length};
ghost use Rattle.mcf_flows.specs.Network.{node_count};

use mcf_feas::{Feas, answers_are_exact, blocked_has_no_state, feasible};
use mcf_instance::{Instance, Side};
use mcf_network::{Net, NodeSet, State, restore, unbalanced};
use mcf_test_nets::{instance_of, is_set_of, net_of};
use mcf_text::{ArcId, NoMemory, NodeId};
use std::alloc::Global;
use std::test::Fail;

// Whether each node sends its supply, by a plain sum over the arcs.
fn meets_supplies(state: &State<'_>) -> bool {
    let net = state.net();
    for v in 0..net.node_count() {
        let node = NodeId::new(v + 1);
        let mut left = net.supply(node);
        for k in 0..net.arc_count() {
            let arc = ArcId::new(k + 1);
            let (src, dst) = net.ends(arc);
            if src == node {
                left = left.wrapping_sub(state.amount(arc));
            }
            if dst == node {
                left = left.wrapping_add(state.amount(arc));
            }
        }
        if left != 0 {
            return false;
        }
    }
    true
}

static BLOCKED: [(&[u8], Side, &[u32]); 7] = [
    (b"p min 1 0\nn 1 -1", Side::Take, &[1]),
    (b"p min 2 1\nn 1 3\nn 2 -3\na 1 2 0 2 1", Side::Send, &[1]),
    (b"p min 2 2\na 1 2 2 5 1\na 2 1 0 1 0", Side::Send, &[2]),
    (
        b"p asn 4 2\nn 1\nn 2\na 1 3 1\na 2 3 1",
        Side::Send,
        &[1, 2, 3],
    ),
    (
        b"p asn 3 2\nn 1\nn 2\na 1 3 4\na 2 3 4",
        Side::Send,
        &[1, 2, 3],
    ),
    (b"p min 2 1\nn 1 2\na 1 2 0 5 1", Side::Send, &[1, 2]),
    (
        b"p min 3 2\nn 2 2\nn 3 -3\na 2 3 0 9 1\na 1 3 0 9 1",
        Side::Take,
        &[1, 2, 3],
    ),
];

static FEASIBLE: [&[u8]; 6] = [
    b"p min 4 5\nn 1 4\nn 4 -4\na 1 2 0 4 2\na 1 3 0 2 2\na 2 3 0 2 1\na 2 4 0 3 3\na 3 4 0 5 1",
    // The path of the second node takes back what that of the first one sent.
    b"p asn 4 3\nn 1\nn 2\na 1 3 1\na 1 4 1\na 2 3 1",
    b"p min 2 2\nn 1 1\nn 2 -1\na 1 2 2 5 1\na 2 1 1 3 1",
    b"p min 1 1\na 1 1 2 5 -3",
    b"p min 3 3\nn 1 1000000000000000\nn 3 -1000000000000000\na 1 2 0 1000000000000000 1\na 2 3 0 999999999999999 1\na 2 3 0 1 1",
    b"p min 0 0",
];

// Whether the net of a text is blocked by a side, by the set of the listed nodes.
fn is_blocked(alloc: Global, text: &[u8], side: Side, nodes: &[u32]) -> Result<bool, NoMemory> {
    let Some(net) = net_of(alloc, text)? else {
        return Ok(false);
    };
    match feasible(alloc, &net)? {
        Feas::Flow(_) => Ok(false),
        Feas::Blocked(set, by) => {
            let is_set = is_set_of(&net, &set, nodes);
            Ok(is_set && by == side)
        }
    }
}

#[test]
fn infeasible_nets_are_blocked(rt: HostRuntime) -> Result<(), Fail> {
    for (text, side, nodes) in BLOCKED.iter() {
        assert!(rt; is_blocked(rt.alloc(), text, *side, nodes)?);
    }
    Ok(())
}

// Whether all nodes of the net of a text block by this side; where no side is given, whether its
// supplies sum to 0.
fn is_out_of_balance(alloc: Global, text: &[u8], side: Option<Side>) -> Result<bool, NoMemory> {
    let Some(net) = net_of(alloc, text)? else {
        return Ok(false);
    };
    match unbalanced(alloc, &net)? {
        Some((set, by)) => Ok(set.len() == net.node_count() && side == Some(by)),
        None => Ok(side.is_none()),
    }
}

// A text, and the side by which all nodes of its net block, if the supplies don't sum to 0.
static BALANCES: [(&[u8], Option<Side>); 4] = [
    (b"p min 2 1\nn 1 2\na 1 2 0 5 1", Some(Side::Send)),
    (b"p min 2 1\nn 2 -2\na 1 2 0 5 1", Some(Side::Take)),
    (b"p min 2 1\nn 1 2\nn 2 -2\na 1 2 0 1 1", None),
    (b"p min 0 0", None),
];

#[test]
fn supplies_out_of_balance_are_told(rt: HostRuntime) -> Result<(), Fail> {
    for (text, side) in &BALANCES {
        assert!(rt; is_out_of_balance(rt.alloc(), text, *side)?);
    }
    Ok(())
}

// Whether the net of a text has a feasible flow, by a plain sum over the arcs.
fn has_flow(alloc: Global, text: &[u8]) -> Result<bool, NoMemory> {
    let Some(net) = net_of(alloc, text)? else {
        return Ok(false);
    };
    match feasible(alloc, &net)? {
        Feas::Flow(state) => Ok(meets_supplies(&state)),
        Feas::Blocked(_, _) => Ok(false),
    }
}

#[test]
fn feasible_nets_have_a_flow(rt: HostRuntime) -> Result<(), Fail> {
    for text in FEASIBLE.iter() {
        assert!(rt; has_flow(rt.alloc(), text)?);
    }
    Ok(())
}

// The flow of an instance for which the state that it is answered with stands.
fn restored_flow(alloc: Global, instance: &Instance) -> Result<Option<Vec<i128>>, NoMemory> {
    let net = Net::of(alloc, instance)?;
    match feasible(alloc, &net)? {
        Feas::Flow(state) => {
            let flow = restore(alloc, instance, &state)?;
            Ok(Some(flow))
        }
        Feas::Blocked(_, _) => Ok(None),
    }
}

// What a flow has on an arc.
fn amount_on(flow: &[i128], place: u32) -> i128 {
    flow.get(place as usize).copied().unwrap_or(0)
}

// What a node sends less what it gets, by a plain sum over the arcs of an instance.
fn sent_by(instance: &Instance, flow: &[i128], node: NodeId) -> i128 {
    let mut sent = 0i128;
    for place in 0..instance.arc_count() {
        let arc = instance.arc(ArcId::new(place + 1));
        if arc.src == node {
            sent = sent.wrapping_add(amount_on(flow, place));
        }
        if arc.dst == node {
            sent = sent.wrapping_sub(amount_on(flow, place));
        }
    }
    sent
}

// Whether each arc of an instance has an amount within its bounds.
fn is_within_bounds(instance: &Instance, flow: &[i128]) -> bool {
    for place in 0..instance.arc_count() {
        let arc = instance.arc(ArcId::new(place + 1));
        let amount = amount_on(flow, place);
        if amount < arc.low || arc.cap < amount {
            return false;
        }
    }
    flow.len() == instance.arc_count() as usize
}

// Whether each node of an instance sends its supply.
fn sends_supplies(instance: &Instance, flow: &[i128]) -> bool {
    for place in 0..instance.node_count() {
        let node = NodeId::new(place + 1);
        if sent_by(instance, flow, node) != instance.supply(node) {
            return false;
        }
    }
    true
}

// Whether the flow for which the state of a text stands is feasible.
fn is_restored_feasible(alloc: Global, text: &[u8]) -> Result<bool, NoMemory> {
    let Some(instance) = instance_of(alloc, text)? else {
        return Ok(false);
    };
    let Some(flow) = restored_flow(alloc, &instance)? else {
        return Ok(false);
    };
    let is_within = is_within_bounds(&instance, &flow);
    Ok(is_within && sends_supplies(&instance, &flow))
}

// Worked instances with a flow.
static WORKED: [&[u8]; 18] = [
    b"p min 4 5\nn 1 4\nn 4 -4\na 1 2 0 4 2\na 1 3 0 2 2\na 2 3 0 2 1\na 2 4 0 3 3\na 3 4 0 5 1",
    b"p min 0 0",
    b"p asn 0 0",
    b"p min 1 1\na 1 1 0 7 -3",
    b"p min 2 2\nn 1 3\nn 2 -3\na 1 2 0 2 1\na 1 2 0 2 5",
    b"p min 2 1\nn 1 4\nn 2 -4\na 1 2 4 4 -2",
    b"p min 2 1\nn 1 -3\nn 2 3\na 1 2 -3 -3 1",
    b"p asn 4 4\nn 1\nn 2\na 1 3 5\na 1 4 1\na 2 3 2\na 2 4 1",
    b"p asn 4 4\nn 1\nn 2\na 1 3 5\na 1 4 1\na 2 3 2\na 2 4 -9",
    b"p min 2 1\nn 1 1000000000000000\nn 2 -1000000000000000\na 1 2 0 1000000000000000 1000000000000",
    b"p min 2 2\na 1 2 0 1000000000000000 -1\na 2 1 0 1000000000000000 0",
    b"p min 3 4\na 1 2 0 5 0\na 2 3 0 5 0\na 3 1 0 5 0\na 1 3 0 5 -1",
    b"p min 3 3\nn 1 5\nn 3 -5\na 1 2 2 10 3\na 2 3 0 10 1\na 1 3 0 10 2",
    b"p min 2 2\nn 1 3\nn 2 -3\na 1 2 0 3 4\na 1 2 0 3 4",
    b"c sample\r\n\r\n\tp min 2 1\r\nn 01 +3\nn 2 -003\na 1 2 0 4 7",
    b"p min 1000 2\nn 1 3\nn 2 -3\na 1 2 0 2 1\na 1 2 0 2 5",
    b"p min 2 1\na 1 2 -1 5 1",
    b"p min 2 1\nn 1 -1000000000000000000\nn 2 1000000000000000000\na 1 2 -1000000000000000000 -1000000000000000000 -1000000000000000",
];

#[test]
fn restored_flows_are_feasible(rt: HostRuntime) -> Result<(), Fail> {
    for text in &WORKED {
        assert!(rt; is_restored_feasible(rt.alloc(), text)?);
    }
    Ok(())
}

// Whether this is the flow for which the state of a text stands.
fn is_restored(alloc: Global, text: &[u8], want: &[i128]) -> Result<bool, NoMemory> {
    let Some(instance) = instance_of(alloc, text)? else {
        return Ok(false);
    };
    match restored_flow(alloc, &instance)? {
        Some(flow) => Ok(flow.as_slice() == want),
        None => Ok(false),
    }
}

static RESTORED: [(&[u8], &[i128]); 5] = [
    (b"p min 1 1\na 1 1 0 7 -3", &[7]),
    (b"p min 1 1\na 1 1 2 7 3", &[2]),
    (b"p min 2 1\nn 1 4\nn 2 -4\na 1 2 4 4 -2", &[4]),
    (b"p min 2 1\nn 1 -3\nn 2 3\na 1 2 -3 -3 1", &[-3]),
    (
        b"p min 2 2\nn 1 3\nn 2 -3\na 1 2 0 2 1\na 1 2 1 1 5",
        &[2, 1],
    ),
];

#[test]
fn states_are_restored(rt: HostRuntime) -> Result<(), Fail> {
    for (text, flow) in RESTORED.iter() {
        assert!(rt; is_restored(rt.alloc(), text, flow)?);
    }
    Ok(())
}

#[test]
fn laws_do_nothing(_rt: HostRuntime) -> Result<(), Fail> {
    answers_are_exact();
    blocked_has_no_state();
    Ok(())
}
