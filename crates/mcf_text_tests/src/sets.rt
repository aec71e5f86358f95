//! Node sets of two small instances.
use crate::instances::instance_of;
use mcf_instance::{Side, blocks, table_of};
use mcf_text::{NoMemory, NodeId};
use std::alloc::Global;
use std::test::Fail;

// A node, a side, and whether the set of the node alone blocks by the side.
type Row = (u32, Side, bool);

// Whether a row is right of the instance of a text.
fn is_right(alloc: Global, text: &[u8], row: Row) -> Result<bool, NoMemory> {
    let (v, side, want) = row;
    let Some(instance) = instance_of(alloc, text)? else {
        return Ok(false);
    };
    if v < 1 || instance.node_count() < v {
        return Ok(false);
    }
    let table = table_of(alloc, instance.node_count(), &[NodeId::new(v)])?;
    Ok(blocks(&instance, &table, side) == want)
}

static AT_A_NARROW_ARC: [Row; 4] = [
    (1, Side::Send, true),
    (2, Side::Take, true),
    (2, Side::Send, false),
    (1, Side::Take, false),
];

/// Three units are to go over an arc that carries two.
#[test]
fn sets_at_a_narrow_arc(rt: HostRuntime) -> Result<(), Fail> {
    for row in &AT_A_NARROW_ARC {
        let text = b"p min 2 1\nn 1 3\nn 2 -3\na 1 2 0 2 0\n";
        assert!(rt; is_right(rt.alloc(), text, *row)?);
    }
    Ok(())
}

static AT_A_LOWER_BOUND: [Row; 4] = [
    (2, Side::Send, true),
    (1, Side::Take, true),
    (1, Side::Send, false),
    (2, Side::Take, false),
];

/// Two units must go one way, and one at most comes back.
#[test]
fn sets_at_a_lower_bound(rt: HostRuntime) -> Result<(), Fail> {
    for row in &AT_A_LOWER_BOUND {
        let text = b"p min 2 2\na 1 2 2 5 0\na 2 1 0 1 0\n";
        assert!(rt; is_right(rt.alloc(), text, *row)?);
    }
    Ok(())
}
