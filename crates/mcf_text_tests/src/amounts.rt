//! Worked verdicts on flows in arrays.
use crate::arrays::{Numbers, flow_of};
use mcf_checker::check_amounts;
use mcf_instance::Instance;
use mcf_text::NoMemory;
use std::alloc::Global;
use std::test::Fail;

// The four nodes of `checking`, in arrays.
static SUPPLIES: [i64; 4] = [4, 0, 0, -4];

static ARCS: [Numbers; 5] = [
    (1, 2, 0, 4, 2),
    (1, 3, 0, 2, 2),
    (2, 3, 0, 2, 1),
    (2, 4, 0, 3, 3),
    (3, 4, 0, 5, 1),
];

// A cost, a flow and prices, and what is printed of the verdict on them.
type Row<'a> = (i128, &'a [i64], &'a [i64], &'a str);

static ROWS: [Row<'static>; 9] = [
    (14, &[2, 2, 2, 0, 4], &[0, -2, -3, -4], "accepted flow 14"),
    (14, &[2, 2, 2, 0, 4], &[100, 98, 97, 96], "accepted flow 14"),
    (15, &[2, 2, 2, 0, 4], &[0, -2, -3, -4], "rejected cost"),
    (14, &[3, 2, 2, 0, 4], &[0, -2, -3, -4], "rejected node 1"),
    (14, &[5, 2, 2, 0, 4], &[0, -2, -3, -4], "rejected arc 1"),
    (14, &[2, 2, 2, 0, -1], &[0, -2, -3, -4], "rejected arc 5"),
    (14, &[2, 2, 2, 0, 4], &[0, -2, -3, -9], "rejected price 4"),
    (14, &[2, 2, 2, 0, 4], &[0, -2, -3], "rejected node 4"),
    (14, &[2, 2, 2, 0, 4], &[0, -2, -3, -4, 0], "rejected node 5"),
];

// Whether this is printed of the verdict on a flow of an amount for each arc.
fn is_printed(alloc: Global, instance: &Instance, row: &Row<'_>) -> Result<bool, NoMemory> {
    let (cost, flow, prices, want) = *row;
    if flow.len() != instance.arc_count() as usize {
        return Ok(false);
    }
    let verdict = check_amounts(alloc, instance, cost, flow, prices)?;
    let printed = format!(in alloc; "{verdict}")?;
    Ok(printed.as_bytes() == want.as_bytes())
}

#[test]
fn flows_in_arrays_for_the_four_nodes(rt: HostRuntime) -> Result<(), Fail> {
    let Ok(instance) = flow_of(rt.alloc(), &SUPPLIES, &ARCS)? else {
        assert!(rt; false);
        return Ok(());
    };
    for row in &ROWS {
        assert!(rt; is_printed(rt.alloc(), &instance, row)?);
    }
    Ok(())
}
