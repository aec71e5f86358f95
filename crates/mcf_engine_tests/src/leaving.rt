//! A long chain whose arcs stand from its end to its beginning: the simplex looks at all of them
//! for each pivot, so that its run is left.

use crate::fixtures::finds;
use mcf_fast::Fast;
use mcf_test_nets::put_line;
use mcf_text::NoMemory;
use std::alloc::Global;
use std::test::Fail;

// How many nodes it has.
const NODES: u32 = 8_200;

// A unit goes from the first node to the last, at a cost of one for each arc.
fn chain(alloc: Global) -> Result<Vec<u8>, NoMemory> {
    let mut out = Vec::new(alloc);
    let last = i128::from(NODES);
    put_line(&mut out, b"p min", &[last, last - 1])?;
    put_line(&mut out, b"n", &[1, 1])?;
    put_line(&mut out, b"n", &[last, -1])?;
    for place in 1..NODES {
        let from = i128::from(NODES - place);
        put_line(&mut out, b"a", &[from, from + 1, 0, 1, 1])?;
    }
    Ok(out)
}

// Whether a least flow is found where the search answers, and where it gives up at once.
fn either_finds(alloc: Global) -> Result<bool, NoMemory> {
    let text = chain(alloc)?;
    let cost = Some(i128::from(NODES) - 1);
    let searched = finds(alloc, &mut Fast::new(), &text, cost)?;
    let given_up = finds(alloc, &mut Fast::within(0), &text, cost)?;
    Ok(searched && given_up)
}

#[test]
fn a_run_that_is_left(rt: HostRuntime) -> Result<(), Fail> {
    assert!(rt; either_finds(rt.alloc())?);
    Ok(())
}
