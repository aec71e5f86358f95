//! The search that is judged: nets that it takes, and nets that it leaves to the simplex.

use crate::fixtures::{Costed, SAMPLE, cost_of, finds_all};
use mcf_fast::Fast;
use mcf_fast_scaling::{find_least, is_dense};
use mcf_test_nets::{net_of, put_line};
use mcf_text::NoMemory;
use std::alloc::Global;
use std::test::Fail;

// Texts, and the cost of a least flow: widths of 2^60 in all, of one more, and costs of 10^15.
static ROWS: [Costed; 4] = [
    (SAMPLE, Some(14)),
    (
        b"p min 2 2\nn 1 1000000000000000000\nn 2 -1000000000000000000\na 1 2 0 1000000000000000000 3\na 1 2 0 152921504606846976 2\n",
        Some(2_847_078_495_393_153_024),
    ),
    (
        b"p min 2 2\nn 1 1000000000000000000\nn 2 -1000000000000000000\na 1 2 0 1000000000000000000 3\na 1 2 0 152921504606846977 2\n",
        Some(2_847_078_495_393_153_023),
    ),
    (
        b"p min 3 3\nn 1 2\nn 3 -2\na 1 2 0 2 1000000000000000\na 2 3 0 2 -1000000000000000\na 1 3 0 1 -1\n",
        Some(-1),
    ),
];

// Whether least flows of these costs are found, also where the search is given up at once.
fn either_finds(alloc: Global) -> Result<bool, NoMemory> {
    let searched = finds_all(alloc, &mut Fast::new(), &ROWS)?;
    let given_up = finds_all(alloc, &mut Fast::within(0), &ROWS)?;
    Ok(searched && given_up)
}

#[test]
fn worked_nets_with_and_without_a_search(rt: HostRuntime) -> Result<(), Fail> {
    assert!(rt; either_finds(rt.alloc())?);
    Ok(())
}

// Whether the search finds a least state of a text's net, of this cost, with a price for each node.
fn search_finds(alloc: Global, text: &[u8], cost: i128) -> Result<bool, NoMemory> {
    let Some(net) = net_of(alloc, text)? else {
        return Ok(false);
    };
    match find_least(alloc, &net, 4096)? {
        Some((state, prices)) => {
            Ok(cost_of(&state) == cost && prices.len() == net.node_count() as usize)
        }
        None => Ok(false),
    }
}

#[test]
fn a_search_alone(rt: HostRuntime) -> Result<(), Fail> {
    assert!(rt; search_finds(rt.alloc(), SAMPLE, 14)?);
    Ok(())
}

// Whether a net of two nodes and this many arcs between them is dense.
fn is_dense_with(alloc: Global, arcs: u32) -> Result<bool, NoMemory> {
    let mut text = Vec::new(alloc);
    put_line(&mut text, b"p min", &[2, i128::from(arcs)])?;
    for _ in 0..arcs {
        put_line(&mut text, b"a", &[1, 2, 0, 1, 1])?;
    }
    match net_of(alloc, &text)? {
        Some(net) => Ok(is_dense(&net)),
        None => Ok(false),
    }
}

#[test]
fn dense_nets(rt: HostRuntime) -> Result<(), Fail> {
    assert!(rt; !is_dense_with(rt.alloc(), 128)?);
    assert!(rt; is_dense_with(rt.alloc(), 129)?);
    Ok(())
}
