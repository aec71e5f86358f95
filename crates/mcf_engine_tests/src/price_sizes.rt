//! Prices in 64 bits and in 128: nets whose prices fit 64 bits, fit them with a gap, or don't fit.

use crate::fixtures::{Costed, finds_all};
use crate::simplex::{finds_by_each, step};
use mcf_basis::Basis;
use mcf_cancel::Cancel;
use mcf_network::Net;
use mcf_scaling::Scaling;
use mcf_simplex::{Best, Block, First, Pricing};
use mcf_test_nets::net_of;
use mcf_text::{NoMemory, NodeId};
use std::alloc::Global;
use std::test::Fail;

// Four units go from node 1 to node 4 for 14. Beside the arcs for it there is one that costs 10^12
// and one back that costs 1: with all that the arcs can cost, and four times the greatest cost, a
// price lies at most 3 * 10^18 from 0.
const WITHIN: &[u8] =
    b"p min 4 7\nn 1 4\nn 4 -4\na 1 2 0 4 2\na 1 3 0 2 2\na 2 3 0 2 1\na 2 4 0 3 3\na 3 4 0 5 1\na 1 4 0 2999995 1000000000000\na 4 1 0 999999999971 1\n";

// The arc back is wider by 1, and prices reach as much further: a basis keeps them in 64 bits with
// a gap.
const BEYOND: &[u8] =
    b"p min 4 7\nn 1 4\nn 4 -4\na 1 2 0 4 2\na 1 3 0 2 2\na 2 3 0 2 1\na 2 4 0 3 3\na 3 4 0 5 1\na 1 4 0 2999995 1000000000000\na 4 1 0 999999999972 1\n";

// The gap is greater than 64 bits.
const FAR_BEYOND: &[u8] =
    b"p min 4 7\nn 1 4\nn 4 -4\na 1 2 0 4 2\na 1 3 0 2 2\na 2 3 0 2 1\na 2 4 0 3 3\na 3 4 0 5 1\na 1 4 0 1000000000000000 1000000000000\na 4 1 0 999999999972 1\n";

// The number of nodes times the greatest cost is beyond 2 * 10^17: a basis keeps prices in 128
// bits.
const WIDE: &[u8] =
    b"p min 201 7\nn 1 4\nn 4 -4\na 1 2 0 4 2\na 1 3 0 2 2\na 2 3 0 2 1\na 2 4 0 3 3\na 3 4 0 5 1\na 1 4 0 1000000000000000 1000000000000000\na 4 1 0 999999999972 1\n";

static ROWS: [Costed; 4] = [
    (WITHIN, Some(14)),
    (BEYOND, Some(14)),
    (FAR_BEYOND, Some(14)),
    (WIDE, Some(14)),
];

// Whether the nets are answered with the same cost by the simplex, by cost scaling and by
// cancelling cycles.
fn each_finds(alloc: Global) -> Result<bool, NoMemory> {
    let cancelled = finds_all(alloc, &mut Cancel::new(), &ROWS)?;
    let scaled = finds_all(alloc, &mut Scaling::new(), &ROWS)?;
    let each = finds_by_each(alloc, &ROWS)?;
    Ok(cancelled && scaled && each)
}

#[test]
fn either_size_of_prices_solves_the_net(rt: HostRuntime) -> Result<(), Fail> {
    assert!(rt; each_finds(rt.alloc())?);
    Ok(())
}

// Whether the first node has this price.
fn is_first_price(basis: &Basis<'_>, price: i128) -> bool {
    0 < basis.net().node_count() && basis.price(NodeId::new(1)) == price
}

// Whether the first node has this price at the start basis: what an artificial arc costs.
fn starts_at(alloc: Global, text: &[u8], price: i128) -> Result<bool, NoMemory> {
    let Some(net) = net_of(alloc, text)? else {
        return Ok(false);
    };
    let basis = Basis::start(alloc, &net)?;
    Ok(is_first_price(&basis, price))
}

static FIRST_PRICES: [(&[u8], i128); 4] = [
    (WITHIN, 2_999_996_000_000_000_000),
    (BEYOND, 2_999_996_000_000_000_001),
    (FAR_BEYOND, 1_000_000_000_000_001_000_000_000_001),
    (WIDE, 1_000_000_000_000_000_001_000_000_000_001),
];

#[test]
fn the_first_prices_are_exact(rt: HostRuntime) -> Result<(), Fail> {
    for (text, price) in &FIRST_PRICES {
        assert!(rt; starts_at(rt.alloc(), text, *price)?);
    }
    Ok(())
}

// Whether two steps are the same.
fn are_same(one: Option<(u32, Option<i128>)>, other: Option<(u32, Option<i128>)>) -> bool {
    match (one, other) {
        (Some(a), Some(b)) => a.0 == b.0 && a.1 == b.1,
        (None, None) => true,
        _ => false,
    }
}

// Whether a rule takes the same pivots on two bases. It is asked at most 100 times.
fn are_driven_alike<P: Pricing>(
    rule: &mut P,
    same: &mut P,
    narrow: &mut Basis<'_>,
    wide: &mut Basis<'_>,
) -> bool {
    for _ in 0..100u32 {
        let pivot = step(rule, narrow);
        if !are_same(pivot, step(same, wide)) {
            return false;
        }
        if pivot.is_none() {
            return true;
        }
    }
    false
}

// Whether it does so on two nets.
fn are_alike<P: Pricing>(
    alloc: Global,
    rule: &mut P,
    same: &mut P,
    one: &Net,
    other: &Net,
) -> Result<bool, NoMemory> {
    let mut narrow = Basis::start(alloc, one)?;
    let mut wide = Basis::start(alloc, other)?;
    Ok(are_driven_alike(rule, same, &mut narrow, &mut wide))
}

// Whether three rules take the same pivots on two nets.
fn each_is_alike(alloc: Global, one: &Net, other: &Net) -> Result<bool, NoMemory> {
    let first = are_alike(alloc, &mut First, &mut First, one, other)?;
    let best = are_alike(alloc, &mut Best, &mut Best, one, other)?;
    let block = are_alike(alloc, &mut Block::new(2), &mut Block::new(2), one, other)?;
    Ok(first && best && block)
}

// Whether they take the same pivots on the net of a text as on that within reach.
fn picks_as_within(alloc: Global, text: &[u8]) -> Result<bool, NoMemory> {
    let Some(one) = net_of(alloc, WITHIN)? else {
        return Ok(false);
    };
    match net_of(alloc, text)? {
        Some(other) => each_is_alike(alloc, &one, &other),
        None => Ok(false),
    }
}

#[test]
fn either_size_of_prices_picks_the_same_arcs(rt: HostRuntime) -> Result<(), Fail> {
    for text in [BEYOND, FAR_BEYOND, WIDE] {
        assert!(rt; picks_as_within(rt.alloc(), text)?);
    }
    Ok(())
}
