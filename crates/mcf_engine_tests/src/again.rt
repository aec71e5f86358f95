//! Answers that are mended: those to a net are hints for similar ones.

use crate::fixtures::{COSTED, SAMPLE, finds, finds_all};
use mcf_again::{Again, Hint};
use mcf_engine::{Engine, Outcome};
use mcf_fast::Fast;
use mcf_network::{Net, State};
use mcf_test_nets::net_of;
use mcf_text::{ArcId, NoMemory};
use std::alloc::Global;
use std::test::Fail;

// The sample as it is, with another cost, capacity or supply, with more supply than can leave its
// node, and with one more arc; what a least flow costs, and whether the answer to the sample is
// mended.
static CHANGED: [(&[u8], Option<i128>, bool); 6] = [
    (SAMPLE, Some(14), true),
    (
        b"p min 4 5\nn 1 4\nn 4 -4\na 1 2 0 4 2\na 1 3 0 2 2\na 2 3 0 2 5\na 2 4 0 3 3\na 3 4 0 5 1\n",
        Some(16),
        true,
    ),
    (
        b"p min 4 5\nn 1 4\nn 4 -4\na 1 2 0 4 2\na 1 3 0 0 2\na 2 3 0 2 1\na 2 4 0 3 3\na 3 4 0 5 1\n",
        Some(18),
        true,
    ),
    (
        b"p min 4 5\nn 1 5\nn 4 -5\na 1 2 0 4 2\na 1 3 0 2 2\na 2 3 0 2 1\na 2 4 0 3 3\na 3 4 0 5 1\n",
        Some(19),
        true,
    ),
    (
        b"p min 4 5\nn 1 7\nn 4 -7\na 1 2 0 4 2\na 1 3 0 2 2\na 2 3 0 2 1\na 2 4 0 3 3\na 3 4 0 5 1\n",
        None,
        false,
    ),
    (
        b"p min 4 6\nn 1 4\nn 4 -4\na 1 2 0 4 2\na 1 3 0 2 2\na 2 3 0 2 1\na 2 4 0 3 3\na 3 4 0 5 1\na 1 4 0 9 1\n",
        Some(4),
        false,
    ),
];

// A number in 64 bits.
fn narrow(number: i128) -> i64 {
    number.max(-1_000_000_000).min(1_000_000_000) as i64
}

// The amounts of a state and prices, as a hint.
fn hint_from(alloc: Global, state: &State<'_>, prices: &[i128]) -> Result<Hint, NoMemory> {
    let mut hint = Hint {
        amounts: Vec::new(alloc),
        prices: Vec::new(alloc),
    };
    for i in 0..state.net().arc_count() {
        hint.amounts.push(narrow(state.amount(ArcId::at(i))))?;
    }
    for price in prices {
        hint.prices.push(narrow(*price))?;
    }
    Ok(hint)
}

// The answer to a net as a hint; an empty one if there is no flow.
fn hint_of(alloc: Global, net: &Net) -> Result<Hint, NoMemory> {
    match Fast::new().solve(alloc, net)? {
        Outcome::Least(state, prices) => hint_from(alloc, &state, &prices),
        Outcome::Blocked(..) => Ok(Hint {
            amounts: Vec::new(alloc),
            prices: Vec::new(alloc),
        }),
    }
}

// Whether a text's net is answered as told, from the answer to the sample.
fn answers(
    alloc: Global,
    text: &[u8],
    cost: Option<i128>,
    is_mended: bool,
) -> Result<bool, NoMemory> {
    let Some(sample) = net_of(alloc, SAMPLE)? else {
        return Ok(false);
    };
    let mut again = Again::new(hint_of(alloc, &sample)?);
    Ok(finds(alloc, &mut again, text, cost)? && again.is_mended() == is_mended)
}

#[test]
fn changed_nets_from_the_answer_to_the_sample(rt: HostRuntime) -> Result<(), Fail> {
    for (text, cost, is_mended) in &CHANGED {
        assert!(rt; answers(rt.alloc(), text, *cost, *is_mended)?);
    }
    Ok(())
}

#[test]
fn worked_nets_from_no_answer(rt: HostRuntime) -> Result<(), Fail> {
    let alloc = rt.alloc();
    let nothing = Hint {
        amounts: Vec::new(alloc),
        prices: Vec::new(alloc),
    };
    assert!(rt; finds_all(alloc, &mut Again::new(nothing), &COSTED)?);
    Ok(())
}
