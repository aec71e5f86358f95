//! Large assignments, which three engines answer with one cost.

use mcf_checker::{Verdict, check};
use mcf_solver::{Choice, EngineChoice, Kind, solve_text};
use mcf_test_nets::{multiples, short_rows};
use mcf_text::NoMemory;
use std::alloc::Global;
use std::test::Fail;

static ENGINES: [EngineChoice; 3] = [
    EngineChoice::Sap,
    EngineChoice::Scaling,
    EngineChoice::Simplex,
];

// Whether an engine answers a text with a flow of a cost, which the checker accepts.
fn costs(alloc: Global, text: &[u8], engine: EngineChoice, cost: i128) -> Result<bool, NoMemory> {
    let choice = Choice {
        engine,
        ..Choice::default()
    };
    let mut answer = Vec::new(alloc);
    let kind = solve_text(alloc, text, choice, &mut answer)?;
    let verdict = check(alloc, text, &answer)?;
    Ok(kind == Kind::Flow && verdict == Verdict::Flow(cost))
}

// Whether three engines answer a text with a flow of one cost.
fn each_costs(alloc: Global, text: &[u8], cost: i128) -> Result<bool, NoMemory> {
    for engine in &ENGINES {
        if !costs(alloc, text, *engine, cost)? {
            return Ok(false);
        }
    }
    Ok(true)
}

#[test]
fn three_engines_answer_with_one_cost(rt: HostRuntime) -> Result<(), Fail> {
    let text = multiples(rt.alloc(), 200)?;
    assert!(rt; each_costs(rt.alloc(), &text, 198)?);
    Ok(())
}

// Whether three engines answer an assignment of short rows with a flow of one cost.
fn each_costs_short(alloc: Global, size: u32, unit: i128, cost: i128) -> Result<bool, NoMemory> {
    let text = short_rows(alloc, size, unit)?;
    each_costs(alloc, &text, cost)
}

// The number of short rows, in what unit, and the cost.
static SHORT_ROWS: [(u32, i128, i128); 3] = [
    (60, 1, 24_849),
    (200, 1, 89_522),
    (200, 990_000_000_000, 88_626_780_000_000_000),
];

// Rows are so short that all prices are updated from time to time, but where the unit is so great
// that 64 bits have no room for distances; the costs are those that LEMON's network simplex finds.
#[test]
fn three_engines_agree_where_rows_are_short(rt: HostRuntime) -> Result<(), Fail> {
    for (size, unit, cost) in &SHORT_ROWS {
        assert!(rt; each_costs_short(rt.alloc(), *size, *unit, *cost)?);
    }
    Ok(())
}
