//! A run of the simplex in parts, and the rule of pieces, on worked nets.

use crate::fixtures::{AMONG_MANY, SIDE_BY_SIDE};
use crate::simplex::step;
use mcf_basis::Basis;
use mcf_simplex::{Following, Run};
use mcf_test_nets::net_of;
use mcf_text::NoMemory;
use std::alloc::Global;
use std::test::Fail;

// Whether a rule picks these arcs of a text's net, one after another, and then none.
fn picks(alloc: Global, rule: &mut Following, text: &[u8], arcs: &[u32]) -> Result<bool, NoMemory> {
    let Some(net) = net_of(alloc, text)? else {
        return Ok(false);
    };
    let mut basis = Basis::start(alloc, &net)?;
    for arc in arcs {
        let Some((picked, _)) = step(rule, &mut basis) else {
            return Ok(false);
        };
        if picked != *arc {
            return Ok(false);
        }
    }
    Ok(step(rule, &mut basis).is_none() && rule.scanned() > 0)
}

// Whether the cheaper of two arcs side by side comes first, by blocks of one stretch and of two.
fn each_picks(alloc: Global) -> Result<bool, NoMemory> {
    let mut split = Following::steady();
    split.set_stretches(2);
    split.set_least_arcs(1);
    let whole = picks(alloc, &mut Following::suited_to(2), SIDE_BY_SIDE, &[1, 2])?;
    Ok(whole && picks(alloc, &mut split, AMONG_MANY, &[1, 2])?)
}

#[test]
fn pieces_of_one_stretch_and_of_two(rt: HostRuntime) -> Result<(), Fail> {
    assert!(rt; each_picks(rt.alloc())?);
    Ok(())
}

// Whether a run makes one pivot of two, tells so, goes on with other blocks, and ends with a flow.
fn goes_on(alloc: Global) -> Result<bool, NoMemory> {
    let Some(net) = net_of(alloc, SIDE_BY_SIDE)? else {
        return Ok(false);
    };
    let mut run = Run::start(alloc, &net, Following::suited_to(2))?;
    let begun = run.counts().loaded == 2 && !run.advance(1);
    let told = run.counts().pivots == 1 && run.counts().still == 0;
    run.set_least_arcs(1);
    run.set_stretches(2);
    let over = run.advance(5) && run.counts().pivots == 2;
    let _pivots = run.leave();
    Ok(begun && told && over)
}

#[test]
fn a_run_in_parts(rt: HostRuntime) -> Result<(), Fail> {
    assert!(rt; goes_on(rt.alloc())?);
    Ok(())
}
