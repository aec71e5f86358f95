//! An engine that answered lack of memory is asked again for the same net, and solves it.
//!
//! With ample memory nothing is asked twice; `scripts/refuse_memory.py` refuses each allocation in
//! turn.

use crate::fixtures::{CIRCULATION, Costed, SAMPLE, finds_all};
use mcf_assign::Sap;
use mcf_basis::Basis;
use mcf_cancel::{Cancel, Engine, Heap, Pricer};
use mcf_fast::Fast;
use mcf_feas::{Feas, feasible};
use mcf_instance::Problem;
use mcf_matching::Matching;
use mcf_network::{Net, NodeSet, State};
use mcf_scaling::{Refine, Scaling};
use mcf_simplex::{Best, Block, First, Simplex};
use mcf_test_nets::net_of;
use mcf_text::NoMemory;
use mcf_tree::Tree;
use std::alloc::Global;
use std::test::Fail;

// A flow, sets of all nodes, a set that must send more than it can, and a cycle that earns.
static FLOW_PROBLEMS: [Costed; 5] = [
    (SAMPLE, Some(14)),
    (b"p min 1 0\nn 1 -1\n", None),
    (b"p min 2 1\nn 1 4\na 1 2 0 4 2\n", None),
    (b"p min 2 1\nn 1 4\nn 2 -4\na 1 2 0 3 2\n", None),
    (CIRCULATION, Some(-5)),
];

// A matching, a set of all nodes, and two rows with one column between them.
static ASSIGNMENTS: [Costed; 3] = [
    (
        b"p asn 4 4\nn 1\nn 2\na 1 3 5\na 1 4 1\na 2 3 2\na 2 4 1\n",
        Some(3),
    ),
    (b"p asn 3 2\nn 1\nn 2\na 1 3 1\na 2 3 2\n", None),
    (b"p asn 4 2\nn 1\nn 2\na 1 3 1\na 2 3 1\n", None),
];

// Whether one engine finds what each flow problem and each assignment has.
fn finds_both<E: Engine>(alloc: Global, engine: &mut E) -> Result<bool, NoMemory> {
    Ok(finds_all(alloc, engine, &FLOW_PROBLEMS)? && finds_all(alloc, engine, &ASSIGNMENTS)?)
}

#[test]
fn six_rows_by_cycle_cancelling(rt: HostRuntime) -> Result<(), Fail> {
    assert!(rt; finds_both(rt.alloc(), &mut Cancel::new())?);
    Ok(())
}

#[test]
fn six_rows_by_scaling(rt: HostRuntime) -> Result<(), Fail> {
    assert!(rt; finds_both(rt.alloc(), &mut Scaling::new())?);
    Ok(())
}

// Whether the simplex does so under three rules.
fn each_rule_finds_both(alloc: Global) -> Result<bool, NoMemory> {
    let first = finds_both(alloc, &mut Simplex::new(First))?;
    let best = finds_both(alloc, &mut Simplex::new(Best))?;
    let block = finds_both(alloc, &mut Simplex::new(Block::new(2)))?;
    Ok(first && best && block)
}

#[test]
fn six_rows_by_the_simplex(rt: HostRuntime) -> Result<(), Fail> {
    assert!(rt; each_rule_finds_both(rt.alloc())?);
    Ok(())
}

// Whether the search that is judged does so, and where it is given up at once.
fn either_search_finds_both(alloc: Global) -> Result<bool, NoMemory> {
    let searched = finds_both(alloc, &mut Fast::new())?;
    let given_up = finds_both(alloc, &mut Fast::within(0))?;
    Ok(searched && given_up)
}

#[test]
fn six_rows_by_a_judged_search(rt: HostRuntime) -> Result<(), Fail> {
    assert!(rt; either_search_finds_both(rt.alloc())?);
    Ok(())
}

// Whether each call that makes room for a net alone makes it as it should: by a function for each
// call.
fn begins(alloc: Global, net: &Net) -> Result<bool, NoMemory> {
    Ok(
        begins_state(alloc, net)?
            && begins_set(alloc, net)?
            && begins_basis(alloc, net)?
            && begins_prices(alloc, net)?
            && begins_refinement(alloc, net)?
            && begins_matching(alloc, net)?,
    )
}

fn begins_state(alloc: Global, net: &Net) -> Result<bool, NoMemory> {
    Ok(State::zero(alloc, net)?.net().arc_count() == net.arc_count())
}

fn begins_set(alloc: Global, net: &Net) -> Result<bool, NoMemory> {
    Ok(NodeSet::new(alloc, net)?.len() == 0)
}

fn begins_basis(alloc: Global, net: &Net) -> Result<bool, NoMemory> {
    Ok(Basis::start(alloc, net)?.net().node_count() == net.node_count())
}

fn begins_prices(alloc: Global, net: &Net) -> Result<bool, NoMemory> {
    let _pricer = Pricer::start(alloc, net)?;
    let _heap = Heap::new(alloc, net)?;
    Ok(true)
}

fn begins_refinement(alloc: Global, net: &Net) -> Result<bool, NoMemory> {
    match feasible(alloc, net)? {
        Feas::Flow(state) => {
            Ok(Refine::start(alloc, state)?.state().net().arc_count() == net.arc_count())
        }
        Feas::Blocked(..) => Ok(true),
    }
}

fn begins_matching(alloc: Global, net: &Net) -> Result<bool, NoMemory> {
    match net.problem() {
        Problem::Min => Ok(true),
        Problem::Asn => Ok(Matching::start(alloc, net)?.settled().is_empty()),
    }
}

// Whether they make it for each of these.
fn all_begin(alloc: Global, rows: &[Costed]) -> Result<bool, NoMemory> {
    for (text, _) in rows {
        let Some(net) = net_of(alloc, *text)? else {
            return Ok(false);
        };
        if !begins(alloc, &net)? {
            return Ok(false);
        }
    }
    Ok(true)
}

#[test]
fn six_rows_begun(rt: HostRuntime) -> Result<(), Fail> {
    assert!(rt; all_begin(rt.alloc(), &FLOW_PROBLEMS)?);
    assert!(rt; all_begin(rt.alloc(), &ASSIGNMENTS)?);
    Ok(())
}

#[test]
fn six_rows_of_stars(rt: HostRuntime) -> Result<(), Fail> {
    let tree = Tree::star(rt.alloc(), 4, 5)?;
    assert!(rt; tree.size() == 5);
    Ok(())
}

#[test]
fn six_rows_by_augmenting_paths(rt: HostRuntime) -> Result<(), Fail> {
    assert!(rt; finds_all(rt.alloc(), &mut Sap::new(), &ASSIGNMENTS)?);
    Ok(())
}
