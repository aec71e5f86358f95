//! Instances made of arrays, beside those of texts.
use crate::instances::{Row, has_arcs, has_supplies};
use mcf_instance::{
    ArrayFault, Instance, Problem, RawArc, RawPair, assignment_problem, flow_problem,
};
use mcf_text::{NoMemory, copies};
use std::alloc::Global;
use std::test::Fail;

/// The ends of an arc, its least and its greatest flow, and its cost.
pub type Numbers = (u32, u32, i64, i64, i64);

/// The flow problem of these supplies and arcs, or the first fault.
pub fn flow_of(
    alloc: Global,
    supplies: &[i64],
    arcs: &[Numbers],
) -> Result<Result<Instance, ArrayFault>, NoMemory> {
    let mut raw = Vec::new(alloc);
    for numbers in arcs {
        let (src, dst, low, cap, cost) = *numbers;
        raw.push(RawArc {
            src,
            dst,
            low,
            cap,
            cost,
        })?;
    }
    flow_problem(alloc, supplies, &raw)
}

// The assignment problem of this many rows and columns and of these pairs, or the first fault.
fn assignment_of(
    alloc: Global,
    rows: u32,
    columns: u32,
    pairs: &[(u32, u32, i64)],
) -> Result<Result<Instance, ArrayFault>, NoMemory> {
    let mut raw = Vec::new(alloc);
    for numbers in pairs {
        let (row, column, cost) = *numbers;
        raw.push(RawPair { row, column, cost })?;
    }
    assignment_problem(alloc, rows, columns, &raw)
}

// Whether an instance was made, of this problem with nodes of these supplies and these arcs.
fn is_made(
    made: &Result<Instance, ArrayFault>,
    problem: Problem,
    supplies: &[i128],
    arcs: &[Row],
) -> bool {
    match made {
        Ok(instance) => {
            let is_problem = instance.problem() == problem;
            let are_supplies = has_supplies(instance, supplies);
            let are_arcs = has_arcs(instance, arcs);
            is_problem && are_supplies && are_arcs
        }
        Err(_) => false,
    }
}

static BOUNDED: [Numbers; 3] = [(1, 2, 0, 4, 2), (1, 2, -3, -3, 1), (2, 2, 1, 7, -3)];

static BOUNDED_ROWS: [Row; 3] = [(1, 2, 0, 4, 2), (1, 2, -3, -3, 1), (2, 2, 1, 7, -3)];

#[test]
fn a_flow_problem_of_arrays(rt: HostRuntime) -> Result<(), Fail> {
    let made = flow_of(rt.alloc(), &[4, -4], &BOUNDED)?;
    assert!(rt; is_made(&made, Problem::Min, &[4, -4], &BOUNDED_ROWS));
    Ok(())
}

static PAIRS: [(u32, u32, i64); 3] = [(1, 1, 5), (2, 3, -7), (1, 1, 4)];

static PAIR_ROWS: [Row; 3] = [(1, 3, 0, 1, 5), (2, 5, 0, 1, -7), (1, 3, 0, 1, 4)];

#[test]
fn an_assignment_problem_of_arrays(rt: HostRuntime) -> Result<(), Fail> {
    let made = assignment_of(rt.alloc(), 2, 3, &PAIRS)?;
    assert!(rt; is_made(&made, Problem::Asn, &[1, 1, -1, -1, -1], &PAIR_ROWS));
    Ok(())
}

// Whether a fault was found, with this word, at this node or arc; 0 is neither.
fn is_faulty(made: &Result<Instance, ArrayFault>, place: u32, word: &str) -> bool {
    match made {
        Ok(_) => false,
        Err(ArrayFault::Size) => place == 0 && word == "size",
        Err(ArrayFault::Supply(node)) => place == node.get() && word == "supply",
        Err(ArrayFault::Arc(arc, code)) => place == arc.get() && word == code.word(),
    }
}

static FAULTY_FLOWS: [(&[i64], &[Numbers], u32, &str); 12] = [
    (&[], &[(1, 1, 0, 1, 0)], 1, "node"),
    (&[0], &[(1, 1, 0, 1, 0), (1, 2, 0, 1, 0)], 2, "node"),
    (&[0], &[(0, 1, 0, 1, 0)], 1, "node"),
    (&[0, 1000000000000000001], &[(0, 1, 0, 1, 0)], 2, "supply"),
    (&[-1000000000000000001], &[], 1, "supply"),
    (&[0], &[(1, 1, -1000000000000000001, 1, 0)], 1, "bound"),
    (&[0], &[(1, 1, 3, 1000000000000000001, 0)], 1, "bound"),
    (&[0], &[(1, 1, 3, 2, 2000000000000000)], 1, "order"),
    (
        &[0],
        &[(1, 1, 0, 1, 0), (1, 1, 0, 1, 1000000000000001)],
        2,
        "cost",
    ),
    (
        &[0],
        &[(1, 1, 0, 1, -1000000000000001), (2, 1, 0, 1, 0)],
        1,
        "cost",
    ),
    (
        &[0],
        &[
            (1, 1, 0, 1000000000000000000, 1000000000000000),
            (1, 1, 0, 1, 1),
        ],
        0,
        "",
    ),
    (&[0], &[(1, 2, 5, 4, 2000000000000000)], 1, "node"),
];

#[test]
fn faulty_flow_problems_of_arrays(rt: HostRuntime) -> Result<(), Fail> {
    for (supplies, arcs, place, word) in FAULTY_FLOWS.iter() {
        let made = flow_of(rt.alloc(), supplies, arcs)?;
        assert!(rt; (*place == 0 && made.is_ok()) || is_faulty(&made, *place, word));
    }
    Ok(())
}

static FAULTY_ASSIGNMENTS: [(u32, u32, &[(u32, u32, i64)], u32, &str); 7] = [
    (1_000_000, 1, &[], 0, "size"),
    (4_294_967_295, 4_294_967_295, &[], 0, "size"),
    (2, 2, &[(1, 1, 0), (1, 3, 0)], 2, "node"),
    (2, 2, &[(0, 1, 0)], 1, "node"),
    (2, 2, &[(3, 1, 0)], 1, "side"),
    (2, 2, &[(1, 0, 0)], 1, "side"),
    (2, 2, &[(1, 0, 1000000000000001)], 1, "cost"),
];

#[test]
fn faulty_assignment_problems_of_arrays(rt: HostRuntime) -> Result<(), Fail> {
    for (rows, columns, pairs, place, word) in FAULTY_ASSIGNMENTS.iter() {
        let made = assignment_of(rt.alloc(), *rows, *columns, pairs)?;
        assert!(rt; is_faulty(&made, *place, word));
    }
    Ok(())
}

const GREATEST: Numbers = (1, 1, 0, 1_000_000_000_000_000_000, 1_000_000_000_000_000);

// Whether a thousand arcs of the greatest weight are within the total, and one more unit is above
// it.
fn is_total_tested(alloc: Global) -> Result<bool, NoMemory> {
    let mut arcs = copies(alloc, 1000, GREATEST)?;
    let within = flow_of(alloc, &[0], &arcs)?.is_ok();
    arcs.push((1, 1, 0, 1, 1))?;
    let beyond = flow_of(alloc, &[0], &arcs)?;
    Ok(within && is_faulty(&beyond, 1001, "total"))
}

#[test]
fn the_total_of_arrays(rt: HostRuntime) -> Result<(), Fail> {
    assert!(rt; is_total_tested(rt.alloc())?);
    Ok(())
}
