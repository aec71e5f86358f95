//! Instances made of arrays, solved and judged with no text.
use mcf_answer::Answer;
use mcf_checker::{Verdict, check_flow};
use mcf_instance::{Instance, RawArc, RawPair, assignment_problem, flow_problem};
use mcf_solver::{Choice, Form, solve_instance, solve_instance_from};
use mcf_text::NoMemory;
use std::alloc::Global;
use std::test::Fail;

static ARCS: [RawArc; 3] = [
    RawArc {
        src: 1,
        dst: 2,
        low: 0,
        cap: 3,
        cost: 1,
    },
    RawArc {
        src: 2,
        dst: 3,
        low: 0,
        cap: 3,
        cost: -1,
    },
    RawArc {
        src: 1,
        dst: 3,
        low: 0,
        cap: 9,
        cost: 5,
    },
];

static PAIRS: [RawPair; 4] = [
    RawPair {
        row: 1,
        column: 1,
        cost: 4,
    },
    RawPair {
        row: 1,
        column: 2,
        cost: 1,
    },
    RawPair {
        row: 2,
        column: 1,
        cost: 2,
    },
    RawPair {
        row: 2,
        column: 2,
        cost: -3,
    },
];

// Whether the answer to an instance is a flow of this cost, which the checker accepts.
fn costs(alloc: Global, instance: &Instance, want: i128) -> Result<bool, NoMemory> {
    let answer = solve_instance(alloc, instance, Choice::default())?;
    is_right(alloc, instance, &answer, want)
}

// The same from a flow and prices.
fn costs_from(
    alloc: Global,
    instance: &Instance,
    flow: &[i64],
    prices: &[i64],
    want: i128,
) -> Result<bool, NoMemory> {
    let answer = solve_instance_from(alloc, instance, Form::One, flow, prices)?;
    is_right(alloc, instance, &answer, want)
}

// Whether an answer is a flow of this cost, which the checker accepts.
fn is_right(
    alloc: Global,
    instance: &Instance,
    answer: &Answer,
    want: i128,
) -> Result<bool, NoMemory> {
    match answer {
        Answer::Flow(flow) => {
            let verdict = check_flow(alloc, instance, flow)?;
            Ok(verdict == Verdict::Flow(want))
        }
        _ => Ok(false),
    }
}

#[test]
fn a_flow_problem_of_arrays(rt: HostRuntime) -> Result<(), Fail> {
    let Ok(instance) = flow_problem(rt.alloc(), &[4, 0, -4], &ARCS)? else {
        assert!(rt; false);
        return Ok(());
    };
    assert!(rt; costs(rt.alloc(), &instance, 5)?);
    Ok(())
}

#[test]
fn an_assignment_problem_of_arrays(rt: HostRuntime) -> Result<(), Fail> {
    let Ok(instance) = assignment_problem(rt.alloc(), 2, 2, &PAIRS)? else {
        assert!(rt; false);
        return Ok(());
    };
    assert!(rt; costs(rt.alloc(), &instance, 1)?);
    Ok(())
}

#[test]
fn a_flow_problem_from_the_answer_to_one_of_less_supply(rt: HostRuntime) -> Result<(), Fail> {
    let Ok(instance) = flow_problem(rt.alloc(), &[5, 0, -5], &ARCS)? else {
        assert!(rt; false);
        return Ok(());
    };
    assert!(rt; costs_from(rt.alloc(), &instance, &[3, 3, 1], &[0, -1, -5], 10)?);
    Ok(())
}
