//! Texts of 200,000 items through each call that takes memory for them.
//!
//! No clause says that memory is there, so a body that answers `NoMemory` past some count meets
//! every contract.
use crate::solving::answered;
use mcf_answer::{parse, write};
use mcf_checker::{Verdict, check};
use mcf_instance::read;
use mcf_solver::{EngineChoice, Kind};
use mcf_text::{NoMemory, put_number};
use std::alloc::Global;
use std::test::Fail;

// The number of nodes, and how many arcs.
const COUNT: u32 = 200_000;

// Room for a text of this many items.
fn room(alloc: Global) -> Result<Vec<u8>, NoMemory> {
    Ok(Vec::with_capacity(alloc, 8_000_000)?)
}

// Puts a line of two words with a number between them.
fn put_line(out: &mut Vec<u8>, before: &[u8], number: u32, after: &[u8]) -> Result<(), NoMemory> {
    out.extend_from_slice(before)?;
    put_number(out, i128::from(number))?;
    out.extend_from_slice(after)?;
    Ok(())
}

// Puts such a line for each number.
fn put_lines(out: &mut Vec<u8>, before: &[u8], after: &[u8]) -> Result<(), NoMemory> {
    for place in 0..COUNT {
        put_line(out, before, place + 1, after)?;
    }
    Ok(())
}

// An arc from node 1 to each node, itself included, and nothing to send.
fn star(alloc: Global) -> Result<Vec<u8>, NoMemory> {
    let mut out = room(alloc)?;
    put_line(&mut out, b"p min ", COUNT, b" 200000\n")?;
    put_lines(&mut out, b"a 1 ", b" 0 7 3\n")?;
    Ok(out)
}

// Its one answer: no flow, and prices of 0.
fn star_answer(alloc: Global) -> Result<Vec<u8>, NoMemory> {
    let mut out = room(alloc)?;
    out.extend_from_slice(b"s 0\n")?;
    put_lines(&mut out, b"f 1 ", b" 0\n")?;
    put_lines(&mut out, b"y ", b" 0\n")?;
    Ok(out)
}

// A unit to send at each node, and nothing that takes it.
fn full_nodes(alloc: Global) -> Result<Vec<u8>, NoMemory> {
    let mut out = room(alloc)?;
    put_line(&mut out, b"p min ", COUNT, b" 0\n")?;
    put_lines(&mut out, b"n ", b" 1\n")?;
    Ok(out)
}

// Its one answer: all nodes.
fn full_nodes_answer(alloc: Global) -> Result<Vec<u8>, NoMemory> {
    let mut out = room(alloc)?;
    put_line(&mut out, b"i ", COUNT, b" send\n")?;
    put_lines(&mut out, b"x ", b"\n")?;
    Ok(out)
}

// Whether the text is an instance of that many nodes and this many arcs.
fn is_read(alloc: Global, input: &[u8], arcs: u32) -> Result<bool, NoMemory> {
    let Ok(instance) = read(alloc, input)? else {
        return Ok(false);
    };
    Ok(instance.node_count() == COUNT && instance.arc_count() == arcs)
}

// Whether the answer is read, and written as it was.
fn is_rewritten(alloc: Global, answer: &[u8]) -> Result<bool, NoMemory> {
    let Ok(parsed) = parse(alloc, answer)? else {
        return Ok(false);
    };
    let mut out = Vec::new(alloc);
    write(&parsed, &mut out)?;
    Ok(out.as_slice() == answer)
}

// Whether the instance is solved with this answer.
fn is_solved(alloc: Global, input: &[u8], kind: Kind, answer: &[u8]) -> Result<bool, NoMemory> {
    let (given, out) = answered(alloc, b"", input, EngineChoice::Auto)?;
    Ok(given == kind && out.as_slice() == answer)
}

#[test]
fn many_arcs(rt: HostRuntime) -> Result<(), Fail> {
    let input = star(rt.alloc())?;
    let answer = star_answer(rt.alloc())?;
    assert!(rt; is_read(rt.alloc(), &input, COUNT)?);
    assert!(rt; is_rewritten(rt.alloc(), &answer)?);
    assert!(rt; is_solved(rt.alloc(), &input, Kind::Flow, &answer)?);
    assert!(rt; check(rt.alloc(), &input, &answer)? == Verdict::Flow(0));
    Ok(())
}

#[test]
fn many_nodes_in_a_set(rt: HostRuntime) -> Result<(), Fail> {
    let input = full_nodes(rt.alloc())?;
    let answer = full_nodes_answer(rt.alloc())?;
    assert!(rt; is_read(rt.alloc(), &input, 0)?);
    assert!(rt; is_rewritten(rt.alloc(), &answer)?);
    assert!(rt; is_solved(rt.alloc(), &input, Kind::Blocked, &answer)?);
    assert!(rt; check(rt.alloc(), &input, &answer)? == Verdict::Blocked(COUNT));
    Ok(())
}
