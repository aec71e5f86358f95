//! Arc lines of the plain form, of almost that form, and their faults.
use crate::instances::instance_of;
use mcf_instance::{Arc, Instance, Problem, read};
use mcf_text::{ArcId, NoMemory, NodeId, leading_digits};
use std::alloc::Global;
use std::test::Fail;

// Some bytes, how many digits they begin with, eighteen at most, and what these write.
static FRONTS: [(&[u8], usize, u64); 16] = [
    (b"7", 1, 7),
    (b"0", 1, 0),
    (b"12 345", 2, 12),
    (b"12\r", 2, 12),
    (b"007x", 3, 7),
    (b"999999999999999999", 18, 999_999_999_999_999_999),
    (b"999999999999999999 1", 18, 999_999_999_999_999_999),
    (b"1234567890123456789", 18, 123_456_789_012_345_678),
    (b"0000000000000000001 ", 18, 0),
    (b"", 0, 0),
    (b" 7", 0, 0),
    (b"+7", 0, 0),
    (b"-7", 0, 0),
    (b"/7", 0, 0),
    (b":7", 0, 0),
    (b"9/", 1, 9),
];

#[test]
fn digits_in_front(rt: HostRuntime) {
    for (bytes, count, value) in &FRONTS {
        let digits = leading_digits(bytes);
        assert!(rt; digits.count == *count && digits.value == *value);
    }
}

// The ends of an arc, its least and its greatest flow, and its cost.
type Row = (u32, u32, i128, i128, i128);

// Whether an instance has this arc alone.
fn has_arc(instance: &Instance, row: Row) -> bool {
    let (src, dst, low, cap, cost) = row;
    let arc = Arc {
        src: NodeId::new(src),
        dst: NodeId::new(dst),
        low,
        cap,
        cost,
    };
    instance.arc_count() == 1 && instance.arc(ArcId::new(1)) == arc
}

// The problem line and the node lines before an arc line.
fn front_of(problem: Problem) -> &'static [u8] {
    match problem {
        Problem::Min => b"p min 12 1\n",
        Problem::Asn => b"p asn 12 1\nn 1\n",
    }
}

// The text of an arc line after a problem line, and what ends the arc line.
fn text_of(alloc: Global, problem: Problem, line: &[u8], end: &[u8]) -> Result<Vec<u8>, NoMemory> {
    let mut text = front_of(problem).to_vec(alloc)?;
    text.extend_from_slice(line)?;
    text.extend_from_slice(end)?;
    Ok(text)
}

// Whether an arc line says this arc, be it ended by a line feed, by the end of the text, or as in a
// text of another system.
fn says(alloc: Global, problem: Problem, line: &[u8], row: Row) -> Result<bool, NoMemory> {
    for end in [b"\n".as_slice(), b"".as_slice(), b"\r\n".as_slice()] {
        let text = text_of(alloc, problem, line, end)?;
        match instance_of(alloc, &text)? {
            Some(instance) => {
                if !has_arc(&instance, row) {
                    return Ok(false);
                }
            }
            None => return Ok(false),
        }
    }
    Ok(true)
}

// Whether an arc line has this fault.
fn is_faulty(alloc: Global, problem: Problem, line: &[u8], word: &str) -> Result<bool, NoMemory> {
    let text = text_of(alloc, problem, line, b"\n")?;
    match read(alloc, &text)? {
        Ok(_) => Ok(false),
        Err(refusal) => Ok(refusal.code.word() == word),
    }
}

static FLOW_ARCS: [(&[u8], Row); 20] = [
    (b"a 1 2 0 4 7", (1, 2, 0, 4, 7)),
    (b"a 12 11 0 0 0", (12, 11, 0, 0, 0)),
    (b"a 1 2 -5 -4 -3", (1, 2, -5, -4, -3)),
    (b"a 1 2 -0 4 -0", (1, 2, 0, 4, 0)),
    (
        b"a 1 2 -999999999999999999 999999999999999999 999999999999999",
        (
            1,
            2,
            -999_999_999_999_999_999,
            999_999_999_999_999_999,
            999_999_999_999_999,
        ),
    ),
    (
        b"a 1 2 -1000000000000000000 1000000000000000000 -1000000000000000",
        (
            1,
            2,
            -1_000_000_000_000_000_000,
            1_000_000_000_000_000_000,
            -1_000_000_000_000_000,
        ),
    ),
    (b"a 000000000000000001 2 0 4 7", (1, 2, 0, 4, 7)),
    (b"a 0000000000000000001 2 0 4 7", (1, 2, 0, 4, 7)),
    (b"a 1 2 0 4 000000000000000007", (1, 2, 0, 4, 7)),
    (b"a 1 2 0 4 0000000000000000007", (1, 2, 0, 4, 7)),
    (b"a +1 2 0 4 7", (1, 2, 0, 4, 7)),
    (b"a 1 2 0 4 +7", (1, 2, 0, 4, 7)),
    (b"a\t1 2 0 4 7", (1, 2, 0, 4, 7)),
    (b"a 1\t2 0 4 7", (1, 2, 0, 4, 7)),
    (b"a 1\r2 0 4 7", (1, 2, 0, 4, 7)),
    (b" a 1 2 0 4 7", (1, 2, 0, 4, 7)),
    (b"a  1 2 0 4 7", (1, 2, 0, 4, 7)),
    (b"a 1 2  0 4 7", (1, 2, 0, 4, 7)),
    (b"a 1 2 0 4 7 ", (1, 2, 0, 4, 7)),
    (b"a 1 2 0 4 7 \t", (1, 2, 0, 4, 7)),
];

static PAIRS: [(&[u8], Row); 8] = [
    (b"a 1 2 7", (1, 2, 0, 1, 7)),
    (b"a 1 12 0", (1, 12, 0, 1, 0)),
    (b"a 1 2 -7", (1, 2, 0, 1, -7)),
    (
        b"a 1 2 1000000000000000",
        (1, 2, 0, 1, 1_000_000_000_000_000),
    ),
    (b"a 1 2 +7", (1, 2, 0, 1, 7)),
    (b"a\t1\t2\t7", (1, 2, 0, 1, 7)),
    (b"a 1  2 7 ", (1, 2, 0, 1, 7)),
    (b"\ta 1 2 7", (1, 2, 0, 1, 7)),
];

#[test]
fn plain_lines_and_others_say_the_same(rt: HostRuntime) -> Result<(), Fail> {
    for (line, row) in &FLOW_ARCS {
        assert!(rt; says(rt.alloc(), Problem::Min, line, *row)?);
    }
    for (line, row) in &PAIRS {
        assert!(rt; says(rt.alloc(), Problem::Asn, line, *row)?);
    }
    Ok(())
}

static FAULTY_FLOW_ARCS: [(&[u8], &str); 21] = [
    (b"a", "fields"),
    (b"a ", "fields"),
    (b"a 1 2 7", "fields"),
    (b"a 1 2 0 4", "fields"),
    (b"a 1 2 0 4 7 8", "fields"),
    (b"a1 2 0 4 7 8", "kind"),
    (b"a1 2 0 4 7", "kind"),
    (b"a 1 2 0 4 7x", "number"),
    (b"a 1 2 0 4 -", "number"),
    (b"a 1 2 0 4 --7", "number"),
    (b"a 1 2 0 4 7-", "number"),
    (b"a 1 2 0 4 7\x0c", "number"),
    (b"a 1 2 0 x 7", "number"),
    (b"a 0 2 0 4 7", "node"),
    (b"a 13 2 0 4 7", "node"),
    (b"a 1 -2 0 4 7", "node"),
    (b"a 1 4294967297 0 4 7", "node"),
    (b"a 1 2 0 1000000000000000001 7", "bound"),
    (b"a 1 2 5 4 7", "order"),
    (b"a 1 2 0 4 1000000000000001", "cost"),
    (b"a 1 2 0 4 999999999999999999", "cost"),
];

static FAULTY_PAIRS: [(&[u8], &str); 6] = [
    (b"a 1 2", "fields"),
    (b"a 1 2 7 8", "fields"),
    (b"a 1 2 0 1 7", "fields"),
    (b"a 2 1 7", "side"),
    (b"a 1 1 7", "side"),
    (b"a 1 2 1000000000000001", "cost"),
];

#[test]
fn faults_of_plain_lines_and_others(rt: HostRuntime) -> Result<(), Fail> {
    for (line, word) in &FAULTY_FLOW_ARCS {
        assert!(rt; is_faulty(rt.alloc(), Problem::Min, line, word)?);
    }
    for (line, word) in &FAULTY_PAIRS {
        assert!(rt; is_faulty(rt.alloc(), Problem::Asn, line, word)?);
    }
    Ok(())
}
