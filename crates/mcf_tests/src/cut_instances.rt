//! An instance that is cut short: what is answered, and that the checker accepts it.
use crate::solving::answered;
use mcf_checker::{Verdict, check};
use mcf_solver::EngineChoice;
use mcf_text::NoMemory;
use std::alloc::Global;
use std::test::Fail;

const INSTANCE: &[u8] =
    b"p min 4 5\nn 1 4\nn 4 -4\na 1 2 0 4 2\na 1 3 0 2 2\na 2 3 0 2 1\na 2 4 0 3 3\na 3 4 0 5 1\n";

// From how many bytes of the instance on this is the answer, up to the next row.
static CUTS: [(usize, &[u8]); 18] = [
    (0, b"r 1 no-p\n"),
    (1, b"r 1 fields\n"),
    (9, b"r 2 missing\n"),
    (11, b"r 2 fields\n"),
    (15, b"r 3 missing\n"),
    (17, b"r 3 fields\n"),
    (21, b"r 3 number\n"),
    (22, b"r 4 missing\n"),
    (24, b"r 4 fields\n"),
    (34, b"r 5 missing\n"),
    (36, b"r 5 fields\n"),
    (46, b"r 6 missing\n"),
    (48, b"r 6 fields\n"),
    (58, b"r 7 missing\n"),
    (60, b"r 7 fields\n"),
    (70, b"r 8 missing\n"),
    (72, b"r 8 fields\n"),
    (
        82,
        b"s 14\nf 1 2 2\nf 1 3 2\nf 2 3 2\nf 2 4 0\nf 3 4 4\ny 1 0\ny 2 -2\ny 3 -3\ny 4 -4\n",
    ),
];

// The answer to this many bytes of the instance.
fn answer_at(count: usize) -> &'static [u8] {
    let mut answer = b"".as_slice();
    for (from, text) in &CUTS {
        if *from <= count {
            answer = text;
        }
    }
    answer
}

// Whether this is the answer to a text, and the checker accepts it.
fn is_answered(alloc: Global, input: &[u8], answer: &[u8]) -> Result<bool, NoMemory> {
    let (_, out) = answered(alloc, b"", input, EngineChoice::Auto)?;
    let verdict = check(alloc, input, answer)?;
    let is_accepted = matches!(verdict, Verdict::Flow(14) | Verdict::Refused(_));
    Ok(is_accepted && out.as_slice() == answer)
}

#[test]
fn an_instance_cut_at_each_byte(rt: HostRuntime) -> Result<(), Fail> {
    assert_eq!(rt; INSTANCE.len(), 83);
    for count in 0..84 {
        let part = INSTANCE.get(..count).unwrap_or(b"");
        assert!(rt;
            is_answered(rt.alloc(), part, answer_at(count))?,
            "at {count}"
        );
    }
    Ok(())
}
