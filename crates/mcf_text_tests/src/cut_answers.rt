//! An answer that is cut short, and one with a number changed by one.
use crate::checking::{FOUR_NODES, LEAST, is_printed_of};
use mcf_text::{NoMemory, put_number};
use std::alloc::Global;
use std::test::Fail;

// From how many bytes of the answer on this is printed of them, up to the next row.
static CUTS: [(usize, &[u8]); 20] = [
    (0, b"rejected shape 1"),
    (3, b"rejected arc 1"),
    (6, b"rejected shape 2"),
    (12, b"rejected arc 2"),
    (14, b"rejected shape 3"),
    (20, b"rejected arc 3"),
    (22, b"rejected shape 4"),
    (28, b"rejected arc 4"),
    (30, b"rejected shape 5"),
    (36, b"rejected arc 5"),
    (38, b"rejected shape 6"),
    (44, b"rejected node 1"),
    (46, b"rejected shape 7"),
    (50, b"rejected node 2"),
    (52, b"rejected shape 8"),
    (57, b"rejected node 3"),
    (59, b"rejected shape 9"),
    (64, b"rejected node 4"),
    (66, b"rejected shape 10"),
    (71, b"accepted flow 14"),
];

// What is printed of this many bytes of the answer.
fn printed_at(count: usize) -> &'static [u8] {
    let mut printed = b"".as_slice();
    for (from, text) in &CUTS {
        if *from <= count {
            printed = text;
        }
    }
    printed
}

#[test]
fn an_answer_cut_at_each_byte(rt: HostRuntime) -> Result<(), Fail> {
    let answer = LEAST.as_bytes();
    assert_eq!(rt; answer.len(), 72);
    for count in 0..73 {
        let part = answer.get(..count).unwrap_or(b"");
        assert!(rt;
            is_printed_of(rt.alloc(), FOUR_NODES.as_bytes(), part, printed_at(count))?,
            "at {count}"
        );
    }
    Ok(())
}

// A line of the answer by what stands before its last number and that number, and what is printed
// where that is one more, and one less.
struct Line {
    start: &'static str,
    number: i128,
    raised: &'static str,
    lowered: &'static str,
}

static LINES: [Line; 9] = [
    Line {
        start: "f 1 2 ",
        number: 2,
        raised: "rejected node 1",
        lowered: "rejected node 1",
    },
    Line {
        start: "f 1 3 ",
        number: 2,
        raised: "rejected arc 2",
        lowered: "rejected node 1",
    },
    Line {
        start: "f 2 3 ",
        number: 2,
        raised: "rejected arc 3",
        lowered: "rejected node 2",
    },
    Line {
        start: "f 2 4 ",
        number: 0,
        raised: "rejected node 2",
        lowered: "rejected arc 4",
    },
    Line {
        start: "f 3 4 ",
        number: 4,
        raised: "rejected node 3",
        lowered: "rejected node 3",
    },
    Line {
        start: "y 1 ",
        number: 0,
        raised: "rejected price 1",
        lowered: "rejected price 1",
    },
    Line {
        start: "y 2 ",
        number: -2,
        raised: "rejected price 1",
        lowered: "rejected price 1",
    },
    Line {
        start: "y 3 ",
        number: -3,
        raised: "rejected price 3",
        lowered: "rejected price 5",
    },
    Line {
        start: "y 4 ",
        number: -4,
        raised: "rejected price 5",
        lowered: "rejected price 5",
    },
];

// Puts a line that ends with a number.
fn put_line(out: &mut Vec<u8>, start: &str, number: i128) -> Result<(), NoMemory> {
    out.extend_from_slice(start.as_bytes())?;
    put_number(out, number)?;
    out.push(b'\n')?;
    Ok(())
}

// The answer with the number of one line changed by so much.
fn changed(alloc: Global, place: usize, by: i128) -> Result<Vec<u8>, NoMemory> {
    let mut out = b"s 14\n".to_vec(alloc)?;
    for (at, line) in LINES.iter().enumerate() {
        let change = if at == place { by } else { 0 };
        put_line(&mut out, line.start, line.number.wrapping_add(change))?;
    }
    Ok(out)
}

// Whether this is printed of the answer with the number of one line changed by so much.
fn is_changed(alloc: Global, place: usize, by: i128, want: &str) -> Result<bool, NoMemory> {
    let answer = changed(alloc, place, by)?;
    is_printed_of(alloc, FOUR_NODES.as_bytes(), &answer, want.as_bytes())
}

#[test]
fn an_answer_with_one_number_changed(rt: HostRuntime) -> Result<(), Fail> {
    assert!(rt; changed(rt.alloc(), 0, 0)?.as_slice() == LEAST.as_bytes());
    for (place, line) in LINES.iter().enumerate() {
        assert!(rt;
            is_changed(rt.alloc(), place, 1, line.raised)?,
            "at {place}"
        );
        assert!(rt;
            is_changed(rt.alloc(), place, -1, line.lowered)?,
            "at {place}"
        );
    }
    Ok(())
}
