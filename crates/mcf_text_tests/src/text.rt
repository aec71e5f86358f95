//! What no clause says: values from the rules of the format, printed text, and each call with
//! ample memory.
use mcf_text::{
    ArcId, NoMemory, NodeId, Whole, copies, fields, ids_are_ordered_by_number, is_kept, lines,
    put_number, split_line, whole,
};
use std::test::Fail;

// Whether the lines of a text are these, with their numbers, and no more come after them.
fn has_lines(text: &[u8], want: &[(u128, &[u8])]) -> bool {
    let mut rest = lines(text);
    for (number, bytes) in want {
        let Some(line) = rest.next() else {
            return false;
        };
        let is_same = line.bytes == *bytes;
        if line.number != *number || !is_same {
            return false;
        }
    }
    let is_end = rest.next().is_none();
    let is_still_end = rest.next().is_none();
    is_end && is_still_end
}

static NUMBERED: [(u128, &[u8]); 3] = [(1, b"c one"), (2, b""), (3, b"\rp min 2 1")];

#[test]
fn lines_are_numbered(rt: HostRuntime) -> Result<(), Fail> {
    assert!(rt; has_lines(b"c one\n\n\rp min 2 1", &NUMBERED));
    Ok(())
}

// Whether a text is split into this first line and these bytes behind the end of it.
fn splits(text: &[u8], line: &[u8], rest: &[u8]) -> bool {
    let Some((first, behind)) = split_line(text) else {
        return false;
    };
    let is_line = first == line;
    let is_rest = behind == rest;
    is_line && is_rest
}

// Texts, the first line of each, and what is behind the end of that.
static SPLITS: [(&[u8], &[u8], &[u8]); 3] = [
    (b"c one\n\n\rp", b"c one", b"\n\rp"),
    (b"\nlast", b"", b"last"),
    (b"last", b"last", b""),
];

#[test]
fn the_first_line_is_split_off(rt: HostRuntime) {
    for (text, line, rest) in &SPLITS {
        assert!(rt; splits(text, line, rest));
    }
    assert!(rt; split_line(b"").is_none());
}

static LINE_COUNTS: [(&[u8], usize); 8] = [
    (b"", 0),
    (b"\n", 1),
    (b"a", 1),
    (b"a\n", 1),
    (b"a\n\n", 2),
    (b"\na", 2),
    (b"a\r\nb", 2),
    (b"a\rb\x0bc\x0cd\0e\xfff", 1),
];

#[test]
fn lines_end_at_line_feeds_alone(rt: HostRuntime) {
    for (text, count) in &LINE_COUNTS {
        assert!(rt; lines(text).count() == *count);
    }
}

// Whether the fields of a line are these, and no more come after them.
fn has_fields(line: &[u8], want: &[&[u8]]) -> bool {
    let mut rest = fields(line);
    for bytes in want {
        if rest.next() != Some(*bytes) {
            return false;
        }
    }
    let is_end = rest.next().is_none();
    let is_still_end = rest.next().is_none();
    is_end && is_still_end
}

static FIELDS: [(&[u8], &[&[u8]]); 4] = [
    (
        b" \ta  1\x0b2\x0c3\x004\xff5\r",
        &[b"a", b"1\x0b2\x0c3\x004\xff5"],
    ),
    (b"", &[]),
    (b" \t\r", &[]),
    (b"p min 2 1", &[b"p", b"min", b"2", b"1"]),
];

#[test]
fn fields_stand_between_blanks(rt: HostRuntime) -> Result<(), Fail> {
    for (line, want) in &FIELDS {
        assert!(rt; has_fields(line, want));
    }
    Ok(())
}

static KEPT: [(&[u8], bool); 7] = [
    (b"", false),
    (b" \t\r", false),
    (b"c", false),
    (b" comment", false),
    (b"C", true),
    (b"a c", true),
    (b"\x0c", true),
];

#[test]
fn blank_lines_and_comments_are_not_kept(rt: HostRuntime) {
    for (line, want) in &KEPT {
        assert!(rt; is_kept(line) == *want);
    }
}

static FROM_MINUS_NINE_TO_NINE: [(&[u8], Whole); 18] = [
    (b"+007", Whole::Value(7)),
    (b"0", Whole::Value(0)),
    (b"-0", Whole::Value(0)),
    (b"-9", Whole::Value(-9)),
    (b"9", Whole::Value(9)),
    (b"-10", Whole::OutOfRange),
    (b"10", Whole::OutOfRange),
    (b"", Whole::NotWhole),
    (b"-", Whole::NotWhole),
    (b"+", Whole::NotWhole),
    (b"+-1", Whole::NotWhole),
    (b"1x", Whole::NotWhole),
    (b"1.0", Whole::NotWhole),
    (b"1e3", Whole::NotWhole),
    (b"0x1", Whole::NotWhole),
    (
        b"1111111111111111111111111111111111111111",
        Whole::OutOfRange,
    ),
    (
        b"-1111111111111111111111111111111111111111",
        Whole::OutOfRange,
    ),
    (b"111111111111111111111111111111111111111x", Whole::NotWhole),
];

#[test]
fn whole_numbers(rt: HostRuntime) {
    for (field, want) in &FROM_MINUS_NINE_TO_NINE {
        assert!(rt; whole(field, -9, 9) == *want);
    }
}

static OF_ANY_SIZE: [(&[u8], Whole); 9] = [
    (b"12345678901234567", Whole::Value(12_345_678_901_234_567)),
    (b"99999999999999999", Whole::Value(99_999_999_999_999_999)),
    (b"123456789012345678", Whole::Value(123_456_789_012_345_678)),
    (
        b"18446744073709551616",
        Whole::Value(18_446_744_073_709_551_616),
    ),
    (
        b"170141183460469231731687303715884105727",
        Whole::Value(i128::MAX),
    ),
    (
        b"-170141183460469231731687303715884105728",
        Whole::Value(i128::MIN),
    ),
    (
        b"170141183460469231731687303715884105728",
        Whole::OutOfRange,
    ),
    (
        b"-170141183460469231731687303715884105729",
        Whole::OutOfRange,
    ),
    (
        b"340282366920938463463374607431768211456",
        Whole::OutOfRange,
    ),
];

#[test]
fn whole_numbers_of_all_lengths(rt: HostRuntime) {
    for (field, want) in &OF_ANY_SIZE {
        assert!(rt; whole(field, i128::MIN, i128::MAX) == *want);
    }
}

static OF_EMPTY_RANGES: [(&[u8], i128, i128, Whole); 3] = [
    (b"0", 1, -1, Whole::OutOfRange),
    (b"0", i128::MAX, i128::MIN, Whole::OutOfRange),
    (b"x", 1, -1, Whole::NotWhole),
];

#[test]
fn an_empty_range_has_no_number(rt: HostRuntime) {
    for (field, low, high, want) in &OF_EMPTY_RANGES {
        assert!(rt; whole(field, *low, *high) == *want);
    }
}

// Whether a field of zeros is 0, with a 7 behind them 7, and with a sign behind that no number.
fn are_zeros_passed(field: &mut Vec<u8>) -> Result<bool, NoMemory> {
    let zeros = whole(field.as_slice(), 0, 9);
    field.push(b'7')?;
    let seven = whole(field.as_slice(), 0, 9);
    field.push(b'-')?;
    let sign = whole(field.as_slice(), 0, 9);
    Ok(zeros == Whole::Value(0) && seven == Whole::Value(7) && sign == Whole::NotWhole)
}

#[test]
fn a_million_zeros_may_stand_in_front(rt: HostRuntime) -> Result<(), Fail> {
    let mut field = copies(rt.alloc(), 1_000_000, b'0')?;
    assert!(rt; are_zeros_passed(&mut field)?);
    Ok(())
}

// Numbers with a space after each, as a caller with `NoMemory` as its error would write them.
fn put_numbers(out: &mut Vec<u8>, numbers: &[i128]) -> Result<(), NoMemory> {
    for number in numbers {
        put_number(out, *number)?;
        out.push(b' ')?;
    }
    Ok(())
}

const APPENDED: &[u8] =
    b"keep -120 0 170141183460469231731687303715884105727 -170141183460469231731687303715884105728 ";

// Each allocation of this is refused in turn, by `scripts/refuse_memory.py`, as those of worked
// rows are.
#[test]
fn six_rows_of_numbers_are_appended(rt: HostRuntime) -> Result<(), Fail> {
    let mut out = b"keep ".to_vec(rt.alloc())?;
    put_numbers(&mut out, &[-120, 0, i128::MAX, i128::MIN])?;
    assert!(rt; out.as_slice() == APPENDED);
    Ok(())
}

// The sum of the numbers from -100 to 100 in the kept lines of a text, as a caller would write it.
fn sum_of(text: &[u8]) -> i128 {
    let mut sum = 0i128;
    for line in lines(text) {
        if !is_kept(line.bytes) {
            continue;
        }
        for field in fields(line.bytes) {
            if let Whole::Value(value) = whole(field, -100, 100) {
                sum = sum.saturating_add(value);
            }
        }
    }
    sum
}

#[test]
fn a_caller_loops_over_lines_and_fields(rt: HostRuntime) {
    let text = b"c 1 2 3\np min 2 1\n\n \r\nn 1 +7\r\n  a 1 2 -50 1000 x8\nc 9\nn 2 -7";
    assert!(rt; sum_of(text) == -41);
}

#[test]
fn want_of_memory_is_shown(rt: HostRuntime) -> Result<(), Fail> {
    let text = format!(in rt.alloc(); "{}", NoMemory)?;
    assert!(rt; text.as_str() == "out of memory");
    Ok(())
}

// Whether nodes and arcs are ordered by their numbers.
fn are_ordered() -> bool {
    let nodes = NodeId::new(1) < NodeId::new(2);
    let arcs = ArcId::new(1) < ArcId::new(2);
    let more_nodes = NodeId::new(9) < NodeId::new(10);
    let more_arcs = ArcId::new(9) < ArcId::new(10);
    nodes && arcs && more_nodes && more_arcs
}

// Whether they have the numbers and the places that they are made of.
fn are_numbered() -> bool {
    NodeId::new(7).get() == 7
        && ArcId::new(3).get() == 3
        && NodeId::at(0) == NodeId::new(1)
        && ArcId::at(6) == ArcId::new(7)
        && NodeId::new(7).place() == 6
        && ArcId::new(1).place() == 0
}

#[test]
fn numbers_of_nodes_and_arcs(rt: HostRuntime) {
    assert!(rt; are_ordered() && are_numbered());
    ids_are_ordered_by_number();
}

// Whether a number makes a text longer, or none, if memory runs out and the text is as it was.
fn is_put(out: &mut Vec<u8>, number: i128) -> Option<bool> {
    let before = out.len();
    match put_number(out, number) {
        Ok(()) => Some(out.len() > before),
        Err(NoMemory) if out.len() == before => None,
        Err(NoMemory) => Some(false),
    }
}

#[test]
fn want_of_memory_leaves_the_text(rt: HostRuntime) -> Result<(), Fail> {
    let mut out = b"keep".to_vec(rt.alloc())?;
    let mut number = 1;
    for _ in 0..20 {
        let Some(is_put) = is_put(&mut out, number) else {
            return Ok(());
        };
        assert!(rt; is_put);
        number = number.saturating_mul(10);
    }
    Ok(())
}
