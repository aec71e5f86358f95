//! How many a person takes, or a thing needs, as a cell says it.
ghost use Rattle.std.specs.Prelude.{◌≡◌, ◌≤◌, length};
ghost use Rattle.mcf_roster_reading.specs.Sayings.{after_separator, begins_space, is_same, numeral, ranged, said_kind, saying_of, separator_len, single, unspaced};

use crate::cells::is_filled;
use crate::kinds::FaultKind;
use mcf_text::leading_digits;

/// How many a person takes, or a thing needs, as a cell says it, in at most eighteen digits.
#[derive(Clone, Copy, Debug, PartialEq, Eq)]
pub enum Saying {
    /// A single number.
    Number(u64),
    /// The first number to the second, which isn't below it.
    Range(u64, u64),
}

// The number that the bytes write, if they are one to eighteen digits.
fn numeral(bytes: &[u8]) -> Option<u64>
    ensures { result ≡ numeral bytes.now }
{
    let lead = leading_digits(bytes);
    if lead.count == bytes.len() && 0 < lead.count {
        Some(lead.value)
    } else {
        None
    }
}

// The bytes without the spaces in front.
fn unspaced(bytes: &[u8]) -> &[u8]
    ensures { result.now ≡ unspaced bytes.now }
{
    let mut rest = bytes;
    'spaces: while is_space(rest) {
        rest = &rest[1..];
    }
    rest
}

// Whether the bytes begin with a space.
fn is_space(bytes: &[u8]) -> bool
    ensures { result ≡ begins_space bytes.now }
{
    !bytes.is_empty() && bytes[0] == b' '
}

// How long the separator of a range is with which the bytes begin; 0 if they begin with none.
fn separator_len(bytes: &[u8]) -> usize
    ensures value { result ≡ separator_len bytes.now }
    ensures inside { result ≤ length bytes.now }
{
    if bytes.starts_with(b"-") {
        1
    } else if bytes.starts_with(b"\xE2\x80\x93") {
        3
    } else if bytes.starts_with(b"..") {
        2
    } else if bytes.starts_with(b"to") {
        2
    } else if bytes.starts_with(b"bis") {
        3
    } else {
        0
    }
}

// What follows the separator of a range, without spaces; nothing if no separator stands in front.
fn after_separator(bytes: &[u8]) -> &[u8]
    ensures { result.now ≡ after_separator bytes.now }
{
    let len = separator_len(bytes);
    if len == 0 {
        &[]
    } else {
        unspaced(&bytes[len..])
    }
}

// A single number.
fn single(number: Option<u64>) -> Option<Saying>
    ensures { result ≡ single number }
{
    match number {
        Some(number) => Some(Saying::Number(number)),
        None => None,
    }
}

// A range, unless it is none.
fn ranged(least: Option<u64>, most: Option<u64>) -> Option<Saying>
    ensures { result ≡ ranged least most }
{
    match (least, most) {
        (Some(least), Some(most)) if least <= most => Some(Saying::Range(least, most)),
        _ => None,
    }
}

// What a cell says, if it is a number or a range.
pub(crate) fn saying_of(cell: &[u8]) -> Option<Saying>
    ensures { result ≡ saying_of cell.now }
{
    let count = leading_digits(cell).count;
    let front = &cell[..count];
    let rest = &cell[count..];
    if rest.is_empty() {
        single(numeral(front))
    } else {
        ranged(numeral(front), numeral(after_separator(unspaced(rest))))
    }
}

// Whether both say the same.
fn is_same(one: Saying, other: Saying) -> bool
    ensures { result ≡ is_same one other }
{
    match (one, other) {
        (Saying::Number(a), Saying::Number(b)) => a == b,
        (Saying::Range(a, b), Saying::Range(c, d)) => a == c && b == d,
        _ => false,
    }
}

// What is wrong with a cell, if this is said first.
pub(crate) fn said_kind(cell: &[u8], first: Option<Saying>) -> Option<FaultKind>
    ensures { result ≡ said_kind cell.now first }
{
    if !is_filled(cell) {
        return None;
    }
    match (saying_of(cell), first) {
        (None, _) => Some(FaultKind::NoRange),
        (Some(said), Some(first)) if is_same(said, first) => None,
        _ => Some(FaultKind::TwoRanges),
    }
}
