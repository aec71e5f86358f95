//! Digits, and whole numbers with something between their thousands.
ghost use Rattle.std.specs.Prelude.{◌≡◌, ◌≤◌, length, not, count_by, position, IsTrue, Some};
ghost use Rattle.std.specs.Char.{is_ascii_digit};
ghost use Rattle.std.specs.List.{list_all};
ghost use Rattle.mcf_decimal.specs.Groups.{are_groups, blanks, group_len, has_lead, has_triple, is_digits, is_grouped, lead, separators};
ghost use Rattle.mcf_decimal.specs.Signs.{front_len};

use crate::mark::Mark;

// A number has at most this many digits before its mark, and after it.
const DIGIT_LIMIT: usize = 1000;

// Whether the bytes are one digit or more, not too many, and nothing else.
#[tactic(auto, unfolding(crate::specs::Groups::is_digits))]
pub(crate) fn is_digits(bytes: &[u8]) -> bool
    ensures { result ≡ is_digits bytes.now }
{
    !bytes.is_empty() && bytes.len() <= DIGIT_LIMIT && all_digits(bytes)
}

// Whether each byte is a digit.
pub(crate) fn all_digits(bytes: &[u8]) -> bool
    ensures { result ≡ list_all is_ascii_digit bytes.now }
{
    bytes.iter().all(|byte| byte.is_ascii_digit())
}

// Whether the bytes are one to three digits and then groups, one or more, of a separator and three
// digits. The mark separates, or blanks do where there is none.
#[tactic(auto, unfolding(crate::specs::Groups::is_grouped))]
pub(crate) fn is_grouped(mark: Option<Mark>, bytes: &[u8]) -> bool
    ensures { result ≡ is_grouped (separators mark) bytes.now }
{
    let lead = lead(bytes);
    if !has_lead(bytes, lead) {
        return false;
    }
    digit_count(bytes) <= DIGIT_LIMIT && are_groups(mark, &bytes[lead..])
}

// Whether one to three digits stand at the front, and something follows.
#[tactic(auto, unfolding(crate::specs::Groups::has_lead))]
fn has_lead(bytes: &[u8], front: usize) -> bool
    requires { front ≡ lead bytes.now }
    ensures { result ≡ has_lead bytes.now }
{
    0 < front && front <= 3 && front < bytes.len()
}

// How many digits stand at the front.
fn lead(bytes: &[u8]) -> usize
    ensures value { result ≡ lead bytes.now }
    ensures inside { result ≤ length bytes.now }
{
    match first_other(bytes) {
        Some(place) => place,
        None => bytes.len(),
    }
}

// The place of the first byte that is no digit.
fn first_other(bytes: &[u8]) -> Option<usize>
    ensures { result ≡ position (λ b. not (is_ascii_digit b)) bytes.now }
{
    bytes.iter().position(|byte| !byte.is_ascii_digit())
}

// How many bytes are digits.
fn digit_count(bytes: &[u8]) -> usize
    ensures { result ≡ count_by is_ascii_digit bytes.now }
{
    bytes.iter().filter(|byte| byte.is_ascii_digit()).count()
}

// Whether the bytes are groups of a separator and three digits, or nothing.
fn are_groups(mark: Option<Mark>, bytes: &[u8]) -> bool
    ensures { result ≡ are_groups (separators mark) bytes.now }
{
    let mut rest = bytes;
    'groups: while !rest.is_empty() {
        let len = group_len(mark, rest);
        if len == 0 {
            return false;
        }
        rest = &rest[len..];
    }
    true
}

// How long the separator and the three digits are with which the bytes begin; 0 if they don't.
#[tactic(auto, unfolding(crate::specs::Groups::group_len))]
fn group_len(mark: Option<Mark>, bytes: &[u8]) -> usize
    ensures value { result ≡ group_len (separators mark) bytes.now }
    ensures inside { result ≤ length bytes.now }
{
    let len = separator_len(mark, bytes);
    if len == 0 {
        return 0;
    }
    if has_triple(&bytes[len..]) {
        len + 3
    } else {
        0
    }
}

// Whether the bytes begin with three digits.
#[tactic(auto, unfolding(crate::specs::Groups::has_triple))]
fn has_triple(bytes: &[u8]) -> bool
    ensures value { result ≡ has_triple bytes.now }
    ensures inside { IsTrue result → 3 ≤ length bytes.now }
{
    3 <= bytes.len() && all_digits(&bytes[..3])
}

// How long the separator is with which the bytes begin; 0 if they begin with none.
fn separator_len(mark: Option<Mark>, bytes: &[u8]) -> usize
    ensures value { result ≡ front_len (separators mark) bytes.now }
    ensures inside { result ≤ length bytes.now }
{
    match mark {
        Some(mark) => mark_len(mark, bytes),
        None => blank_len(bytes),
    }
}

// 1 if the bytes begin with the mark, or else 0.
fn mark_len(mark: Mark, bytes: &[u8]) -> usize
    ensures value { result ≡ front_len (separators (Some mark)) bytes.now }
    ensures inside { result ≤ length bytes.now }
{
    let begins = match mark {
        Mark::Point => bytes.starts_with(b"."),
        Mark::Comma => bytes.starts_with(b","),
    };
    usize::from(begins)
}

// How long the blank between thousands is with which the bytes begin; 0 if they begin with none.
fn blank_len(bytes: &[u8]) -> usize
    ensures value { result ≡ front_len blanks bytes.now }
    ensures inside { result ≤ length bytes.now }
{
    if bytes.starts_with(b" ") {
        1
    } else if bytes.starts_with(b"'") {
        1
    } else if bytes.starts_with(b"_") {
        1
    } else if bytes.starts_with(b"\xC2\xA0") {
        2
    } else if bytes.starts_with(b"\xE2\x80\x89") {
        3
    } else if bytes.starts_with(b"\xE2\x80\xAF") {
        3
    } else if bytes.starts_with(b"\xE2\x80\x99") {
        3
    } else {
        0
    }
}
