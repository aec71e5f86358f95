//! What a cell says under one mark.
ghost use Rattle.std.specs.Prelude.{◌≡◌, ◌-◌, ◌+◌, ◌*◌, ◌^◌, ◌≤◌, ℕ, true, IsTrue, IsFalse, min, filter, length, position, FitsSigned};
ghost use Rattle.std.specs.Char.{is_ascii_digit};
ghost use Rattle.std.specs.Int.{w128};
ghost use Rattle.std.specs.List.{suffix_len};
ghost use Rattle.std.specs.Option.{SomeIff};
ghost use Rattle.mcf_text.specs.Whole.{digits_sum, signed_value};
ghost use Rattle.mcf_decimal.specs.Marks.{is_byte_of};
ghost use Rattle.mcf_decimal.specs.Numbers.{decimals, has_mark, is_number, is_whole_part, is_zero, number_value, whole_part};

use crate::cuts::split_at;
use crate::decimal::Decimal;
use crate::groups::{is_digits, is_grouped};
use crate::mark::Mark;
use crate::signs::split_sign;

// A cell after its sign, cut at the first mark.
#[derive(Clone, Copy)]
pub(crate) struct Parts<'t> {
    // What stands before the mark, or all bytes.
    pub(crate) whole: &'t [u8],
    // What stands after the mark, or nothing.
    pub(crate) decimals: &'t [u8],
    // Whether the mark is there.
    pub(crate) has_mark: bool,
}

// Cuts bytes at the first mark.
pub(crate) fn split_at_mark(mark: Mark, bytes: &[u8]) -> Parts<'_>
    ensures whole { result.whole.now ≡ whole_part mark bytes.now }
    ensures decimals { result.decimals.now ≡ decimals mark bytes.now }
    ensures inside { length result.decimals.now ≤ length bytes.now }
    ensures has_mark { result.has_mark ≡ has_mark mark bytes.now }
{
    let place = first_of(mark, bytes);
    let (whole, decimals) = split_at(bytes, place);
    let has_mark = place.is_some();
    Parts {
        whole,
        decimals,
        has_mark,
    }
}

// The place of the first byte that writes the mark.
fn first_of(mark: Mark, bytes: &[u8]) -> Option<usize>
    ensures { result ≡ position (is_byte_of mark) bytes.now }
{
    let byte = mark.byte();
    bytes.iter().position(|b| *b == byte)
}

// Whether the cell is a number, if this mark stands before decimals.
#[tactic(auto, unfolding(crate::specs::Numbers::is_number))]
pub(crate) fn is_number(mark: Mark, cell: &[u8]) -> bool
    ensures { result ≡ is_number mark cell.now }
{
    let (_, body) = split_sign(cell);
    let parts = split_at_mark(mark, body);
    if parts.has_mark {
        let is_led = parts.whole.is_empty() || is_whole_part(mark, parts.whole);
        is_led && is_digits(parts.decimals)
    } else {
        is_whole_part(mark, body)
    }
}

// Whether the bytes are digits, or digits with the other mark or blanks between thousands.
#[tactic(auto, unfolding(crate::specs::Numbers::is_whole_part))]
fn is_whole_part(mark: Mark, bytes: &[u8]) -> bool
    ensures { result ≡ is_whole_part mark bytes.now }
{
    is_digits(bytes) || is_grouped(Some(mark.other()), bytes) || is_grouped(None, bytes)
}

// The number that the cell says, which is one under this mark; `None` if its digits don't fit.
pub(crate) fn number_value(mark: Mark, cell: &[u8]) -> Option<Decimal>
    requires { is_number mark cell.now ≡ true }
    ensures { SomeIff result (FitsSigned w128 ((number_value mark cell.now).mantissa)) (number_value mark cell.now) }
{
    let (is_negative, body) = split_sign(cell);
    let parts = split_at_mark(mark, body);
    let zeros = end_zeros(parts.decimals);
    let size = magnitude(&body[..body.len() - zeros]);
    let mantissa = signed(is_negative, size)?;
    let places = (parts.decimals.len() - zeros) as u32;
    Some(Decimal { mantissa, places })
}

// How many zeros end the bytes.
pub(crate) fn end_zeros(bytes: &[u8]) -> usize
    ensures value { result ≡ suffix_len is_zero bytes.now }
    ensures inside { result ≤ length bytes.now }
{
    let mut len = bytes.len();
    'zeros: while 0 < len {
        if bytes[len - 1] != b'0' {
            return bytes.len() - len;
        }
        len -= 1;
    }
    bytes.len()
}

// The number that the digits among the bytes spell, or the greatest `u128` if it is greater.
fn magnitude(bytes: &[u8]) -> u128
    ensures { result ≡ min (digits_sum (filter is_ascii_digit bytes.now)) (2 ^ 128 - 1) }
{
    let mut sum = 0u128;
    for byte in bytes {
        sum = with_byte(sum, *byte);
    }
    sum
}

// The number with one more digit, capped; the same number, if the byte is no digit.
fn with_byte(sum: u128, byte: u8) -> u128
    ensures digit { IsTrue (is_ascii_digit byte) → (n : ℕ) → sum ≡ min n (2 ^ 128 - 1) →
        result ≡ min (n * 10 + (byte - 48)) (2 ^ 128 - 1) }
    ensures other { IsFalse (is_ascii_digit byte) → result ≡ sum }
{
    if !byte.is_ascii_digit() {
        return sum;
    }
    sum.saturating_mul(10)
        .saturating_add(u128::from(byte - b'0'))
}

// The number of this size with its sign, if it fits. A capped size is the greatest `u128`, which
// doesn't fit.
fn signed(is_negative: bool, magnitude: u128) -> Option<i128>
    ensures { (size : ℕ) → magnitude ≡ min size (2 ^ 128 - 1) →
        SomeIff result (FitsSigned w128 (signed_value is_negative size)) (signed_value is_negative size) }
{
    if is_negative {
        0i128.checked_sub_unsigned(magnitude)
    } else {
        0i128.checked_add_unsigned(magnitude)
    }
}
