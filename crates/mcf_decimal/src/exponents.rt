//! Numbers that are written with an exponent.
ghost use Rattle.std.specs.Prelude.{◌≡◌, position};
ghost use Rattle.mcf_text.specs.Whole.{is_whole};
ghost use Rattle.mcf_decimal.specs.Cuts.{IsCut};
ghost use Rattle.mcf_decimal.specs.Exponents.{is_e, is_exponent, is_factor, is_mark};

use crate::cuts::split_at;
use crate::groups::all_digits;
use crate::signs::split_sign;

// Whether the cell is a number with an exponent, as 1.5e3.
#[tactic(auto, unfolding(crate::specs::Exponents::is_exponent))]
pub(crate) fn is_exponent(cell: &[u8]) -> bool
    ensures { result ≡ is_exponent cell.now }
{
    let (_, body) = split_sign(cell);
    let (factor, exponent) = split_at_e(body);
    is_factor(factor) && is_whole(exponent)
}

// Whether the bytes are digits, and perhaps a mark and digits or none after it.
#[tactic(auto, unfolding(crate::specs::Exponents::is_factor))]
fn is_factor(bytes: &[u8]) -> bool
    ensures { result ≡ is_factor bytes.now }
{
    let (whole, decimals) = split_at_any_mark(bytes);
    !whole.is_empty() && all_digits(whole) && all_digits(decimals)
}

// Whether the bytes are a sign or none, and then one digit or more.
fn is_whole(bytes: &[u8]) -> bool
    ensures { result ≡ is_whole bytes.now }
{
    let digits = match bytes {
        [b'-' | b'+', digits @ ..] => digits,
        _ => bytes,
    };
    !digits.is_empty() && all_digits(digits)
}

// What stands before the first `e`, or all bytes; and what stands after it, or nothing.
fn split_at_e(bytes: &[u8]) -> (&[u8], &[u8])
    ensures { IsCut is_e bytes.now result.0.now result.1.now }
{
    let place = first_e(bytes);
    split_at(bytes, place)
}

// What stands before the first mark, or all bytes; and what stands after it, or nothing.
fn split_at_any_mark(bytes: &[u8]) -> (&[u8], &[u8])
    ensures { IsCut is_mark bytes.now result.0.now result.1.now }
{
    let place = first_mark(bytes);
    split_at(bytes, place)
}

// The place of the first `e`.
fn first_e(bytes: &[u8]) -> Option<usize>
    ensures { result ≡ position is_e bytes.now }
{
    bytes.iter().position(|byte| *byte == b'e' || *byte == b'E')
}

// The place of the first mark.
fn first_mark(bytes: &[u8]) -> Option<usize>
    ensures { result ≡ position is_mark bytes.now }
{
    bytes.iter().position(|byte| *byte == b'.' || *byte == b',')
}
