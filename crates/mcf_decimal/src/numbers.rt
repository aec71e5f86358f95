//! What a cell says as a number, and which mark it shows.
ghost use Rattle.std.specs.Prelude.{◌≡◌, IfOk, IfErr};
ghost use Rattle.std.specs.List.{list_any};
ghost use Rattle.mcf_decimal.specs.Exponents.{is_mark};
ghost use Rattle.mcf_decimal.specs.Numbers.{IsFault, IsNumber, is_either, is_open, mark_in, mark_inside, read_number, text_fault};
ghost use Rattle.mcf_decimal.specs.Signs.{unsigned};

use crate::cells::{is_number, number_value, split_at_mark};
use crate::decimal::Decimal;
use crate::exponents::is_exponent;
use crate::fault::NumberFault;
use crate::mark::Mark;
use crate::signs::split_sign;

/// Reads a cell as a number: a sign or none, digits, and perhaps a mark and decimals. The other
/// mark or blanks and apostrophes may stand between thousands. The mark before decimals is the one
/// that is settled, or a point if none is. The decimal has no zeros at its end.
///
/// # Errors
///
/// `Either` if no mark is settled and the cell is another number under each; `TooLong` if the
/// digits don't fit 128 bits; or else, for no number, `Empty`, `Exponent`, `OtherMark` (a number,
/// if the other mark stands before decimals) or `NoNumber`, the first that is so.
#[tactic(auto, unfolding(crate::specs::Numbers::read_number))]
pub fn number(cell: &[u8], mark: Option<Mark>) -> Result<Decimal, NumberFault>
    ensures ok { IfOk result (IsNumber mark cell.now) }
    ensures err { IfErr result (IsFault mark cell.now) }
    ensures value { result ≡ read_number mark cell.now }
{
    if is_open(mark, cell) {
        return Err(NumberFault::Either);
    }
    let point = mark.unwrap_or(Mark::Point);
    if !is_number(point, cell) {
        return Err(text_fault(point, cell));
    }
    match number_value(point, cell) {
        Some(number) => Ok(number),
        None => Err(NumberFault::TooLong),
    }
}

/// The mark that a cell shows: the one under which alone it is a number, or the one in it, as for
/// 0.125. A whole number shows none, a number that may be either of two (as 1.500) shows none, and
/// neither does a cell that is no number.
#[tactic(auto, unfolding(crate::specs::Numbers::mark_in))]
pub fn mark_in(cell: &[u8]) -> Option<Mark>
    ensures { result ≡ mark_in cell.now }
{
    if is_either(cell) {
        return None;
    }
    let by_point = is_number(Mark::Point, cell);
    let by_comma = is_number(Mark::Comma, cell);
    if by_point && by_comma {
        mark_inside(cell)
    } else if by_point {
        Some(Mark::Point)
    } else if by_comma {
        Some(Mark::Comma)
    } else {
        None
    }
}

// Whether no mark is settled, and the cell is another number under each.
#[tactic(auto, unfolding(crate::specs::Numbers::is_open))]
fn is_open(mark: Option<Mark>, cell: &[u8]) -> bool
    ensures { result ≡ is_open mark cell.now }
{
    mark.is_none() && is_either(cell)
}

// Whether the cell is another number under each mark.
#[tactic(auto, unfolding(crate::specs::Numbers::is_either))]
fn is_either(cell: &[u8]) -> bool
    ensures { result ≡ is_either cell.now }
{
    let (_, body) = split_sign(cell);
    if body.starts_with(b"0") || !has_any_mark(body) {
        return false;
    }
    is_number(Mark::Point, cell) && is_number(Mark::Comma, cell)
}

// Whether a mark stands among the bytes.
fn has_any_mark(bytes: &[u8]) -> bool
    ensures { result ≡ list_any is_mark bytes.now }
{
    bytes.iter().any(|byte| *byte == b'.' || *byte == b',')
}

// Why a cell, which is no number under this mark, is none.
#[tactic(auto, unfolding(crate::specs::Numbers::text_fault))]
fn text_fault(mark: Mark, cell: &[u8]) -> NumberFault
    ensures { result ≡ text_fault mark cell.now }
{
    if cell.is_empty() {
        NumberFault::Empty
    } else if is_exponent(cell) {
        NumberFault::Exponent
    } else if is_number(mark.other(), cell) {
        NumberFault::OtherMark
    } else {
        NumberFault::NoNumber
    }
}

// The mark in the cell after its sign, if there is one.
#[tactic(auto, unfolding(crate::specs::Numbers::mark_inside))]
fn mark_inside(cell: &[u8]) -> Option<Mark>
    ensures { result ≡ mark_inside (unsigned cell.now) }
{
    let (_, body) = split_sign(cell);
    if split_at_mark(Mark::Point, body).has_mark {
        Some(Mark::Point)
    } else if split_at_mark(Mark::Comma, body).has_mark {
        Some(Mark::Comma)
    } else {
        None
    }
}
