//! Arc lines of the plain form at the front of a text, read in one pass up to the byte that ends
//! them: `a` and numbers of at most eighteen digits, with one blank before each, and at most one at
//! the end. Other lines, and lines with a fault, are read by their fields, with the same result.
ghost use Rattle.std.specs.Prelude.{◌≡◌, ◌<◌, ◌≤◌, IfSome, IsTrue, length};
ghost use Rattle.mcf_instance.specs.Private.PlainLines.{BeginsArc, BlankAt, EndsLine, HasDigits, HasField, HasLastField, SaysArc};
ghost use Rattle.mcf_text.specs.Fields.{is_blank};

use crate::reader::line::ArcNumbers;
use mcf_flows::Problem;
use mcf_text::leading_digits;

// A number, and the place after it.
#[derive(Clone, Copy)]
struct PlainNumber {
    value: i64,
    place: usize,
}

/// The numbers of an arc line, and the place of the byte that ends the line.
#[derive(Clone, Copy)]
pub(crate) struct PlainArc {
    pub(crate) numbers: ArcNumbers,
    pub(crate) end: usize,
}

#[inline(always)]
fn is_blank(byte: u8) -> bool
    ensures { result ≡ is_blank byte }
{
    byte == b' ' || byte == b'\t' || byte == b'\r'
}

/// Whether a text begins with `a` and a blank.
#[inline(always)]
pub(crate) fn begins_arc(text: &[u8]) -> bool
    ensures { IsTrue result → BeginsArc text.now }
{
    2 <= text.len() && text[0] == b'a' && is_blank(text[1])
}

// The minus sign and the digits that begin at this place, and the place after them.
#[inline(never)]
fn minus_digits(text: &[u8], start: usize) -> Option<PlainNumber>
    requires { start ≤ length text.now }
    ensures { IfSome result (λ n. HasDigits text.now start n.place n.value) }
{
    if start == text.len() || text[start] != b'-' {
        return None;
    }
    let digits = leading_digits(&text[start + 1..]);
    if digits.count == 0 {
        return None;
    }
    Some(PlainNumber {
        value: -(digits.value as i64),
        place: start + 1 + digits.count,
    })
}

// The digits that begin at this place, after a minus sign or none, and the place after them.
#[inline(always)]
fn digits_at(text: &[u8], start: usize) -> Option<PlainNumber>
    requires { start ≤ length text.now }
    ensures { IfSome result (λ n. HasDigits text.now start n.place n.value) }
{
    let digits = leading_digits(&text[start..]);
    if digits.count == 0 {
        return minus_digits(text, start);
    }
    Some(PlainNumber {
        value: digits.value as i64,
        place: start + digits.count,
    })
}

// The place after the blank that is here.
#[inline(always)]
fn past_blank(text: &[u8], stop: usize) -> Option<usize>
    requires { stop ≤ length text.now }
    ensures { IfSome result (λ next. BlankAt text.now stop next) }
{
    if stop < text.len() && text[stop] == b' ' {
        return Some(stop + 1);
    }
    past_any_blank(text, stop)
}

// The same for each blank.
#[inline(never)]
fn past_any_blank(text: &[u8], stop: usize) -> Option<usize>
    requires { stop ≤ length text.now }
    ensures { IfSome result (λ next. BlankAt text.now stop next) }
{
    if stop < text.len() && is_blank(text[stop]) {
        return Some(stop + 1);
    }
    None
}

// The number that begins at this place, and the place after the blank that follows it.
#[inline(always)]
fn number_at(text: &[u8], start: usize) -> Option<PlainNumber>
    requires { start ≤ length text.now }
    ensures { IfSome result (λ n. HasField text.now start n.place n.value) }
{
    let digits = digits_at(text, start)?;
    let place = past_blank(text, digits.place)?;
    Some(PlainNumber {
        value: digits.value,
        place,
    })
}

// The place of the byte that ends the line whose last field ends here.
#[inline(always)]
fn line_end(text: &[u8], stop: usize) -> Option<usize>
    requires { stop ≤ length text.now }
    ensures { IfSome result (λ end. EndsLine text.now stop end) }
{
    if stop < text.len() && text[stop] == b'\n' {
        return Some(stop);
    }
    line_end_past_blank(text, stop)
}

// The same if a blank follows that field, as in files from other systems.
#[inline(never)]
fn line_end_past_blank(text: &[u8], stop: usize) -> Option<usize>
    requires { stop ≤ length text.now }
    ensures { IfSome result (λ end. EndsLine text.now stop end) }
{
    let next = past_any_blank(text, stop)?;
    if next < text.len() && text[next] == b'\n' {
        return Some(next);
    }
    None
}

// The number that begins at this place, and the place of the byte right after it that ends the
// line.
#[inline(always)]
fn last_number_at(text: &[u8], start: usize) -> Option<PlainNumber>
    requires { start ≤ length text.now }
    ensures { IfSome result (λ n. HasLastField text.now start n.place n.value) }
{
    let digits = digits_at(text, start)?;
    let place = line_end(text, digits.place)?;
    Some(PlainNumber {
        value: digits.value,
        place,
    })
}

/// The first line of a text that begins like an arc line, if that line is a plain one of an
/// assignment.
#[inline(always)]
pub(crate) fn plain_pair(text: &[u8]) -> Option<PlainArc>
    requires { BeginsArc text.now }
    ensures { IfSome result (λ p. SaysArc Problem.Asn text.now p.numbers p.end) }
{
    let src = number_at(text, 2)?;
    let dst = number_at(text, src.place)?;
    let cost = last_number_at(text, dst.place)?;
    let numbers = ArcNumbers {
        src: src.value,
        dst: dst.value,
        low: 0,
        cap: 1,
        cost: cost.value,
    };
    Some(PlainArc {
        numbers,
        end: cost.place,
    })
}

/// The same for the flow problem.
#[inline(always)]
pub(crate) fn plain_link(text: &[u8]) -> Option<PlainArc>
    requires { BeginsArc text.now }
    ensures { IfSome result (λ p. SaysArc Problem.Min text.now p.numbers p.end) }
{
    let src = number_at(text, 2)?;
    let dst = number_at(text, src.place)?;
    let low = number_at(text, dst.place)?;
    let cap = number_at(text, low.place)?;
    let cost = last_number_at(text, cap.place)?;
    let numbers = ArcNumbers {
        src: src.value,
        dst: dst.value,
        low: low.value,
        cap: cap.value,
        cost: cost.value,
    };
    Some(PlainArc {
        numbers,
        end: cost.place,
    })
}
