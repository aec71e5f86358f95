//! The field with which a text begins.
ghost use Rattle.std.specs.Prelude.{◌≡◌, ◌+◌, ◌<◌, ◌≤◌, ◌==◌, false, true, not, IfOk, IfErr, MatchOption, drop, length, position, IsTrue, IsFalse, slice_index};
ghost use Rattle.mcf_table.specs.Rows.{Breaks, begins_quoted, ends_field, quote, space};
ghost use Rattle.mcf_table.specs.Private.Found.{ClosesAt, EndsField, IsFirstField, IsOpen, IsPlainLen, NoQuote, OpensAt};

use crate::cuts::{first_end, first_of};
use crate::fault::FieldFault;

// The field with which a text begins.
#[derive(Clone, Copy)]
pub(crate) struct Field<'t> {
    // What stands in it, or between its quotes, where each quote is twice.
    pub(crate) content: &'t [u8],
    // Whether quotes enclose it.
    pub(crate) is_quoted: bool,
    // How long it is.
    pub(crate) len: usize,
}

// The field with which a text begins.
pub(crate) fn first_field(separator: u8, text: &[u8]) -> Result<Field<'_>, FieldFault>
    ensures ok { IfOk result (λ field. IsFirstField separator text.now field.content.now field.is_quoted field.len) }
    ensures err { IfErr result (Breaks separator text.now) }
{
    match open_quote(text) {
        Some(place) => quoted_field(separator, text, place),
        None => Ok(plain_field(separator, text)),
    }
}

// The field, which begins with no quote.
fn plain_field(separator: u8, text: &[u8]) -> Field<'_>
    requires { begins_quoted text.now ≡ false }
    ensures { IsFirstField separator text.now result.content.now result.is_quoted result.len }
{
    let len = plain_len(separator, text);
    Field {
        content: &text[..len],
        is_quoted: false,
        len,
    }
}

// How many bytes stand before the first that ends a field.
fn plain_len(separator: u8, text: &[u8]) -> usize
    ensures { IsPlainLen separator text.now result }
{
    match first_end(separator, text) {
        Some(place) => place,
        None => text.len(),
    }
}

// The place of the quote with which the text begins, if it begins with one after spaces.
fn open_quote(text: &[u8]) -> Option<usize>
    ensures { MatchOption result (begins_quoted text.now ≡ false) (λ place. OpensAt text.now place) }
{
    match first_other(text) {
        Some(place) if text[place] == b'"' => Some(place),
        _ => None,
    }
}

// The place of the first byte that is no space.
fn first_other(text: &[u8]) -> Option<usize>
    ensures { result ≡ position (λ b. not (b == space)) text.now }
{
    text.iter().position(|byte| *byte != b' ')
}

// The field that a quote at this place opens.
fn quoted_field(separator: u8, text: &[u8], start: usize) -> Result<Field<'_>, FieldFault>
    requires { OpensAt text.now start }
    ensures ok { IfOk result (λ field. IsFirstField separator text.now field.content.now field.is_quoted field.len) }
    ensures err { IfErr result (Breaks separator text.now) }
{
    let inside = &text[start + 1..];
    let Some(close) = closing_quote(inside) else {
        return Err(FieldFault::Unclosed);
    };
    let rest = &inside[close + 1..];
    if !ends_field(separator, rest) {
        return Err(FieldFault::AfterQuote);
    }
    Ok(Field {
        content: &inside[..close],
        is_quoted: true,
        len: text.len() - rest.len(),
    })
}

// Whether nothing follows a field, or something that ends it.
fn ends_field(separator: u8, rest: &[u8]) -> bool
    ensures yes { IsTrue result → EndsField separator rest.now }
    ensures no { IsFalse result → (0 < length rest.now) × (ends_field separator (slice_index rest.now 0) ≡ false) }
{
    rest.is_empty() || rest[0] == separator || rest[0] == b'\n'
}

// The place of the quote that closes the text, or none.
fn closing_quote(text: &[u8]) -> Option<usize>
    ensures { MatchOption result (IsOpen text.now) (λ place. ClosesAt text.now place) }
{
    let mut at = 0;
    'quotes: while let Some(place) = first_of(b'"', &text[at..]) {
        let close = at + place;
        if !is_quote(&text[close + 1..]) {
            return Some(close);
        }
        at = close + 2;
    }
    None
}

// Whether the first byte is a quote.
pub(crate) fn is_quote(text: &[u8]) -> bool
    ensures yes { IsTrue result → (0 < length text.now) × (slice_index text.now 0 ≡ quote) }
    ensures no { IsFalse result → NoQuote text.now }
{
    !text.is_empty() && text[0] == b'"'
}
