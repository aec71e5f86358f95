//! The first line of a text, and the first field of a line.
ghost use Rattle.std.specs.Prelude.{◌≡◌, ◌<◌, ◌≤◌, ◌⊎◌, [], ◌∷◌, ◌++◌, length, not, position, MatchOption};
ghost use Rattle.mcf_text.specs.Fields.{AreTheFields, begins_kept, fields_of, is_blank, is_kept};
ghost use Rattle.mcf_text.specs.Lines.{AreTheLines, line_feed, lines_of, numbered_lines};

use crate::parts::{Fields, Lines};
use memchr::memchr;

/// The lines of a text in order, numbered from 1. A line is the bytes before the next line feed;
/// bytes after the last line feed are a last line, and the empty text has no line.
pub fn lines(text: &[u8]) -> Lines<'_>
    ensures value { result ≡ numbered_lines 1 text.now }
    ensures exact { AreTheLines text.now (lines_of text.now) }
    ensures few { length result ≤ length text.now }
{
    Lines {
        rest: text,
        number: 1,
    }
}

/// The fields of a line in order: its longest runs of bytes other than spaces, tabs and carriage
/// returns. No field is empty, and a line of blanks has none.
pub fn fields(line: &[u8]) -> Fields<'_>
    ensures value { result ≡ fields_of line.now }
    ensures exact { AreTheFields line.now (fields_of line.now) }
    ensures few { length result ≤ length line.now }
    ensures kept { is_kept line.now ≡ begins_kept (fields_of line.now) }
{
    Fields { rest: line }
}

/// Whether a line is significant (kept): neither blank nor a comment. A blank line has no field,
/// and the first field of a comment begins with `c`.
pub fn is_kept(line: &[u8]) -> bool
    ensures { result ≡ is_kept line.now }
{
    match fields(line).next() {
        Some(first) => first[0] != b'c',
        None => false,
    }
}

/// The first line of a text and the bytes after its line feed, or `None` if the text is empty.
pub fn split_line(text: &[u8]) -> Option<(&[u8], &[u8])>
    ensures value { MatchOption result (text.now ≡ [])
        (λ parts. lines_of text.now ≡ parts.0.now ∷ lines_of parts.1.now) }
    ensures shorter { MatchOption result (text.now ≡ [])
        (λ parts. length parts.1.now < length text.now) }
    ensures ends { MatchOption result (text.now ≡ [])
        (λ parts. (text.now ≡ parts.0.now ++ line_feed ∷ parts.1.now) ⊎ ((text.now ≡ parts.0.now) × (parts.1.now ≡ []))) }
{
    if text.is_empty() {
        return None;
    }
    match memchr(b'\n', text) {
        Some(end) => Some((&text[..end], &text[end + 1..])),
        None => Some((text, &[])),
    }
}

// The first field of a line and the bytes after the blank that ends it, or `None` if the line has
// no field.
pub(crate) fn split_field(line: &[u8]) -> Option<(&[u8], &[u8])>
    ensures { MatchOption result (fields_of line.now ≡ [])
        (λ parts. fields_of line.now ≡ parts.0.now ∷ fields_of parts.1.now) }
{
    let start = first_run_byte(line)?;
    let field = &line[start..];
    match first_blank(field) {
        Some(end) => Some((&field[..end], &field[end + 1..])),
        None => Some((field, &[])),
    }
}

// The place of the first byte that isn't a blank.
fn first_run_byte(bytes: &[u8]) -> Option<usize>
    ensures { result ≡ position (λ b. not (is_blank b)) bytes.now }
{
    bytes.iter().position(|byte| !is_blank(*byte))
}

// The place of the first blank.
fn first_blank(bytes: &[u8]) -> Option<usize>
    ensures { result ≡ position is_blank bytes.now }
{
    bytes.iter().position(|byte| is_blank(*byte))
}

fn is_blank(byte: u8) -> bool
    ensures { result ≡ is_blank byte }
{
    byte == b' ' || byte == b'\t' || byte == b'\r'
}
