//! The separator that a text names in its first line.
ghost use Rattle.std.specs.Prelude.{◌≡◌, IfSome};
ghost use Rattle.mcf_table.specs.NamedSeparators.{is_end, may_separate, named_before, named_separator};
ghost use Rattle.mcf_table.specs.Rows.{IsSeparator};

use crate::blanks::trimmed;
use crate::line_ends::unmarked;
use crate::separators::first_line;

/// The separator that a text names, if the first line that isn't blank is `sep=` and the separator,
/// both between quotes or neither, and then blanks or nothing; `sep` may be in capitals. The
/// separator is a byte of ASCII: no space, no quote and no line end. `records_of` reads its line as
/// the first row.
pub fn named_separator(text: &[u8]) -> Option<u8>
    ensures value { result ≡ named_separator text.now }
    ensures allowed { IfSome result IsSeparator }
{
    let line = first_line(unmarked(text));
    if line.starts_with(b"\"") {
        named_before(b"\"", &line[1..])
    } else {
        named_before(b"", line)
    }
}

// The separator of a line that is `sep=`, the separator, this end, and then blanks or nothing.
fn named_before(end: &[u8], line: &[u8]) -> Option<u8>
    ensures value { result ≡ named_before end.now line.now }
    ensures allowed { IfSome result IsSeparator }
{
    if line.len() <= 4 || !line[..4].eq_ignore_ascii_case(b"sep=") {
        return None;
    }
    let byte = line[4];
    if may_separate(byte) && is_end(end, &line[5..]) {
        Some(byte)
    } else {
        None
    }
}

// Whether the byte is of ASCII and may separate fields.
fn may_separate(byte: u8) -> bool
    ensures { result ≡ may_separate byte }
{
    byte < 128 && byte != b'\n' && byte != b'\r' && byte != b' ' && byte != b'"'
}

// Whether the bytes are this end, and then blanks or nothing.
fn is_end(end: &[u8], bytes: &[u8]) -> bool
    ensures { result ≡ is_end end.now bytes.now }
{
    bytes.starts_with(end) && trimmed(&bytes[end.len()..]).is_empty()
}
