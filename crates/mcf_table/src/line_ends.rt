//! The line ends of a text, and the mark in front of it.
ghost use Rattle.std.specs.Prelude.{◌≡◌, ◌≤◌, ◌++◌, IfOk, OnOk, length};
ghost use Rattle.mcf_table.specs.LineEnds.{unified, unmarked};
ghost use Rattle.mcf_table.specs.Private.Found.{without_feed};

use crate::cuts::first_of;
use mcf_text::NoMemory;
use std::alloc::Global;

// The text without the byte order mark in front of it, if there is one.
#[tactic(auto, unfolding(crate::specs::LineEnds::unmarked))]
pub(crate) fn unmarked(text: &[u8]) -> &[u8]
    ensures { result.now ≡ unmarked text.now }
{
    if text.starts_with(b"\xEF\xBB\xBF") {
        &text[3..]
    } else {
        text
    }
}

// The text with each line end as one line feed.
pub(crate) fn unified(alloc: Global, text: &[u8]) -> Result<Vec<u8>, NoMemory>
    ensures { IfOk result (λ made. made.items ≡ unified text.now) }
{
    let mut made = Vec::with_capacity(alloc, text.len())?;
    let mut rest = text;
    'ends: while let Some(place) = first_of(b'\r', rest) {
        made.extend_from_slice(&rest[..place])?;
        made.push(b'\n')?;
        rest = without_feed(&rest[place + 1..]);
    }
    made.extend_from_slice(rest)?;
    Ok(made)
}

// The bytes without the line feed in front of them, if there is one.
#[tactic(auto, unfolding(crate::specs::Private::Found::without_feed))]
fn without_feed(bytes: &[u8]) -> &[u8]
    ensures value { result.now ≡ without_feed bytes.now }
    ensures inside { length result.now ≤ length bytes.now }
{
    if bytes.starts_with(b"\n") {
        &bytes[1..]
    } else {
        bytes
    }
}
