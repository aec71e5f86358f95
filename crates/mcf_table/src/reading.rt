//! Texts as rows.
ghost use Rattle.std.specs.Prelude.{◌≡◌, ◌+◌, ◌<◌, ◌≤◌, ◌^◌, ◌++◌, ◌∷◌, [], IfOk, OnOk, drop, if◌then◌else◌, length, ◌-◌};
ghost use Rattle.std.specs.List.{list_any};
ghost use Rattle.mcf_table.specs.LineEnds.{line_feeds};
ghost use Rattle.mcf_table.specs.Rows.{IsSeparator};
ghost use Rattle.mcf_table.specs.Texts.{Reads, Says, is_filled};

use crate::cells::Cells;
use crate::fault::TextFault;
use crate::line_ends::{unified, unmarked};
use crate::records::{Records, RowPart};
use crate::rows::read_row;
use mcf_text::NoMemory;
use std::alloc::Global;

/// Reads the rows of a text, whose fields are separated by this byte. A line feed, a carriage
/// return, or both end a row. A field may stand between quotes, perhaps after spaces: then a
/// separator, a line end, or a quote that is written twice may stand in it. Blanks at the ends of a
/// cell don't count, and neither do rows whose cells are all empty nor a byte order mark in front.
/// The separator is no space, no quote and no line end.
///
/// # Errors
///
/// The fault of the first row that isn't read, if there is one; `NoMemory` if an allocation is
/// refused.
pub fn records_of(
    alloc: Global,
    text: &[u8],
    separator: u8,
) -> Result<Result<Records, TextFault>, NoMemory>
    requires { IsSeparator separator }
    ensures { IfOk result (λ read. Reads separator text.now read) }
{
    let plain = unified(alloc, unmarked(text))?;
    read_rows(alloc, separator, &plain)
}

// Reads the rows of a text, in which a line feed alone ends a row.
fn read_rows(
    alloc: Global,
    separator: u8,
    text: &[u8],
) -> Result<Result<Records, TextFault>, NoMemory>
    ensures { IfOk result (λ said. Says separator text.now said) }
{
    let mut cells = Cells::new(alloc);
    let mut parts = Vec::new(alloc);
    let mut at = 0;
    let mut line = 1;
    'rows: loop {
        let first = cells.len();
        let len = match read_row(alloc, &mut cells, separator, &text[at..])? {
            Ok(len) => len,
            Err(kind) => return Ok(Err(TextFault { line, kind })),
        };
        keep_row(&mut parts, &cells, line, first)?;
        let end = at + len;
        if end == text.len() {
            return Ok(Ok(Records::joined(cells, parts)));
        }
        line = next_line(line, &text[at..end]);
        at = end + 1;
    }
}

// Appends the row of the cells from this place on, if one of them isn't empty.
fn keep_row(
    parts: &mut Vec<RowPart>,
    cells: &Cells,
    line: usize,
    first: usize,
) -> Result<(), NoMemory>
    requires { first ≤ length cells.now }
    ensures { OnOk result (parts.new.items ≡ parts.old.items ++ (if list_any is_filled (drop first cells.now) then record { line = line; first = first; count = length cells.now - first } ∷ [] else [])) }
{
    if !cells.is_filled_from(first) {
        return Ok(());
    }
    let count = cells.len() - first;
    parts.push(RowPart { line, first, count })?;
    Ok(())
}

// The line after a row that begins on this one.
fn next_line(line: usize, row: &[u8]) -> usize
    requires { line + length row.now + 1 < 2 ^ 64 }
    ensures value { result ≡ line + line_feeds row.now + 1 }
    ensures few { result ≤ line + length row.now + 1 }
{
    line + feed_count(row) + 1
}

// How many line feeds there are.
fn feed_count(bytes: &[u8]) -> usize
    ensures value { result ≡ line_feeds bytes.now }
    ensures few { result ≤ length bytes.now }
{
    bytes.iter().filter(|byte| **byte == b'\n').count()
}
