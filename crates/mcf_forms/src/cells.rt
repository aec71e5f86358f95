//! Words in cells, and the column with a head.
ghost use Rattle.std.specs.Prelude.{◌≡◌, ◌<◌, IfOk, IfSome, length, map};
ghost use Rattle.std.specs.List.{list_any};
ghost use Rattle.std.specs.Str.{bytes_eq, str_eq_ignore_ascii_case};
ghost use Rattle.mcf_table.specs.Heads.{head_at, heads};
ghost use Rattle.mcf_table.specs.Texts.{is_filled};
ghost use Rattle.mcf_forms.specs.Cells.{cell_at, cells_in, first_column, is_dash, is_nothing, line_of, rows_above};

use mcf_table::Records;
use mcf_text::NoMemory;
use std::alloc::Global;

// Whether the cell is one of these words, with ASCII letters in either case.
pub(crate) fn is_word(words: &[&[u8]], cell: &[u8]) -> bool
    ensures { result ≡ list_any (λ word. str_eq_ignore_ascii_case cell.now word.now) words.now }
{
    words.iter().any(|word| cell.eq_ignore_ascii_case(word))
}

// Whether the cell is one of these texts, byte by byte.
fn is_among(texts: &[&[u8]], cell: &[u8]) -> bool
    ensures { result ≡ list_any (λ text. bytes_eq cell.now text.now) texts.now }
{
    texts.iter().any(|text| is_same(cell, text))
}

// Whether the texts are the same.
pub(crate) fn is_same(one: &[u8], other: &[u8]) -> bool
    ensures { result ≡ bytes_eq one.now other.now }
{
    one == other
}

// Whether the cell isn't empty.
pub(crate) fn is_filled(cell: &[u8]) -> bool
    ensures { result ≡ is_filled cell.now }
{
    !cell.is_empty()
}

// Whether the cell is empty or a dash.
pub(crate) fn is_dash(cell: &[u8]) -> bool
    ensures { result ≡ is_dash cell.now }
{
    is_among(&[b"", b"-", b"\xE2\x80\x93", b"\xE2\x80\x94"], cell)
}

// Whether the cell stands for nothing: it is x, empty or a dash.
pub(crate) fn is_nothing(cell: &[u8]) -> bool
    ensures { result ≡ is_nothing cell.now }
{
    is_among(
        &[b"x", b"X", b"", b"-", b"\xE2\x80\x93", b"\xE2\x80\x94"],
        cell,
    )
}

// The line of the heads; 0 if there are none.
pub(crate) fn head_line(records: &Records) -> usize
    ensures { result ≡ line_of records.now 0 }
{
    if records.len() == 0 {
        0
    } else {
        records.line(0)
    }
}

// The cells of a column below the heads.
fn cells_below<'t>(
    alloc: Global,
    records: &'t Records,
    place: usize,
) -> Result<Vec<&'t [u8]>, NoMemory>
    ensures { IfOk result (λ made. map (λ cell. cell.now) made.items ≡ map (λ row. cell_at records.now row place) (rows_above (length records.now))) }
{
    let mut made = Vec::new(alloc);
    for row in 0..records.len().saturating_sub(1) {
        made.push(records.cell(row + 1, place))?;
    }
    Ok(made)
}

// The cells of a column below the heads; none if the table lacks the column.
pub(crate) fn cells_in<'t>(
    alloc: Global,
    records: &'t Records,
    column: Option<usize>,
) -> Result<Vec<&'t [u8]>, NoMemory>
    ensures { IfOk result (λ made. map (λ cell. cell.now) made.items ≡ cells_in records.now column) }
{
    match column {
        Some(place) => cells_below(alloc, records, place),
        None => Ok(Vec::new(alloc)),
    }
}

// Whether the column has this head, with ASCII letters in either case.
pub(crate) fn is_head(records: &Records, place: usize, head: &[u8]) -> bool
    ensures { result ≡ str_eq_ignore_ascii_case (head_at records.now place) head.now }
{
    records.head(place).eq_ignore_ascii_case(head)
}

/// The place of the first column with this head, with ASCII letters in either case; `None` if there
/// is none. Places are counted from 0.
pub fn first_column(records: &Records, head: &[u8]) -> Option<usize>
    ensures value { result ≡ first_column head.now records.now }
    ensures inside { IfSome result (λ place. place < length (heads records.now)) }
{
    for place in 0..records.head_count() {
        if is_head(records, place, head) {
            return Some(place);
        }
    }
    None
}
