//! Tables that an answer repeats.
ghost use Rattle.std.specs.Prelude.{◌≡◌, ◌++◌, ◌∷◌, ◌<◌, IfOk, OnOk, codes, drop, length, map, slice_index_or};
ghost use Rattle.mcf_answer_rows.specs.Lines.{row_line, rows_text};
ghost use Rattle.mcf_answer_rows.specs.TableRows.{mark_row, mark_text, record_row, repeated_rows};
ghost use Rattle.mcf_table.specs.Texts.{no_record};

use crate::answers::put_number_row;
use crate::cells::{number_cell, put_line};
use mcf_decimal::Mark;
use mcf_table::Records;
use mcf_text::NoMemory;
use std::alloc::Global;

// The mark as a cell.
fn mark_text(mark: Option<Mark>) -> &'static [u8]
    ensures { result.now ≡ mark_text mark }
{
    match mark {
        Some(Mark::Point) => b".",
        Some(Mark::Comma) => b",",
        None => b"",
    }
}

/// Appends the mark before decimals of the tables; empty, if none is named or shown.
///
/// # Errors
///
/// `NoMemory` if an allocation is refused.
pub fn put_mark(out: &mut Vec<u8>, mark: Option<Mark>) -> Result<(), NoMemory>
    ensures { OnOk result (out.new.items ≡ out.old.items ++ row_line (mark_row mark)) }
{
    put_number_row(out, b"mark", mark_text(mark))
}

// Appends the cells of a row.
fn push_cells<'t>(
    cells: &mut Vec<&'t [u8]>,
    records: &'t Records,
    row: usize,
) -> Result<(), NoMemory>
    requires { row < length records.now }
    ensures { OnOk result (map (λ cell. cell.now) cells.new.items ≡ map (λ cell. cell.now) cells.old.items ++ (slice_index_or records.now row no_record).cells) }
{
    for place in 0..records.cell_count(row) {
        cells.push(records.cell(row, place))?;
    }
    Ok(())
}

// The cells of a row, after three others.
fn record_cells<'t>(
    alloc: Global,
    word: &'t [u8],
    table: &'t [u8],
    line: &'t [u8],
    records: &'t Records,
    row: usize,
) -> Result<Vec<&'t [u8]>, NoMemory>
    requires { row < length records.now }
    ensures { IfOk result (λ made. map (λ cell. cell.now) made.items
        ≡ word.now ∷ table.now ∷ line.now ∷ (slice_index_or records.now row no_record).cells) }
{
    let mut cells = Vec::new(alloc);
    cells.push(word)?;
    cells.push(table)?;
    cells.push(line)?;
    push_cells(&mut cells, records, row)?;
    Ok(cells)
}

// Appends a row of a table, under a word.
fn put_record(
    alloc: Global,
    out: &mut Vec<u8>,
    word: &[u8],
    table: &[u8],
    records: &Records,
    row: usize,
) -> Result<(), NoMemory>
    requires { row < length records.now }
    ensures { OnOk result (out.new.items ≡ out.old.items
        ++ row_line (record_row word.now table.now (slice_index_or records.now row no_record))) }
{
    let line = number_cell(alloc, records.line(row))?;
    let cells = record_cells(alloc, word, table, &line, records, row)?;
    put_line(out, &cells)
}

// Appends the rows below the heads.
fn put_below(
    alloc: Global,
    out: &mut Vec<u8>,
    table: &[u8],
    records: &Records,
) -> Result<(), NoMemory>
    ensures { OnOk result (out.new.items ≡ out.old.items
        ++ rows_text (map (record_row (codes "row") table.now) (drop 1 records.now))) }
{
    for row in 1..records.len() {
        put_record(alloc, out, b"row", table, records, row)?;
    }
    Ok(())
}

/// Appends the rows of a table, each with the word of the table and its line: the heads, and then
/// the rows below them.
///
/// # Errors
///
/// `NoMemory` if an allocation is refused.
pub fn put_table(
    alloc: Global,
    out: &mut Vec<u8>,
    table: &[u8],
    records: &Records,
) -> Result<(), NoMemory>
    ensures { OnOk result (out.new.items ≡ out.old.items ++ rows_text (repeated_rows table.now records.now)) }
{
    if records.len() == 0 {
        return Ok(());
    }
    put_record(alloc, out, b"heads", table, records, 0)?;
    put_below(alloc, out, table, records)
}
