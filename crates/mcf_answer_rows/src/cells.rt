//! Cells of tables, and rows that are written.
ghost use Rattle.std.specs.Prelude.{◌≡◌, ◌++◌, IfOk, OnOk, decimal, map, suc};
ghost use Rattle.mcf_decimal.specs.Written.{decimal_text};
ghost use Rattle.mcf_reading.specs.Cells.{cell_at};
ghost use Rattle.mcf_table.specs.Heads.{cells_of, column_of, only_place};
ghost use Rattle.mcf_answer_rows.specs.AnswerRows.{cell_under, line_at};
ghost use Rattle.mcf_answer_rows.specs.Lines.{row_line};

use mcf_decimal::put_decimal;
use mcf_table::{Records, put_row};
use mcf_text::{NoMemory, put_number};
use std::alloc::Global;

/// The place of the column with a head, if just one has it. Places are counted from 0.
pub fn place_of(records: &Records, head: &[u8]) -> Option<usize>
    ensures { result ≡ only_place (column_of head.now records.now) }
{
    records.column_of(head).only_place()
}

/// The cell of a row in a column; empty if the table has no such row or column. Rows and columns
/// are counted from 0.
pub fn cell_at(records: &Records, row: usize, column: Option<usize>) -> &[u8]
    ensures { result.now ≡ cell_at (cells_of records.now row) column }
{
    match column {
        Some(place) if row < records.len() => records.cell(row, place),
        _ => &[],
    }
}

/// The cell of a row in the column with a head; empty if there is none.
pub fn cell_under<'t>(records: &'t Records, head: &[u8], row: usize) -> &'t [u8]
    ensures { result.now ≡ cell_under head.now records.now row }
{
    cell_at(records, row, place_of(records, head))
}

/// The line on which a row begins; the first, if the table has no such row.
pub fn line_at(records: &Records, row: usize) -> usize
    ensures { result ≡ line_at records.now row }
{
    if row < records.len() {
        records.line(row).max(1)
    } else {
        1
    }
}

/// A number as a cell.
///
/// # Errors
///
/// `NoMemory` if an allocation is refused.
pub fn number_cell(alloc: Global, number: usize) -> Result<Vec<u8>, NoMemory>
    ensures { IfOk result (λ made. made.items ≡ decimal number) }
{
    let mut made = Vec::new(alloc);
    put_number(&mut made, number as i128)?;
    Ok(made)
}

/// The number after this one as a cell.
///
/// # Errors
///
/// `NoMemory` if an allocation is refused.
pub fn next_cell(alloc: Global, number: usize) -> Result<Vec<u8>, NoMemory>
    ensures { IfOk result (λ made. made.items ≡ decimal (suc number)) }
{
    let mut made = Vec::new(alloc);
    put_number(&mut made, number as i128 + 1)?;
    Ok(made)
}

/// The line of a row as a cell; that of the first, if the table has no such row.
///
/// # Errors
///
/// `NoMemory` if an allocation is refused.
pub fn line_cell(alloc: Global, records: &Records, row: usize) -> Result<Vec<u8>, NoMemory>
    ensures { IfOk result (λ made. made.items ≡ decimal (line_at records.now row)) }
{
    number_cell(alloc, line_at(records, row))
}

/// The decimal `mantissa` times 10 to the power of minus `places` as a cell, with a point before
/// its decimals.
///
/// # Errors
///
/// `NoMemory` if an allocation is refused.
pub fn decimal_cell(alloc: Global, mantissa: i128, places: u32) -> Result<Vec<u8>, NoMemory>
    ensures { IfOk result (λ made. made.items ≡ decimal_text mantissa places) }
{
    let mut made = Vec::new(alloc);
    put_decimal(&mut made, mantissa, places)?;
    Ok(made)
}

/// Appends the row of these cells, each between quotes, with commas between them, and a line feed.
///
/// # Errors
///
/// `NoMemory` if an allocation is refused.
#[tactic(auto, unfolding(crate::specs::Lines::row_line))]
pub fn put_line(out: &mut Vec<u8>, cells: &[&[u8]]) -> Result<(), NoMemory>
    ensures { OnOk result (out.new.items ≡ out.old.items ++ row_line (map (λ cell. cell.now) cells.now)) }
{
    put_row(out, b',', cells)
}
