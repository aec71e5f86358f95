//! Columns that are filled down, and heads of columns that aren't there.
ghost use Rattle.std.specs.Prelude.{◌≡◌, ◌++◌, OnOk, map};
ghost use Rattle.mcf_answer_rows.specs.Lines.{row_line, rows_text};
ghost use Rattle.mcf_answer_rows.specs.FormRows.{filled_row, lacking_row};

use crate::cells::{number_cell, put_line};
use crate::faults::{Wrong, put_fault};
use mcf_forms::Filling;
use mcf_table::Records;
use mcf_text::NoMemory;
use std::alloc::Global;

// Appends a column of a table that was filled down.
fn put_column(
    alloc: Global,
    out: &mut Vec<u8>,
    table: &[u8],
    records: &Records,
    column: Filling,
) -> Result<(), NoMemory>
    ensures { OnOk result (out.new.items ≡ out.old.items ++ row_line (filled_row table.now records.now column)) }
{
    let count = number_cell(alloc, column.count)?;
    put_line(out, &[b"filled", table, records.head(column.place), &count])
}

/// Appends the columns of a table that were filled down: of each a row `filled` with the word of
/// the table, its head, and how many of its cells took the one above.
///
/// # Errors
///
/// `NoMemory` if an allocation is refused.
pub fn put_filled(
    alloc: Global,
    out: &mut Vec<u8>,
    table: &[u8],
    records: &Records,
    columns: &[Filling],
) -> Result<(), NoMemory>
    ensures { OnOk result (out.new.items ≡ out.old.items ++ rows_text (map (filled_row table.now records.now) columns.now)) }
{
    for place in 0..columns.len() {
        put_column(alloc, out, table, records, columns[place])?;
    }
    Ok(())
}

// Appends the number of a head of a column to fill down that no table has.
fn put_lacking_head(alloc: Global, out: &mut Vec<u8>, number: usize) -> Result<(), NoMemory>
    ensures { OnOk result (out.new.items ≡ out.old.items ++ row_line (lacking_row number)) }
{
    let cell = number_cell(alloc, number)?;
    let wrong = Wrong {
        column: b"fill down",
        what: b"no such column",
    };
    put_fault(out, b"options", &cell, wrong, b"")
}

/// Appends the numbers of heads of columns to fill down that no table has, as faults of options.
///
/// # Errors
///
/// `NoMemory` if an allocation is refused.
pub fn put_lacking(alloc: Global, out: &mut Vec<u8>, numbers: &[usize]) -> Result<(), NoMemory>
    ensures { OnOk result (out.new.items ≡ out.old.items ++ rows_text (map lacking_row numbers.now)) }
{
    for place in 0..numbers.len() {
        put_lacking_head(alloc, out, numbers[place])?;
    }
    Ok(())
}
