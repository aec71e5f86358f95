//! Numbers that are told of a table.
ghost use Rattle.std.specs.Prelude.{◌≡◌, ◌++◌, OnOk};
ghost use Rattle.mcf_answer_rows.specs.Lines.{rows_text};
ghost use Rattle.mcf_answer_rows.specs.FormRows.{told_rows, wish_rows};

use crate::cells::{number_cell, put_line};
use mcf_text::NoMemory;
use std::alloc::Global;

/// Appends a row of a word, a table and a number, if there is a number.
///
/// # Errors
///
/// `NoMemory` if an allocation is refused.
pub fn put_told(
    alloc: Global,
    out: &mut Vec<u8>,
    word: &[u8],
    table: &[u8],
    number: Option<usize>,
) -> Result<(), NoMemory>
    ensures { OnOk result (out.new.items ≡ out.old.items ++ rows_text (told_rows word.now table.now number)) }
{
    match number {
        Some(number) => {
            let cell = number_cell(alloc, number)?;
            put_line(out, &[word, table, &cell])
        }
        None => Ok(()),
    }
}

/// Appends a row of the word `wishes`, a table, how many wishes there are and what is needed, if
/// there is such a number.
///
/// # Errors
///
/// `NoMemory` if an allocation is refused.
pub fn put_wishes(
    alloc: Global,
    out: &mut Vec<u8>,
    table: &[u8],
    count: Option<usize>,
    needs: &[u8],
) -> Result<(), NoMemory>
    ensures { OnOk result (out.new.items ≡ out.old.items ++ rows_text (wish_rows table.now count needs.now)) }
{
    match count {
        Some(number) => {
            let cell = number_cell(alloc, number)?;
            put_line(out, &[b"wishes", table, &cell, needs])
        }
        None => Ok(()),
    }
}
