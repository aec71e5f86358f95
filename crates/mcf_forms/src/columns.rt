//! Columns that are filled down.
ghost use Rattle.std.specs.Prelude.{◌≡◌, ◌++◌, IfOk, OnOk};
ghost use Rattle.mcf_text.specs.Lines.{lines_of};
ghost use Rattle.mcf_forms.specs.Filled.{filled_columns, filled_under, filling_under, fillings, filling_list};

use crate::cells::first_column;
use crate::filled::filled_down;
use mcf_table::Records;
use mcf_text::{NoMemory, split_line};
use std::alloc::Global;

/// A column that is filled down.
#[derive(Clone, Copy, Debug, PartialEq, Eq)]
pub struct Filling {
    /// Its place; places are counted from 0.
    pub place: usize,
    /// How many of its cells take the one above.
    pub count: usize,
}

/// The rows of a table with columns that are filled down.
#[derive(Drop)]
pub struct FilledColumns {
    /// The rows.
    pub rows: Records,
    /// The columns that the table has, in the order of the heads that name them.
    pub columns: Vec<Filling>,
}

// The rows of a table with the column of a head filled down.
#[derive(Drop)]
struct FilledUnder {
    rows: Records,
    // The column; `None` if there is none.
    column: Option<Filling>,
}

// Fills the first column with this head down.
fn filled_under(alloc: Global, records: Records, head: &[u8]) -> Result<FilledUnder, NoMemory>
    ensures rows { IfOk result (λ made. made.rows ≡ filled_under head.now records) }
    ensures column { IfOk result (λ made. made.column ≡ filling_under head.now records) }
{
    match first_column(&records, head) {
        Some(place) => {
            let made = filled_down(alloc, &records, place)?;
            Ok(FilledUnder {
                rows: made.rows,
                column: Some(Filling {
                    place,
                    count: made.count,
                }),
            })
        }
        None => Ok(FilledUnder {
            rows: records,
            column: None,
        }),
    }
}

// Appends a column, if there is one.
fn push_column(columns: &mut Vec<Filling>, column: Option<Filling>) -> Result<(), NoMemory>
    ensures { OnOk result (columns.new.items ≡ columns.old.items ++ filling_list column) }
{
    if let Some(column) = column {
        columns.push(column)?;
    }
    Ok(())
}

/// Fills columns down, as `filled_down` does, one after another. Each line of the text `heads` has
/// a head; its column is the first one with that head, with ASCII letters in either case. A head
/// that the table doesn't have fills none.
///
/// # Errors
///
/// `NoMemory` if an allocation is refused.
pub fn filled_columns(
    alloc: Global,
    records: Records,
    heads: &[u8],
) -> Result<FilledColumns, NoMemory>
    ensures rows { IfOk result (λ made. made.rows ≡ filled_columns (lines_of heads.now) records) }
    ensures columns { IfOk result (λ made. made.columns.items ≡ fillings (lines_of heads.now) records) }
{
    let mut rows = records;
    let mut columns = Vec::new(alloc);
    let mut rest = heads;
    'heads: while let Some(parts) = split_line(rest) {
        let made = filled_under(alloc, rows, parts.0)?;
        rows = made.rows;
        push_column(&mut columns, made.column)?;
        rest = parts.1;
    }
    Ok(FilledColumns { rows, columns })
}
