//! Faults as rows of a table.
ghost use Rattle.std.specs.Prelude.{◌≡◌, ◌++◌, OnOk};
ghost use Rattle.mcf_answer_rows.specs.FaultWords.{fault_row};
ghost use Rattle.mcf_answer_rows.specs.Lines.{row_line};

use crate::cells::put_line;
use mcf_text::NoMemory;

/// What is wrong, in a column.
#[derive(Clone, Copy)]
pub struct Wrong<'t> {
    /// The column; empty if it isn't about one.
    pub column: &'t [u8],
    /// What is wrong.
    pub what: &'t [u8],
}

/// Appends a fault of a table: `fault`, the table, the line, the column, what is wrong, and the
/// cell.
///
/// # Errors
///
/// `NoMemory` if an allocation is refused.
pub fn put_fault(
    out: &mut Vec<u8>,
    table: &[u8],
    line: &[u8],
    wrong: Wrong<'_>,
    cell: &[u8],
) -> Result<(), NoMemory>
    ensures { OnOk result (out.new.items ≡ out.old.items ++ row_line (fault_row table.now line.now wrong.entry.column.now wrong.entry.what.now cell.now)) }
{
    put_line(
        out,
        &[b"fault", table, line, wrong.column, wrong.what, cell],
    )
}
