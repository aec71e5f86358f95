//! Rows that say what an answer is.
ghost use Rattle.std.specs.Prelude.{◌≡◌, ◌++◌, OnOk};
ghost use Rattle.mcf_answer_rows.specs.AnswerRows.{answer_row, number_row};
ghost use Rattle.mcf_answer_rows.specs.Lines.{row_line};

use crate::cells::put_line;
use mcf_text::NoMemory;

/// Appends the row that says what kind of answer it is.
///
/// # Errors
///
/// `NoMemory` if an allocation is refused.
pub fn put_answer(out: &mut Vec<u8>, kind: &[u8]) -> Result<(), NoMemory>
    ensures { OnOk result (out.new.items ≡ out.old.items ++ row_line (answer_row kind.now)) }
{
    put_line(out, &[b"answer", kind])
}

/// Appends a number of the answer, under its name.
///
/// # Errors
///
/// `NoMemory` if an allocation is refused.
pub fn put_number_row(out: &mut Vec<u8>, name: &[u8], number: &[u8]) -> Result<(), NoMemory>
    ensures { OnOk result (out.new.items ≡ out.old.items ++ row_line (number_row name.now number.now)) }
{
    put_line(out, &[name, number])
}
