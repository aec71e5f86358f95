//! What was done to a table before it was read.
ghost use Rattle.std.specs.Prelude.{◌≡◌, ◌++◌, OnOk};
ghost use Rattle.mcf_answer_rows.specs.Lines.{rows_text};
ghost use Rattle.mcf_pair_text.specs.DoneRows.{changed_rows, done_rows};

use crate::words::costs_word;
use mcf_answer_rows::{put_filled, put_told, put_wishes};
use mcf_pair_tables::Done;
use mcf_table::Records;
use mcf_text::NoMemory;
use std::alloc::Global;

// Appends the row of totals that was left out, and the columns that were filled down.
fn put_changed(
    alloc: Global,
    out: &mut Vec<u8>,
    rows: &Records,
    done: &Done,
) -> Result<(), NoMemory>
    ensures { OnOk result (out.new.items ≡ out.old.items ++ rows_text (changed_rows rows.now done.now)) }
{
    put_told(alloc, out, b"left out", costs_word(), done.total)?;
    put_filled(alloc, out, costs_word(), rows, &done.filled)
}

// Appends the sheet of wishes that became a list, the row of totals that was left out, and the
// columns that were filled down.
pub(crate) fn put_done(
    alloc: Global,
    out: &mut Vec<u8>,
    rows: &Records,
    done: &Done,
) -> Result<(), NoMemory>
    ensures { OnOk result (out.new.items ≡ out.old.items ++ rows_text (done_rows rows.now done.now)) }
{
    put_wishes(alloc, out, costs_word(), done.wishes, &done.needs)?;
    put_changed(alloc, out, rows, done)
}
