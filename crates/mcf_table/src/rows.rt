//! The row with which a text begins.
ghost use Rattle.std.specs.Prelude.{◌≡◌, ◌<◌, IfOk, IfErr, IsTrue, IsFalse, length, slice_index};
ghost use Rattle.mcf_table.specs.Private.Found.{EndsField, EndsRow, IsBrokenRow, IsFirstRow};

use crate::cells::Cells;
use crate::fault::FieldFault;
use crate::fields::first_field;
use mcf_text::NoMemory;
use std::alloc::Global;

// Appends the cells of the row with which the text begins, and returns how long it is; or returns
// why one of its fields isn't read.
pub(crate) fn read_row(
    alloc: Global,
    cells: &mut Cells,
    separator: u8,
    text: &[u8],
) -> Result<Result<usize, FieldFault>, NoMemory>
    ensures ok { IfOk result (λ read. IfOk read (λ len. IsFirstRow separator text.now cells.old cells.new len)) }
    ensures err { IfOk result (λ read. IfErr read (λ kind. IsBrokenRow separator text.now kind)) }
{
    let mut at = 0;
    'fields: loop {
        let field = match first_field(separator, &text[at..]) {
            Ok(field) => field,
            Err(kind) => return Ok(Err(kind)),
        };
        cells.push_content(alloc, field.content, field.is_quoted)?;
        let end = at + field.len;
        if !is_separated(separator, &text[end..]) {
            return Ok(Ok(end));
        }
        at = end + 1;
    }
}

// Whether a separator follows a field.
fn is_separated(separator: u8, rest: &[u8]) -> bool
    ensures yes { IsTrue result → (0 < length rest.now) × (slice_index rest.now 0 ≡ separator) }
    ensures no { IsFalse result → EndsField separator rest.now → EndsRow rest.now }
{
    !rest.is_empty() && rest[0] == separator
}
