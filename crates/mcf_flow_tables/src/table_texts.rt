//! The tables that texts are.
ghost use Rattle.std.specs.Prelude.{◌≡◌, IfOk, IfErr, map};
ghost use Rattle.mcf_table.specs.Rows.{IsSeparator};
ghost use Rattle.mcf_flow_tables.specs.TableTexts.{IsBrokenText, IsSeparatedBy, IsTableOf, first_row};

use mcf_table::{Records, TextFault, named_separator, records_of, separator_of};
use mcf_text::NoMemory;
use std::alloc::Global;

// The byte that separates the fields of a text.
fn separator_in(text: &[u8], wanted: &[&[u8]]) -> u8
    ensures value { IsSeparatedBy (map (λ head. head.now) wanted.now) text.now result }
    ensures allowed { IsSeparator result }
{
    match named_separator(text) {
        Some(byte) => byte,
        None => separator_of(text, wanted),
    }
}

// The first row of a text that may have the heads.
fn first_row(text: &[u8]) -> usize
    ensures { result ≡ first_row text.now }
{
    if named_separator(text).is_some() {
        1
    } else {
        0
    }
}

/// Reads the rows of a text, from that of its heads on, or why it is no table. The fields are
/// separated by the byte that the text names, or else by the one that splits the line of its heads
/// best; the heads stand in the first of ten rows that has all the wanted ones, or else in the
/// first.
///
/// # Errors
///
/// `NoMemory` if an allocation is refused.
pub fn table_of(
    alloc: Global,
    text: &[u8],
    wanted: &[&[u8]],
) -> Result<Result<Records, TextFault>, NoMemory>
    ensures table { IfOk result (λ read. IfOk read (IsTableOf (map (λ head. head.now) wanted.now) text.now)) }
    ensures broken { IfOk result (λ read. IfErr read (IsBrokenText (map (λ head. head.now) wanted.now) text.now)) }
{
    let separator = separator_in(text, wanted);
    match records_of(alloc, text, separator)? {
        Ok(records) => {
            let row = records.head_row(first_row(text), wanted);
            Ok(Ok(records.drop_front(row)))
        }
        Err(fault) => Ok(Err(fault)),
    }
}
