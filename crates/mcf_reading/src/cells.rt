//! The cells of a row as amounts, limits and answers.
ghost use Rattle.std.specs.Prelude.{◌≡◌, ◌-◌, ◌<◌, length};
ghost use Rattle.std.specs.Str.{str_eq_ignore_ascii_case};
ghost use Rattle.mcf_table.specs.Heads.{cells_of};
ghost use Rattle.mcf_table.specs.Texts.{is_filled};
ghost use Rattle.mcf_reading.specs.Cells.{amount, as_limit, cell_at, is_among, is_no_limit, is_unclear, is_yes, limit, no_words, number_kind, read_amount, read_limit, read_penalty, way_kind, zero_decimal};

use crate::kinds::FaultKind;
use mcf_decimal::{Decimal, Mark, NumberFault, number};
use mcf_table::Records;

// How many rows stand below the heads.
pub(crate) fn row_count(records: &Records) -> usize
    ensures { result ≡ length records.now - 1 }
{
    records.len().saturating_sub(1)
}

// The cell of a row in a column; empty if the table doesn't have the column.
pub(crate) fn cell_at(records: &Records, row: usize, column: Option<usize>) -> &[u8]
    requires { row < length records.now }
    ensures { result.now ≡ cell_at (cells_of records.now row) column }
{
    match column {
        Some(place) => records.cell(row, place),
        None => &[],
    }
}

// Whether the cell isn't empty.
pub(crate) fn is_filled(cell: &[u8]) -> bool
    ensures { result ≡ is_filled cell.now }
{
    !cell.is_empty()
}

// The decimal 0.
fn zero_decimal() -> Decimal
    ensures { result ≡ zero_decimal }
{
    Decimal {
        mantissa: 0,
        places: 0,
    }
}

// The amount in a cell: 0 if it is empty.
#[tactic(auto, unfolding(crate::specs::Cells::read_amount))]
pub(crate) fn read_amount(mark: Option<Mark>, cell: &[u8]) -> Result<Decimal, NumberFault>
    ensures { result ≡ read_amount mark cell.now }
{
    if is_filled(cell) {
        number(cell, mark)
    } else {
        Ok(zero_decimal())
    }
}

// Whether the cell says that there is no limit.
#[tactic(auto, unfolding(crate::specs::Cells::is_no_limit))]
pub(crate) fn is_no_limit(cell: &[u8]) -> bool
    ensures { result ≡ is_no_limit cell.now }
{
    if !is_filled(cell) {
        return true;
    }
    is_word(cell, b"inf") || cell == b"\xE2\x88\x9E".as_slice()
}

// Whether the cell is this word, with ASCII letters in either case.
fn is_word(cell: &[u8], word: &[u8]) -> bool
    ensures { result ≡ str_eq_ignore_ascii_case cell.now word.now }
{
    cell.eq_ignore_ascii_case(word)
}

// The limit in a cell, or none.
#[tactic(auto, unfolding(crate::specs::Cells::read_limit))]
pub(crate) fn read_limit(mark: Option<Mark>, cell: &[u8]) -> Result<Option<Decimal>, NumberFault>
    ensures { result ≡ read_limit mark cell.now }
{
    if is_no_limit(cell) {
        Ok(None)
    } else {
        as_limit(number(cell, mark))
    }
}

// The penalty in a cell, or none if it is empty.
#[tactic(auto, unfolding(crate::specs::Cells::read_penalty))]
pub(crate) fn read_penalty(mark: Option<Mark>, cell: &[u8]) -> Result<Option<Decimal>, NumberFault>
    ensures { result ≡ read_penalty mark cell.now }
{
    if is_filled(cell) {
        as_limit(number(cell, mark))
    } else {
        Ok(None)
    }
}

// A number as a limit.
fn as_limit(read: Result<Decimal, NumberFault>) -> Result<Option<Decimal>, NumberFault>
    ensures { result ≡ as_limit read }
{
    match read {
        Ok(number) => Ok(Some(number)),
        Err(fault) => Err(fault),
    }
}

// The number; 0 if the cell wasn't read.
pub(crate) fn amount(read: Result<Decimal, NumberFault>) -> Decimal
    ensures { result ≡ amount read }
{
    match read {
        Ok(number) => number,
        Err(_) => zero_decimal(),
    }
}

// The limit; a limit of 0 if the cell wasn't read.
pub(crate) fn limit(read: Result<Option<Decimal>, NumberFault>) -> Option<Decimal>
    ensures { result ≡ limit read }
{
    match read {
        Ok(most) => most,
        Err(_) => Some(zero_decimal()),
    }
}

// Why a cell wasn't read as a number.
pub(crate) fn number_kind(fault: Option<NumberFault>) -> Option<FaultKind>
    ensures { result ≡ number_kind fault }
{
    match fault {
        Some(fault) => Some(FaultKind::Number(fault)),
        None => None,
    }
}

// Whether the cell says yes.
#[tactic(auto, unfolding(crate::specs::Cells::is_yes))]
pub(crate) fn is_yes(cell: &[u8]) -> bool
    ensures { result ≡ is_yes cell.now }
{
    is_word(cell, b"yes")
        || is_word(cell, b"y")
        || is_word(cell, b"x")
        || is_word(cell, b"1")
        || is_word(cell, b"true")
        || is_word(cell, b"ja")
        || is_word(cell, b"j")
}

// Whether the cell says neither yes nor no.
#[tactic(auto, unfolding(crate::specs::Cells::is_unclear))]
fn is_unclear(cell: &[u8]) -> bool
    ensures { result ≡ is_unclear cell.now }
{
    if is_yes(cell) {
        return false;
    }
    !is_no(cell)
}

// Whether the cell says no, or is empty.
fn is_no(cell: &[u8]) -> bool
    ensures { result ≡ is_among no_words cell.now }
{
    is_word(cell, b"")
        || is_word(cell, b"no")
        || is_word(cell, b"n")
        || is_word(cell, b"0")
        || is_word(cell, b"false")
        || is_word(cell, b"nein")
}

// Why a cell isn't read as yes or no.
pub(crate) fn way_kind(cell: &[u8]) -> Option<FaultKind>
    ensures { result ≡ way_kind cell.now }
{
    if is_unclear(cell) {
        Some(FaultKind::NotYesNo)
    } else {
        None
    }
}
