//! The cells of a row as amounts and limits.
ghost use Rattle.std.specs.Prelude.{◌≡◌, ◌-◌, ◌<◌, length, IfOk, map};
ghost use Rattle.std.specs.Str.{str_eq_ignore_ascii_case};
ghost use Rattle.mcf_table.specs.Heads.{cells_of};
ghost use Rattle.mcf_table.specs.Texts.{is_filled};
ghost use Rattle.mcf_reading.specs.Cells.{amount, as_limit, cell_at, is_no_limit, limit, read_amount, read_limit, zero_decimal};
ghost use Rattle.mcf_period_reading.specs.PeriodCells.{cells_under, is_below, limit_kind, number_kind, stock_kind};

use crate::kinds::{PeriodKind, if_kind};
use mcf_decimal::{Decimal, Mark, NumberFault, number};
use mcf_table::Records;
use mcf_text::NoMemory;
use std::alloc::Global;

// How many rows stand below the heads.
pub(crate) fn row_count(records: &Records) -> usize
    ensures { result ≡ length records.now - 1 }
{
    records.len().saturating_sub(1)
}

// The cell of a row in a column; empty if the table doesn't have the column.
pub(crate) fn cell_at(records: &Records, row: usize, column: Option<usize>) -> &[u8]
    requires { row < length records.now }
    ensures { result.now ≡ cell_at (cells_of records.now row) column }
{
    match column {
        Some(place) => records.cell(row, place),
        None => &[],
    }
}

// Whether the cell isn't empty.
pub(crate) fn is_filled(cell: &[u8]) -> bool
    ensures { result ≡ is_filled cell.now }
{
    !cell.is_empty()
}

// The cells of all rows in a column.
pub(crate) fn cells_under<'t>(
    alloc: Global,
    records: &'t Records,
    column: Option<usize>,
) -> Result<Vec<&'t [u8]>, NoMemory>
    ensures { IfOk result (λ made. map (λ cell. cell.now) made.items ≡ cells_under records.now column) }
{
    let mut made = Vec::new(alloc);
    for place in 0..row_count(records) {
        let cell = cell_at(records, place + 1, column);
        made.push(cell)?;
    }
    Ok(made)
}

// The decimal 0.
fn zero_decimal() -> Decimal
    ensures { result ≡ zero_decimal }
{
    Decimal {
        mantissa: 0,
        places: 0,
    }
}

// The amount in a cell: 0 if it is empty.
#[tactic(auto, unfolding(mcf_reading::specs::Cells::read_amount))]
pub(crate) fn read_amount(mark: Option<Mark>, cell: &[u8]) -> Result<Decimal, NumberFault>
    ensures { result ≡ read_amount mark cell.now }
{
    if is_filled(cell) {
        number(cell, mark)
    } else {
        Ok(zero_decimal())
    }
}

// Whether the cell says that there is no limit.
#[tactic(auto, unfolding(mcf_reading::specs::Cells::is_no_limit))]
fn is_no_limit(cell: &[u8]) -> bool
    ensures { result ≡ is_no_limit cell.now }
{
    if !is_filled(cell) {
        return true;
    }
    is_word(cell, b"inf") || cell == b"\xE2\x88\x9E".as_slice()
}

// Whether the cell is this word, with ASCII letters in either case.
fn is_word(cell: &[u8], word: &[u8]) -> bool
    ensures { result ≡ str_eq_ignore_ascii_case cell.now word.now }
{
    cell.eq_ignore_ascii_case(word)
}

// A number as a limit.
fn as_limit(read: Result<Decimal, NumberFault>) -> Result<Option<Decimal>, NumberFault>
    ensures { result ≡ as_limit read }
{
    match read {
        Ok(number) => Ok(Some(number)),
        Err(fault) => Err(fault),
    }
}

// The limit in a cell, or none.
#[tactic(auto, unfolding(mcf_reading::specs::Cells::read_limit))]
pub(crate) fn read_limit(mark: Option<Mark>, cell: &[u8]) -> Result<Option<Decimal>, NumberFault>
    ensures { result ≡ read_limit mark cell.now }
{
    if is_no_limit(cell) {
        Ok(None)
    } else {
        as_limit(number(cell, mark))
    }
}

// The number; 0 if the cell wasn't read.
pub(crate) fn amount(read: Result<Decimal, NumberFault>) -> Decimal
    ensures { result ≡ amount read }
{
    match read {
        Ok(number) => number,
        Err(_) => zero_decimal(),
    }
}

// The limit; a limit of 0 if the cell wasn't read.
pub(crate) fn limit(read: Result<Option<Decimal>, NumberFault>) -> Option<Decimal>
    ensures { result ≡ limit read }
{
    match read {
        Ok(most) => most,
        Err(_) => Some(zero_decimal()),
    }
}

// Whether a number is below 0.
fn is_below(number: Decimal) -> bool
    ensures { result ≡ is_below number }
{
    number.mantissa < 0
}

// Why a cell wasn't read as a number.
pub(crate) fn number_kind(read: Result<Decimal, NumberFault>) -> Option<PeriodKind>
    ensures { result ≡ number_kind read }
{
    match read {
        Ok(_) => None,
        Err(fault) => Some(PeriodKind::Number(fault)),
    }
}

// Why a cell isn't an amount from 0 on.
pub(crate) fn stock_kind(read: Result<Decimal, NumberFault>) -> Option<PeriodKind>
    ensures { result ≡ stock_kind read }
{
    match read {
        Ok(number) => if_kind(is_below(number), PeriodKind::BelowZero),
        Err(fault) => Some(PeriodKind::Number(fault)),
    }
}

// Why a cell isn't a limit from 0 on.
pub(crate) fn limit_kind(read: Result<Option<Decimal>, NumberFault>) -> Option<PeriodKind>
    ensures { result ≡ limit_kind read }
{
    match read {
        Ok(None) => None,
        Ok(Some(number)) => if_kind(is_below(number), PeriodKind::BelowZero),
        Err(fault) => Some(PeriodKind::Number(fault)),
    }
}
