//! A last row of totals.
ghost use Rattle.std.specs.Prelude.{◌≡◌, ◌<◌, ◌≤◌, IfOk, MatchOption, false, true, length, map};
ghost use Rattle.std.specs.List.{list_all, list_any};
ghost use Rattle.mcf_table.specs.Texts.{Record as ARecord};
ghost use Rattle.mcf_forms.specs.Cells.{cell_at, columns, is_word};
ghost use Rattle.mcf_forms.specs.Sums.{is_readable, is_sum, number_in};
ghost use Rattle.mcf_forms.specs.Totals.{cells_above, english_totals, german_totals, has_names, has_number, has_sums, has_total, is_summed, is_total_word, last_row, may_sum, may_total, name_heads, number_heads, says_total, total_line, without_total};

use crate::cells::{is_filled, is_word};
use crate::sums::{add_up, number_in};
use mcf_decimal::{Decimal, Mark};
use mcf_table::Records;
use mcf_text::NoMemory;
use std::alloc::Global;

/// The rows of a table without a last one of totals.
#[derive(Drop)]
pub struct WithoutTotal {
    /// The rows.
    pub rows: Records,
    /// The line of the row of totals that was left out; `None` if there was none.
    pub line: Option<usize>,
}

// Whether the head is that of a column of names.
fn is_name_head(head: &[u8]) -> bool
    ensures { result ≡ is_word name_heads head.now }
{
    is_word(&[b"name", b"from", b"to", b"who", b"what"], head)
}

// Whether the head is that of a column of numbers that a row of totals may add up.
fn is_number_head(head: &[u8]) -> bool
    ensures { result ≡ is_word number_heads head.now }
{
    is_word(&[b"supply", b"least", b"most", b"cost"], head)
}

// Whether the cell is empty, or an English word of totals.
fn is_english_total(cell: &[u8]) -> bool
    ensures { result ≡ is_word english_totals cell.now }
{
    is_word(&[b"", b"total", b"totals", b"grand total", b"sum"], cell)
}

// Whether the cell is a German word of totals.
fn is_german_total(cell: &[u8]) -> bool
    ensures { result ≡ is_word german_totals cell.now }
{
    is_word(
        &[
            b"gesamt",
            b"gesamtsumme",
            b"gesamtergebnis",
            b"summe",
            b"insgesamt",
        ],
        cell,
    )
}

// Whether the cell is what a row of totals may have for a name.
fn is_total_word(cell: &[u8]) -> bool
    ensures { result ≡ is_total_word cell.now }
{
    let english = is_english_total(cell);
    let german = is_german_total(cell);
    english || german
}

// Whether the column has names.
#[tactic(auto, unfolding(crate::specs::Totals::has_names))]
fn has_names(records: &Records, place: usize) -> bool
    ensures { result ≡ has_names records.now place }
{
    is_name_head(records.head(place))
}

// Whether the row has a word of totals for a name in this column, if it is one of names.
#[tactic(auto, unfolding(crate::specs::Totals::may_total))]
fn may_total(records: &Records, row: usize, place: usize) -> bool
    requires { row < length records.now }
    ensures { result ≡ may_total records.now row place }
{
    !has_names(records, place) || is_total_word(records.cell(row, place))
}

// Whether the row has a number in this column, if it is one of numbers.
#[tactic(auto, unfolding(crate::specs::Totals::has_number))]
fn has_number(records: &Records, row: usize, place: usize) -> bool
    requires { row < length records.now }
    ensures { result ≡ has_number records.now row place }
{
    is_number_head(records.head(place)) && is_filled(records.cell(row, place))
}

// Whether the table has columns of names.
fn have_names(records: &Records) -> bool
    ensures { result ≡ list_any (has_names records.now) (columns records.now) }
{
    (0..records.head_count()).any(|place| has_names(records, place))
}

// Whether the row has words of totals for names.
fn all_may_total(records: &Records, row: usize) -> bool
    requires { row < length records.now }
    ensures { result ≡ list_all (may_total records.now row) (columns records.now) }
{
    (0..records.head_count()).all(|place| may_total(records, row, place))
}

// Whether the row has a number.
fn has_numbers(records: &Records, row: usize) -> bool
    requires { row < length records.now }
    ensures { result ≡ list_any (has_number records.now row) (columns records.now) }
{
    (0..records.head_count()).any(|place| has_number(records, row, place))
}

// The numbers of a column between the heads and this row under a mark, where an empty cell is 0;
// `None` if a cell is no number.
fn numbers_above(
    alloc: Global,
    records: &Records,
    row: usize,
    place: usize,
    mark: Mark,
) -> Result<Option<Vec<Decimal>>, NoMemory>
    requires { row < length records.now }
    ensures { IfOk result (λ found. MatchOption found (list_all (is_readable mark) (cells_above records.now row place) ≡ false) (λ made. (list_all (is_readable mark) (cells_above records.now row place) ≡ true) × (made.items ≡ map (number_in mark) (cells_above records.now row place)))) }
{
    let mut made = Vec::new(alloc);
    for above in 0..row.saturating_sub(1) {
        match number_in(mark, records.cell(above + 1, place)) {
            Some(number) => made.push(number)?,
            None => return Ok(None),
        }
    }
    Ok(Some(made))
}

// Whether the row's cell is the sum of those above it, all read by this mark.
#[tactic(auto, unfolding(crate::specs::Sums::is_sum))]
fn is_sum(
    alloc: Global,
    records: &Records,
    row: usize,
    place: usize,
    mark: Mark,
) -> Result<bool, NoMemory>
    requires { row < length records.now }
    ensures { IfOk result (λ is. is ≡ is_sum (cells_above records.now row place) (cell_at records.now row place) mark) }
{
    let above = numbers_above(alloc, records, row, place, mark)?;
    match (above, number_in(mark, records.cell(row, place))) {
        (Some(numbers), Some(total)) => Ok(add_up(&numbers, total)),
        _ => Ok(false),
    }
}

// Whether the row has a sum in this column, if it has a number there.
#[tactic(auto, unfolding(crate::specs::Totals::may_sum, crate::specs::Totals::is_summed))]
fn may_sum(alloc: Global, records: &Records, row: usize, place: usize) -> Result<bool, NoMemory>
    requires { row < length records.now }
    ensures { IfOk result (λ may. may ≡ may_sum records.now row place) }
{
    if !has_number(records, row, place) {
        return Ok(true);
    }
    let by_point = is_sum(alloc, records, row, place, Mark::Point)?;
    if by_point {
        return Ok(true);
    }
    is_sum(alloc, records, row, place, Mark::Comma)
}

// Whether each number of the row is the sum of those above it.
fn are_sums(alloc: Global, records: &Records, row: usize) -> Result<bool, NoMemory>
    requires { row < length records.now }
    ensures { IfOk result (λ are. are ≡ list_all (may_sum records.now row) (columns records.now)) }
{
    for place in 0..records.head_count() {
        let may = may_sum(alloc, records, row, place)?;
        if !may {
            return Ok(false);
        }
    }
    Ok(true)
}

// Whether the last row is one of totals.
#[tactic(auto, unfolding(crate::specs::Totals::has_total, crate::specs::Totals::has_sums, crate::specs::Totals::says_total))]
fn has_total(alloc: Global, records: &Records) -> Result<bool, NoMemory>
    ensures value { IfOk result (λ has. has ≡ has_total records.now) }
    ensures many { IfOk result (λ has. has ≡ true → 4 ≤ length records.now) }
{
    let count = records.len();
    if count < 4 {
        return Ok(false);
    }
    let row = count - 1;
    if !have_names(records) || !all_may_total(records, row) || !has_numbers(records, row) {
        return Ok(false);
    }
    are_sums(alloc, records, row)
}

/// Leaves out the last row of a table if it is one of totals: of the columns name, from, to, who
/// and what, each that the table has is empty there or says that it is a total; of the columns
/// supply, least, most and cost, it has a number in one at least; each such number is the exact sum
/// of those above it, read by one mark before decimals; and at least two rows stand between the
/// heads and it. A number that is too great to be added is no sum.
///
/// # Errors
///
/// `NoMemory` if an allocation is refused.
pub fn without_total(alloc: Global, records: Records) -> Result<WithoutTotal, NoMemory>
    ensures rows { IfOk result (λ made. made.rows ≡ without_total records) }
    ensures line { IfOk result (λ made. made.line ≡ total_line records) }
{
    let has = has_total(alloc, &records)?;
    if !has {
        return Ok(WithoutTotal {
            rows: records,
            line: None,
        });
    }
    let row = records.len() - 1;
    let line = records.line(row);
    Ok(WithoutTotal {
        rows: records.keep_front(row),
        line: Some(line),
    })
}
