//! Columns that aren't read because their heads are only nearly those about periods.
ghost use Rattle.std.specs.Prelude.{◌≡◌, ◌++◌, IfOk, OnOk, find};
ghost use Rattle.std.specs.List.{flat_map, list_any, range_with_len};
ghost use Rattle.mcf_period_reading.specs.PeriodHeads.{heads_of};
ghost use Rattle.mcf_period_reading.specs.NearHeads.{head_word, is_nearly, is_title_of, is_word_of, meant_fault, meant_head, meant_heads, near_fault, near_faults, title_head};

use crate::heads::{PeriodHead, column_under, head_text, heads_of};
use crate::kinds::{PeriodFault, PeriodKind};
use mcf_reading::Table;
use mcf_table::{Records, common_word, head_letters, is_near, word_and_digits};
use mcf_text::NoMemory;
use std::alloc::Global;

// The head of routes that titles may nearly be.
static MEANT_ROUTE_HEADS: [PeriodHead; 1] = [PeriodHead::Period];

// The heads of a table that titles may nearly be.
fn meant_heads(table: Table) -> &'static [PeriodHead]
    ensures { result.now ≡ meant_heads table }
{
    match table {
        Table::Places => heads_of(Table::Places),
        Table::Routes => &MEANT_ROUTE_HEADS,
    }
}

// The word of a head: its letters.
fn head_word(head: PeriodHead) -> &'static [u8]
    ensures { result.now ≡ head_word head }
{
    match head {
        PeriodHead::Period => b"period",
        PeriodHead::KeepMost => b"keepmost",
        PeriodHead::KeepCost => b"keepcost",
        PeriodHead::FirstStock => b"firststock",
        PeriodHead::LastStock => b"laststock",
        PeriodHead::Lead => b"lead",
    }
}

// Whether the title is this head.
fn is_title_of(title: &[u8], head: PeriodHead) -> bool
    ensures { result ≡ is_title_of title.now head }
{
    title.eq_ignore_ascii_case(head_text(head))
}

// Whether the word is the head's.
fn is_word_of(word: &[u8], head: PeriodHead) -> bool
    ensures { result ≡ is_word_of word.now head }
{
    word == head_word(head)
}

// Whether the word is nearly the head's, and no column has the head.
fn is_nearly(records: &Records, word: &[u8], head: PeriodHead) -> bool
    ensures { result ≡ is_nearly records.now word.now head }
{
    let near = is_near(word, head_word(head));
    let there = column_under(records, head).is_there();
    near && !there
}

// The first of these heads whose word it is.
fn same_word(word: &[u8], heads: &[PeriodHead]) -> Option<PeriodHead>
    ensures { result ≡ find (is_word_of word.now) heads.now }
{
    heads.iter().copied().find(|head| is_word_of(word, *head))
}

// The first of these heads whose word it nearly is, if no column has the head.
fn near_word(records: &Records, word: &[u8], heads: &[PeriodHead]) -> Option<PeriodHead>
    ensures { result ≡ find (is_nearly records.now word.now) heads.now }
{
    heads
        .iter()
        .copied()
        .find(|head| is_nearly(records, word, *head))
}

// The head that a word means.
fn meant_head(table: Table, records: &Records, word: &[u8]) -> Option<PeriodHead>
    ensures { result ≡ meant_head table records.now word.now }
{
    match same_word(word, meant_heads(table)) {
        Some(head) => Some(head),
        None => near_word(records, word, meant_heads(table)),
    }
}

// Whether the title is one of these heads.
fn is_read(title: &[u8], heads: &[PeriodHead]) -> bool
    ensures { result ≡ list_any (is_title_of title.now) heads.now }
{
    heads.iter().any(|head| is_title_of(title, *head))
}

// The head that a title means, if it means one.
fn title_head(
    alloc: Global,
    table: Table,
    records: &Records,
    title: &[u8],
) -> Result<Option<PeriodHead>, NoMemory>
    ensures { IfOk result (λ found. found ≡ title_head table records.now title.now) }
{
    let letters = head_letters(alloc, title)?;
    let (word, digits) = word_and_digits(&letters);
    if !digits.is_empty() {
        return Ok(None);
    }
    if is_read(title, heads_of(table)) {
        return Ok(None);
    }
    Ok(meant_head(table, records, common_word(word)))
}

// Appends the fault of the title at a place that means this head.
fn push_meant(
    faults: &mut Vec<PeriodFault>,
    table: Table,
    place: usize,
    meant: Option<PeriodHead>,
) -> Result<(), NoMemory>
    ensures { OnOk result (faults.new.items ≡ faults.old.items ++ meant_fault table place meant) }
{
    if let Some(head) = meant {
        faults.push(PeriodFault {
            table,
            row: 0,
            head,
            kind: PeriodKind::NearHead(place),
        })?;
    }
    Ok(())
}

// Appends the fault of a column's title, if it means a head and isn't one.
fn push_near_fault(
    alloc: Global,
    table: Table,
    records: &Records,
    place: usize,
    faults: &mut Vec<PeriodFault>,
) -> Result<(), NoMemory>
    ensures { OnOk result (faults.new.items ≡ faults.old.items ++ near_fault table records.now place) }
{
    let meant = title_head(alloc, table, records, records.head(place))?;
    push_meant(faults, table, place, meant)
}

// Appends the faults of the titles before this place that mean a head and aren't one.
fn push_near_titles(
    alloc: Global,
    table: Table,
    records: &Records,
    count: usize,
    faults: &mut Vec<PeriodFault>,
) -> Result<(), NoMemory>
    ensures { OnOk result (faults.new.items ≡ faults.old.items ++ flat_map (near_fault table records.now) (range_with_len 0 count)) }
{
    for place in 0..count {
        push_near_fault(alloc, table, records, place, faults)?;
    }
    Ok(())
}

// Appends the faults of all titles of a table that mean a head and aren't one, column by column.
pub(crate) fn push_near_faults(
    alloc: Global,
    table: Table,
    records: &Records,
    faults: &mut Vec<PeriodFault>,
) -> Result<(), NoMemory>
    ensures { OnOk result (faults.new.items ≡ faults.old.items ++ near_faults table records.now) }
{
    push_near_titles(alloc, table, records, records.head_count(), faults)
}
