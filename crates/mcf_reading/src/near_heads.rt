//! Columns that aren't read because their heads are only nearly those that are.
ghost use Rattle.std.specs.Prelude.{◌≡◌, ◌++◌, IfOk, OnOk, find};
ghost use Rattle.std.specs.List.{list_any};
ghost use Rattle.mcf_reading.specs.HeadTexts.{read_heads};
ghost use Rattle.mcf_reading.specs.NearHeads.{head_cell, is_limit, is_missing, is_nearly, is_title_of, is_word_of, may_have, meant_first, meant_head, near_fault, near_faults, near_kind, numbered, title_kind, unread_kind};

use crate::heads::{column_under, first_heads, further_count, head_text, head_word};
use crate::kinds::{Fault, FaultKind};
use crate::locations::{ColumnAt, Head, Location, Table};
use crate::told::push_told;
use mcf_table::{Records, common_word, head_letters, head_number, is_near, word_and_digits};
use mcf_text::NoMemory;
use std::alloc::Global;

// The word that the letters of a title mean, and the digits at their end.
#[derive(Clone, Copy)]
struct Meant<'t> {
    word: &'t [u8],
    digits: &'t [u8],
}

// Whether the title is this head.
fn is_title_of(alloc: Global, title: &[u8], head: Head) -> Result<bool, NoMemory>
    ensures { IfOk result (λ is. is ≡ is_title_of title.now head) }
{
    let text = head_text(alloc, head)?;
    Ok(title.eq_ignore_ascii_case(&text))
}

// Whether the title is one of these heads.
fn is_read(alloc: Global, title: &[u8], read: &[Head]) -> Result<bool, NoMemory>
    ensures { IfOk result (λ is. is ≡ list_any (is_title_of title.now) read.now) }
{
    for place in 0..read.len() {
        let is = is_title_of(alloc, title, read[place])?;
        if is {
            return Ok(true);
        }
    }
    Ok(false)
}

// Whether the head is that of a limit or of its cost.
fn is_limit(head: Head) -> bool
    ensures { result ≡ is_limit head }
{
    match head {
        Head::Least | Head::Most(_) | Head::Cost(_) => true,
        _ => false,
    }
}

// Whether the head may have these digits at its end.
fn may_have(digits: &[u8], head: Head) -> bool
    ensures { result ≡ may_have digits.now head }
{
    digits.is_empty() || is_limit(head)
}

// The head with these digits at its end.
fn numbered(table: Table, digits: &[u8], head: Head) -> Head
    ensures { result ≡ numbered table digits.now head }
{
    match (table, head) {
        (Table::Routes, Head::Most(_)) => Head::Most(head_number(digits).max(1)),
        (Table::Routes, Head::Cost(_)) => Head::Cost(head_number(digits).max(1)),
        _ => head,
    }
}

// Whether the word is the head's.
fn is_word_of(meant: Meant<'_>, head: Head) -> bool
    ensures { result ≡ is_word_of meant.entry.word.now meant.entry.digits.now head }
{
    may_have(meant.digits, head) && meant.word == head_word(head)
}

// Whether no column has the head with these digits.
fn is_missing(
    alloc: Global,
    table: Table,
    records: &Records,
    digits: &[u8],
    head: Head,
) -> Result<bool, NoMemory>
    ensures { IfOk result (λ is. is ≡ is_missing table records.now digits.now head) }
{
    let column = column_under(alloc, records, numbered(table, digits, head))?;
    Ok(!column.is_there())
}

// Whether the word is nearly the head's, and no column has the head.
fn is_nearly(
    alloc: Global,
    table: Table,
    records: &Records,
    meant: Meant<'_>,
    head: Head,
) -> Result<bool, NoMemory>
    ensures { IfOk result (λ is. is ≡ is_nearly table records.now meant.entry.word.now meant.entry.digits.now head) }
{
    let may = may_have(meant.digits, head);
    let near = is_near(meant.word, head_word(head));
    if may && near {
        is_missing(alloc, table, records, meant.digits, head)
    } else {
        Ok(false)
    }
}

// The first of these heads whose word it is.
fn same_word(meant: Meant<'_>, heads: &[Head]) -> Option<Head>
    ensures { result ≡ find (is_word_of meant.entry.word.now meant.entry.digits.now) heads.now }
{
    heads.iter().copied().find(|head| is_word_of(meant, *head))
}

// The first of these heads whose word it nearly is, if no column has the head.
fn near_word(
    alloc: Global,
    table: Table,
    records: &Records,
    meant: Meant<'_>,
    heads: &[Head],
) -> Result<Option<Head>, NoMemory>
    ensures { IfOk result (λ found. found ≡ find (is_nearly table records.now meant.entry.word.now meant.entry.digits.now) heads.now) }
{
    for place in 0..heads.len() {
        let is = is_nearly(alloc, table, records, meant, heads[place])?;
        if is {
            return Ok(Some(heads[place]));
        }
    }
    Ok(None)
}

// The head of the first ones that a word with digits at its end means.
fn meant_first(
    alloc: Global,
    table: Table,
    records: &Records,
    meant: Meant<'_>,
) -> Result<Option<Head>, NoMemory>
    ensures { IfOk result (λ found. found ≡ meant_first table records.now meant.entry.word.now meant.entry.digits.now) }
{
    let heads = first_heads(table);
    match same_word(meant, heads) {
        Some(head) => Ok(Some(head)),
        None => near_word(alloc, table, records, meant, heads),
    }
}

// The head that a title means, if it means one.
fn meant_head(
    alloc: Global,
    table: Table,
    records: &Records,
    title: &[u8],
) -> Result<Option<Head>, NoMemory>
    ensures { IfOk result (λ found. found ≡ meant_head table records.now title.now) }
{
    let letters = head_letters(alloc, title)?;
    let (word, digits) = word_and_digits(&letters);
    let meant = Meant {
        word: common_word(word),
        digits,
    };
    match meant_first(alloc, table, records, meant)? {
        Some(head) => Ok(Some(numbered(table, digits, head))),
        None => Ok(None),
    }
}

// What is wrong with a title that isn't read, and means this head.
fn near_kind(
    alloc: Global,
    records: &Records,
    title: &[u8],
    head: Head,
) -> Result<FaultKind, NoMemory>
    ensures { IfOk result (λ kind. kind ≡ near_kind records.now title.now head) }
{
    let is = is_title_of(alloc, title, head)?;
    if !is {
        return Ok(FaultKind::NearHead(head));
    }
    let count = further_count(alloc, records)?;
    Ok(FaultKind::Without(Head::Most(count + 2)))
}

// What is wrong with a title that means this head, if it isn't read.
fn unread_kind(
    alloc: Global,
    read: &[Head],
    records: &Records,
    title: &[u8],
    head: Head,
) -> Result<Option<FaultKind>, NoMemory>
    ensures { IfOk result (λ kind. kind ≡ unread_kind read.now records.now title.now head) }
{
    let is = is_read(alloc, title, read)?;
    if is {
        return Ok(None);
    }
    let kind = near_kind(alloc, records, title, head)?;
    Ok(Some(kind))
}

// What is wrong with a title that means this head, if it means one.
fn title_kind(
    alloc: Global,
    read: &[Head],
    records: &Records,
    title: &[u8],
    meant: Option<Head>,
) -> Result<Option<FaultKind>, NoMemory>
    ensures { IfOk result (λ kind. kind ≡ title_kind read.now records.now title.now meant) }
{
    match meant {
        Some(head) => unread_kind(alloc, read, records, title, head),
        None => Ok(None),
    }
}

// The cell of a column in the row of the heads.
fn head_cell(table: Table, place: usize) -> Location
    ensures { result ≡ head_cell table place }
{
    Location {
        table,
        row: 0,
        column: ColumnAt::Placed(place),
    }
}

// Appends the fault of a column's title, if it means a head and isn't read.
fn push_near_fault(
    alloc: Global,
    table: Table,
    records: &Records,
    read: &[Head],
    place: usize,
    faults: &mut Vec<Fault>,
) -> Result<(), NoMemory>
    requires { read.now ≡ read_heads table records.now }
    ensures { OnOk result (faults.new.items ≡ faults.old.items ++ near_fault table records.now place) }
{
    let title = records.head(place);
    let meant = meant_head(alloc, table, records, title)?;
    let kind = title_kind(alloc, read, records, title, meant)?;
    push_told(faults, head_cell(table, place), kind)
}

// Appends the faults of all titles that mean a head and aren't read, column by column.
pub(crate) fn push_near_faults(
    alloc: Global,
    table: Table,
    records: &Records,
    read: &[Head],
    faults: &mut Vec<Fault>,
) -> Result<(), NoMemory>
    requires { read.now ≡ read_heads table records.now }
    ensures { OnOk result (faults.new.items ≡ faults.old.items ++ near_faults table records.now) }
{
    for place in 0..records.head_count() {
        push_near_fault(alloc, table, records, read, place, faults)?;
    }
    Ok(())
}
