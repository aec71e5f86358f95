//! Columns of a list that aren't read because their heads are only nearly those that are.
ghost use Rattle.std.specs.Prelude.{◌≡◌, ◌++◌, IfOk, OnOk, find};
ghost use Rattle.std.specs.List.{flat_map, list_any, range_with_len};
ghost use Rattle.mcf_table.specs.NearHeads.{meant_digits, meant_word};
ghost use Rattle.mcf_roster_reading.specs.Columns.{list_heads};
ghost use Rattle.mcf_roster_reading.specs.NearHeads.{is_cost, is_nearly, is_title_of, is_word_of, may_have, meant_head, near_fault, near_faults, title_kind};

use crate::cells::at_place;
use crate::heads::{column_under, head_word, is_list, list_heads};
use crate::kinds::{Fault, FaultKind, Head, Location, push_told};
use mcf_table::{Records, common_word, head_letters, is_near, word_and_digits};
use mcf_text::NoMemory;
use std::alloc::Global;

// The word that the letters of a title mean, and the digits at their end.
#[derive(Clone, Copy)]
struct Meant<'t> {
    word: &'t [u8],
    digits: &'t [u8],
}

// Whether the title is this head.
fn is_title_of(title: &[u8], head: Head) -> bool
    ensures { result ≡ is_title_of title.now head }
{
    title.eq_ignore_ascii_case(head_word(head))
}

// Whether the head is that of costs.
fn is_cost(head: Head) -> bool
    ensures { result ≡ is_cost head }
{
    match head {
        Head::Cost => true,
        _ => false,
    }
}

// Whether the head may have these digits at its end.
fn may_have(digits: &[u8], head: Head) -> bool
    ensures { result ≡ may_have digits.now head }
{
    digits.is_empty() || is_cost(head)
}

// Whether the word is the head's.
fn is_word_of(meant: Meant<'_>, head: Head) -> bool
    ensures { result ≡ is_word_of meant.entry.word.now meant.entry.digits.now head }
{
    may_have(meant.digits, head) && meant.word == head_word(head)
}

// Whether the word is nearly the head's, and no column has the head.
fn is_nearly(records: &Records, meant: Meant<'_>, head: Head) -> bool
    ensures { result ≡ is_nearly records.now meant.entry.word.now meant.entry.digits.now head }
{
    let may = may_have(meant.digits, head);
    let near = is_near(meant.word, head_word(head));
    let there = column_under(records, head).is_there();
    may && near && !there
}

// The head of a list whose word it is.
fn same_word(meant: Meant<'_>) -> Option<Head>
    ensures { result ≡ find (is_word_of meant.entry.word.now meant.entry.digits.now) list_heads }
{
    list_heads()
        .iter()
        .copied()
        .find(|head| is_word_of(meant, *head))
}

// The first head of a list whose word it nearly is, if no column has the head.
fn near_word(records: &Records, meant: Meant<'_>) -> Option<Head>
    ensures { result ≡ find (is_nearly records.now meant.entry.word.now meant.entry.digits.now) list_heads }
{
    list_heads()
        .iter()
        .copied()
        .find(|head| is_nearly(records, meant, *head))
}

// The head that a word with digits at its end means.
fn meant_head(records: &Records, meant: Meant<'_>) -> Option<Head>
    ensures { result ≡ meant_head records.now meant.entry.word.now meant.entry.digits.now }
{
    match same_word(meant) {
        Some(head) => Some(head),
        None => near_word(records, meant),
    }
}

// The head that a title means, if it means one.
fn title_head(alloc: Global, records: &Records, title: &[u8]) -> Result<Option<Head>, NoMemory>
    ensures { IfOk result (λ found. found ≡ meant_head records.now (meant_word title.now) (meant_digits title.now)) }
{
    let letters = head_letters(alloc, title)?;
    let (word, digits) = word_and_digits(&letters);
    let meant = Meant {
        word: common_word(word),
        digits,
    };
    Ok(meant_head(records, meant))
}

// Whether the title is a head of a list.
fn is_read(title: &[u8]) -> bool
    ensures { result ≡ list_any (is_title_of title.now) list_heads }
{
    list_heads().iter().any(|head| is_title_of(title, *head))
}

// What is wrong with a title that means this head: nothing, if it is a head.
fn title_kind(title: &[u8], meant: Option<Head>) -> Option<FaultKind>
    ensures { result ≡ title_kind title.now meant }
{
    match meant {
        Some(head) if !is_read(title) => Some(FaultKind::NearHead(head)),
        _ => None,
    }
}

// Appends the fault of a column's title, if it means a head and isn't one.
fn push_near_fault(
    alloc: Global,
    records: &Records,
    place: usize,
    faults: &mut Vec<Fault>,
) -> Result<(), NoMemory>
    ensures { OnOk result (faults.new.items ≡ faults.old.items ++ near_fault records.now place) }
{
    let title = records.head(place);
    let meant = title_head(alloc, records, title)?;
    push_told(
        faults,
        Location::Cell(at_place(place, 0)),
        title_kind(title, meant),
    )
}

// Appends the faults of the titles before this place that mean a head and aren't one.
fn push_near_titles(
    alloc: Global,
    records: &Records,
    count: usize,
    faults: &mut Vec<Fault>,
) -> Result<(), NoMemory>
    ensures { OnOk result (faults.new.items ≡ faults.old.items ++ flat_map (near_fault records.now) (range_with_len 0 count)) }
{
    for place in 0..count {
        push_near_fault(alloc, records, place, faults)?;
    }
    Ok(())
}

// Appends the faults of all titles of a list that mean a head and aren't one, column by column.
pub(crate) fn push_near_faults(
    alloc: Global,
    records: &Records,
    faults: &mut Vec<Fault>,
) -> Result<(), NoMemory>
    ensures { OnOk result (faults.new.items ≡ faults.old.items ++ near_faults records.now) }
{
    if is_list(records) {
        push_near_titles(alloc, records, records.head_count(), faults)
    } else {
        Ok(())
    }
}
