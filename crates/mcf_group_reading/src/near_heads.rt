//! Columns that aren't read because their heads are only nearly those that are.
ghost use Rattle.std.specs.Prelude.{◌≡◌, ◌++◌, IfOk, OnOk, find};
ghost use Rattle.std.specs.List.{flat_map, list_any, range_with_len};
ghost use Rattle.mcf_group_reading.specs.GroupHeads.{all_heads};
ghost use Rattle.mcf_group_reading.specs.NearHeads.{is_nearly, is_title_of, is_word_of, meant_head, near_fault, near_faults, title_head, title_kind};

use crate::cells::at_place;
use crate::heads::{all_heads, has_head, head_word};
use crate::kinds::{Fault, FaultKind, Head, Location, push_told};
use mcf_table::{Records, common_word, head_letters, is_near, word_and_digits};
use mcf_text::NoMemory;
use std::alloc::Global;

// Whether the title is this head.
fn is_title_of(title: &[u8], head: Head) -> bool
    ensures { result ≡ is_title_of title.now head }
{
    title.eq_ignore_ascii_case(head_word(head))
}

// Whether the word is the head's.
fn is_word_of(word: &[u8], head: Head) -> bool
    ensures { result ≡ is_word_of word.now head }
{
    word == head_word(head)
}

// Whether the word is nearly the head's, and no column has the head.
fn is_nearly(records: &Records, word: &[u8], head: Head) -> bool
    ensures { result ≡ is_nearly records.now word.now head }
{
    let near = is_near(word, head_word(head));
    let there = has_head(records, head);
    near && !there
}

// The head whose word it is.
fn same_word(word: &[u8]) -> Option<Head>
    ensures { result ≡ find (is_word_of word.now) all_heads }
{
    all_heads()
        .iter()
        .copied()
        .find(|head| is_word_of(word, *head))
}

// The first head whose word it nearly is, if no column has the head.
fn near_word(records: &Records, word: &[u8]) -> Option<Head>
    ensures { result ≡ find (is_nearly records.now word.now) all_heads }
{
    all_heads()
        .iter()
        .copied()
        .find(|head| is_nearly(records, word, *head))
}

// The head that a word means.
fn meant_head(records: &Records, word: &[u8]) -> Option<Head>
    ensures { result ≡ meant_head records.now word.now }
{
    match same_word(word) {
        Some(head) => Some(head),
        None => near_word(records, word),
    }
}

// The head that a title means, if it means one.
fn title_head(alloc: Global, records: &Records, title: &[u8]) -> Result<Option<Head>, NoMemory>
    ensures { IfOk result (λ found. found ≡ title_head records.now title.now) }
{
    let letters = head_letters(alloc, title)?;
    let (word, digits) = word_and_digits(&letters);
    if !digits.is_empty() {
        return Ok(None);
    }
    Ok(meant_head(records, common_word(word)))
}

// Whether the title is a head that is read.
fn is_read(title: &[u8]) -> bool
    ensures { result ≡ list_any (is_title_of title.now) all_heads }
{
    all_heads().iter().any(|head| is_title_of(title, *head))
}

// What is wrong with a title that means this head: nothing, if it is a head.
fn title_kind(title: &[u8], meant: Option<Head>) -> Option<FaultKind>
    ensures { result ≡ title_kind title.now meant }
{
    match meant {
        Some(head) if !is_read(title) => Some(FaultKind::NearHead(head)),
        _ => None,
    }
}

// Appends the fault of a column's title, if it means a head and isn't one.
fn push_near_fault(
    alloc: Global,
    records: &Records,
    place: usize,
    faults: &mut Vec<Fault>,
) -> Result<(), NoMemory>
    ensures { OnOk result (faults.new.items ≡ faults.old.items ++ near_fault records.now place) }
{
    let title = records.head(place);
    let meant = title_head(alloc, records, title)?;
    push_told(
        faults,
        Location::Cell(at_place(place, 0)),
        title_kind(title, meant),
    )
}

// Appends the faults of the titles before this place that mean a head and aren't one.
fn push_near_titles(
    alloc: Global,
    records: &Records,
    count: usize,
    faults: &mut Vec<Fault>,
) -> Result<(), NoMemory>
    ensures { OnOk result (faults.new.items ≡ faults.old.items ++ flat_map (near_fault records.now) (range_with_len 0 count)) }
{
    for place in 0..count {
        push_near_fault(alloc, records, place, faults)?;
    }
    Ok(())
}

// Appends the faults of all titles that mean a head and aren't one, column by column.
pub(crate) fn push_near_faults(
    alloc: Global,
    records: &Records,
    faults: &mut Vec<Fault>,
) -> Result<(), NoMemory>
    ensures { OnOk result (faults.new.items ≡ faults.old.items ++ near_faults records.now) }
{
    push_near_titles(alloc, records, records.head_count(), faults)
}
