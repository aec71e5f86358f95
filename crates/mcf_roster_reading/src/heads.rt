//! The heads of the columns that are read, and their faults.
ghost use Rattle.std.specs.Prelude.{◌≡◌, ◌++◌, IfOk, OnOk};
ghost use Rattle.std.specs.List.{flat_map};
ghost use Rattle.mcf_roster_reading.specs.Columns.{at_least_two, column_faults, column_kind, column_or_first, column_under, head_fault, head_word, is_list, is_needed, list_heads, place_under};
ghost use Rattle.mcf_roster_reading.specs.Reading.{head_faults};

use crate::kinds::{Fault, FaultKind, Head, Location, push_told};
use crate::near_heads::push_near_faults;
use mcf_table::{Column, Records};
use mcf_text::NoMemory;
use std::alloc::Global;

// The heads that are looked for in a list.
static LIST_HEADS: [Head; 5] = [Head::Who, Head::What, Head::Cost, Head::Takes, Head::Needs];

// The heads that are looked for in a list.
pub(crate) fn list_heads() -> &'static [Head]
    ensures { result.now ≡ list_heads }
{
    &LIST_HEADS
}

// The text of a head.
pub(crate) fn head_word(head: Head) -> &'static [u8]
    ensures { result.now ≡ head_word head }
{
    match head {
        Head::Who => b"who",
        Head::What => b"what",
        Head::Cost => b"cost",
        Head::Takes => b"takes",
        Head::Needs => b"needs",
    }
}

// The column with a head.
pub(crate) fn column_under(records: &Records, head: Head) -> Column
    ensures { result ≡ column_under records.now head }
{
    records.column_of(head_word(head))
}

// The place of the column with a head, if just one has it.
pub(crate) fn place_under(records: &Records, head: Head) -> Option<usize>
    ensures { result ≡ place_under records.now head }
{
    column_under(records, head).only_place()
}

// The place of the column with a head, or the first.
pub(crate) fn column_or_first(records: &Records, head: Head) -> usize
    ensures { result ≡ column_or_first records.now head }
{
    place_under(records, head).unwrap_or(0)
}

// Whether two tests hold, at least.
fn at_least_two(first: bool, second: bool, third: bool) -> bool
    ensures { result ≡ at_least_two first second third }
{
    (first && second) || (first && third) || (second && third)
}

/// Returns whether a table of persons and things is a list: it has columns with two, at least, of
/// the heads who, what and cost. Any other is a matrix.
pub fn is_list(records: &Records) -> bool
    ensures { result ≡ is_list records.now }
{
    let who = column_under(records, Head::Who).is_there();
    let what = column_under(records, Head::What).is_there();
    let cost = column_under(records, Head::Cost).is_there();
    at_least_two(who, what, cost)
}

// Whether a list must have a column with this head.
fn is_needed(head: Head) -> bool
    ensures { result ≡ is_needed head }
{
    match head {
        Head::Who | Head::What | Head::Cost => true,
        _ => false,
    }
}

// What is wrong with the column of a head.
fn column_kind(is_needed: bool, column: Column) -> Option<FaultKind>
    ensures { result ≡ column_kind is_needed column }
{
    match column {
        Column::Missing if is_needed => Some(FaultKind::NoColumn),
        Column::Twice => Some(FaultKind::TwoColumns),
        _ => None,
    }
}

// Appends the fault of a head, if it has one.
fn push_head_fault(records: &Records, head: Head, faults: &mut Vec<Fault>) -> Result<(), NoMemory>
    ensures { OnOk result (faults.new.items ≡ faults.old.items ++ head_fault records.now head) }
{
    let kind = column_kind(is_needed(head), column_under(records, head));
    push_told(faults, Location::Under(head), kind)
}

// Appends the faults of heads, in order.
fn push_head_faults(
    records: &Records,
    heads: &[Head],
    faults: &mut Vec<Fault>,
) -> Result<(), NoMemory>
    ensures { OnOk result (faults.new.items ≡ faults.old.items ++ flat_map (head_fault records.now) heads.now) }
{
    for head in heads {
        push_head_fault(records, *head, faults)?;
    }
    Ok(())
}

// Appends the faults of the heads that are looked for, in their order.
fn push_column_faults(records: &Records, faults: &mut Vec<Fault>) -> Result<(), NoMemory>
    ensures { OnOk result (faults.new.items ≡ faults.old.items ++ column_faults records.now) }
{
    if is_list(records) {
        push_head_faults(records, list_heads(), faults)
    } else {
        push_head_faults(records, &[Head::Takes], faults)
    }
}

// The faults of heads, in order.
#[tactic(auto, unfolding(crate::specs::Reading::head_faults))]
pub(crate) fn head_faults(alloc: Global, records: &Records) -> Result<Vec<Fault>, NoMemory>
    ensures { IfOk result (λ found. found.items ≡ head_faults records.now) }
{
    let mut faults = Vec::new(alloc);
    push_column_faults(records, &mut faults)?;
    push_near_faults(alloc, records, &mut faults)?;
    Ok(faults)
}
