//! The heads of the columns that are read, and their faults.
ghost use Rattle.std.specs.Prelude.{◌≡◌, ◌++◌, OnOk};
ghost use Rattle.std.specs.List.{flat_map};
ghost use Rattle.mcf_group_reading.specs.GroupHeads.{all_heads, column_faults, column_kind, column_under, columns_of, has_head, head_fault, head_word, is_needed, member_faults, place_under};

use crate::kinds::{Fault, FaultKind, Head, Location, if_kind, push_told};
use mcf_table::{Column, Records};
use mcf_text::NoMemory;

// The heads that are looked for.
static ALL_HEADS: [Head; 5] = [Head::Group, Head::Who, Head::What, Head::Least, Head::Most];

// The heads that are looked for.
pub(crate) fn all_heads() -> &'static [Head]
    ensures { result.now ≡ all_heads }
{
    &ALL_HEADS
}

/// The text of a head.
pub fn head_word(head: Head) -> &'static [u8]
    ensures { result.now ≡ head_word head }
{
    match head {
        Head::Group => b"group",
        Head::Who => b"who",
        Head::What => b"what",
        Head::Least => b"least",
        Head::Most => b"most",
    }
}

// The places of the columns that are read; `None` where not just one has the head.
#[derive(Clone, Copy)]
pub(crate) struct Columns {
    pub(crate) group: Option<usize>,
    pub(crate) who: Option<usize>,
    pub(crate) what: Option<usize>,
    pub(crate) least: Option<usize>,
    pub(crate) most: Option<usize>,
}

// The column with a head.
fn column_under(records: &Records, head: Head) -> Column
    ensures { result ≡ column_under records.now head }
{
    records.column_of(head_word(head))
}

// Whether one column or more has the head.
pub(crate) fn has_head(records: &Records, head: Head) -> bool
    ensures { result ≡ has_head records.now head }
{
    column_under(records, head).is_there()
}

// The place of the column with a head, if just one has it.
fn place_under(records: &Records, head: Head) -> Option<usize>
    ensures { result ≡ place_under records.now head }
{
    column_under(records, head).only_place()
}

// The places of the columns that are read.
pub(crate) fn columns_of(records: &Records) -> Columns
    ensures { result ≡ columns_of records.now }
{
    Columns {
        group: place_under(records, Head::Group),
        who: place_under(records, Head::Who),
        what: place_under(records, Head::What),
        least: place_under(records, Head::Least),
        most: place_under(records, Head::Most),
    }
}

// Whether a table must have a column with this head.
fn is_needed(head: Head) -> bool
    ensures { result ≡ is_needed head }
{
    match head {
        Head::Group => true,
        _ => false,
    }
}

// What is wrong with the column of a head.
fn column_kind(is_needed: bool, column: Column) -> Option<FaultKind>
    ensures { result ≡ column_kind is_needed column }
{
    match column {
        Column::Missing if is_needed => Some(FaultKind::NoColumn),
        Column::Twice => Some(FaultKind::TwoColumns),
        _ => None,
    }
}

// Appends the faults of the columns with some heads, in order.
fn push_head_faults(
    records: &Records,
    heads: &[Head],
    faults: &mut Vec<Fault>,
) -> Result<(), NoMemory>
    ensures { OnOk result (faults.new.items ≡ faults.old.items ++ flat_map (head_fault records.now) heads.now) }
{
    for head in heads {
        let kind = column_kind(is_needed(*head), column_under(records, *head));
        push_told(faults, Location::Under(*head), kind)?;
    }
    Ok(())
}

// Appends the faults of the columns that are looked for.
pub(crate) fn push_column_faults(records: &Records, faults: &mut Vec<Fault>) -> Result<(), NoMemory>
    ensures { OnOk result (faults.new.items ≡ faults.old.items ++ column_faults records.now) }
{
    push_head_faults(records, all_heads(), faults)
}

// Appends that no column names members.
pub(crate) fn push_member_faults(records: &Records, faults: &mut Vec<Fault>) -> Result<(), NoMemory>
    ensures { OnOk result (faults.new.items ≡ faults.old.items ++ member_faults records.now) }
{
    let who = has_head(records, Head::Who);
    let what = has_head(records, Head::What);
    let kind = if_kind(!who && !what, FaultKind::NoMembers);
    push_told(faults, Location::Heads, kind)
}
