//! The groups of a table of groups.
ghost use Rattle.std.specs.Prelude.{◌≡◌, ◌∷◌, [], ◌++◌, IfOk, OnOk, map, option_map};
ghost use Rattle.std.specs.List.{range_with_len};
ghost use Rattle.mcf_pair_tables.specs.PairGroups.{group_in, group_with, groups_in, is_in_group, kind_of, least_of, member_number, members_in, most_of, range_of, seen, seen_with};

use crate::costs::number_in;
use crate::ranges::capped;
use mcf_group_reading::{GroupEntry, GroupTable, MemberEntry};
use mcf_groups::{Group, Members};
use mcf_roster::Range;
use mcf_text::NoMemory;
use std::alloc::Global;

// Things, or persons.
fn kind_of(things: bool) -> Members
    ensures { result ≡ kind_of things }
{
    if things {
        Members::Things
    } else {
        Members::Persons
    }
}

// The least number; 0 if none is said.
fn least_of(said: Option<u64>) -> u32
    ensures { result ≡ least_of said }
{
    match said {
        Some(number) => capped(number),
        None => 0,
    }
}

// The greatest number; that of 32 bits if none is said.
fn most_of(said: Option<u64>) -> u32
    ensures { result ≡ most_of said }
{
    match said {
        Some(number) => capped(number),
        None => 4_294_967_295,
    }
}

// How many members anyone has.
fn range_of(entry: GroupEntry) -> Range
    ensures { result ≡ range_of entry }
{
    Range {
        least: least_of(entry.least),
        most: most_of(entry.most),
    }
}

// Whether the member is one of the group with this number.
fn is_in_group(number: usize, member: MemberEntry) -> bool
    ensures { result ≡ is_in_group number member }
{
    member.group == number
}

// The number of a member in 32 bits.
fn member_number(member: MemberEntry) -> u32
    ensures { result ≡ member_number member }
{
    number_in(member.member)
}

// The members of the group with a number.
fn members_in(alloc: Global, table: &GroupTable<'_>, number: usize) -> Result<Vec<u32>, NoMemory>
    ensures { IfOk result (λ made. made.items ≡ members_in table.now number) }
{
    let members = table.members();
    let mut made = Vec::new(alloc);
    for place in 0..members.len() {
        if is_in_group(number, members[place]) {
            made.push(member_number(members[place]))?;
        }
    }
    Ok(made)
}

// The group with these members.
fn group_of(members: Vec<u32>, entry: GroupEntry) -> Group
    ensures { seen result ≡ seen_with members.items entry }
{
    Group {
        of: kind_of(entry.things),
        members,
        range: range_of(entry),
    }
}

// Appends a group, which is seen so.
fn push_seen(group: Group, made: &mut Vec<Group>) -> Result<(), NoMemory>
    ensures { OnOk result (map seen made.new.items ≡ map seen made.old.items ++ seen group ∷ []) }
{
    made.push(group)?;
    Ok(())
}

// Appends the group of an entry, if there is such a one.
fn push_entry(
    members: Vec<u32>,
    entry: Option<&GroupEntry>,
    made: &mut Vec<Group>,
) -> Result<(), NoMemory>
    ensures { OnOk result (map seen made.new.items
        ≡ map seen made.old.items ++ group_with members.items (option_map (λ e. e.now) entry.entry)) }
{
    match entry {
        Some(entry) => push_seen(group_of(members, *entry), made),
        None => Ok(()),
    }
}

// Appends the group with a number.
fn push_group(
    alloc: Global,
    table: &GroupTable<'_>,
    number: usize,
    made: &mut Vec<Group>,
) -> Result<(), NoMemory>
    ensures { OnOk result (map seen made.new.items ≡ map seen made.old.items ++ group_in table.now number) }
{
    let members = members_in(alloc, table, number)?;
    let entry = table.groups().get(number.saturating_sub(1));
    push_entry(members, entry, made)
}

// The groups with these numbers.
pub(crate) fn groups_of(
    alloc: Global,
    table: &GroupTable<'_>,
    numbers: &[usize],
) -> Result<Vec<Group>, NoMemory>
    ensures { IfOk result (λ made. map seen made.items ≡ groups_in table.now numbers.now) }
{
    let mut made = Vec::new(alloc);
    for place in 0..numbers.len() {
        push_group(alloc, table, numbers[place], &mut made)?;
    }
    Ok(made)
}

// The numbers of so many groups.
pub(crate) fn all_numbers(alloc: Global, count: usize) -> Result<Vec<usize>, NoMemory>
    ensures { IfOk result (λ made. made.items ≡ range_with_len 1 count) }
{
    let mut made = Vec::new(alloc);
    for place in 0..count {
        made.push(place + 1)?;
    }
    Ok(made)
}
