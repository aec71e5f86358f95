//! What counts of groups where places compete: the numbers of their links between these places and
//! the others.
ghost use Rattle.std.specs.Prelude.{◌≡◌, ◌++◌, OnOk, IfOk, drop, take};
ghost use Rattle.mcf_flows.specs.Blocking.{in_table};
ghost use Rattle.mcf_groups.specs.MarkedPlaces.{bound_if, bound_of, bounds_from, counts_ends, link_bounds};

use crate::groups::Group;
use crate::nests::owner_count;
use mcf_flows::Side;
use mcf_model::RouteRow;
use mcf_roster::{Range, Roster};
use mcf_text::NoMemory;
use std::alloc::Global;

/// A number of a group's range that counts where places compete.
#[derive(Clone, Copy, Debug, PartialEq, Eq)]
pub struct GroupBound {
    /// The number of the group, from 1.
    pub group: usize,
    /// The number of the person, for a group of things, or of the thing, from 1.
    pub owner: usize,
    /// Whether it is the least of the range, or else its most.
    pub is_least: bool,
    pub amount: u32,
}

// Marked places, and whether these must send, or take, more than they can.
#[derive(Clone, Copy)]
pub(crate) struct Cut<'m> {
    pub(crate) marks: &'m [bool],
    pub(crate) side: Side,
}

// Returns whether a table marks the place with a number.
fn is_marked(marks: &[bool], number: usize) -> bool
    ensures { result ≡ in_table marks.now number }
{
    match marks.get(number.saturating_sub(1)) {
        Some(mark) => *mark,
        None => false,
    }
}

// Returns whether a route with these ends leads out of the marked places, where those must send, or
// to them, where they must take.
pub(crate) fn counts_ends(cut: Cut<'_>, tail: u32, head: u32) -> bool
    ensures { result ≡ counts_ends cut.entry.marks.now cut.entry.side tail head }
{
    let from = is_marked(cut.marks, tail as usize);
    let to = is_marked(cut.marks, head as usize);
    match cut.side {
        Side::Send => from && !to,
        Side::Take => to && !from,
    }
}

// Appends what counts of a link that leads there, or back.
fn push_if(
    there: bool,
    back: bool,
    group: usize,
    owner: usize,
    range: Range,
    found: &mut Vec<GroupBound>,
) -> Result<(), NoMemory>
    ensures { OnOk result (found.new.items ≡ found.old.items ++ bound_if there back group owner range) }
{
    if there {
        found.push(GroupBound {
            group,
            owner,
            is_least: false,
            amount: range.most,
        })?;
    } else if back && 0 < range.least {
        found.push(GroupBound {
            group,
            owner,
            is_least: true,
            amount: range.least,
        })?;
    }
    Ok(())
}

// Appends what counts of the link of a group for one.
fn push_bound(
    cut: Cut<'_>,
    group: usize,
    range: Range,
    owner: usize,
    link: RouteRow,
    found: &mut Vec<GroupBound>,
) -> Result<(), NoMemory>
    ensures { OnOk result (found.new.items
        ≡ found.old.items ++ bound_of cut.entry.marks.now cut.entry.side group range owner link) }
{
    let there = counts_ends(cut, link.tail, link.head);
    let back = counts_ends(cut, link.head, link.tail);
    push_if(there, back, group, owner, range, found)
}

// Appends what counts of the links of a group.
fn push_links(
    cut: Cut<'_>,
    group: usize,
    range: Range,
    links: &[RouteRow],
    found: &mut Vec<GroupBound>,
) -> Result<(), NoMemory>
    ensures { OnOk result (found.new.items
        ≡ found.old.items ++ link_bounds cut.entry.marks.now cut.entry.side group range 1 links.now) }
{
    for place in 0..links.len() {
        push_bound(cut, group, range, place + 1, links[place], found)?;
    }
    Ok(())
}

// Returns the first so many links.
fn first_links(links: &[RouteRow], count: usize) -> &[RouteRow]
    ensures { result.now ≡ take count links.now }
{
    &links[..count.min(links.len())]
}

// Returns the links after so many.
fn links_after(links: &[RouteRow], count: usize) -> &[RouteRow]
    ensures { result.now ≡ drop count links.now }
{
    if count < links.len() {
        &links[count..]
    } else {
        &[]
    }
}

// Appends what counts of the links of groups, which come in turn.
fn push_groups(
    cut: Cut<'_>,
    roster: &Roster,
    groups: &[Group],
    links: &[RouteRow],
    found: &mut Vec<GroupBound>,
) -> Result<(), NoMemory>
    ensures { OnOk result (found.new.items
        ≡ found.old.items ++ bounds_from cut.entry.marks.now cut.entry.side roster.now 1 links.now groups.now) }
{
    let mut rest = links;
    for place in 0..groups.len() {
        let count = owner_count(roster, groups[place].of) as usize;
        let first = first_links(rest, count);
        push_links(cut, place + 1, groups[place].range, first, found)?;
        rest = links_after(rest, count);
    }
    Ok(())
}

// Returns what counts of the links of groups, which come in turn.
pub(crate) fn bounds_of(
    alloc: Global,
    cut: Cut<'_>,
    roster: &Roster,
    groups: &[Group],
    links: &[RouteRow],
) -> Result<Vec<GroupBound>, NoMemory>
    ensures { IfOk result (λ made. made.items
        ≡ bounds_from cut.entry.marks.now cut.entry.side roster.now 1 links.now groups.now) }
{
    let mut found = Vec::new(alloc);
    push_groups(cut, roster, groups, links, &mut found)?;
    Ok(found)
}
