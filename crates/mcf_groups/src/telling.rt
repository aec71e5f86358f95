//! Marked places of a model with groups, told of persons, things, pairs and groups.
ghost use Rattle.std.specs.Prelude.{◌≡◌, ◌≤◌, IfOk, None, drop, length, map, take};
ghost use Rattle.std.specs.List.{All};
ghost use Rattle.mcf_groups.specs.GroupFaults.{group_fault};
ghost use Rattle.mcf_groups.specs.MarkedPlaces.{IsToldOf, counts_pair};
ghost use Rattle.mcf_groups.specs.Nests.{IsSoundNest, nest_in};
ghost use Rattle.mcf_roster.specs.Amounts.{asks_persons, bound};
ghost use Rattle.mcf_roster.specs.RosterFaults.{HasBothEnds, IsSoundRoster};

use crate::answering::GroupCompetition;
use crate::bounds::{Cut, GroupBound, bounds_of, counts_ends};
use crate::faults::PLACE_LIMIT;
use crate::groups::Group;
use crate::grown::grown_by;
use crate::making::nested_row;
use crate::nests::NestTables;
use mcf_flows::Side;
use mcf_roster::{Amounts, Competition, Pair, Range, Roster};
use mcf_text::NoMemory;
use std::alloc::Global;

/// Persons, things, pairs and groups that allow no choice together. The leasts of those who must
/// have more, with the leasts of groups, add up to more than the mosts of the others, with the
/// mosts of groups and the number of pairs that count one more.
#[derive(Drop)]
pub struct ToldGroups {
    pub found: Competition,
    /// What counts of groups: for each person, or each thing, the most or the least of a range.
    pub bounds: Vec<GroupBound>,
}

// Returns the marks after so many.
fn marks_after(marks: &[bool], count: usize) -> &[bool]
    ensures { result.now ≡ drop count marks.now }
{
    if count < marks.len() {
        &marks[count..]
    } else {
        &[]
    }
}

// Returns a copy of the first so many marks.
fn first_marks(alloc: Global, marks: &[bool], count: usize) -> Result<Vec<bool>, NoMemory>
    ensures { IfOk result (λ made. made.items ≡ take count marks.now) }
{
    let mut made = Vec::new(alloc);
    let inside = count.min(marks.len());
    made.extend_from_slice(&marks[..inside])?;
    Ok(made)
}

// Returns whether the route of a pair counts one more.
fn counts_pair(cut: Cut<'_>, roster: &Roster, nest: &NestTables, pair: Pair) -> bool
    requires sound { IsSoundNest roster.now (nest_in nest.now) }
    requires few { nest.now.places ≤ PLACE_LIMIT }
    requires ends { HasBothEnds (length roster.now.takes) (length roster.now.needs) pair }
    ensures { result ≡ counts_pair cut.entry.marks.now cut.entry.side (nest_in nest.now) pair }
{
    let row = nested_row(roster, nest, pair);
    counts_ends(cut, row.tail, row.head)
}

// Returns for each pair whether its route counts one more.
fn counted_pairs(
    alloc: Global,
    cut: Cut<'_>,
    roster: &Roster,
    nest: &NestTables,
    pairs: &[Pair],
) -> Result<Vec<bool>, NoMemory>
    requires sound { IsSoundNest roster.now (nest_in nest.now) }
    requires few { nest.now.places ≤ PLACE_LIMIT }
    requires ends { All (HasBothEnds (length roster.now.takes) (length roster.now.needs)) pairs.now }
    ensures { IfOk result (λ made. made.items
        ≡ map (counts_pair cut.entry.marks.now cut.entry.side (nest_in nest.now)) pairs.now) }
{
    let mut made = Vec::new(alloc);
    for place in 0..pairs.len() {
        made.push(counts_pair(cut, roster, nest, pairs[place]))?;
    }
    Ok(made)
}

// Returns whether persons must take more than there is.
fn asks_persons(side: Side) -> bool
    ensures { result ≡ asks_persons side }
{
    match side {
        Side::Send => true,
        Side::Take => false,
    }
}

// Returns the least number of a range, or its greatest one.
fn bound(least: bool, range: Range) -> u32
    ensures { result ≡ bound least range }
{
    if least { range.least } else { range.most }
}

// Returns the least numbers of ranges, or their greatest ones.
fn bounds(alloc: Global, least: bool, ranges: &[Range]) -> Result<Vec<u32>, NoMemory>
    ensures { IfOk result (λ made. made.items ≡ map (bound least) ranges.now) }
{
    let mut made = Vec::new(alloc);
    for place in 0..ranges.len() {
        made.push(bound(least, ranges[place]))?;
    }
    Ok(made)
}

/// Returns what places that compete are told by: the persons and the things among them, with the
/// numbers by which they do: the least that a person takes, and the most that a thing gives, if
/// those must have more; and otherwise the other way round. A pair counts one more if its route
/// leads from these places to others, or to them. The link of a group for one counts its most if it
/// leads that way, and its least if it leads back.
///
/// # Errors
/// `NoMemory` if an allocation is refused.
pub fn competition_of(
    alloc: Global,
    roster: &Roster,
    groups: &[Group],
    found: &GroupCompetition,
) -> Result<ToldGroups, NoMemory>
    requires fine { group_fault roster.now groups.now ≡ None }
    ensures { IfOk result (IsToldOf roster.now groups.now found.now) }
{
    let cut = Cut {
        marks: &found.places,
        side: found.side,
    };
    let grown = grown_by(alloc, roster, groups)?;
    let pairs = counted_pairs(alloc, cut, roster, &grown.nest, roster.pairs())?;
    let bounds_told = bounds_of(alloc, cut, roster, groups, &grown.links)?;
    let persons = first_marks(alloc, cut.marks, roster.takes().len())?;
    let others = marks_after(cut.marks, roster.takes().len());
    let things = first_marks(alloc, others, roster.needs().len())?;
    let asked = asks_persons(cut.side);
    let leasts = bounds(alloc, asked, roster.takes())?;
    let mosts = bounds(alloc, !asked, roster.needs())?;
    Ok(ToldGroups {
        found: Competition {
            persons,
            things,
            side: cut.side,
            amounts: Amounts {
                persons: leasts,
                things: mosts,
                pairs,
            },
        },
        bounds: bounds_told,
    })
}
